/// The output of a command, and the exit status that it is answered with.
#[derive(Debug, Drop)]
pub struct Output {
    /// `OK`; `LOWER_FAULT` where a lower part failed; `BAD_JOB` or `TOO_LONG` where the input is no job.
    pub status: u8,
    /// The text to be written.
    pub text: Vec<u8>,
}
