ghost use Rattle.std.specs.Prelude.{◌≡◌};
ghost use Rattle.mount_run.specs.Status.{status_word};

/// The command was done, and its output is written.
pub const OK: u8 = 0;

/// Memory ran out before the first octet of output was written.
pub const MEMORY: u8 = 1;

/// The words are in no command's grammar.
pub const USAGE: u8 = 2;

/// The input is no job.
pub const BAD_JOB: u8 = 3;

/// The input couldn't be read.
pub const READ_FAULT: u8 = 4;

/// The output couldn't be written to its end.
pub const WRITE_FAULT: u8 = 5;

/// A lower part failed where the run couldn't go on without it.
pub const LOWER_FAULT: u8 = 6;

/// The input has more octets than a job may have.
pub const TOO_LONG: u8 = 7;

/// What a status other than `OK` is called on standard error.
pub fn status_name(status: u8) -> &'static str
    ensures { result.now ≡ status_word status }
{
    match status {
        OK => "ok",
        MEMORY => "memory",
        USAGE => "usage",
        BAD_JOB => "bad job",
        READ_FAULT => "read fault",
        WRITE_FAULT => "write fault",
        LOWER_FAULT => "lower fault",
        TOO_LONG => "too long",
        _ => "unknown",
    }
}
