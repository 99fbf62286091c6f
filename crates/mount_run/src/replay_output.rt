use lower_model::LowerTree;

/// What a replay of a job writes.
#[derive(Debug, Drop)]
pub enum ReplayOutput {
    /// The report.
    Report {
        /// The lower tree that came out.
        image: LowerTree,
        /// The text of the report.
        text: Vec<u8>,
    },
    /// The output of a run that a failure of the lower parts ended.
    Stuck {
        /// Its text.
        text: Vec<u8>,
    },
}
