//! What a run promises: the report of a job, how it ends, and when it serves the job.
#![tactic(auto)]

mod end;

pub use end::{MAKER_PART, NAMES_PART, PARTS, ReportEnd};
