//! Makes the two jobs of a `make` by its draws, and writes the text that sums up their reports.
#![tactic(auto)]

mod draws;
mod job;
mod names;
mod new_files;
mod number;
mod rounds;
mod summary;

pub use draws::Draws;
pub use job::{job_a, job_b};
pub use number::number_of_word;
pub use summary::write_summary;
