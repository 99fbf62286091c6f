//! What `make` does, as definitions: the numbers that it draws, its two jobs, and the text that sums up their reports.
#![tactic(auto)]

mod limits;

pub use limits::{GREATEST_NUMBER, LEAST_NUMBER};
