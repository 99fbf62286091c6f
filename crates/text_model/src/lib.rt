//! The spelling of lines, numbers, octets, names and paths: the vocabulary of jobs and reports.
#![tactic(auto)]

mod plain;

pub use plain::{are_plain, is_plain};
