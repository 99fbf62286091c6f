//! Reads the lines of a script.
#![tactic(auto)]

mod fields;
mod file_fields;
mod read;
#[cfg(test)]
mod tests;

pub use read::{OpError, read_op};
pub use script_model::Op;
