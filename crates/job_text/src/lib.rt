//! Reads a job: what a run of the program is given.
#![tactic(auto)]

mod fault;
mod image;
mod line;
mod schedule;
mod script;
mod settings;
mod whole_job;

pub use fault::JobError;
pub use job_model::{Job, MetaPlace, NameCoding};
pub use whole_job::read_job;

#[cfg(test)]
mod tests;
