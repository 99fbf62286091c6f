//! A whole run of the program: a job in, a report or a show text out; or two jobs made, and the text that sums up their reports.
#![tactic(auto)]

mod answer;
mod listed;
mod make;
mod memory;
mod mount;
mod output;
mod refusal;
mod replay_job;
mod replay_output;
mod ring;
mod run;
mod serve;
mod show;
mod source_and_sink;
mod status;
mod stream;
mod words;

pub use memory::{MemSink, MemSource};
pub use run::run_alone;
pub use source_and_sink::{Failed, Sink, Source};
pub use status::{
    BAD_JOB, LOWER_FAULT, MEMORY, OK, READ_FAULT, TOO_LONG, USAGE, WRITE_FAULT, status_name,
};
