//! A job: what a run of the program is given.
#![tactic(auto)]

mod job;
mod limits;

pub use job::{Job, NameCoding};
pub use limits::{LONGEST_PASSPHRASE, MOST_ITEMS, MOST_OCTETS, MOST_SESSIONS};
pub use lower_model::MetaPlace;
