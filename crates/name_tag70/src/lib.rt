//! The forms of names that a mount may have: each name stands for itself, or names are coded in tag 70 packets.
#![tactic(auto)]

mod lead;
mod octets;
mod own_key;
mod packet;
mod plain;
mod plain_text;
mod read_again;
mod reader;
mod tag70;
#[cfg(test)]
mod tests;
mod writer;

pub use coding_model::{LONGEST_CODED_NAME, LONGEST_CODED_OCTETS};
pub use name_form::{NameError, NameFault, NameForm};
pub use names_model::LONGEST_PLAIN_NAME;
pub use plain::PlainNames;
pub use read_again::coded_names_are_read_again;
pub use tag70::Tag70;
