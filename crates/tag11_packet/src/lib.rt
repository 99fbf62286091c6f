//! Tag 11 packets (cf. RFC 2440, 5.9, under eCryptfs's own number): a signature that names a wrapping key.
#![tactic(auto)]

mod reader;
#[cfg(test)]
mod tests;
mod writer;

pub use packet_model::{PacketError, Tag11};
pub use reader::read_tag11;
pub use writer::write_tag11;
