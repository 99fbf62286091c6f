//! Tag 3 packets (RFC 2440, 5.3): a wrapped file key.
#![tactic(auto)]

mod reader;
#[cfg(test)]
mod tests;
mod writer;

pub use packet_model::{MAX_WRAPPED, PacketError, Tag3};
pub use reader::read_tag3;
pub use writer::write_tag3;
