//! Packet lengths of one octet and of two (RFC 2440, 4.2.2.1 and 4.2.2.2), and the frame of a packet. Nothing here takes
//! memory.
#![tactic(auto)]

mod frame;
mod length;
#[cfg(test)]
mod tests;

pub use frame::{no_packet_begins_another, read_packet};
pub use length::{read_length, write_length};
pub use packet_model::{LengthFault, MAX_LENGTH};
