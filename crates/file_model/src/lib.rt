//! Byte files: what their calls do, which logs of their turns are lawful, and how what a shard keeps of an open file and the
//! lower file stand for its octets.
#![tactic(auto)]

mod mark;
mod open_slot;

pub use mark::MetadataMark;
pub use open_slot::OpenSlot;
