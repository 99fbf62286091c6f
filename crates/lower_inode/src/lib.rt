//! The open files of every eighth node over a store of bodies, and the log of their turns.
#![tactic(auto)]

mod node;
mod room;
mod shard;
mod table;
mod writing;

pub use room::ReadRoom;
pub use shard::{Shard, WriteOutFault};
