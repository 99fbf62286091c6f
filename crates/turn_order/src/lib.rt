//! Sessions on one thread: their calls are made in the order of a schedule, and then each session runs to its end.
#![tactic(auto)]

mod mounted_tree;
mod order;
mod replaying;

pub use order::run_in_order;
pub use replaying::{ReplayFault, Replayed, replay};
