//! A session that makes its calls on a tree and on files, one after another.
#![tactic(auto)]

mod file_call;
mod item;
mod part;
mod rooms;
mod running;
#[cfg(test)]
mod tests;

pub use part::{FilePart, TreePart};
pub use running::RunningSession;
