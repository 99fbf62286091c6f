//! The files of a mount, over eight stores of bodies: eight shards, by the numbers of their nodes.
#![tactic(auto)]

mod files;
mod shards;

pub use files::MountedFiles;
pub use shards::StuckStore;
