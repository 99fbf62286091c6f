//! The lower parts of a mount in memory, some of whose calls may be made to fail.
#![tactic(auto)]

mod bodies;
mod changes;
mod maker;
mod names;
mod places;
mod plan;
mod shown;
mod split;
mod stored;
#[cfg(test)]
mod tests;
mod united;

pub use bodies::MemBodies;
pub use maker::{MemFails, MemMaker};
pub use names::MemNames;
pub use stored::{StoredFile, TORN};
