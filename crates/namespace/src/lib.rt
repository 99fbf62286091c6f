//! The plain tree over a store of lower names, under a form of names, with the log of its turns.
#![tactic(auto)]

mod changes;
mod copy;
mod fault;
mod listing;
mod names;
mod opening;
mod state;

pub use fault::NamesFault;
pub use names::Names;

#[cfg(test)]
mod tests;
