//! Upper and lower names: what a store of lower names holds, what is shown of it under a form of names, and which lower trees
//! carry a plain tree.
#![tactic(auto)]

mod entry;
mod fault;
mod limits;

pub use entry::{Linked, LowerName};
pub use fault::{CodingFault, NameFault};
pub use limits::LONGEST_PLAIN_NAME;
