//! A lower tree as plain data: what the host holds below an eCryptfs mount.
#![tactic(auto)]

mod items;
mod kind;
mod limits;
mod meta_place;
mod name;
mod node;
mod tree;

pub use items::Items;
pub use kind::Kind;
pub use limits::{LONGEST_ATTRIBUTE, MOST_ENTRIES};
pub use meta_place::MetaPlace;
pub use name::{comes_before, is_name};
pub use node::{LowerNode, OpenDir};
pub use tree::LowerTree;
