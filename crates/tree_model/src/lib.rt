//! The plain tree as data: names, paths, the calls on a tree and their replies, and what stands at each node number.
#![tactic(auto)]

mod call;
mod change;
mod dir_listing;
mod entry;
mod limits;
mod listed;
mod name;
mod names;
mod path;
mod place;
mod renaming;
mod spare;

pub use call::{TreeCall, TreeRefusal, TreeReply};
pub use change::{Change, Making, Moving, Prepared, Removal};
pub use dir_listing::{DirEntries, DirListing};
pub use entry::{Entry, EntryName};
pub use limits::MOST_NODES;
pub use listed::Listed;
pub use name::Name;
pub use names::Names;
pub use path::{Parts, Path};
pub use place::{Directory, ForeignEntry, Place};
pub use renaming::Renaming;
pub use spare::Spare;
