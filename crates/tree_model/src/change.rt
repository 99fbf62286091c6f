use crate::{EntryName, Name, TreeReply};
use lower_model::Kind;

/// A new entry: the directory that it goes to, its name and its kind. Its node has the next number.
#[derive(Debug, Drop)]
pub struct Making {
    /// The number of the directory.
    pub dir: u32,
    /// The name.
    pub name: EntryName,
    /// What is made.
    pub kind: Kind,
}

/// An entry that goes, and its node with it.
#[derive(Debug, Drop)]
pub struct Removal {
    /// The number of the directory that it stands in.
    pub dir: u32,
    /// Its name.
    pub name: Name,
    /// Its node.
    pub node: u32,
}

/// An entry that gets another place, and what goes from there.
#[derive(Debug, Drop)]
pub struct Moving {
    /// The number of the directory that it stands in.
    pub from: u32,
    /// Its name there.
    pub was: Name,
    /// Its node.
    pub node: u32,
    /// The number of the directory that it goes to.
    pub to: u32,
    /// Its name there.
    pub name: EntryName,
    /// The node that has this name there, which goes.
    pub target: Option<u32>,
}

/// A change of a plain tree.
#[derive(Debug, Drop)]
pub enum Change {
    /// An entry is made.
    Make(Making),
    /// An entry goes.
    Remove(Removal),
    /// An entry gets another place.
    Move(Moving),
}

/// What a call comes to: an answer that changes nothing, or a change.
#[derive(Debug, Drop)]
pub enum Prepared {
    /// The answer.
    Answer(TreeReply),
    /// The change, which is still to be made.
    Change(Change),
}
