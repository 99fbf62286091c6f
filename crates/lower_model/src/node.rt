use crate::{Items, Kind};

/// A node of a lower tree: the number of its directory, its name in there, and what it holds.
#[derive(Debug, Drop)]
pub struct LowerNode {
    /// The number of the directory that it stands in; 0 for the root itself.
    pub parent: u32,
    /// Directory or file.
    pub kind: Kind,
    /// Its octets; empty for the root alone.
    pub name: Items<u8>,
    /// The octets of the attribute `user.ecryptfs`, where a file has it.
    pub attribute: Option<Items<u8>>,
    /// The octets of a file; empty for a directory.
    pub body: Items<u8>,
}

/// A directory that can get a further entry, and the name of its last entry, empty where it has none yet.
#[derive(Debug, Drop)]
pub struct OpenDir {
    /// The directory's number.
    pub node: u32,
    /// The name of its last entry.
    pub last: Items<u8>,
}
