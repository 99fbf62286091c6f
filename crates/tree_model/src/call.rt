use crate::{DirListing, Path, Renaming};
use lower_model::Kind;

/// A call on the plain tree.
#[derive(Debug, Drop)]
pub enum TreeCall {
    /// Tell a file's node.
    Resolve(Path),
    /// Make an empty file.
    Create(Path),
    /// Make a directory.
    Mkdir(Path),
    /// Remove an empty directory.
    Rmdir(Path),
    /// Remove a file.
    Unlink(Path),
    /// Give an entry another place.
    Rename(Renaming),
    /// Tell a directory's entries.
    List(Path),
    /// Tell what a path leads to.
    Stat(Path),
}

/// Why a call on the plain tree is refused.
#[derive(Clone, Copy, Debug, PartialEq, Eq)]
pub enum TreeRefusal {
    /// The new name is longer than the mount's names may be.
    NameLong,
    /// A part of the path isn't there.
    NotFound,
    /// A file stands where a directory is asked for.
    NotDir,
    /// The call can't be made on the root.
    IsRoot,
    /// The name is shown already, or a foreign entry blocks it.
    Exists,
    /// A directory stands where a file is asked for.
    IsDir,
    /// A directory can't go to a place below itself.
    Inside,
    /// The directory has entries.
    NotEmpty,
    /// There are as many nodes as there can be.
    NoNodes,
}

/// What a call on the plain tree answers.
#[derive(Debug, Drop)]
pub enum TreeReply {
    /// The node of a file.
    Node(u32),
    /// It is done.
    Done,
    /// The entries of a directory, in octet order of their names.
    Names(DirListing),
    /// The kind and the node of what a path leads to.
    Info(Kind, u32),
    /// It is refused, and nothing has changed.
    Refused(TreeRefusal),
    /// The lower tree failed, and nothing has changed.
    LowerFault,
    /// Memory ran out, and nothing has changed.
    Memory,
}
