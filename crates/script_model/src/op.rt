use lower_model::Items;
use tree_model::{Path, Renaming};

/// An operation of a script, with its fields in the order of its line.
#[derive(Debug, Drop)]
pub enum Op {
    /// Make a directory.
    Mkdir(Path),
    /// Remove an empty directory.
    Rmdir(Path),
    /// Remove a file.
    Unlink(Path),
    /// Give an entry another path.
    Rename(Renaming),
    /// Tell a directory's entries.
    List(Path),
    /// Tell the kind and the node of what a path leads to.
    Stat(Path),
    /// Open a file in a slot.
    Open(u32, Path),
    /// Make a file, and open it in a slot.
    Create(u32, Path),
    /// Read, of the file in a slot, from an offset on, so many octets.
    Read(u32, u64, usize),
    /// Write, into the file in a slot, at an offset, these octets.
    Write(u32, u64, Items<u8>),
    /// Set the size of the file in a slot.
    Truncate(u32, u64),
    /// Tell the size of the file in a slot.
    Size(u32),
    /// Write out the file in a slot.
    Sync(u32),
    /// Close a slot.
    Close(u32),
}
