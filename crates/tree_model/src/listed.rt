use crate::Path;
use lower_model::Items;

/// An item of the listing of a tree.
#[derive(Debug, Drop)]
pub enum Listed {
    /// An entry that is shown: its path and its node.
    Shown(Path, u32),
    /// A foreign entry: the path of its directory, its lower name and its node.
    Foreign(Path, Items<u8>, u32),
}
