use body_model::Content;
use lower_model::Items;
use tree_model::Path;

/// What stands at a node.
#[derive(Debug, Drop)]
pub enum ShowWhat {
    /// A directory.
    Dir,
    /// A file, and what it decodes to.
    File(Content),
    /// A foreign entry, and its lower name.
    Foreign(Items<u8>),
}

/// A line of a show text.
#[derive(Debug, Drop)]
pub struct ShowItem {
    /// The number of the node, by which the image counts it.
    pub node: u32,
    /// Where it stands in the tree; of a foreign entry, where its directory stands.
    pub path: Path,
    /// What stands there.
    pub what: ShowWhat,
}
