use lower_model::Items;
use plain_tree::{Spare, Tree};

/// A plain tree over lower names.
#[derive(Debug, Drop)]
pub struct State<N, U> {
    /// The lower names.
    pub lower: N,
    /// The form of names.
    pub form: U,
    /// What is shown.
    pub tree: Tree,
    /// The lower name of each node, by its number.
    pub kept: Vec<Items<u8>>,
    /// Room for the next change.
    pub spare: Spare,
}
