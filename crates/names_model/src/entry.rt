use lower_model::{Items, Kind};

/// What a lower name leads to.
#[derive(Clone, Copy, Debug, PartialEq, Eq)]
pub struct Linked {
    /// Directory or file.
    pub kind: Kind,
    /// The number of the node.
    pub node: u32,
}

/// An entry of a lower directory.
#[derive(Debug, Drop)]
pub struct LowerName {
    /// The octets of the name.
    pub name: Items<u8>,
    /// Directory or file.
    pub kind: Kind,
    /// The number of the node.
    pub node: u32,
}
