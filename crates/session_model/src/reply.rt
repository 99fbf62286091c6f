use crate::FileReply;
use tree_model::TreeReply;

/// What a session is told of an operation.
#[derive(Debug, Drop)]
pub enum Reply {
    /// What its call on the tree answered.
    Tree(TreeReply),
    /// What its call on a file answered.
    File(FileReply),
    /// The file is open, and this is its node.
    Opened(u32),
    /// The slot is open already.
    Slot,
    /// The slot isn't open.
    Handle,
    /// Memory ran out before a call was made.
    Memory,
}
