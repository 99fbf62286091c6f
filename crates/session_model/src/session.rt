use crate::{FileCall, FileReply, Reply};
use tree_model::{TreeCall, TreeReply};

/// What a slot of a session is.
#[derive(Clone, Copy, Debug, PartialEq, Eq)]
pub enum Slot {
    /// Closed.
    Closed,
    /// Open for the file of this node, and no close of it was tried yet.
    Open(u32),
    /// Open for the file of this node, and a close of it was refused.
    Kept(u32),
}

/// What a session has in hand.
#[derive(Clone, Copy, Debug, PartialEq, Eq)]
pub enum Hand {
    /// Nothing: its next operation is to begin.
    Nothing,
    /// It waits for the first call of an open or create in this slot.
    Finds(u32),
    /// The first call of an open or create in this slot gave this node, and the second is to be
    /// made.
    Found(u32, u32),
    /// It waits for the second call of an open or create in this slot, on the file of this node.
    Attaches(u32, u32),
    /// It waits for another call on the tree.
    OnTree,
    /// It waits for another call on a file.
    OnFile,
    /// It waits for the close of this slot, which is open for the file of this node.
    Closes(u32, u32),
}

/// What a session is told in answer to its call.
#[derive(Debug, Drop)]
pub enum Answer {
    /// What the tree answered.
    Tree(TreeReply),
    /// What the file answered.
    File(FileReply),
    /// Memory ran out before the call was made.
    Memory,
}

/// What a session does next.
#[derive(Debug, Drop)]
pub enum Doing {
    /// It makes this call on the tree.
    CallsTree(TreeCall),
    /// It makes this call on the file of this node.
    CallsFile(u32, FileCall),
    /// Its operation makes no call, and has this reply.
    Replies(Reply),
    /// It has ended.
    Ends,
}

/// What a session does next, and what it has in hand then.
#[derive(Debug, Drop)]
pub struct Begun {
    /// What it does.
    pub doing: Doing,
    /// What it has in hand then.
    pub hand: Hand,
}

/// What an answer comes to.
#[derive(Debug, Drop)]
pub enum Heard {
    /// The operation goes on with this in hand.
    GoesOn(Hand),
    /// The operation is over with this reply.
    Ends(Reply),
    /// The operation is over with this reply, and this slot has become this.
    EndsWith(u32, Slot, Reply),
}

/// What a session asks for.
#[derive(Debug, Drop)]
pub enum Ask {
    /// This call on the tree.
    Tree(TreeCall),
    /// This call on the file of this node.
    File(u32, FileCall),
    /// Nothing: its operation made no call, and its reply is kept.
    Done,
    /// Nothing: no operation is left.
    End,
}
