ghost use Rattle.std.specs.Prelude.{◌≡◌, IfOk, OnErr};
ghost use Rattle.namespace.specs.Ends.{HasNames, Tells};

use std::alloc::{AllocError, Global};
use tree_model::TreeReply;

/// A copy of a reply. Only names take memory.
fn copied_reply(alloc: Global, reply: &TreeReply) -> Result<TreeReply, AllocError>
    ensures ok { IfOk result (λ r. r ≡ reply.now) }
    ensures err { OnErr result (HasNames reply.now) }
{
    match reply {
        TreeReply::Node(node) => Ok(TreeReply::Node(*node)),
        TreeReply::Done => Ok(TreeReply::Done),
        TreeReply::Names(names) => Ok(TreeReply::Names(names.copied(alloc)?)),
        TreeReply::Info(kind, node) => Ok(TreeReply::Info(*kind, *node)),
        TreeReply::Refused(refusal) => Ok(TreeReply::Refused(*refusal)),
        TreeReply::LowerFault => Ok(TreeReply::LowerFault),
        TreeReply::Memory => Ok(TreeReply::Memory),
    }
}

/// A reply for the log, and the same for the session. Without memory for the names both are `Memory`.
pub fn told_twice(alloc: Global, reply: TreeReply) -> (TreeReply, TreeReply)
    ensures same { result.0 ≡ result.1 }
    ensures told { Tells result.1 reply }
{
    match copied_reply(alloc, &reply) {
        Ok(own) => (reply, own),
        Err(_) => (TreeReply::Memory, TreeReply::Memory),
    }
}
