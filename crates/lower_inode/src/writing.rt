// What is marked of the open files of a shard is written out.
ghost use Rattle.std.specs.Prelude.{◌≤◌, ◌<◌, ◌^◌, List, OnErr, OnOk, is_err, length};
ghost use Rattle.lower_tree.specs.Held.{stores};
ghost use Rattle.session_model.specs.declared.entry.FileEntry.{FileEntry};
ghost use Rattle.file_model.specs.Shard.{IsCutWriteOut, IsWholeWriteOut};
ghost use Rattle.lower_inode.specs.NodeTurn.{AreNodes, IsNode};
ghost use Rattle.lower_inode.specs.Shards.{shard_with};
ghost use Rattle.lower_inode.specs.WritingOut.{IsNodeWriteOut, IsTableWriteOut};

use crate::node::OpenNode;
use crate::table::STORES;
use lower_tree::{BodyFormat, Failed, LowerBodies, Steps};
use std::sync::ledger::Ledger;

/// Writes out what is marked of the file of a node, if it is open.
fn write_node<B: LowerBodies, F: BodyFormat, L: Ledger>(
    bodies: &mut B,
    format: &F,
    node: u32,
    entry: &mut Option<OpenNode<F::Key>>,
    steps: &mut Steps<L>,
) -> Result<(), Failed>
    requires { IsNode (B.held bodies.old) node entry.old }
    ensures { IsNodeWriteOut (F.rules format.now) (is_err result) (B.held bodies.old) (B.held bodies.new) node entry.old entry.new }
{
    match entry {
        Some(opened) => opened.file.write_out(bodies, format, node, steps),
        None => Ok(()),
    }
}

/// Writes out what is marked of each open file of a shard, in rising order of nodes. The first call that fails ends it.
pub(crate) fn write_nodes<B: LowerBodies, F: BodyFormat, L: Ledger>(
    bodies: &mut B,
    format: &F,
    index: u32,
    nodes: &mut [Option<OpenNode<F::Key>>],
    steps: &mut Steps<L>,
) -> Result<(), Failed>
    requires index { index < stores }
    requires few { length nodes.old ≤ 2 ^ 29 }
    requires nodes { AreNodes (B.held bodies.old) index nodes.old }
    ensures table { IsTableWriteOut (F.rules format.now) (is_err result) index (B.held bodies.old) (B.held bodies.new) nodes.old nodes.new }
    ensures whole { OnOk result ((log : List FileEntry) → IsWholeWriteOut (F.rules format.now) (B.held bodies.old) (B.held bodies.new) (shard_with log index nodes.old) (shard_with log index nodes.new)) }
    ensures cut { OnErr result ((log : List FileEntry) → IsCutWriteOut (F.rules format.now) (B.held bodies.old) (B.held bodies.new) (shard_with log index nodes.old) (shard_with log index nodes.new)) }
{
    for (place, entry) in nodes.iter_mut().enumerate() {
        let node = (STORES * place) as u32 + index;
        write_node(bodies, format, node, entry, steps)?;
    }
    Ok(())
}
