// The table of the open files of a shard: that of node n at n / 8.
ghost use Rattle.std.specs.Prelude.{◌≡◌, ◌≢◌, ◌+◌, ◌%◌, ◌/◌, ◌≤◌, ◌<◌, ℕ, None, OnOk, OnErr, length, max, slice_get};
ghost use Rattle.lower_tree.specs.Held.{stores};
ghost use Rattle.session_model.specs.FileCall.{IsFileCall};
ghost use Rattle.file_model.specs.FileLog.{IsAttach};
ghost use Rattle.lower_inode.specs.CipherSteps.{most_steps};
ghost use Rattle.lower_inode.specs.NodeTurn.{IsNode, IsNodeTurn};
ghost use Rattle.lower_inode.specs.Shards.{HasRoomFor, flat, node_in};

use crate::node::{OpenNode, end, turn};
use lower_tree::{BodyFormat, LowerBodies, Steps};
use session_model::{FileCall, FileReply};
use std::alloc::{AllocError, Global};
use std::sync::ledger::Ledger;

/// How many shards there are.
pub(crate) const STORES: usize = 8;

/// Makes the table this long, if it is shorter, with no more open files.
pub(crate) fn make_long<K>(
    nodes: &mut Vec<Option<OpenNode<K>>>,
    len: usize,
) -> Result<(), AllocError>
    ensures long { OnOk result (len ≤ length nodes.new.items) }
    ensures short { OnErr result (length nodes.old.items < len) }
    ensures most { length nodes.new.items ≤ max (length nodes.old.items) len }
    ensures same { (i : ℕ) → flat (slice_get nodes.new.items i) ≡ flat (slice_get nodes.old.items i) }
{
    while nodes.len() < len {
        match nodes.push(None) {
            Ok(()) => {}
            Err(fault) => match fault.value {
                None => return Err(AllocError),
                Some(_node) => unreachable!(),
            },
        }
    }
    Ok(())
}

/// One call on the file of a node. An opening needs the node's place in the table.
fn turn_there<B: LowerBodies, F: BodyFormat, L: Ledger>(
    alloc: Global,
    bodies: &mut B,
    format: &F,
    nodes: &mut Vec<Option<OpenNode<F::Key>>>,
    session: u32,
    node: u32,
    call: &FileCall,
    told: Vec<u8>,
    steps: &mut Steps<L>,
) -> FileReply
    requires call { IsFileCall call.now }
    requires room { HasRoomFor call.now (length told.items) }
    requires node { IsNode (B.held bodies.old) node (node_in (node % stores) nodes.old.items node) }
    requires place { IsAttach call.now → node / stores < length nodes.old.items }
    ensures len { length nodes.new.items ≡ length nodes.old.items }
    ensures turn { IsNodeTurn (F.rules format.now) (B.held bodies.old) (B.held bodies.new) node
        (node_in (node % stores) nodes.old.items node) (node_in (node % stores) nodes.new.items node) session call.now result }
    ensures steps { steps.new ≤ steps.old + most_steps (node_in (node % stores) nodes.old.items node) call.now }
    ensures others { (other : ℕ) → other ≢ node → node_in (node % stores) nodes.new.items other ≡ node_in (node % stores) nodes.old.items other }
{
    let Some(entry) = nodes.get_mut(node as usize / STORES) else {
        return FileReply::NotOpen;
    };
    turn(
        alloc, bodies, format, node, entry, session, call, told, steps,
    )
}

/// One call on the file of a node, whose place in the table is made for an opening.
pub(crate) fn turn_at<B: LowerBodies, F: BodyFormat, L: Ledger>(
    alloc: Global,
    bodies: &mut B,
    format: &F,
    nodes: &mut Vec<Option<OpenNode<F::Key>>>,
    session: u32,
    node: u32,
    call: &FileCall,
    told: Vec<u8>,
    steps: &mut Steps<L>,
) -> FileReply
    requires call { IsFileCall call.now }
    requires room { HasRoomFor call.now (length told.items) }
    requires node { IsNode (B.held bodies.old) node (node_in (node % stores) nodes.old.items node) }
    ensures most { length nodes.new.items ≤ max (length nodes.old.items) (node / stores + 1) }
    ensures turn { IsNodeTurn (F.rules format.now) (B.held bodies.old) (B.held bodies.new) node
        (node_in (node % stores) nodes.old.items node) (node_in (node % stores) nodes.new.items node) session call.now result }
    ensures steps { steps.new ≤ steps.old + most_steps (node_in (node % stores) nodes.old.items node) call.now }
    ensures others { (other : ℕ) → other ≢ node → node_in (node % stores) nodes.new.items other ≡ node_in (node % stores) nodes.old.items other }
{
    match call {
        FileCall::Attach(_) => match make_long(nodes, node as usize / STORES + 1) {
            Ok(()) => turn_there(
                alloc, bodies, format, nodes, session, node, call, told, steps,
            ),
            Err(_) => FileReply::Memory,
        },
        _ => turn_there(
            alloc, bodies, format, nodes, session, node, call, told, steps,
        ),
    }
}

/// Ends all files that are open, and spends their keys.
pub(crate) fn end_all<F: BodyFormat>(format: &F, mut nodes: Vec<Option<OpenNode<F::Key>>>) {
    while let Some(mut entry) = nodes.pop() {
        end(format, &mut entry);
        match entry {
            None => {}
            Some(_node) => unreachable!(),
        }
    }
    nodes.destroy_empty();
}
