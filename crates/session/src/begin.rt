ghost use Rattle.std.specs.Prelude.{◌≡◌, ◌+◌, ◌-◌, ◌≤◌, [], ◌∷◌, length, drop, IfSome, MatchOption, slice_get};
ghost use Rattle.std.specs.List.{AllByRecursion};
ghost use Rattle.session_model.specs.Runs.{is_open as is_open_slot};
ghost use Rattle.session_model.specs.Session.{begun as begun_of, asks_file as asks_file_of, asks_open as asks_open_of, asks_close as asks_close_of, node_of as node_of_slot, node_at as node_at_of, first_open as first_open_of, upcoming as upcoming_of, IsReady, Waits};
ghost use Rattle.session_model.specs.FileCall.{IsFileCall};
ghost use Rattle.session_model.specs.Lawful.{IsDoing, IsHand};
ghost use Rattle.script_model.specs.Script.{IsOp, IsSlot};
ghost use Rattle.session.specs.Keeps.{owed, cost};

use script_model::{Op, SLOTS};
use session_model::{Begun, Doing, FileCall, Hand, Reply, Slot};
use std::collections::VecDeque;
use tree_model::TreeCall;

/// The node that a slot is open for.
fn node_of(slot: Slot) -> Option<u32>
    ensures { result ≡ node_of_slot slot }
{
    match slot {
        Slot::Closed => None,
        Slot::Open(node) | Slot::Kept(node) => Some(node),
    }
}

fn node_at(slots: &[Slot], slot: u32) -> Option<u32>
    ensures { result ≡ node_at_of slots.now slot }
{
    match slots.get(slot as usize) {
        Some(slot) => node_of(*slot),
        None => None,
    }
}

/// Whether a slot is open, and no close of it was refused.
pub(crate) fn is_open(slots: &[Slot], slot: u32) -> bool
    ensures { result ≡ is_open_slot (slice_get slots.now slot) }
{
    match slots.get(slot as usize) {
        Some(Slot::Open(_)) => true,
        _ => false,
    }
}

fn on_tree(call: TreeCall) -> Begun
    ensures { result ≡ record { doing = Doing.CallsTree call; hand = Hand.OnTree } }
{
    Begun {
        doing: Doing::CallsTree(call),
        hand: Hand::OnTree,
    }
}

fn on_open(node: Option<u32>, slot: u32, call: TreeCall) -> Begun
    requires { IsSlot slot }
    ensures begun { result ≡ asks_open_of node slot call }
    ensures lawful { IsHand result.hand }
    ensures lawful_call { IsDoing result.doing }
    ensures waits { Waits result.doing result.hand }
{
    match node {
        Some(_) => Begun {
            doing: Doing::Replies(Reply::Slot),
            hand: Hand::Nothing,
        },
        None => Begun {
            doing: Doing::CallsTree(call),
            hand: Hand::Finds(slot),
        },
    }
}

fn on_file(node: Option<u32>, call: FileCall) -> Begun
    requires { IsFileCall call }
    ensures begun { result ≡ asks_file_of node call }
    ensures lawful { IsHand result.hand }
    ensures lawful_call { IsDoing result.doing }
    ensures waits { Waits result.doing result.hand }
{
    match node {
        None => Begun {
            doing: Doing::Replies(Reply::Handle),
            hand: Hand::Nothing,
        },
        Some(node) => Begun {
            doing: Doing::CallsFile(node, call),
            hand: Hand::OnFile,
        },
    }
}

/// The close of a slot.
fn on_close(node: Option<u32>, slot: u32) -> Begun
    requires { IsSlot slot }
    ensures begun { result ≡ asks_close_of node slot }
    ensures lawful { IsHand result.hand }
    ensures lawful_call { IsDoing result.doing }
    ensures waits { Waits result.doing result.hand }
{
    match node {
        None => Begun {
            doing: Doing::Replies(Reply::Handle),
            hand: Hand::Nothing,
        },
        Some(node) => Begun {
            doing: Doing::CallsFile(node, FileCall::Detach(slot)),
            hand: Hand::Closes(slot, node),
        },
    }
}

/// An operation as it begins, with these slots. It takes no memory.
fn begun(slots: &[Slot], op: Op) -> Begun
    requires { IsOp op }
    ensures begun { result ≡ begun_of slots.now op }
    ensures lawful { IsHand result.hand }
    ensures lawful_call { IsDoing result.doing }
    ensures waits { Waits result.doing result.hand }
{
    match op {
        Op::Mkdir(path) => on_tree(TreeCall::Mkdir(path)),
        Op::Rmdir(path) => on_tree(TreeCall::Rmdir(path)),
        Op::Unlink(path) => on_tree(TreeCall::Unlink(path)),
        Op::Rename(paths) => on_tree(TreeCall::Rename(paths)),
        Op::List(path) => on_tree(TreeCall::List(path)),
        Op::Stat(path) => on_tree(TreeCall::Stat(path)),
        Op::Open(slot, path) => on_open(node_at(slots, slot), slot, TreeCall::Resolve(path)),
        Op::Create(slot, path) => on_open(node_at(slots, slot), slot, TreeCall::Create(path)),
        Op::Read(slot, at, len) => on_file(node_at(slots, slot), FileCall::Read(slot, at, len)),
        Op::Write(slot, at, octets) => {
            on_file(node_at(slots, slot), FileCall::Write(slot, at, octets))
        }
        Op::Truncate(slot, size) => on_file(node_at(slots, slot), FileCall::Truncate(slot, size)),
        Op::Size(slot) => on_file(node_at(slots, slot), FileCall::Size(slot)),
        Op::Sync(slot) => on_file(node_at(slots, slot), FileCall::Sync(slot)),
        Op::Close(slot) => on_close(node_at(slots, slot), slot),
    }
}

/// The first open slot from this one on.
fn first_open(slots: &[Slot; SLOTS], from: u32) -> Option<u32>
    requires { from ≤ SLOTS }
    ensures first { result ≡ first_open_of from (drop from slots.now) }
    ensures bound { IfSome result (λ slot. IsSlot slot × (from ≤ slot)) }
{
    for number in from..SLOTS as u32 {
        if node_of(slots[number as usize]).is_some() {
            return Some(number);
        }
    }
    None
}

/// The next operation. The room of a script is let go by and by, since its session lives until the report is written.
fn next_op(left: &mut VecDeque<Op>) -> Option<Op>
    ensures { MatchOption result ((left.old.items ≡ []) × (left.new.items ≡ [])) (λ op. left.old.items ≡ op ∷ left.new.items) }
{
    let op = left.pop_front()?;
    if left.len() <= left.capacity() / 2 {
        left.shrink_to_fit();
    }
    Some(op)
}

/// What a session does next, with this of its script left, these slots, so many of them passed by the closes at the end, and this in hand.
pub(crate) fn upcoming(
    left: &mut VecDeque<Op>,
    slots: &[Slot; SLOTS],
    past: &mut u32,
    hand: Hand,
) -> Begun
    requires ready { IsReady hand }
    requires ops { AllByRecursion IsOp left.old.items }
    requires in_hand { IsHand hand }
    requires past_few { past.old ≤ SLOTS }
    ensures upcoming { record { begun = result; left = left.new.items; past = past.new } ≡ upcoming_of left.old.items slots.now past.old hand }
    ensures cost { cost result.doing result.hand + length left.new.items + (SLOTS - past.new) ≤ owed hand + length left.old.items + (SLOTS - past.old) }
    ensures ops { AllByRecursion IsOp left.new.items }
    ensures past_few { past.new ≤ SLOTS }
    ensures in_hand { IsHand result.hand }
    ensures lawful { IsDoing result.doing }
    ensures waits { Waits result.doing result.hand }
{
    if let Hand::Found(slot, node) = hand {
        return Begun {
            doing: Doing::CallsFile(node, FileCall::Attach(slot)),
            hand: Hand::Attaches(slot, node),
        };
    }
    if let Some(op) = next_op(left) {
        return begun(slots, op);
    }
    match first_open(slots, *past) {
        Some(slot) => {
            *past = slot + 1;
            on_close(node_at(slots, slot), slot)
        }
        None => Begun {
            doing: Doing::Ends,
            hand: Hand::Nothing,
        },
    }
}
