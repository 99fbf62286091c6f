ghost use Rattle.std.specs.Prelude.{◌<◌, ◌∷◌, [], length};
ghost use Rattle.std.specs.List.{AllByRecursion};
ghost use Rattle.turn_order.specs.Items.{HasFinished, HaveFinished, Walked};
ghost use Rattle.turn_order.specs.Order.{RanInOrder};

use session_run::{FilePart, RunningSession, TreePart};
use std::alloc::Global;

/// One item of a schedule: the next move of session `k`, or nothing where it has ended.
fn step<T: TreePart, F: FilePart>(
    alloc: Global,
    tree: &mut T,
    files: &mut F,
    sessions: &mut [RunningSession],
    k: usize,
)
    requires { k < length sessions.old }
    ensures walked { Walked (k ∷ []) (T.log tree.old) (T.log tree.new) (F.logs files.old) (F.logs files.new) sessions.old sessions.new }
    ensures tree { (opening : T) → T.lawful opening tree.old → T.lawful opening tree.new }
    ensures files { (opening : F) → F.lawful opening files.old → F.lawful opening files.new }
{
    let _moved = sessions[k].make_move(alloc, tree, files);
}

/// The items of a schedule.
fn walk<T: TreePart, F: FilePart>(
    alloc: Global,
    tree: &mut T,
    files: &mut F,
    sessions: &mut [RunningSession],
    schedule: &[u32],
)
    requires { AllByRecursion (λ k. k < length sessions.old) schedule.now }
    ensures walked { Walked schedule.now (T.log tree.old) (T.log tree.new) (F.logs files.old) (F.logs files.new) sessions.old sessions.new }
    ensures tree { (opening : T) → T.lawful opening tree.old → T.lawful opening tree.new }
    ensures files { (opening : F) → F.lawful opening files.old → F.lawful opening files.new }
{
    for k in schedule {
        step(alloc, tree, files, sessions, *k as usize);
    }
}

/// Runs a session to its end.
fn finish<T: TreePart, F: FilePart>(
    alloc: Global,
    tree: &mut T,
    files: &mut F,
    session: &mut RunningSession,
)
    ensures finished { HasFinished (T.log tree.old) (T.log tree.new) (F.logs files.old) (F.logs files.new) session.old session.new }
    ensures tree { (opening : T) → T.lawful opening tree.old → T.lawful opening tree.new }
    ensures files { (opening : F) → F.lawful opening files.old → F.lawful opening files.new }
{
    'moves: while session.make_move(alloc, tree, files) {}
}

/// Runs the sessions to their ends, in rising order.
fn finish_all<T: TreePart, F: FilePart>(
    alloc: Global,
    tree: &mut T,
    files: &mut F,
    sessions: &mut [RunningSession],
)
    ensures finished { HaveFinished (T.log tree.old) (T.log tree.new) (F.logs files.old) (F.logs files.new) sessions.old sessions.new }
    ensures tree { (opening : T) → T.lawful opening tree.old → T.lawful opening tree.new }
    ensures files { (opening : F) → F.lawful opening files.old → F.lawful opening files.new }
{
    for session in sessions.iter_mut() {
        finish(alloc, tree, files, session);
    }
}

/// Walks a schedule: each item lets the session of its number make its next move, if it hasn't ended. Then the sessions run to
/// their ends, in rising order.
pub fn run_in_order<T: TreePart, F: FilePart>(
    alloc: Global,
    tree: &mut T,
    files: &mut F,
    sessions: &mut [RunningSession],
    schedule: &[u32],
)
    requires { AllByRecursion (λ k. k < length sessions.old) schedule.now }
    ensures order { RanInOrder schedule.now (T.log tree.old) (T.log tree.new) (F.logs files.old) (F.logs files.new) sessions.old sessions.new }
    ensures tree { (opening : T) → T.lawful opening tree.old → T.lawful opening tree.new }
    ensures files { (opening : F) → F.lawful opening files.old → F.lawful opening files.new }
{
    walk(alloc, tree, files, sessions, schedule);
    finish_all(alloc, tree, files, sessions);
}
