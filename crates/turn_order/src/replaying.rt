ghost use Rattle.std.specs.Prelude.{ℕ, ◌≡◌, ◌<◌, ◌≤◌, [], length, vec_capacity, IfErr, IfOk};
ghost use Rattle.std.specs.List.{AllByRecursion};
ghost use Rattle.lower_tree.specs.Held.{stores};
ghost use Rattle.name_form.specs.FormOf.{form_of};
ghost use Rattle.session_model.specs.Session.{IsFresh};
ghost use Rattle.mounted_files.specs.Files.{logs_of};
ghost use Rattle.turn_order.specs.Replay.{IsReplayed};

use crate::mounted_tree::MountedTree;
use crate::order::run_in_order;
use lower_tree::{BodyFormat, LowerBodies, LowerNames};
use mounted_files::{MountedFiles, StuckStore};
use name_form::NameForm;
use namespace::Names;
use session::Session;
use session_model::{FileEntry, TreeEntry};
use session_run::RunningSession;
use std::alloc::Global;
use std::sync::ledger::Ledger;
use turn_lock::Chain;

/// What sessions that were replayed leave.
pub struct Replayed<N, U, B> {
    /// The sessions, which have ended, with their replies.
    pub sessions: Vec<Session>,
    /// The lower names of the tree.
    pub names: N,
    /// The form of the names.
    pub form: U,
    /// The log of the tree.
    pub tree_log: Chain<TreeEntry>,
    /// The stores of bodies, in the order of their numbers.
    pub bodies: Vec<B>,
    /// The logs of the files, one of each store.
    pub file_logs: Vec<Chain<FileEntry>>,
    /// Whether the files were written out, or the first store that failed in it.
    pub out: Result<(), StuckStore>,
}

/// Why sessions weren't replayed.
pub enum ReplayFault<N: LowerNames, U: NameForm, B: LowerBodies, F: BodyFormat, L: Ledger> {
    /// Memory ran out before the first call.
    Memory {
        /// The tree.
        names: Names<N, U>,
        /// Its files.
        files: MountedFiles<B, F, L>,
        /// The sessions.
        sessions: Vec<Session>,
    },
}

/// Moves the sessions into a list with room for them, as running ones. Their own list keeps its room.
fn begin(sessions: &mut Vec<Session>, running: &mut Vec<RunningSession>)
    requires fresh { AllByRecursion IsFresh sessions.old.items }
    requires room { (running.old.items ≡ []) × (length sessions.old.items ≤ vec_capacity running.old) }
    ensures sessions { (sessions.new.items ≡ []) × (vec_capacity sessions.new ≡ vec_capacity sessions.old) }
    ensures running { running.new.items ≡ sessions.old.items }
{
    while let Some(session) = sessions.pop() {
        running.push_reserved(RunningSession::new(session));
    }
    running.reverse();
}

/// Moves the sessions back into a list with room for them.
fn end(mut running: Vec<RunningSession>, sessions: &mut Vec<Session>)
    requires room { (sessions.old.items ≡ []) × (length running.items ≤ vec_capacity sessions.old) }
    ensures { sessions.new.items ≡ running.items }
{
    while let Some(session) = running.pop() {
        sessions.push_reserved(session.into_session());
    }
    sessions.reverse();
}

/// Replays sessions on a tree and its files: each item of the schedule lets the session of its number make its next call, or do its
/// next operation that makes none; then the sessions run to their ends, in rising order. Then the files are written out, store after
/// store, and the parts come back. Without memory all comes back as it was.
pub fn replay<N: LowerNames, U: NameForm, B: LowerBodies + Drop, F: BodyFormat + Copy, L: Ledger>(
    alloc: Global,
    names: Names<N, U>,
    files: MountedFiles<B, F, L>,
    sessions: Vec<Session>,
    schedule: &[u32],
) -> Result<Replayed<N, U, B>, ReplayFault<N, U, B, F, L>>
    requires fresh { AllByRecursion IsFresh sessions.items }
    requires items { AllByRecursion (λ k. k < length sessions.items) schedule.now }
    requires no_turn { names.log ≡ [] }
    requires no_file_turn { (store : ℕ) → store < stores → logs_of files store ≡ [] }
    ensures replayed { IfOk result (IsReplayed N.held B.held F.rules (λ form. form_of (U.upper form) (U.written form) (U.longest form)) schedule.now names files sessions.items) }
    ensures back { IfErr result (λ fault. fault ≡ ReplayFault.Memory names files sessions) }
{
    let Ok(mut running) = Vec::with_capacity(alloc, sessions.len()) else {
        return Err(ReplayFault::Memory {
            names,
            files,
            sessions,
        });
    };
    let mut tree = MountedTree { names };
    let mut files = files;
    let mut sessions = sessions;
    begin(&mut sessions, &mut running);
    run_in_order(alloc, &mut tree, &mut files, &mut running, schedule);
    end(running, &mut sessions);
    let out = files.write_out();
    let (bodies, file_logs) = files.end();
    let (names, form, tree_log) = tree.names.end();
    Ok(Replayed {
        sessions,
        names,
        form,
        tree_log,
        bodies,
        file_logs,
        out,
    })
}
