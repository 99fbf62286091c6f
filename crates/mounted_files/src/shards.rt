// The shards of a mount, the one of a node by the remainder of its number by eight.
ghost use Rattle.std.specs.Prelude.{◌≡◌, ◌≤◌, List, [], IfErr, OnOk, length, map, reverse, vec_capacity};
ghost use Rattle.lower_tree.specs.Held.{stores};
ghost use Rattle.session_model.specs.FileCall.{IsFileCall};
ghost use Rattle.lower_inode.specs.Shards.{HasRoomFor, ShardOver};
ghost use Rattle.session_run.specs.Turn.{AddsFileTurn};
ghost use Rattle.mounted_files.specs.Files.{AreNew, AreOut, AreShards, FilesGoOn, IsStuckAt, logs_of};

use lower_inode::{ReadRoom, Shard, WriteOutFault};
use lower_tree::{BodyFormat, LowerBodies, Steps};
use session_model::{FileCall, FileEntry, FileReply};
use std::alloc::Global;
use std::sync::ledger::Ledger;
use turn_lock::{Chain, Link};

/// How many shards there are.
pub(crate) const STORES: usize = 8;

/// A store of bodies that couldn't be written out.
#[derive(Clone, Copy, Debug, PartialEq, Eq)]
pub struct StuckStore {
    /// The number of the part, which is that of the store plus one.
    pub part: u32,
    /// The count of its faults before.
    pub before: u64,
    /// The count after, which has risen.
    pub after: u64,
}

/// Puts a shard over each store, of which no file is open, into a list with room for them.
pub(crate) fn open_shards<B: LowerBodies + Drop, F: BodyFormat + Copy>(
    alloc: Global,
    bodies: Vec<B>,
    format: F,
    shards: &mut Vec<Shard<B, F>>,
)
    requires stores { length bodies.items ≡ stores }
    requires none { shards.old.items ≡ [] }
    requires room { stores ≤ vec_capacity shards.old }
    ensures bodies { map (λ s. s.bodies) shards.new.items ≡ bodies.items }
    ensures new { AreNew B.held F.rules format shards.new.items }
    ensures shards { AreShards shards.new.items }
{
    for store in bodies {
        let index = shards.len() as u32;
        shards.push_reserved(Shard::new(alloc, index, store, format));
    }
}

/// One call on the file of a node, in its shard.
pub(crate) fn step_at<B: LowerBodies, F: BodyFormat, L: Ledger>(
    alloc: Global,
    shards: &mut [Shard<B, F>],
    link: Link<FileEntry>,
    room: ReadRoom,
    session: u32,
    op: u32,
    node: u32,
    call: FileCall,
    steps: &mut Steps<L>,
) -> FileReply
    requires shards { AreShards shards.old }
    requires call { IsFileCall call }
    requires room { HasRoomFor call room }
    ensures shards { AreShards shards.new }
    ensures turn { AddsFileTurn session op node call result (logs_of shards.old) (logs_of shards.new) }
    ensures goes_on { (opening : List (ShardOver B F F.Key)) → FilesGoOn B.held F.rules opening shards.old → FilesGoOn B.held F.rules opening shards.new }
{
    let shard = &mut shards[node as usize % STORES];
    shard.step(alloc, link, session, op, node, call, room, steps)
}

/// Writes out shard after shard. The first that fails ends it.
pub(crate) fn write_shards<B: LowerBodies, F: BodyFormat, L: Ledger>(
    shards: &mut [Shard<B, F>],
    steps: &mut Steps<L>,
) -> Result<(), StuckStore>
    requires { AreShards shards.old }
    ensures shards { AreShards shards.new }
    ensures out { OnOk result (AreOut B.held F.rules shards.old shards.new) }
    ensures stuck { IfErr result (IsStuckAt B.held shards.old shards.new) }
{
    for (store, shard) in shards.iter_mut().enumerate() {
        match shard.write_out(steps) {
            Ok(()) => {}
            Err(WriteOutFault { before, after }) => {
                return Err(StuckStore {
                    part: store as u32 + 1,
                    before,
                    after,
                });
            }
        }
    }
    Ok(())
}

/// Ends all shards, the last one first: their stores and their logs, into lists with room for them.
pub(crate) fn end_shards<B: LowerBodies, F: BodyFormat + Drop>(
    mut shards: Vec<Shard<B, F>>,
    bodies: &mut Vec<B>,
    logs: &mut Vec<Chain<FileEntry>>,
)
    requires bodies { (bodies.old.items ≡ []) × (length shards.items ≤ vec_capacity bodies.old) }
    requires logs { (logs.old.items ≡ []) × (length shards.items ≤ vec_capacity logs.old) }
    ensures bodies { bodies.new.items ≡ map (λ s. s.bodies) (reverse shards.items) }
    ensures logs { logs.new.items ≡ map (λ s. s.log) (reverse shards.items) }
{
    while let Some(shard) = shards.pop() {
        let (store, _, log) = shard.end();
        bodies.push_reserved(store);
        logs.push_reserved(log);
    }
    shards.destroy_empty();
}
