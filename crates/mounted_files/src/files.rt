ghost use Rattle.std.specs.Prelude.{◌≡◌, ◌≤◌, [], IfErr, IfOk, OnOk, length, map, vec_capacity};
ghost use Rattle.lower_tree.specs.Held.{stores};
ghost use Rattle.mounted_files.specs.Files.{AreNew, AreOut, FilesGoOn, IsStuckAt, logs_of};

use crate::shards::{STORES, StuckStore, end_shards, open_shards, step_at, write_shards};
use lower_inode::{ReadRoom, Shard};
use lower_tree::{BodyFormat, LowerBodies, Steps};
use session_model::{FileCall, FileEntry, FileReply};
use session_run::FilePart;
use std::alloc::{AllocError, Global};
use std::marker::Model;
use std::sync::ledger::Ledger;
use turn_lock::{Chain, Link};

/// The files of a mount, with the steps of its ciphers. They have to be ended. Contracts see the shards.
pub struct MountedFiles<B: LowerBodies, F: BodyFormat, L: Ledger> {
    shards: Vec<Shard<B, F>>,
    bodies: Vec<B>,
    logs: Vec<Chain<FileEntry>>,
    steps: Steps<L>,
}

impl<B: LowerBodies, F: BodyFormat, L: Ledger> Model for MountedFiles<B, F, L> {
    ghost use Rattle.std.specs.Prelude.{◌≡◌, ◌≤◌, List, [], vec_capacity};
    ghost use Rattle.lower_tree.specs.Held.{stores};
    ghost use Rattle.lower_inode.specs.Shards.{ShardOver};
    ghost use Rattle.mounted_files.specs.Files.{AreShards};

    ghost Value = { List (ShardOver B F F.Key) };

    ghost view = { λ f. f.shards.items };

    ghost invariant = { λ f. record {
      shards : AreShards f.shards.items;
      bodies : (f.bodies.items ≡ []) × (stores ≤ vec_capacity f.bodies);
      logs : (f.logs.items ≡ []) × (stores ≤ vec_capacity f.logs);
    } };
}

/// The lists that the files of a mount take, without their elements.
struct Rooms<B: LowerBodies, F: BodyFormat> {
    shards: Vec<Shard<B, F>>,
    bodies: Vec<B>,
    logs: Vec<Chain<FileEntry>>,
}

fn take_rooms<B: LowerBodies + Drop, F: BodyFormat>(
    alloc: Global,
) -> Result<Rooms<B, F>, AllocError>
    ensures shards { IfOk result (λ rooms. (rooms.shards.items ≡ []) × (stores ≤ vec_capacity rooms.shards)) }
    ensures bodies { IfOk result (λ rooms. (rooms.bodies.items ≡ []) × (stores ≤ vec_capacity rooms.bodies)) }
    ensures logs { IfOk result (λ rooms. (rooms.logs.items ≡ []) × (stores ≤ vec_capacity rooms.logs)) }
{
    let bodies = Vec::with_capacity(alloc, STORES)?;
    let logs = Vec::with_capacity(alloc, STORES)?;
    Ok(Rooms {
        shards: Vec::with_capacity(alloc, STORES)?,
        bodies,
        logs,
    })
}

impl<B: LowerBodies + Drop, F: BodyFormat + Copy, L: Ledger> MountedFiles<B, F, L> {
    /// Opens the files of eight stores. Without memory the stores come back.
    pub fn open(
        alloc: Global,
        bodies: Vec<B>,
        format: F,
        steps: Steps<L>,
    ) -> Result<MountedFiles<B, F, L>, Vec<B>>
        requires { length bodies.items ≡ stores }
        ensures bodies { IfOk result (λ files. map (λ s. s.bodies) files ≡ bodies.items) }
        ensures new { IfOk result (AreNew B.held F.rules format) }
        ensures back { IfErr result (λ back. back ≡ bodies) }
    {
        let Ok(rooms) = take_rooms(alloc) else {
            return Err(bodies);
        };
        let Rooms {
            mut shards,
            bodies: room,
            logs,
        } = rooms;
        open_shards(alloc, bodies, format, &mut shards);
        Ok(MountedFiles {
            shards,
            bodies: room,
            logs,
            steps,
        })
    }

    /// Writes out what is marked of all open files, store after store. The first that fails ends it. It takes no memory.
    pub fn write_out(&mut self) -> Result<(), StuckStore>
        ensures stores { length self.new ≡ stores }
        ensures out { OnOk result (AreOut B.held F.rules self.old self.new) }
        ensures stuck { IfErr result (IsStuckAt B.held self.old self.new) }
    {
        write_shards(&mut self.shards, &mut self.steps)
    }

    /// The stores and the logs, in the order of their numbers. Every key is spent; what isn't written out is lost. It takes no
    /// memory and makes no call on a store.
    pub fn end(self) -> (Vec<B>, Vec<Chain<FileEntry>>)
        ensures bodies { result.0.items ≡ map (λ s. s.bodies) self }
        ensures logs { result.1.items ≡ map (λ s. s.log) self }
    {
        let MountedFiles {
            shards,
            mut bodies,
            mut logs,
            steps: _,
        } = self;
        end_shards(shards, &mut bodies, &mut logs);
        bodies.reverse();
        logs.reverse();
        (bodies, logs)
    }
}

impl<B: LowerBodies, F: BodyFormat, L: Ledger> FilePart for MountedFiles<B, F, L> {
    ghost logs = { logs_of };

    ghost lawful = { FilesGoOn B.held F.rules };

    fn call(
        &mut self,
        alloc: Global,
        link: Link<FileEntry>,
        room: ReadRoom,
        session: u32,
        op: u32,
        node: u32,
        call: FileCall,
    ) -> FileReply {
        step_at(
            alloc,
            &mut self.shards,
            link,
            room,
            session,
            op,
            node,
            call,
            &mut self.steps,
        )
    }
}
