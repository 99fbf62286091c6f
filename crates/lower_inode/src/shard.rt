ghost use Rattle.std.specs.Prelude.{◌≡◌, ◌+◌, ◌<◌, ◌≤◌, ◌%◌, ℕ, [], IfErr, None, OnErr, OnOk, length, take};
ghost use Rattle.answer_model.specs.Count.{Rose};
ghost use Rattle.lower_tree.specs.Held.{stores};
ghost use Rattle.session_model.specs.FileCall.{IsFileCall};
ghost use Rattle.body_model.specs.Format.{content};
ghost use Rattle.file_model.specs.Shard.{IsCutWriteOut, IsShardStep, IsWholeWriteOut, IsWriteOut, Stands, state_by};
ghost use Rattle.lower_inode.specs.CipherSteps.{most_steps};
ghost use Rattle.lower_inode.specs.Shards.{HasRoomFor, IsReplyIn, node_in, shard_of};

use crate::node::OpenNode;
use crate::room::ReadRoom;
use crate::table::{end_all, turn_at};
use crate::writing::write_nodes;
use lower_tree::{BodyFormat, Items, LowerBodies, Steps};
use session_model::{FileCall, FileEntry, FileReply};
use std::alloc::Global;
use std::marker::Model;
use std::sync::ledger::Ledger;
use turn_lock::{Chain, Link};

/// A write-out that failed, with the store's counts of faults before and after it.
#[derive(Clone, Copy, Debug, PartialEq, Eq)]
pub struct WriteOutFault {
    pub before: u64,
    pub after: u64,
}

/// The files of every eighth node, with the log of their turns.
pub struct Shard<B: LowerBodies, F: BodyFormat> {
    index: u32,
    bodies: B,
    format: F,
    nodes: Vec<Option<OpenNode<F::Key>>>,
    log: Chain<FileEntry>,
}

impl<B: LowerBodies, F: BodyFormat> Model for Shard<B, F> {
    ghost use Rattle.std.specs.Prelude.{ℕ, ◌<◌, ◌≤◌, ◌^◌, length};
    ghost use Rattle.lower_tree.specs.Held.{stores};
    ghost use Rattle.lower_inode.specs.NodeTurn.{AreNodes};
    ghost use Rattle.lower_inode.specs.Shards.{ShardOver};

    ghost Value = { ShardOver B F F.Key };

    ghost view = { λ s. record { index = s.index; bodies = s.bodies; format = s.format; nodes = s.nodes.items; log = s.log } };

    ghost invariant = { λ s. record {
      index : s.index < stores;
      few : length s.nodes.items ≤ 2 ^ 29;
      nodes : AreNodes (B.held s.bodies) s.index s.nodes.items;
    } };
}

/// Copies octets into the first ones of a room.
fn copy_front(octets: &[u8], room: &mut [u8])
    requires { length octets.now ≤ length room.old }
    ensures length { length room.new ≡ length room.old }
    ensures front { take (length octets.now) room.new ≡ octets.now }
{
    room[..octets.len()].copy_from_slice(octets);
}

/// The reply for the log, whose octets have a room of their own.
fn logged_reply(reply: &FileReply, mut room: Vec<u8>) -> FileReply
    requires { IsReplyIn reply.now (length room.items) }
    ensures { result ≡ reply.now }
{
    match reply {
        FileReply::Done => FileReply::Done,
        FileReply::Octets(octets) => {
            copy_front(octets.as_slice(), &mut room);
            room.truncate(octets.len());
            FileReply::Octets(Items::from_vec(room))
        }
        FileReply::Length(size) => FileReply::Length(*size),
        FileReply::Refused(cause) => FileReply::Refused(*cause),
        FileReply::NotOpen => FileReply::NotOpen,
        FileReply::TooBig => FileReply::TooBig,
        FileReply::LowerFault => FileReply::LowerFault,
        FileReply::Memory => FileReply::Memory,
    }
}

impl<B: LowerBodies, F: BodyFormat> Shard<B, F> {
    /// The shard with this index, below 8, of which no file is open. It takes no memory.
    pub fn new(alloc: Global, index: u32, bodies: B, format: F) -> Shard<B, F>
        requires { index < stores }
        ensures parts { (result.index ≡ index) × (result.bodies ≡ bodies) × (result.format ≡ format) × (result.log ≡ []) }
        ensures closed { (node : ℕ) → (shard_of result).working node ≡ None }
        ensures unused { (node : ℕ) → (shard_of result).slots node ≡ [] }
        ensures stands { (node : ℕ) → Stands (F.rules format) (B.held bodies).files (B.held bodies) (shard_of result) node (state_by (content (F.rules format) ((B.held bodies).files node))) }
    {
        Shard {
            index,
            bodies,
            format,
            nodes: Vec::new(alloc),
            log: Chain::new(),
        }
    }

    /// One call on the file of a node of this shard, and its entry in the log. A read takes its octets' room from `room`. Memory runs
    /// out for an opening, a write or a truncation alone.
    pub fn step<L: Ledger>(
        &mut self,
        alloc: Global,
        link: Link<FileEntry>,
        session: u32,
        op: u32,
        node: u32,
        call: FileCall,
        room: ReadRoom,
        steps: &mut Steps<L>,
    ) -> FileReply
        requires node { node % stores ≡ self.old.index }
        requires call { IsFileCall call }
        requires room { HasRoomFor call room }
        ensures step { IsShardStep (F.rules self.old.format) (B.held self.old.bodies) (B.held self.new.bodies) (shard_of self.old) (shard_of self.new)
            (record { session = session; op = op; node = node; call = call; reply = result; before = (B.held self.old.bodies).faults; after = (B.held self.new.bodies).faults }) }
        ensures steps { steps.new ≤ steps.old + most_steps (node_in self.old.index self.old.nodes node) call }
        ensures index { self.new.index ≡ self.old.index }
        ensures format { self.new.format ≡ self.old.format }
    {
        let before = self.bodies.faults();
        let ReadRoom { logged, told } = room;
        let reply = turn_at(
            alloc,
            &mut self.bodies,
            &self.format,
            &mut self.nodes,
            session,
            node,
            &call,
            told,
            steps,
        );
        let after = self.bodies.faults();
        self.log.push(
            link,
            FileEntry {
                session,
                op,
                node,
                call,
                reply: logged_reply(&reply, logged),
                before,
                after,
            },
        );
        reply
    }

    /// Writes out what is marked of each open file, node by node in rising order. The first call that fails ends it: what it was to
    /// write, and what comes behind it, stays marked. It takes no memory, and makes no call where nothing is marked.
    pub fn write_out<L: Ledger>(&mut self, steps: &mut Steps<L>) -> Result<(), WriteOutFault>
        ensures writes { IsWriteOut (F.rules self.old.format) (B.held self.old.bodies) (B.held self.new.bodies) (shard_of self.old) (shard_of self.new) }
        ensures whole { OnOk result (IsWholeWriteOut (F.rules self.old.format) (B.held self.old.bodies) (B.held self.new.bodies) (shard_of self.old) (shard_of self.new)) }
        ensures cut { OnErr result (IsCutWriteOut (F.rules self.old.format) (B.held self.old.bodies) (B.held self.new.bodies) (shard_of self.old) (shard_of self.new)) }
        ensures fault { IfErr result (λ fault. (fault.before ≡ (B.held self.old.bodies).faults) × (fault.after ≡ (B.held self.new.bodies).faults) × Rose fault.before fault.after) }
        ensures index { self.new.index ≡ self.old.index }
        ensures format { self.new.format ≡ self.old.format }
    {
        let before = self.bodies.faults();
        match write_nodes(
            &mut self.bodies,
            &self.format,
            self.index,
            &mut self.nodes,
            steps,
        ) {
            Ok(()) => Ok(()),
            Err(_) => Err(WriteOutFault {
                before,
                after: self.bodies.faults(),
            }),
        }
    }

    /// The store, the format and the log. Every key is spent; what isn't written out is lost. It takes no memory and makes no call on
    /// the store.
    pub fn end(self) -> (B, F, Chain<FileEntry>)
        ensures { result ≡ (self.bodies, self.format, self.log) }
    {
        let Shard {
            index: _,
            bodies,
            format,
            nodes,
            log,
        } = self;
        end_all(&format, nodes);
        (bodies, format, log)
    }
}
