ghost use Rattle.std.specs.Prelude.{ℕ, List, ◌≡◌, MatchResult};
ghost use Rattle.session_model.specs.declared.entry.TreeEntry.{TreeEntry};
ghost use Rattle.session_model.specs.declared.entry.FileEntry.{FileEntry};
ghost use Rattle.session_model.specs.FileCall.{IsFileCall};
ghost use Rattle.lower_inode.specs.Shards.{HasRoomFor};
ghost use Rattle.session_run.specs.Turn.{AddsTurn, AddsFileTurn};

use lower_inode::ReadRoom;
use session_model::{FileCall, FileEntry, FileReply};
use std::alloc::{AllocError, Global};
use tree_model::{TreeCall, TreeReply};
use turn_lock::Link;

/// A tree as sessions use it, which stands for the log of the turns that were made through it.
pub trait TreePart {
    /// The log.
    ghost log: { Self → List TreeEntry };

    /// Whether a state, with its log, may come about from an opening state.
    ghost lawful: { Self → Self → Type 0 };

    /// Makes one call, for an operation of a session. Without memory for the turn there is none,
    /// and no entry.
    fn call(
        &mut self,
        alloc: Global,
        session: u32,
        op: u32,
        call: TreeCall,
    ) -> Result<TreeReply, AllocError>
        ensures turn { MatchResult result (λ reply. AddsTurn session op call reply (log self.old) (log self.new)) (λ e. log self.new ≡ log self.old) }
        ensures lawful { (opening : Self) → lawful opening self.old → lawful opening self.new };
}

/// The files as sessions use them: shards, each with the log of the turns that were made through
/// it.
pub trait FilePart {
    /// The log of each shard, by its number.
    ghost logs: { Self → ℕ → List FileEntry };

    /// Whether a state, with its logs, may come about from an opening state.
    ghost lawful: { Self → Self → Type 0 };

    /// Makes one call on the file of a node, for an operation of a session. Its entry takes the
    /// room of the link, and what is read that of `room`.
    fn call(
        &mut self,
        alloc: Global,
        link: Link<FileEntry>,
        room: ReadRoom,
        session: u32,
        op: u32,
        node: u32,
        call: FileCall,
    ) -> FileReply
        requires call { IsFileCall call }
        requires room { HasRoomFor call room }
        ensures turn { AddsFileTurn session op node call result (logs self.old) (logs self.new) }
        ensures lawful { (opening : Self) → lawful opening self.old → lawful opening self.new };
}
