ghost use Rattle.std.specs.Prelude.{[], ◌≡◌, ◌+◌, ◌*◌, ◌≤◌, true, IfErr, IfOk, Some, codes};
ghost use Rattle.packet_model.specs.declared.layout.TheConstants.{MAX_SIZE};
ghost use Rattle.packet_model.specs.Metadata.{extent_count};
ghost use Rattle.body_model.specs.declared.content.Content.TheVariants.{Empty};
ghost use Rattle.body_model.specs.Format.{content};
ghost use Rattle.file_model.specs.ByteFile.{Good};
ghost use Rattle.file_model.specs.LaidOut.{IsUnmarked, origin_of};
ghost use Rattle.file_model.specs.Shard.{origin_in, state_by};
ghost use Rattle.open_file.specs.Buffered.{HasItsRoom, IsLaidOut, octets_of, working_of};
ghost use Rattle.open_file.specs.Calling.{AreReads};
ghost use Rattle.open_file.specs.Opening.{IsCause, is_lower_fault};

use crate::buffers::{Buffers, copy_out};
use crate::opening::{OpenError, end_opened, open_buffers};
use crate::writing::put_all;
use lower_tree::{BodyFormat, Failed, LowerBodies, LowerError, Steps};
use std::alloc::Global;
use std::fmt::{self, Debug, Formatter, Write};
use std::marker::Model;
use std::sync::ledger::Ledger;

/// An open file: all of its content, decoded, and what of it is still to be written to its lower file. It has to be ended.
pub struct OpenFile<K> {
    buffers: Buffers<K>,
}

impl<K> Model for OpenFile<K> {
    ghost use Rattle.open_file.specs.Buffered.{Buffered, IsBuffer, buffered_of};

    ghost Value = { Buffered K };

    ghost view = { λ f. buffered_of f.buffers };

    ghost invariant = { λ f. IsBuffer (buffered_of f.buffers) };
}

// The name alone.
impl<K> Debug for OpenFile<K> {
    ghost debug_output = { λ _. Some (codes "OpenFile") };

    fn fmt<W: Write>(&self, f: &mut Formatter<W>) -> fmt::Result {
        f.write_str("OpenFile")
    }
}

/// Opens the file of a node: reads and decrypts all of it, or begins a new one where it has neither body nor attribute. It changes no
/// lower file. `Bad` comes with the cause for which the file is bad; `LowerFault` where the store failed.
pub fn open<B: LowerBodies, F: BodyFormat, L: Ledger>(
    alloc: Global,
    bodies: &mut B,
    format: &F,
    node: u32,
    steps: &mut Steps<L>,
) -> Result<OpenFile<F::Key>, OpenError>
    ensures reads { AreReads (is_lower_fault result) (B.held bodies.old) (B.held bodies.new) }
    ensures cause { IfErr result (λ e. (B.held bodies.old).told ≡ true → IsCause (F.rules format.now) ((B.held bodies.old).files node) e) }
    ensures room { IfOk result (λ f. HasItsRoom (B.held bodies.new) node f.opened) }
    ensures state { IfOk result (λ f. (B.held bodies.old).told ≡ true
        → state_by (content (F.rules format.now) ((B.held bodies.old).files node)) ≡ Good (record { octets = octets_of f; slots = [] })) }
    ensures origin { IfOk result (λ f. (B.held bodies.old).told ≡ true
        → origin_in (F.rules format.now) node ((B.held bodies.old).files node) ≡ Some (origin_of ((B.held bodies.old).files node) (working_of f))) }
    ensures laid { IfOk result (λ f. (B.held bodies.old).told ≡ true
        → IsLaidOut (F.rules format.now) (origin_of ((B.held bodies.old).files node) (working_of f)) (B.held bodies.new) node f) }
    ensures unmarked { IfOk result (λ f. (B.held bodies.old).told ≡ true
        → (content (F.rules format.now) ((B.held bodies.old).files node) ≡ Empty → ⊥) → IsUnmarked (working_of f)) }
    ensures steps { IfOk result (λ f. steps.new ≤ steps.old + 2 + 256 * extent_count f.opened.size) }
    ensures most_steps { steps.new ≤ steps.old + 2 + 256 * extent_count MAX_SIZE }
{
    match open_buffers(alloc, bodies, format, node, steps) {
        Ok(buffers) => Ok(OpenFile { buffers }),
        Err(error) => Err(error),
    }
}

impl<K> OpenFile<K> {
    ghost use Rattle.std.specs.Prelude.{◌≡◌, ◌+◌, ◌*◌, ◌≤◌, ℕ, List, true, false, OnErr, OnOk, drop, is_err, length, take};
    ghost use Rattle.packet_model.specs.declared.layout.TheConstants.{MAX_SIZE};
    ghost use Rattle.body_model.specs.Bodies.{HeldBodies};
    ghost use Rattle.body_model.specs.declared.content.Content.TheVariants as contents;
    ghost use Rattle.body_model.specs.Format.{Format, content};
    ghost use Rattle.file_model.specs.ByteFile.{resized, written};
    ghost use Rattle.file_model.specs.LaidOut.{IsUnmarked, IsWrittenOut, LaidOut, Origin};
    ghost use Rattle.lower_tree.specs.Calls.{is_fault};
    ghost use Rattle.open_file.specs.Buffered.{ChangesOctets, HasItsRoom, dirty_count, working_of};
    ghost use Rattle.open_file.specs.Calling.{AreReads, AreWrites};

    /// The size of the content, in octets.
    pub fn size(&self) -> u64
        ensures size { result ≡ self.now.opened.size }
        ensures most { result ≤ MAX_SIZE }
    {
        self.buffers.opened.size
    }

    /// Copies octets from an offset on into the first ones of a room, up to its end or that of the content, and says how many. It takes
    /// no memory.
    pub fn read(&self, at: u64, to: &mut [u8]) -> usize
        ensures most { result ≤ length to.old }
        ensures octets { (format : Format K) (origin : Origin) (held : HeldBodies) (node : ℕ) (octets : List ℕ) → LaidOut format origin held node (working_of self.now) octets
            → take result to.new ≡ take (length to.old) (drop at octets) }
        ensures count { (format : Format K) (origin : Origin) (held : HeldBodies) (node : ℕ) (octets : List ℕ) → LaidOut format origin held node (working_of self.now) octets
            → result ≡ length (take (length to.old) (drop at octets)) }
    {
        copy_out(&self.buffers.buffer, self.buffers.opened.size, at, to)
    }

    /// Writes octets at an offset, behind zeros where the file ends before it. After an error all is as before: `Failed` comes where
    /// the store failed, `Memory` where memory ran out.
    pub fn write<B: LowerBodies>(
        &mut self,
        alloc: Global,
        bodies: &mut B,
        node: u32,
        at: u64,
        octets: &[u8],
    ) -> Result<(), LowerError>
        requires room { HasItsRoom (B.held bodies.old) node self.old.opened }
        requires most { at + length octets.now ≤ MAX_SIZE }
        ensures reads { AreReads (is_fault result) (B.held bodies.old) (B.held bodies.new) }
        ensures octets { OnOk result (ChangesOctets node (B.held bodies.old) (B.held bodies.new) self.old self.new (written at octets.now)) }
        ensures err { OnErr result (self.new ≡ self.old) }
        ensures room { HasItsRoom (B.held bodies.new) node self.new.opened }
    {
        self.buffers.write(alloc, bodies, node, at, octets)?;
        Ok(())
    }

    /// Cuts the file, or fills it up with zeros. The same size changes and marks nothing. Errors are those of `write`.
    pub fn truncate<B: LowerBodies>(
        &mut self,
        alloc: Global,
        bodies: &mut B,
        node: u32,
        size: u64,
    ) -> Result<(), LowerError>
        requires room { HasItsRoom (B.held bodies.old) node self.old.opened }
        requires most { size ≤ MAX_SIZE }
        ensures reads { AreReads (is_fault result) (B.held bodies.old) (B.held bodies.new) }
        ensures octets { OnOk result (ChangesOctets node (B.held bodies.old) (B.held bodies.new) self.old self.new (resized size)) }
        ensures err { OnErr result (self.new ≡ self.old) }
        ensures room { HasItsRoom (B.held bodies.new) node self.new.opened }
        ensures same { size ≡ self.old.opened.size → (self.new ≡ self.old) × (B.held bodies.new ≡ B.held bodies.old) }
    {
        self.buffers.truncate(alloc, bodies, node, size)?;
        Ok(())
    }

    /// Writes out what is marked: each such extent in rising order, then what there is of the metadata, then the length. The first call
    /// that fails ends it; what that was to write, and what comes behind it, stays marked. It takes no memory.
    pub fn write_out<B: LowerBodies, F: BodyFormat<Key = K>, L: Ledger>(
        &mut self,
        bodies: &mut B,
        format: &F,
        node: u32,
        steps: &mut Steps<L>,
    ) -> Result<(), Failed>
        requires room { HasItsRoom (B.held bodies.old) node self.old.opened }
        ensures writes { AreWrites (is_err result) node (B.held bodies.old) (B.held bodies.new) }
        ensures room { HasItsRoom (B.held bodies.new) node self.new.opened }
        ensures opened { self.new.opened ≡ self.old.opened }
        ensures laid { (B.held bodies.old).told ≡ true → (origin : Origin) (octets : List ℕ) → LaidOut (F.rules format.now) origin (B.held bodies.old) node (working_of self.old) octets
            → LaidOut (F.rules format.now) origin (B.held bodies.new) node (working_of self.new) octets }
        ensures unmarked { OnOk result (IsUnmarked (working_of self.new)) }
        ensures out { OnOk result ((B.held bodies.old).told ≡ true → (origin : Origin) (octets : List ℕ) → LaidOut (F.rules format.now) origin (B.held bodies.old) node (working_of self.old) octets
            → (content (F.rules format.now) ((B.held bodies.new).files node) ≡ contents.Good octets) × IsWrittenOut (F.rules format.now) origin ((B.held bodies.new).files node) self.new.opened) }
        ensures quiet { IsUnmarked (working_of self.old) → (B.held bodies.new ≡ B.held bodies.old) × (is_err result ≡ false) }
        ensures steps { steps.new ≤ steps.old + 256 * dirty_count self.old.dirty }
    {
        put_all(bodies, format, node, &mut self.buffers, steps)?;
        Ok(())
    }

    /// Spends the file and its key. What isn't written out is lost.
    pub fn end<F: BodyFormat<Key = K>>(self, format: &F) {
        let OpenFile { buffers } = self;
        let Buffers {
            opened,
            buffer: _,
            dirty: _,
            metadata_mark: _,
            length_mark: _,
        } = buffers;
        end_opened(format, opened);
    }
}
