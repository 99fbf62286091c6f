ghost use Rattle.std.specs.Prelude.{◌≡◌, ◌+◌, ◌*◌, ◌≤◌, ◌<◌, ◌^◌, true, ℕ, OnOk, OnErr, length, min, slice_index};
ghost use Rattle.packet_model.specs.declared.layout.TheConstants.{EXTENT_SIZE};
ghost use Rattle.packet_model.specs.Metadata.{extent_count};
ghost use Rattle.body_model.specs.Format.{with_size};
ghost use Rattle.file_model.specs.LaidOut.{attribute_needed};
ghost use Rattle.file_model.specs.Resizing.{mark_size, sized, sized_opened};
ghost use Rattle.open_file.specs.Resizing.{ResizesPages};

use crate::buffers::{Buffers, EXTENT, mark};
use file_model::MetadataMark;
use lower_tree::{EXTENT_SIZE, Items, LowerBodies, LowerError, MetaPlace, Opened};
use std::alloc::{AllocError, Global};
use std::mem::replace;

/// Puts zeros from a place on.
pub(crate) fn clear_from(buffer: &mut [u8], from: usize)
    ensures same { (i : ℕ) → i < from → slice_index buffer.new i ≡ slice_index buffer.old i }
    ensures zeros { (i : ℕ) → from ≤ i → slice_index buffer.new i ≡ 0 }
{
    for at in from..buffer.len() {
        buffer[at] = 0;
    }
}

/// Cuts whole extents. That of the new end has zeros past it, and is marked.
fn shrink_pages(buffer: &mut Vec<u8>, dirty: &mut Vec<bool>, size: usize)
    requires within { size ≤ length buffer.old.items }
    requires marks { EXTENT_SIZE * length dirty.old.items ≡ length buffer.old.items }
    requires small { length buffer.old.items < 2 ^ 32 }
    ensures { ResizesPages size size buffer.old.items buffer.new.items dirty.old.items dirty.new.items }
{
    let count = size.div_ceil(EXTENT);
    buffer.truncate(EXTENT * count);
    clear_from(buffer, size);
    dirty.truncate(count);
    mark(dirty, size / EXTENT, count);
}

/// Adds marked extents of zeros. That of the old end is marked too.
fn grow_pages(
    buffer: &mut Vec<u8>,
    dirty: &mut Vec<bool>,
    before: usize,
    size: usize,
) -> Result<(), AllocError>
    requires rising { before ≤ size }
    requires small { size < 2 ^ 32 }
    requires pages { length buffer.old.items ≡ EXTENT_SIZE * length dirty.old.items }
    requires marks { length dirty.old.items ≡ extent_count before }
    requires zeros { (i : ℕ) → before ≤ i → slice_index buffer.old.items i ≡ 0 }
    ensures ok { OnOk result (ResizesPages before size buffer.old.items buffer.new.items dirty.old.items dirty.new.items) }
    ensures err { OnErr result ((buffer.new.items ≡ buffer.old.items) × (dirty.new.items ≡ dirty.old.items)) }
{
    let count = size.div_ceil(EXTENT);
    let old_count = dirty.len();
    dirty.resize(count, true)?;
    match buffer.resize(EXTENT * count, 0) {
        Ok(()) => {}
        Err(fault) => {
            dirty.truncate(old_count);
            return Err(fault);
        }
    }
    mark(dirty, before / EXTENT, old_count);
    Ok(())
}

/// Puts a size into the first octets of metadata.
fn put_size(metadata: &mut [u8], size: u64)
    requires { 8 ≤ length metadata.old }
    ensures { metadata.new ≡ with_size size metadata.old }
{
    metadata[..8].copy_from_slice(&size.to_be_bytes());
}

/// Kept metadata with another size, where any is kept.
fn sized(metadata: Items<u8>, size: u64) -> Items<u8>
    ensures { result ≡ sized size metadata }
{
    let mut octets = metadata.into_vec();
    if octets.len() < 8 {
        return Items::from_vec(octets);
    }
    put_size(&mut octets, size);
    Items::from_vec(octets)
}

/// Puts another size in what was opened, and in its kept metadata.
fn set_size<K>(alloc: Global, opened: &mut Opened<K>, size: u64)
    ensures { opened.new ≡ sized_opened size opened.old }
{
    let metadata = replace(&mut opened.metadata, Items::new(alloc));
    opened.metadata = sized(metadata, size);
    opened.size = size;
}

/// The mark of the metadata, once the size is changed.
fn mark_size(place: MetaPlace, mark: MetadataMark) -> MetadataMark
    ensures { result ≡ mark_size place mark }
{
    match (place, mark) {
        (MetaPlace::Header, MetadataMark::Clean) => MetadataMark::Size,
        (MetaPlace::Header, MetadataMark::Size) => MetadataMark::Size,
        (MetaPlace::Header, MetadataMark::Whole) => MetadataMark::Whole,
        (MetaPlace::Attribute, _) => MetadataMark::Whole,
    }
}

/// The room that the attribute takes.
pub(crate) fn attribute_needed<K>(opened: &Opened<K>) -> usize
    ensures { result ≡ attribute_needed opened.now.meta_place opened.now }
{
    match opened.meta_place {
        MetaPlace::Header => 0,
        MetaPlace::Attribute => opened.metadata.len(),
    }
}

impl<K> Buffers<K> {
    ghost use Rattle.std.specs.Prelude.{◌≡◌, ◌+◌, ◌≤◌, ◌<◌, true, ℕ, List, OnOk, OnErr, length};
    ghost use Rattle.packet_model.specs.declared.layout.TheConstants.{MAX_SIZE};
    ghost use Rattle.body_model.specs.LowerFile.{LowerFile};
    ghost use Rattle.body_model.specs.Format.{Format, IsFormat};
    ghost use Rattle.file_model.specs.ByteFile.{resized, written};
    ghost use Rattle.file_model.specs.LaidOut.{Origin};
    ghost use Rattle.lower_tree.specs.Calls.{is_fault};
    ghost use Rattle.open_file.specs.Buffered.{HasItsRoom, IsBuffer, buffered_of, octets_of};
    ghost use Rattle.open_file.specs.Calling.{AreReads};
    ghost use Rattle.open_file.specs.Standing.{FileStands};
    ghost use Rattle.open_file.specs.Resizing.{ChangesSize};

    /// Takes another size, whose extents are already there.
    fn mark_resized(&mut self, alloc: Global, size: u64)
        ensures opened { self.new.opened ≡ sized_opened size self.old.opened }
        ensures buffer { self.new.buffer.items ≡ self.old.buffer.items }
        ensures dirty { self.new.dirty.items ≡ self.old.dirty.items }
        ensures metadata { self.new.metadata_mark ≡ mark_size self.old.opened.meta_place self.old.metadata_mark }
        ensures len { self.new.length_mark ≡ true }
    {
        self.metadata_mark = mark_size(self.opened.meta_place, self.metadata_mark);
        self.length_mark = true;
        set_size(alloc, &mut self.opened, size);
    }

    /// Takes a smaller size.
    fn shrink(&mut self, alloc: Global, size: u64)
        requires shaped { IsBuffer (buffered_of self.old) }
        requires falling { size ≤ self.old.opened.size }
        ensures { ChangesSize size (buffered_of self.old) (buffered_of self.new) }
    {
        shrink_pages(&mut self.buffer, &mut self.dirty, size as usize);
        self.mark_resized(alloc, size);
    }

    /// Takes a larger size, once there is room for all of it.
    fn grow<B: LowerBodies>(
        &mut self,
        alloc: Global,
        bodies: &mut B,
        node: u32,
        size: u64,
    ) -> Result<(), LowerError>
        requires shaped { IsBuffer (buffered_of self.old) }
        requires room { HasItsRoom (B.held bodies.old) node self.old.opened }
        requires rising { self.old.opened.size ≤ size }
        requires most { size ≤ MAX_SIZE }
        ensures reads { AreReads (is_fault result) (B.held bodies.old) (B.held bodies.new) }
        ensures ok { OnOk result (ChangesSize size (buffered_of self.old) (buffered_of self.new)) }
        ensures err { OnErr result (buffered_of self.new ≡ buffered_of self.old) }
        ensures room { HasItsRoom (B.held bodies.new) node self.new.opened }
    {
        let body = self.opened.data_start + size.div_ceil(EXTENT_SIZE) * EXTENT_SIZE;
        bodies.reserve(alloc, node, body, attribute_needed(&self.opened))?;
        let before = self.opened.size as usize;
        match grow_pages(&mut self.buffer, &mut self.dirty, before, size as usize) {
            Ok(()) => {}
            Err(_) => return Err(LowerError::Memory),
        }
        self.mark_resized(alloc, size);
        Ok(())
    }

    /// Cuts the file, or fills it up with zeros. The same size marks nothing.
    pub(crate) fn truncate<B: LowerBodies>(
        &mut self,
        alloc: Global,
        bodies: &mut B,
        node: u32,
        size: u64,
    ) -> Result<(), LowerError>
        requires shaped { IsBuffer (buffered_of self.old) }
        requires room { HasItsRoom (B.held bodies.old) node self.old.opened }
        requires most { size ≤ MAX_SIZE }
        ensures reads { AreReads (is_fault result) (B.held bodies.old) (B.held bodies.new) }
        ensures octets { OnOk result (octets_of (buffered_of self.new) ≡ resized size (octets_of (buffered_of self.old))) }
        ensures size { OnOk result (self.new.opened.size ≡ size) }
        ensures err { OnErr result (buffered_of self.new ≡ buffered_of self.old) }
        ensures shaped { IsBuffer (buffered_of self.new) }
        ensures room { HasItsRoom (B.held bodies.new) node self.new.opened }
        ensures same { size ≡ self.old.opened.size → (buffered_of self.new ≡ buffered_of self.old) × (B.held bodies.new ≡ B.held bodies.old) }
        ensures stands { (format : Format K) (origin : Origin) (file : LowerFile) → IsFormat format
            → FileStands format origin file (buffered_of self.old) → FileStands format origin file (buffered_of self.new) }
    {
        if size == self.opened.size {
            return Ok(());
        }
        if size < self.opened.size {
            self.shrink(alloc, size);
            return Ok(());
        }
        self.grow(alloc, bodies, node, size)?;
        Ok(())
    }

    /// Grows to an end, where it lies past the size. A write that ends there writes the same as before.
    fn reach<B: LowerBodies>(
        &mut self,
        alloc: Global,
        bodies: &mut B,
        node: u32,
        end: u64,
    ) -> Result<(), LowerError>
        requires shaped { IsBuffer (buffered_of self.old) }
        requires room { HasItsRoom (B.held bodies.old) node self.old.opened }
        requires most { end ≤ MAX_SIZE }
        ensures reads { AreReads (is_fault result) (B.held bodies.old) (B.held bodies.new) }
        ensures size { OnOk result (end ≤ self.new.opened.size) }
        ensures octets { OnOk result ((at : ℕ) (octets : List ℕ) → at + length octets ≡ end
            → written at octets (octets_of (buffered_of self.new)) ≡ written at octets (octets_of (buffered_of self.old))) }
        ensures err { OnErr result (buffered_of self.new ≡ buffered_of self.old) }
        ensures shaped { IsBuffer (buffered_of self.new) }
        ensures room { HasItsRoom (B.held bodies.new) node self.new.opened }
        ensures stands { (format : Format K) (origin : Origin) (file : LowerFile) → IsFormat format
            → FileStands format origin file (buffered_of self.old) → FileStands format origin file (buffered_of self.new) }
    {
        if end <= self.opened.size {
            return Ok(());
        }
        self.truncate(alloc, bodies, node, end)?;
        Ok(())
    }

    /// Writes octets, behind zeros where the file ends before them.
    pub(crate) fn write<B: LowerBodies>(
        &mut self,
        alloc: Global,
        bodies: &mut B,
        node: u32,
        at: u64,
        octets: &[u8],
    ) -> Result<(), LowerError>
        requires shaped { IsBuffer (buffered_of self.old) }
        requires room { HasItsRoom (B.held bodies.old) node self.old.opened }
        requires most { at + length octets.now ≤ MAX_SIZE }
        ensures reads { AreReads (is_fault result) (B.held bodies.old) (B.held bodies.new) }
        ensures octets { OnOk result (octets_of (buffered_of self.new) ≡ written at octets.now (octets_of (buffered_of self.old))) }
        ensures err { OnErr result (buffered_of self.new ≡ buffered_of self.old) }
        ensures shaped { IsBuffer (buffered_of self.new) }
        ensures room { HasItsRoom (B.held bodies.new) node self.new.opened }
        ensures stands { (format : Format K) (origin : Origin) (file : LowerFile) → IsFormat format
            → FileStands format origin file (buffered_of self.old) → FileStands format origin file (buffered_of self.new) }
    {
        let end = at + octets.len() as u64;
        self.reach(alloc, bodies, node, end)?;
        self.write_within(at, octets);
        Ok(())
    }
}
