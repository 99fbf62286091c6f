// What of an open file is marked is written.
ghost use Rattle.std.specs.Prelude.{◌≡◌, ◌≢◌, ◌+◌, ◌*◌, ◌≤◌, ◌<◌, ◌^◌, true, false, ℕ, List, Bool, OnOk, OnErr, length, is_err, slice_index};
ghost use Rattle.lower_model.specs.declared.limits.TheConstants.{LONGEST_ATTRIBUTE};
ghost use Rattle.packet_model.specs.declared.layout.TheConstants.{EXTENT_SIZE, MAX_META_SIZE, MAX_SIZE};
ghost use Rattle.packet_model.specs.Metadata.{extent_count};
ghost use Rattle.body_model.specs.BodyCalls.{ChangesBody, IsCall, KeepsOthers, Tears};
ghost use Rattle.body_model.specs.Format.{Format, IsDataStart, needed};
ghost use Rattle.file_model.specs.declared.mark.MetadataMark.{MetadataMark};
ghost use Rattle.file_model.specs.declared.mark.MetadataMark.TheVariants.{Clean};
ghost use Rattle.file_model.specs.LaidOut.{Origin};
ghost use Rattle.open_file.specs.Buffered.{HasItsRoom, IsBuffer, IsKept, buffered_of, dirty_count, is_dirty, page_at};
ghost use Rattle.open_file.specs.Calling.{AreWrites};
ghost use Rattle.open_file.specs.Standing.{AllClean, FileStands, NoMarks, StandsOn, WritesSealed, marks_of};

use crate::buffers::{Buffers, EXTENT};
use file_model::MetadataMark;
use lower_tree::{BodyFormat, EXTENT_SIZE, Failed, LowerBodies, MetaPlace, Opened, Steps};
use std::sync::ledger::Ledger;

/// Writes one extent of the buffer.
fn put_page<B: LowerBodies, F: BodyFormat, L: Ledger>(
    bodies: &mut B,
    format: &F,
    node: u32,
    opened: &Opened<F::Key>,
    buffer: &[u8],
    number: usize,
    steps: &mut Steps<L>,
) -> Result<(), Failed>
    requires start { opened.now.data_start ≤ MAX_META_SIZE }
    requires most { number < 65536 }
    requires there { EXTENT_SIZE * number + EXTENT_SIZE ≤ length buffer.now }
    requires room { opened.now.data_start + EXTENT_SIZE * number + EXTENT_SIZE ≤ (B.held bodies.old).body_room node }
    ensures call { IsCall (is_err result) (B.held bodies.old) (B.held bodies.new) }
    ensures others { KeepsOthers node (B.held bodies.old) (B.held bodies.new) }
    ensures written { OnOk result (WritesSealed (F.rules format.now) node opened.now number (page_at number buffer.now) (B.held bodies.old) (B.held bodies.new)) }
    ensures torn { OnErr result (ChangesBody (Tears (opened.now.data_start + EXTENT_SIZE * number) EXTENT_SIZE) node (B.held bodies.old) (B.held bodies.new)) }
    ensures steps { steps.new ≡ steps.old + 256 }
{
    let mut extent = [0u8; EXTENT];
    extent.copy_from_slice(&buffer[EXTENT * number..EXTENT * number + EXTENT]);
    format.seal(&opened.key, number as u64, &mut extent, steps);
    let at = opened.data_start + EXTENT_SIZE * number as u64;
    bodies.write_at(node, at, &extent)
}

/// Writes one extent, where it is marked.
fn put_dirty<B: LowerBodies, F: BodyFormat, L: Ledger>(
    bodies: &mut B,
    format: &F,
    node: u32,
    opened: &Opened<F::Key>,
    buffer: &[u8],
    dirty: &mut Vec<bool>,
    number: usize,
    steps: &mut Steps<L>,
) -> Result<(), Failed>
    requires most { opened.now.size ≤ MAX_SIZE }
    requires start { IsDataStart opened.now.meta_place opened.now.data_start }
    requires pages { length buffer.now ≡ EXTENT_SIZE * extent_count opened.now.size }
    requires zeros { (i : ℕ) → opened.now.size ≤ i → slice_index buffer.now i ≡ 0 }
    requires marks { length dirty.old.items ≡ extent_count opened.now.size }
    requires room { needed opened.now.data_start opened.now.size ≤ (B.held bodies.old).body_room node }
    requires within { number < length dirty.old.items }
    ensures marks { length dirty.new.items ≡ length dirty.old.items }
    ensures writes { AreWrites (is_err result) node (B.held bodies.old) (B.held bodies.new) }
    ensures stands { (origin : Origin) (mark : MetadataMark) (len : Bool) → StandsOn (F.rules format.now) origin node (B.held bodies.old) (B.held bodies.new) opened.now buffer.now
        (record { pages = dirty.old.items; metadata = mark; len = len }) (record { pages = dirty.new.items; metadata = mark; len = len }) }
    ensures clean { OnOk result (is_dirty dirty.new.items number ≡ false) }
    ensures same { (n : ℕ) → n ≢ number → is_dirty dirty.new.items n ≡ is_dirty dirty.old.items n }
    ensures quiet { is_dirty dirty.old.items number ≡ false → B.held bodies.new ≡ B.held bodies.old }
    ensures calm { is_dirty dirty.old.items number ≡ false → is_err result ≡ false }
    ensures free { is_dirty dirty.old.items number ≡ false → steps.new ≤ steps.old }
    ensures steps { steps.new ≤ steps.old + 256 }
{
    if !dirty[number] {
        return Ok(());
    }
    put_page(bodies, format, node, opened, buffer, number, steps)?;
    dirty[number] = false;
    Ok(())
}

/// Writes each marked extent, in rising order. The first write that fails ends it: its extent stays marked, and so do those behind it.
fn write_dirty<B: LowerBodies, F: BodyFormat, L: Ledger>(
    bodies: &mut B,
    format: &F,
    node: u32,
    opened: &Opened<F::Key>,
    buffer: &[u8],
    dirty: &mut Vec<bool>,
    steps: &mut Steps<L>,
) -> Result<(), Failed>
    requires most { opened.now.size ≤ MAX_SIZE }
    requires start { IsDataStart opened.now.meta_place opened.now.data_start }
    requires pages { length buffer.now ≡ EXTENT_SIZE * extent_count opened.now.size }
    requires zeros { (i : ℕ) → opened.now.size ≤ i → slice_index buffer.now i ≡ 0 }
    requires marks { length dirty.old.items ≡ extent_count opened.now.size }
    requires room { needed opened.now.data_start opened.now.size ≤ (B.held bodies.old).body_room node }
    ensures marks { length dirty.new.items ≡ length dirty.old.items }
    ensures writes { AreWrites (is_err result) node (B.held bodies.old) (B.held bodies.new) }
    ensures stands { (origin : Origin) (mark : MetadataMark) (len : Bool) → StandsOn (F.rules format.now) origin node (B.held bodies.old) (B.held bodies.new) opened.now buffer.now
        (record { pages = dirty.old.items; metadata = mark; len = len }) (record { pages = dirty.new.items; metadata = mark; len = len }) }
    ensures clean { OnOk result (AllClean dirty.new.items) }
    ensures quiet { AllClean dirty.old.items → B.held bodies.new ≡ B.held bodies.old }
    ensures calm { AllClean dirty.old.items → is_err result ≡ false }
    ensures steps { steps.new ≤ steps.old + 256 * dirty_count dirty.old.items }
{
    for number in 0..dirty.len() {
        put_dirty(bodies, format, node, opened, buffer, dirty, number, steps)?;
    }
    Ok(())
}

/// Writes what is marked of the metadata.
fn put_metadata<B: LowerBodies, K>(
    bodies: &mut B,
    node: u32,
    opened: &Opened<K>,
    mark: MetadataMark,
) -> Result<(), Failed>
    requires start { IsDataStart opened.now.meta_place opened.now.data_start }
    requires kept { IsKept opened.now.meta_place mark opened.now }
    requires room { HasItsRoom (B.held bodies.old) node opened.now }
    ensures writes { AreWrites (is_err result) node (B.held bodies.old) (B.held bodies.new) }
    ensures ok { OnOk result ((format : Format K) (origin : Origin) (buffer : List ℕ) (pages : List Bool) (len : Bool)
        → StandsOn format origin node (B.held bodies.old) (B.held bodies.new) opened.now buffer (record { pages = pages; metadata = mark; len = len }) (record { pages = pages; metadata = Clean; len = len })) }
    ensures err { OnErr result ((format : Format K) (origin : Origin) (buffer : List ℕ) (pages : List Bool) (len : Bool)
        → StandsOn format origin node (B.held bodies.old) (B.held bodies.new) opened.now buffer (record { pages = pages; metadata = mark; len = len }) (record { pages = pages; metadata = mark; len = len })) }
    ensures quiet { mark ≡ Clean → B.held bodies.new ≡ B.held bodies.old }
    ensures calm { mark ≡ Clean → is_err result ≡ false }
{
    match (mark, opened.meta_place) {
        (MetadataMark::Clean, _) => Ok(()),
        (_, MetaPlace::Attribute) => bodies.set_attribute(node, opened.metadata.as_slice()),
        (MetadataMark::Size, MetaPlace::Header) => {
            bodies.write_at(node, 0, &opened.size.to_be_bytes())
        }
        (MetadataMark::Whole, MetaPlace::Header) => {
            bodies.write_at(node, 0, opened.metadata.as_slice())
        }
    }
}

/// Sets the length, where it is marked.
fn put_length<B: LowerBodies, K>(
    bodies: &mut B,
    node: u32,
    opened: &Opened<K>,
    mark: &mut bool,
) -> Result<(), Failed>
    requires most { opened.now.size ≤ MAX_SIZE }
    requires start { IsDataStart opened.now.meta_place opened.now.data_start }
    requires room { needed opened.now.data_start opened.now.size ≤ (B.held bodies.old).body_room node }
    ensures writes { AreWrites (is_err result) node (B.held bodies.old) (B.held bodies.new) }
    ensures stands { (format : Format K) (origin : Origin) (buffer : List ℕ) (pages : List Bool) (metadata : MetadataMark)
        → StandsOn format origin node (B.held bodies.old) (B.held bodies.new) opened.now buffer (record { pages = pages; metadata = metadata; len = mark.old }) (record { pages = pages; metadata = metadata; len = mark.new }) }
    ensures clean { OnOk result (mark.new ≡ false) }
    ensures quiet { mark.old ≡ false → B.held bodies.new ≡ B.held bodies.old }
    ensures calm { mark.old ≡ false → is_err result ≡ false }
{
    if !*mark {
        return Ok(());
    }
    let len = opened.data_start + opened.size.div_ceil(EXTENT_SIZE) * EXTENT_SIZE;
    bodies.set_len(node, len)?;
    *mark = false;
    Ok(())
}

/// Writes each marked extent, what is marked of the metadata, and the length. The first call that fails ends it: what it was to write,
/// and what stands behind it, stays marked.
pub(crate) fn put_all<B: LowerBodies, F: BodyFormat, L: Ledger>(
    bodies: &mut B,
    format: &F,
    node: u32,
    file: &mut Buffers<F::Key>,
    steps: &mut Steps<L>,
) -> Result<(), Failed>
    requires shaped { IsBuffer (buffered_of file.old) }
    requires room { HasItsRoom (B.held bodies.old) node file.old.opened }
    ensures shaped { IsBuffer (buffered_of file.new) }
    ensures room { HasItsRoom (B.held bodies.new) node file.new.opened }
    ensures opened { file.new.opened ≡ file.old.opened }
    ensures buffer { file.new.buffer.items ≡ file.old.buffer.items }
    ensures writes { AreWrites (is_err result) node (B.held bodies.old) (B.held bodies.new) }
    ensures stands { (B.held bodies.old).told ≡ true → (origin : Origin) → FileStands (F.rules format.now) origin ((B.held bodies.old).files node) (buffered_of file.old)
        → FileStands (F.rules format.now) origin ((B.held bodies.new).files node) (buffered_of file.new) }
    ensures clean { OnOk result (NoMarks (marks_of (buffered_of file.new))) }
    ensures quiet { NoMarks (marks_of (buffered_of file.old)) → B.held bodies.new ≡ B.held bodies.old }
    ensures calm { NoMarks (marks_of (buffered_of file.old)) → is_err result ≡ false }
    ensures steps { steps.new ≤ steps.old + 256 * dirty_count file.old.dirty.items }
{
    write_dirty(
        bodies,
        format,
        node,
        &file.opened,
        &file.buffer,
        &mut file.dirty,
        steps,
    )?;
    put_metadata(bodies, node, &file.opened, file.metadata_mark)?;
    file.metadata_mark = MetadataMark::Clean;
    put_length(bodies, node, &file.opened, &mut file.length_mark)?;
    Ok(())
}
