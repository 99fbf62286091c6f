// A file is read and decrypted as a whole.
ghost use Rattle.std.specs.Prelude.{[], ◌≡◌, ◌+◌, ◌*◌, ◌≤◌, ◌<◌, ◌++◌, ◌↔◌, None, true, ℕ, IsTrue, OnOk, IfErr, IfOk, Ok, length, min};
ghost use Rattle.packet_model.specs.declared.layout.TheConstants.{EXTENT_SIZE, MAX_SIZE, SET_END};
ghost use Rattle.packet_model.specs.Metadata.{extent_count};
ghost use Rattle.body_model.specs.Format.{IsDataStart, joined, needed, opening, plain_at};
ghost use Rattle.body_model.specs.LowerFile.{LowerFile};
ghost use Rattle.lower_tree.specs.Calls.{is_fault};
ghost use Rattle.lower_tree.specs.Opening.{AnswersOpening, opening_of};
ghost use Rattle.open_file.specs.Buffered.{HasItsRoom, IsBuffer, buffered_of};
ghost use Rattle.open_file.specs.Calling.{AreReads};
ghost use Rattle.open_file.specs.Opening.{IsCause, IsFound, IsOpened, error_of, error_of_lower, found, is_lower_fault, origin_found};
ghost use Rattle.open_file.specs.Standing.{AllClean, FileStands, TellsHead};

use crate::buffers::{Buffers, EXTENT};
use crate::sizes::{attribute_needed, clear_from};
use file_model::MetadataMark;
use lower_tree::{
    BadCause, BodyFormat, EXTENT_SIZE, Items, LowerBodies, LowerError, OpenFault, Opened, Steps,
};
use packet_model::SET_END;
use std::alloc::{AllocError, Global};
use std::sync::ledger::Ledger;

/// Why a file isn't opened.
#[derive(Clone, Copy, Debug, PartialEq, Eq)]
pub enum OpenError {
    /// The file is bad, for this cause.
    Bad(BadCause),
    /// The store failed, and its count of faults rose.
    LowerFault,
    /// Memory ran out.
    Memory,
}

/// The error of a refused call on the store.
fn lower_error(fault: LowerError) -> OpenError
    ensures { result ≡ error_of_lower fault }
{
    match fault {
        LowerError::Failed => OpenError::LowerFault,
        LowerError::Memory => OpenError::Memory,
    }
}

/// The error of a file that the format doesn't open.
fn format_error(fault: OpenFault) -> OpenError
    ensures { result ≡ error_of fault }
{
    match fault {
        OpenFault::Bad(cause) => OpenError::Bad(cause),
        OpenFault::Memory => OpenError::Memory,
    }
}

/// The first octets of a body, 4,096 or all.
fn read_head<B: LowerBodies>(
    alloc: Global,
    bodies: &mut B,
    node: u32,
    len: u64,
) -> Result<Vec<u8>, LowerError>
    requires { (B.held bodies.old).told ≡ true → len ≡ length ((B.held bodies.old).files node).body }
    ensures reads { AreReads (is_fault result) (B.held bodies.old) (B.held bodies.new) }
    ensures head { IfOk result (λ head. TellsHead (B.held bodies.old) node len head.items) }
{
    let count = len.min(SET_END as u64) as usize;
    let mut head = match Vec::with_capacity(alloc, count) {
        Ok(head) => head,
        Err(_) => return Err(LowerError::Memory),
    };
    match head.resize(count, 0u8) {
        Ok(()) => {}
        Err(_) => return Err(LowerError::Memory),
    }
    match bodies.read_at(node, 0, &mut head) {
        Ok(()) => Ok(head),
        Err(_) => Err(LowerError::Failed),
    }
}

/// Reads and decrypts one extent, and adds it to the buffer.
fn bring_page<B: LowerBodies, F: BodyFormat, L: Ledger>(
    bodies: &mut B,
    format: &F,
    node: u32,
    opened: &Opened<F::Key>,
    number: usize,
    buffer: &mut Vec<u8>,
    steps: &mut Steps<L>,
) -> Result<(), LowerError>
    requires start { IsDataStart opened.now.meta_place opened.now.data_start }
    requires most { number < 65536 }
    requires there { (B.held bodies.old).told ≡ true → opened.now.data_start + EXTENT_SIZE * number + EXTENT_SIZE ≤ length ((B.held bodies.old).files node).body }
    ensures reads { AreReads (is_fault result) (B.held bodies.old) (B.held bodies.new) }
    ensures len { OnOk result (length buffer.new.items ≡ length buffer.old.items + EXTENT_SIZE) }
    ensures page { OnOk result ((B.held bodies.old).told ≡ true → buffer.new.items
        ≡ buffer.old.items ++ plain_at (F.rules format.now) opened.now.key opened.now.data_start ((B.held bodies.old).files node).body number) }
    ensures long { OnOk result ((B.held bodies.old).told ≡ true
        → length (plain_at (F.rules format.now) opened.now.key opened.now.data_start ((B.held bodies.old).files node).body number) ≡ EXTENT_SIZE) }
    ensures steps { (steps.old ≤ steps.new) × (steps.new ≤ steps.old + 256) }
{
    let mut extent = [0u8; EXTENT];
    let at = opened.data_start + EXTENT_SIZE * number as u64;
    match bodies.read_at(node, at, &mut extent) {
        Ok(()) => {}
        Err(_) => return Err(LowerError::Failed),
    }
    format.unseal(&opened.key, number as u64, &mut extent, steps);
    match buffer.extend_from_slice(&extent) {
        Ok(()) => Ok(()),
        Err(_) => Err(LowerError::Memory),
    }
}

/// All extents of a file, decrypted.
fn bring_all<B: LowerBodies, F: BodyFormat, L: Ledger>(
    alloc: Global,
    bodies: &mut B,
    format: &F,
    node: u32,
    opened: &Opened<F::Key>,
    steps: &mut Steps<L>,
) -> Result<Vec<u8>, LowerError>
    requires start { IsDataStart opened.now.meta_place opened.now.data_start }
    requires most { opened.now.size ≤ MAX_SIZE }
    requires there { (B.held bodies.old).told ≡ true → needed opened.now.data_start opened.now.size ≤ length ((B.held bodies.old).files node).body }
    ensures reads { AreReads (is_fault result) (B.held bodies.old) (B.held bodies.new) }
    ensures len { IfOk result (λ buffer. length buffer.items ≡ EXTENT_SIZE * extent_count opened.now.size) }
    ensures pages { IfOk result (λ buffer. (B.held bodies.old).told ≡ true → buffer.items
        ≡ joined (plain_at (F.rules format.now) opened.now.key opened.now.data_start ((B.held bodies.old).files node).body) (extent_count opened.now.size)) }
    ensures long { IfOk result (λ buffer. (B.held bodies.old).told ≡ true → (n : ℕ) → n < extent_count opened.now.size
        → length (plain_at (F.rules format.now) opened.now.key opened.now.data_start ((B.held bodies.old).files node).body n) ≡ EXTENT_SIZE) }
    ensures steps { steps.new ≤ steps.old + 256 * extent_count opened.now.size }
{
    let mut buffer = Vec::new(alloc);
    for number in 0..(opened.size as usize).div_ceil(EXTENT) {
        bring_page(bodies, format, node, opened, number, &mut buffer, steps)?;
    }
    Ok(buffer)
}

/// Spends the key.
pub(crate) fn end_opened<F: BodyFormat>(format: &F, opened: Opened<F::Key>) {
    let Opened {
        key,
        size: _,
        data_start: _,
        meta_place: _,
        metadata: _,
    } = opened;
    format.end_key(key);
}

/// One mark for each extent, none of them set.
fn clean_marks(alloc: Global, count: usize) -> Result<Vec<bool>, AllocError>
    ensures len { IfOk result (λ marks. length marks.items ≡ count) }
    ensures clean { IfOk result (λ marks. AllClean marks.items) }
{
    let mut marks = Vec::new(alloc);
    marks.resize(count, false)?;
    Ok(marks)
}

/// The extents of a file that was opened, a mark for each, and room for writing it out.
fn pages_of<B: LowerBodies, F: BodyFormat, L: Ledger>(
    alloc: Global,
    bodies: &mut B,
    format: &F,
    node: u32,
    opened: &Opened<F::Key>,
    steps: &mut Steps<L>,
) -> Result<(Vec<u8>, Vec<bool>), LowerError>
    requires bounds { IsOpened opened.now }
    requires opening { (B.held bodies.old).told ≡ true → opening (F.rules format.now) ((B.held bodies.old).files node) ≡ Ok opened.now }
    ensures reads { AreReads (is_fault result) (B.held bodies.old) (B.held bodies.new) }
    ensures shaped { IfOk result (λ p. IsBuffer (found opened.now p.0.items p.1.items)) }
    ensures room { IfOk result (λ p. HasItsRoom (B.held bodies.new) node opened.now) }
    ensures stands { IfOk result (λ p. (B.held bodies.old).told ≡ true → FileStands (F.rules format.now)
        (origin_found ((B.held bodies.old).files node) opened.now) ((B.held bodies.old).files node) (found opened.now p.0.items p.1.items)) }
    ensures clean { IfOk result (λ p. AllClean p.1.items) }
    ensures steps { steps.new ≤ steps.old + 256 * extent_count opened.now.size }
{
    let count = (opened.size as usize).div_ceil(EXTENT);
    let body = opened.data_start + EXTENT_SIZE * count as u64;
    bodies.reserve(alloc, node, body, attribute_needed(opened))?;
    let marks = match clean_marks(alloc, count) {
        Ok(marks) => marks,
        Err(_) => return Err(LowerError::Memory),
    };
    let mut buffer = bring_all(alloc, bodies, format, node, opened, steps)?;
    clear_from(&mut buffer, opened.size as usize);
    Ok((buffer, marks))
}

fn is_empty_file(len: u64, attribute: &Option<Items<u8>>) -> bool
    ensures { IsTrue result ↔ ((len ≡ 0) × (attribute.now ≡ None)) }
{
    match attribute {
        Some(_) => false,
        None => len == 0,
    }
}

/// Opens a file by its attribute, where it has one.
fn open_by<F: BodyFormat, L: Ledger>(
    alloc: Global,
    format: &F,
    head: &[u8],
    attribute: &Option<Items<u8>>,
    len: u64,
    steps: &mut Steps<L>,
) -> Result<Opened<F::Key>, OpenFault>
    requires { length head.now ≡ min len SET_END }
    ensures opens { AnswersOpening result (opening_of (F.rules format.now) head.now attribute.now len) }
    ensures bounds { IfOk result (λ o. IsOpened o) }
    ensures steps { (steps.old ≤ steps.new) × (steps.new ≤ steps.old + 2) }
{
    match attribute {
        Some(octets) => format.open(alloc, head, Some(octets.as_slice()), len, steps),
        None => format.open(alloc, head, None, len, steps),
    }
}

/// A file that has no octets and no metadata yet. All of its metadata is marked, and its length.
fn make_new<B: LowerBodies, F: BodyFormat, L: Ledger>(
    alloc: Global,
    bodies: &mut B,
    format: &F,
    node: u32,
    steps: &mut Steps<L>,
) -> Result<Buffers<F::Key>, LowerError>
    ensures reads { AreReads (is_fault result) (B.held bodies.old) (B.held bodies.new) }
    ensures shaped { IfOk result (λ f. IsBuffer (buffered_of f)) }
    ensures room { IfOk result (λ f. HasItsRoom (B.held bodies.new) node f.opened) }
    ensures found { IfOk result (λ f. (file : LowerFile) → file.body ≡ [] → file.attribute ≡ None → IsFound (F.rules format.now) node file (buffered_of f)) }
    ensures steps { steps.new ≤ steps.old + 2 }
{
    let opened = match format.new_file(alloc, node, steps) {
        Ok(opened) => opened,
        Err(_) => return Err(LowerError::Memory),
    };
    match bodies.reserve(alloc, node, opened.data_start, attribute_needed(&opened)) {
        Ok(()) => Ok(Buffers {
            opened,
            buffer: Vec::new(alloc),
            dirty: Vec::new(alloc),
            metadata_mark: MetadataMark::Whole,
            length_mark: true,
        }),
        Err(fault) => {
            end_opened(format, opened);
            Err(fault)
        }
    }
}

/// Opens a file: reads and decrypts all of it, or makes one of a file that is empty.
pub(crate) fn open_buffers<B: LowerBodies, F: BodyFormat, L: Ledger>(
    alloc: Global,
    bodies: &mut B,
    format: &F,
    node: u32,
    steps: &mut Steps<L>,
) -> Result<Buffers<F::Key>, OpenError>
    ensures reads { AreReads (is_lower_fault result) (B.held bodies.old) (B.held bodies.new) }
    ensures cause { IfErr result (λ e. (B.held bodies.old).told ≡ true → IsCause (F.rules format.now) ((B.held bodies.old).files node) e) }
    ensures shaped { IfOk result (λ f. IsBuffer (buffered_of f)) }
    ensures room { IfOk result (λ f. HasItsRoom (B.held bodies.new) node f.opened) }
    ensures found { IfOk result (λ f. (B.held bodies.old).told ≡ true → IsFound (F.rules format.now) node ((B.held bodies.old).files node) (buffered_of f)) }
    ensures steps { IfOk result (λ f. steps.new ≤ steps.old + 2 + 256 * extent_count f.opened.size) }
    ensures most_steps { steps.new ≤ steps.old + 2 + 256 * extent_count MAX_SIZE }
{
    let len = match bodies.len(node) {
        Ok(len) => len,
        Err(_) => return Err(OpenError::LowerFault),
    };
    let attribute = match bodies.attribute(alloc, node) {
        Ok(attribute) => attribute,
        Err(fault) => return Err(lower_error(fault)),
    };
    if is_empty_file(len, &attribute) {
        match make_new(alloc, bodies, format, node, steps) {
            Ok(file) => return Ok(file),
            Err(fault) => return Err(lower_error(fault)),
        }
    }
    let head = match read_head(alloc, bodies, node, len) {
        Ok(head) => head,
        Err(fault) => return Err(lower_error(fault)),
    };
    let opened = match open_by(alloc, format, &head, &attribute, len, steps) {
        Ok(opened) => opened,
        Err(fault) => return Err(format_error(fault)),
    };
    match pages_of(alloc, bodies, format, node, &opened, steps) {
        Ok((buffer, dirty)) => Ok(Buffers {
            opened,
            buffer,
            dirty,
            metadata_mark: MetadataMark::Clean,
            length_mark: false,
        }),
        Err(fault) => {
            end_opened(format, opened);
            Err(lower_error(fault))
        }
    }
}
