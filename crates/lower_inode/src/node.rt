// One node: its open file, and the slots that have it open.
ghost use Rattle.std.specs.Prelude.{◌≡◌, ◌+◌, ◌*◌, ◌≤◌, ℕ, List, Some, None, not, length, take, drop};
ghost use Rattle.std.specs.List.{list_any};
ghost use Rattle.session_model.specs.declared.file.FileCall.TheVariants.{Attach, Detach, Read, Size, Sync, Truncate, Write};
ghost use Rattle.script_model.specs.Script.{AreWritten, IsOffset};
ghost use Rattle.session_model.specs.FileCall.{IsFileCall};
ghost use Rattle.body_model.specs.Bodies.{HeldBodies};
ghost use Rattle.body_model.specs.Format.{Format, IsFormat};
ghost use Rattle.file_model.specs.ByteFile.{is_attached, is_open_slot, without_slot};
ghost use Rattle.file_model.specs.LaidOut.{LaidOut, Origin};
ghost use Rattle.open_file.specs.Buffered.{working_of};
ghost use Rattle.packet_model.specs.declared.layout.TheConstants.{MAX_SIZE};
ghost use Rattle.packet_model.specs.Metadata.{extent_count};
ghost use Rattle.lower_inode.specs.CipherSteps.{marked_extents, most_steps};
ghost use Rattle.lower_inode.specs.NodeTurn.{AddsSlot, IsNode, IsNodeTurn, reply_to_change};
ghost use Rattle.lower_inode.specs.Shards.{HasRoomFor};

use file_model::OpenSlot;
use lower_tree::{BodyFormat, Items, LowerBodies, LowerError, MAX_SIZE, Steps};
use open_file::{OpenError, OpenFile, open};
use session_model::{FileCall, FileReply};
use std::alloc::Global;
use std::mem::replace;
use std::sync::ledger::Ledger;

/// A file that is open, and the slots that have it open.
pub struct OpenNode<K> {
    /// The file.
    pub file: OpenFile<K>,
    /// The slots, of which there is one at least.
    pub slots: Vec<OpenSlot>,
}

/// Whether a slot has the file open.
fn is_open(slots: &[OpenSlot], session: u32, slot: u32) -> bool
    ensures { result ≡ is_attached slots.now session slot }
{
    slots.iter().any(|open_slot| open_slot.session == session && open_slot.slot == slot)
}

/// Whether another slot has the file open.
fn has_other(slots: &[OpenSlot], session: u32, slot: u32) -> bool
    ensures { result ≡ list_any (λ open_slot. not (is_open_slot session slot open_slot)) slots.now }
{
    slots.iter().any(|open_slot| !(open_slot.session == session && open_slot.slot == slot))
}

/// Leaves a slot out.
fn remove_slot(slots: &mut Vec<OpenSlot>, session: u32, slot: u32)
    ensures { slots.new.items ≡ without_slot slots.old.items session slot }
{
    slots.retain(|open_slot| !(open_slot.session == session && open_slot.slot == slot));
}

/// Adds a slot, if it isn't there.
fn add_slot(slots: &mut Vec<OpenSlot>, session: u32, slot: u32) -> FileReply
    ensures { AddsSlot slots.old.items slots.new.items session slot result }
{
    if is_open(slots, session, slot) {
        return FileReply::Done;
    }
    match slots.push(OpenSlot { session, slot }) {
        Ok(()) => FileReply::Done,
        Err(_) => FileReply::Memory,
    }
}

fn change_reply(changed: Result<(), LowerError>) -> FileReply
    ensures { result ≡ reply_to_change changed }
{
    match changed {
        Ok(()) => FileReply::Done,
        Err(LowerError::Failed) => FileReply::LowerFault,
        Err(LowerError::Memory) => FileReply::Memory,
    }
}

/// Puts a file where none is open.
fn put<K>(entry: &mut Option<OpenNode<K>>, opened: OpenNode<K>)
    requires { entry.old ≡ None }
    ensures { entry.new ≡ Some opened }
{
    match replace(entry, Some(opened)) {
        None => {}
        Some(_old) => unreachable!(),
    }
}

/// Reads the file of a node and opens it for a slot.
fn attach_first<B: LowerBodies, F: BodyFormat, L: Ledger>(
    alloc: Global,
    bodies: &mut B,
    format: &F,
    node: u32,
    entry: &mut Option<OpenNode<F::Key>>,
    session: u32,
    slot: u32,
    steps: &mut Steps<L>,
) -> FileReply
    requires { entry.old ≡ None }
    ensures turn { IsNodeTurn (F.rules format.now) (B.held bodies.old) (B.held bodies.new) node entry.old entry.new session (Attach slot) result }
    ensures steps { steps.new ≤ steps.old + (2 + 256 * extent_count MAX_SIZE) }
{
    let mut slots = Vec::new(alloc);
    match slots.push(OpenSlot { session, slot }) {
        Ok(()) => {}
        Err(_) => return FileReply::Memory,
    }
    match open(alloc, bodies, format, node, steps) {
        Ok(file) => {
            put(entry, OpenNode { file, slots });
            FileReply::Done
        }
        Err(OpenError::Bad(cause)) => FileReply::Refused(cause),
        Err(OpenError::LowerFault) => FileReply::LowerFault,
        Err(OpenError::Memory) => FileReply::Memory,
    }
}

/// Opens the file of a node for a slot.
fn attach<B: LowerBodies, F: BodyFormat, L: Ledger>(
    alloc: Global,
    bodies: &mut B,
    format: &F,
    node: u32,
    entry: &mut Option<OpenNode<F::Key>>,
    session: u32,
    slot: u32,
    steps: &mut Steps<L>,
) -> FileReply
    requires { IsNode (B.held bodies.old) node entry.old }
    ensures turn { IsNodeTurn (F.rules format.now) (B.held bodies.old) (B.held bodies.new) node entry.old entry.new session (Attach slot) result }
    ensures steps { steps.new ≤ steps.old + (2 + 256 * extent_count MAX_SIZE) }
{
    match entry {
        Some(opened) => add_slot(&mut opened.slots, session, slot),
        None => attach_first(alloc, bodies, format, node, entry, session, slot, steps),
    }
}

/// Reads into the first octets of a room, and says how many were read.
fn read_front<K>(file: &OpenFile<K>, at: u64, len: usize, room: &mut [u8]) -> usize
    requires { len ≤ length room.old }
    ensures most { result ≤ len }
    ensures length { length room.new ≡ length room.old }
    ensures octets { (format : Format K) (origin : Origin) (held : HeldBodies) (node : ℕ) (octets : List ℕ) → LaidOut format origin held node (working_of file.now) octets
        → take result room.new ≡ take len (drop at octets) }
{
    file.read(at, &mut room[..len])
}

fn read<K>(
    entry: &Option<OpenNode<K>>,
    session: u32,
    slot: u32,
    at: u64,
    len: usize,
    mut told: Vec<u8>,
) -> FileReply
    requires room { len ≤ length told.items }
    ensures { (format : Format K) (held : HeldBodies) (node : ℕ) → IsNode held node entry.now → IsNodeTurn format held held node entry.now entry.now session (Read slot at len) result }
{
    let Some(opened) = entry else {
        return FileReply::NotOpen;
    };
    if !is_open(&opened.slots, session, slot) {
        return FileReply::NotOpen;
    }
    let count = read_front(&opened.file, at, len, &mut told);
    told.truncate(count);
    FileReply::Octets(Items::from_vec(told))
}

fn write<B: LowerBodies, K>(
    alloc: Global,
    bodies: &mut B,
    node: u32,
    entry: &mut Option<OpenNode<K>>,
    session: u32,
    slot: u32,
    at: u64,
    octets: &[u8],
) -> FileReply
    requires node { IsNode (B.held bodies.old) node entry.old }
    requires offset { IsOffset at }
    requires octets { AreWritten octets.now }
    ensures { (format : Format K) → IsFormat format → IsNodeTurn format (B.held bodies.old) (B.held bodies.new) node entry.old entry.new session (Write slot at octets.now) result }
{
    let Some(opened) = entry else {
        return FileReply::NotOpen;
    };
    if !is_open(&opened.slots, session, slot) {
        return FileReply::NotOpen;
    }
    if at + octets.len() as u64 > MAX_SIZE {
        return FileReply::TooBig;
    }
    change_reply(opened.file.write(alloc, bodies, node, at, octets))
}

fn truncate<B: LowerBodies, K>(
    alloc: Global,
    bodies: &mut B,
    node: u32,
    entry: &mut Option<OpenNode<K>>,
    session: u32,
    slot: u32,
    size: u64,
) -> FileReply
    requires { IsNode (B.held bodies.old) node entry.old }
    ensures { (format : Format K) → IsFormat format → IsNodeTurn format (B.held bodies.old) (B.held bodies.new) node entry.old entry.new session (Truncate slot size) result }
{
    let Some(opened) = entry else {
        return FileReply::NotOpen;
    };
    if !is_open(&opened.slots, session, slot) {
        return FileReply::NotOpen;
    }
    if size > MAX_SIZE {
        return FileReply::TooBig;
    }
    change_reply(opened.file.truncate(alloc, bodies, node, size))
}

fn size<K>(entry: &Option<OpenNode<K>>, session: u32, slot: u32) -> FileReply
    ensures { (format : Format K) (held : HeldBodies) (node : ℕ) → IsNode held node entry.now → IsNodeTurn format held held node entry.now entry.now session (Size slot) result }
{
    let Some(opened) = entry else {
        return FileReply::NotOpen;
    };
    if !is_open(&opened.slots, session, slot) {
        return FileReply::NotOpen;
    }
    FileReply::Length(opened.file.size())
}

fn sync<B: LowerBodies, F: BodyFormat, L: Ledger>(
    bodies: &mut B,
    format: &F,
    node: u32,
    entry: &mut Option<OpenNode<F::Key>>,
    session: u32,
    slot: u32,
    steps: &mut Steps<L>,
) -> FileReply
    requires { IsNode (B.held bodies.old) node entry.old }
    ensures turn { IsNodeTurn (F.rules format.now) (B.held bodies.old) (B.held bodies.new) node entry.old entry.new session (Sync slot) result }
    ensures steps { steps.new ≤ steps.old + 256 * marked_extents entry.old }
{
    let Some(opened) = entry else {
        return FileReply::NotOpen;
    };
    if !is_open(&opened.slots, session, slot) {
        return FileReply::NotOpen;
    }
    match opened.file.write_out(bodies, format, node, steps) {
        Ok(()) => FileReply::Done,
        Err(_) => FileReply::LowerFault,
    }
}

/// Closes the file for a slot. Where it is the last one, the file is written out, and its key is spent.
fn detach<B: LowerBodies, F: BodyFormat, L: Ledger>(
    bodies: &mut B,
    format: &F,
    node: u32,
    entry: &mut Option<OpenNode<F::Key>>,
    session: u32,
    slot: u32,
    steps: &mut Steps<L>,
) -> FileReply
    requires { IsNode (B.held bodies.old) node entry.old }
    ensures turn { IsNodeTurn (F.rules format.now) (B.held bodies.old) (B.held bodies.new) node entry.old entry.new session (Detach slot) result }
    ensures steps { steps.new ≤ steps.old + 256 * marked_extents entry.old }
{
    let Some(opened) = entry else {
        return FileReply::NotOpen;
    };
    if !is_open(&opened.slots, session, slot) {
        return FileReply::NotOpen;
    }
    if has_other(&opened.slots, session, slot) {
        remove_slot(&mut opened.slots, session, slot);
        return FileReply::Done;
    }
    match opened.file.write_out(bodies, format, node, steps) {
        Ok(()) => {}
        Err(_) => return FileReply::LowerFault,
    }
    end(format, entry);
    FileReply::Done
}

/// Ends the file that is open, and spends its key.
pub(crate) fn end<F: BodyFormat>(format: &F, entry: &mut Option<OpenNode<F::Key>>)
    ensures { entry.new ≡ None }
{
    match replace(entry, None) {
        Some(OpenNode { file, slots: _ }) => file.end(format),
        None => {}
    }
}

/// One call on the file of a node, but for an opening of one that isn't open.
pub(crate) fn turn<B: LowerBodies, F: BodyFormat, L: Ledger>(
    alloc: Global,
    bodies: &mut B,
    format: &F,
    node: u32,
    entry: &mut Option<OpenNode<F::Key>>,
    session: u32,
    call: &FileCall,
    told: Vec<u8>,
    steps: &mut Steps<L>,
) -> FileReply
    requires call { IsFileCall call.now }
    requires room { HasRoomFor call.now (length told.items) }
    requires node { IsNode (B.held bodies.old) node entry.old }
    ensures turn { IsNodeTurn (F.rules format.now) (B.held bodies.old) (B.held bodies.new) node entry.old entry.new session call.now result }
    ensures steps { steps.new ≤ steps.old + most_steps entry.old call.now }
{
    match call {
        FileCall::Attach(slot) => attach(alloc, bodies, format, node, entry, session, *slot, steps),
        FileCall::Read(slot, at, len) => read(entry, session, *slot, *at, *len, told),
        FileCall::Write(slot, at, octets) => {
            write(
                alloc,
                bodies,
                node,
                entry,
                session,
                *slot,
                *at,
                octets.as_slice(),
            )
        }
        FileCall::Truncate(slot, to) => truncate(alloc, bodies, node, entry, session, *slot, *to),
        FileCall::Size(slot) => size(entry, session, *slot),
        FileCall::Sync(slot) => sync(bodies, format, node, entry, session, *slot, steps),
        FileCall::Detach(slot) => detach(bodies, format, node, entry, session, *slot, steps),
    }
}
