ghost use Rattle.std.specs.Prelude.{◌≡◌, IfOk};
ghost use Rattle.script_model.specs.Script.{IsSlot};
ghost use Rattle.session_model.specs.declared.session.Hand.TheVariants.{Attaches, Closes, OnFile};
ghost use Rattle.session_model.specs.FileCall.{IsFileCall};
ghost use Rattle.session_model.specs.Session.{IsReady};
ghost use Rattle.lower_inode.specs.Shards.{HasRoomFor};
ghost use Rattle.session_run.specs.Made.{ToldFile};
ghost use Rattle.session_run.specs.Rooms.{Fits};
ghost use Rattle.session_run.specs.Waits.{WaitsForFile};

use crate::FilePart;
use crate::rooms::CloseRooms;
use lower_inode::ReadRoom;
use session::Session;
use session_model::{Answer, FileCall, FileReply};
use std::alloc::{AllocError, Global};
use turn_lock::Link;

/// The room for what a call reads.
fn read_room(alloc: Global, call: &FileCall) -> Result<ReadRoom, AllocError>
    ensures { IfOk result (λ room. HasRoomFor call.now room) }
{
    match call {
        FileCall::Read(_, _, len) => ReadRoom::new(alloc, *len),
        _ => Ok(ReadRoom::none(alloc)),
    }
}

/// Opens the file of a node for a slot, whose close has its room from then on.
fn attach<F: FilePart>(
    alloc: Global,
    files: &mut F,
    rooms: &mut CloseRooms,
    session: &mut Session,
    node: u32,
    slot: u32,
)
    requires slot { IsSlot slot }
    requires waits { session.old.session.hand ≡ Attaches slot node }
    requires fits { Fits session.old.session.slots rooms.old.links }
    ensures told { ToldFile node (FileCall.Attach slot) (F.logs files.old) (F.logs files.new) session.old session.new }
    ensures ready { IsReady session.new.session.hand }
    ensures fits { Fits session.new.session.slots rooms.new.links }
    ensures lawful { (opening : F) → F.lawful opening files.old → F.lawful opening files.new }
{
    let (Ok(link), Ok(later)) = (Link::new(alloc), Link::new(alloc)) else {
        session.tell(Answer::Memory);
        return;
    };
    let (room, call) = (ReadRoom::none(alloc), FileCall::Attach(slot));
    let reply = files.call(alloc, link, room, session.id(), session.op(), node, call);
    if let FileReply::Done = reply {
        rooms.keep(slot, later);
    }
    session.tell(Answer::File(reply));
}

/// Closes the file of a node for a slot. Its entry takes the room from the opening, or where a close
/// was refused before a new one.
fn detach<F: FilePart>(
    alloc: Global,
    files: &mut F,
    rooms: &mut CloseRooms,
    session: &mut Session,
    node: u32,
    slot: u32,
)
    requires slot { IsSlot slot }
    requires waits { session.old.session.hand ≡ Closes slot node }
    requires fits { Fits session.old.session.slots rooms.old.links }
    ensures told { ToldFile node (FileCall.Detach slot) (F.logs files.old) (F.logs files.new) session.old session.new }
    ensures ready { IsReady session.new.session.hand }
    ensures fits { Fits session.new.session.slots rooms.new.links }
    ensures lawful { (opening : F) → F.lawful opening files.old → F.lawful opening files.new }
{
    let link = match rooms.take(slot) {
        Some(link) => link,
        None => match Link::new(alloc) {
            Ok(link) => link,
            Err(_) => {
                session.tell(Answer::Memory);
                return;
            }
        },
    };
    let (room, call) = (ReadRoom::none(alloc), FileCall::Detach(slot));
    let reply = files.call(alloc, link, room, session.id(), session.op(), node, call);
    session.tell(Answer::File(reply));
}

/// Makes another call on an open file.
fn call_open<F: FilePart>(
    alloc: Global,
    files: &mut F,
    session: &mut Session,
    node: u32,
    call: FileCall,
)
    requires call { IsFileCall call }
    requires waits { session.old.session.hand ≡ OnFile }
    ensures told { ToldFile node call (F.logs files.old) (F.logs files.new) session.old session.new }
    ensures ready { IsReady session.new.session.hand }
    ensures slots { session.new.session.slots ≡ session.old.session.slots }
    ensures lawful { (opening : F) → F.lawful opening files.old → F.lawful opening files.new }
{
    let (Ok(link), Ok(room)) = (Link::new(alloc), read_room(alloc, &call)) else {
        session.tell(Answer::Memory);
        return;
    };
    let reply = files.call(alloc, link, room, session.id(), session.op(), node, call);
    session.tell(Answer::File(reply));
}

/// Makes the call on a file that a session waits for, and tells it the answer. Without memory for
/// the rooms of a call it isn't made.
pub(crate) fn call_file<F: FilePart>(
    alloc: Global,
    files: &mut F,
    rooms: &mut CloseRooms,
    session: &mut Session,
    node: u32,
    call: FileCall,
)
    requires call { IsFileCall call }
    requires waits { WaitsForFile node call session.old.session.hand }
    requires fits { Fits session.old.session.slots rooms.old.links }
    ensures told { ToldFile node call (F.logs files.old) (F.logs files.new) session.old session.new }
    ensures ready { IsReady session.new.session.hand }
    ensures fits { Fits session.new.session.slots rooms.new.links }
    ensures lawful { (opening : F) → F.lawful opening files.old → F.lawful opening files.new }
{
    match call {
        FileCall::Attach(slot) => attach(alloc, files, rooms, session, node, slot),
        FileCall::Detach(slot) => detach(alloc, files, rooms, session, node, slot),
        call => call_open(alloc, files, session, node, call),
    }
}
