ghost use Rattle.std.specs.Prelude.{◌≡◌};
ghost use Rattle.session_model.specs.Session.{IsReady};
ghost use Rattle.session_run.specs.Made.{ItemDone, ToldTree};
ghost use Rattle.session_run.specs.Rooms.{Fits};
ghost use Rattle.session_run.specs.Waits.{WaitsForTree};

use crate::file_call::call_file;
use crate::rooms::CloseRooms;
use crate::{FilePart, TreePart};
use session::Session;
use session_model::{Answer, Ask};
use std::alloc::Global;
use tree_model::TreeCall;

/// Makes the call on the tree that a session waits for, and tells it the answer.
fn call_tree<T: TreePart>(alloc: Global, tree: &mut T, session: &mut Session, call: TreeCall)
    requires { WaitsForTree session.old.session.hand }
    ensures told { ToldTree call (T.log tree.old) (T.log tree.new) session.old session.new }
    ensures slots { session.new.session.slots ≡ session.old.session.slots }
    ensures ready { IsReady session.new.session.hand }
    ensures lawful { (opening : T) → T.lawful opening tree.old → T.lawful opening tree.new }
{
    let answer = match tree.call(alloc, session.id(), session.op(), call) {
        Ok(reply) => Answer::Tree(reply),
        Err(_) => Answer::Memory,
    };
    session.tell(answer);
}

/// Makes the next call of a session, or has its next operation done that makes none; `false` where
/// it has ended.
pub(crate) fn item<T: TreePart, F: FilePart>(
    alloc: Global,
    tree: &mut T,
    files: &mut F,
    rooms: &mut CloseRooms,
    session: &mut Session,
) -> bool
    requires ready { IsReady session.old.session.hand }
    requires fits { Fits session.old.session.slots rooms.old.links }
    ensures done { ItemDone result (T.log tree.old) (T.log tree.new) (F.logs files.old) (F.logs files.new) session.old session.new }
    ensures ready { IsReady session.new.session.hand }
    ensures fits { Fits session.new.session.slots rooms.new.links }
    ensures tree { (opening : T) → T.lawful opening tree.old → T.lawful opening tree.new }
    ensures files { (opening : F) → F.lawful opening files.old → F.lawful opening files.new }
{
    match session.ask() {
        Ask::Tree(call) => call_tree(alloc, tree, session, call),
        Ask::File(node, call) => call_file(alloc, files, rooms, session, node, call),
        Ask::Done => {}
        Ask::End => return false,
    }
    true
}
