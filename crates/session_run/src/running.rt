ghost use Rattle.std.specs.Prelude.{◌≡◌};
ghost use Rattle.session_model.specs.Session.{IsFresh};
ghost use Rattle.session_run.specs.Made.{ItemDone};

use crate::item::item;
use crate::rooms::CloseRooms;
use crate::{FilePart, TreePart};
use session::Session;
use std::alloc::Global;
use std::marker::Model;

/// A session that makes its calls on a tree and on files, one after another. The first close of a slot has its room from the opening.
#[derive(Drop)]
pub struct RunningSession {
    session: Session,
    rooms: CloseRooms,
}

impl Model for RunningSession {
    ghost use Rattle.session_model.specs.Session.{IsReady, Member};
    ghost use Rattle.session_run.specs.Rooms.{Fits};

    ghost Value = { Member };

    ghost view = { λ r. r.session };

    ghost invariant = { λ r. record {
      ready : IsReady r.session.session.hand;
      fits : Fits r.session.session.slots r.rooms.links;
    } };
}

impl RunningSession {
    /// A session that was asked nothing yet. It takes no memory.
    pub fn new(session: Session) -> RunningSession
        requires { IsFresh session }
        ensures { result ≡ session }
    {
        RunningSession {
            session,
            rooms: CloseRooms::new(),
        }
    }

    /// Makes its next call, or has its next operation done that makes none; `false` where it has ended.
    pub fn make_move<T: TreePart, F: FilePart>(
        &mut self,
        alloc: Global,
        tree: &mut T,
        files: &mut F,
    ) -> bool
        ensures done { ItemDone result (T.log tree.old) (T.log tree.new) (F.logs files.old) (F.logs files.new) self.old self.new }
        ensures tree { (opening : T) → T.lawful opening tree.old → T.lawful opening tree.new }
        ensures files { (opening : F) → F.lawful opening files.old → F.lawful opening files.new }
    {
        item(alloc, tree, files, &mut self.rooms, &mut self.session)
    }

    /// The session, with the replies that it has. It takes no memory.
    pub fn into_session(self) -> Session
        ensures { result ≡ self }
    {
        let RunningSession { session, rooms: _ } = self;
        session
    }
}
