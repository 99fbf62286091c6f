ghost use Rattle.std.specs.Prelude.{◌≡◌};
ghost use Rattle.turn_lock.specs.Turns.{TakesTurn, Learns};

use crate::chain::Link;
use crate::holder::{Holder, Tickets};
use crate::seat::{Note, Seat};
use crate::steps;
use crate::turn::{Logged, Turn};
use atomic_table::{Badge, Table};
use std::alloc::Global;
use std::fmt::{self, Debug, Formatter, Write};
use std::marker::Model;
use std::mem;
use std::snapshot::Snapshot;
use std::sync::Wait;

/// A ticket lock round a state with a log, with a seat for each of 1 to 16 sessions. Contracts see what tells it from other locks,
/// the state that it began with, and the number of its sessions.
#[derive(Drop)]
pub struct TurnLock<T: Logged> {
    pub(crate) table: Table<Option<T>, Holder<T, T::Entry>, Snapshot<T>, Tickets, Global>,
    pub(crate) sessions: u32,
}

impl<T: Logged> Model for TurnLock<T> {
    ghost use Rattle.std.specs.Prelude.{◌≡◌, ◌<◌};
    ghost use Rattle.turn_lock.specs.Views.{LockView};

    ghost Value = { LockView T };

    ghost view = { λ l. record { id = l.table.shared.table_id; opening = l.table.shared.key.value; sessions = l.sessions } };

    ghost invariant = { λ l. (l.table.shared.table_id.words ≡ 2) × (l.table.shared.table_id.slots ≡ 1) × (0 < l.sessions) };
}

impl<T: Logged> Debug for TurnLock<T> {
    fn fmt<W: Write>(&self, f: &mut Formatter<W>) -> fmt::Result {
        f.write_str("TurnLock")
    }
}

impl<T: Logged> TurnLock<T> {
    /// Takes the seat's next turn, once those before it are over: the answer, and the index of the entry that it added. It takes no
    /// memory and refuses nothing. After 2^62 turns of the lock it doesn't return.
    pub fn turn<J: Turn<T>, R: Wait>(
        &self,
        rt: &R,
        seat: &mut Seat<T>,
        link: Link<T::Entry>,
        turn: J,
    ) -> (J::Answer, u64)
        requires lock { seat.old.lock ≡ self.now }
        requires session { J.session turn ≡ seat.old.session }
        ensures { TakesTurn T.log T.session_of T.lawful (J.gives turn) result.0 result.1 seat.old seat.new }
    {
        let mut place = mem::replace(&mut seat.badge, Badge::blank()).into_seat();
        let done = steps::take_turn(rt, &self.table.shared, &mut place, link, turn);
        seat.badge = place.into_badge();
        done
    }

    /// A note of what the seat has seen. It takes no memory.
    pub fn note(&self, seat: &mut Seat<T>) -> Note<T>
        requires lock { seat.old.lock ≡ self.now }
        ensures same { seat.new ≡ seat.old }
        ensures note { result ≡ record { lock = seat.old.lock; seen = seat.old.seen } }
    {
        let mut place = mem::replace(&mut seat.badge, Badge::blank()).into_seat();
        let note = steps::make_note(&self.table.shared, &mut place);
        seat.badge = place.into_badge();
        Note {
            badge: note.into_badge(),
            lock: Snapshot::of(self),
        }
    }

    /// The seat has now seen what the note's maker had. It takes no memory.
    pub fn learn(&self, seat: &mut Seat<T>, note: Note<T>)
        requires lock { seat.old.lock ≡ self.now }
        requires note { note.lock ≡ self.now }
        ensures { Learns note seat.old seat.new }
    {
        let mut place = mem::replace(&mut seat.badge, Badge::blank()).into_seat();
        steps::learn_note(&self.table.shared, &mut place, note.into_place());
        seat.badge = place.into_badge();
    }
}
