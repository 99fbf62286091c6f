ghost use Rattle.std.specs.Prelude.{◌≡◌, true, []};
ghost use Rattle.turn_lock.specs.Steps.{is_idle, is_told, IsOwner};

use crate::holder::{Holder, Place};
use crate::lock::TurnLock;
use crate::turn::Logged;
use atomic_table::Badge;
use std::fmt::{self, Debug, Formatter, Write};
use std::marker::Model;
use std::snapshot::Snapshot;

/// A session's seat at a lock, between turns. Contracts see its lock, its session, the log as far as it has seen it, and its own entries.
pub struct Seat<T: Logged> {
    pub(crate) badge: Badge<Holder<T, T::Entry>>,
    pub(crate) session: u32,
    pub(crate) lock: Snapshot<TurnLock<T>>,
}

impl<T: Logged> Model for Seat<T> {
    ghost use Rattle.turn_lock.specs.Views.{SeatView};

    ghost Value = { SeatView T T.Entry };

    ghost use Rattle.turn_lock.specs.Steps.{holder_of, IsSeat};

    ghost view = { λ s. record { lock = s.lock.value; session = s.session; seen = (holder_of s.badge.views).seen; mine = (holder_of s.badge.views).mine } };

    ghost invariant = { λ s. IsSeat s.lock.value s.session s.badge.table_id s.badge.views };
}

impl<T: Logged> Drop for Seat<T> {
    fn drop(self) {
        let Self {
            badge: _,
            session: _,
            lock: _,
        } = self;
    }
}

impl<T: Logged> Debug for Seat<T> {
    fn fmt<W: Write>(&self, f: &mut Formatter<W>) -> fmt::Result {
        f.write_str("Seat")
    }
}

impl<T: Logged> Seat<T> {
    /// The session whose seat it is.
    pub fn session(&self) -> u32
        ensures { result ≡ self.now.session }
    {
        self.session
    }

    pub(crate) fn into_place(self) -> Place<T, T::Entry>
        ensures table { result.table_id ≡ self.lock.id }
        ensures bare { (result.me.1 ≡ []) × (is_idle result.me.0 ≡ true) }
        ensures owner { IsOwner self result.me.0 }
    {
        let Seat {
            badge,
            session: _,
            lock: _,
        } = self;
        badge.into_seat()
    }
}

/// What a seat had seen, for another seat to learn. Contracts see its lock and the log as far as its maker had seen it.
pub struct Note<T: Logged> {
    pub(crate) badge: Badge<Holder<T, T::Entry>>,
    pub(crate) lock: Snapshot<TurnLock<T>>,
}

impl<T: Logged> Model for Note<T> {
    ghost use Rattle.turn_lock.specs.Views.{NoteView};

    ghost Value = { NoteView T T.Entry };

    ghost use Rattle.turn_lock.specs.Steps.{holder_of, IsNote};

    ghost view = { λ n. record { lock = n.lock.value; seen = (holder_of n.badge.views).seen } };

    ghost invariant = { λ n. IsNote n.lock.value n.badge.table_id n.badge.views };
}

impl<T: Logged> Drop for Note<T> {
    fn drop(self) {
        let Self { badge: _, lock: _ } = self;
    }
}

impl<T: Logged> Debug for Note<T> {
    fn fmt<W: Write>(&self, f: &mut Formatter<W>) -> fmt::Result {
        f.write_str("Note")
    }
}

impl<T: Logged> Note<T> {
    pub(crate) fn into_place(self) -> Place<T, T::Entry>
        ensures table { result.table_id ≡ self.lock.id }
        ensures bare { (result.me.1 ≡ []) × (is_told result.me.0 ≡ true) }
        ensures seen { result.me.0.seen ≡ self.seen }
    {
        let Note { badge, lock: _ } = self;
        badge.into_seat()
    }
}
