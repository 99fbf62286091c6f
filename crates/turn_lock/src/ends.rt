// How a lock begins and ends.
ghost use Rattle.std.specs.Prelude.{◌≡◌, ◌≢◌, ℕ, ◌+◌, ◌<◌, ◌≤◌, true, [], ◌∷◌, All, IfOk, IfErr, Some, vec_capacity};
ghost use Rattle.turn_lock.specs.declared.ends.LockFault.TheVariants.{Memory};
ghost use Rattle.turn_lock.specs.Turns.{new_seats, HasEachSession, EndsFor};
ghost use Rattle.turn_lock.specs.Steps.{is_idle, first_holder, HasAll, IsEndLog};

use crate::holder::Place;
use crate::lock::TurnLock;
use crate::seat::Seat;
use crate::steps;
use crate::turn::Logged;
use atomic_table::{Refused, Table};
use std::alloc::Global;
use std::snapshot::Snapshot;

/// Why there is no lock.
#[derive(Debug, Drop)]
pub enum LockFault<T> {
    /// There was no memory. The state comes back.
    Memory(T),
}

fn only<T>(mut slots: Vec<Option<T>>) -> T
    requires { (x : T) × (slots.items ≡ Some x ∷ []) }
    ensures { slots.items ≡ Some result ∷ [] }
{
    let last = slots.pop();
    slots.destroy_empty();
    match last {
        Some(Some(state)) => state,
        Some(None) => unreachable!(),
        None => unreachable!(),
    }
}

impl<T: Logged> TurnLock<T> {
    /// A lock round a state whose log is empty, and the seats of its sessions, in order.
    pub fn new(
        alloc: Global,
        state: T,
        sessions: u32,
    ) -> Result<(TurnLock<T>, Vec<Seat<T>>), LockFault<T>>
        requires sessions { (0 < sessions) × (sessions ≤ 16) }
        requires empty { T.log state ≡ [] }
        requires lawful { T.lawful state state }
        ensures opening { IfOk result (λ made. (made.0.opening ≡ state) × (made.0.sessions ≡ sessions)) }
        ensures seats { IfOk result (λ made. made.1.items ≡ new_seats made.0 sessions) }
        ensures memory { IfErr result (λ fault. fault ≡ Memory state) }
    {
        let made = match Vec::with_capacity(alloc, sessions as usize) {
            Ok(made) => made,
            Err(_) => return Err(LockFault::Memory(state)),
        };
        let mut slots = match Vec::with_capacity(alloc, 1) {
            Ok(slots) => slots,
            Err(_) => return Err(LockFault::Memory(state)),
        };
        let opening = Snapshot::of(&state);
        slots.push_reserved(Some(state));
        match Table::new(alloc, &[0, 0], slots, &opening) {
            Ok((table, first)) => {
                let lock = TurnLock { table, sessions };
                let made = lock.make_seats(made, first);
                Ok((lock, made))
            }
            Err(Refused { slots }) => Err(LockFault::Memory(only(slots))),
        }
    }

    // The seats of all sessions, in order, where the maker has that of session 0.
    fn make_seats(&self, mut made: Vec<Seat<T>>, mut maker: Place<T, T::Entry>) -> Vec<Seat<T>>
        requires room { (made.items ≡ []) × (self.now.sessions ≤ vec_capacity made) × (self.now.sessions ≤ 16) }
        requires maker { (maker.table_id ≡ self.now.id) × (maker.me ≡ (first_holder self.now.opening, [])) }
        ensures { result.items ≡ new_seats self.now self.now.sessions }
    {
        for session in 1..self.sessions {
            let place = steps::make_seat(&self.table.shared, &mut maker);
            made.push_reserved(self.seat(place, session));
        }
        made.push_reserved(self.seat(maker, 0));
        made.rotate_right(1);
        made
    }

    fn seat(&self, place: Place<T, T::Entry>, session: u32) -> Seat<T>
        requires place { (place.table_id ≡ self.now.id) × (place.me.1 ≡ []) × (is_idle place.me.0 ≡ true) }
        requires opening { place.me.0.opening ≡ Some self.now.opening }
        requires session { place.me.0.session ≡ session }
        requires first { session ≡ 0 → place.me.0.sessions ≡ self.now.sessions }
        requires others { session ≢ 0 → place.me.0.sessions ≡ 0 }
        ensures { result ≡ record { lock = self.now; session = session; seen = place.me.0.seen; mine = place.me.0.mine } }
    {
        Seat {
            badge: place.into_badge(),
            session,
            lock: Snapshot::of(self),
        }
    }

    /// Ends the lock with the seats of all its sessions, in any order, and gives the state. It takes no memory.
    pub fn close(self, seats: Vec<Seat<T>>) -> T
        requires lock { All (λ seat. seat.lock ≡ self) seats.items }
        requires each_session { HasEachSession self.sessions seats.items }
        ensures seats { All (EndsFor T.session_of (T.log result)) seats.items }
        ensures sessions { All (λ entry. T.session_of entry < self.sessions) (T.log result) }
        ensures lawful { T.lawful self.opening result }
    {
        let leader = self.gather(seats);
        self.finish(leader)
    }

    // One holder that gathered all seats.
    fn gather(&self, mut seats: Vec<Seat<T>>) -> Place<T, T::Entry>
        requires lock { All (λ seat. seat.lock ≡ self.now) seats.items }
        requires each_session { HasEachSession self.now.sessions seats.items }
        ensures leader { (result.table_id ≡ self.now.id) × (result.me.1 ≡ []) × (is_idle result.me.0 ≡ true) }
        ensures sessions { (result.me.0.sessions ≡ self.now.sessions) × HasAll self.now.sessions result.me.0 }
        ensures seats { (log : _) → IsEndLog T.session_of result.me.0 log → All (EndsFor T.session_of log) seats.items }
    {
        let words = &self.table.shared;
        let Some(first) = seats.pop() else {
            unreachable!()
        };
        let mut leader = first.into_place();
        while let Some(seat) = seats.pop() {
            steps::gather_seat(words, &mut leader, seat.into_place());
        }
        leader
    }

    fn finish(self, leader: Place<T, T::Entry>) -> T
        requires leader { (leader.table_id ≡ self.id) × (leader.me.1 ≡ []) × (is_idle leader.me.0 ≡ true) }
        requires sessions { (leader.me.0.sessions ≡ self.sessions) × HasAll self.sessions leader.me.0 }
        ensures log { IsEndLog T.session_of leader.me.0 (T.log result) }
        ensures sessions { All (λ entry. T.session_of entry < self.sessions) (T.log result) }
        ensures lawful { T.lawful self.opening result }
    {
        let TurnLock { table, sessions: _ } = self;
        let mut closed = table.close_with(leader);
        let last = closed.take(0);
        closed.free();
        match last {
            Some(state) => state,
            None => unreachable!(),
        }
    }
}
