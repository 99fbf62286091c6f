ghost use Rattle.std.specs.Prelude.{◌≡◌, ◌+◌, ◌≤◌, ◌<◌, ◌∷◌, ◌++◌, [], ℕ, length, All, IfOk, IfSome, OnSome, vec_len};
ghost use mathlib.Core.List.{IsPrefix};
ghost use Rattle.turn_lock.specs.declared.tests.Raise.{Raise};
ghost use Rattle.turn_lock.specs.declared.tests.Tally.{Tally};
ghost use Rattle.turn_lock.specs.Turns.{new_seat, new_seats};

use crate::{Chain, Link, Logged, Note, Seat, Turn, TurnLock};
use std::alloc::{AllocError, Global};
use std::sync::Wait;
use std::test::*;
use std::thread::{Threads, join};

// A number that each turn raises by one.
#[derive(Drop)]
struct Tally {
    number: u64,
    log: Chain<Raise>,
}

// One turn: its session, and how many that session had before.
#[derive(Clone, Copy)]
struct Raise {
    session: u32,
    nth: u64,
}

impl Logged for Tally {
    type Entry = Raise;

    ghost log = { λ tally. tally.log };

    ghost session_of = { λ raise. raise.session };

    ghost lawful = { λ opening tally. length opening.log ≤ length tally.log };
}

impl Turn<Tally> for Raise {
    type Answer = u64;

    ghost session = { λ raise. raise.session };

    ghost gives = { λ raise before answer after. (answer ≡ before.number) × (after.log ≡ before.log ++ raise ∷ []) };

    fn go(self, state: &mut Tally, link: Link<Raise>) -> u64
        ensures one { (e : Raise) × (state.new.log ≡ state.old.log ++ e ∷ []) × (e.session ≡ self.session) }
        ensures gives { (result ≡ state.old.number) × (state.new.log ≡ state.old.log ++ self ∷ []) }
        ensures lawful { (opening : Tally) → length opening.log ≤ length state.old.log → length opening.log ≤ length state.new.log }
    {
        let before = state.number;
        state.number = before.wrapping_add(1);
        state.log.push(link, self);
        before
    }
}

fn new_tally() -> Tally
    ensures { result.log ≡ [] }
{
    Tally {
        number: 0,
        log: Chain::new(),
    }
}

// A lock round a new tally, unless memory ran out.
#[tactic(auto, using(crate::proofs::Sessions::new_count, crate::proofs::Sessions::new_seats_locks))]
fn new_lock(alloc: Global, sessions: u32) -> Option<(TurnLock<Tally>, Vec<Seat<Tally>>)>
    requires { (0 < sessions) × (sessions ≤ 16) }
    ensures sessions { IfSome result (λ made. (made.0.sessions ≡ sessions) × (vec_len made.1 ≡ sessions)) }
    ensures seats { IfSome result (λ made. made.1.items ≡ new_seats made.0 (vec_len made.1)) }
    ensures locks { IfSome result (λ made. All (λ seat. seat.lock ≡ made.0) made.1.items) }
{
    let (lock, seats) = TurnLock::new(alloc, new_tally(), sessions).ok()?;
    Some((lock, seats))
}

// The seat of the last session.
fn last_seat(lock: &TurnLock<Tally>, seats: &mut Vec<Seat<Tally>>) -> Option<Seat<Tally>>
    requires { seats.old.items ≡ new_seats lock.now (vec_len seats.old) }
    ensures seat { IfSome result (λ seat. (vec_len seats.old ≡ vec_len seats.new + 1) × (seat ≡ new_seat lock.now (vec_len seats.new))) }
    ensures seats { OnSome result (seats.new.items ≡ new_seats lock.now (vec_len seats.new)) }
{
    let seat = seats.pop()?;
    Some(seat)
}

// Ends a lock of two sessions.
fn close_both(
    alloc: Global,
    lock: TurnLock<Tally>,
    first: Seat<Tally>,
    second: Seat<Tally>,
) -> Result<Tally, AllocError>
    requires sessions { lock.sessions ≡ 2 }
    requires first { (first.lock ≡ lock) × (first.session ≡ 0) }
    requires second { (second.lock ≡ lock) × (second.session ≡ 1) }
{
    let mut seats = Vec::new(alloc);
    seats.push(second)?;
    seats.push(first)?;
    Ok(lock.close(seats))
}

// Takes as many turns as are said.
fn take_turns<R: Wait>(
    rt: &R,
    alloc: Global,
    lock: &TurnLock<Tally>,
    mut seat: Seat<Tally>,
    turns: u64,
) -> Result<Seat<Tally>, AllocError>
    requires { seat.lock ≡ lock.now }
    ensures { IfOk result (λ after. (after.lock ≡ seat.lock) × (after.session ≡ seat.session)) }
{
    let session = seat.session();
    for nth in 0..turns {
        lock.turn(rt, &mut seat, Link::new(alloc)?, Raise { session, nth });
    }
    Ok(seat)
}

// How many entries the session has, where they are its turns in order.
fn turns_in_order(log: &[&Raise], session: u32) -> Option<u64> {
    let mut turns = 0u64;
    for raise in log {
        if raise.session == session {
            if raise.nth != turns {
                return None;
            }
            turns = turns.checked_add(1)?;
        }
    }
    Some(turns)
}

fn may_cross<X: Send>(_x: &X) {}

// Seats and notes may go to other threads whatever the state is, and a lock may be shared where its state may go.
fn seats_cross<T: Logged>(seat: &Seat<T>, note: &Note<T>) {
    may_cross(seat);
    may_cross(note);
}

fn locks_are_shared<T: Logged + Send>(lock: &TurnLock<T>) {
    may_cross(&lock);
}

#[test]
fn two_threads_take_all_their_turns(rt: HostRuntime) -> Result<(), Fail> {
    let alloc = rt.alloc();
    let Some((lock, mut seats)) = new_lock(alloc, 2) else {
        panic!(rt; "no memory");
    };
    let Some(second) = last_seat(&lock, &mut seats) else {
        panic!(rt; "no seat");
    };
    let Some(first) = last_seat(&lock, &mut seats) else {
        panic!(rt; "no seat");
    };
    let shared = &lock;
    let runtime = &rt;
    let (first, second) = join(
        &rt,
        move || -> Result<Seat<Tally>, AllocError>
            requires { first.lock ≡ shared.now }
            ensures { IfOk result (λ after. (after.lock ≡ first.lock) × (after.session ≡ first.session)) }
        { take_turns(runtime, alloc, shared, first, 1_000) },
        move || -> Result<Seat<Tally>, AllocError>
            requires { second.lock ≡ shared.now }
            ensures { IfOk result (λ after. (after.lock ≡ second.lock) × (after.session ≡ second.session)) }
        { take_turns(runtime, alloc, shared, second, 1_000) },
    );
    let tally = close_both(alloc, lock, first?, second?)?;
    assert_eq!(rt; tally.number, 2_000);
    assert_eq!(rt; tally.log.len(), 2_000);
    let log = tally.log.entries(alloc)?;
    assert_eq!(rt; turns_in_order(&log, 0), Some(1_000));
    assert_eq!(rt; turns_in_order(&log, 1), Some(1_000));
    Ok(())
}

// One turn of the seat: its index, and a note of all that the seat has then seen.
fn turn_and_note<R: Wait>(
    rt: &R,
    alloc: Global,
    lock: &TurnLock<Tally>,
    mut seat: Seat<Tally>,
) -> Result<(Seat<Tally>, u64, Note<Tally>), AllocError>
    requires { seat.lock ≡ lock.now }
    ensures { IfOk result (λ told. (told.0.lock ≡ lock.now) × (told.2 ≡ record { lock = lock.now; seen = told.0.seen })) }
{
    let link = Link::new(alloc)?;
    let session = seat.session();
    let (_before, index) = lock.turn(rt, &mut seat, link, Raise { session, nth: 0 });
    let note = lock.note(&mut seat);
    Ok((seat, index, note))
}

// One turn of each seat, the second's in a thread of its own. The first learns the second's note, and has then seen all that the second has.
fn tell_by_note<R: Threads + Wait + Sync>(
    rt: &R,
    alloc: Global,
    lock: &TurnLock<Tally>,
    first: Seat<Tally>,
    second: Seat<Tally>,
) -> Result<(Seat<Tally>, Seat<Tally>, u64, u64), AllocError>
    requires first { first.lock ≡ lock.now }
    requires second { second.lock ≡ lock.now }
    ensures { IfOk result (λ told. IsPrefix told.1.seen told.0.seen) }
{
    let (mut first, one, _note) = turn_and_note(rt, alloc, lock, first)?;
    let (noted, ()) = join(
        rt,
        move || -> Result<(Seat<Tally>, u64, Note<Tally>), AllocError>
            requires { second.lock ≡ lock.now }
            ensures { IfOk result (λ told. (told.0.lock ≡ lock.entry.now) × (told.2 ≡ record { lock = lock.entry.now; seen = told.0.seen })) }
        { turn_and_note(rt, alloc, lock, second) },
        || (),
    );
    let (second, other, note) = noted?;
    lock.learn(&mut first, note);
    Ok((first, second, one, other))
}

#[test]
fn a_note_tells_another_thread(rt: HostRuntime) -> Result<(), Fail> {
    let Some((lock, mut seats)) = new_lock(rt.alloc(), 2) else {
        panic!(rt; "no memory");
    };
    let Some(second) = last_seat(&lock, &mut seats) else {
        panic!(rt; "no seat");
    };
    let Some(first) = last_seat(&lock, &mut seats) else {
        panic!(rt; "no seat");
    };
    let (_first, _second, one, other) = tell_by_note(&rt, rt.alloc(), &lock, first, second)?;
    assert_eq!(rt; (one, other), (0, 1));
    Ok(())
}

// One turn of each seat, from the last session to the first: whether the indices of the entries rise by one.
fn one_turn_each<R: Wait>(
    rt: &R,
    alloc: Global,
    lock: &TurnLock<Tally>,
    mut seats: Vec<Seat<Tally>>,
) -> Result<bool, AllocError>
    requires { All (λ seat. seat.lock ≡ lock.now) seats.items }
{
    let mut next = 0u64;
    while let Some(mut seat) = seats.pop() {
        let session = seat.session();
        let link = Link::new(alloc)?;
        let (before, index) = lock.turn(rt, &mut seat, link, Raise { session, nth: 0 });
        if before != next || index != next {
            return Ok(false);
        }
        next = next.wrapping_add(1);
    }
    Ok(true)
}

#[test]
fn sixteen_seats_take_turns(rt: HostRuntime) -> Result<(), Fail> {
    let Some((lock, seats)) = new_lock(rt.alloc(), 16) else {
        panic!(rt; "no memory");
    };
    assert_eq!(rt; seats.len(), 16);
    assert!(rt; one_turn_each(&rt, rt.alloc(), &lock, seats)?);
    Ok(())
}

#[test]
fn a_seat_can_be_dropped_unused(rt: HostRuntime) -> Result<(), Fail> {
    let Some((lock, mut seats)) = new_lock(rt.alloc(), 2) else {
        panic!(rt; "no memory");
    };
    let Some(unused) = last_seat(&lock, &mut seats) else {
        panic!(rt; "no seat");
    };
    drop(unused);
    let Some(seat) = last_seat(&lock, &mut seats) else {
        panic!(rt; "no seat");
    };
    let seat = take_turns(&rt, rt.alloc(), &lock, seat, 3)?;
    assert_eq!(rt; seat.session(), 0);
    Ok(())
}

#[test]
fn takes_turns(rt: HostRuntime) -> Result<(), Fail> {
    let mut tally = new_tally();
    for session in 0..16 {
        let before = Raise { session, nth: 0 }.go(&mut tally, Link::new(rt.alloc())?);
        assert_eq!(rt; before, session as u64);
    }
    assert_eq!(rt; tally.log.get(3).map(|raise| raise.session), Some(3));
    Ok(())
}

#[test]
fn holds_a_million_entries(rt: HostRuntime) -> Result<(), Fail> {
    let mut chain = Chain::<u64>::new();
    for k in 0..1_000_000u64 {
        chain.push(Link::new(rt.alloc())?, k);
    }
    assert_eq!(rt; chain.len(), 1_000_000);
    assert_eq!(rt; chain.get(0).copied(), Some(0));
    assert_eq!(rt; chain.get(999_999).copied(), Some(999_999));
    assert!(rt; chain.get(1_000_000).is_none());
    let entries = chain.entries(rt.alloc())?;
    assert_eq!(rt; entries.len(), 1_000_000);
    Ok(())
}
