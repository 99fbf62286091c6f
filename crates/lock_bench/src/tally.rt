ghost use Rattle.std.specs.Prelude.{◌≡◌, ◌≤◌, ◌<◌, ◌∷◌, ◌++◌, [], ℕ, length, All};
ghost use Rattle.lock_bench.specs.declared.tally.Tally.{Tally};

use anyhow::{Result, bail};
use std::alloc::{AllocError, Global};
use std::sync::Wait;
use std::thread::{Threads, map_vec};
use turn_lock::{Chain, Link, Logged, Seat, Turn, TurnLock};

/// A number that each turn raises by one, with the sessions of the turns.
#[derive(Drop)]
struct Tally {
    number: u64,
    log: Chain<u32>,
}

impl Logged for Tally {
    type Entry = u32;

    ghost log = { λ tally. tally.log };

    ghost session_of = { λ session. session };

    ghost lawful = { λ opening tally. length opening.log ≤ length tally.log };
}

/// One turn of a session, which is told the number before it.
#[derive(Clone, Copy)]
struct Raise {
    session: u32,
}

impl Turn<Tally> for Raise {
    type Answer = u64;

    ghost session = { λ raise. raise.session };

    ghost gives = { λ raise before answer after. (answer ≡ before.number) × (after.log ≡ before.log ++ raise.session ∷ []) };

    fn go(self, state: &mut Tally, link: Link<u32>) -> u64
        ensures one { (e : ℕ) × (state.new.log ≡ state.old.log ++ e ∷ []) × (e ≡ self.session) }
        ensures gives { (result ≡ state.old.number) × (state.new.log ≡ state.old.log ++ self.session ∷ []) }
        ensures lawful { (opening : Tally) → length opening.log ≤ length state.old.log → length opening.log ≤ length state.new.log }
    {
        let before = state.number;
        state.number = before.wrapping_add(1);
        state.log.push(link, self.session);
        before
    }
}

// The number after the seat's turns.
fn take_turns<R: Wait>(
    rt: &R,
    alloc: Global,
    lock: &TurnLock<Tally>,
    mut seat: Seat<Tally>,
    turns: u64,
) -> Result<u64, AllocError>
    requires { seat.lock ≡ lock.now }
{
    let session = seat.session();
    let mut number = 0;
    for _ in 0..turns {
        let (before, _index) = lock.turn(rt, &mut seat, Link::new(alloc)?, Raise { session });
        number = before.wrapping_add(1);
    }
    Ok(number)
}

// The largest number after the turns of any seat, each of which takes them in a thread of its own.
fn last_number<R: Threads + Wait + Sync>(
    rt: &R,
    alloc: Global,
    lock: &TurnLock<Tally>,
    seats: Vec<Seat<Tally>>,
    turns: u64,
) -> Result<u64, AllocError>
    requires { All (λ seat. seat.lock ≡ lock.now) seats.items }
{
    let numbers = map_vec(
        rt,
        seats,
        &|seat: Seat<Tally>| -> Result<u64, AllocError>
            requires { seat.lock ≡ lock.now }
        { take_turns(rt, alloc, lock, seat, turns) },
    )?;
    let mut last = 0;
    for number in numbers {
        last = last.max(number?);
    }
    Ok(last)
}

/// How many turns were taken, where each of the seats takes as many as are said.
pub fn count_turns<R: Threads + Wait + Sync>(
    rt: &R,
    alloc: Global,
    seats: u32,
    turns: u64,
) -> Result<u64>
    requires { (0 < seats) × (seats ≤ 16) }
{
    let tally = Tally {
        number: 0,
        log: Chain::new(),
    };
    let Ok((lock, all)) = TurnLock::new(alloc, tally, seats) else {
        bail!("no memory");
    };
    Ok(last_number(rt, alloc, &lock, all, turns)?)
}
