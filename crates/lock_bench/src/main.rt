//! Seats of one lock take turns at one number, each seat in a thread of its own, and the number of turns that were taken is printed. The
//! words are the number of seats and the number of turns of each. `bench/lock.sh` times it.
#![tactic(auto)]

mod tally;

use anyhow::{Context, Result, ensure};
use std::env;
use tally::count_turns;

fn main(rt: HostRuntime) -> Result<()> {
    let mut words = env::args(&rt)?;
    let _program = words.next();
    let first = words.next().context("no number of seats")?;
    let seats = first.parse::<u32>().context("not a number of seats")?;
    ensure!(1 <= seats && seats <= 16, "there are 1 to 16 seats");
    let second = words.next().context("no number of turns")?;
    let turns = second.parse::<u64>().context("not a number of turns")?;
    println!(rt; "{}", count_turns(&rt, rt.alloc(), seats, turns)?)?;
    Ok(())
}
