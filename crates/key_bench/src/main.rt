//! Times the key of a passphrase and the IVs of extents: the least time of several goes, to standard error.
//! What was computed goes to standard output.
#![tactic(auto)]

ghost use Rattle.std.specs.Prelude.{◌+◌, ◌≤◌, ◌^◌};

use anyhow::Result;
use extent_iv::{extent_iv, root_iv};
use passphrase_key::derive;
use std::time::{CpuClock, Duration};

const SALT: [u8; 8] = [0x00, 0x11, 0x22, 0x33, 0x44, 0x55, 0x66, 0x77];

const GOES: u64 = 10;

const EXTENTS: u64 = 100_000;

fn main(rt: HostRuntime) -> Result<()> {
    time_derive(&rt)?;
    time_extent_iv(&rt)
}

fn time_derive(rt: &(impl Print + Eprint + CpuClock)) -> Result<()> {
    let mut least = Duration::MAX;
    let mut last = [0; 8];
    for _ in 0..GOES {
        let start = rt.thread_cpu_time()?;
        let (kek, signature) = derive(&SALT, b"test")?;
        kek.spend();
        least = least.min(since(rt, start)?);
        last = signature;
    }
    let signature = u64::from_be_bytes(last);
    println!(rt; "signature {signature:016x}")?;
    let micros = least.as_micros();
    eprintln!(rt; "derive: {micros} us")?;
    Ok(())
}

fn time_extent_iv(rt: &(impl Print + Eprint + CpuClock)) -> Result<()> {
    let mut least = Duration::MAX;
    let mut iv = root_iv(&[0; 16]);
    for go in 0..GOES {
        let start = rt.thread_cpu_time()?;
        iv = chained(iv, go * EXTENTS);
        least = least.min(since(rt, start)?);
    }
    let last = u128::from_be_bytes(iv);
    println!(rt; "iv {last:032x}")?;
    let nanos = least.as_nanos() / u128::from(EXTENTS);
    eprintln!(rt; "extent_iv: {nanos} ns")?;
    Ok(())
}

// The IVs of so many extents, each with the one before as its root.
fn chained(root: [u8; 16], first: u64) -> [u8; 16]
    requires { first + EXTENTS ≤ 10 ^ 15 }
{
    let mut iv = root;
    for extent in first..first + EXTENTS {
        iv = extent_iv(&iv, extent);
    }
    iv
}

fn since(rt: &impl CpuClock, start: Duration) -> Result<Duration> {
    let now = rt.thread_cpu_time()?;
    Ok(now.saturating_sub(start))
}
