//! The program `ecryptfs`: a job on standard input, its report or its show text on standard output.
#![tactic(auto)]

mod streams;

use lower_mem::{MemFails, MemMaker};
use mount_run::{MEMORY, OK, USAGE, run_alone, status_name};
use std::process::ExitCode;
use std::{env, io};
use streams::{StdSink, StdSource};

/// The words of the command line, without the program's name.
fn words(rt: &HostRuntime) -> io::Result<Vec<String>> {
    let mut words = Vec::new(rt.alloc());
    for word in env::args(rt)?.skip(1) {
        words.push(word)?;
    }
    Ok(words)
}

/// A maker of lower parts in memory, none of whose calls fails.
fn maker(rt: &HostRuntime) -> MemMaker {
    MemMaker::new(MemFails {
        maker: Vec::new(rt.alloc()),
        names: Vec::new(rt.alloc()),
        changes: Vec::new(rt.alloc()),
        reads: Vec::new(rt.alloc()),
    })
}

/// Does what the command line says.
fn status(rt: &HostRuntime) -> u8 {
    match words(rt) {
        Ok(words) => run_alone(
            rt.alloc(),
            &words,
            &mut StdSource::new(rt),
            &mut StdSink::new(rt),
            &mut maker(rt),
        ),
        Err(error) if error.kind() == io::ErrorKind::OutOfMemory => MEMORY,
        Err(_) => USAGE,
    }
}

fn main(rt: HostRuntime) -> ExitCode {
    let status = status(&rt);
    if status != OK {
        let _ = eprintln!(rt; "ecryptfs: {}", status_name(status));
    }
    ExitCode::from(status)
}
