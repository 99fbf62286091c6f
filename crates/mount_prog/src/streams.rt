ghost use Rattle.std.specs.Prelude.{None};

use mount_run::{Failed, Sink, Source};
use std::io::{Read, Stdin, Stdout, Write};

/// Standard input. It tells nothing of what it has left.
#[derive(Drop)]
pub struct StdSource {
    stdin: Stdin,
    faults: u64,
}

impl StdSource {
    pub fn new(rt: &HostRuntime) -> StdSource {
        StdSource {
            stdin: rt.stdin(),
            faults: 0,
        }
    }
}

impl Source for StdSource {
    ghost left = { λ _. None };

    ghost count = { λ s. s.faults };

    fn faults(&self) -> u64 {
        self.faults
    }

    fn read(&mut self, to: &mut [u8]) -> Result<usize, Failed> {
        match self.stdin.read(to) {
            Ok(count) => Ok(count),
            Err(_) => {
                self.faults = self.faults.saturating_add(1);
                Err(Failed)
            }
        }
    }
}

/// Standard output. It tells nothing of what was written.
#[derive(Drop)]
pub struct StdSink {
    stdout: Stdout,
    faults: u64,
}

impl StdSink {
    pub fn new(rt: &HostRuntime) -> StdSink {
        StdSink {
            stdout: rt.stdout(),
            faults: 0,
        }
    }
}

impl Sink for StdSink {
    ghost written = { λ _. None };

    ghost count = { λ s. s.faults };

    fn faults(&self) -> u64 {
        self.faults
    }

    fn write(&mut self, from: &[u8]) -> Result<usize, Failed> {
        match self.stdout.write(from) {
            Ok(count) if count > 0 || from.is_empty() => Ok(count),
            _ => {
                self.faults = self.faults.saturating_add(1);
                Err(Failed)
            }
        }
    }
}
