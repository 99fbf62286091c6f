ghost use Rattle.std.specs.Prelude.{◌≡◌, ◌↔◌, [], Some, IsTrue, IsErr, OnErr, IfOk, length, min};
ghost use Rattle.std.specs.Io.{ReadsAtMost};
ghost use Rattle.std.specs.Io.KnownBytes.{ReadConsumes};
ghost use Rattle.mount_run.specs.SourceAndSink.{CountsFailures, WritesSome};
ghost use Rattle.answer_model.specs.Count.{next_count};
ghost use Rattle.mount_run.specs.Memory.{call_fails};

use crate::source_and_sink::{Failed, Sink, Source};
use std::marker::Model;

/// The most octets that a source or a sink in memory moves in one call.
const MOST_IN_A_CALL: usize = 4096;

/// A source in memory, whose calls fail by their numbers.
#[derive(Debug, Drop)]
pub struct MemSource {
    octets: Vec<u8>,
    at: usize,
    fails: Vec<u64>,
    calls: u64,
    faults: u64,
}

impl Model for MemSource {
    ghost use Rattle.std.specs.Prelude.{◌≤◌, length, drop};
    ghost use Rattle.mount_run.specs.Memory.{MemInput};

    ghost Value = { MemInput };

    ghost view = { λ s. record { left = drop s.at s.octets.items; fails = s.fails.items; calls = s.calls; faults = s.faults } };

    ghost invariant = { λ s. s.at ≤ length s.octets.items };
}

impl MemSource {
    /// A source of these octets, whose calls with these numbers fail, counted from 1. It takes no memory.
    pub fn new(octets: Vec<u8>, fails: Vec<u64>) -> MemSource
        ensures { result ≡ record { left = octets.items; fails = fails.items; calls = 0; faults = 0 } }
    {
        MemSource {
            octets,
            at: 0,
            fails,
            calls: 0,
            faults: 0,
        }
    }
}

impl Source for MemSource {
    ghost left = { λ s. Some s.left };

    ghost count = { λ s. s.faults };

    fn faults(&self) -> u64 {
        self.faults
    }

    /// As of any source. It fails exactly where the call's number is one of those that fail, and
    /// moves as many octets as there are and fit, at most 4,096.
    fn read(&mut self, to: &mut [u8]) -> Result<usize, Failed>
        ensures within { ReadsAtMost result to.new }
        ensures octets { ReadConsumes (Some self.old.left) (Some self.new.left) result to.new }
        ensures counted { CountsFailures self.old.faults self.new.faults result }
        ensures calls { self.new.calls ≡ next_count self.old.calls }
        ensures fails { self.new.fails ≡ self.old.fails }
        ensures failing { IsErr result ↔ IsTrue (call_fails self.old.fails self.old.calls) }
        ensures one_more { OnErr result (self.new.faults ≡ next_count self.old.faults) }
        ensures moved { IfOk result (λ count. count ≡ min (min (length to.old) (length self.old.left)) 4096) }
    {
        self.calls = self.calls.saturating_add(1);
        if self.fails.contains(&self.calls) {
            self.faults = self.faults.saturating_add(1);
            return Err(Failed);
        }
        let left = &self.octets[self.at..];
        let count = to.len().min(left.len()).min(MOST_IN_A_CALL);
        to[..count].copy_from_slice(&left[..count]);
        self.at += count;
        Ok(count)
    }
}

/// A sink in memory, whose calls fail by their numbers.
#[derive(Debug, Drop)]
pub struct MemSink {
    octets: Vec<u8>,
    fails: Vec<u64>,
    calls: u64,
    faults: u64,
}

impl Model for MemSink {
    ghost use Rattle.mount_run.specs.Memory.{MemOutput};

    ghost Value = { MemOutput };

    ghost view = { λ s. record { written = s.octets.items; fails = s.fails.items; calls = s.calls; faults = s.faults } };
}

impl MemSink {
    /// An empty sink, whose calls with these numbers fail, counted from 1. It takes no memory.
    pub fn new(fails: Vec<u64>) -> MemSink
        ensures { result ≡ record { written = []; fails = fails.items; calls = 0; faults = 0 } }
    {
        MemSink {
            octets: Vec::new(*fails.allocator()),
            fails,
            calls: 0,
            faults: 0,
        }
    }

    /// What was written.
    pub fn written(&self) -> &[u8]
        ensures { result.now ≡ self.now.written }
    {
        &self.octets
    }
}

impl Sink for MemSink {
    ghost written = { λ s. Some s.written };

    ghost count = { λ s. s.faults };

    fn faults(&self) -> u64 {
        self.faults
    }

    /// As of any sink. It fails where the call's number is one of those that fail, and else only for
    /// want of memory. It takes at most 4,096 octets.
    fn write(&mut self, from: &[u8]) -> Result<usize, Failed>
        ensures octets { WritesSome (Some self.old.written) (Some self.new.written) result from.now }
        ensures counted { CountsFailures self.old.faults self.new.faults result }
        ensures calls { self.new.calls ≡ next_count self.old.calls }
        ensures fails { self.new.fails ≡ self.old.fails }
        ensures failing { IsTrue (call_fails self.old.fails self.old.calls) → IsErr result }
        ensures one_more { OnErr result (self.new.faults ≡ next_count self.old.faults) }
        ensures moved { IfOk result (λ count. count ≡ min (length from.now) 4096) }
    {
        self.calls = self.calls.saturating_add(1);
        let count = from.len().min(MOST_IN_A_CALL);
        if self.fails.contains(&self.calls)
            || self.octets.extend_from_slice(&from[..count]).is_err()
        {
            self.faults = self.faults.saturating_add(1);
            return Err(Failed);
        }
        Ok(count)
    }
}
