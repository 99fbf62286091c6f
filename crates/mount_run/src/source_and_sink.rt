ghost use Rattle.std.specs.Prelude.{◌≡◌, ℕ, List, Option};
ghost use Rattle.std.specs.Io.{ReadsAtMost};
ghost use Rattle.std.specs.Io.KnownBytes.{ReadConsumes};
ghost use Rattle.mount_run.specs.SourceAndSink.{CountsFailures, WritesSome};

/// A call on a source or a sink failed.
#[derive(Clone, Copy, Debug, PartialEq, Eq)]
pub struct Failed;

/// Where octets come from.
pub trait Source {
    /// The octets that are left, where the source tells them.
    ghost left: { Self → Option (List ℕ) };

    /// How often a read has failed.
    ghost count: { Self → ℕ };

    /// How often a read has failed. It stands still at the last value of a u64.
    fn faults(&self) -> u64
        ensures { result ≡ count self.now };

    /// Moves the next octets to the front of `to`. `Ok(0)` into a buffer that isn't empty is the end
    /// of the input. The count of failed reads rises where it fails, and nowhere else.
    fn read(&mut self, to: &mut [u8]) -> Result<usize, Failed>
        ensures within { ReadsAtMost result to.new }
        ensures octets { ReadConsumes (left self.old) (left self.new) result to.new }
        ensures counted { CountsFailures (count self.old) (count self.new) result };
}

/// Where octets go.
pub trait Sink {
    /// The octets that were written, where the sink tells them.
    ghost written: { Self → Option (List ℕ) };

    /// How often a write has failed.
    ghost count: { Self → ℕ };

    /// How often a write has failed. It stands still at the last value of a u64.
    fn faults(&self) -> u64
        ensures { result ≡ count self.now };

    /// Takes octets from the front of a piece, at least one of a piece that isn't empty, and answers
    /// how many. The count of failed writes rises where it fails, and nowhere else; a write that fails takes none.
    fn write(&mut self, from: &[u8]) -> Result<usize, Failed>
        ensures octets { WritesSome (written self.old) (written self.new) result from.now }
        ensures counted { CountsFailures (count self.old) (count self.new) result };
}
