ghost use Rattle.std.specs.Prelude.{◌≡◌};
ghost use Rattle.job_text.specs.declared.fault.LineError.TheVariants.{Memory};

use std::alloc::{AllocError, AllocFailed};

/// Why a job wasn't read.
#[derive(Clone, Copy, Debug, PartialEq, Eq)]
pub enum JobError {
    /// The octets are no job.
    Bad {
        /// The first octet of the first line that isn't good where it stands, counted from 0.
        place: usize,
    },
    /// There are more octets than a job may have.
    TooLong,
    /// Memory ran out.
    Memory,
}

/// Why a part of a job wasn't read.
#[derive(Clone, Copy, Debug, PartialEq, Eq)]
pub enum LineError {
    /// A line isn't in the grammar at its place: how many octets are left from its first one on.
    Wrong(usize),
    /// Memory ran out.
    Memory,
}

impl From<AllocError> for LineError {
    ghost from_gives = { λ _ e. e ≡ Memory };

    fn from(_e: AllocError) -> LineError {
        LineError::Memory
    }
}

impl<T: Drop> From<AllocFailed<T>> for LineError {
    ghost from_gives = { λ _ e. e ≡ Memory };

    fn from(_e: AllocFailed<T>) -> LineError {
        LineError::Memory
    }
}
