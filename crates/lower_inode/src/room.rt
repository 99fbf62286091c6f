ghost use Rattle.std.specs.Prelude.{◌≡◌, IfOk, length};

use std::alloc::{AllocError, Global};
use std::marker::Model;

/// Room for the octets of a read, once for the log and once for the answer. Contracts see how many octets it is for.
#[derive(Debug, Drop)]
pub struct ReadRoom {
    pub(crate) logged: Vec<u8>,
    pub(crate) told: Vec<u8>,
}

impl Model for ReadRoom {
    ghost use Rattle.std.specs.Prelude.{ℕ, ◌≡◌, length};

    ghost Value = { ℕ };

    ghost view = { λ r. length r.told.items };

    ghost invariant = { λ r. length r.logged.items ≡ length r.told.items };
}

impl ReadRoom {
    /// Room for this many octets.
    pub fn new(alloc: Global, len: usize) -> Result<ReadRoom, AllocError>
        ensures { IfOk result (λ room. room ≡ len) }
    {
        let mut logged = Vec::new(alloc);
        logged.resize(len, 0)?;
        let mut told = Vec::new(alloc);
        told.resize(len, 0)?;
        Ok(ReadRoom { logged, told })
    }

    /// No room. It takes no memory.
    pub fn none(alloc: Global) -> ReadRoom
        ensures { result ≡ 0 }
    {
        ReadRoom {
            logged: Vec::new(alloc),
            told: Vec::new(alloc),
        }
    }
}
