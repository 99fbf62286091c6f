ghost use Rattle.std.specs.Prelude.{◌≡◌, ◌≤◌, OnOk, OnErr};

use crate::Entry;
use std::alloc::{AllocError, Global};
use std::marker::Model;

/// Room for names, which a directory takes when it gets a name more. Contracts see how many names it has room for.
#[derive(Debug, Drop)]
pub struct Spare {
    pub(crate) entries: Vec<Entry>,
}

impl Model for Spare {
    ghost use Rattle.std.specs.Prelude.{ℕ, ◌≡◌, [], vec_capacity};

    ghost Value = { ℕ };

    ghost view = { λ s. vec_capacity s.entries };

    ghost invariant = { λ s. s.entries.items ≡ [] };
}

impl Spare {
    /// No room. It takes no memory.
    pub fn new(alloc: Global) -> Spare
        ensures { result ≡ 0 }
    {
        Spare {
            entries: Vec::new(alloc),
        }
    }

    /// Afterwards there is room for so many names. Without memory the room stays.
    pub fn reserve(&mut self, names: usize) -> Result<(), AllocError>
        ensures ok { OnOk result (names ≤ self.new) }
        ensures err { OnErr result (self.new ≡ self.old) }
        ensures more { self.old ≤ self.new }
    {
        self.entries.try_reserve(names)?;
        Ok(())
    }
}
