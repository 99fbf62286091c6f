ghost use Rattle.std.specs.Prelude.{◌≡◌, ℕ, true, IsSome, IfOk, map};
ghost use Rattle.names_model.specs.Store.{Entries, lower_name};
ghost use Rattle.names_model.specs.StoreCalls.{created, removed, renamed, CanCreate, CanRemove, CanRename};
ghost use Rattle.lower_tree.specs.Held.{HeldNames};
ghost use Rattle.lower_tree.specs.Calls.{HasCause, Leaves};

use crate::LowerError;
use lower_model::{Items, Kind};
use names_model::LowerName;
use std::alloc::Global;

/// A store of the names of a lower tree. A call that fails changes nothing.
pub trait LowerNames {
    /// What it holds.
    ghost held: { Self → HeldNames };

    /// How many of its calls failed, as far as a `u64` goes.
    fn faults(&self) -> u64
        ensures { result ≡ (held self.now).faults };

    /// The entries of a directory, in octet order of their names.
    fn list(&mut self, alloc: Global, dir: u32) -> Result<Items<LowerName>, LowerError>
        requires { (held self.old).told ≡ true → IsSome ((held self.old).entries dir) }
        ensures entries { IfOk result (λ listed. (held self.old).told ≡ true → (entries : Entries) → (held self.old).entries dir ≡ Some entries → listed ≡ map lower_name entries) }
        ensures stays { (held self.old).told ≡ true → (k : ℕ) → (held self.new).entries k ≡ (held self.old).entries k }
        ensures told { (held self.new).told ≡ (held self.old).told }
        ensures cause { HasCause (held self.old).faults (held self.new).faults result };

    /// Makes an entry in a directory that has none of this name, and an empty node of this number, which no node has.
    fn create(
        &mut self,
        alloc: Global,
        dir: u32,
        name: &[u8],
        kind: Kind,
        node: u32,
    ) -> Result<(), LowerError>
        requires { (held self.old).told ≡ true → CanCreate (held self.old).entries dir name.now node }
        ensures change { (held self.old).told ≡ true → Leaves result (held self.old).entries (held self.new).entries (created (held self.old).entries dir name.now (record { kind = kind; node = node })) }
        ensures told { (held self.new).told ≡ (held self.old).told }
        ensures cause { HasCause (held self.old).faults (held self.new).faults result };

    /// Removes an entry that is a file or an empty directory, and its node.
    fn remove(&mut self, alloc: Global, dir: u32, name: &[u8]) -> Result<(), LowerError>
        requires { (held self.old).told ≡ true → CanRemove (held self.old).entries dir name.now }
        ensures change { (held self.old).told ≡ true → Leaves result (held self.old).entries (held self.new).entries (removed (held self.old).entries dir name.now) }
        ensures told { (held self.new).told ≡ (held self.old).told }
        ensures cause { HasCause (held self.old).faults (held self.new).faults result };

    /// Moves an entry, in place of what had its new name: another entry of its kind, empty if it is a directory.
    fn rename(
        &mut self,
        alloc: Global,
        dir: u32,
        name: &[u8],
        to_dir: u32,
        to_name: &[u8],
    ) -> Result<(), LowerError>
        requires { (held self.old).told ≡ true → CanRename (held self.old).entries dir name.now to_dir to_name.now }
        ensures change { (held self.old).told ≡ true → Leaves result (held self.old).entries (held self.new).entries (renamed (held self.old).entries dir name.now to_dir to_name.now) }
        ensures told { (held self.new).told ≡ (held self.old).told }
        ensures cause { HasCause (held self.old).faults (held self.new).faults result };
}
