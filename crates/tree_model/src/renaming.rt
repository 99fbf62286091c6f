ghost use Rattle.std.specs.Prelude.{◌≡◌, ◌≤◌, length, IfOk};
ghost use Rattle.std.specs.List.{position_or_len};
ghost use Rattle.tree_model.specs.Path.{IsPath};
ghost use Rattle.tree_model.specs.Renaming.{is_zero};

use crate::{Parts, Path};
use std::alloc::AllocError;
use std::marker::Model;

/// The two paths of a rename. They stand in one list of octets.
#[derive(Debug, Drop)]
pub struct Renaming {
    octets: Vec<u8>,
}

impl Model for Renaming {
    ghost use Rattle.tree_model.specs.Renaming.{Paths, paths_in, KeepsPaths};

    ghost Value = { Paths };

    ghost view = { λ r. paths_in r.octets.items };

    ghost invariant = { λ r. KeepsPaths r.octets.items };
}

/// The place of the first 0, or the end.
fn first_zero(octets: &[u8]) -> usize
    ensures place { result ≡ position_or_len is_zero octets.now }
    ensures bound { result ≤ length octets.now }
{
    match octets.iter().position(|c| *c == 0) {
        Some(place) => place,
        None => octets.len(),
    }
}

impl Renaming {
    /// From the first path to the second.
    pub fn between(old: Path, new: &Path) -> Result<Renaming, AllocError>
        ensures { IfOk result (λ r. r ≡ record { old = old; new = new.now }) }
    {
        let mut octets = old.into_octets();
        let names = new.octets();
        octets.try_reserve(names.len() + 1)?;
        octets.push(0).unwrap();
        octets.extend_from_slice(names).unwrap();
        Ok(Renaming { octets })
    }

    /// The path that the entry has.
    pub fn old(&self) -> Parts<'_>
        ensures parts { result ≡ self.now.old }
        ensures names { IsPath self.now.old }
    {
        Parts::of(&self.octets[..first_zero(&self.octets)])
    }

    /// The path that it gets.
    pub fn new(&self) -> Parts<'_>
        ensures parts { result ≡ self.now.new }
        ensures names { IsPath self.now.new }
    {
        Parts::of(&self.octets[first_zero(&self.octets) + 1..])
    }
}
