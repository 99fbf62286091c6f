ghost use Rattle.std.specs.Prelude.{◌≡◌, [], ◌∷◌, ◌++◌, IsTrue, IfOk, OnOk, OnErr, MatchOption, IfSome};
ghost use Rattle.lower_model.specs.Name.{is_name};

use crate::{Name, Parts, Path};
use lower_model::Kind;
use std::alloc::{AllocError, Global};
use std::marker::Model;

#[derive(Debug, Drop)]
struct Columns {
    kinds: Vec<Kind>,
    names: Path,
}

/// The entries of a directory as a list tells them. It is one pointer, and all names stand in one list of octets.
#[derive(Debug, Drop)]
pub struct DirListing {
    columns: Box<Columns>,
}

impl Model for DirListing {
    ghost use Rattle.std.specs.Prelude.{◌≡◌, List, length};
    ghost use Rattle.tree_model.specs.DirListing.{Shown, listed};

    ghost Value = { List Shown };

    ghost view = { λ l. listed l.columns.value.kinds.items l.columns.value.names };

    ghost invariant = { λ l. length l.columns.value.kinds.items ≡ length l.columns.value.names };
}

/// The entries of a listing, or its last ones, as they stand in it.
#[derive(Debug, Drop)]
pub struct DirEntries<'a> {
    kinds: &'a [Kind],
    names: Parts<'a>,
}

impl<'a> Model for DirEntries<'a> {
    ghost use Rattle.std.specs.Prelude.{◌≡◌, List, length};
    ghost use Rattle.tree_model.specs.DirListing.{Shown, listed};

    ghost Value = { List Shown };

    ghost view = { λ l. listed l.kinds.now l.names };

    ghost invariant = { λ l. length l.kinds.now ≡ length l.names };
}

impl DirListing {
    /// No entries, with room for so many, whose names have so many octets in all.
    pub fn with_room(alloc: Global, entries: usize, octets: usize) -> Result<DirListing, AllocError>
        ensures { IfOk result (λ l. l ≡ []) }
    {
        let kinds = Vec::with_capacity(alloc, entries)?;
        let names = Path::with_room(alloc, octets.saturating_add(entries))?;
        Ok(DirListing {
            columns: Box::new(alloc, Columns { kinds, names })?,
        })
    }

    /// Adds an entry at the end. Without memory for it the listing stays.
    pub fn push(&mut self, kind: Kind, name: &Name) -> Result<(), AllocError>
        ensures ok { OnOk result (self.new ≡ self.old ++ record { kind = kind; name = name.now } ∷ []) }
        ensures err { OnErr result (self.new ≡ self.old) }
    {
        self.columns.kinds.try_reserve(1)?;
        self.columns.names.push(name)?;
        self.columns.kinds.push(kind).unwrap();
        Ok(())
    }

    /// A copy.
    pub fn copied(&self, alloc: Global) -> Result<DirListing, AllocError>
        ensures { IfOk result (λ l. l ≡ self.now) }
    {
        let kinds = Vec::from_slice(alloc, &self.columns.kinds)?;
        let names = self.columns.names.copied(alloc)?;
        Ok(DirListing {
            columns: Box::new(alloc, Columns { kinds, names })?,
        })
    }

    /// Its entries.
    pub fn entries(&self) -> DirEntries<'_>
        ensures { result ≡ self.now }
    {
        DirEntries {
            kinds: self.columns.kinds.as_slice(),
            names: self.columns.names.parts(),
        }
    }
}

impl<'a> DirEntries<'a> {
    /// The kind and the name of the first entry, and the other entries.
    pub fn split_first(&self) -> Option<(Kind, &'a [u8], DirEntries<'a>)>
        ensures entries { MatchOption result (self.now ≡ []) (λ e. self.now ≡ record { kind = e.0; name = e.1.now } ∷ e.2) }
        ensures name { IfSome result (λ e. IsTrue (is_name e.1.now)) }
    {
        let (kind, kinds) = self.kinds.split_first()?;
        let (name, names) = self.names.split_first()?;
        Some((*kind, name, DirEntries { kinds, names }))
    }
}
