ghost use Rattle.std.specs.Prelude.{◌≡◌, IfOk, IsTrue};
ghost use Rattle.lower_model.specs.Name.{is_name};

use crate::Name;
use std::alloc::{AllocError, Global};
use std::marker::Model;

/// An entry of a directory: a name and its node. It is one pointer, so that a list of many is moved fast.
#[derive(Debug, Drop)]
pub struct Entry {
    inner: Box<(Name, u32)>,
}

impl Model for Entry {
    ghost use Rattle.std.specs.Prelude.{List, ℕ};

    ghost Value = { List ℕ × ℕ };

    ghost view = { λ e. e.inner.value };
}

impl Entry {
    /// Its name.
    pub fn name(&self) -> &Name
        ensures { result.now ≡ self.now.0 }
    {
        &self.inner.0
    }

    /// Its node.
    pub fn node(&self) -> u32
        ensures { result ≡ self.now.1 }
    {
        self.inner.1
    }

    pub(crate) fn set_node(&mut self, node: u32)
        ensures { self.new ≡ (self.old.0, node) }
    {
        self.inner.1 = node;
    }
}

/// The name of an entry that is still to be made, with the memory that the entry takes.
#[derive(Debug, Drop)]
pub struct EntryName {
    entry: Entry,
}

impl Model for EntryName {
    ghost use Rattle.std.specs.Prelude.{List, ℕ};

    ghost Value = { List ℕ };

    ghost view = { λ n. n.entry.0 };
}

impl EntryName {
    /// This name.
    pub fn new(alloc: Global, name: Name) -> Result<EntryName, AllocError>
        ensures { IfOk result (λ n. n ≡ name) }
    {
        let inner = Box::new(alloc, (name, 0))?;
        Ok(EntryName {
            entry: Entry { inner },
        })
    }

    /// Its octets.
    pub fn octets(&self) -> &[u8]
        ensures value { result.now ≡ self.now }
        ensures name { IsTrue (is_name self.now) }
    {
        self.entry.name().octets()
    }

    pub(crate) fn entry(self, node: u32) -> Entry
        ensures { result ≡ (self, node) }
    {
        let EntryName { mut entry } = self;
        entry.set_node(node);
        entry
    }
}
