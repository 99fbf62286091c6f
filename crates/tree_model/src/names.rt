ghost use Rattle.std.specs.Prelude.{◌≡◌, ◌<◌, [], OnOk, OnErr, length, vec_len, vec_capacity, IsTrue};
ghost use Rattle.std.specs.List.Sorted.{IsBinarySearchResult, IsSearchInRange};
ghost use Rattle.std.specs.Ordering.{nat_cmp};
ghost use Rattle.std.specs.Cmp.Lexicographic.{slice_cmp};
ghost use Rattle.lower_model.specs.Name.{is_name};
ghost use Rattle.tree_model.specs.Names.{node_of, put_entry, without, RisesBehind};

use crate::{Entry, EntryName, Name, Spare};
use std::alloc::{AllocError, Global};
use std::marker::Model;
use std::mem::swap;

/// Names in octet order, each with its node.
#[derive(Debug, Drop)]
pub struct Names {
    entries: Vec<Entry>,
}

impl Model for Names {
    ghost use Rattle.std.specs.Prelude.{List, ℕ, []};
    ghost use Rattle.tree_model.specs.Names.{RisesBehind};

    ghost Value = { List (List ℕ × ℕ) };

    ghost view = { λ n. n.entries.items };

    ghost invariant = { λ n. RisesBehind [] n.entries.items };
}

/// Where a name stands, or would stand.
fn place(entries: &[Entry], name: &[u8]) -> Result<usize, usize>
    ensures bound { IsSearchInRange result (length entries.now) }
    ensures place { IsBinarySearchResult (λ e. slice_cmp nat_cmp e.0 name.now) entries.now result }
{
    entries.binary_search_by(|entry| entry.name().octets().cmp(name))
}

impl Names {
    /// No names. It takes no memory.
    pub fn new(alloc: Global) -> Names
        ensures { result ≡ [] }
    {
        Names {
            entries: Vec::new(alloc),
        }
    }

    /// The node of a name, where it is there.
    pub fn get(&self, name: &[u8]) -> Option<u32>
        ensures { result ≡ node_of name.now self.now }
    {
        match place(&self.entries, name) {
            Ok(at) => Some(self.entries[at].node()),
            Err(_) => None,
        }
    }

    /// The names in octet order, each with its node.
    pub fn entries(&self) -> &[Entry]
        ensures entries { result.now ≡ self.now }
        ensures rising { RisesBehind [] self.now }
    {
        self.entries.as_slice()
    }

    /// Puts a name to its place. Without memory for it the names stay.
    pub fn insert(&mut self, name: Name, node: u32) -> Result<(), AllocError>
        ensures ok { OnOk result (self.new ≡ put_entry self.old name node) }
        ensures err { OnErr result (self.new ≡ self.old) }
        ensures lawful { IsTrue (is_name name) }
    {
        match place(&self.entries, name.octets()) {
            Ok(at) => self.entries[at].set_node(node),
            Err(at) => {
                let name = EntryName::new(*self.entries.allocator(), name)?;
                self.entries.insert(at, name.entry(node))?;
            }
        }
        Ok(())
    }

    /// Puts a name to its place, in the room that is spare where its own is full. It takes no memory.
    pub fn insert_with(&mut self, name: EntryName, node: u32, spare: &mut Spare)
        requires { length self.old < spare.old }
        ensures names { self.new ≡ put_entry self.old name node }
        ensures lawful { IsTrue (is_name name) }
    {
        match place(&self.entries, name.octets()) {
            Ok(at) => self.entries[at].set_node(node),
            Err(at) => {
                take_room(&mut self.entries, &mut spare.entries);
                self.entries.insert(at, name.entry(node)).unwrap();
            }
        }
    }

    /// Takes a name out, where it is there. It takes no memory.
    pub fn remove(&mut self, name: &[u8])
        ensures { self.new ≡ without name.now self.old }
    {
        if let Ok(at) = place(&self.entries, name) {
            let _gone = self.entries.remove(at);
        }
    }
}

/// Room for one entry more: its own, or the spare one, to which the entries go.
fn take_room(entries: &mut Vec<Entry>, spare: &mut Vec<Entry>)
    requires room { vec_len entries.old < vec_capacity spare.old }
    requires empty { spare.old.items ≡ [] }
    ensures items { entries.new.items ≡ entries.old.items }
    ensures room { vec_len entries.new < vec_capacity entries.new }
    ensures empty { spare.new.items ≡ [] }
{
    if entries.len() == entries.capacity() {
        swap(entries, spare);
        entries.append(spare).unwrap();
    }
}
