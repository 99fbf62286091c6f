ghost use Rattle.std.specs.Prelude.{◌≡◌, ◌++◌, ◌∷◌, ◌<◌, ◌^◌, [], length, map, ◌≤◌, slice_get, MatchOption, IfOk, Some};

use std::alloc::{AllocError, Global};
use std::fmt::{self, Debug, Formatter, Write};
use std::marker::Model;
use std::mem;

// The last entry comes first. The end doubles as a link that has no entry yet.
pub(crate) enum Node<E> {
    End,
    More(E, Box<Node<E>>),
}

impl<E: Drop> Drop for Node<E> {
    // A loop, since a chain may have a million entries.
    fn drop(mut self) {
        loop {
            match self {
                Node::End => return,
                Node::More(_, below) => self = Box::into_inner(below),
            }
        }
    }
}

/// Room for one entry of a chain.
#[derive(Drop)]
pub struct Link<E> {
    room: Box<Node<E>>,
}

impl<E: Drop> Link<E> {
    /// Takes the room.
    pub fn new(alloc: Global) -> Result<Link<E>, AllocError> {
        Ok(Link {
            room: Box::new(alloc, Node::End)?,
        })
    }
}

impl<E> Debug for Link<E> {
    fn fmt<W: Write>(&self, f: &mut Formatter<W>) -> fmt::Result {
        f.write_str("Link")
    }
}

/// A list of entries that grows at its end by links. Contracts see the list.
#[derive(Drop)]
pub struct Chain<E> {
    count: u64,
    top: Node<E>,
}

impl<E> Model for Chain<E> {
    ghost use Rattle.std.specs.Prelude.{◌≡◌, ◌^◌, ◌-◌, List, length, min};
    ghost use Rattle.turn_lock.specs.Entries.{entries_of};

    ghost Value = { List E };

    ghost view = { λ c. entries_of c.top };

    ghost invariant = { λ c. c.count ≡ min (length (entries_of c.top)) (2 ^ 64 - 1) };
}

// The name alone, since a chain may have a million entries.
impl<E> Debug for Chain<E> {
    fn fmt<W: Write>(&self, f: &mut Formatter<W>) -> fmt::Result {
        f.write_str("Chain")
    }
}

impl<E: Drop> Chain<E> {
    /// No entries. It takes no memory.
    pub fn new() -> Chain<E>
        ensures { result ≡ [] }
    {
        Chain {
            count: 0,
            top: Node::End,
        }
    }

    /// Adds an entry at the end. It takes no memory.
    pub fn push(&mut self, link: Link<E>, entry: E)
        ensures { self.new ≡ self.old ++ entry ∷ [] }
    {
        let Link { mut room } = link;
        *room = mem::replace(&mut self.top, Node::End);
        self.top = Node::More(entry, room);
        self.count = self.count.saturating_add(1);
    }

    /// How many entries there are, of which no machine can hold 2^64.
    pub fn len(&self) -> u64
        ensures { length self.now < 2 ^ 64 → result ≡ length self.now }
    {
        self.count
    }

    /// The entry with this index, counted from 0; `None` exactly from the length on. It takes a step for each entry behind it.
    pub fn get(&self, index: u64) -> Option<&E>
        ensures { length self.now < 2 ^ 64 → MatchOption result (length self.now ≤ index) (λ e. slice_get self.now index ≡ Some e.now) }
    {
        if index >= self.count {
            return None;
        }
        let mut left = self.count - 1 - index;
        let mut node = &self.top;
        while let Node::More(entry, below) = node {
            if left == 0 {
                return Some(entry);
            }
            left -= 1;
            node = below;
        }
        None
    }

    /// All entries in order. It walks the chain once.
    pub fn entries(&self, alloc: Global) -> Result<Vec<&E>, AllocError>
        ensures { IfOk result (λ entries. map (λ e. e.now) entries.items ≡ self.now) }
    {
        let mut entries = Vec::with_capacity(alloc, self.count as usize)?;
        let mut node = &self.top;
        while let Node::More(entry, below) = node {
            entries.push(entry)?;
            node = below;
        }
        entries.reverse();
        Ok(entries)
    }
}
