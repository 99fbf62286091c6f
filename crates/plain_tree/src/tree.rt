ghost use Rattle.std.specs.Prelude.{◌≡◌, ◌≤◌, ◌-◌, ◌∷◌, ℕ, List, length, Some, None, replicate, slice_get, slice_set, IfOk, OnOk, OnErr, OnSome};
ghost use Rattle.tree_model.specs.declared.place.Place.TheVariants.{Dir, Nothing};
ghost use Rattle.tree_model.specs.declared.place.Place.{Place};
ghost use Rattle.tree_model.specs.PlainTree.{most_nodes, empty_directory, step, comes_to, changed, reply_of, made_reply, StepsOrMemory};
ghost use Rattle.tree_model.specs.IsTree.{IsTree, IsDirectory, node_in};
ghost use Rattle.tree_model.specs.Walk.{walk};
ghost use Rattle.plain_tree.specs.Entered.{grown, entered, entered_foreign, reached};
ghost use Rattle.plain_tree.specs.Prepared.{PreparesFor, HasRoom, CanChange, IfChange};

use crate::change::{apply, begun, empty_directory, put_foreign, put_in};
use crate::prepare::prepared;
use crate::walk::{kind, walked};
use lower_model::{Items, Kind};
use std::alloc::{AllocError, Global};
use std::marker::Model;
use tree_model::{
    Change, ForeignEntry, MOST_NODES, Name, Parts, Place, Prepared, Spare, TreeCall, TreeReply,
};

/// A plain tree: how long its names may be, and what stands at each node number, the root at 0.
#[derive(Debug, Drop)]
pub struct Tree {
    limit: usize,
    places: Vec<Place>,
}

impl Model for Tree {
    ghost use Rattle.std.specs.Prelude.{◌≤◌, vec_capacity};
    ghost use Rattle.tree_model.specs.PlainTree.{PlainTree, most_nodes};
    ghost use Rattle.tree_model.specs.IsTree.{IsTree};

    ghost Value = { PlainTree };

    ghost view = { λ t. record { limit = t.limit; places = t.places.items } };

    ghost invariant = { λ t. IsTree t.places.items × (most_nodes ≤ vec_capacity t.places) };
}

impl Tree {
    /// The root alone, in a tree whose names may have `limit` octets and whose next new node gets the number `next`.
    pub fn new(alloc: Global, limit: usize, next: u32) -> Result<Tree, AllocError>
        requires { (1 ≤ next) × (next ≤ most_nodes) }
        ensures { IfOk result (λ t. t ≡ record { limit = limit; places = Dir empty_directory ∷ replicate (next - 1) Nothing }) }
    {
        let mut places = Vec::with_capacity(alloc, MOST_NODES as usize)?;
        places.push(Place::Dir(empty_directory(alloc)))?;
        for _ in 1..next {
            places.push(Place::Nothing)?;
        }
        Ok(Tree { limit, places })
    }

    /// Has this many node numbers at least; at those that are added nothing stands. It takes no memory.
    pub fn grow(&mut self, count: u32)
        requires { count ≤ most_nodes }
        ensures { self.new ≡ grown self.old count }
    {
        let more = (count as usize).saturating_sub(self.places.len());
        for _ in 0..more {
            self.places.push(Place::Nothing).unwrap();
        }
    }

    /// Shows a name in the directory `dir`, which leads to a node with a number of its own. Without memory the tree stays.
    pub fn enter(&mut self, dir: u32, name: Name, kind: Kind, node: u32) -> Result<(), AllocError>
        requires directory { IsDirectory (slice_get self.old.places dir) }
        requires absent { node_in (slice_get self.old.places dir) name ≡ None }
        requires new { slice_get self.old.places node ≡ Some Nothing }
        ensures ok { OnOk result (self.new ≡ entered self.old dir name kind node) }
        ensures err { OnErr result (self.new ≡ self.old) }
    {
        let place = begun(*self.places.allocator(), kind);
        put_in(&mut self.places, dir, name, node)?;
        self.places[node as usize] = place;
        Ok(())
    }

    /// Adds a foreign entry to the directory `dir`, behind those that it has. Without memory the tree stays.
    pub fn enter_foreign(
        &mut self,
        dir: u32,
        lower: Items<u8>,
        node: u32,
        blocks: Option<Name>,
    ) -> Result<(), AllocError>
        requires directory { IsDirectory (slice_get self.old.places dir) }
        ensures ok { OnOk result (self.new ≡ entered_foreign self.old dir (record { lower = lower; node = node; blocks = blocks })) }
        ensures err { OnErr result (self.new ≡ self.old) }
    {
        put_foreign(
            &mut self.places,
            dir,
            ForeignEntry {
                lower,
                node,
                blocks,
            },
        )?;
        Ok(())
    }

    /// What stands at each node number.
    pub fn places(&self) -> &[Place]
        ensures places { result.now ≡ self.now.places }
        ensures lawful { IsTree self.now.places }
    {
        self.places.as_slice()
    }

    /// The node that these names lead to, and its kind. It takes no memory.
    pub fn walk(&self, parts: Parts<'_>) -> Option<(u32, Kind)>
        ensures { result ≡ reached self.now.places (walk self.now.places 0 parts.entry) }
    {
        match walked(&self.places, parts) {
            Ok(node) => Some((node, kind(&self.places, node))),
            Err(_) => None,
        }
    }

    /// What a call comes to: an answer that changes nothing, or a change, for which there is room then.
    /// `Memory` may come in place of a change or of an answer with names.
    pub fn prepare(&self, alloc: Global, call: &TreeCall, spare: &mut Spare) -> Prepared
        ensures value { PreparesFor result (comes_to self.now call.now) }
        ensures room { IfChange result (λ change. HasRoom self.now.places change spare.new) }
        ensures may { IfChange result (λ change. CanChange self.now change) }
    {
        prepared(alloc, self.limit, &self.places, call, spare)
    }

    /// Makes a change for which there is room. It takes no memory.
    pub fn change(&mut self, alloc: Global, change: Change, spare: &mut Spare) -> TreeReply
        requires may { CanChange self.old change }
        requires room { HasRoom self.old.places change spare.old }
        ensures tree { self.new ≡ changed self.old change }
        ensures reply { result ≡ reply_of self.old change }
    {
        let reply = reply_of(self.places.len(), &change);
        apply(alloc, &mut self.places, change, spare);
        reply
    }

    /// One call, by the tests of the plain tree in their order. `Memory` leaves the tree as it was.
    pub fn step(&mut self, alloc: Global, call: &TreeCall) -> TreeReply
        ensures stepped { StepsOrMemory result self.old self.new (step self.old call.now) }
    {
        let mut spare = Spare::new(alloc);
        match self.prepare(alloc, call, &mut spare) {
            Prepared::Answer(reply) => reply,
            Prepared::Change(change) => self.change(alloc, change, &mut spare),
        }
    }
}

fn reply_of(next: usize, change: &Change) -> TreeReply
    requires { next ≤ most_nodes }
    ensures { (limit : ℕ) (places : List Place) → length places ≡ next → result ≡ reply_of (record { limit = limit; places = places }) change.now }
{
    match change {
        Change::Make(m) => match m.kind {
            Kind::Dir => TreeReply::Done,
            Kind::File => TreeReply::Node(next as u32),
        },
        Change::Remove(_) => TreeReply::Done,
        Change::Move(_) => TreeReply::Done,
    }
}
