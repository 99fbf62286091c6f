ghost use Rattle.std.specs.Prelude.{◌≡◌, ◌≢◌, ℕ, [], ◌∷◌, Some, List, length, map, IfOk, MatchOption, slice_get};
ghost use Rattle.lower_model.specs.LowerTree.{IsRoot};
ghost use Rattle.tree_model.specs.IsTree.{IsNode};
ghost use Rattle.tree_model.specs.Walk.{kind_of};
ghost use Rattle.names_model.specs.LowerPaths.{tree_paths, paths_of};
ghost use Rattle.lower_tree.specs.Held.{stores, file_at};
ghost use Rattle.lower_mem.specs.Names.{store_in};
ghost use Rattle.lower_mem.specs.Bodies.{bodies_held, AllFit};
ghost use Rattle.lower_mem.specs.Laid.{octets_kept, entry_node};

use crate::MemBodies;
use crate::bodies::STORES;
use lower_tree::{Items, Kind, LowerNode, LowerTree};
use plain_tree::Tree;
use std::alloc::{AllocError, Global};
use std::marker::Model;
use tree_model::{Directory, Entry, Name, Place};

/// A directory whose entries are being laid out: its number, and the entries that are left.
#[derive(Drop)]
struct Open<'a> {
    number: u32,
    rest: &'a [Entry],
}

impl<'a> Model for Open<'a> {
    ghost use Rattle.lower_mem.specs.Laid.{Remaining};

    ghost Value = { Remaining };

    ghost view = { λ o. record { number = o.number; rest = o.rest.now } };
}

impl<'a> Open<'a> {
    /// A directory of which nothing is laid out yet.
    fn new(number: u32, dir: &'a Directory) -> Open<'a>
        ensures { result ≡ record { number = number; rest = dir.now.shown } }
    {
        Open {
            number,
            rest: dir.shown.entries(),
        }
    }

    /// The next entry: its name and its node.
    fn next(&mut self) -> Option<(&'a Name, u32)>
        ensures { MatchOption result ((self.old.rest ≡ []) × (self.new ≡ self.old)) (λ e. self.old ≡ record { number = self.new.number; rest = (e.0.now, e.1) ∷ self.new.rest }) }
    {
        let (entry, rest) = self.rest.split_first()?;
        self.rest = rest;
        Some((entry.name(), entry.node()))
    }
}

fn root(alloc: Global) -> LowerNode
    ensures { IsRoot result }
{
    LowerNode {
        parent: 0,
        kind: Kind::Dir,
        name: Items::new(alloc),
        attribute: None,
        body: Items::new(alloc),
    }
}

fn kind(place: &Place) -> Kind
    requires { IsNode (Some place.now) }
    ensures { kind_of (Some place.now) ≡ Some result }
{
    match place {
        Place::Dir(_) => Kind::Dir,
        Place::File => Kind::File,
        Place::Nothing => unreachable!(),
    }
}

/// What a node of this kind holds: a file's octets, which are taken out of the stores. It takes no memory.
fn take_octets(
    alloc: Global,
    kind: Kind,
    bodies: &mut [MemBodies],
    node: u32,
) -> (Option<Items<u8>>, Items<u8>)
    requires { length bodies.old ≡ stores }
    ensures octets { result ≡ octets_kept kind (file_at (map bodies_held bodies.old) node) }
    ensures others { (k : ℕ) → k ≢ node → file_at (map bodies_held bodies.new) k ≡ file_at (map bodies_held bodies.old) k }
{
    match kind {
        Kind::Dir => (None, Items::new(alloc)),
        Kind::File => bodies[node as usize % STORES]
            .take(alloc, node)
            .into_octets(),
    }
}

/// The lower node of an entry.
fn entry(
    alloc: Global,
    parent: u32,
    kind: Kind,
    name: &Name,
    octets: (Option<Items<u8>>, Items<u8>),
) -> Result<LowerNode, AllocError>
    ensures { IfOk result (λ node. node ≡ entry_node parent kind name.now octets) }
{
    let (attribute, body) = octets;
    Ok(LowerNode {
        parent,
        kind,
        name: Items::from_slice(alloc, name.octets())?,
        attribute,
        body,
    })
}

/// The lower tree that names and stores of bodies hold: its nodes in preorder, each directory's entries in the order of
/// their names. The octets of its files are taken out of the stores.
pub fn united_tree(
    alloc: Global,
    tree: &Tree,
    bodies: &mut [MemBodies],
) -> Result<LowerTree, AllocError>
    requires stores { length bodies.old ≡ stores }
    requires fit { AllFit (file_at (map bodies_held bodies.old)) }
    ensures { IfOk result (λ lower. (path : List (List ℕ)) → tree_paths lower path ≡ paths_of (store_in tree.now.places) (file_at (map bodies_held bodies.old)) path) }
{
    let places = tree.places();
    let mut nodes = Vec::new(alloc);
    let mut stack = Vec::new(alloc);
    nodes.push(root(alloc))?;
    if let Place::Dir(dir) = &places[0] {
        stack.push(Open::new(0, dir))?;
    }
    while let Some(mut open) = stack.pop() {
        if let Some((name, node)) = open.next() {
            let number = nodes.len() as u32;
            let place = &places[node as usize];
            let kind = kind(place);
            let octets = take_octets(alloc, kind, bodies, node);
            nodes.push(entry(alloc, open.number, kind, name, octets)?)?;
            stack.push(open)?;
            if let Place::Dir(dir) = place {
                stack.push(Open::new(number, dir))?;
            }
        }
    }
    Ok(LowerTree::from_vec(nodes))
}
