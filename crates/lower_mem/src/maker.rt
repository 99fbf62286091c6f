ghost use Rattle.std.specs.Prelude.{◌≡◌, ℕ, List, [], length, true, IfOk, OnOk, OnErr};
ghost use Rattle.lower_model.specs.LowerTree.{IsLowerTree};
ghost use Rattle.names_model.specs.declared.limits.TheConstants.{LONGEST_PLAIN_NAME};
ghost use Rattle.names_model.specs.Store.{HoldsTree, store_of};
ghost use Rattle.names_model.specs.LowerPaths.{tree_paths};
ghost use Rattle.lower_tree.specs.Held.{TellAll, HoldTree, paths_held, stores};
ghost use Rattle.lower_tree.specs.Calls.{HasCause};
ghost use Rattle.lower_tree.specs.Making.{held_parts, AreFresh, HoldSomeTree, AddsFaults};
ghost use Rattle.lower_mem.specs.Plan.{first_plan, behind_call, FailsBy};
ghost use Rattle.lower_mem.specs.Names.{names_held, store_in, HasNoForeign};
ghost use Rattle.lower_mem.specs.Bodies.{bodies_held, Stored};
ghost use Rattle.lower_mem.specs.Making.{tally_at, tally_in};

use crate::bodies::STORES;
use crate::plan::{FailPlan, or_memory};
use crate::shown::shown_tree;
use crate::split::stores_of;
use crate::united::united_tree;
use crate::{MemBodies, MemNames};
use lower_tree::{LowerBodies, LowerError, LowerMaker, LowerNames, LowerTree, Parts};
use plain_tree::Tree;
use std::alloc::{AllocError, Global};
use std::marker::Model;
use std::mem::replace;

/// Which calls fail, by their numbers from 1. A store of bodies goes by its number, from 0 to 7.
#[derive(Debug, Drop)]
pub struct MemFails {
    /// Of the calls of `split` and `unite`.
    pub maker: Vec<u64>,
    /// Of the calls on the names that the first split makes.
    pub names: Vec<u64>,
    /// Of the calls that change bodies and attributes of the first split, `write_at`, `set_len` and `set_attribute`: the store, and
    /// the number among its changing calls. A `write_at` that fails leaves `TORN` over the first half of its range, rounded up, a
    /// `set_len` the old length, and a `set_attribute` no attribute.
    pub changes: Vec<(u32, u64)>,
    /// Of the calls of `read_at` on bodies of the first split: the store, and the number among its calls of `read_at`.
    pub reads: Vec<(u32, u64)>,
}

/// What makes the parts of a mount in memory.
#[derive(Debug, Drop)]
pub struct MemMaker {
    plan: FailPlan,
    names: Vec<u64>,
    changes: Vec<(u32, u64)>,
    reads: Vec<(u32, u64)>,
    tallies: [u64; 9],
}

impl Model for MemMaker {
    ghost use Rattle.lower_mem.specs.Making.{MakerInMemory};

    ghost Value = { MakerInMemory };

    ghost view = { λ m. record { plan = m.plan; names = m.names.items; changes = m.changes.items; reads = m.reads.items; tallies = m.tallies } };
}

impl MemMaker {
    /// A maker that has made nothing yet. It takes no memory.
    pub fn new(fails: MemFails) -> MemMaker
        ensures plan { result.plan ≡ first_plan fails.maker.items }
        ensures names { result.names ≡ fails.names.items }
        ensures changes { result.changes ≡ fails.changes.items }
        ensures reads { result.reads ≡ fails.reads.items }
        ensures tallies { (part : ℕ) → tally_in result part ≡ 0 }
    {
        MemMaker {
            plan: FailPlan::new(fails.maker),
            names: fails.names,
            changes: fails.changes,
            reads: fails.reads,
            tallies: [0; 9],
        }
    }

    /// Adds the faults of parts to the tallies. It takes no memory.
    fn add_faults(&mut self, names: &MemNames, bodies: &[MemBodies])
        requires { length bodies.now ≡ stores }
        ensures tallies { AddsFaults (held_parts names_held bodies_held names.now bodies.now) (tally_in self.old) (tally_in self.new) }
        ensures rest { self.new ≡ record self.old { tallies = self.new.tallies } }
    {
        self.tallies = with_faults(self.tallies, names, bodies);
    }
}

/// Tallies with the faults of parts.
fn with_faults(tallies: [u64; 9], names: &MemNames, bodies: &[MemBodies]) -> [u64; 9]
    requires { length bodies.now ≡ stores }
    ensures { AddsFaults (held_parts names_held bodies_held names.now bodies.now) (tally_at tallies) (tally_at result) }
{
    let mut sums = tallies;
    sums[0] = sums[0].saturating_add(names.faults());
    for i in 0..STORES {
        sums[i + 1] = sums[i + 1].saturating_add(bodies[i].faults());
    }
    sums
}

impl LowerMaker for MemMaker {
    type N = MemNames;

    type B = MemBodies;

    ghost tells = { λ m. true };

    ghost count = { λ m. m.plan.faults };

    ghost tally_of = { tally_in };

    fn faults(&self) -> u64 {
        self.plan.faults()
    }

    fn split(
        &mut self,
        alloc: Global,
        tree: LowerTree,
    ) -> Result<Parts<MemNames, MemBodies>, LowerError>
        ensures tell { IfOk result (λ parts. TellAll (held_parts names_held bodies_held parts.names parts.bodies.items)) }
        ensures hold { IfOk result (λ parts. HoldTree (held_parts names_held bodies_held parts.names parts.bodies.items) tree) }
        ensures store { IfOk result (λ parts. HoldsTree (store_in parts.names.places)) }
        ensures fresh { IfOk result (λ parts. AreFresh (held_parts names_held bodies_held parts.names parts.bodies.items)) }
        ensures first { IfOk result (λ parts. parts.names.plan ≡ first_plan self.old.names) }
        ensures stored { IfOk result (λ parts. Stored self.old.changes self.old.reads tree parts.bodies.items) }
        ensures later { OnOk result (self.new ≡ record self.old { plan = self.new.plan; names = []; changes = []; reads = [] }) }
        ensures refused { OnErr result (self.new ≡ record self.old { plan = self.new.plan }) }
        ensures tallies { (part : ℕ) → tally_in self.new part ≡ tally_in self.old part }
        ensures plan { self.new.plan ≡ behind_call self.old.plan }
        ensures failed { FailsBy self.old.plan result }
        ensures cause { HasCause self.old.plan.faults self.new.plan.faults result }
    {
        self.plan.begin()?;
        let Ok((names, bodies)) = parts_of(alloc, tree, &self.changes, &self.reads) else {
            return Err(LowerError::Memory);
        };
        let fails = replace(&mut self.names, Vec::new(alloc));
        self.changes.clear();
        self.reads.clear();
        Ok(Parts {
            names: MemNames::new(alloc, names, fails),
            bodies,
        })
    }

    fn unite(
        &mut self,
        alloc: Global,
        parts: Parts<MemNames, MemBodies>,
    ) -> Result<LowerTree, LowerError>
        requires stores { length parts.bodies.items ≡ stores }
        requires allowed { TellAll (held_parts names_held bodies_held parts.names parts.bodies.items) → HoldSomeTree (held_parts names_held bodies_held parts.names parts.bodies.items) }
        ensures same { IfOk result (λ tree. (path : List (List ℕ)) → tree_paths tree path ≡ paths_held (held_parts names_held bodies_held parts.names parts.bodies.items) path) }
        ensures tallies { AddsFaults (held_parts names_held bodies_held parts.names parts.bodies.items) (tally_in self.old) (tally_in self.new) }
        ensures rest { self.new ≡ record self.old { plan = self.new.plan; tallies = self.new.tallies } }
        ensures plan { self.new.plan ≡ behind_call self.old.plan }
        ensures failed { FailsBy self.old.plan result }
        ensures cause { HasCause self.old.plan.faults self.new.plan.faults result }
    {
        self.add_faults(&parts.names, &parts.bodies);
        self.plan.begin()?;
        let Parts { names, mut bodies } = parts;
        or_memory(united_tree(alloc, &names.into_tree(), &mut bodies))
    }

    fn take_back(&mut self, parts: Parts<MemNames, MemBodies>)
        requires { length parts.bodies.items ≡ stores }
        ensures tallies { AddsFaults (held_parts names_held bodies_held parts.names parts.bodies.items) (tally_in self.old) (tally_in self.new) }
        ensures rest { self.new ≡ record self.old { tallies = self.new.tallies } }
    {
        self.add_faults(&parts.names, &parts.bodies);
    }

    fn tally(&self, part: u32) -> u64 {
        self.tallies[part as usize]
    }
}

/// The names of a lower tree, and the stores of its octets, of whose calls those fail.
fn parts_of(
    alloc: Global,
    tree: LowerTree,
    changes: &[(u32, u64)],
    reads: &[(u32, u64)],
) -> Result<(Tree, Vec<MemBodies>), AllocError>
    ensures names { IfOk result (λ parts. (k : ℕ) → store_in parts.0.places k ≡ store_of tree k) }
    ensures limit { IfOk result (λ parts. parts.0.limit ≡ LONGEST_PLAIN_NAME) }
    ensures plain { IfOk result (λ parts. HasNoForeign parts.0.places) }
    ensures stored { IfOk result (λ parts. Stored changes.now reads.now tree parts.1.items) }
    ensures lawful { IsLowerTree tree }
{
    let nodes = tree.into_vec();
    let names = shown_tree(alloc, &nodes)?;
    let bodies = stores_of(alloc, nodes, changes, reads)?;
    Ok((names, bodies))
}
