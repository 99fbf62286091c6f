ghost use Rattle.std.specs.Prelude.{◌≡◌, ℕ, true, List, [], IsSome, IfOk, map};
ghost use Rattle.names_model.specs.declared.limits.TheConstants.{LONGEST_PLAIN_NAME};
ghost use Rattle.names_model.specs.Store.{Entries, HoldsTree, lower_name, store_of};
ghost use Rattle.names_model.specs.StoreCalls.{created, removed, renamed, CanCreate, CanRemove, CanRename};
ghost use Rattle.lower_tree.specs.Calls.{HasCause, Leaves};
ghost use Rattle.lower_mem.specs.Plan.{first_plan, behind_call, FailsBy};
ghost use Rattle.lower_mem.specs.Names.{names_held, store_in, HasNoForeign};

use crate::changes::{create, remove, rename};
use crate::places::{lower_names, shown_in};
use crate::plan::{FailPlan, or_memory};
use crate::shown::shown_tree;
use lower_tree::{Items, Kind, LowerError, LowerName, LowerNames, LowerTree};
use plain_tree::Tree;
use std::alloc::{AllocError, Global};
use std::marker::Model;
use tree_model::Spare;

/// The names of a lower tree in memory, of whose calls some may be made to fail.
#[derive(Debug, Drop)]
pub struct MemNames {
    tree: Tree,
    spare: Spare,
    plan: FailPlan,
}

impl Model for MemNames {
    ghost use Rattle.std.specs.Prelude.{◌≡◌};
    ghost use Rattle.names_model.specs.declared.limits.TheConstants.{LONGEST_PLAIN_NAME};
    ghost use Rattle.lower_mem.specs.Names.{NamesInMemory, HasNoForeign};

    ghost Value = { NamesInMemory };

    ghost view = { λ n. record { places = n.tree.places; plan = n.plan } };

    ghost invariant = { λ n. (n.tree.limit ≡ LONGEST_PLAIN_NAME) × HasNoForeign n.tree.places };
}

impl MemNames {
    /// The names of a plain tree. Those of its calls fail that have these numbers, counted from 1. It takes no memory.
    pub fn new(alloc: Global, tree: Tree, fails: Vec<u64>) -> MemNames
        requires limit { tree.limit ≡ LONGEST_PLAIN_NAME }
        requires plain { HasNoForeign tree.places }
        ensures { result ≡ record { places = tree.places; plan = first_plan fails.items } }
    {
        MemNames {
            tree,
            spare: Spare::new(alloc),
            plan: FailPlan::new(fails),
        }
    }

    /// The names of a lower tree, of whose calls none fails.
    pub fn of(alloc: Global, tree: &LowerTree) -> Result<MemNames, AllocError>
        ensures told { IfOk result (λ names. (names_held names).told ≡ true) }
        ensures entries { IfOk result (λ names. (k : ℕ) → (names_held names).entries k ≡ store_of tree.now k) }
        ensures holds { IfOk result (λ names. HoldsTree (names_held names).entries) }
        ensures faults { IfOk result (λ names. (names_held names).faults ≡ 0) }
        ensures plan { IfOk result (λ names. names.plan ≡ first_plan []) }
    {
        let names = shown_tree(alloc, tree.nodes())?;
        Ok(MemNames::new(alloc, names, Vec::new(alloc)))
    }

    /// The plain tree. It takes no memory.
    pub fn into_tree(self) -> Tree
        ensures { result.places ≡ self.places }
    {
        let MemNames { tree, .. } = self;
        tree
    }
}

impl LowerNames for MemNames {
    ghost held = { names_held };

    fn faults(&self) -> u64 {
        self.plan.faults()
    }

    fn list(&mut self, alloc: Global, dir: u32) -> Result<Items<LowerName>, LowerError>
        ensures entries { IfOk result (λ listed. (entries : Entries) → store_in self.old.places dir ≡ Some entries → listed ≡ map lower_name entries) }
        ensures places { self.new.places ≡ self.old.places }
        ensures plan { self.new.plan ≡ behind_call self.old.plan }
        ensures failed { FailsBy self.old.plan result }
        ensures cause { HasCause self.old.plan.faults self.new.plan.faults result }
    {
        self.plan.begin()?;
        let places = self.tree.places();
        or_memory(lower_names(alloc, places, shown_in(places, dir)))
    }

    fn create(
        &mut self,
        alloc: Global,
        dir: u32,
        name: &[u8],
        kind: Kind,
        node: u32,
    ) -> Result<(), LowerError>
        requires { CanCreate (store_in self.old.places) dir name.now node }
        ensures change { Leaves result (store_in self.old.places) (store_in self.new.places) (created (store_in self.old.places) dir name.now (record { kind = kind; node = node })) }
        ensures plan { self.new.plan ≡ behind_call self.old.plan }
        ensures failed { FailsBy self.old.plan result }
        ensures cause { HasCause self.old.plan.faults self.new.plan.faults result }
    {
        self.plan.begin()?;
        or_memory(create(alloc, &mut self.tree, dir, name, kind, node))
    }

    fn remove(&mut self, alloc: Global, dir: u32, name: &[u8]) -> Result<(), LowerError>
        requires { CanRemove (store_in self.old.places) dir name.now }
        ensures change { Leaves result (store_in self.old.places) (store_in self.new.places) (removed (store_in self.old.places) dir name.now) }
        ensures plan { self.new.plan ≡ behind_call self.old.plan }
        ensures failed { FailsBy self.old.plan result }
        ensures cause { HasCause self.old.plan.faults self.new.plan.faults result }
    {
        self.plan.begin()?;
        or_memory(remove(alloc, &mut self.tree, dir, name, &mut self.spare))
    }

    fn rename(
        &mut self,
        alloc: Global,
        dir: u32,
        name: &[u8],
        to_dir: u32,
        to_name: &[u8],
    ) -> Result<(), LowerError>
        requires { CanRename (store_in self.old.places) dir name.now to_dir to_name.now }
        ensures change { Leaves result (store_in self.old.places) (store_in self.new.places) (renamed (store_in self.old.places) dir name.now to_dir to_name.now) }
        ensures plan { self.new.plan ≡ behind_call self.old.plan }
        ensures failed { FailsBy self.old.plan result }
        ensures cause { HasCause self.old.plan.faults self.new.plan.faults result }
    {
        self.plan.begin()?;
        or_memory(rename(
            alloc,
            &mut self.tree,
            dir,
            name,
            to_dir,
            to_name,
            &mut self.spare,
        ))
    }
}
