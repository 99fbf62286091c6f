ghost use Rattle.std.specs.Prelude.{◌≡◌, ◌<◌, ℕ, List, length, Bool, true, IfOk};
ghost use Rattle.names_model.specs.Store.{HoldsTree};
ghost use Rattle.names_model.specs.LowerPaths.{tree_paths};
ghost use Rattle.lower_tree.specs.Held.{TellAll, HoldTree, paths_held, stores};
ghost use Rattle.lower_tree.specs.Calls.{HasCause};
ghost use Rattle.lower_tree.specs.Making.{held_parts, AreFresh, HoldSomeTree, AddsFaults};

use crate::{LowerBodies, LowerError, LowerNames};
use lower_model::LowerTree;
use std::alloc::Global;

/// The parts of a mount.
#[derive(Debug, Drop)]
pub struct Parts<N, B> {
    /// The names.
    pub names: N,
    /// The eight stores of bodies; a node's is that with the remainder of its number by 8.
    pub bodies: Vec<B>,
}

/// What makes the parts of a mount out of a lower tree, and a lower tree out of them.
pub trait LowerMaker {
    /// The names of a lower tree.
    type N: LowerNames + Drop;
    /// A store of bodies.
    type B: LowerBodies + Drop;

    /// Whether parts hold the trees that they are made of, and trees are what the parts held.
    ghost tells: { Self → Bool };

    /// How many of its own calls failed.
    ghost count: { Self → ℕ };

    /// For each part, 0 for the names and 1 to 8 for the stores, the faults of those that were given back.
    ghost tally_of: { Self → ℕ → ℕ };

    /// How many of its own calls failed, as far as a `u64` goes.
    fn faults(&self) -> u64
        ensures { result ≡ count self.now };

    /// The parts that hold a lower tree. After a refusal the tree is gone.
    fn split(
        &mut self,
        alloc: Global,
        tree: LowerTree,
    ) -> Result<Parts<Self::N, Self::B>, LowerError>
        ensures tell { IfOk result (λ parts. tells self.old ≡ true → TellAll (held_parts Self.N.held Self.B.held parts.names parts.bodies.items)) }
        ensures hold { IfOk result (λ parts. tells self.old ≡ true → HoldTree (held_parts Self.N.held Self.B.held parts.names parts.bodies.items) tree) }
        ensures store { IfOk result (λ parts. (Self.N.held parts.names).told ≡ true → HoldsTree (Self.N.held parts.names).entries) }
        ensures fresh { IfOk result (λ parts. AreFresh (held_parts Self.N.held Self.B.held parts.names parts.bodies.items)) }
        ensures tallies { (part : ℕ) → tally_of self.new part ≡ tally_of self.old part }
        ensures tells { tells self.new ≡ tells self.old }
        ensures cause { HasCause (count self.old) (count self.new) result };

    /// The lower tree that parts hold: each path of lower names leads to the same. After a refusal the parts are gone.
    fn unite(
        &mut self,
        alloc: Global,
        parts: Parts<Self::N, Self::B>,
    ) -> Result<LowerTree, LowerError>
        requires stores { length parts.bodies.items ≡ stores }
        requires allowed { tells self.old ≡ true → TellAll (held_parts Self.N.held Self.B.held parts.names parts.bodies.items) → HoldSomeTree (held_parts Self.N.held Self.B.held parts.names parts.bodies.items) }
        ensures same { IfOk result (λ tree. tells self.old ≡ true → TellAll (held_parts Self.N.held Self.B.held parts.names parts.bodies.items)
            → (path : List (List ℕ)) → tree_paths tree path ≡ paths_held (held_parts Self.N.held Self.B.held parts.names parts.bodies.items) path) }
        ensures tallies { AddsFaults (held_parts Self.N.held Self.B.held parts.names parts.bodies.items) (tally_of self.old) (tally_of self.new) }
        ensures tells { tells self.new ≡ tells self.old }
        ensures cause { HasCause (count self.old) (count self.new) result };

    /// Ends parts that aren't united. It takes no memory.
    fn take_back(&mut self, parts: Parts<Self::N, Self::B>)
        requires { length parts.bodies.items ≡ stores }
        ensures tallies { AddsFaults (held_parts Self.N.held Self.B.held parts.names parts.bodies.items) (tally_of self.old) (tally_of self.new) }
        ensures tells { tells self.new ≡ tells self.old }
        ensures count { count self.new ≡ count self.old };

    /// The faults of a part, 0 to 8, of those that were given back, as far as a `u64` goes. It takes no memory.
    fn tally(&self, part: u32) -> u64
        requires { part < 9 }
        ensures { result ≡ tally_of self.now part };
}
