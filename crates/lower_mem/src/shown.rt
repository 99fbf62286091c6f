ghost use Rattle.std.specs.Prelude.{◌≡◌, ℕ, IfOk};
ghost use Rattle.lower_model.specs.LowerTree.{IsLowerTree};
ghost use Rattle.names_model.specs.declared.limits.TheConstants.{LONGEST_PLAIN_NAME};
ghost use Rattle.names_model.specs.Store.{store_of};
ghost use Rattle.lower_mem.specs.Names.{store_in, HasNoForeign};

use lower_tree::LowerNode;
use names_model::LONGEST_PLAIN_NAME;
use plain_tree::Tree;
use std::alloc::{AllocError, Global};
use tree_model::Name;

/// The plain tree whose entries are the lower names of a lower tree.
pub fn shown_tree(alloc: Global, nodes: &[LowerNode]) -> Result<Tree, AllocError>
    requires { IsLowerTree nodes.now }
    ensures names { IfOk result (λ t. (k : ℕ) → store_in t.places k ≡ store_of nodes.now k) }
    ensures limit { IfOk result (λ t. t.limit ≡ LONGEST_PLAIN_NAME) }
    ensures plain { IfOk result (λ t. HasNoForeign t.places) }
{
    let mut tree = Tree::new(alloc, LONGEST_PLAIN_NAME, nodes.len() as u32)?;
    for number in 1..nodes.len() {
        let node = &nodes[number];
        let name = Name::from_slice(alloc, node.name.as_slice())?;
        tree.enter(node.parent, name, node.kind, number as u32)?;
    }
    Ok(tree)
}
