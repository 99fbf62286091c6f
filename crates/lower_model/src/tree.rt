ghost use Rattle.std.specs.Prelude.{◌≡◌};

use crate::LowerNode;
use std::marker::Model;

/// The nodes of a lower tree by their numbers: the root, then the others in preorder, the entries
/// of each directory in octet order of their names.
#[derive(Debug, Drop)]
pub struct LowerTree {
    nodes: Vec<LowerNode>,
}

impl Model for LowerTree {
    ghost use Rattle.std.specs.Prelude.{List};
    ghost use Rattle.lower_model.specs.declared.node.LowerNode.{LowerNode};

    ghost Value = { List LowerNode };

    ghost use Rattle.lower_model.specs.LowerTree.{IsLowerTree};

    ghost view = { λ t. t.nodes.items };

    ghost invariant = { λ t. IsLowerTree t.nodes.items };
}

impl LowerTree {
    ghost use Rattle.lower_model.specs.LowerTree.{IsLowerTree};

    /// The tree of these nodes. It takes no memory.
    pub fn from_vec(nodes: Vec<LowerNode>) -> LowerTree
        requires { IsLowerTree nodes.items }
        ensures { result ≡ nodes.items }
    {
        LowerTree { nodes }
    }

    /// The nodes by their numbers, the root first.
    pub fn nodes(&self) -> &[LowerNode]
        ensures nodes { result.now ≡ self.now }
        ensures lawful { IsLowerTree self.now }
    {
        self.nodes.as_slice()
    }

    /// The nodes by their numbers. It takes no memory.
    pub fn into_vec(self) -> Vec<LowerNode>
        ensures nodes { result.items ≡ self }
        ensures lawful { IsLowerTree self }
    {
        let LowerTree { nodes } = self;
        nodes
    }
}
