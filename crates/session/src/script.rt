ghost use Rattle.std.specs.Prelude.{◌≡◌};
ghost use Rattle.script_model.specs.Script.{IsScript};

use script_model::Op;
use std::marker::Model;

/// The operations of a session: at most 65,536, with the fields that the grammar of scripts allows.
#[derive(Debug, Drop)]
pub struct Script {
    ops: Vec<Op>,
}

impl Model for Script {
    ghost use Rattle.std.specs.Prelude.{List};
    ghost use Rattle.script_model.specs.declared.op.Op.{Op};
    ghost use Rattle.script_model.specs.Script.{IsScript};

    ghost Value = { List Op };

    ghost view = { λ s. s.ops.items };

    ghost invariant = { λ s. IsScript s.ops.items };
}

impl Script {
    /// The script of these operations. It takes no memory.
    pub fn new(ops: Vec<Op>) -> Script
        requires { IsScript ops.items }
        ensures { result ≡ ops.items }
    {
        Script { ops }
    }

    /// Its operations. It takes no memory.
    pub fn into_ops(self) -> Vec<Op>
        ensures ops { result.items ≡ self }
        ensures lawful { IsScript self }
    {
        self.ops
    }
}
