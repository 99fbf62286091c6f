ghost use Rattle.name_form.specs.FormOf.{form_of};
ghost use Rattle.turn_order.specs.GoesOn.{GoesOn};

use lower_tree::LowerNames;
use name_form::NameForm;
use namespace::Names;
use session_run::TreePart;
use std::alloc::{AllocError, Global};
use tree_model::{TreeCall, TreeReply};
use turn_lock::Link;

/// The tree over lower names, as a session uses it.
#[derive(Drop)]
pub struct MountedTree<N: LowerNames, U: NameForm> {
    /// The tree with the log of its turns.
    pub names: Names<N, U>,
}

impl<N: LowerNames, U: NameForm> TreePart for MountedTree<N, U> {
    ghost log = { λ t. t.names.log };

    ghost lawful = { λ opening t. GoesOn N.held (form_of (U.upper opening.names.form) (U.written opening.names.form) (U.longest opening.names.form)) opening.names t.names };

    fn call(
        &mut self,
        alloc: Global,
        session: u32,
        op: u32,
        call: TreeCall,
    ) -> Result<TreeReply, AllocError> {
        let link = Link::new(alloc)?;
        Ok(self.names.step(alloc, link, session, op, call))
    }
}
