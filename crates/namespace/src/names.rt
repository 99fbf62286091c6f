ghost use Rattle.std.specs.Prelude.{◌≡◌, ◌++◌, ◌∷◌, ℕ, [], true, IfOk, IfErr};
ghost use Rattle.tree_model.specs.IsTree.{IsTree};
ghost use Rattle.tree_model.specs.Listing.{NumbersRise};
ghost use Rattle.name_form.specs.FormOf.{form_of};
ghost use Rattle.session_model.specs.TreeLog.{IsTurn};
ghost use Rattle.namespace_model.specs.Carried.{Keeps, Stays};
ghost use Rattle.names_model.specs.Store.{HoldsTree};
ghost use Rattle.names_model.specs.StoreCalls.{IsStoreTree};
ghost use Rattle.opening_model.specs.Openings.{ShowsTree};
ghost use Rattle.namespace.specs.NamesFault.{IsNamesFault};

use crate::NamesFault;
use crate::copy::told_twice;
use crate::listing::opened;
use crate::state::State;
use lower_tree::{LowerError, LowerNames};
use name_form::NameForm;
use plain_tree::{Spare, TreeCall, TreeReply};
use session_model::TreeEntry;
use std::alloc::Global;
use std::marker::Model;
use tree_model::Place;
use turn_lock::{Chain, Link};

/// A plain tree over lower names, under a form of names, with the log of its turns.
#[derive(Debug, Drop)]
pub struct Names<N: LowerNames, U: NameForm> {
    state: State<N, U>,
    log: Chain<TreeEntry>,
}

impl<N: LowerNames, U: NameForm> Model for Names<N, U> {
    ghost use Rattle.std.specs.Prelude.{◌≡◌, true, length};
    ghost use Rattle.name_form.specs.FormOf.{form_of};
    ghost use Rattle.namespace_model.specs.Carried.{Keeps};
    ghost use Rattle.namespace.specs.Namespace.{Namespace};

    ghost Value = { Namespace N U };

    ghost view = { λ n. record { tree = n.state.tree; kept = n.state.kept.items; lower = n.state.lower; form = n.state.form; log = n.log } };

    ghost invariant = { λ n. record {
      limit : n.state.tree.limit ≡ U.longest n.state.form;
      size : length n.state.kept.items ≡ length n.state.tree.places;
      keeps : (N.held n.state.lower).told ≡ true → Keeps (form_of (U.upper n.state.form) (U.written n.state.form) (U.longest n.state.form)) n.state.tree.places n.state.kept.items (N.held n.state.lower).entries;
    } };
}

impl<N: LowerNames, U: NameForm> Names<N, U> {
    /// What a store shows under a form, as it is opened. Where it doesn't tell what it holds, entries that no tree could have are passed over.
    pub fn new(alloc: Global, mut lower: N, form: U) -> Result<Names<N, U>, NamesFault<N, U>>
        requires { (N.held lower).told ≡ true → HoldsTree (N.held lower).entries }
        ensures empty { IfOk result (λ names. names.log ≡ []) }
        ensures shows { IfOk result (λ names. (N.held lower).told ≡ true → ShowsTree (form_of (U.upper form) (U.written form) (U.longest form)) (N.held lower).entries names.tree names.kept) }
        ensures stays { IfOk result (λ names. (N.held lower).told ≡ true → (k : ℕ) → (N.held names.lower).entries k ≡ (N.held lower).entries k) }
        ensures told { IfOk result (λ names. (N.held names.lower).told ≡ (N.held lower).told) }
        ensures faults { IfOk result (λ names. (N.held names.lower).faults ≡ (N.held lower).faults) }
        ensures form { IfOk result (λ names. names.form ≡ form) }
        ensures limit { IfOk result (λ names. names.tree.limit ≡ U.longest form) }
        ensures tree { IfOk result (λ names. IsTree names.tree.places) }
        ensures rise { IfOk result (λ names. (N.held lower).told ≡ true → NumbersRise names.tree.places) }
        ensures keeps { IfOk result (λ names. (N.held lower).told ≡ true → Keeps (form_of (U.upper form) (U.written form) (U.longest form)) names.tree.places names.kept (N.held names.lower).entries) }
        ensures fault { IfErr result (IsNamesFault N.held (N.held lower) form) }
    {
        let before = lower.faults();
        match opened(alloc, &mut lower, &form) {
            Ok((tree, kept)) => {
                let _places = tree.places();
                Ok(Names {
                    state: State {
                        lower,
                        form,
                        tree,
                        kept,
                        spare: Spare::new(alloc),
                    },
                    log: Chain::new(),
                })
            }
            Err(LowerError::Failed) => {
                let after = lower.faults();
                Err(NamesFault::Lower {
                    lower,
                    form,
                    before,
                    after,
                })
            }
            Err(LowerError::Memory) => Err(NamesFault::Memory { lower, form }),
        }
    }

    /// What stands at each node number of the tree.
    pub fn places(&self) -> &[Place]
        ensures places { result.now ≡ self.now.tree.places }
        ensures tree { IsTree self.now.tree.places }
    {
        self.state.tree.places()
    }

    /// One call, and its entry in the log.
    pub fn step(
        &mut self,
        alloc: Global,
        link: Link<TreeEntry>,
        session: u32,
        op: u32,
        call: TreeCall,
    ) -> TreeReply
        ensures one { self.new.log ≡ self.old.log ++ record { session = session; op = op; call = call; reply = result; before = (N.held self.old.lower).faults; after = (N.held self.new.lower).faults } ∷ [] }
        ensures turn { IsTurn self.old.tree (record { session = session; op = op; call = call; reply = result; before = (N.held self.old.lower).faults; after = (N.held self.new.lower).faults }) self.new.tree }
        ensures stays { (N.held self.old.lower).told ≡ true → Stays (form_of (U.upper self.old.form) (U.written self.old.form) (U.longest self.old.form)) self.old.tree.places self.old.kept (N.held self.old.lower).entries self.new.tree.places self.new.kept (N.held self.new.lower).entries }
        ensures told { (N.held self.new.lower).told ≡ (N.held self.old.lower).told }
        ensures form { self.new.form ≡ self.old.form }
        ensures limit { self.new.tree.limit ≡ self.old.tree.limit }
    {
        let before = self.state.lower.faults();
        let reply = self.state.turn(alloc, &call);
        let after = self.state.lower.faults();
        let (logged, told) = told_twice(alloc, reply);
        self.log.push(
            link,
            TreeEntry {
                session,
                op,
                call,
                reply: logged,
                before,
                after,
            },
        );
        told
    }

    /// The parts. It takes no memory and makes no call on the lower names.
    pub fn end(self) -> (N, U, Chain<TreeEntry>)
        ensures parts { result ≡ (self.lower, self.form, self.log) }
        ensures limit { self.tree.limit ≡ U.longest self.form }
        ensures tree { IsTree self.tree.places }
        ensures store { (N.held self.lower).told ≡ true → IsStoreTree (N.held self.lower).entries }
        ensures keeps { (N.held self.lower).told ≡ true → Keeps (form_of (U.upper self.form) (U.written self.form) (U.longest self.form)) self.tree.places self.kept (N.held self.lower).entries }
    {
        let _places = self.state.tree.places();
        let Names { state, log } = self;
        let State { lower, form, .. } = state;
        (lower, form, log)
    }
}
