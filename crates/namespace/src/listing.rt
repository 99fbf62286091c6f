ghost use Rattle.std.specs.Prelude.{◌≡◌, ◌<◌, ◌≤◌, ◌+◌, ◌∷◌, ◌-◌, ℕ, true, length, replicate, IfOk, IfSome, OnOk};
ghost use Rattle.tree_model.specs.declared.place.Place.TheVariants.{Dir, Nothing};
ghost use Rattle.tree_model.specs.PlainTree.{most_nodes, empty_directory};
ghost use Rattle.name_form.specs.FormOf.{form_of};
ghost use Rattle.lower_tree.specs.Calls.{HasCause};
ghost use Rattle.names_model.specs.Store.{HoldsTree};
ghost use Rattle.opening_model.specs.Openings.{IsOpenedTo, CountsNodes, ShowsTree, next_node};

use crate::opening::{enter_all, is_directory};
use lower_model::{Items, Kind};
use lower_tree::{Linked, LowerError, LowerName, LowerNames};
use name_form::NameForm;
use plain_tree::Tree;
use std::alloc::{AllocError, Global};
use tree_model::MOST_NODES;

/// What the last of the entries of a directory leads to: a node behind that directory, below the most that there may be.
fn next_node(entries: &[LowerName], last: u32) -> Option<Linked>
    ensures value { result ≡ next_node last entries.now }
    ensures rises { IfSome result (λ l. (last < l.node) × (l.node < most_nodes)) }
{
    let e = entries.last()?;
    if last < e.node && e.node < MOST_NODES {
        Some(Linked {
            kind: e.kind,
            node: e.node,
        })
    } else {
        None
    }
}

/// The number of nodes. The last entry of the root, its last entry and so on lead to the greatest number.
fn node_count<N: LowerNames>(alloc: Global, lower: &mut N) -> Result<u32, LowerError>
    requires { (N.held lower.old).told ≡ true → HoldsTree (N.held lower.old).entries }
    ensures counts { IfOk result (λ count. (N.held lower.old).told ≡ true → CountsNodes (N.held lower.old).entries count) }
    ensures bounds { IfOk result (λ count. (1 ≤ count) × (count ≤ most_nodes)) }
    ensures stays { (N.held lower.old).told ≡ true → (k : ℕ) → (N.held lower.new).entries k ≡ (N.held lower.old).entries k }
    ensures told { (N.held lower.new).told ≡ (N.held lower.old).told }
    ensures cause { HasCause (N.held lower.old).faults (N.held lower.new).faults result }
{
    let mut last = 0u32;
    'down: loop {
        let entries = lower.list(alloc, last)?;
        let Some(next) = next_node(entries.as_slice(), last) else {
            return Ok(last + 1);
        };
        match next.kind {
            Kind::Dir => last = next.node,
            Kind::File => return Ok(next.node + 1),
        }
    }
}

/// A tree with a place for each of so many nodes, of which the root alone is there, and no lower names.
fn unopened(alloc: Global, limit: usize, count: u32) -> Result<(Tree, Vec<Items<u8>>), AllocError>
    requires { (1 ≤ count) × (count ≤ most_nodes) }
    ensures tree { IfOk result (λ o. o.0 ≡ record { limit = limit; places = Dir empty_directory ∷ replicate (count - 1) Nothing }) }
    ensures size { IfOk result (λ o. length o.1.items ≡ count) }
{
    let tree = Tree::new(alloc, limit, count)?;
    let mut kept = Vec::with_capacity(alloc, count as usize)?;
    'fill: for i in 0..count {
        kept.push(Items::new(alloc))?;
    }
    Ok((tree, kept))
}

/// Lists the directory with a number, if one stands there, and enters its lower names.
fn open_directory<N: LowerNames, U: NameForm>(
    alloc: Global,
    lower: &mut N,
    form: &U,
    tree: &mut Tree,
    kept: &mut Vec<Items<u8>>,
    number: u32,
) -> Result<(), LowerError>
    requires within { number < length tree.old.places }
    requires size { length kept.old.items ≡ length tree.old.places }
    requires holds { (N.held lower.old).told ≡ true → HoldsTree (N.held lower.old).entries }
    requires opened { (N.held lower.old).told ≡ true → IsOpenedTo (form_of (U.upper form.now) (U.written form.now) (U.longest form.now)) (N.held lower.old).entries number (record { tree = tree.old; kept = kept.old.items }) }
    ensures opened { OnOk result ((N.held lower.old).told ≡ true → IsOpenedTo (form_of (U.upper form.now) (U.written form.now) (U.longest form.now)) (N.held lower.old).entries (number + 1) (record { tree = tree.new; kept = kept.new.items })) }
    ensures stays { (N.held lower.old).told ≡ true → (k : ℕ) → (N.held lower.new).entries k ≡ (N.held lower.old).entries k }
    ensures told { (N.held lower.new).told ≡ (N.held lower.old).told }
    ensures cause { HasCause (N.held lower.old).faults (N.held lower.new).faults result }
    ensures places { length tree.new.places ≡ length tree.old.places }
    ensures names { length kept.new.items ≡ length kept.old.items }
    ensures limit { tree.new.limit ≡ tree.old.limit }
{
    if !is_directory(tree.places(), number) {
        return Ok(());
    }
    let listed = lower.list(alloc, number)?;
    match enter_all(alloc, form, tree, kept, number, listed.as_slice()) {
        Ok(()) => Ok(()),
        Err(_) => Err(LowerError::Memory),
    }
}

/// Lists each directory that is shown, by rising number.
fn open_all<N: LowerNames, U: NameForm>(
    alloc: Global,
    lower: &mut N,
    form: &U,
    tree: &mut Tree,
    kept: &mut Vec<Items<u8>>,
) -> Result<(), LowerError>
    requires few { length tree.old.places ≤ most_nodes }
    requires size { length kept.old.items ≡ length tree.old.places }
    requires holds { (N.held lower.old).told ≡ true → HoldsTree (N.held lower.old).entries }
    requires opened { (N.held lower.old).told ≡ true → IsOpenedTo (form_of (U.upper form.now) (U.written form.now) (U.longest form.now)) (N.held lower.old).entries 0 (record { tree = tree.old; kept = kept.old.items }) }
    ensures shows { OnOk result ((N.held lower.old).told ≡ true → ShowsTree (form_of (U.upper form.now) (U.written form.now) (U.longest form.now)) (N.held lower.old).entries tree.new kept.new.items) }
    ensures stays { (N.held lower.old).told ≡ true → (k : ℕ) → (N.held lower.new).entries k ≡ (N.held lower.old).entries k }
    ensures told { (N.held lower.new).told ≡ (N.held lower.old).told }
    ensures cause { HasCause (N.held lower.old).faults (N.held lower.new).faults result }
    ensures places { length tree.new.places ≡ length tree.old.places }
    ensures names { length kept.new.items ≡ length kept.old.items }
    ensures limit { tree.new.limit ≡ tree.old.limit }
{
    let count = tree.places().len() as u32;
    for number in 0..count {
        open_directory(alloc, lower, form, tree, kept, number)?;
    }
    Ok(())
}

/// The tree that a store shows under a form, and the lower name of each node.
pub fn opened<N: LowerNames, U: NameForm>(
    alloc: Global,
    lower: &mut N,
    form: &U,
) -> Result<(Tree, Vec<Items<u8>>), LowerError>
    requires { (N.held lower.old).told ≡ true → HoldsTree (N.held lower.old).entries }
    ensures shows { IfOk result (λ o. (N.held lower.old).told ≡ true → ShowsTree (form_of (U.upper form.now) (U.written form.now) (U.longest form.now)) (N.held lower.old).entries o.0 o.1.items) }
    ensures limit { IfOk result (λ o. o.0.limit ≡ U.longest form.now) }
    ensures size { IfOk result (λ o. length o.1.items ≡ length o.0.places) }
    ensures stays { (N.held lower.old).told ≡ true → (k : ℕ) → (N.held lower.new).entries k ≡ (N.held lower.old).entries k }
    ensures told { (N.held lower.new).told ≡ (N.held lower.old).told }
    ensures cause { HasCause (N.held lower.old).faults (N.held lower.new).faults result }
{
    let count = node_count(alloc, lower)?;
    let Ok((mut tree, mut kept)) = unopened(alloc, form.limit(), count) else {
        return Err(LowerError::Memory);
    };
    open_all(alloc, lower, form, &mut tree, &mut kept)?;
    Ok((tree, kept))
}
