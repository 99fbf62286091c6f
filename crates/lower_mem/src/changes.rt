ghost use Rattle.std.specs.Prelude.{◌≡◌, ℕ, OnOk, OnErr};
ghost use Rattle.names_model.specs.declared.limits.TheConstants.{LONGEST_PLAIN_NAME};
ghost use Rattle.names_model.specs.StoreCalls.{created, removed, renamed, CanCreate, CanRemove, CanRename};
ghost use Rattle.lower_mem.specs.Names.{store_in, HasNoForeign};

use crate::places::{node_in, shown_in};
use lower_tree::Kind;
use plain_tree::Tree;
use std::alloc::{AllocError, Global};
use tree_model::{Change, EntryName, Moving, Name, Removal, Spare};

/// Makes an entry, and its node. Without memory the names stay.
pub fn create(
    alloc: Global,
    tree: &mut Tree,
    dir: u32,
    name: &[u8],
    kind: Kind,
    node: u32,
) -> Result<(), AllocError>
    requires { CanCreate (store_in tree.old.places) dir name.now node }
    ensures ok { OnOk result ((k : ℕ) → store_in tree.new.places k ≡ created (store_in tree.old.places) dir name.now (record { kind = kind; node = node }) k) }
    ensures err { OnErr result ((k : ℕ) → store_in tree.new.places k ≡ store_in tree.old.places k) }
    ensures limit { tree.new.limit ≡ tree.old.limit }
    ensures foreign { HasNoForeign tree.old.places → HasNoForeign tree.new.places }
{
    let _places = tree.places();
    let name = Name::from_slice(alloc, name)?;
    tree.grow(node + 1);
    tree.enter(dir, name, kind, node)?;
    Ok(())
}

/// Removes an entry, and its node. Without memory the names stay.
pub fn remove(
    alloc: Global,
    tree: &mut Tree,
    dir: u32,
    name: &[u8],
    spare: &mut Spare,
) -> Result<(), AllocError>
    requires can { CanRemove (store_in tree.old.places) dir name.now }
    requires foreign { HasNoForeign tree.old.places }
    ensures ok { OnOk result ((k : ℕ) → store_in tree.new.places k ≡ removed (store_in tree.old.places) dir name.now k) }
    ensures err { OnErr result (tree.new ≡ tree.old) }
    ensures limit { tree.new.limit ≡ tree.old.limit }
    ensures foreign { HasNoForeign tree.new.places }
{
    let Some(node) = node_in(tree.places(), dir, name) else {
        unreachable!()
    };
    let name = Name::from_slice(alloc, name)?;
    tree.change(alloc, Change::Remove(Removal { dir, name, node }), spare);
    Ok(())
}

/// Moves an entry. Without memory the names stay.
pub fn rename(
    alloc: Global,
    tree: &mut Tree,
    from: u32,
    was: &[u8],
    to: u32,
    name: &[u8],
    spare: &mut Spare,
) -> Result<(), AllocError>
    requires can { CanRename (store_in tree.old.places) from was.now to name.now }
    requires foreign { HasNoForeign tree.old.places }
    requires limit { tree.old.limit ≡ LONGEST_PLAIN_NAME }
    ensures ok { OnOk result ((k : ℕ) → store_in tree.new.places k ≡ renamed (store_in tree.old.places) from was.now to name.now k) }
    ensures err { OnErr result (tree.new ≡ tree.old) }
    ensures limit { tree.new.limit ≡ tree.old.limit }
    ensures foreign { HasNoForeign tree.new.places }
{
    let places = tree.places();
    let Some(node) = node_in(places, from, was) else {
        unreachable!()
    };
    let target = node_in(places, to, name);
    spare.reserve(shown_in(places, to).len() + 1)?;
    let was = Name::from_slice(alloc, was)?;
    let name = EntryName::new(alloc, Name::from_slice(alloc, name)?)?;
    let moving = Moving {
        from,
        was,
        node,
        to,
        name,
        target,
    };
    tree.change(alloc, Change::Move(moving), spare);
    Ok(())
}
