ghost use Rattle.std.specs.Prelude.{◌≡◌, ◌<◌, ◌≤◌, Some, true, length, is_some, map, slice_get, slice_set, IfOk, OnOk, OnErr, IsTrue};
ghost use Rattle.lower_model.specs.Name.{is_name};
ghost use Rattle.names_model.specs.NameForm.{blocked_by};
ghost use Rattle.tree_model.specs.declared.place.Place.TheVariants.{Nothing};
ghost use Rattle.tree_model.specs.PlainTree.{is_dir};
ghost use Rattle.tree_model.specs.IsTree.{IsDirectory, node_in};
ghost use Rattle.name_form.specs.FormOf.{upper_in, form_of};
ghost use Rattle.opening_model.specs.InTurn.{is_free, with_lower, with_lowers};
ghost use Rattle.opening_model.specs.Openings.{told};
ghost use Rattle.plain_tree.specs.Entered.{entered_foreign};

use lower_model::{Items, is_name};
use lower_tree::LowerName;
use name_form::{NameError, NameForm};
use plain_tree::{Name, Tree};
use std::alloc::{AllocError, Global};
use tree_model::Place;

/// The name that a lower name stands for, where it stands for one.
fn upper_name<U: NameForm>(
    alloc: Global,
    form: &U,
    lower: &[u8],
) -> Result<Option<Name>, AllocError>
    requires { IsTrue (is_name lower.now) }
    ensures { IfOk result (λ name. name ≡ upper_in (U.upper form.now lower.now)) }
{
    match form.read(alloc, lower) {
        Ok(upper) => Ok(Name::new(upper.into_vec()).ok()),
        Err(NameError::Fault(_)) => Ok(None),
        Err(NameError::Memory) => Err(AllocError),
    }
}

/// The name that a lower name blocks: the one that would be written so.
fn blocked<U: NameForm>(
    alloc: Global,
    form: &U,
    upper: Option<Name>,
    lower: &[u8],
) -> Result<Option<Name>, AllocError>
    ensures { IfOk result (λ name. name ≡ blocked_by (form_of (U.upper form.now) (U.written form.now) (U.longest form.now)) upper lower.now) }
{
    let Some(name) = upper else {
        return Ok(None);
    };
    if name.octets().len() <= form.limit() {
        let written = form.write(alloc, name.octets())?;
        if written.as_slice().cmp(lower).is_eq() {
            return Ok(Some(name));
        }
    }
    Ok(None)
}

fn is_free(places: &[Place], node: u32) -> bool
    ensures free { result ≡ is_free (slice_get places.now node) }
    ensures within { IsTrue result → node < length places.now }
    ensures nothing { IsTrue result → slice_get places.now node ≡ Some Nothing }
{
    match places.get(node as usize) {
        Some(Place::Dir(_)) => false,
        Some(Place::File) => false,
        Some(Place::Nothing) => true,
        None => false,
    }
}

/// Whether a directory stands at a number.
pub fn is_directory(places: &[Place], number: u32) -> bool
    ensures value { result ≡ is_dir (slice_get places.now number) }
    ensures directory { IsTrue result → IsDirectory (slice_get places.now number) }
{
    matches!(places.get(number as usize), Some(Place::Dir(_)))
}

fn shows(places: &[Place], dir: u32, name: &Name) -> bool
    ensures { result ≡ is_some (node_in (slice_get places.now dir) name.now) }
{
    match places.get(dir as usize) {
        Some(Place::Dir(d)) => d.shown.get(name.octets()).is_some(),
        _ => false,
    }
}

fn enter_foreign<U: NameForm>(
    alloc: Global,
    form: &U,
    tree: &mut Tree,
    dir: u32,
    e: &LowerName,
    upper: Option<Name>,
) -> Result<(), AllocError>
    requires { IsDirectory (slice_get tree.old.places dir) }
    ensures ok { OnOk result (tree.new ≡ entered_foreign tree.old dir (record { lower = e.now.name; node = e.now.node; blocks = blocked_by (form_of (U.upper form.now) (U.written form.now) (U.longest form.now)) upper e.now.name })) }
    ensures err { OnErr result (tree.new ≡ tree.old) }
{
    let blocks = blocked(alloc, form, upper, e.name.as_slice())?;
    let lower = Items::from_slice(alloc, e.name.as_slice())?;
    tree.enter_foreign(dir, lower, e.node, blocks)?;
    Ok(())
}

/// Enters a lower name of the directory at a number. Without memory part of it may be there.
fn enter_lower<U: NameForm>(
    alloc: Global,
    form: &U,
    tree: &mut Tree,
    kept: &mut Vec<Items<u8>>,
    dir: u32,
    e: &LowerName,
) -> Result<(), AllocError>
    requires directory { IsDirectory (slice_get tree.old.places dir) }
    requires size { length kept.old.items ≡ length tree.old.places }
    ensures entered { OnOk result (record { tree = tree.new; kept = kept.new.items } ≡ with_lower (form_of (U.upper form.now) (U.written form.now) (U.longest form.now)) (record { tree = tree.old; kept = kept.old.items }) dir (told e.now)) }
    ensures directory { OnOk result (IsDirectory (slice_get tree.new.places dir)) }
    ensures places { length tree.new.places ≡ length tree.old.places }
    ensures names { length kept.new.items ≡ length kept.old.items }
    ensures limit { tree.new.limit ≡ tree.old.limit }
{
    if !is_free(tree.places(), e.node) || !is_name(e.name.as_slice()) {
        return Ok(());
    }
    match upper_name(alloc, form, e.name.as_slice())? {
        Some(name) => {
            if shows(tree.places(), dir, &name) {
                enter_foreign(alloc, form, tree, dir, e, Some(name))
            } else {
                let lower = Items::from_slice(alloc, e.name.as_slice())?;
                tree.enter(dir, name, e.kind, e.node)?;
                kept[e.node as usize] = lower;
                Ok(())
            }
        }
        None => enter_foreign(alloc, form, tree, dir, e, None),
    }
}

/// Enters the lower names of the directory at a number, in their order. Without memory some of them may be there.
pub fn enter_all<U: NameForm>(
    alloc: Global,
    form: &U,
    tree: &mut Tree,
    kept: &mut Vec<Items<u8>>,
    dir: u32,
    entries: &[LowerName],
) -> Result<(), AllocError>
    requires directory { IsDirectory (slice_get tree.old.places dir) }
    requires size { length kept.old.items ≡ length tree.old.places }
    ensures entered { OnOk result (record { tree = tree.new; kept = kept.new.items } ≡ with_lowers (form_of (U.upper form.now) (U.written form.now) (U.longest form.now)) (record { tree = tree.old; kept = kept.old.items }) dir (map told entries.now)) }
    ensures places { length tree.new.places ≡ length tree.old.places }
    ensures names { length kept.new.items ≡ length kept.old.items }
    ensures limit { tree.new.limit ≡ tree.old.limit }
{
    let mut rest = entries;
    while let Some((e, behind)) = rest.split_first() {
        enter_lower(alloc, form, tree, kept, dir, e)?;
        rest = behind;
    }
    Ok(())
}
