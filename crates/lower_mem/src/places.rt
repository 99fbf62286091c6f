ghost use Rattle.std.specs.Prelude.{◌≡◌, Some, None, IfOk, length, map, slice_get};
ghost use Rattle.tree_model.specs.PlainTree.{shown_in};
ghost use Rattle.tree_model.specs.IsTree.{node_in};
ghost use Rattle.names_model.specs.Store.{lower_name};
ghost use Rattle.lower_mem.specs.Names.{link, links};

use lower_tree::{Items, Kind, LowerName};
use std::alloc::{AllocError, Global};
use tree_model::{Entry, Place};

/// What a name has in the directory at a number.
pub fn node_in(places: &[Place], dir: u32, name: &[u8]) -> Option<u32>
    ensures { result ≡ node_in (slice_get places.now dir) name.now }
{
    match places.get(dir as usize) {
        Some(Place::Dir(d)) => d.shown.get(name),
        _ => None,
    }
}

/// The entries of the directory at a number.
pub fn shown_in(places: &[Place], dir: u32) -> &[Entry]
    ensures { result.now ≡ shown_in (slice_get places.now dir) }
{
    match places.get(dir as usize) {
        Some(Place::Dir(d)) => d.shown.entries(),
        _ => &[],
    }
}

fn kind(places: &[Place], node: u32) -> Kind
    ensures { result ≡ (link places.now node).kind }
{
    match places.get(node as usize) {
        Some(Place::Dir(_)) => Kind::Dir,
        _ => Kind::File,
    }
}

fn listed_entry(alloc: Global, places: &[Place], entry: &Entry) -> Result<LowerName, AllocError>
    ensures { IfOk result (λ listed. listed ≡ lower_name (entry.now.0, link places.now entry.now.1)) }
{
    Ok(LowerName {
        name: Items::from_slice(alloc, entry.name().octets())?,
        kind: kind(places, entry.node()),
        node: entry.node(),
    })
}

/// The entries of a directory as data.
pub fn lower_names(
    alloc: Global,
    places: &[Place],
    entries: &[Entry],
) -> Result<Items<LowerName>, AllocError>
    ensures { IfOk result (λ listed. listed ≡ map lower_name (links places.now entries.now)) }
{
    let mut listed = Items::new(alloc);
    for entry in entries {
        listed.push(listed_entry(alloc, places, entry)?)?;
    }
    Ok(listed)
}
