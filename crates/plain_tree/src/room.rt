ghost use Rattle.std.specs.Prelude.{◌≡◌, Some, slice_get};
ghost use Rattle.std.specs.List.{list_any};
ghost use Rattle.std.specs.Option.{option_copied};
ghost use Rattle.tree_model.specs.PlainTree.{is_dir, is_file, file_of, empty_at, has_nothing, is_bare, place_there, is_blocked_at, is_taken, blocks_name, fits_file, fits_name, fits_place, may_get, room_for};

use crate::walk::{directory, walked};
use tree_model::{Directory, ForeignEntry, MOST_NODES, Parts, Place, TreeRefusal};

fn is_blocked(foreign: &[ForeignEntry], name: &[u8]) -> bool
    ensures { result ≡ list_any (blocks_name name.now) foreign.now }
{
    foreign.iter().any(|entry| match &entry.blocks {
        Some(blocked) => name.cmp(blocked.octets()).is_eq(),
        None => false,
    })
}

fn is_taken(d: &Directory, name: &[u8]) -> bool
    ensures { result ≡ is_taken d.now name.now }
{
    d.shown.get(name).is_some() || is_blocked(d.foreign.as_slice(), name)
}

fn has_nothing(d: &Directory) -> bool
    ensures { result ≡ has_nothing d.now }
{
    d.shown.entries().is_empty() && d.foreign.is_empty()
}

/// Whether a foreign entry of the directory at a number blocks a name.
fn is_blocked_at(places: &[Place], at: u32, name: &[u8]) -> bool
    ensures { result ≡ is_blocked_at (slice_get places.now at) name.now }
{
    match places.get(at as usize) {
        Some(Place::Dir(d)) => is_blocked(d.foreign.as_slice(), name),
        _ => false,
    }
}

/// What stands at the number of an entry, where there is one.
fn place_there(places: &[Place], target: Option<u32>) -> Option<&Place>
    ensures { option_copied result ≡ place_there places.now target }
{
    places.get(target? as usize)
}

fn is_dir(place: Option<&Place>) -> bool
    ensures { result ≡ is_dir (option_copied place.entry) }
{
    matches!(place, Some(Place::Dir(_)))
}

fn is_file(place: Option<&Place>) -> bool
    ensures { result ≡ is_file (option_copied place.entry) }
{
    matches!(place, Some(Place::File))
}

/// A file stands at the number.
pub fn file_at(places: &[Place], node: u32) -> Result<(), TreeRefusal>
    ensures { result ≡ file_of (slice_get places.now node) }
{
    match places.get(node as usize) {
        Some(Place::Dir(_)) => Err(TreeRefusal::IsDir),
        Some(Place::File) => Ok(()),
        Some(Place::Nothing) => Err(TreeRefusal::NotFound),
        None => Err(TreeRefusal::NotFound),
    }
}

/// A directory with no entry stands at the number.
pub fn empty_at(places: &[Place], node: u32) -> Result<(), TreeRefusal>
    ensures { result ≡ empty_at places.now node }
{
    if has_nothing(directory(places, node)?) {
        Ok(())
    } else {
        Err(TreeRefusal::NotEmpty)
    }
}

/// A directory doesn't go onto a file.
pub fn fits_file(places: &[Place], node: u32, target: Option<u32>) -> Result<(), TreeRefusal>
    ensures { result ≡ fits_file places.now node target }
{
    if is_dir(places.get(node as usize)) && is_file(place_there(places, target)) {
        Err(TreeRefusal::NotDir)
    } else {
        Ok(())
    }
}

/// No name is taken that is blocked, and a file doesn't go onto a directory.
pub fn fits_name(
    places: &[Place],
    to: u32,
    name: &[u8],
    node: u32,
    target: Option<u32>,
) -> Result<(), TreeRefusal>
    ensures { result ≡ fits_name places.now to name.now node target }
{
    if target.is_none() && is_blocked_at(places, to, name) {
        Err(TreeRefusal::Exists)
    } else if is_file(places.get(node as usize)) && is_dir(place_there(places, target)) {
        Err(TreeRefusal::IsDir)
    } else {
        Ok(())
    }
}

/// No directory with entries stands at a place.
fn is_bare(place: Option<&Place>) -> bool
    ensures { result ≡ is_bare (option_copied place.entry) }
{
    match place {
        Some(Place::Dir(d)) => has_nothing(d),
        _ => true,
    }
}

/// A directory doesn't go to a place below itself, and goes onto empty ones alone.
pub fn fits_place(
    places: &[Place],
    node: u32,
    below: bool,
    target: Option<u32>,
) -> Result<(), TreeRefusal>
    ensures { result ≡ fits_place places.now node below target }
{
    if is_dir(places.get(node as usize)) && below {
        Err(TreeRefusal::Inside)
    } else if is_bare(place_there(places, target)) {
        Ok(())
    } else {
        Err(TreeRefusal::NotEmpty)
    }
}

/// The directory at a number, if it may get an entry of this name.
fn allowed(places: &[Place], at: u32, name: &[u8]) -> Result<u32, TreeRefusal>
    ensures { result ≡ may_get places.now name.now at }
{
    if is_taken(directory(places, at)?, name) {
        Err(TreeRefusal::Exists)
    } else if places.len() < MOST_NODES as usize {
        Ok(at)
    } else {
        Err(TreeRefusal::NoNodes)
    }
}

/// The directory that a new entry goes to, by the tests in their order.
pub fn room(
    limit: usize,
    places: &[Place],
    parents: Parts<'_>,
    name: &[u8],
) -> Result<u32, TreeRefusal>
    ensures { result ≡ room_for limit places.now parents.entry name.now }
{
    if limit < name.len() {
        return Err(TreeRefusal::NameLong);
    }
    let at = walked(places, parents)?;
    allowed(places, at, name)
}
