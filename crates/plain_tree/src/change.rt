ghost use Rattle.std.specs.Prelude.{◌≡◌, ◌<◌, ◌≤◌, length, slice_get, slice_set, vec_capacity, IsTrue, OnOk, OnErr};
ghost use Rattle.lower_model.specs.Name.{is_name};
ghost use Rattle.tree_model.specs.declared.place.Place.TheVariants.{Nothing};
ghost use Rattle.tree_model.specs.PlainTree.{most_nodes, empty_directory, begun, placed, taken_out, added, removed, cleared, moved, changed_places, shown_in};
ghost use Rattle.tree_model.specs.IsTree.{IsDirectory};
ghost use Rattle.plain_tree.specs.Entered.{place_with_foreign};
ghost use Rattle.plain_tree.specs.Prepared.{HasRoom, MayChange, MayClear, IsLawful};

use lower_model::{Items, Kind};
use std::alloc::{AllocError, Global};
use tree_model::{
    Change, Directory, EntryName, ForeignEntry, Making, Moving, Name, Names, Place, Spare,
};

/// A directory without entries. It takes no memory.
pub fn empty_directory(alloc: Global) -> Directory
    ensures { result ≡ empty_directory }
{
    Directory {
        shown: Names::new(alloc),
        foreign: Items::new(alloc),
    }
}

/// What stands at the number of a new node. It takes no memory.
pub fn begun(alloc: Global, kind: Kind) -> Place
    ensures { result ≡ begun kind }
{
    match kind {
        Kind::Dir => Place::Dir(empty_directory(alloc)),
        Kind::File => Place::File,
    }
}

/// Puts an entry into the directory at a number. Without memory the places stay.
pub fn put_in(places: &mut Vec<Place>, at: u32, name: Name, node: u32) -> Result<(), AllocError>
    requires { IsDirectory (slice_get places.old.items at) }
    ensures ok { OnOk result (places.new.items ≡ placed places.old.items at name node) }
    ensures err { OnErr result (places.new.items ≡ places.old.items) }
    ensures capacity { vec_capacity places.new ≡ vec_capacity places.old }
    ensures lawful { IsTrue (is_name name) }
{
    if let Place::Dir(d) = &mut places[at as usize] {
        d.shown.insert(name, node)?;
    }
    Ok(())
}

/// Adds a foreign entry to the directory at a number. Without memory the places stay.
pub fn put_foreign(places: &mut Vec<Place>, at: u32, entry: ForeignEntry) -> Result<(), AllocError>
    requires { IsDirectory (slice_get places.old.items at) }
    ensures ok { OnOk result (places.new.items ≡ slice_set places.old.items at (place_with_foreign entry (slice_get places.old.items at))) }
    ensures err { OnErr result (places.new.items ≡ places.old.items) }
    ensures capacity { vec_capacity places.new ≡ vec_capacity places.old }
{
    if let Place::Dir(d) = &mut places[at as usize] {
        d.foreign.push(entry)?;
    }
    Ok(())
}

/// Puts an entry into the directory at a number. It takes no memory.
fn put(places: &mut Vec<Place>, at: u32, name: EntryName, node: u32, spare: &mut Spare)
    requires directory { IsDirectory (slice_get places.old.items at) }
    requires room { length (shown_in (slice_get places.old.items at)) < spare.old }
    ensures items { places.new.items ≡ placed places.old.items at name node }
    ensures capacity { vec_capacity places.new ≡ vec_capacity places.old }
    ensures lawful { IsTrue (is_name name) }
{
    if let Place::Dir(d) = &mut places[at as usize] {
        d.shown.insert_with(name, node, spare);
    }
}

/// Takes an entry out of the directory at a number.
fn take(places: &mut Vec<Place>, at: u32, name: &[u8])
    requires { IsDirectory (slice_get places.old.items at) }
    ensures items { places.new.items ≡ taken_out places.old.items at name.now }
    ensures capacity { vec_capacity places.new ≡ vec_capacity places.old }
{
    if let Place::Dir(d) = &mut places[at as usize] {
        d.shown.remove(name);
    }
}

/// Nothing stands at a number any more.
fn end(places: &mut Vec<Place>, node: u32)
    requires { node < length places.old.items }
    ensures items { places.new.items ≡ slice_set places.old.items node Nothing }
    ensures capacity { vec_capacity places.new ≡ vec_capacity places.old }
{
    places[node as usize] = Place::Nothing;
}

fn make(alloc: Global, places: &mut Vec<Place>, m: Making, spare: &mut Spare)
    requires directory { IsDirectory (slice_get places.old.items m.dir) }
    requires room { length (shown_in (slice_get places.old.items m.dir)) < spare.old }
    requires few { length places.old.items < most_nodes }
    requires capacity { most_nodes ≤ vec_capacity places.old }
    ensures items { places.new.items ≡ added places.old.items m.dir m.name (begun m.kind) }
    ensures capacity { most_nodes ≤ vec_capacity places.new }
    ensures lawful { IsTrue (is_name m.name) }
{
    let node = places.len() as u32;
    let place = begun(alloc, m.kind);
    put(places, m.dir, m.name, node, spare);
    places.push(place).unwrap();
}

fn remove(places: &mut Vec<Place>, at: u32, name: &[u8], node: u32)
    requires directory { IsDirectory (slice_get places.old.items at) }
    requires within { node < length places.old.items }
    ensures items { places.new.items ≡ removed places.old.items at name.now node }
    ensures capacity { vec_capacity places.new ≡ vec_capacity places.old }
{
    take(places, at, name);
    end(places, node);
}

fn clear(places: &mut Vec<Place>, at: u32, name: &[u8], target: Option<u32>)
    requires { MayClear places.old.items at target }
    ensures items { places.new.items ≡ cleared places.old.items at name.now target }
    ensures capacity { vec_capacity places.new ≡ vec_capacity places.old }
{
    if let Some(node) = target {
        remove(places, at, name, node);
    }
}

fn put_elsewhere(places: &mut Vec<Place>, m: Moving, spare: &mut Spare)
    requires clears { MayClear places.old.items m.to m.target }
    requires from { IsDirectory (slice_get (cleared places.old.items m.to m.name m.target) m.from) }
    requires to { IsDirectory (slice_get (taken_out (cleared places.old.items m.to m.name m.target) m.from m.was) m.to) }
    requires room { length (shown_in (slice_get (taken_out (cleared places.old.items m.to m.name m.target) m.from m.was) m.to)) < spare.old }
    ensures items { places.new.items ≡ moved places.old.items m }
    ensures capacity { vec_capacity places.new ≡ vec_capacity places.old }
    ensures lawful { IsTrue (is_name m.name) }
{
    clear(places, m.to, m.name.octets(), m.target);
    take(places, m.from, m.was.octets());
    put(places, m.to, m.name, m.node, spare);
}

/// Makes a change for which there is room. It takes no memory.
pub fn apply(alloc: Global, places: &mut Vec<Place>, change: Change, spare: &mut Spare)
    requires may { MayChange places.old.items change }
    requires room { HasRoom places.old.items change spare.old }
    requires capacity { most_nodes ≤ vec_capacity places.old }
    ensures items { places.new.items ≡ changed_places places.old.items change }
    ensures capacity { most_nodes ≤ vec_capacity places.new }
    ensures lawful { IsLawful change }
{
    match change {
        Change::Make(m) => make(alloc, places, m, spare),
        Change::Remove(r) => remove(places, r.dir, r.name.octets(), r.node),
        Change::Move(m) => put_elsewhere(places, m, spare),
    }
}
