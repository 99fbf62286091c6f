ghost use Rattle.std.specs.Prelude.{◌≡◌, [], ◌<◌, ◌-◌, ◌^◌, min, sum_by, Some, None, Ok, map, length, slice_get, IfOk, OnOk, IsTrue};
ghost use Rattle.lower_model.specs.Name.{is_name};
ghost use Rattle.tree_model.specs.declared.change.Change.TheVariants.{Move};
ghost use Rattle.tree_model.specs.declared.change.Prepared.TheVariants as prepared;
ghost use Rattle.tree_model.specs.Walk.{front, last};
ghost use Rattle.tree_model.specs.PlainTree.{shown_in, shown_entry, make, goes, changes, rmdir, unlink, goes_to, rename, names_in, resolve, stat, tested, comes_to};
ghost use Rattle.plain_tree.specs.Prepared.{TestsFor, PreparesFor, HasRoom, IfChange};

use crate::room::{empty_at, file_at, fits_file, fits_name, fits_place, room};
use crate::walk::{directory, entry, kind, target_in, walked, walked_by, walked_to};
use lower_model::Kind;
use std::alloc::{AllocError, Global};
use tree_model::{
    Change, DirListing, Directory, EntryName, Making, Moving, Name, Parts, Path, Place, Prepared,
    Removal, Renaming, Spare, TreeCall, TreeRefusal, TreeReply,
};

/// How many octets the names of a directory have in all, as far as that can be counted.
fn octets_of_names(d: &Directory) -> usize
    ensures { result ≡ min (sum_by (λ e. length e.0) d.now.shown) (2 ^ 64 - 1) }
{
    let mut octets = 0usize;
    for entry in d.shown.entries() {
        octets = octets.saturating_add(entry.name().octets().len());
    }
    octets
}

/// The entries of a directory as a list tells them.
fn shown_entries(alloc: Global, places: &[Place], d: &Directory) -> Result<DirListing, AllocError>
    ensures { IfOk result (λ found. found ≡ map (shown_entry places.now) d.now.shown) }
{
    let entries = d.shown.entries();
    let mut found = DirListing::with_room(alloc, entries.len(), octets_of_names(d))?;
    for entry in entries {
        found.push(kind(places, entry.node()), entry.name())?;
    }
    Ok(found)
}

fn answer(reply: TreeReply) -> Result<Prepared, TreeRefusal>
    ensures { result ≡ Ok (prepared.Answer reply) }
{
    Ok(Prepared::Answer(reply))
}

/// The name of a new entry, copied.
fn entry_name(alloc: Global, name: &[u8]) -> Result<EntryName, AllocError>
    requires { IsTrue (is_name name.now) }
    ensures { IfOk result (λ n. n ≡ name.now) }
{
    let name = Name::from_slice(alloc, name)?;
    EntryName::new(alloc, name)
}

fn make(
    alloc: Global,
    limit: usize,
    places: &[Place],
    kind: Kind,
    path: &Path,
) -> Result<Prepared, TreeRefusal>
    ensures { TestsFor result (make (record { limit = limit; places = places.now }) kind (front path.now) (last path.now)) }
{
    let Some((name, parents)) = path.parts().split_last() else {
        return Err(TreeRefusal::IsRoot);
    };
    let dir = room(limit, places, parents, name)?;
    let Ok(name) = entry_name(alloc, name) else {
        return answer(TreeReply::Memory);
    };
    Ok(Prepared::Change(Change::Make(Making { dir, name, kind })))
}

fn goes(alloc: Global, dir: u32, name: &[u8], node: u32) -> Result<Prepared, TreeRefusal>
    requires { IsTrue (is_name name.now) }
    ensures { TestsFor result (goes dir name.now node) }
{
    let Ok(name) = Name::from_slice(alloc, name) else {
        return answer(TreeReply::Memory);
    };
    Ok(Prepared::Change(Change::Remove(Removal { dir, name, node })))
}

fn rmdir(alloc: Global, places: &[Place], path: &Path) -> Result<Prepared, TreeRefusal>
    ensures { TestsFor result (rmdir places.now (front path.now) (last path.now)) }
{
    let Some((name, parents)) = path.parts().split_last() else {
        return Err(TreeRefusal::IsRoot);
    };
    let dir = walked(places, parents)?;
    let node = entry(places, dir, name)?;
    empty_at(places, node)?;
    goes(alloc, dir, name, node)
}

fn unlink(alloc: Global, places: &[Place], path: &Path) -> Result<Prepared, TreeRefusal>
    ensures { TestsFor result (unlink places.now (front path.now) (last path.now)) }
{
    let Some((name, parents)) = path.parts().split_last() else {
        return Err(TreeRefusal::IsDir);
    };
    let dir = walked(places, parents)?;
    let node = entry(places, dir, name)?;
    file_at(places, node)?;
    goes(alloc, dir, name, node)
}

fn moves(
    alloc: Global,
    from: u32,
    was: &[u8],
    node: u32,
    to: u32,
    name: &[u8],
    target: Option<u32>,
) -> Result<Prepared, TreeRefusal>
    requires was { IsTrue (is_name was.now) }
    requires name { IsTrue (is_name name.now) }
    ensures { TestsFor result (changes (Move (record { from = from; was = was.now; node = node; to = to; name = name.now; target = target }))) }
{
    let Ok(was) = Name::from_slice(alloc, was) else {
        return answer(TreeReply::Memory);
    };
    let Ok(name) = entry_name(alloc, name) else {
        return answer(TreeReply::Memory);
    };
    Ok(Prepared::Change(Change::Move(Moving {
        from,
        was,
        node,
        to,
        name,
        target,
    })))
}

/// Why the root doesn't get this name in the directory that these names lead to.
fn root_fits(places: &[Place], parents: Parts<'_>, name: &[u8]) -> Result<Prepared, TreeRefusal>
    ensures { result ≡ goes_to places.now [] None 0 parents.entry (Some name.now) }
{
    let to = walked(places, parents)?;
    let target = target_in(places, to, name)?;
    fits_file(places, 0, target)?;
    Err(TreeRefusal::IsRoot)
}

fn rename(
    alloc: Global,
    limit: usize,
    places: &[Place],
    paths: &Renaming,
) -> Result<Prepared, TreeRefusal>
    ensures { TestsFor result (rename (record { limit = limit; places = places.now }) paths.now.old paths.now.new) }
{
    let Some((name, parents)) = paths.new().split_last() else {
        let _node = walked(places, paths.old())?;
        return Err(TreeRefusal::IsRoot);
    };
    if limit < name.len() {
        return Err(TreeRefusal::NameLong);
    }
    let Some((was, above)) = paths.old().split_last() else {
        return root_fits(places, parents, name);
    };
    let (from, node) = walked_to(places, above, was)?;
    let (to, below) = walked_by(places, node, parents)?;
    let target = target_in(places, to, name)?;
    fits_file(places, node, target)?;
    fits_name(places, to, name, node, target)?;
    if target == Some(node) {
        return answer(TreeReply::Done);
    }
    fits_place(places, node, below, target)?;
    moves(alloc, from, was, node, to, name, target)
}

fn list(alloc: Global, places: &[Place], path: &Path) -> Result<Prepared, TreeRefusal>
    ensures { TestsFor result (names_in places.now path.now) }
{
    let at = walked(places, path.parts())?;
    match shown_entries(alloc, places, directory(places, at)?) {
        Ok(names) => answer(TreeReply::Names(names)),
        Err(_) => answer(TreeReply::Memory),
    }
}

fn resolve(places: &[Place], path: &Path) -> Result<Prepared, TreeRefusal>
    ensures { result ≡ resolve places.now path.now }
{
    let at = walked(places, path.parts())?;
    file_at(places, at)?;
    answer(TreeReply::Node(at))
}

fn stat(places: &[Place], path: &Path) -> Result<Prepared, TreeRefusal>
    ensures { result ≡ stat places.now path.now }
{
    let at = walked(places, path.parts())?;
    answer(TreeReply::Info(kind(places, at), at))
}

fn tested(
    alloc: Global,
    limit: usize,
    places: &[Place],
    call: &TreeCall,
) -> Result<Prepared, TreeRefusal>
    ensures { TestsFor result (tested (record { limit = limit; places = places.now }) call.now) }
{
    match call {
        TreeCall::Resolve(path) => resolve(places, path),
        TreeCall::Create(path) => make(alloc, limit, places, Kind::File, path),
        TreeCall::Mkdir(path) => make(alloc, limit, places, Kind::Dir, path),
        TreeCall::Rmdir(path) => rmdir(alloc, places, path),
        TreeCall::Unlink(path) => unlink(alloc, places, path),
        TreeCall::Rename(paths) => rename(alloc, limit, places, paths),
        TreeCall::List(path) => list(alloc, places, path),
        TreeCall::Stat(path) => stat(places, path),
    }
}

/// One more than what the directory at a number shows.
fn one_more(places: &[Place], at: u32) -> usize
    ensures { length (shown_in (slice_get places.now at)) < result }
{
    match places.get(at as usize) {
        Some(Place::Dir(d)) => d.shown.entries().len() + 1,
        _ => 1,
    }
}

/// Sees that a change has room. Without memory the room stays.
fn reserve(places: &[Place], change: &Change, spare: &mut Spare) -> Result<(), AllocError>
    ensures { OnOk result (HasRoom places.now change.now spare.new) }
{
    match change {
        Change::Make(m) => spare.reserve(one_more(places, m.dir)),
        Change::Remove(_) => Ok(()),
        Change::Move(m) => spare.reserve(one_more(places, m.to)),
    }
}

/// What a call comes to, with room for it where it is a change.
pub fn prepared(
    alloc: Global,
    limit: usize,
    places: &[Place],
    call: &TreeCall,
    spare: &mut Spare,
) -> Prepared
    ensures value { PreparesFor result (comes_to (record { limit = limit; places = places.now }) call.now) }
    ensures room { IfChange result (λ change. HasRoom places.now change spare.new) }
{
    match tested(alloc, limit, places, call) {
        Ok(Prepared::Change(change)) => match reserve(places, &change, spare) {
            Ok(()) => Prepared::Change(change),
            Err(_) => Prepared::Answer(TreeReply::Memory),
        },
        Ok(Prepared::Answer(reply)) => Prepared::Answer(reply),
        Err(refusal) => Prepared::Answer(TreeReply::Refused(refusal)),
    }
}
