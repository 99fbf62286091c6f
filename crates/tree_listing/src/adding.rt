ghost use Rattle.std.specs.Prelude.{◌≡◌, ◌<◌, ◌++◌, length, IfOk, OnOk};
ghost use Rattle.std.specs.List.{AllByRecursion};
ghost use Rattle.tree_model.specs.IsTree.{IsTree};
ghost use Rattle.tree_model.specs.Listing.{ListsTree, NumbersRise, LeadsToNode, foreign_items};
ghost use Rattle.tree_listing.specs.Adding.{path_at, IsIndex, AddsListing};

use lower_model::Items;
use std::alloc::{AllocError, Global};
use tree_model::{ForeignEntry, Listed, Path, Place};

/// The path of the directory whose item has this index; the root has no item.
fn path_of(alloc: Global, items: &[Listed], directory: Option<usize>) -> Result<Path, AllocError>
    requires { IsIndex directory items.now }
    ensures { IfOk result (λ path. path ≡ path_at items.now directory) }
{
    let Some(index) = directory else {
        return Ok(Path::root(alloc));
    };
    match &items[index] {
        Listed::Shown(path, _) => path.copied(alloc),
        Listed::Foreign(path, _, _) => path.copied(alloc),
    }
}

/// Adds the foreign entries of a directory, in their order.
fn add_foreign(
    alloc: Global,
    foreign: &[ForeignEntry],
    directory: Option<usize>,
    items: &mut Vec<Listed>,
) -> Result<(), AllocError>
    requires { IsIndex directory items.old.items }
    ensures { OnOk result (items.new.items ≡ items.old.items ++ foreign_items (path_at items.old.items directory) foreign.now) }
{
    for entry in foreign {
        let path = path_of(alloc, items, directory)?;
        let lower = Items::from_slice(alloc, entry.lower.as_slice())?;
        items.push(Listed::Foreign(path, lower, entry.node))?;
    }
    Ok(())
}

/// Adds the listing of the directory at a number; a file has none. Its entries have greater numbers, so that this ends.
fn add_directory(
    alloc: Global,
    places: &[Place],
    number: u32,
    directory: Option<usize>,
    items: &mut Vec<Listed>,
) -> Result<(), AllocError>
    requires tree { IsTree places.now }
    requires rise { NumbersRise places.now }
    requires within { number < length places.now }
    requires index { IsIndex directory items.old.items }
    ensures { OnOk result (AddsListing places.now number (path_at items.old.items directory) items.old.items items.new.items) }
{
    let Place::Dir(dir) = &places[number as usize] else {
        return Ok(());
    };
    for entry in dir.shown.entries() {
        let mut path = path_of(alloc, items, directory)?;
        path.push(entry.name())?;
        let index = items.len();
        items.push(Listed::Shown(path, entry.node()))?;
        add_directory(alloc, places, entry.node(), Some(index), items)?;
    }
    add_foreign(alloc, dir.foreign.as_slice(), directory, items)
}

/// The listing of the plain tree with these places: the entries of a directory in octet order of their names, each
/// directory followed at once by its own entries, and behind them its foreign entries, below which nothing is listed.
pub fn listing(alloc: Global, places: &[Place]) -> Result<Vec<Listed>, AllocError>
    requires tree { IsTree places.now }
    requires rise { NumbersRise places.now }
    ensures listed { IfOk result (λ items. ListsTree places.now items.items) }
    ensures nodes { IfOk result (λ items. AllByRecursion (LeadsToNode places.now) items.items) }
{
    let mut items = Vec::new(alloc);
    add_directory(alloc, places, 0, None, &mut items)?;
    Ok(items)
}
