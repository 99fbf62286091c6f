ghost use Rattle.std.specs.Prelude.{◌≡◌, [], ◌∷◌, ◌++◌, Ok, Err, IfOk, IfErr, slice_get};
ghost use Rattle.tree_model.specs.PlainTree.{kind_or_file};
ghost use Rattle.tree_model.specs.Walk.{dir_of, target_in, walk, entry_of, kind_of, comes_by};

use lower_model::Kind;
use tree_model::{Directory, Parts, Place, TreeRefusal};

/// The directory at a number.
pub fn directory(places: &[Place], at: u32) -> Result<&Directory, TreeRefusal>
    ensures ok { IfOk result (λ d. dir_of (slice_get places.now at) ≡ Ok d.now) }
    ensures err { IfErr result (λ refusal. dir_of (slice_get places.now at) ≡ Err refusal) }
{
    match places.get(at as usize) {
        Some(Place::Dir(d)) => Ok(d),
        Some(Place::File) => Err(TreeRefusal::NotDir),
        Some(Place::Nothing) => Err(TreeRefusal::NotFound),
        None => Err(TreeRefusal::NotFound),
    }
}

/// What has a name in the directory at a number.
pub fn target_in(places: &[Place], at: u32, name: &[u8]) -> Result<Option<u32>, TreeRefusal>
    ensures { result ≡ target_in (slice_get places.now at) name.now }
{
    Ok(directory(places, at)?.shown.get(name))
}

/// The node of a name in the directory at a number.
pub fn entry(places: &[Place], at: u32, name: &[u8]) -> Result<u32, TreeRefusal>
    ensures { result ≡ entry_of (slice_get places.now at) name.now }
{
    target_in(places, at, name)?.ok_or(TreeRefusal::NotFound)
}

/// The node that these names lead to from the root.
pub fn walked(places: &[Place], parts: Parts<'_>) -> Result<u32, TreeRefusal>
    ensures { result ≡ walk places.now 0 parts.entry }
{
    let mut at = 0u32;
    let mut rest = parts;
    while let Some((name, behind)) = rest.split_first() {
        at = entry(places, at, name)?;
        rest = behind;
    }
    Ok(at)
}

/// What a list tells of the node at a number.
pub fn kind(places: &[Place], node: u32) -> Kind
    ensures { result ≡ kind_or_file (kind_of (slice_get places.now node)) }
{
    match places.get(node as usize) {
        Some(Place::Dir(_)) => Kind::Dir,
        _ => Kind::File,
    }
}

/// The directory that these names lead to from the root, and the node that a further name has in it.
pub fn walked_to(places: &[Place], above: Parts<'_>, name: &[u8]) -> Result<(u32, u32), TreeRefusal>
    ensures ok { IfOk result (λ end. (walk places.now 0 above.entry ≡ Ok end.0) × (walk places.now 0 (above.entry ++ name.now ∷ []) ≡ Ok end.1)) }
    ensures err { IfErr result (λ refusal. walk places.now 0 (above.entry ++ name.now ∷ []) ≡ Err refusal) }
{
    let dir = walked(places, above)?;
    let node = entry(places, dir, name)?;
    Ok((dir, node))
}

/// The node that these names lead to from the root, and whether they lead by a node, their end included.
pub fn walked_by(places: &[Place], node: u32, parts: Parts<'_>) -> Result<(u32, bool), TreeRefusal>
    ensures ok { IfOk result (λ end. (walk places.now 0 parts.entry ≡ Ok end.0) × (comes_by places.now node 0 parts.entry ≡ end.1)) }
    ensures err { IfErr result (λ refusal. walk places.now 0 parts.entry ≡ Err refusal) }
{
    let mut at = 0u32;
    let mut by = false;
    let mut rest = parts;
    while let Some((name, behind)) = rest.split_first() {
        by = by || at == node;
        at = entry(places, at, name)?;
        rest = behind;
    }
    Ok((at, by || at == node))
}
