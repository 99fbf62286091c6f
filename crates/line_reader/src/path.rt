ghost use Rattle.std.specs.Prelude.{◌≡◌, ◌==◌, IfOk};
ghost use Rattle.std.specs.List.{slice_split};
ghost use Rattle.text_model.specs.Line.{path};
ghost use Rattle.tree_model.specs.Path.{IsPath};
ghost use Rattle.reading_model.specs.Fields.{Reads, name_in, each_in, path_in};

use crate::cut_at;
use crate::name::name_of;
use std::alloc::{AllocError, Global};
use text_model::are_plain;
use tree_model::Path;

fn names_of(alloc: Global, text: &[u8]) -> Result<Option<Path>, AllocError>
    ensures { IfOk result (λ found. found ≡ each_in name_in (slice_split (λ c. c == 47) text.now)) }
{
    let mut path = Path::with_room(alloc, text.len() + 1)?;
    let mut room = Vec::new(alloc);
    let mut rest = text;
    'parts: while let Some((part, behind)) = cut_at(b'/', rest) {
        let Some(name) = name_of(room, part)? else {
            return Ok(None);
        };
        path.push(&name)?;
        room = name.into_octets();
        room.clear();
        rest = behind;
    }
    let Some(name) = name_of(room, rest)? else {
        return Ok(None);
    };
    path.push(&name)?;
    Ok(Some(path))
}

#[tactic(auto, unfolding(reading_model::specs::Fields::path_in))]
fn path_of(alloc: Global, text: &[u8]) -> Result<Option<Path>, AllocError>
    ensures { IfOk result (λ found. found ≡ path_in text.now) }
{
    match text {
        [] => Ok(None),
        [first, spelled @ ..] => {
            if !(*first == b'/') {
                return Ok(None);
            }
            if spelled.is_empty() {
                return Ok(Some(Path::root(alloc)));
            }
            if are_plain(text) {
                return Path::from_octets(alloc, text);
            }
            names_of(alloc, spelled)
        }
    }
}

/// The path that a text spells.
pub fn read_path(alloc: Global, text: &[u8]) -> Result<Option<Path>, AllocError>
    ensures reads { IfOk result (λ found. Reads path IsPath text.now found) }
    ensures value { IfOk result (λ found. found ≡ path_in text.now) }
{
    path_of(alloc, text)
}
