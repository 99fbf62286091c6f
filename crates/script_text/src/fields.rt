ghost use Rattle.std.specs.Prelude.{◌≡◌, ◌∷◌, IfOk};
ghost use Rattle.std.specs.Option.{option_copied};
ghost use Rattle.reading_model.specs.OpReading.{fields_in, fields_behind, only_field as only_field_test, path_alone, path_pair};

use line_reader::{cut_at, read_path};
use std::alloc::{AllocError, Global};
use tree_model::Path;

/// The first field of a text, and what stands behind the blank that follows it, where one does.
pub(crate) fn first_field(text: &[u8]) -> (&[u8], Option<&[u8]>)
    ensures { result.0.now ∷ fields_behind (option_copied result.1) ≡ fields_in text.now }
{
    match cut_at(b' ', text) {
        Some((field, behind)) => (field, Some(behind)),
        None => (text, None),
    }
}

/// The field of a text that has one alone.
pub(crate) fn only_field(text: Option<&[u8]>) -> Option<&[u8]>
    ensures { option_copied result ≡ only_field_test (fields_behind (option_copied text.entry)) }
{
    match first_field(text?) {
        (field, None) => Some(field),
        (_, Some(_)) => None,
    }
}

/// A path, and nothing behind it.
pub(crate) fn read_alone(alloc: Global, text: Option<&[u8]>) -> Result<Option<Path>, AllocError>
    ensures { IfOk result (λ found. found ≡ path_alone (fields_behind (option_copied text.entry))) }
{
    match only_field(text) {
        Some(field) => read_path(alloc, field),
        None => Ok(None),
    }
}

/// Two paths.
pub(crate) fn read_pair(
    alloc: Global,
    text: Option<&[u8]>,
) -> Result<Option<(Path, Path)>, AllocError>
    ensures { IfOk result (λ found. found ≡ path_pair (fields_behind (option_copied text.entry))) }
{
    let Some(text) = text else {
        return Ok(None);
    };
    let (field, behind) = first_field(text);
    let Some(first) = read_path(alloc, field)? else {
        return Ok(None);
    };
    let Some(second) = read_alone(alloc, behind)? else {
        return Ok(None);
    };
    Ok(Some((first, second)))
}
