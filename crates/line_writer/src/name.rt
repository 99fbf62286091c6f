ghost use Rattle.std.specs.Prelude.{◌≡◌, ◌++◌, ◌∷◌, [], OnOk, OnErr};
ghost use Rattle.octet_model.specs.Octets.{BeginsWith};
ghost use Rattle.std.specs.List.{flat_map};
ghost use Rattle.text_model.specs.Line.{name_octet, name, slash_name, path as path_text};

use std::alloc::AllocError;
use text_model::{are_plain, is_plain};
use tree_model::Parts;

fn put_octet(out: &mut Vec<u8>, c: u8) -> Result<(), AllocError>
    ensures ok { OnOk result (out.new.items ≡ out.old.items ++ name_octet c) }
    ensures err { OnErr result (BeginsWith out.new.items out.old.items) }
{
    if is_plain(c) {
        out.push(c)?;
        return Ok(());
    }
    let mut digits = [0; 2];
    hex::encode_to_slice([c], &mut digits).unwrap();
    out.push(b'%')?;
    out.extend_from_slice(&digits)
}

/// Adds a name: `!` to `~` stand for themselves, but for `%` and the slash, and every other octet
/// is spelled `%` and its two lower-case hexadecimal digits.
pub fn put_name(out: &mut Vec<u8>, octets: &[u8]) -> Result<(), AllocError>
    ensures ok { OnOk result (out.new.items ≡ out.old.items ++ name octets.now) }
    ensures err { OnErr result (BeginsWith out.new.items out.old.items) }
{
    for c in octets {
        put_octet(out, *c)?;
    }
    Ok(())
}

// Names whose octets don't all stand for themselves.
fn put_each_part(out: &mut Vec<u8>, parts: Parts<'_>) -> Result<(), AllocError>
    ensures ok { OnOk result (out.new.items ≡ out.old.items ++ flat_map slash_name parts.entry) }
    ensures err { OnErr result (BeginsWith out.new.items out.old.items) }
{
    let mut rest = parts;
    while let Some((name, others)) = rest.split_first() {
        out.push(b'/')?;
        put_name(out, name)?;
        rest = others;
    }
    Ok(())
}

fn put_parts(out: &mut Vec<u8>, parts: Parts<'_>) -> Result<(), AllocError>
    ensures ok { OnOk result (out.new.items ≡ out.old.items ++ flat_map slash_name parts.entry) }
    ensures err { OnErr result (BeginsWith out.new.items out.old.items) }
{
    let octets = parts.octets();
    if are_plain(octets) {
        out.extend_from_slice(octets)?;
        return Ok(());
    }
    put_each_part(out, parts)
}

/// Adds a path: a slash for the root, or a slash and a name for each of its parts.
pub fn put_path(out: &mut Vec<u8>, path: Parts<'_>) -> Result<(), AllocError>
    ensures ok { OnOk result (out.new.items ≡ out.old.items ++ path_text path.entry) }
    ensures err { OnErr result (BeginsWith out.new.items out.old.items) }
{
    if path.is_empty() {
        out.push(b'/')?;
        return Ok(());
    }
    put_parts(out, path)
}

/// Adds the path of an entry: that of its directory, and its name.
pub fn put_entry_path(
    out: &mut Vec<u8>,
    directory: Parts<'_>,
    name: &[u8],
) -> Result<(), AllocError>
    ensures ok { OnOk result (out.new.items ≡ out.old.items ++ path_text (directory.entry ++ name.now ∷ [])) }
    ensures err { OnErr result (BeginsWith out.new.items out.old.items) }
{
    put_parts(out, directory)?;
    out.push(b'/')?;
    put_name(out, name)
}
