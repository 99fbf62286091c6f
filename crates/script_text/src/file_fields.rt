ghost use Rattle.std.specs.Prelude.{◌≡◌, IfOk};
ghost use Rattle.std.specs.Option.{option_copied, option_map};
ghost use Rattle.reading_model.specs.OpReading.{fields_behind, slot_in, offset_in, is_transfer as transfer_test, transfer_in, written_in, slot_alone, slot_path, slot_size, offset_length, slot_offset_length, offset_octets, slot_offset_octets};

use crate::fields::{first_field, only_field, read_alone};
use line_reader::{read_hex, read_number};
use lower_model::Items;
use script_model::{LONGEST_TRANSFER, OFFSET_LIMIT, SLOTS};
use std::alloc::{AllocError, Global};
use tree_model::Path;

fn slot_of(text: &[u8]) -> Option<u32>
    ensures { result ≡ slot_in text.now }
{
    let slot = read_number(text)?;
    if slot < SLOTS as u64 {
        Some(slot as u32)
    } else {
        None
    }
}

fn offset_of(text: &[u8]) -> Option<u64>
    ensures { result ≡ offset_in text.now }
{
    let offset = read_number(text)?;
    if offset < OFFSET_LIMIT {
        Some(offset)
    } else {
        None
    }
}

fn is_transfer(len: u64) -> bool
    ensures { result ≡ transfer_test len }
{
    1 <= len && len <= LONGEST_TRANSFER as u64
}

fn length_of(text: &[u8]) -> Option<usize>
    ensures { result ≡ transfer_in text.now }
{
    let len = read_number(text)?;
    if is_transfer(len) {
        Some(len as usize)
    } else {
        None
    }
}

fn octets_of(alloc: Global, text: &[u8]) -> Result<Option<Items<u8>>, AllocError>
    ensures { IfOk result (λ found. found ≡ written_in text.now) }
{
    let Some(octets) = read_hex(alloc, text)? else {
        return Ok(None);
    };
    if is_transfer(octets.len() as u64) {
        Ok(Some(octets))
    } else {
        Ok(None)
    }
}

/// A slot, and nothing behind it.
pub(crate) fn read_slot(text: Option<&[u8]>) -> Option<u32>
    ensures { result ≡ slot_alone (fields_behind (option_copied text.entry)) }
{
    slot_of(only_field(text)?)
}

/// A slot and a path.
pub(crate) fn read_slot_path(
    alloc: Global,
    text: Option<&[u8]>,
) -> Result<Option<(u32, Path)>, AllocError>
    ensures { IfOk result (λ found. found ≡ slot_path (fields_behind (option_copied text.entry))) }
{
    let Some(text) = text else {
        return Ok(None);
    };
    let (field, behind) = first_field(text);
    let Some(slot) = slot_of(field) else {
        return Ok(None);
    };
    let Some(path) = read_alone(alloc, behind)? else {
        return Ok(None);
    };
    Ok(Some((slot, path)))
}

/// A slot and a size.
pub(crate) fn read_slot_size(text: Option<&[u8]>) -> Option<(u32, u64)>
    ensures { result ≡ slot_size (fields_behind (option_copied text.entry)) }
{
    let (field, behind) = first_field(text?);
    let slot = slot_of(field)?;
    let size = offset_of(only_field(behind)?)?;
    Some((slot, size))
}

fn offset_length_of(text: Option<&[u8]>) -> Option<(u64, usize)>
    ensures { result ≡ offset_length (fields_behind (option_copied text.entry)) }
{
    let (field, behind) = first_field(text?);
    let offset = offset_of(field)?;
    let len = length_of(only_field(behind)?)?;
    Some((offset, len))
}

/// A slot, an offset and a length.
pub(crate) fn read_slot_offset_length(text: Option<&[u8]>) -> Option<(u32, u64, usize)>
    ensures { option_map (λ x. (x.0, (x.1, x.2))) result ≡ slot_offset_length (fields_behind (option_copied text.entry)) }
{
    let (field, behind) = first_field(text?);
    let slot = slot_of(field)?;
    let (offset, len) = offset_length_of(behind)?;
    Some((slot, offset, len))
}

fn offset_octets_of(
    alloc: Global,
    text: Option<&[u8]>,
) -> Result<Option<(u64, Items<u8>)>, AllocError>
    ensures { IfOk result (λ found. found ≡ offset_octets (fields_behind (option_copied text.entry))) }
{
    let Some(text) = text else {
        return Ok(None);
    };
    let (field, behind) = first_field(text);
    let Some(offset) = offset_of(field) else {
        return Ok(None);
    };
    let Some(field) = only_field(behind) else {
        return Ok(None);
    };
    let Some(octets) = octets_of(alloc, field)? else {
        return Ok(None);
    };
    Ok(Some((offset, octets)))
}

/// A slot, an offset and octets.
pub(crate) fn read_slot_offset_octets(
    alloc: Global,
    text: Option<&[u8]>,
) -> Result<Option<(u32, u64, Items<u8>)>, AllocError>
    ensures { IfOk result (λ found. option_map (λ x. (x.0, (x.1, x.2))) found ≡ slot_offset_octets (fields_behind (option_copied text.entry))) }
{
    let Some(text) = text else {
        return Ok(None);
    };
    let (field, behind) = first_field(text);
    let Some(slot) = slot_of(field) else {
        return Ok(None);
    };
    let Some((offset, octets)) = offset_octets_of(alloc, behind)? else {
        return Ok(None);
    };
    Ok(Some((slot, offset, octets)))
}
