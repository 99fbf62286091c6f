ghost use Rattle.std.specs.Prelude.{◌≡◌, ◌<◌, ℕ, length, IfOk, Some};
ghost use Rattle.std.specs.Int.{w16, w32};
ghost use Rattle.std.specs.Option.{option_copied};
ghost use Rattle.image_model.specs.ImageReading.{number_at, octets_at, level_at, kind_at, name_at, attribute_at, body_at, file_octets_at, entry_in, entry_at, Entry};
ghost use Rattle.lower_image.specs.FieldErrors.{Gives};

use crate::error::{FieldError, wrong};
use image_model::ImageKind;
use lower_tree::{Items, Kind, LONGEST_ATTRIBUTE, LowerNode, OpenDir, comes_before, is_name};
use std::alloc::{AllocError, Global};

fn u16_at(octets: &[u8]) -> Result<(u16, &[u8]), FieldError>
    ensures { Gives (λ x. (x.0, x.1.now)) result (number_at w16 octets.now) }
{
    match octets.split_first_chunk::<2>() {
        Some((front, rest)) => Ok((u16::from_be_bytes(*front), rest)),
        None => Err(wrong(ImageKind::Cut, octets)),
    }
}

pub fn u32_at(octets: &[u8]) -> Result<(u32, &[u8]), FieldError>
    ensures { Gives (λ x. (x.0, x.1.now)) result (number_at w32 octets.now) }
{
    match octets.split_first_chunk::<4>() {
        Some((front, rest)) => Ok((u32::from_be_bytes(*front), rest)),
        None => Err(wrong(ImageKind::Cut, octets)),
    }
}

fn slice_at(count: usize, octets: &[u8]) -> Result<(&[u8], &[u8]), FieldError>
    ensures { Gives (λ x. (x.0.now, x.1.now)) result (octets_at count octets.now) }
{
    if octets.len() < count {
        return Err(wrong(ImageKind::Cut, octets));
    }
    Ok(octets.split_at(count))
}

#[tactic(auto, unfolding(image_model::specs::ImageReading::level_at))]
fn level_of(depth: usize, octets: &[u8]) -> Result<(usize, &[u8]), FieldError>
    ensures level { Gives (λ x. (x.0, x.1.now)) result (level_at depth octets.now) }
    ensures open { IfOk result (λ x. x.0 < depth) }
{
    let (level, rest) = u16_at(octets)?;
    let level = level as usize;
    if 0 < level && level <= depth {
        Ok((level - 1, rest))
    } else {
        Err(wrong(ImageKind::Level, octets))
    }
}

#[tactic(auto, unfolding(image_model::specs::ImageReading::kind_at))]
fn kind_of(octets: &[u8]) -> Result<(Kind, &[u8]), FieldError>
    ensures { Gives (λ x. (x.0, x.1.now)) result (kind_at octets.now) }
{
    match octets {
        [] => Err(wrong(ImageKind::Cut, octets)),
        [0, rest @ ..] => Ok((Kind::Dir, rest)),
        [1, rest @ ..] => Ok((Kind::File, rest)),
        [_, ..] => Err(wrong(ImageKind::Kind, octets)),
    }
}

#[tactic(auto, unfolding(image_model::specs::ImageReading::name_at))]
fn name_of<'a>(last: &[u8], octets: &'a [u8]) -> Result<(&'a [u8], &'a [u8]), FieldError>
    ensures { Gives (λ x. (x.0.now, x.1.now)) result (name_at last.now octets.now) }
{
    match octets {
        [] => Err(wrong(ImageKind::Cut, octets)),
        [0, ..] => Err(wrong(ImageKind::NameLength, octets)),
        [len, rest @ ..] => {
            let (name, behind) = slice_at(*len as usize, rest)?;
            if !is_name(name) {
                return Err(wrong(ImageKind::Name, rest));
            }
            if !comes_before(last, name) {
                return Err(wrong(ImageKind::Order, rest));
            }
            Ok((name, behind))
        }
    }
}

#[tactic(auto, unfolding(image_model::specs::ImageReading::attribute_at))]
fn attribute_of(octets: &[u8]) -> Result<(Option<&[u8]>, &[u8]), FieldError>
    ensures { Gives (λ x. (option_copied x.0, x.1.now)) result (attribute_at octets.now) }
{
    match octets {
        [] => Err(wrong(ImageKind::Cut, octets)),
        [0, rest @ ..] => Ok((None, rest)),
        [1, rest @ ..] => {
            let (len, behind) = u32_at(rest)?;
            if len as usize > LONGEST_ATTRIBUTE {
                return Err(wrong(ImageKind::AttributeLength, rest));
            }
            let (attribute, behind) = slice_at(len as usize, behind)?;
            Ok((Some(attribute), behind))
        }
        [_, ..] => Err(wrong(ImageKind::Flag, octets)),
    }
}

#[tactic(auto, unfolding(image_model::specs::ImageReading::body_at))]
fn body_of(octets: &[u8]) -> Result<(&[u8], &[u8]), FieldError>
    ensures { Gives (λ x. (x.0.now, x.1.now)) result (body_at octets.now) }
{
    let (len, rest) = u32_at(octets)?;
    slice_at(len as usize, rest)
}

/// The attribute and the body of a node.
#[derive(Drop)]
struct FileOctets {
    attribute: Option<Items<u8>>,
    body: Items<u8>,
}

fn attribute_copy(alloc: Global, attribute: Option<&[u8]>) -> Result<Option<Items<u8>>, AllocError>
    ensures { IfOk result (λ copy. copy ≡ option_copied attribute.entry) }
{
    match attribute {
        None => Ok(None),
        Some(octets) => Ok(Some(Items::from_slice(alloc, octets)?)),
    }
}

#[tactic(auto, unfolding(image_model::specs::ImageReading::file_octets_at))]
fn file_octets_of(
    alloc: Global,
    kind: Kind,
    octets: &[u8],
) -> Result<(FileOctets, &[u8]), FieldError>
    ensures { Gives (λ x. (record { attribute = x.0.attribute; body = x.0.body }, x.1.now)) result (file_octets_at kind octets.now) }
{
    match kind {
        Kind::Dir => Ok((
            FileOctets {
                attribute: None,
                body: Items::new(alloc),
            },
            octets,
        )),
        Kind::File => {
            let (attribute, rest) = attribute_of(octets)?;
            let (body, rest) = body_of(rest)?;
            let attribute = attribute_copy(alloc, attribute)?;
            let body = Items::from_slice(alloc, body)?;
            Ok((FileOctets { attribute, body }, rest))
        }
    }
}

fn entry_below<'a>(
    alloc: Global,
    parent: &OpenDir,
    octets: &'a [u8],
) -> Result<(LowerNode, &'a [u8]), FieldError>
    ensures { (level : ℕ) → Gives (λ x. (record { node = x.0; level = level }, x.1.now)) result (entry_in level (Some parent.now) octets.now) }
{
    let (kind, rest) = kind_of(octets)?;
    let (name, rest) = name_of(parent.last.as_slice(), rest)?;
    let (held, rest) = file_octets_of(alloc, kind, rest)?;
    let name = Items::from_slice(alloc, name)?;
    let FileOctets { attribute, body } = held;
    let node = LowerNode {
        parent: parent.node,
        kind,
        name,
        attribute,
        body,
    };
    Ok((node, rest))
}

/// The entry that begins here, with the index of its directory among the open ones, and the octets behind it.
#[tactic(auto, unfolding(image_model::specs::ImageReading::entry_at))]
pub fn entry_of<'a>(
    alloc: Global,
    path: &[OpenDir],
    octets: &'a [u8],
) -> Result<(LowerNode, usize, &'a [u8]), FieldError>
    ensures { Gives (λ x. (record { node = x.0; level = x.1 }, x.2.now)) result (entry_at path.now octets.now) }
{
    let (level, rest) = level_of(path.len(), octets)?;
    let (node, rest) = entry_below(alloc, &path[level], rest)?;
    Ok((node, level, rest))
}
