ghost use Rattle.std.specs.Prelude.{◌≡◌, ◌<◌, [], ◌∷◌, length, IfOk, IfSome};
ghost use Rattle.std.specs.Option.{option_map};
ghost use Rattle.text_model.specs.Line.{name};
ghost use Rattle.reading_model.specs.Fields.{Reads, IsName, IsFirstOctet, escaped_in, octets_in, name_in};

use crate::read_hex_array;
use std::alloc::{AllocError, Global};
use text_model::is_plain;
use tree_model::Name;

// The octet that the two digits behind a percent sign spell.
fn escaped_octet(digits: &[u8]) -> Option<u8>
    ensures { result ≡ escaped_in digits.now }
{
    let [octet] = read_hex_array::<1>(digits)?;
    if is_plain(octet) { None } else { Some(octet) }
}

// The octet whose digits stand behind a percent sign, and what stands behind them.
fn octet_behind_percent(text: &[u8]) -> Option<(u8, &[u8])>
    ensures octet { IsFirstOctet (37 ∷ text.now) (option_map (λ x. (x.0, x.1.now)) result) }
    ensures shorter { IfSome result (λ x. length x.1.now < length text.now) }
{
    if text.len() < 2 {
        return None;
    }
    let (digits, rest) = text.split_at(2);
    let Some(octet) = escaped_octet(digits) else {
        return None;
    };
    Some((octet, rest))
}

// The octet whose spelling a text begins with, and what stands behind it.
fn first_octet(text: &[u8]) -> Option<(u8, &[u8])>
    requires { 0 < length text.now }
    ensures octet { IsFirstOctet text.now (option_map (λ x. (x.0, x.1.now)) result) }
    ensures shorter { IfSome result (λ x. length x.1.now < length text.now) }
{
    match text {
        [] => None,
        [first, rest @ ..] => {
            if is_plain(*first) {
                return Some((*first, rest));
            }
            if *first == b'%' {
                return octet_behind_percent(rest);
            }
            None
        }
    }
}

// In this room.
fn octets_of(room: Vec<u8>, text: &[u8]) -> Result<Option<Vec<u8>>, AllocError>
    requires { room.items ≡ [] }
    ensures { IfOk result (λ found. option_map (λ v. v.items) found ≡ octets_in text.now) }
{
    let mut octets = room;
    let mut rest = text;
    while !rest.is_empty() {
        let Some((octet, behind)) = first_octet(rest) else {
            return Ok(None);
        };
        octets.push(octet)?;
        rest = behind;
    }
    Ok(Some(octets))
}

// The name that a text spells, in this room, so that many names are read in one.
pub(crate) fn name_of(room: Vec<u8>, text: &[u8]) -> Result<Option<Name>, AllocError>
    requires { room.items ≡ [] }
    ensures { IfOk result (λ found. found ≡ name_in text.now) }
{
    match octets_of(room, text)? {
        Some(octets) => Ok(Name::new(octets).ok()),
        None => Ok(None),
    }
}

/// The name that a text spells.
pub fn read_name(alloc: Global, text: &[u8]) -> Result<Option<Name>, AllocError>
    ensures reads { IfOk result (λ found. Reads name IsName text.now found) }
    ensures value { IfOk result (λ found. found ≡ name_in text.now) }
{
    name_of(Vec::new(alloc), text)
}
