ghost use Rattle.std.specs.Prelude.{◌≡◌, IfOk};
ghost use Rattle.std.specs.List.{list_all};
ghost use Rattle.octet_model.specs.Octets.{AreOctets, HasOctets};
ghost use Rattle.text_model.specs.Line.{hex};
ghost use Rattle.reading_model.specs.Fields.{Reads, is_no_capital, hex_in, sized_hex_in};

use hex::{FromHex, FromHexError};
use lower_model::Items;
use std::alloc::{AllocError, Global};

// The digits that `hex` takes are those of a text here, but for capitals.
fn has_no_capital(text: &[u8]) -> bool
    ensures { result ≡ list_all is_no_capital text.now }
{
    text.iter().all(|c| !(b'A' <= *c && *c <= b'Z'))
}

#[tactic(auto, using(reading_model::proofs::HexReader::hex_in_refused))]
fn octets_of(alloc: Global, text: &[u8]) -> Result<Option<Items<u8>>, AllocError>
    ensures { IfOk result (λ found. found ≡ hex_in text.now) }
{
    if !has_no_capital(text) {
        return Ok(None);
    }
    match hex::decode(alloc, text) {
        Ok(octets) => Ok(Some(Items::from_vec(octets))),
        Err(FromHexError::OutOfMemory) => Err(AllocError),
        Err(_) => Ok(None),
    }
}

/// The octets that a text spells in lower-case hexadecimal, two digits each.
pub fn read_hex(alloc: Global, text: &[u8]) -> Result<Option<Items<u8>>, AllocError>
    ensures reads { IfOk result (λ found. Reads hex AreOctets text.now found) }
    ensures value { IfOk result (λ found. found ≡ hex_in text.now) }
{
    octets_of(alloc, text)
}

fn array_of<const N: usize>(text: &[u8]) -> Option<[u8; N]>
    ensures { result ≡ sized_hex_in N text.now }
{
    if !has_no_capital(text) {
        return None;
    }
    <[u8; N]>::from_hex(text).ok()
}

/// The octets that a text spells in lower-case hexadecimal, exactly `N` of them.
pub fn read_hex_array<const N: usize>(text: &[u8]) -> Option<[u8; N]>
    ensures reads { Reads hex (HasOctets N) text.now result }
    ensures value { result ≡ sized_hex_in N text.now }
{
    array_of(text)
}
