ghost use Rattle.std.specs.Prelude.{◌≡◌, ◌<◌, ◌+◌, ◌*◌, ◌/◌, ◌%◌, [], ◌∷◌, length, IfOk, IfSome, IsTrue, is_ok, ◌==◌};
ghost use Rattle.std.specs.List.{position};
ghost use Rattle.answer_model.specs.Answer.{GivesAs};
ghost use Rattle.coding_model.specs.NameCoding.{decoded, octets_of as octets_coded, letter_value, AreLetters};
ghost use Rattle.name_coding.specs.Decoding.{fault_in as fault_of_decoded, fault_of};

use crate::error::CodingError;
use crate::letters::{NO_LETTER, value};
use names_model::CodingFault;
use std::alloc::{AllocError, Global};

/// The octets of some letters. `Length` exactly where their number isn't a multiple of 4, else `Letter` with the first octet that is
/// none of the 64, and its index. Memory runs out only where there is no fault.
pub fn decode(alloc: Global, letters: &[u8]) -> Result<Vec<u8>, CodingError>
    ensures { GivesAs (λ octets. octets.items) fault_of (IsTrue (is_ok (decoded letters.now))) result (decoded letters.now) }
{
    match fault_in(letters) {
        Some(fault) => Err(CodingError::Fault(fault)),
        None => Ok(octets_of(alloc, letters)?),
    }
}

fn fault_in(letters: &[u8]) -> Option<CodingFault>
    ensures { result ≡ fault_of_decoded (decoded letters.now) }
{
    if letters.len() % 4 != 0 {
        return Some(CodingFault::Length(letters.len()));
    }
    match first_other(letters) {
        Some(index) => Some(CodingFault::Letter(index, letters[index])),
        None => None,
    }
}

// The index of the first octet that is no letter.
fn first_other(letters: &[u8]) -> Option<usize>
    ensures first { result ≡ position (λ c. letter_value c == 64) letters.now }
    ensures within { IfSome result (λ index. index < length letters.now) }
{
    letters
        .iter()
        .position(|letter| value(*letter) == NO_LETTER)
}

fn octets_of(alloc: Global, letters: &[u8]) -> Result<Vec<u8>, AllocError>
    requires whole { length letters.now % 4 ≡ 0 }
    requires letters { AreLetters letters.now }
    ensures { IfOk result (λ octets. octets.items ≡ octets_coded letters.now) }
{
    let mut octets = Vec::with_capacity(alloc, letters.len() / 4 * 3)?;
    let mut rest = letters;
    'groups: while let [a, b, c, d, behind @ ..] = rest {
        octets.extend_from_slice(&three_octets(value(*a), value(*b), value(*c), value(*d)))?;
        rest = behind;
    }
    Ok(octets)
}

fn three_octets(a: u8, b: u8, c: u8, d: u8) -> [u8; 3]
    requires first { a < 64 }
    requires second { b < 64 }
    requires third { c < 64 }
    requires fourth { d < 64 }
    ensures { result ≡ (a * 4 + b / 16) ∷ (b % 16 * 16 + c / 4) ∷ (c % 4 * 64 + d) ∷ [] }
{
    [a * 4 + b / 16, b % 16 * 16 + c / 4, c % 4 * 64 + d]
}
