ghost use Rattle.std.specs.Prelude.{◌≡◌, ◌<◌, ◌+◌, ◌*◌, ◌/◌, ◌%◌, [], ◌∷◌, ◌++◌, length, IfOk, OnOk};
ghost use Rattle.coding_model.specs.NameCoding.{coded, letter as letter_of};

use crate::letters::letter;
use std::alloc::{AllocError, Global};

/// The letters of some octets: 8 bits of an octet after another, 6 bits a letter, the highest bit first, with zero bits behind them up
/// to a multiple of 24.
pub fn encode(alloc: Global, octets: &[u8]) -> Result<Vec<u8>, AllocError>
    ensures { IfOk result (λ letters. letters.items ≡ coded octets.now) }
{
    let mut letters = Vec::with_capacity(alloc, octets.len().div_ceil(3) * 4)?;
    let mut rest = octets;
    'groups: while let [a, b, c, behind @ ..] = rest {
        letters.extend_from_slice(&four_letters(*a, *b, *c))?;
        rest = behind;
    }
    push_last(&mut letters, rest)?;
    Ok(letters)
}

// The letters of fewer than three octets.
fn push_last(letters: &mut Vec<u8>, rest: &[u8]) -> Result<(), AllocError>
    requires { length rest.now < 3 }
    ensures { OnOk result (letters.new.items ≡ letters.old.items ++ coded rest.now) }
{
    match rest {
        [a] => letters.extend_from_slice(&four_letters(*a, 0, 0)),
        [a, b] => letters.extend_from_slice(&four_letters(*a, *b, 0)),
        _ => Ok(()),
    }
}

fn four_letters(a: u8, b: u8, c: u8) -> [u8; 4]
    ensures { result ≡ letter_of (a / 4) ∷ letter_of (a % 4 * 16 + b / 16) ∷ letter_of (b % 16 * 4 + c / 64) ∷ letter_of (c % 64) ∷ [] }
{
    [
        letter(a / 4),
        letter(a % 4 * 16 + b / 16),
        letter(b % 16 * 4 + c / 64),
        letter(c % 64),
    ]
}
