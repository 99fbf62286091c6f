ghost use Rattle.std.specs.Prelude.{◌≡◌, ◌*◌, ◌<◌, ◌≤◌, [], ◌∷◌, ◌++◌, length, slice_index, OnOk, OnErr};
ghost use Rattle.hex.specs.Hex.{lower_digits};
ghost use Rattle.octet_model.specs.Octets.{BeginsWith};
ghost use Rattle.text_model.specs.Line.{number, hex};

use itoa::Buffer;
use std::alloc::AllocError;

/// The most octets whose digits are made at once.
const PIECE: usize = 1024;

/// Adds a field that stands for itself.
pub fn put_word(out: &mut Vec<u8>, word: &str) -> Result<(), AllocError>
    ensures ok { OnOk result (out.new.items ≡ out.old.items ++ word.now) }
    ensures err { OnErr result (out.new.items ≡ out.old.items) }
{
    out.extend_from_slice(word.as_bytes())
}

/// Adds a number in decimal, without a leading zero.
pub fn put_number(out: &mut Vec<u8>, n: u64) -> Result<(), AllocError>
    ensures ok { OnOk result (out.new.items ≡ out.old.items ++ number n) }
    ensures err { OnErr result (out.new.items ≡ out.old.items) }
{
    let mut digits = Buffer::new();
    out.extend_from_slice(digits.format(n).as_bytes())
}

// The digit of a number. It is a sum, not looked up, so that a processor makes many at once.
fn digit(n: u8) -> u8
    requires { n < 16 }
    ensures { result ≡ slice_index lower_digits n }
{
    if n < 10 { b'0' + n } else { b'a' - 10 + n }
}

fn write_digits(octets: &[u8], digits: &mut [u8])
    requires { length digits.old ≡ 2 * length octets.now }
    ensures { digits.new ≡ hex octets.now }
{
    for i in 0..octets.len() {
        digits[2 * i] = digit(octets[i] >> 4);
        digits[2 * i + 1] = digit(octets[i] & 0x0f);
    }
}

// Adds the digits of some octets, at most as many as a piece has.
fn put_hex_piece(out: &mut Vec<u8>, octets: &[u8]) -> Result<(), AllocError>
    requires { length octets.now ≤ PIECE }
    ensures ok { OnOk result (out.new.items ≡ out.old.items ++ hex octets.now) }
    ensures err { OnErr result (out.new.items ≡ out.old.items) }
{
    let mut digits = [0; 2 * PIECE];
    let digits = &mut digits[..2 * octets.len()];
    write_digits(octets, digits);
    out.extend_from_slice(digits)
}

/// Adds octets, each by two lower-case hexadecimal digits.
pub fn put_hex(out: &mut Vec<u8>, octets: &[u8]) -> Result<(), AllocError>
    ensures ok { OnOk result (out.new.items ≡ out.old.items ++ hex octets.now) }
    ensures err { OnErr result (BeginsWith out.new.items out.old.items) }
{
    for piece in octets.chunks(PIECE) {
        put_hex_piece(out, piece)?;
    }
    Ok(())
}

/// Adds the space between two fields.
pub fn put_space(out: &mut Vec<u8>) -> Result<(), AllocError>
    ensures ok { OnOk result (out.new.items ≡ out.old.items ++ 32 ∷ []) }
    ensures err { OnErr result (out.new.items ≡ out.old.items) }
{
    out.push(b' ')?;
    Ok(())
}

/// Ends a line.
pub fn put_line_end(out: &mut Vec<u8>) -> Result<(), AllocError>
    ensures ok { OnOk result (out.new.items ≡ out.old.items ++ 10 ∷ []) }
    ensures err { OnErr result (out.new.items ≡ out.old.items) }
{
    out.push(b'\n')?;
    Ok(())
}
