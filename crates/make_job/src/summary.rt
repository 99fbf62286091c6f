ghost use Rattle.std.specs.Prelude.{◌≡◌, ◌∷◌, ◌++◌, [], OnOk, IfOk};
ghost use Rattle.text_model.specs.Line.{line, number};
ghost use Rattle.make_model.specs.MakeText.{make_text};

use line_writer::{put_hex, put_line_end, put_number, put_space, put_word};
use sha2::{Digest, Sha256};
use std::alloc::{AllocError, Global};

// A line of a word and a number.
fn put_number_line(out: &mut Vec<u8>, word: &str, n: u64) -> Result<(), AllocError>
    ensures { OnOk result (out.new.items ≡ out.old.items ++ line (word.now ∷ number n ∷ [])) }
{
    put_word(out, word)?;
    put_space(out)?;
    put_number(out, n)?;
    put_line_end(out)
}

/// The text that sums up a `make`: its number, the length of the image that came out of job A, and
/// the length and the SHA-256 of the report of job B.
pub fn write_summary(
    alloc: Global,
    number: u32,
    image_length: usize,
    report: &[u8],
) -> Result<Vec<u8>, AllocError>
    ensures { IfOk result (λ text. text.items ≡ make_text number image_length report.now) }
{
    let mut out = Vec::new(alloc);
    put_word(&mut out, "ecryptfs-make 1\n")?;
    put_number_line(&mut out, "number", u64::from(number))?;
    put_number_line(&mut out, "image", image_length as u64)?;
    put_number_line(&mut out, "report", report.len() as u64)?;
    put_word(&mut out, "sha256 ")?;
    put_hex(&mut out, &Sha256::digest(report))?;
    put_word(&mut out, "\nend\n")?;
    Ok(out)
}
