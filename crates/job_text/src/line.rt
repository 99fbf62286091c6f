ghost use Rattle.std.specs.Prelude.{◌≡◌};
ghost use Rattle.std.specs.Option.{option_map};
ghost use Rattle.job_text.specs.JobReading.{Gives, or_wrong, behind, word_at, whole_at};

use crate::fault::LineError;
use line_reader::first_line;

/// What stands behind a word in a text.
fn text_behind<'a>(word: &[u8], text: &'a [u8]) -> Option<&'a [u8]>
    ensures { option_map (λ x. x.now) result ≡ behind word.now text.now }
{
    text.strip_prefix(word)
}

/// What stands behind a word in the first line, and the octets behind the line.
#[tactic(auto, unfolding(crate::specs::JobReading::word_at))]
pub fn word_line<'a>(word: &[u8], octets: &'a [u8]) -> Result<(&'a [u8], &'a [u8]), LineError>
    ensures { Gives (λ x. (x.0.now, x.1.now)) result (word_at word.now octets.now) }
{
    let Some((line, rest)) = first_line(octets) else {
        return Err(LineError::Wrong(octets.len()));
    };
    let Some(text) = text_behind(word, line) else {
        return Err(LineError::Wrong(octets.len()));
    };
    Ok((text, rest))
}

/// A first line that is this word, and the octets behind the line.
#[tactic(auto, unfolding(crate::specs::JobReading::whole_at))]
pub fn whole_line<'a>(word: &[u8], octets: &'a [u8]) -> Result<&'a [u8], LineError>
    ensures { Gives (λ rest. rest.now) result (whole_at word.now octets.now) }
{
    let (text, rest) = word_line(word, octets)?;
    if !text.is_empty() {
        return Err(LineError::Wrong(octets.len()));
    }
    Ok(rest)
}
