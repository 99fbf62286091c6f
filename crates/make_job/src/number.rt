ghost use Rattle.reading_model.specs.Fields.{Reads};
ghost use Rattle.text_model.specs.Line.{number};
ghost use Rattle.make_model.specs.MakeJobs.{IsMakeNumber};

use line_reader::read_number;
use make_model::{GREATEST_NUMBER, LEAST_NUMBER};

/// The number of a `make` that a word spells, in decimal without a leading zero.
pub fn number_of_word(word: &str) -> Option<u32>
    ensures { Reads number IsMakeNumber word.now result }
{
    let number = read_number(word.as_bytes())?;
    if LEAST_NUMBER as u64 <= number && number <= GREATEST_NUMBER as u64 {
        Some(number as u32)
    } else {
        None
    }
}
