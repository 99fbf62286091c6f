ghost use Rattle.std.specs.Prelude.{◌≡◌, ◌==◌, IfOk};
ghost use Rattle.std.specs.List.{slice_split};
ghost use Rattle.reading_model.specs.Fields.{each_in};
ghost use Rattle.job_text.specs.JobReading.{Gives, item_in, items_in, schedule_at};

use crate::fault::LineError;
use crate::line::word_line;
use job_model::MOST_ITEMS;
use line_reader::{cut_at, read_number};
use lower_model::Items;
use std::alloc::{AllocError, Global};

fn read_item(sessions: u32, text: &[u8]) -> Option<u32>
    ensures { result ≡ item_in sessions text.now }
{
    let session = read_number(text)?;
    if session < u64::from(sessions) {
        Some(session as u32)
    } else {
        None
    }
}

fn items_of(alloc: Global, sessions: u32, text: &[u8]) -> Result<Option<Items<u32>>, AllocError>
    ensures { IfOk result (λ found. found ≡ each_in (item_in sessions) (slice_split (λ c. c == 32) text.now)) }
{
    let mut items = Items::new(alloc);
    let mut rest = text;
    'items: while let Some((part, behind)) = cut_at(b' ', rest) {
        let Some(item) = read_item(sessions, part) else {
            return Ok(None);
        };
        items.push(item)?;
        rest = behind;
    }
    let Some(item) = read_item(sessions, rest) else {
        return Ok(None);
    };
    items.push(item)?;
    Ok(Some(items))
}

fn read_items(alloc: Global, sessions: u32, text: &[u8]) -> Result<Option<Items<u32>>, AllocError>
    ensures { IfOk result (λ found. found ≡ items_in sessions text.now) }
{
    match text {
        [] => Ok(Some(Items::new(alloc))),
        [first, spelled @ ..] => {
            if !(*first == b' ') {
                return Ok(None);
            }
            match items_of(alloc, sessions, spelled)? {
                Some(items) => {
                    if items.len() <= MOST_ITEMS {
                        Ok(Some(items))
                    } else {
                        Ok(None)
                    }
                }
                None => Ok(None),
            }
        }
    }
}

/// The schedule of a job of so many sessions, and the octets behind it.
pub fn schedule_of(
    alloc: Global,
    sessions: u32,
    octets: &[u8],
) -> Result<(Items<u32>, &[u8]), LineError>
    ensures { Gives (λ x. (x.0, x.1.now)) result (schedule_at sessions octets.now) }
{
    let (text, rest) = word_line(b"schedule", octets)?;
    let Some(items) = read_items(alloc, sessions, text)? else {
        return Err(LineError::Wrong(octets.len()));
    };
    Ok((items, rest))
}
