ghost use Rattle.std.specs.Prelude.{◌≤◌, length};
ghost use Rattle.job_text.specs.JobReading.{Gives, behind_end, sized_image_at, image_at};

use crate::fault::LineError;
use crate::line::word_line;
use line_reader::read_saturated;
use lower_image::{ImageError, read_image};
use lower_model::LowerTree;
use std::alloc::Global;

fn behind_line_end(octets: &[u8]) -> Result<&[u8], LineError>
    ensures { Gives (λ rest. rest.now) result (behind_end octets.now) }
{
    match octets {
        [] => Err(LineError::Wrong(0)),
        [first, rest @ ..] => {
            if *first == b'\n' {
                Ok(rest)
            } else {
                Err(LineError::Wrong(octets.len()))
            }
        }
    }
}

/// The tree whose image the first octets are, and the octets behind the line end that follows them.
fn sized_image_of(
    alloc: Global,
    count: usize,
    octets: &[u8],
) -> Result<(LowerTree, &[u8]), LineError>
    requires { count ≤ length octets.now }
    ensures { Gives (λ x. (x.0, x.1.now)) result (sized_image_at count octets.now) }
{
    let (image, behind) = octets.split_at(count);
    match read_image(alloc, image) {
        Ok(tree) => {
            let rest = behind_line_end(behind)?;
            Ok((tree, rest))
        }
        Err(ImageError::Fault(fault)) => Err(LineError::Wrong(octets.len() - fault.offset)),
        Err(ImageError::Memory) => Err(LineError::Memory),
    }
}

/// The tree of the image part of a job, and the octets behind that part.
pub fn image_of(alloc: Global, octets: &[u8]) -> Result<(LowerTree, &[u8]), LineError>
    ensures { Gives (λ x. (x.0, x.1.now)) result (image_at octets.now) }
{
    let (text, rest) = word_line(b"image ", octets)?;
    let Some(count) = read_saturated(text) else {
        return Err(LineError::Wrong(octets.len()));
    };
    // A slice is shorter than the last u64, so this is right also where that stands for a greater number.
    if (rest.len() as u64) < count {
        return Err(LineError::Wrong(rest.len()));
    }
    sized_image_of(alloc, count as usize, rest)
}
