ghost use Rattle.std.specs.Prelude.{◌≡◌, IfOk};
ghost use Rattle.make_model.specs.MakeJobs.{IsMakeNumber};
ghost use Rattle.mount_run.specs.InputAndOutput.{maker_of, Makes};

use crate::output::Output;
use crate::replay_job::replay_job;
use crate::replay_output::ReplayOutput;
use crate::status::{LOWER_FAULT, OK};
use lower_image::image_length;
use lower_tree::LowerMaker;
use make_job::{job_a, job_b, write_summary};
use std::alloc::{AllocError, Global};

/// Makes the two jobs of a number, replays job A and then job B on the image that came out, and sums up what they report; or the
/// output of the replay that a failure of the lower parts ended.
pub fn make<M: LowerMaker>(alloc: Global, number: u32, lower: &mut M) -> Result<Output, AllocError>
    requires { IsMakeNumber number }
    ensures { IfOk result (λ out. Makes number (maker_of M.tells M.count M.tally_of lower.old) (maker_of M.tells M.count M.tally_of lower.new) out.status out.text.items) }
{
    let (job, draws) = job_a(alloc, number)?;
    let image = match replay_job(alloc, job, lower)? {
        ReplayOutput::Report { image, .. } => image,
        ReplayOutput::Stuck { text } => {
            return Ok(Output {
                status: LOWER_FAULT,
                text,
            });
        }
    };
    let length = image_length(&image);
    let job = job_b(alloc, number, draws, image)?;
    match replay_job(alloc, job, lower)? {
        ReplayOutput::Report { text, .. } => Ok(Output {
            status: OK,
            text: write_summary(alloc, number, length, &text)?,
        }),
        ReplayOutput::Stuck { text } => Ok(Output {
            status: LOWER_FAULT,
            text,
        }),
    }
}
