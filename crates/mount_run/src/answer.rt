ghost use Rattle.std.specs.Prelude.{ℕ, ◌≡◌, ◌<◌, ◌⊎◌, [], length, IfOk};
ghost use Rattle.job_model.specs.declared.job.Job.{Job as JobValue};
ghost use Rattle.job_model.specs.declared.limits.TheConstants.{MOST_OCTETS};
ghost use Rattle.job_model.specs.Job.{IsJob};
ghost use Rattle.job_model.specs.JobText.{IsJobText};
ghost use Rattle.job_model.specs.BadPlace.{IsBadJob};
ghost use Rattle.mount_run.specs.InputAndOutput.{maker_of, Answers, Writes};

use crate::output::Output;
use crate::refusal::{bad_job_text, too_long_text};
use crate::replay_job::replay_job;
use crate::replay_output::ReplayOutput;
use crate::show::show;
use crate::status::{BAD_JOB, LOWER_FAULT, OK, TOO_LONG};
use crate::words::JobCommand;
use job_text::{Job, JobError, read_job};
use lower_tree::LowerMaker;
use std::alloc::{AllocError, Global};

// What a command writes for a job. A show text may be written into this room.
fn output_for<M: LowerMaker>(
    alloc: Global,
    command: JobCommand,
    job: Job,
    room: Vec<u8>,
    lower: &mut M,
) -> Result<Output, AllocError>
    requires lawful { IsJob job }
    requires empty { room.items ≡ [] }
    ensures shows { command ≡ JobCommand.Show → lower.new ≡ lower.old }
    ensures writes { IfOk result (λ out. Writes command job (maker_of M.tells M.count M.tally_of lower.old) (maker_of M.tells M.count M.tally_of lower.new) out.status out.text.items) }
{
    match command {
        JobCommand::Replay => {
            drop(room);
            match replay_job(alloc, job, lower)? {
                ReplayOutput::Report { image: _, text } => Ok(Output { status: OK, text }),
                ReplayOutput::Stuck { text } => Ok(Output {
                    status: LOWER_FAULT,
                    text,
                }),
            }
        }
        JobCommand::Show => Ok(Output {
            status: OK,
            text: show(alloc, &job, room)?,
        }),
    }
}

/// What a command answers to octets. Octets that are no job, and `Show`, leave the maker as it was.
pub fn answer<M: LowerMaker>(
    alloc: Global,
    command: JobCommand,
    octets: Vec<u8>,
    lower: &mut M,
) -> Result<Output, AllocError>
    ensures answers { IfOk result (λ out. Answers command octets.items (maker_of M.tells M.count M.tally_of lower.old) (maker_of M.tells M.count M.tally_of lower.new) out.status out.text.items) }
    ensures shows { command ≡ JobCommand.Show → lower.new ≡ lower.old }
    ensures refused { IfOk result (λ out. (out.status ≡ BAD_JOB) ⊎ (out.status ≡ TOO_LONG) → lower.new ≡ lower.old) }
    ensures every_job { IfOk result (λ out. (job : JobValue) → IsJobText job octets.items → (out.status ≡ OK) ⊎ (out.status ≡ LOWER_FAULT)) }
    ensures every_bad { IfOk result (λ out. (place : ℕ) → IsBadJob octets.items place → out.status ≡ BAD_JOB) }
    ensures every_long { IfOk result (λ out. MOST_OCTETS < length octets.items → out.status ≡ TOO_LONG) }
{
    match read_job(alloc, &octets) {
        Ok(job) => {
            let mut room = octets;
            room.clear();
            output_for(alloc, command, job, room, lower)
        }
        Err(JobError::Bad { place }) => Ok(Output {
            status: BAD_JOB,
            text: bad_job_text(alloc, place)?,
        }),
        Err(JobError::TooLong) => Ok(Output {
            status: TOO_LONG,
            text: too_long_text(alloc)?,
        }),
        Err(JobError::Memory) => Err(AllocError),
    }
}
