ghost use Rattle.std.specs.Prelude.{ℕ, ◌≡◌, ◌<◌, length, IfOk, Err};
ghost use Rattle.job_model.specs.declared.job.Job.{Job as JobValue};
ghost use Rattle.job_model.specs.JobText.{IsJobText};
ghost use Rattle.job_model.specs.BadPlace.{IsBadJob};
ghost use Rattle.job_text.specs.JobReading.{Gives, end_at, work_at, job_at, IsJobOrMemory, IsBadOrMemory};

use crate::fault::{JobError, LineError};
use crate::image::image_of;
use crate::line::whole_line;
use crate::schedule::schedule_of;
use crate::script::scripts_of;
use crate::settings::{Keys, Making, keys_of, making_of};
use job_model::{Job, MOST_OCTETS};
use lower_model::{Items, LowerTree};
use script_model::Op;
use std::alloc::Global;

/// What stands behind the settings of a job.
#[derive(Drop)]
struct Work {
    image: LowerTree,
    scripts: Items<Items<Op>>,
    schedule: Items<u32>,
}

#[tactic(auto, unfolding(crate::specs::JobReading::end_at))]
fn end_of_job(octets: &[u8]) -> Result<(), LineError>
    ensures { Gives (λ x. x) result (end_at octets.now) }
{
    let rest = whole_line(b"end", octets)?;
    if !rest.is_empty() {
        return Err(LineError::Wrong(rest.len()));
    }
    Ok(())
}

#[tactic(auto, unfolding(crate::specs::JobReading::work_at))]
fn work_of(alloc: Global, octets: &[u8]) -> Result<Work, LineError>
    ensures { Gives (λ x. (x.image, x.scripts, x.schedule)) result (work_at octets.now) }
{
    let (image, rest) = image_of(alloc, octets)?;
    let (scripts, rest) = scripts_of(alloc, rest)?;
    let (schedule, rest) = schedule_of(alloc, scripts.len() as u32, rest)?;
    end_of_job(rest)?;
    Ok(Work {
        image,
        scripts,
        schedule,
    })
}

#[tactic(auto, unfolding(crate::specs::JobReading::job_at))]
fn job_of(alloc: Global, octets: &[u8]) -> Result<Job, LineError>
    ensures { Gives (λ job. job) result (job_at octets.now) }
{
    let rest = whole_line(b"ecryptfs-job 1", octets)?;
    let (keys, rest) = keys_of(alloc, rest)?;
    let (making, rest) = making_of(rest)?;
    let work = work_of(alloc, rest)?;
    let Keys {
        passphrase,
        salt,
        namesalt,
    } = keys;
    let Making {
        names,
        meta_place,
        random,
    } = making;
    let Work {
        image,
        scripts,
        schedule,
    } = work;
    Ok(Job {
        passphrase,
        salt,
        namesalt,
        names,
        meta_place,
        random,
        image,
        scripts,
        schedule,
    })
}

/// The job whose text these octets are; of octets that are the text of none, where they are bad.
pub fn read_job(alloc: Global, octets: &[u8]) -> Result<Job, JobError>
    // What is read is a job with this text.
    ensures found { IfOk result (λ job. IsJobText job octets.now) }
    // What is refused is bad at this place,
    ensures bad { (place : ℕ) → result ≡ Err (JobError.Bad place) → IsBadJob octets.now place }
    // or too long.
    ensures too_long { result ≡ Err JobError.TooLong → MOST_OCTETS < length octets.now }
    // The text of a job is read, unless memory runs out,
    ensures every_job { (job : JobValue) → IsJobText job octets.now → IsJobOrMemory job result }
    // octets that are bad at a place are refused with it, unless memory runs out,
    ensures every_bad { (place : ℕ) → IsBadJob octets.now place → IsBadOrMemory place result }
    // and octets that are too long are refused as such.
    ensures every_long { MOST_OCTETS < length octets.now → result ≡ Err JobError.TooLong }
{
    if octets.len() > MOST_OCTETS {
        return Err(JobError::TooLong);
    }
    match job_of(alloc, octets) {
        Ok(job) => Ok(job),
        Err(LineError::Wrong(left)) => Err(JobError::Bad {
            place: octets.len() - left,
        }),
        Err(LineError::Memory) => Err(JobError::Memory),
    }
}
