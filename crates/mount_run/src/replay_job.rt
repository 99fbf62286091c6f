ghost use Rattle.std.specs.Prelude.{◌≡◌, ◌<◌, IfOk};
ghost use Rattle.job_model.specs.Job.{IsJob};
ghost use Rattle.mount_model.specs.MountForm.{mount_of_job};
ghost use Rattle.mount_run.specs.InputAndOutput.{maker_of};
ghost use Rattle.mount_run.specs.Replays.{Replays};

use crate::replay_output::ReplayOutput;
use crate::ring::{file_format, name_key};
use crate::serve::serve;
use extent_file::Ecryptfs;
use job_model::NameCoding;
use job_text::Job;
use lower_tree::{LowerMaker, Steps};
use name_tag70::{PlainNames, Tag70};
use std::alloc::{AllocError, Global};
use std::marker::Brand;
use std::sync::ledger::{Blank, Ledger};

// Under the job's form of names and this format of bodies.
fn replay_in<M: LowerMaker, L: Ledger>(
    alloc: Global,
    job: Job,
    lower: &mut M,
    format: &Ecryptfs,
    steps: Steps<L>,
) -> Result<ReplayOutput, AllocError>
    requires lawful { IsJob job }
    requires format { format.now.mount ≡ mount_of_job job }
    ensures { IfOk result (Replays job (maker_of M.tells M.count M.tally_of lower.old) (maker_of M.tells M.count M.tally_of lower.new)) }
{
    match job.names {
        NameCoding::Plain => serve(alloc, job, lower, PlainNames, format, steps),
        NameCoding::Tag70 => {
            let form = Tag70::new(name_key(&job.namesalt, job.passphrase.as_slice()));
            let output = serve(alloc, job, lower, &form, format, steps);
            form.end();
            output
        }
    }
}

// With the steps of this blank.
fn replay_with<M: LowerMaker, L: Ledger>(
    alloc: Global,
    job: Job,
    lower: &mut M,
    blank: Blank,
) -> Result<ReplayOutput, AllocError>
    requires name { blank.name ≡ L.name }
    requires parts { blank.parts ≡ L.parts }
    requires some { 0 < L.parts }
    requires lawful { IsJob job }
    ensures { IfOk result (Replays job (maker_of M.tells M.count M.tally_of lower.old) (maker_of M.tells M.count M.tally_of lower.new)) }
{
    let (book, share) = blank.open::<L>();
    let format = file_format(&job);
    let output = replay_in(alloc, job, lower, &format, Steps::new(book, share));
    format.end();
    output
}

/// Replays a job over parts of this maker.
pub fn replay_job<M: LowerMaker>(
    alloc: Global,
    job: Job,
    lower: &mut M,
) -> Result<ReplayOutput, AllocError>
    requires lawful { IsJob job }
    ensures { IfOk result (Replays job (maker_of M.tells M.count M.tally_of lower.old) (maker_of M.tells M.count M.tally_of lower.new)) }
{
    replay_with::<M, Brand>(alloc, job, lower, Blank::new(1))
}
