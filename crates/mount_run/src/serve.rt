ghost use Rattle.std.specs.Prelude.{◌≡◌, ◌≤◌, true, length, map, IfOk, OnOk};
ghost use Rattle.std.specs.List.{AllByRecursion};
ghost use Rattle.lower_tree.specs.Held.{TellAll, stores};
ghost use Rattle.lower_tree.specs.Making.{AddsFaults, HoldSomeTree, held_parts};
ghost use Rattle.script_model.specs.Script.{IsScript};
ghost use Rattle.session_model.specs.Walks.{members};
ghost use Rattle.job_model.specs.declared.limits.TheConstants.{MOST_SESSIONS};
ghost use Rattle.job_model.specs.Job.{IsJob};
ghost use Rattle.name_form.specs.FormOf.{form_of};
ghost use Rattle.mount_model.specs.MountForm.{form_of_job, mount_of_job};
ghost use Rattle.mount_run.specs.InputAndOutput.{maker_of};
ghost use Rattle.mount_run.specs.Replays.{Replays};
ghost use Rattle.mount_run.specs.Reported.{IsReported};

use crate::mount::{MountError, Mounted, mount, unmount};
use crate::replay_output::ReplayOutput;
use extent_file::Ecryptfs;
use job_text::Job;
use lower_model::Items;
use lower_tree::{BodyFormat, LowerMaker, Parts, Steps};
use mounted_files::MountedFiles;
use name_form::NameForm;
use namespace::Names;
use report_text::{write_report, write_stuck};
use script_model::Op;
use served_model::ReportEnd;
use session::{Script, Session};
use std::alloc::{AllocError, Global};
use std::sync::ledger::Ledger;
use turn_order::{ReplayFault, Replayed, replay};

// The sessions of a job's scripts, numbered from 0.
fn sessions_of(alloc: Global, scripts: Items<Items<Op>>) -> Result<Vec<Session>, AllocError>
    requires lawful { AllByRecursion IsScript scripts }
    requires few { length scripts ≤ MOST_SESSIONS }
    ensures { IfOk result (λ sessions. sessions.items ≡ members 0 scripts) }
{
    let mut sessions = Vec::with_capacity(alloc, scripts.len())?;
    for script in scripts.into_vec() {
        let number = sessions.len() as u32;
        sessions.push(Session::new(alloc, number, Script::new(script.into_vec()))?)?;
    }
    Ok(sessions)
}

// Gives the parts of a mount back to the maker as they are.
fn give_back<M: LowerMaker, U: NameForm + Drop, F: BodyFormat + Copy, L: Ledger>(
    lower: &mut M,
    names: Names<M::N, U>,
    files: MountedFiles<M::B, F, L>,
)
    requires { length files ≡ stores }
    ensures tallies { AddsFaults (held_parts M.N.held M.B.held names.lower (map (λ s. s.bodies) files)) (M.tally_of lower.old) (M.tally_of lower.new) }
    ensures tells { M.tells lower.new ≡ M.tells lower.old }
    ensures count { M.count lower.new ≡ M.count lower.old }
{
    let (names, _, _) = names.end();
    let (bodies, _) = files.end();
    lower.take_back(Parts { names, bodies });
}

// Takes the parts of a replay down, and reports.
fn report_of<M: LowerMaker, U: NameForm + Drop>(
    alloc: Global,
    lower: &mut M,
    replayed: Replayed<M::N, U, M::B>,
) -> Result<ReplayOutput, AllocError>
    requires stores { length replayed.bodies.items ≡ stores }
    requires allowed { OnOk replayed.out (M.tells lower.old ≡ true → TellAll (held_parts M.N.held M.B.held replayed.names replayed.bodies.items) → HoldSomeTree (held_parts M.N.held M.B.held replayed.names replayed.bodies.items)) }
    ensures { IfOk result (IsReported M.N.held M.B.held (maker_of M.tells M.count M.tally_of lower.old) (maker_of M.tells M.count M.tally_of lower.new) replayed) }
{
    let Replayed {
        sessions,
        names,
        form: _,
        tree_log,
        bodies,
        file_logs,
        out,
    } = replayed;
    let end = unmount(alloc, lower, Parts { names, bodies }, out)?;
    let text = write_report(alloc, &sessions, &tree_log, &file_logs, &end)?;
    match end {
        ReportEnd::Image(image) => Ok(ReplayOutput::Report { image, text }),
        ReportEnd::Stuck { .. } => Ok(ReplayOutput::Stuck { text }),
    }
}

/// The report of a job, whose scripts run on the tree of its image and on its files in the order of its schedule, under the job's form
/// of names and format of bodies, over parts that the maker splits off and unites; or the output of a run that a failure of the lower
/// parts ended.
pub fn serve<M: LowerMaker, U: NameForm + Drop, L: Ledger>(
    alloc: Global,
    job: Job,
    lower: &mut M,
    form: U,
    format: &Ecryptfs,
    steps: Steps<L>,
) -> Result<ReplayOutput, AllocError>
    requires lawful { IsJob job }
    requires form { form_of (U.upper form) (U.written form) (U.longest form) ≡ form_of_job job }
    requires format { format.now.mount ≡ mount_of_job job }
    ensures { IfOk result (Replays job (maker_of M.tells M.count M.tally_of lower.old) (maker_of M.tells M.count M.tally_of lower.new)) }
{
    let Job {
        image,
        scripts,
        schedule,
        ..
    } = job;
    let sessions = sessions_of(alloc, scripts)?;
    let mounted = match mount(alloc, lower, image, form, format, steps) {
        Ok(mounted) => mounted,
        Err(
            MountError::Stuck {
                part,
                before,
                after,
            },
        ) => {
            let text = write_stuck(alloc, part, before, after)?;
            return Ok(ReplayOutput::Stuck { text });
        }
        Err(MountError::Memory) => return Err(AllocError),
    };
    let Mounted { names, files } = mounted;
    match replay(alloc, names, files, sessions, schedule.as_slice()) {
        Ok(replayed) => report_of(alloc, lower, replayed),
        Err(
            ReplayFault::Memory {
                names,
                files,
                sessions: _,
            },
        ) => {
            give_back(lower, names, files);
            Err(AllocError)
        }
    }
}
