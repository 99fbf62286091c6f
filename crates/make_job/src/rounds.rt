ghost use Rattle.std.specs.Prelude.{◌≡◌, ◌<◌, IfOk, OnOk};
ghost use Rattle.make_model.specs.Draws.{behind};
ghost use Rattle.make_model.specs.MakeJobs.{twice_a_draw, line_of_kind, round, script_b as script_of_session, scripts_b as scripts_of_job_b, schedule_b as schedule_of_job_b};

use crate::draws::Draws;
use crate::names::file_path;
use crate::new_files::draw_octets;
use lower_model::Items;
use script_model::Op;
use std::alloc::{AllocError, Global};

// The sessions of job B, the rounds of each, and the items of the schedule.
const SESSIONS: u32 = 4;

const ROUNDS: u32 = 100;

const ITEMS: u32 = 1_000;

// An offset or a size.
fn twice(draws: &mut Draws) -> u64
    ensures { twice_a_draw draws.old ≡ (result, draws.new) }
{
    2 * u64::from(draws.draw())
}

// What a round does with its file.
#[tactic(auto, unfolding(make_model::specs::MakeJobs::line_of_kind))]
fn op_of_kind(alloc: Global, draws: &mut Draws, kind: u32) -> Result<Op, AllocError>
    ensures { IfOk result (λ op. line_of_kind kind draws.old ≡ (op, draws.new)) }
{
    match kind {
        0 => Ok(Op::Read(0, twice(draws), 4_096)),
        1 => {
            let at = twice(draws);
            let octets = draw_octets(alloc, draws, 512)?;
            Ok(Op::Write(0, at, octets))
        }
        2 => Ok(Op::Truncate(0, twice(draws))),
        _ => Ok(Op::Sync(0)),
    }
}

#[tactic(auto, unfolding(make_model::specs::MakeJobs::round))]
fn put_round(alloc: Global, draws: &mut Draws, ops: &mut Items<Op>) -> Result<(), AllocError>
    ensures { OnOk result (behind ops.old (round draws.old) ≡ (ops.new, draws.new)) }
{
    let i = draws.draw() % 64;
    let kind = draws.draw() % 4;
    ops.push(Op::Open(0, file_path(alloc, i)?))?;
    ops.push(op_of_kind(alloc, draws, kind)?)?;
    ops.push(Op::Close(0))
}

// The script of a session of job B.
#[tactic(auto, unfolding(make_model::specs::MakeJobs::script_b))]
fn script_b(alloc: Global, draws: &mut Draws) -> Result<Items<Op>, AllocError>
    ensures { IfOk result (λ script. script_of_session draws.old ≡ (script, draws.new)) }
{
    let mut ops = Items::new(alloc);
    for _ in 0..ROUNDS {
        put_round(alloc, draws, &mut ops)?;
    }
    Ok(ops)
}

/// The scripts of job B.
#[tactic(auto, unfolding(make_model::specs::MakeJobs::scripts_b))]
pub(crate) fn scripts_b(alloc: Global, draws: &mut Draws) -> Result<Items<Items<Op>>, AllocError>
    ensures { IfOk result (λ scripts. scripts_of_job_b draws.old ≡ (scripts, draws.new)) }
{
    let mut scripts = Items::new(alloc);
    for _ in 0..SESSIONS {
        scripts.push(script_b(alloc, draws)?)?;
    }
    Ok(scripts)
}

/// The schedule of job B.
#[tactic(auto, unfolding(make_model::specs::MakeJobs::schedule_b))]
pub(crate) fn schedule_b(alloc: Global, draws: &mut Draws) -> Result<Items<u32>, AllocError>
    ensures { IfOk result (λ schedule. schedule_of_job_b draws.old ≡ (schedule, draws.new)) }
{
    let mut schedule = Items::new(alloc);
    for _ in 0..ITEMS {
        schedule.push(draws.draw() % 4)?;
    }
    Ok(schedule)
}
