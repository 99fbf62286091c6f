ghost use Rattle.std.specs.Prelude.{◌≡◌, ◌<◌, IfOk, OnOk};
ghost use Rattle.make_model.specs.Draws.{behind, for_each};
ghost use Rattle.make_model.specs.MakeJobs.{octets_of, new_directory, piece, new_file, script_a as script_of_job_a};

use crate::draws::Draws;
use crate::names::{directory_path, file_path};
use lower_model::Items;
use script_model::Op;
use std::alloc::{AllocError, Global};

// The directories and the files of job A.
const DIRECTORIES: u32 = 8;

const FILES: u32 = 64;

/// So many octets, each drawn.
pub(crate) fn draw_octets(
    alloc: Global,
    draws: &mut Draws,
    count: usize,
) -> Result<Items<u8>, AllocError>
    ensures { IfOk result (λ octets. octets_of count draws.old ≡ (octets, draws.new)) }
{
    let mut octets = Vec::with_capacity(alloc, count)?;
    for _ in 0..count {
        octets.push((draws.draw() % 256) as u8)?;
    }
    Ok(Items::from_vec(octets))
}

// The operations that make the directories.
fn put_directories(alloc: Global, draws: &Draws, ops: &mut Items<Op>) -> Result<(), AllocError>
    ensures { OnOk result (behind ops.old (for_each 8 new_directory draws.now) ≡ (ops.new, draws.now)) }
{
    for d in 0..DIRECTORIES {
        ops.push(Op::Mkdir(directory_path(alloc, d)?))?;
    }
    Ok(())
}

// The operation that writes a piece of a new file.
fn put_piece(
    alloc: Global,
    draws: &mut Draws,
    j: u32,
    ops: &mut Items<Op>,
) -> Result<(), AllocError>
    ensures { OnOk result (behind ops.old (piece j draws.old) ≡ (ops.new, draws.new)) }
{
    let octets = draw_octets(alloc, draws, 4_000)?;
    ops.push(Op::Write(0, 4_000 * u64::from(j), octets))
}

fn put_pieces(
    alloc: Global,
    draws: &mut Draws,
    count: u32,
    ops: &mut Items<Op>,
) -> Result<(), AllocError>
    ensures { OnOk result (behind ops.old (for_each count piece draws.old) ≡ (ops.new, draws.new)) }
{
    for j in 0..count {
        put_piece(alloc, draws, j, ops)?;
    }
    Ok(())
}

// The operations that make a file and write it.
#[tactic(auto, unfolding(make_model::specs::MakeJobs::new_file))]
fn put_file(alloc: Global, draws: &mut Draws, i: u32, ops: &mut Items<Op>) -> Result<(), AllocError>
    requires { i < 64 }
    ensures { OnOk result (behind ops.old (new_file i draws.old) ≡ (ops.new, draws.new)) }
{
    ops.push(Op::Create(0, file_path(alloc, i)?))?;
    let count = draws.draw() % 24;
    put_pieces(alloc, draws, count, ops)?;
    ops.push(Op::Close(0))
}

fn put_files(alloc: Global, draws: &mut Draws, ops: &mut Items<Op>) -> Result<(), AllocError>
    ensures { OnOk result (behind ops.old (for_each 64 new_file draws.old) ≡ (ops.new, draws.new)) }
{
    for i in 0..FILES {
        put_file(alloc, draws, i, ops)?;
    }
    Ok(())
}

/// The script of job A.
#[tactic(auto, unfolding(make_model::specs::MakeJobs::script_a))]
pub(crate) fn script_a(alloc: Global, draws: &mut Draws) -> Result<Items<Op>, AllocError>
    ensures { IfOk result (λ script. script_of_job_a draws.old ≡ (script, draws.new)) }
{
    let mut ops = Items::new(alloc);
    put_directories(alloc, draws, &mut ops)?;
    put_files(alloc, draws, &mut ops)?;
    Ok(ops)
}
