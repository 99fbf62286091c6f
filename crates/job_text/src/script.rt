ghost use Rattle.std.specs.Prelude.{◌≡◌, ◌≤◌, codes, length, IfOk};
ghost use Rattle.job_text.specs.JobReading.{Gives, field_at, count_in, op_at, times_at, script_at, scripts_at};

use crate::fault::LineError;
use crate::line::word_line;
use job_model::MOST_SESSIONS;
use line_reader::{first_line, read_number};
use lower_model::Items;
use script_model::{MOST_OPERATIONS, Op};
use script_text::{OpError, read_op};
use std::alloc::Global;

/// The line of a word and a number from least to most, and the octets behind the line.
fn count_of<'a>(
    word: &[u8],
    least: u64,
    most: u64,
    octets: &'a [u8],
) -> Result<(u64, &'a [u8]), LineError>
    ensures { Gives (λ x. (x.0, x.1.now)) result (field_at word.now (count_in least most) octets.now) }
{
    let (text, rest) = word_line(word, octets)?;
    let Some(count) = read_number(text) else {
        return Err(LineError::Wrong(octets.len()));
    };
    if least <= count && count <= most {
        Ok((count, rest))
    } else {
        Err(LineError::Wrong(octets.len()))
    }
}

#[tactic(auto, unfolding(crate::specs::JobReading::op_at))]
fn op_of(alloc: Global, octets: &[u8]) -> Result<(Op, &[u8]), LineError>
    ensures { Gives (λ x. (x.0, x.1.now)) result (op_at octets.now) }
{
    let Some((line, rest)) = first_line(octets) else {
        return Err(LineError::Wrong(octets.len()));
    };
    match read_op(alloc, line) {
        Ok(op) => Ok((op, rest)),
        Err(OpError::Bad) => Err(LineError::Wrong(octets.len())),
        Err(OpError::Memory) => Err(LineError::Memory),
    }
}

fn ops_of(alloc: Global, count: u64, octets: &[u8]) -> Result<(Items<Op>, &[u8]), LineError>
    ensures { Gives (λ x. (x.0, x.1.now)) result (times_at op_at count octets.now) }
{
    let mut ops = Items::new(alloc);
    let mut rest = octets;
    for _ in 0..count {
        let (op, behind) = op_of(alloc, rest)?;
        ops.push(op)?;
        rest = behind;
    }
    Ok((ops, rest))
}

#[tactic(auto, unfolding(crate::specs::JobReading::script_at))]
fn script_of(alloc: Global, octets: &[u8]) -> Result<(Items<Op>, &[u8]), LineError>
    ensures { Gives (λ x. (x.0, x.1.now)) result (script_at octets.now) }
{
    let (count, rest) = count_of(b"script ", 0, MOST_OPERATIONS as u64, octets)?;
    ops_of(alloc, count, rest)
}

fn sessions_of(
    alloc: Global,
    count: u64,
    octets: &[u8],
) -> Result<(Items<Items<Op>>, &[u8]), LineError>
    ensures read { Gives (λ x. (x.0, x.1.now)) result (times_at script_at count octets.now) }
    ensures count { IfOk result (λ x. length x.0 ≡ count) }
{
    let mut scripts = Items::new(alloc);
    let mut rest = octets;
    for _ in 0..count {
        let (script, behind) = script_of(alloc, rest)?;
        scripts.push(script)?;
        rest = behind;
    }
    Ok((scripts, rest))
}

/// The scripts of a job's sessions, and the octets behind them.
#[tactic(auto, unfolding(crate::specs::JobReading::scripts_at))]
pub fn scripts_of(alloc: Global, octets: &[u8]) -> Result<(Items<Items<Op>>, &[u8]), LineError>
    ensures read { Gives (λ x. (x.0, x.1.now)) result (scripts_at octets.now) }
    ensures few { IfOk result (λ x. length x.0 ≤ MOST_SESSIONS) }
{
    let (count, rest) = count_of(b"sessions ", 1, MOST_SESSIONS as u64, octets)?;
    sessions_of(alloc, count, rest)
}
