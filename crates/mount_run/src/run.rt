ghost use Rattle.std.specs.Prelude.{ℕ, ◌≡◌, ◌≢◌, ◌<◌, ◌≤◌, ◌↔◌, ◌⊎◌, List, Some, length, map, string_bytes, Err, IfOk, OnOk, OnErr};
ghost use Rattle.std.specs.Io.KnownBytes.{Keeps};
ghost use Rattle.answer_model.specs.Count.{Rose};
ghost use Rattle.job_model.specs.declared.job.Job.{Job};
ghost use Rattle.job_model.specs.declared.limits.TheConstants.{MOST_OCTETS};
ghost use Rattle.job_model.specs.JobText.{IsJobText};
ghost use Rattle.job_model.specs.BadPlace.{IsBadJob};
ghost use Rattle.make_model.specs.MakeJobs.{IsMakeNumber};
ghost use Rattle.mount_run.specs.declared.words.Command.TheVariants as commands;
ghost use Rattle.mount_run.specs.declared.words.JobCommand.{JobCommand as JobCommandValue};
ghost use Rattle.mount_run.specs.Words.{IsCommand, TellNone, words_of};
ghost use Rattle.mount_run.specs.InputAndOutput.{maker_of, Does, IsDone, IsCut, TookSome, HasNotRisen};

use crate::answer::answer;
use crate::make::make;
use crate::output::Output;
use crate::source_and_sink::{Sink, Source};
use crate::status::{BAD_JOB, LOWER_FAULT, MEMORY, OK, READ_FAULT, TOO_LONG, USAGE, WRITE_FAULT};
use crate::stream::{TakeError, give_all, take_all};
use crate::words::{Command, JobCommand, command_of};
use lower_tree::LowerMaker;
use std::alloc::Global;

// The output of a command. One for a job takes it from the source.
fn output_of<S: Source, M: LowerMaker>(
    alloc: Global,
    command: Command,
    input: &mut S,
    lower: &mut M,
) -> Result<Output, TakeError>
    requires { IsCommand command }
    ensures does { IfOk result (λ out. Does command (S.left input.old) (S.left input.new) (maker_of M.tells M.count M.tally_of lower.old) (maker_of M.tells M.count M.tally_of lower.new) out.status out.text.items) }
    ensures part { OnErr result (TookSome (S.left input.old) (S.left input.new)) }
    ensures failed { result ≡ Err TakeError.Failed → Rose (S.count input.old) (S.count input.new) × (lower.new ≡ lower.old) }
    ensures calm { OnOk result (S.count input.new ≡ S.count input.old) }
    ensures memory { result ≡ Err TakeError.Memory → S.count input.new ≡ S.count input.old }
    ensures shows { command ≡ commands.ForJob JobCommand.Show → lower.new ≡ lower.old }
    ensures refused { IfOk result (λ out. (out.status ≡ BAD_JOB) ⊎ (out.status ≡ TOO_LONG) → lower.new ≡ lower.old) }
    ensures makes { (number : ℕ) → command ≡ commands.Make number → (input.new ≡ input.old) × (result ≢ Err TakeError.Failed) }
    ensures every_make { IfOk result (λ out. (number : ℕ) → command ≡ commands.Make number → (out.status ≡ OK) ⊎ (out.status ≡ LOWER_FAULT)) }
    ensures every_job { IfOk result (λ out. (for_job : JobCommandValue) (octets : List ℕ) (job : Job) → command ≡ commands.ForJob for_job → S.left input.old ≡ Some octets
        → IsJobText job octets → (out.status ≡ OK) ⊎ (out.status ≡ LOWER_FAULT)) }
    ensures every_bad { IfOk result (λ out. (for_job : JobCommandValue) (octets : List ℕ) (place : ℕ) → command ≡ commands.ForJob for_job → S.left input.old ≡ Some octets
        → IsBadJob octets place → out.status ≡ BAD_JOB) }
    ensures every_long { IfOk result (λ out. (for_job : JobCommandValue) (octets : List ℕ) → command ≡ commands.ForJob for_job → S.left input.old ≡ Some octets
        → MOST_OCTETS < length octets → out.status ≡ TOO_LONG) }
{
    match command {
        Command::ForJob(command) => {
            let octets = take_all(alloc, input)?;
            Ok(answer(alloc, command, octets, lower)?)
        }
        Command::Make(number) => Ok(make(alloc, number, lower)?),
    }
}

/// Does the command that the words tell, without the program's name, and answers the exit status.
///
/// `replay` reads a job, runs its scripts on the tree of its image in the order of its schedule, and writes the report. The image is
/// split into lower parts by the maker, and united again. `show` reads a job and writes what the files of its image decode to. `make`
/// with a number reads nothing, replays two jobs that it makes, and writes what sums up their reports. The whole output is made before
/// its first octet is written.
pub fn run_alone<S: Source, K: Sink, M: LowerMaker>(
    alloc: Global,
    words: &[String],
    input: &mut S,
    output: &mut K,
    lower: &mut M,
) -> u8
    ensures statuses { result ≤ TOO_LONG }

    // The command was done: the input was read to its end and is one whole job, and what was written is its report or its show text; or
    // nothing was read, and what was written sums up a `make`.
    ensures ok { result ≡ OK → IsDone (map string_bytes words.now) (S.left input.old) (S.left input.new) (K.written output.old) (K.written output.new) (maker_of M.tells M.count M.tally_of lower.old) (maker_of M.tells M.count M.tally_of lower.new) OK }

    // A lower part failed where the run couldn't go on without it. The same of the input, and what was written tells the part and its
    // counts, behind the histories where the scripts ran.
    ensures lower_fault { result ≡ LOWER_FAULT → IsDone (map string_bytes words.now) (S.left input.old) (S.left input.new) (K.written output.old) (K.written output.new) (maker_of M.tells M.count M.tally_of lower.old) (maker_of M.tells M.count M.tally_of lower.new) LOWER_FAULT }

    // The input is no job, and what was written tells the place where it is bad.
    ensures bad_job { result ≡ BAD_JOB → IsDone (map string_bytes words.now) (S.left input.old) (S.left input.new) (K.written output.old) (K.written output.new) (maker_of M.tells M.count M.tally_of lower.old) (maker_of M.tells M.count M.tally_of lower.new) BAD_JOB }

    // The input has more octets than a job may have, and what was written says so.
    ensures too_long { result ≡ TOO_LONG → IsDone (map string_bytes words.now) (S.left input.old) (S.left input.new) (K.written output.old) (K.written output.new) (maker_of M.tells M.count M.tally_of lower.old) (maker_of M.tells M.count M.tally_of lower.new) TOO_LONG }

    // Memory ran out. Nothing is written, and no more is read than a job may have, and one octet.
    ensures memory { result ≡ MEMORY → TookSome (S.left input.old) (S.left input.new) }
    ensures memory_alone { result ≡ MEMORY → Keeps (K.written output.old) (K.written output.new) }

    // The words are no command. Nothing is read or written.
    ensures usage { (result ≡ USAGE) ↔ TellNone (map string_bytes words.now) }
    ensures usage_alone { result ≡ USAGE → Keeps (S.left input.old) (S.left input.new) × Keeps (K.written output.old) (K.written output.new) }

    // A read failed, and no write. Nothing is written, and no more is read than with want of memory.
    ensures read_fault { result ≡ READ_FAULT → Rose (S.count input.old) (S.count input.new) × (K.count output.new ≡ K.count output.old) }
    ensures read_part { result ≡ READ_FAULT → TookSome (S.left input.old) (S.left input.new) }
    ensures read_fault_alone { result ≡ READ_FAULT → Keeps (K.written output.old) (K.written output.new) }

    // A write failed, and no read. A front of the output is written.
    ensures write_fault { result ≡ WRITE_FAULT → Rose (K.count output.old) (K.count output.new) × (S.count input.new ≡ S.count input.old) }
    ensures cut { result ≡ WRITE_FAULT → IsCut (map string_bytes words.now) (S.left input.old) (S.left input.new) (K.written output.old) (K.written output.new) (maker_of M.tells M.count M.tally_of lower.old) (maker_of M.tells M.count M.tally_of lower.new) }

    // With any other answer no read and no write failed.
    ensures calm { result ≢ READ_FAULT → result ≢ WRITE_FAULT → (S.count input.new ≡ S.count input.old) × (K.count output.new ≡ K.count output.old) }

    // Without a job, and for a show text, no lower part is used; and a `make` reads nothing.
    ensures show_alone { (map string_bytes words.now) ≡ words_of (commands.ForJob JobCommand.Show) → lower.new ≡ lower.old }
    ensures lower_alone { (result ≡ USAGE) ⊎ (result ≡ BAD_JOB) ⊎ (result ≡ READ_FAULT) ⊎ (result ≡ TOO_LONG) → lower.new ≡ lower.old }
    ensures make_alone { (number : ℕ) → (map string_bytes words.now) ≡ words_of (commands.Make number) → input.new ≡ input.old }

    // Where no call failed, a job and a `make` are done and anything else is refused, unless memory ran out.
    ensures job_is_done { (command : JobCommandValue) (octets : List ℕ) (job : Job) → S.left input.old ≡ Some octets → IsJobText job octets
        → (map string_bytes words.now) ≡ words_of (commands.ForJob command) → (Rose (S.count input.old) (S.count input.new) → ⊥)
        → (Rose (K.count output.old) (K.count output.new) → ⊥) → HasNotRisen (maker_of M.tells M.count M.tally_of lower.old) (maker_of M.tells M.count M.tally_of lower.new) → (result ≡ OK) ⊎ (result ≡ MEMORY) }
    ensures make_is_done { (number : ℕ) → IsMakeNumber number → (map string_bytes words.now) ≡ words_of (commands.Make number)
        → (Rose (K.count output.old) (K.count output.new) → ⊥) → HasNotRisen (maker_of M.tells M.count M.tally_of lower.old) (maker_of M.tells M.count M.tally_of lower.new) → (result ≡ OK) ⊎ (result ≡ MEMORY) }
    ensures bad_job_is_refused { (command : JobCommandValue) (octets : List ℕ) (place : ℕ) → S.left input.old ≡ Some octets → IsBadJob octets place
        → (map string_bytes words.now) ≡ words_of (commands.ForJob command) → (Rose (S.count input.old) (S.count input.new) → ⊥)
        → (Rose (K.count output.old) (K.count output.new) → ⊥) → (result ≡ BAD_JOB) ⊎ (result ≡ MEMORY) }
    ensures long_input_is_refused { (command : JobCommandValue) (octets : List ℕ) → S.left input.old ≡ Some octets → MOST_OCTETS < length octets
        → (map string_bytes words.now) ≡ words_of (commands.ForJob command) → (Rose (S.count input.old) (S.count input.new) → ⊥)
        → (Rose (K.count output.old) (K.count output.new) → ⊥) → (result ≡ TOO_LONG) ⊎ (result ≡ MEMORY) }
{
    let Some(command) = command_of(words) else {
        return USAGE;
    };
    let Output { status, text } = match output_of(alloc, command, input, lower) {
        Ok(output) => output,
        Err(TakeError::Failed) => return READ_FAULT,
        Err(TakeError::Memory) => return MEMORY,
    };
    match give_all(output, &text) {
        Ok(()) => status,
        Err(_) => WRITE_FAULT,
    }
}
