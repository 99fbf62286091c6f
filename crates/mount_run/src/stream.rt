ghost use Rattle.std.specs.Prelude.{◌≡◌, ◌≤◌, ℕ, length, take, IfOk, OnOk, OnErr, Err};
ghost use Rattle.std.specs.Io.KnownBytes.{Appends};
ghost use Rattle.answer_model.specs.Count.{Rose};
ghost use Rattle.mount_run.specs.InputAndOutput.{Took, TookSome};

use crate::source_and_sink::{Failed, Sink, Source};
use job_model::MOST_OCTETS;
use std::alloc::{AllocError, Global};

/// The most octets that one read may move.
const PIECE: usize = 65_536;

/// Why the input wasn't taken.
#[derive(Debug, Drop)]
pub enum TakeError {
    /// A read failed.
    Failed,
    /// Memory ran out.
    Memory,
}

impl From<Failed> for TakeError {
    ghost use Rattle.mount_run.specs.declared.stream.TakeError.TheVariants as errors;

    ghost from_gives = { λ _ e. e ≡ errors.Failed };

    fn from(_failed: Failed) -> TakeError {
        TakeError::Failed
    }
}

impl From<AllocError> for TakeError {
    ghost use Rattle.mount_run.specs.declared.stream.TakeError.TheVariants as errors;

    ghost from_gives = { λ _ e. e ≡ errors.Memory };

    fn from(_error: AllocError) -> TakeError {
        TakeError::Memory
    }
}

/// Takes octets to the end of the input, or until there is one more than a job may have.
pub fn take_all<S: Source>(alloc: Global, input: &mut S) -> Result<Vec<u8>, TakeError>
    ensures taken { IfOk result (λ taken. Took (S.left input.old) (S.left input.new) taken.items) }
    ensures part { OnErr result (TookSome (S.left input.old) (S.left input.new)) }
    ensures calm { OnOk result (S.count input.new ≡ S.count input.old) }
    ensures memory { result ≡ Err TakeError.Memory → S.count input.new ≡ S.count input.old }
    ensures failed { result ≡ Err TakeError.Failed → Rose (S.count input.old) (S.count input.new) }
{
    let mut taken = Vec::new(alloc);
    let mut buffer = [0u8; PIECE];
    while taken.len() <= MOST_OCTETS {
        let room = (MOST_OCTETS + 1 - taken.len()).min(PIECE);
        let count = input.read(&mut buffer[..room])?;
        if count == 0 {
            return Ok(taken);
        }
        taken.extend_from_slice(&buffer[..count])?;
    }
    Ok(taken)
}

/// Writes all octets. A failure leaves a front of them written.
pub fn give_all<K: Sink>(output: &mut K, octets: &[u8]) -> Result<(), Failed>
    ensures ok { OnOk result (Appends (K.written output.old) (K.written output.new) octets.now) }
    ensures part { OnErr result ((n : ℕ) × Appends (K.written output.old) (K.written output.new) (take n octets.now)) }
    ensures calm { OnOk result (K.count output.new ≡ K.count output.old) }
    ensures failed { OnErr result (Rose (K.count output.old) (K.count output.new)) }
{
    let mut at = 0;
    while at < octets.len() {
        let count = output.write(&octets[at..])?;
        at += count;
    }
    Ok(())
}
