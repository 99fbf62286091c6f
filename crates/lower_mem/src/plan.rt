ghost use Rattle.std.specs.Prelude.{◌≡◌, ◌==◌, true, false, Ok, Err, if◌then◌else◌};
ghost use Rattle.std.specs.List.{list_any};
ghost use Rattle.answer_model.specs.Count.{Rose};
ghost use Rattle.lower_tree.specs.Calls.{HasCause};
ghost use Rattle.lower_tree.specs.declared.error.LowerError.TheVariants.{Failed};
ghost use Rattle.lower_mem.specs.Plan.{first_plan, fails_next, behind_call, or_memory};

use lower_tree::LowerError;
use std::alloc::AllocError;
use std::marker::Model;

/// Which calls fail, by their numbers from 1, and how many were made and how many failed.
#[derive(Debug, Drop)]
pub(crate) struct FailPlan {
    fails: Vec<u64>,
    calls: u64,
    faults: u64,
}

impl Model for FailPlan {
    ghost use Rattle.lower_mem.specs.Plan.{Plan};

    ghost Value = { Plan };

    ghost view = { λ p. record { fails = p.fails.items; calls = p.calls; faults = p.faults } };
}

fn has_number(numbers: &[u64], number: u64) -> bool
    ensures { result ≡ list_any (λ n. n == number) numbers.now }
{
    numbers.iter().any(|n| *n == number)
}

impl FailPlan {
    /// Before the first call. It takes no memory.
    pub(crate) fn new(fails: Vec<u64>) -> FailPlan
        ensures { result ≡ first_plan fails.items }
    {
        FailPlan {
            fails,
            calls: 0,
            faults: 0,
        }
    }

    /// Counts a call, and whether it is one of those that fail.
    pub(crate) fn count(&mut self) -> bool
        ensures plan { self.new ≡ behind_call self.old }
        ensures fails { result ≡ fails_next self.old }
        ensures rose { result ≡ true → Rose self.old.faults self.new.faults }
        ensures stays { result ≡ false → self.new.faults ≡ self.old.faults }
    {
        let number = self.calls.saturating_add(1);
        let fails = has_number(&self.fails, number);
        self.calls = number;
        if fails {
            self.faults = self.faults.saturating_add(1);
        }
        fails
    }

    /// Counts a call, which fails if it is one of those.
    pub(crate) fn begin(&mut self) -> Result<(), LowerError>
        ensures plan { self.new ≡ behind_call self.old }
        ensures failed { result ≡ (if fails_next self.old then Err Failed else Ok tt) }
        ensures cause { HasCause self.old.faults self.new.faults result }
    {
        if self.count() {
            return Err(LowerError::Failed);
        }
        Ok(())
    }

    /// How many failed, as far as a `u64` goes.
    pub(crate) fn faults(&self) -> u64
        ensures { result ≡ self.now.faults }
    {
        self.faults
    }
}

/// What it comes to, or want of memory.
pub(crate) fn or_memory<T>(made: Result<T, AllocError>) -> Result<T, LowerError>
    ensures { result ≡ or_memory made }
{
    match made {
        Ok(value) => Ok(value),
        Err(_) => Err(LowerError::Memory),
    }
}
