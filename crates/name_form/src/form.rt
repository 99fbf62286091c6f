ghost use Rattle.std.specs.Prelude.{◌≡◌, ℕ, ◌≤◌, List, Result, Ok, Err, length, IfOk, IsTrue};
ghost use Rattle.lower_model.specs.Name.{is_name};
ghost use Rattle.names_model.specs.declared.fault.NameFault.{NameFault};
ghost use Rattle.name_form.specs.declared.form.NameError.TheVariants.{Fault, Memory};

use lower_model::Items;
use names_model::NameFault;
use std::alloc::{AllocError, Global};

/// Why a lower name isn't read.
#[derive(Clone, Copy, Debug, PartialEq, Eq)]
pub enum NameError {
    /// It stands for no upper name.
    Fault(NameFault),
    /// Memory ran out.
    Memory,
}

impl From<NameFault> for NameError {
    ghost from_gives = { λ fault e. e ≡ Fault fault };

    fn from(fault: NameFault) -> NameError {
        NameError::Fault(fault)
    }
}

impl From<AllocError> for NameError {
    ghost from_gives = { λ _ e. e ≡ Memory };

    fn from(_e: AllocError) -> NameError {
        NameError::Memory
    }
}

/// A form of names.
pub trait NameForm {
    /// The upper name that a lower name stands for, or why it stands for none.
    ghost upper: { Self → List ℕ → Result (List ℕ) NameFault };

    /// The lower name that an upper name is written as.
    ghost written: { Self → List ℕ → List ℕ };

    /// How long an upper name may be.
    ghost longest: { Self → ℕ };

    /// The upper name that a lower name stands for. A fault comes exactly where it stands for none.
    fn read(&self, alloc: Global, lower: &[u8]) -> Result<Items<u8>, NameError>
        ensures ok { IfOk result (λ name. upper self.now lower.now ≡ Ok name) }
        ensures fault { (f : NameFault) → result ≡ Err (Fault f) → upper self.now lower.now ≡ Err f };

    /// The lower name that an upper name is written as.
    fn write(&self, alloc: Global, name: &[u8]) -> Result<Items<u8>, AllocError>
        requires name { IsTrue (is_name name.now) }
        requires fits { length name.now ≤ longest self.now }
        ensures { IfOk result (λ lower. lower ≡ written self.now name.now) };

    /// How many octets an upper name may have.
    fn limit(&self) -> usize
        ensures { result ≡ longest self.now };

    ghost reads_written: { (f : Self) (name : List ℕ) → IsTrue (is_name name) → length name ≤ longest f → upper f (written f name) ≡ Ok name };

    ghost reads_names: { (f : Self) (lower name : List ℕ) → IsTrue (is_name lower) → upper f lower ≡ Ok name → IsTrue (is_name name) };

    ghost writes_names: { (f : Self) (name : List ℕ) → IsTrue (is_name name) → length name ≤ longest f → IsTrue (is_name (written f name)) };
}
