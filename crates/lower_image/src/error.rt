ghost use Rattle.std.specs.Prelude.{◌≡◌, length};
ghost use Rattle.lower_image.specs.declared.error.FieldError.TheVariants.{Fault, Memory};

use image_model::ImageKind;
use std::alloc::{AllocError, AllocFailed};

/// Why a field wasn't read.
#[derive(Clone, Copy, Debug, PartialEq, Eq)]
pub enum FieldError {
    /// It is wrong, and so many octets are left from its first one on.
    Fault { left: usize, kind: ImageKind },
    /// Memory ran out.
    Memory,
}

impl From<AllocError> for FieldError {
    ghost from_gives = { λ _ e. e ≡ Memory };

    fn from(_e: AllocError) -> FieldError {
        FieldError::Memory
    }
}

impl<T: Drop> From<AllocFailed<T>> for FieldError {
    ghost from_gives = { λ _ e. e ≡ Memory };

    fn from(_e: AllocFailed<T>) -> FieldError {
        FieldError::Memory
    }
}

/// The field that begins here is wrong.
pub fn wrong(kind: ImageKind, octets: &[u8]) -> FieldError
    ensures { result ≡ Fault (length octets.now) kind }
{
    FieldError::Fault {
        left: octets.len(),
        kind,
    }
}
