ghost use Rattle.std.specs.Prelude.{◌≡◌};
ghost use Rattle.name_coding.specs.declared.error.CodingError.TheVariants.{Memory};

use names_model::CodingFault;
use std::alloc::AllocError;
use thiserror::Error;

/// Why letters weren't decoded.
#[derive(Clone, Copy, Debug, PartialEq, Eq, Error)]
pub enum CodingError {
    /// They code no octets.
    #[error("these letters code no octets: {0:?}")]
    Fault(CodingFault),
    /// Memory ran out.
    #[error("out of memory")]
    Memory,
}

impl From<AllocError> for CodingError {
    ghost from_gives = { λ _ e. e ≡ Memory };

    fn from(_e: AllocError) -> CodingError {
        CodingError::Memory
    }
}
