ghost use Rattle.std.specs.Prelude.{ℕ, List};
ghost use Rattle.names_model.specs.declared.limits.TheConstants.{LONGEST_PLAIN_NAME};
ghost use Rattle.name_tag70.specs.PlainNames.{upper_of};
ghost use Rattle.std.proofs.Common.{rules};

use lower_model::{Items, is_name};
use name_form::{NameError, NameFault, NameForm};
use names_model::LONGEST_PLAIN_NAME;
use std::alloc::{AllocError, Global};

/// The form in which each name stands for itself.
#[derive(Clone, Copy, Debug, PartialEq, Eq)]
pub struct PlainNames;

impl NameForm for PlainNames {
    ghost upper = { λ form lower. upper_of lower };

    ghost written = { λ form name. name };

    ghost longest = { λ form. LONGEST_PLAIN_NAME };

    ghost reads_written = { λ form name is fits. Prim.search rules };

    ghost reads_names = { λ form lower name is reads. Prim.search rules };

    ghost writes_names = { λ form name is fits. is };

    /// Any name is read as it is. `BadName` comes exactly where the octets are no name.
    fn read(&self, alloc: Global, lower: &[u8]) -> Result<Items<u8>, NameError> {
        if !is_name(lower) {
            return Err(NameError::Fault(NameFault::BadName));
        }
        match Items::from_slice(alloc, lower) {
            Ok(name) => Ok(name),
            Err(_) => Err(NameError::Memory),
        }
    }

    fn write(&self, alloc: Global, name: &[u8]) -> Result<Items<u8>, AllocError> {
        Items::from_slice(alloc, name)
    }

    fn limit(&self) -> usize {
        LONGEST_PLAIN_NAME
    }
}
