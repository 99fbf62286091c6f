use crate::{NameError, NameForm};
use lower_model::Items;
use std::alloc::{AllocError, Global};

/// The form that is lent.
impl<'a, U: NameForm> NameForm for &'a U {
    ghost upper = { λ form lower. U.upper form.now lower };

    ghost written = { λ form name. U.written form.now name };

    ghost longest = { λ form. U.longest form.now };

    ghost reads_written = { λ form name is fits. U.reads_written form.now name is fits };

    ghost reads_names = { λ form lower name is reads. U.reads_names form.now lower name is reads };

    ghost writes_names = { λ form name is fits. U.writes_names form.now name is fits };

    fn read(&self, alloc: Global, lower: &[u8]) -> Result<Items<u8>, NameError> {
        (**self).read(alloc, lower)
    }

    fn write(&self, alloc: Global, name: &[u8]) -> Result<Items<u8>, AllocError> {
        (**self).write(alloc, name)
    }

    fn limit(&self) -> usize {
        (**self).limit()
    }
}
