use crate::cause::BadCause;
use thiserror::Error;

/// Why metadata, or the set of packets in it, wasn't read.
#[derive(Clone, Copy, Debug, PartialEq, Eq, Error)]
pub enum MetadataError {
    /// The file is bad for this cause.
    #[error("the file is bad: {0:?}")]
    Bad(BadCause),
    /// Memory ran out.
    #[error("out of memory")]
    Memory,
}
