/// A call on a lower part failed, and its count of faults rose.
#[derive(Clone, Copy, Debug, PartialEq, Eq)]
pub struct Failed;

/// Why a call on a lower part is refused.
#[derive(Clone, Copy, Debug, PartialEq, Eq)]
pub enum LowerError {
    /// The lower part failed, and its count of faults rose.
    Failed,
    /// Memory ran out.
    Memory,
}
