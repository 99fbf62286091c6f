/// A session's slot that has a file open.
#[derive(Clone, Copy, Debug, PartialEq, Eq)]
pub struct OpenSlot {
    /// The number of the session, from 0.
    pub session: u32,
    /// The number of its slot, from 0.
    pub slot: u32,
}
