use lower_model::Items;
use packet_model::BadCause;

/// A call on a file. The first field of each is the session's slot.
#[derive(Debug, Drop)]
pub enum FileCall {
    /// Open the file for the slot.
    Attach(u32),
    /// Tell the octets from an offset on, so many at most.
    Read(u32, u64, usize),
    /// Put these octets at an offset.
    Write(u32, u64, Items<u8>),
    /// Set the size.
    Truncate(u32, u64),
    /// Tell the size.
    Size(u32),
    /// Write out what has changed.
    Sync(u32),
    /// Close the file for the slot.
    Detach(u32),
}

/// What a call on a file answers.
#[derive(Debug, Drop)]
pub enum FileReply {
    /// It is done.
    Done,
    /// What was read.
    Octets(Items<u8>),
    /// The size.
    Length(u64),
    /// The file is bad.
    Refused(BadCause),
    /// The file isn't open for the slot.
    NotOpen,
    /// The file would become longer than a file may be.
    TooBig,
    /// The lower bodies failed, and nothing has changed.
    LowerFault,
    /// Memory ran out, and nothing has changed.
    Memory,
}
