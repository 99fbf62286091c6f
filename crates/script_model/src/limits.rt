/// The most operations of a session's script.
pub const MOST_OPERATIONS: usize = 65_536;

/// The slots of a session, each of which has one file open at a time.
pub const SLOTS: usize = 16;

/// Offsets and sizes in a script are below this, which is 2^40.
pub const OFFSET_LIMIT: u64 = 1_099_511_627_776;

/// The most octets that are read or written at once.
pub const LONGEST_TRANSFER: usize = 65_536;
