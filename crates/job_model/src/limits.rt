/// The most octets of a job's text.
pub const MOST_OCTETS: usize = 268_435_456;

/// The most octets of a passphrase.
pub const LONGEST_PASSPHRASE: usize = 64;

/// The most sessions of a job.
pub const MOST_SESSIONS: usize = 16;

/// The most items of a schedule.
pub const MOST_ITEMS: usize = 1_048_576;
