/// The letters of coded octets, by the numbers that they stand for.
pub const LETTERS: [u8; 64] = *b"-.0123456789ABCDEFGHIJKLMNOPQRSTUVWXYZabcdefghijklmnopqrstuvwxyz";

/// What stands in front of the letters of a coded name.
pub const PREFIX: [u8; 24] = *b"ECRYPTFS_FNEK_ENCRYPTED.";

/// The tag octet of a tag 70 packet: eCryptfs's own number for a packet that holds a name.
pub const TAG70: u8 = 0x46;

/// The least octets of a lead, which stands in front of a name's zero octet.
pub const LEAST_LEAD: usize = 16;

/// What stands for a zero octet of a digest in a lead as it is written.
pub const ZERO_BECOMES: u8 = 0x42;

/// The most octets of a name in a mount with coded names: its lower name has 252 octets.
pub const LONGEST_CODED_NAME: usize = 143;

/// The most octets that are coded as a name is.
pub const LONGEST_CODED_OCTETS: usize = 1_023;
