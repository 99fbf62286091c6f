/// The most octets of a name in a mount with plain names.
pub const LONGEST_PLAIN_NAME: usize = 255;
