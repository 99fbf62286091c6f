/// The greatest size of a file, in octets.
pub const MAX_SIZE: u64 = 67_108_864;

/// How many octets an extent has.
pub const EXTENT_SIZE: u64 = 4096;

/// The offset in metadata at which its packets begin.
pub const SET_OFFSET: usize = 26;

/// The offset in metadata at which its packets end at the latest. No octet from there on is looked at.
pub const SET_END: usize = 4096;

/// The exclusive or of the two numbers of a marker.
pub const MARKER: u32 = 0x3c81_b7f5;

/// The file version that is read and written.
pub const VERSION: u8 = 3;

/// The flag of a file with a message authentication code.
pub const HMAC_FLAG: u32 = 0x1;

/// The flag of an encrypted file.
pub const ENCRYPTED_FLAG: u32 = 0x2;

/// The cipher code of AES-128 (RFC 2440, 9.2), the one cipher that is read and written.
pub const AES_128: u8 = 7;

/// The least size of the metadata at the head of a body, in octets, and the size that new metadata has there.
pub const MIN_META_SIZE: u64 = 8192;

/// The greatest size of the metadata at the head of a body, in octets.
pub const MAX_META_SIZE: u64 = 1_048_576;
