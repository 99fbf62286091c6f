/// The tag octet of a tag 3 packet, a symmetric-key encrypted session key, in the old format of packet headers (RFC 2440, 4.2
/// and 5.3).
pub const TAG3: u8 = 0x8c;

/// The tag octet of a tag 11 packet: eCryptfs's own number for a packet that holds a signature.
pub const TAG11: u8 = 0xed;

/// The first octet of a public-key packet, which is refused. The number is eCryptfs's own: a tag 1 packet of RFC 2440 (4.2 and
/// 5.1) begins with 0x84.
pub const TAG1: u8 = 0x01;
