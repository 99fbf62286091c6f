/// The first cause for which a file is bad. The causes stand in the order in which they are looked for.
#[derive(Clone, Copy, Debug, PartialEq, Eq)]
pub enum BadCause {
    /// The metadata has only so many octets, fewer than 26.
    Short(usize),
    /// These two numbers are no marker: their exclusive or isn't 0x3c81b7f5.
    Marker(u32, u32),
    /// The file version isn't 3 but this.
    Version(u8),
    /// The flag 0x1 is set: the file has a message authentication code.
    Hmac,
    /// The flag 0x2 isn't set: the file isn't encrypted.
    NotEncrypted,
    /// The header has this size, which isn't a multiple of 4,096 from 8,192 to 1,048,576.
    HeaderSize(u64),
    /// No pair of packets begins at offset 26.
    NoPacket,
    /// At this offset in the metadata, where a pair would begin, a public-key packet begins.
    Tag1(usize),
    /// The packet at this offset in the metadata can't be read.
    Packet(usize),
    /// No pair has a signature of ours; that of the first pair, and our first.
    WrongKey([u8; 8], [u8; 8]),
    /// The first pair with a signature of ours has a wrapped key for this cipher code that can't be used.
    Cipher(u8),
    /// The file's size, which is over [`crate::MAX_SIZE`].
    TooLarge(u64),
    /// The body has only so many octets, and needs so many for the file's size.
    ShortData(u64, u64),
}
