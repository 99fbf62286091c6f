/// Why letters are no coded octets.
#[derive(Clone, Copy, Debug, PartialEq, Eq)]
pub enum CodingFault {
    /// Their number, where it isn't a multiple of 4.
    Length(usize),
    /// The index of the first letter that is none of the 64, and that octet.
    Letter(usize, u8),
}

/// Why a lower name stands for no upper name.
#[derive(Clone, Copy, Debug, PartialEq, Eq)]
pub enum NameFault {
    /// What is behind the prefix isn't coded octets.
    Coding(CodingFault),
    /// A length that is none, isn't allowed, or doesn't fit the octets.
    Size,
    /// The first octet, where it isn't the packet's tag.
    Tag(u8),
    /// The signature, where it is another key's.
    WrongKey([u8; 8]),
    /// The code of another cipher.
    Cipher(u8),
    /// No octet of the plain text is zero, so it has no name.
    NoZero,
    /// The offset of the first zero, where the octets before it are too few.
    Lead(usize),
    /// Nothing follows that zero.
    EmptyName,
    /// The octets behind it are no name.
    BadName,
}
