use packet_model::MetaPlace;
use secret_key::Fek;

/// The metadata of a file. Its file key has to be spent.
#[derive(Debug)]
pub struct Meta {
    /// The size of the file's content, in octets.
    pub size: u64,
    /// The flags, 24 bits.
    pub flags: u32,
    /// The size of the metadata at the head of a body, in octets.
    pub meta_size: u64,
    /// The file key.
    pub fek: Fek,
}

/// What new metadata is made of.
#[derive(Clone, Copy, Debug, PartialEq, Eq)]
pub struct NewMeta {
    /// The size of the file's content, at most [`crate::MAX_SIZE`] octets.
    pub size: u64,
    /// The first number of the marker; it is free.
    pub m1: u32,
    /// The flags, 24 bits: 0x2 is set, 0x1 isn't.
    pub flags: u32,
    /// The salt of the key-encryption key.
    pub salt: [u8; 8],
    /// The wrapped file key.
    pub wrapped: [u8; 16],
    /// The signature of the key-encryption key.
    pub signature: [u8; 8],
    /// Where the metadata is going to stand.
    pub meta_place: MetaPlace,
}
