ghost use Rattle.std.specs.Prelude.{◌≡◌};
ghost use Rattle.packet_model.specs.declared.packet.PacketError.TheVariants.{Memory};

use lower_model::Items;
use std::alloc::AllocError;
use thiserror::Error;

/// The most octets of a wrapped file key.
pub const MAX_WRAPPED: usize = 512;

/// The body of a tag 3 packet (RFC 2440, 5.3): a wrapped file key.
#[derive(Debug, Drop)]
pub struct Tag3 {
    /// The cipher of the file (RFC 2440, 9.2): 7, 8 and 9 are AES-128, AES-192 and AES-256.
    pub cipher: u8,
    /// The 8 octets of salt.
    pub salt: [u8; 8],
    /// The coded count of the iterations.
    pub count: u8,
    /// The wrapped file key, at most [`MAX_WRAPPED`] octets.
    pub wrapped: Items<u8>,
}

/// The body of a tag 11 packet (cf. RFC 2440, 5.9), without the fields that are skipped.
#[derive(Clone, Copy, Debug, PartialEq, Eq)]
pub struct Tag11 {
    /// The signature of the key that wraps the file key.
    pub signature: [u8; 8],
}

/// A tag 3 packet and the tag 11 packet right behind it.
#[derive(Debug, Drop)]
pub struct Pair {
    /// The wrapped file key.
    pub tag3: Tag3,
    /// The signature of the key that wraps it.
    pub tag11: Tag11,
}

/// Why a packet wasn't read.
#[derive(Clone, Copy, Debug, PartialEq, Eq, Error)]
pub enum PacketError {
    /// No such packet stands at the front.
    #[error("no such packet stands at the front")]
    Bad,
    /// Memory ran out.
    #[error("out of memory")]
    Memory,
}

impl From<AllocError> for PacketError {
    ghost from_gives = { λ _ e. e ≡ Memory };

    fn from(_e: AllocError) -> PacketError {
        PacketError::Memory
    }
}
