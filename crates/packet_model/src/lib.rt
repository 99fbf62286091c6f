//! Packets and file metadata of eCryptfs as definitions: what spells them, what octets are read as, and the causes
//! of a bad file in their order.
#![tactic(auto)]

mod cause;
mod error;
mod layout;
mod length;
mod packet;
mod tag;

pub use cause::BadCause;
pub use error::MetadataError;
pub use layout::{
    AES_128, ENCRYPTED_FLAG, EXTENT_SIZE, HMAC_FLAG, MARKER, MAX_META_SIZE, MAX_SIZE,
    MIN_META_SIZE, SET_END, SET_OFFSET, VERSION,
};
pub use length::{LengthFault, MAX_LENGTH};
pub use lower_model::MetaPlace;
pub use packet::{MAX_WRAPPED, PacketError, Pair, Tag3, Tag11};
pub use tag::{TAG1, TAG3, TAG11};
