//! The set of packets in a file's metadata: which key of a mount's ring wraps the file key, and the file key.
#![tactic(auto)]

mod key_search;
mod own_pair;
mod pair;
mod ring;
mod spelled_sets;
#[cfg(test)]
mod tests;
mod wrapping;

pub use key_search::{Found, find_key};
pub use packet_model::MetadataError as SetError;
pub use ring::{OneKeyRing, Ring};
pub use spelled_sets::sets_are_read_as_spelled;
pub use wrapping::{unwrap, wrap, wrapping_is_one_to_one};
