//! The metadata of an eCryptfs file: its attribute alone where it has one, else the head of its body, and whether the
//! body is long enough for it.
#![tactic(auto)]

mod file_meta;
#[cfg(test)]
mod tests;

pub use file_header::{BadCause, HeaderError, MetaPlace};
pub use file_meta::{FileMeta, file_meta_in, read_meta};
pub use packet_set::Ring;
