//! The metadata at the head of an eCryptfs body, or in its attribute: its fields, its checks in their order, and new
//! metadata.
#![tactic(auto)]

mod fields;
mod header;
#[cfg(test)]
mod linux_header;
mod meta;
mod new_metadata;
mod read_again;
#[cfg(test)]
mod tests;

pub use header::read_header;
pub use meta::{Meta, NewMeta};
pub use new_metadata::{write_header, write_size};
pub use packet_model::{BadCause, MAX_SIZE, MetaPlace, MetadataError as HeaderError};
pub use read_again::{new_metadata_is_read_again, new_size_is_read_again};
