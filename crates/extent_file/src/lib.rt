//! The files that eCryptfs encrypts, extent by extent: the format of a mount, and the content of a lower file, decoded as a whole.
#![tactic(auto)]

mod content;
mod ecryptfs;
mod extent;
mod extents;
#[cfg(test)]
mod format_tests;
mod new_file;
mod opening;
#[cfg(test)]
mod tests;

pub use body_model::Content;
pub use content::decode_body;
pub use ecryptfs::Ecryptfs;
pub use packet_set::Ring;
