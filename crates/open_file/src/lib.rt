//! One open file over any store of bodies and any format: its whole content, decoded, with marks of what is still to be written.
#![tactic(auto)]

mod buffers;
mod file;
mod opening;
mod sizes;
mod writing;

pub use file::{OpenFile, open};
pub use opening::OpenError;
