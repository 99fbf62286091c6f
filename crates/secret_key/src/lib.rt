//! The secrets of a mount: the file keys, the key that wraps them and the key of names, which have to be
//! spent, and the source of new file keys. Nothing here takes memory.
//!
//! A key has no `Drop`, so in code without `unsafe` a path on which it is let go without `spend` does not
//! compile. `spend` can't end before the octets that it holds are zeros. A compiler may leave such writes
//! out, and local copies and those that moves left in memory are not wiped.
#![tactic(auto)]

mod file_key;
mod name_key;
mod secret;
mod source;
#[cfg(test)]
mod tests;
mod wrapping_key;

pub use file_key::{Fek, FekLoan};
pub use name_key::Fnek;
pub use source::KeySource;
pub use wrapping_key::Kek;
