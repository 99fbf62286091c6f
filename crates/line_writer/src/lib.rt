//! Writes fields and lines behind the octets of an output, as jobs and reports spell them. After
//! want of memory the output has what it held, and maybe a part of the field behind it.
#![tactic(auto)]

mod field;
mod name;
#[cfg(test)]
mod tests;

pub use field::{put_hex, put_line_end, put_number, put_space, put_word};
pub use name::{put_entry_path, put_name, put_path};
