//! Reads the lines of a text and the fields of a line: numbers, octets in hexadecimal, names and paths.
#![tactic(auto)]

mod cut;
mod hexadecimal;
mod name;
mod number;
mod path;

pub use cut::{cut_at, first_line};
pub use hexadecimal::{read_hex, read_hex_array};
pub use name::read_name;
pub use number::{read_number, read_saturated};
pub use path::read_path;

#[cfg(test)]
mod tests;
