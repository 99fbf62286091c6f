//! The coding of octets as letters, 6 bits a letter, in which coded names are written.
#![tactic(auto)]

mod decoder;
mod encoder;
mod error;
mod letters;
mod read_again;
#[cfg(test)]
mod tests;

pub use decoder::decode;
pub use encoder::encode;
pub use error::CodingError;
pub use names_model::CodingFault;
pub use read_again::coded_octets_are_read_again;
