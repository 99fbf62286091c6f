//! The modes CBC and ECB of AES-128 (NIST SP 800-38A) on texts of whole blocks, worked in place.
#![tactic(auto)]

mod blocks;
mod cbc;
mod ecb;

pub use cbc::{cbc_decrypt, cbc_encrypt};
pub use ecb::{ecb_decrypt, ecb_encrypt};

#[cfg(test)]
mod tests;
