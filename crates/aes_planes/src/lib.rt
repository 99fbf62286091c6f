//! The inverse cipher of AES-128 (FIPS 197, 5.3) on eight blocks at once, by bit planes.
//!
//! A step of the cipher is a circuit of gates, and each gate is one operation on a vector that has one bit of each octet of the eight blocks.
#![tactic(auto)]

mod plane_keys;
mod planes;
mod steps;
mod sub_bytes;
mod transpose;

pub use plane_keys::PlaneKeys;
pub use planes::{Planes, as_block};
