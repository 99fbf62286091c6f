//! The image of a lower tree as definitions: its one spelling, its reading, and the first fault of octets that are none.
#![tactic(auto)]

mod fault;

pub use fault::{ImageError, ImageFault, ImageKind};
