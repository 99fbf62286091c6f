//! The listing of a plain tree: its entries with their paths, and its foreign entries.
#![tactic(auto)]

mod adding;

pub use adding::listing;
