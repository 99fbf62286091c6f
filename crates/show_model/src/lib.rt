//! What a show text tells of a job's image: its nodes in order, and what each file decodes to.
#![tactic(auto)]

mod item;

pub use item::{ShowItem, ShowWhat};
