//! The script of a session as data: its operations, and the limits of their fields.
#![tactic(auto)]

mod limits;
mod op;

pub use limits::{LONGEST_TRANSFER, MOST_OPERATIONS, OFFSET_LIMIT, SLOTS};
pub use op::Op;
