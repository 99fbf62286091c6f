//! A lock by which sessions take turns at one state, and each keeps what it has seen of the one log; and what such a state is made of:
//! a chain of entries, whose links are made before a turn, and turns that add one each.
#![tactic(auto)]

mod chain;
mod ends;
mod holder;
mod lock;
mod seat;
mod steps;
mod turn;

pub use chain::{Chain, Link};
pub use ends::LockFault;
pub use lock::TurnLock;
pub use seat::{Note, Seat};
pub use turn::{Logged, Turn};

#[cfg(test)]
mod tests;
