//! A session: its script, what it asks, what it is told, and the replies that it keeps.
#![tactic(auto)]

mod begin;
mod hear;
mod script;
mod session;
#[cfg(test)]
mod tests;

pub use script::Script;
pub use script_model::Op;
pub use session::Session;
pub use session_model::{Answer, Ask, FileCall, FileReply, Reply};
pub use tree_model::{TreeCall, TreeReply};
