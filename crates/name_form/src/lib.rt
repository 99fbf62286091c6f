//! Forms of names: which upper name a lower name stands for, and which lower name an upper name is written as.
#![tactic(auto)]

mod form;
mod lent;

pub use form::{NameError, NameForm};
pub use names_model::{CodingFault, NameFault};
