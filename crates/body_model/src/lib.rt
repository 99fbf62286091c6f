//! Files as stores of bodies hold them, and formats of bodies: what a store's calls do, and what a lower file decodes to.
#![tactic(auto)]

mod content;
mod opened;

pub use content::Content;
pub use opened::Opened;
