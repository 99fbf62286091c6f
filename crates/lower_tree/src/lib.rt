//! The lower parts of a mount as the crates above know them: lower trees, stores of names and of bodies, and what makes them.
#![tactic(auto)]

mod bodies;
mod error;
mod format;
mod lent;
mod maker;
mod names;
mod steps;

pub use bodies::LowerBodies;
pub use body_model::{Content, Opened};
pub use error::{Failed, LowerError};
pub use format::{BodyFormat, Extent, OpenFault};
pub use lower_model::{
    Items, Kind, LONGEST_ATTRIBUTE, LowerNode, LowerTree, MOST_ENTRIES, OpenDir, comes_before,
    is_name,
};
pub use maker::{LowerMaker, Parts};
pub use names::LowerNames;
pub use names_model::{CodingFault, Linked, LowerName, NameFault};
pub use packet_model::{BadCause, EXTENT_SIZE, MAX_SIZE, MetaPlace};
pub use steps::Steps;
