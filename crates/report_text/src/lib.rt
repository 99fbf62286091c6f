//! Writes the report of a run: the replies of each session, the histories of the tree and of each
//! file, and the image of the lower tree after the run or the part that failed; and the show text
//! of an image.
#![tactic(auto)]

mod entry;
mod fields;
mod file_entry;
mod files;
mod reply;
mod report;
mod room;
mod show;

pub use report::{write_report, write_stuck};
pub use show::{put_show_end, put_show_head, put_show_item, write_show};
