//! Reads the image of a lower tree, and writes it.
#![tactic(auto)]

mod error;
mod fields;
mod image_reader;
mod image_writer;
mod lengths;
mod path;
#[cfg(test)]
mod tests;

pub use image_model::{ImageError, ImageFault, ImageKind};
pub use image_reader::read_image;
pub use image_writer::{append_image, write_image};
pub use lengths::image_length;
