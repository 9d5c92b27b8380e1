//! The image, which a device loads and calls, and its layout in bytes, version 1: writing and reading.
#![tactic(auto)]

mod image;
mod length;
mod reading;
mod writing;

pub use image::Image;
pub use length::{code_offset, image_length};
pub use reading::read_image;
pub use writing::write_image;

#[cfg(test)]
mod tests;
