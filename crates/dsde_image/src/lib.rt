//! The image of a run, which a checkpoint holds: what it says of each part of a tree; images as JSON
//! values, as definitions; the text of an image, and images read from their text.
#![tactic(auto)]

mod fields;
mod image;
mod names;
mod reading;
mod rows;
mod writing;

pub use image::{Body, Image, Location, Row, Standing, Version};
pub use reading::{ReadImage, read_image};
pub use writing::write_image;
