//! The image of a closed region: its words as bytes, with their sum.
#![tactic(auto)]

mod error;
mod law;
mod reading;
mod writing;

pub use error::ImageError;
pub use law::images_are_read_back;
pub use reading::read_image;
pub use writing::image_of;
