//! An engine that is made of an image, or the first finding for which the image is refused.
#![tactic(auto)]

mod bytes;
mod checks;
mod contents;
mod fault;
mod forest;
mod indexes;
mod live;
mod making;
mod opening;
mod parts;
mod tables;

pub use fault::{Finding, ImageFault};
pub use making::from_image;
pub use opening::{OpenedImage, examine};
