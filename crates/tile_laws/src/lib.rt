//! The law of an image in pieces: detection runs over each piece alone, and their catalogues make that of the image.
#![tactic(auto)]

mod extents;
mod knowing;
pub mod laws;
#[cfg(test)]
mod tests;

pub use extents::{Extent, Interval, clear_extent, lies_deep};
pub use knowing::{WindowPlace, box_of, open_boxes};
