//! From the header and the data of a chosen HDU to a plane of whole numbers (FITS Standard 4.0, sections 4.4.1.1, 5.2 and 5.3); and the images of an
//! input, one or two: their HDUs are found and judged, and their pixels are read, or the first fault is told.
#![tactic(auto)]

mod check;
mod encoding;
mod fault;
mod image;
mod input_fault;
mod limits;
mod read;
mod runs;
mod two_images;
mod usual;

pub use check::{check_image, check_within};
pub use fault::{ImageFault, PixelPlace, PlaneFault, PlaneStop};
pub use image::{Stop, read_image};
pub use input_fault::{Fault, Place};
pub use limits::Limits;
pub use read::{read_plane, read_plane_within};
pub use two_images::{TwoPlanes, read_two};

#[cfg(test)]
mod input_tests;
#[cfg(test)]
mod tests;
