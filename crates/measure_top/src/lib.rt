//! What two images need: the sources of one image, measured in a second image of the same file, and the words that ask for it.
#![tactic(auto)]

mod answer;
mod cutting;
mod measuring;
mod order;
mod picking_near;

pub use answer::measure_input;
pub use measuring::{Measured, put_measured};
pub use order::{MeasureOrder, read_measure};

#[cfg(test)]
mod measuring_tests;
#[cfg(test)]
mod order_tests;
