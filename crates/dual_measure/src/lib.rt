//! The nodes of one image's component tree, measured in a second image of the same shape.
#![tactic(auto)]

mod adding;
mod around;
mod columns;
mod values;

pub use adding::measures;
pub use around::back;
pub use columns::measured_cells;
pub use values::Measure;

#[cfg(test)]
mod tests;
