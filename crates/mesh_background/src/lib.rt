//! The background of an image, from the lower medians of the cells of a mesh, and the residual that is left without it. The
//! background is flat over each cell, or smooth: filtered by a median over the cells and interpolated between their centres.
#![tactic(auto)]

mod cells;
mod grid;
mod interpolation;
pub mod laws;
mod median;
mod slope;
mod smoothing;
mod subtraction;

pub use cells::{mesh_values, mesh_values_with};
pub use interpolation::level_at;
pub use smoothing::smooth_mesh;
pub use subtraction::{residual, residual_with, subtract_background, subtract_background_with};

#[cfg(test)]
mod tests;
