//! Sources, their segmentation map and their catalogue, from the component tree of a plane.
#![tactic(auto)]

mod catalogue;
mod choice;
mod clearing;
pub mod laws;
mod marking;
mod picking;
mod segmenting;
mod splitting;
#[cfg(test)]
mod tests;

pub use catalogue::{CatRow, cells, row};
pub use choice::Choice;
pub use clearing::{clear_far, near};
pub use picking::{Picked, pick, pick_by_outlines};
pub use segmenting::{segment, segment_in_parts};
