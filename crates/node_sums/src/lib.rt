//! Sums over the components of a component tree's nodes, and the flux of a node.
#![tactic(auto)]

mod area;
mod entry;
pub mod laws;
mod listed;
mod measures;
mod numbering;
mod outline;

pub use area::areas;
pub use entry::Sums;
pub use listed::sums_of_nodes;
pub use measures::{base, flux, flux_by_outlines};
pub use numbering::numbers_of_nodes;
pub use outline::{Outline, outlines};

#[cfg(test)]
mod tests;
