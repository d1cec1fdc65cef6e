//! The tiles of an image, joined: the catalogue and the map of the whole from what windows of it tell.
#![tactic(auto)]

mod fault;
mod joining;
pub mod laws;
mod marking;
mod placing;
#[cfg(test)]
mod tests;
mod tiles;
mod writing;

pub use fault::{JoinFault, JoinStop};
pub use joining::{Joined, join};
pub use tiles::{Frame, TileCatalogue};
