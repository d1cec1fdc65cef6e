//! The words of the commands that make a tile and that join tiles.
#![tactic(auto)]

mod places;
#[cfg(test)]
mod tests;
mod words;

pub use words::{TileOrder, read_join, read_tile_order};
