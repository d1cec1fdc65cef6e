//! A tile of an image: what detection in a window tells of the whole, and of which components it may not know all.
#![tactic(auto)]

mod cells;
mod making;
mod opening;
mod placing;
mod rows;
#[cfg(test)]
mod tests;

pub use making::{TileStop, make_tile};
pub use placing::{TilePlace, is_placed};
