//! A tile as a FITS file (FITS Standard 4.0), and back. The file has an empty primary HDU, a table `TILE` of boxes of the image (the image itself, the
//! window, the core and the open boxes), the map of the window and the table of the rows. It holds all that a tile tells, so tiles can be made in one
//! place and joined in another.
#![tactic(auto)]

mod boxes;
mod frames;
pub mod laws;
mod parts;
mod reading;
mod rows;
#[cfg(test)]
mod tests;
mod writing;

pub use reading::{TileAhead, split_tile, split_tiles};
pub use rows::row_cells;
pub use writing::{TileFile, file_of, put_file};
