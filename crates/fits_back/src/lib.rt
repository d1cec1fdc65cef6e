//! The way back from written HDUs: from the bytes of an empty primary, a map or a table to what they are made of.
//!
//! It accepts exactly what `fits_write` writes: each card is compared with the one that stands there in a written HDU, and the bytes that
//! fill the last block with those that are written there. Any other FITS file is refused, however well formed it is.
#![tactic(auto)]

mod data;
mod front;
pub mod laws;
mod map;
mod primary;
mod table;

pub use map::{SplitMap, split_map};
pub use primary::split_primary;
pub use table::{SplitTable, split_table};

#[cfg(test)]
mod tests;
