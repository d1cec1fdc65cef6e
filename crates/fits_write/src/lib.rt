//! Writing HDUs: an empty primary, a plane, a map of numbers and a table of whole numbers (FITS Standard 4.0); the form of a catalogue, and
//! the way back from the bytes of its rows to their cells. The laws say that this way undoes the other.
//!
//! Each call that writes gives its sink whole blocks of 2,880 bytes: the header's cards in fixed format, filled with spaces, and then
//! the numbers, the most significant byte first, filled with zero bytes. Nothing that writes takes memory.
#![tactic(auto)]

mod blocks;
mod columns;
mod fault;
mod header;
pub mod laws;
mod map;
mod plane;
mod primary;
mod rows;
mod table;

pub use columns::{
    BYTES_IN_ROW, CELLS_IN_ROW, FLUX, MEASURED_CELLS_IN_ROW, NUMBER, XCEN, YCEN, catalogue_columns,
    measured_columns,
};
pub use fault::WriteFault;
pub use map::{map_cards, put_map};
pub use plane::put_plane;
pub use primary::{primary_cards, put_empty_primary};
pub use rows::add_row;
pub use table::{Cell, Column, column_cards, named_back, put_named_table, put_table, table_front};

#[cfg(test)]
mod tests;
