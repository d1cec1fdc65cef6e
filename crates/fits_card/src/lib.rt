//! One card of a FITS header: the value it has, and the cards that a program writes (FITS Standard 4.0, section 4).
#![tactic(auto)]

mod field;
pub mod laws;
pub mod number;
mod read;
mod write;

pub use read::{has_value, integer, is_end, logical, name, text, whole};
pub use write::{end_card, int_card, logical_card, text_card};

/// The 80 bytes of a card. Its columns are numbered from 1: the keyword stands in columns 1 to 8, and the value field is columns 11 to 80.
pub type Card = [u8; 80];

#[cfg(test)]
mod tests;
