//! Headers and data units of a FITS file (FITS Standard 4.0, sections 3 and 4.4): an HDU is found by its number in a stream of bytes,
//! from its start or from an HDU that was found before.
#![tactic(auto)]

mod answer;
mod axes;
mod cards;
mod fault;
mod finding;
mod header;
pub mod laws;
mod others;
mod stream;

pub use answer::{Hdu, Kind};
pub use fault::{CardPlace, HduFault, HduStop};
pub use finding::{find_after, find_hdu};

#[cfg(test)]
mod tests;
