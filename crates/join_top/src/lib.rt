//! The run of `join`: the files of an image's tiles are read, and the catalogue and the map of the whole are written.
#![tactic(auto)]

mod ends;
mod making;
mod notes;
mod reading;
mod top;

pub use ends::{JoinEnd, JoinRefusal};
pub use top::{end_of_join, run_join};

#[cfg(test)]
mod tests;
