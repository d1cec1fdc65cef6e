//! The runs of `tile` and `join`: what they read, what they make of it, and what they write.
#![tactic(auto)]

mod tiling;

pub use tiling::{end_of_tile, run_tile};

#[cfg(test)]
mod tests;
