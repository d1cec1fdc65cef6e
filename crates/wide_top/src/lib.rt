//! Every command line of `maxwide`: `tile` and `join` work on tiles of an image, and all other words are those of `maxdetect`.
#![tactic(auto)]

mod top;

pub use top::run_wide;

#[cfg(test)]
mod tests;
