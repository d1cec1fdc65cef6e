//! The runs of all words: what they read, what they make of it, and what they write.
#![tactic(auto)]

pub mod laws;
mod making;
mod top;

pub use run_relation::End;
pub use top::{end_within, read_words, run, run_all, run_within};

#[cfg(test)]
mod detection_tests;
#[cfg(test)]
mod device_tests;
#[cfg(test)]
mod filter_tests;
#[cfg(test)]
mod header_tests;
#[cfg(test)]
mod in_memory;
#[cfg(test)]
mod limits_tests;
#[cfg(test)]
mod measure_tests;
#[cfg(test)]
mod strips_tests;
#[cfg(test)]
mod tests;
#[cfg(test)]
mod trial_tests;
#[cfg(test)]
mod wide_tests;
