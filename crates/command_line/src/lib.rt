//! What the programs of this repository share at their command lines: their words, whole numbers in words, lines of text on
//! their way to a sink, and the line that names a word at fault.
#![tactic(auto)]

pub mod lines;
pub mod notes;
pub mod numbers;
#[cfg(test)]
mod tests;
pub mod words;
