//! How a run ends: its status, its line on the notes, and the relation that says what a run does to its input, its output and its notes by what its
//! words ask. The crates above make the runs, each of its own words.
#![tactic(auto)]

mod ends;
mod notes;

pub use ends::End;
pub use notes::tell;

#[cfg(test)]
mod tests;
