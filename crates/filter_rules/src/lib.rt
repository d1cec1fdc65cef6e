//! Filters of a plane by its component tree: four rules of which nodes are kept, and the plane that they leave.
#![tactic(auto)]

mod filtering;
mod keeping;
pub mod laws;
mod rule;

pub use filtering::filter;
pub use rule::{Criterion, Rule};

#[cfg(test)]
mod tests;
