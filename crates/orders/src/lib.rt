//! What the words ask for: the commands with their options, and the order that the words of a command give, or the first word at fault.
#![tactic(auto)]

mod options;
mod words;

pub use words::{Job, Order, Usage, read_order, read_order_within};

#[cfg(test)]
mod measure_tests;
#[cfg(test)]
mod tests;
