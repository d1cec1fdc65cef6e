//! What calls cost: memory that may be wanted, and steps that are counted.
#![tactic(auto)]

mod out_of_memory;
mod steps;

pub use out_of_memory::OutOfMemory;
pub use steps::Steps;

#[cfg(test)]
mod tests;
