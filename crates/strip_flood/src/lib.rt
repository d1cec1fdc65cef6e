//! Floods one strip of a plane by a queue with one list for each value, as Salembier, Oliveras and Garrido (1998) describe.
#![tactic(auto)]

mod by_order;
mod by_table;
mod filled;
mod flood;
mod job;
mod levels;
mod strip;

// A crate can name a job in a contract only if the types of its fields are exported.
#[doc(hidden)]
pub use flood::Flood;
pub use job::StripJob;
#[doc(hidden)]
pub use strip::Strip;

#[cfg(test)]
mod tests;
