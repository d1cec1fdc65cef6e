//! What a survey keeps is what the images' threshold components define. No program stands on this crate.
#![tactic(auto)]

pub mod laws;
pub mod written_tables;
