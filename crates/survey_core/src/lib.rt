//! A survey of many fields of the sky: the last accepted catalogue of each.
#![tactic(auto)]

mod catalogue;
mod fault;
mod field;
mod keeper;
pub mod laws;
mod listing;
mod mem_keeper;
mod notes;
mod ranking;
mod top;
mod words;

pub use catalogue::are_numbered;
pub use fault::Fault;
pub use field::Field;
pub use keeper::{Keeper, Refused};
pub use mem_keeper::MemKeeper;
pub use top::run_survey;
pub use words::path_of;
