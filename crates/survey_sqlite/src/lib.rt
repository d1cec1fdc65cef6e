//! The tables of a survey in a database. The tests are those of `survey_core` too: sessions, and keepers call by call, over tables in memory
//! and in a file, and databases that another program wrote.
#![tactic(auto)]

mod blob;
mod faults;
mod file_keeper;
mod reading;
mod schema;
mod shown;
mod statements;

pub use blob::{blob_of, cells_in_blob};
pub use file_keeper::FileKeeper;
pub use reading::{Unread, read_cells, read_names};
pub use statements::make_table;

#[cfg(test)]
mod foreign_tests;
#[cfg(test)]
mod keeper_tests;
#[cfg(test)]
mod sample;
#[cfg(test)]
mod session_tests;
#[cfg(test)]
mod sessions;
