//! What each job makes of a plane and its tree, the list of nodes, a filtered plane, the sources or the sums of a trial, and how that is written.
#![tactic(auto)]

mod detection;
mod lines;
mod product;
mod rounds;
mod standing;
mod texts;
mod trial;

pub use detection::{Detection, detect, detect_on_sheet, put_detection};
pub use fits_write::WriteFault;
pub use lines::{Nodes, node_areas, put_tree};
pub use product::{Product, ground_of, make_of, write};
pub use standing::Ground;
pub use trial::{Summary, put_trial, summarize, trial_image};

#[cfg(test)]
mod product_tests;
#[cfg(test)]
mod rounds_tests;
#[cfg(test)]
mod tests;
