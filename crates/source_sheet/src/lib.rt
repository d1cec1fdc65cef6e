//! Sources of a plane whose high pixels are few. The pixels of at least the threshold are copied, group by group and each with what is beside
//! it, onto a sheet: a small plane, which then has the same sources. Its component tree takes time and memory for these pixels alone, and rows
//! and map are taken back to the plane.
#![tactic(auto)]

mod back;
mod beside;
mod checking;
mod copying;
mod groups;
mod holding;
mod layout;
mod map;
mod marks;
mod sheet;
mod tops;

pub use back::{SheetDetection, sources_of_sheet};
pub use sheet::{Place, Sheet, lay_out};
pub use tops::{PickedSource, SheetSources, sources_with_tops};

#[cfg(test)]
mod tests;
