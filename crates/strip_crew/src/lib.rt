//! Makes the component tree of a plane: floods its strips by several workers, and joins their trees.
//!
//! The rows of a plane are cut into strips. Each worker claims a strip at a table of claims, floods it (Salembier,
//! Oliveras and Garrido 1998), gives it back, and goes on until no strip is left. Then the trees of neighbouring
//! strips are joined at their boundaries (Wilkinson et al. 2008), groups of strips at once. No worker waits for
//! another, so which worker floods which strip depends on the schedule, but what the links stand for does not, and so
//! neither does the numbered tree.
#![tactic(auto)]

mod claiming;
mod component;
mod crew;
mod cut;
mod gate;
mod group;
pub mod laws;
mod prepare;
mod rule;
mod view;

pub use claiming::worker;
pub use component::component_tree;
pub use crew::flood_all;
pub use cut::even_cut;
pub use gate::{Gate, OpenGate};
pub use group::join_group;
pub use rule::{Claim, ClaimRule, ClaimSeat, ClaimTable, Dismiss, Give, Key, Recruit};
pub use view::View;

#[cfg(test)]
mod tests;
