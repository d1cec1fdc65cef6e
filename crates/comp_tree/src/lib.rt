//! Planes of whole numbers, forests of links, and the component tree (max-tree) of a plane.
//!
//! The threshold set of a level is the set of the pixels of at least this value. The nodes of the tree are the connected
//! components of all threshold sets, and the parent of a node is the smallest component around it (Salembier, Oliveras
//! and Garrido 1998). A forest of links between pixels stands for such a tree while it is built in pieces (Wilkinson et
//! al. 2008). `specs/` defines both by paths of adjacent pixels, and `laws` says that the definitions fit together.
#![tactic(auto)]

mod canvas;
mod forest;
mod grid;
mod kept;
pub mod laws;
mod pixel;
mod pixels;
mod plain;
mod plane;
#[cfg(test)]
mod run_tests;
mod shape;
#[cfg(test)]
mod tests;
mod tree;

pub use canvas::Canvas;
pub use forest::{Forest, is_forest};
pub use grid::neighbours;
pub use pixel::Pixel;
pub use plain::plain_tree;
pub use plane::Plane;
pub use shape::{Connect, Shape};
pub use tree::{NodeRow, Tree};

/// Stands for "no pixel" and "no node". An image has at most 2^31 - 1 pixels, so it is the number of none of them.
pub const NONE: u32 = u32::MAX;
