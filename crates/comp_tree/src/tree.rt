//! Component trees as tables of nodes.

ghost use Rattle.std.specs.Prelude.{◌≡◌, ℕ, ◌+◌, ◌-◌, ◌*◌, ◌^◌, ◌≤◌, ◌<◌, ◌⊎◌, length, slice_index, All};
ghost use Rattle.comp_tree.specs.ComponentTree.{ComponentTree, IsWellFormed, no_node, parent_in};
ghost use Rattle.comp_tree.specs.Limits.{most_pixels};

use crate::shape::Shape;
use std::marker::Model;

/// A node of a component tree: its level, the pixel that represents it, and the number of its parent or `NONE`.
///
/// The level is the least value in the node's component, and `rep` the least pixel of this value there.
#[derive(Clone, Copy, PartialEq, Eq, Debug)]
pub struct NodeRow {
    pub level: i64,
    pub rep: u32,
    pub parent: u32,
}

/// A component tree (max-tree) as a table (Salembier, Oliveras and Garrido 1998).
///
/// The table of a plane's tree begins with its lowest nodes: rows stand by level, and those of one level by the pixels that
/// represent them. So a parent stands before its children, one pass downwards over the rows meets each node after its
/// children, and two programs that find the tree write the same table.
#[derive(Drop)]
pub struct Tree {
    shape: Shape,
    rows: Vec<NodeRow>,
    node_of: Vec<u32>,
}

impl Model for Tree {
    ghost use Rattle.comp_tree.specs.ComponentTree.{ComponentTree};

    ghost Value = { ComponentTree };

    ghost view = { λ tree. record { shape = tree.shape; rows = tree.rows.items; node_of = tree.node_of.items } };

    ghost use Rattle.comp_tree.specs.ComponentTree.{IsWellFormed};

    ghost invariant = { λ tree. IsWellFormed (record {
      shape = tree.shape;
      rows = tree.rows.items;
      node_of = tree.node_of.items;
    }) };
}

impl Tree {
    /// A tree of these rows, in which every number is that of a pixel or of a row, or `NONE`.
    pub fn of(shape: Shape, rows: Vec<NodeRow>, node_of: Vec<u32>) -> Tree
        requires { IsWellFormed
            (record { shape = shape; rows = rows.items; node_of = node_of.items }) }
        ensures { result ≡ record { shape = shape; rows = rows.items; node_of = node_of.items } }
    {
        Tree {
            shape,
            rows,
            node_of,
        }
    }

    /// The shape of the plane that the tree belongs to.
    pub fn shape(&self) -> Shape
        ensures same { result ≡ self.now.shape }
        ensures well_formed { IsWellFormed self.now }
    {
        self.shape
    }

    /// The nodes, each at the place of its number.
    pub fn rows(&self) -> &[NodeRow]
        ensures { result.now ≡ self.now.rows }
    {
        &self.rows
    }

    /// How many nodes there are: at most one for each pixel.
    pub fn node_count(&self) -> u32
        ensures all { result ≡ length self.now.rows }
        ensures few { result ≤ most_pixels }
    {
        self.rows.len() as u32
    }

    /// The number of the parent of node `n`, which is smaller than `n`, or `NONE` at a root.
    pub fn parent(&self, n: u32) -> u32
        requires { n < length self.now.rows }
        ensures same { result ≡ parent_in self.now.rows n }
        ensures smaller { (result ≡ no_node) ⊎ (result < n) }
        ensures few { length self.now.rows ≤ most_pixels }
    {
        self.rows[n as usize].parent
    }

    /// For each pixel the number of the smallest node that holds it, or `NONE` for an undefined pixel.
    pub fn node_of(&self) -> &[u32]
        ensures same { result.now ≡ self.now.node_of }
        ensures one_each { length result.now ≡ self.now.shape.width * self.now.shape.height }
        ensures inside { (p : ℕ) → p < length result.now
            → (slice_index result.now p ≡ no_node) ⊎ (slice_index result.now p < length self.now.rows) }
    {
        &self.node_of
    }
}
