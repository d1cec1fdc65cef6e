//! Canonical numbering: the component tree (max-tree) that the links of a forest stand for, with its nodes in the order of
//! levels and pixels.
//!
//! Whichever way a forest came about, by flooding strips in any order and joining them, the tree is the same: the pixel that
//! represents a component is the last one of its level on the walk along the links, and so the least pixel of that level. The
//! parent of its node is the node of its link.
#![tactic(auto)]

mod bands;
mod counting;
mod nodes;
mod numbers;
mod rows;

ghost use Rattle.std.specs.Prelude.{◌≡◌, ◌⊎◌, length, IfOk};
ghost use Rattle.comp_tree.specs.declared.shape.Connect.{Connect};
ghost use Rattle.comp_tree.specs.declared.shape.Connect.TheVariants.{Four, Eight};
ghost use Rattle.comp_tree.specs.Components.{tree_of};
ghost use Rattle.comp_tree.specs.Forest.{IsForest, StandsForAll};

use bands::find_canonical;
use comp_tree::{Forest, Plane, Tree};
use costs::OutOfMemory;
use nodes::number_nodes;
use rows::set_parents;
use std::alloc::Global;
use std::thread::Threads;

/// The component tree of a plane, from a forest that stands for all its adjacencies under connectivity 4 or 8. The call isn't
/// told which of the two, so the links decide the tree. It takes one pass over the pixels to find the nodes, one to number the
/// pixels, and a few over the nodes. Where the nodes' levels span at most twice their number, a table puts the nodes in order, in
/// linear time; elsewhere they are sorted, where `parts` is more than 1 by as many threads as the machine has processors for.
///
/// The nodes are looked for in at most `parts` bands of pixels, each in a thread of its own where one can be made; 0 counts as 1.
/// A band has at least 65,536 pixels, but for the last, so a small plane has one band, which starts no thread.
///
/// Order: the nodes' pixels are listed one band after the other, so in the order of pixels, as one band alone lists them. The tree
/// depends neither on `parts` nor on the schedule.
///
/// Memory: a node's pixel takes four bytes in the list of its band and, before that list is given back, four more in the list of all.
/// The one error is that memory was refused.
pub fn canon<R: Threads + Sync>(
    rt: &R,
    alloc: Global,
    plane: &Plane,
    forest: &Forest,
    parts: u32,
) -> Result<Tree, OutOfMemory>
    requires one_each { length forest.now ≡ length plane.now.values }
    requires forest { IsForest plane.now.values 0 forest.now }
    requires stands { StandsForAll plane.now Four forest.now
        ⊎ StandsForAll plane.now Eight forest.now }
    ensures { IfOk result (λ tree. (connect : Connect)
        → StandsForAll plane.now connect forest.now
        → tree ≡ tree_of plane.now connect) }
{
    let shape = plane.shape();
    let links = forest.parents();
    let pixels = find_canonical(rt, alloc, plane, links, parts)?;
    let mut made = number_nodes(rt, alloc, plane, links, &pixels, parts)?;
    set_parents(links, &made.numbers, &pixels, &mut made.rows);
    Ok(Tree::of(shape, made.rows, made.numbers))
}

#[cfg(test)]
mod tests;
