//! The sums of some nodes that share no pixel: each pixel is added at the node that holds it.

ghost use Rattle.std.specs.Prelude.{◌≡◌, [], ℕ, ◌+◌, ◌*◌, ◌<◌, ◌≤◌, IsTrue, IfOk, length, map, slice_index, replicate};
ghost use Rattle.comp_tree.specs.declared.shape.Connect.{Connect};
ghost use Rattle.comp_tree.specs.Raster.{Raster, IsPlane, HasValuesInRange, pixels, is_defined};
ghost use Rattle.comp_tree.specs.Components.{tree_of};
ghost use Rattle.node_sums.specs.Sums.{sums_over, sums_of, IsTreeOfPlane, AreSumsOfNodes};
ghost use Rattle.node_sums.specs.DisjointNodes.{AreDisjointNodes};
ghost use Rattle.node_sums.specs.Merging.{AreOwn, AreOwnTo, places_of};

use crate::entry::Sums;
use crate::numbering::numbers_of_nodes;
use comp_tree::{Plane, Tree};
use costs::OutOfMemory;
use std::alloc::Global;

/// The sums of the listed nodes of a plane's tree, in the order of the list: one pass over the nodes, and one over the
/// pixels. The one error is that memory was refused.
pub fn sums_of_nodes(
    alloc: Global,
    plane: &Plane,
    tree: &Tree,
    nodes: &[u32],
) -> Result<Vec<Sums>, OutOfMemory>
    requires tree { IsTreeOfPlane plane.now tree.now }
    requires disjoint { AreDisjointNodes tree.now nodes.now }
    ensures exact { IfOk result (λ sums. (connect : Connect) → tree.now ≡ tree_of plane.now connect
        → sums.items ≡ map (sums_of plane.now connect) nodes.now) }
    ensures of_nodes { IfOk result (λ sums. AreSumsOfNodes tree.now nodes.now sums.items) }
{
    let numbers = numbers_of_nodes(alloc, tree, nodes)?;
    let mut sums = empty(alloc, nodes.len())?;
    add_pixels(plane, tree.node_of(), &numbers, &mut sums);
    Ok(sums)
}

// So many entries, each with no pixel.
fn empty(alloc: Global, count: usize) -> Result<Vec<Sums>, OutOfMemory>
    ensures { IfOk result (λ sums. (r : Raster) → sums.items ≡ replicate count (sums_over r [])) }
{
    let sums = vec![in alloc; Sums::none(); count]?;
    Ok(sums)
}

// Adds each defined pixel to the entry that has the number of its smallest node, from 1; 0 stands for no entry.
fn add_pixels(plane: &Plane, node_of: &[u32], numbers: &[u32], sums: &mut [Sums])
    requires nodes { (p : ℕ) → IsTrue (is_defined plane.now p)
        → slice_index node_of.now p < length numbers.now }
    requires numbers { (n : ℕ) → slice_index numbers.now n ≤ length sums.old }
    requires few { length sums.old ≤ 2147483647 }
    requires one_each { length node_of.now ≡ length plane.now.values }
    requires none { AreOwn plane.now (places_of numbers.now node_of.now) [] sums.old }
    ensures own { AreOwn plane.now (places_of numbers.now node_of.now) (pixels plane.now) sums.new }
    ensures plane { IsPlane plane.now }
    ensures in_range { HasValuesInRange plane.now.values }
{
    let shape = plane.shape();
    for row in 0..shape.height {
        add_row(plane, node_of, numbers, shape.width, row, sums);
    }
}

// Adds the defined pixels of one row, counted from 0. All rows before it were added. Behind an undefined pixel it goes on at the next
// defined one: so few pixels are passed quickly, and where all are defined, none is looked at twice.
fn add_row(plane: &Plane, node_of: &[u32], numbers: &[u32], width: u32, row: u32, sums: &mut [Sums])
    requires nodes { (p : ℕ) → IsTrue (is_defined plane.now p)
        → slice_index node_of.now p < length numbers.now }
    requires numbers { (n : ℕ) → slice_index numbers.now n ≤ length sums.old }
    requires few { length sums.old ≤ 2147483647 }
    requires one_each { length node_of.now ≡ length plane.now.values }
    requires plane { IsPlane plane.now }
    requires width { width ≡ plane.now.shape.width }
    requires row { row < plane.now.shape.height }
    requires before { AreOwnTo plane.now (places_of numbers.now node_of.now) (row * width) sums.old }
    ensures { AreOwnTo plane.now (places_of numbers.now node_of.now) (row * width + width) sums.new }
{
    let first = row * width;
    let end = first + width;
    let mut p = first;
    while p < end {
        if let Some(value) = plane.get(p) {
            let n = node_of[p as usize] as usize;
            let number = numbers[n];
            if number == 0 {
                p += 1;
            } else {
                let place = number as usize - 1;
                let pixel = Sums::of_pixel(p - first + 1, row + 1, p, value);
                sums[place] = sums[place].together(&pixel);
                p += 1;
            }
        } else {
            p = plane.next_defined(p + 1, end);
        }
    }
}
