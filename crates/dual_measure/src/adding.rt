//! The measures of all nodes: each pixel is added at its smallest node, and each node at its parent.

ghost use Rattle.std.specs.Prelude.{◌≡◌, ℕ, ◌*◌, ◌<◌, IfOk, length, map, replicate, slice_get, Some};
ghost use Rattle.comp_tree.specs.declared.shape.Connect.{Connect};
ghost use Rattle.comp_tree.specs.Raster.{Raster, IsPlane, HasValuesInRange};
ghost use Rattle.comp_tree.specs.Components.{tree_of};
ghost use Rattle.dual_measure.specs.declared.values.Measure.{Measure as Entry};
ghost use Rattle.dual_measure.specs.Measures.{measures_of, HasMeasureSizes, IsPlanesTree, AreTheTreesMeasures};
ghost use Rattle.dual_measure.specs.Adding.{blank_measure, settled_measure, AreOfFront, AreDownTo};

use crate::values::Measure;
use comp_tree::{NONE, Plane, Tree};
use costs::OutOfMemory;
use std::alloc::Global;

/// The measure of each node of a max-tree (Salembier, Oliveras and Garrido 1998) in the values of a second plane, in
/// the order of their numbers: one pass over the pixels, and one over the nodes from the last to the first. A node's
/// pixels are those that it has in its own plane, also where they are undefined in the values. The one error is that
/// memory was refused.
pub fn measures(alloc: Global, values: &Plane, tree: &Tree) -> Result<Vec<Measure>, OutOfMemory>
    requires shape { values.now.shape ≡ tree.now.shape }
    requires tree { IsPlanesTree tree.now }
    ensures exact { IfOk result (λ measures. (plane : Raster) (connect : Connect) → IsPlane plane
        → tree.now ≡ tree_of plane connect
        → measures.items ≡ measures_of values.now plane connect) }
    ensures the_trees { IfOk result (λ measures. AreTheTreesMeasures tree.now measures.items) }
    ensures small { IfOk result (λ measures. (n : ℕ) (entry : Entry)
        → slice_get measures.items n ≡ Some entry → HasMeasureSizes entry) }
{
    let mut entries = vec![in alloc; Measure::blank(); tree.rows().len()]?;
    fill(values, tree, &mut entries);
    Ok(entries)
}

// Makes the entries, of which none has a pixel yet, those of the nodes.
fn fill(values: &Plane, tree: &Tree, entries: &mut [Measure])
    requires shape { values.now.shape ≡ tree.now.shape }
    requires tree { IsPlanesTree tree.now }
    requires blank { entries.old ≡ replicate (length tree.now.rows) blank_measure }
    ensures exact { (plane : Raster) (connect : Connect) → IsPlane plane
        → tree.now ≡ tree_of plane connect
        → entries.new ≡ measures_of values.now plane connect }
    ensures the_trees { AreTheTreesMeasures tree.now entries.new }
{
    add_pixels(values, tree.node_of(), entries);
    add_to_parents(values, tree, entries);
    settle(entries);
}

// Adds each pixel to the entry of its smallest node. The number `NONE` of a pixel without a node lies outside of every list.
fn add_pixels(values: &Plane, node_of: &[u32], entries: &mut [Measure])
    requires one_each { length node_of.now ≡ values.now.shape.width * values.now.shape.height }
    requires none { AreOfFront values.now node_of.now 0 entries.old }
    ensures own { AreOfFront values.now node_of.now (length values.now.values) entries.new }
    ensures plane { IsPlane values.now }
    ensures in_range { HasValuesInRange values.now.values }
{
    let shape = values.shape();
    for p in 0..shape.pixels() {
        let node = node_of[p as usize] as usize;
        if node < entries.len() {
            let pixel = Measure::of_pixel(values.get(p));
            entries[node] = entries[node].combined(&pixel);
        }
    }
}

// Adds each node's entry, from the last to the first, to that of its parent, whose number is smaller.
fn add_to_parents(values: &Plane, tree: &Tree, entries: &mut [Measure])
    requires tree { IsPlanesTree tree.now }
    requires plane { IsPlane values.now }
    requires in_range { HasValuesInRange values.now.values }
    requires own { AreDownTo values.now tree.now (length tree.now.rows) entries.old }
    ensures { AreDownTo values.now tree.now 0 entries.new }
{
    let rows = tree.rows();
    for n in (0..rows.len()).rev() {
        let parent = rows[n].parent;
        if parent != NONE {
            let whole = entries[parent as usize].combined(&entries[n]);
            entries[parent as usize] = whole;
        }
    }
}

// Where no pixel is seen there is no least and no greatest value.
fn settle(entries: &mut [Measure])
    ensures { entries.new ≡ map settled_measure entries.old }
{
    for n in 0..entries.len() {
        entries[n] = entries[n].settled();
    }
}
