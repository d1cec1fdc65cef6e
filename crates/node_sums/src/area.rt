//! How many pixels the component of each node has.

ghost use Rattle.std.specs.Prelude.{◌≡◌, IfOk, length, map};
ghost use Rattle.comp_tree.specs.declared.shape.Connect.{Connect};
ghost use Rattle.comp_tree.specs.Raster.{IsPlane};
ghost use Rattle.comp_tree.specs.Components.{tree_of};
ghost use Rattle.node_sums.specs.Sums.{sums_in, IsTreeOfPlane};
ghost use Rattle.node_sums.specs.Areas.{areas_in};
ghost use Rattle.node_sums.specs.AreaPasses.{AreCounts, AreSoFar};

use comp_tree::{NONE, Plane, Tree};
use costs::OutOfMemory;
use std::alloc::Global;

/// The area of each node of a plane's tree in pixels, in the order of their numbers: one pass over the pixels' nodes,
/// without a look at a value, and one over the nodes from the last to the first. The one error is that memory was
/// refused.
pub fn areas(alloc: Global, plane: &Plane, tree: &Tree) -> Result<Vec<u32>, OutOfMemory>
    requires { IsTreeOfPlane plane.now tree.now }
    ensures exact { IfOk result (λ areas. (connect : Connect) → tree.now ≡ tree_of plane.now connect
        → areas.items ≡ areas_in plane.now connect) }
    ensures of_sums { IfOk result (λ areas. (connect : Connect)
        → tree.now ≡ tree_of plane.now connect
        → areas.items ≡ map (λ s. s.area) (sums_in plane.now connect)) }
{
    let mut areas = vec![in alloc; 0u32; tree.rows().len()]?;
    count_pixels(plane, tree.node_of(), &mut areas);
    add_to_parents(plane, tree, &mut areas);
    Ok(areas)
}

// Counts each pixel at the place of its smallest node. An undefined pixel's number, `NONE`, lies outside of every list.
fn count_pixels(plane: &Plane, node_of: &[u32], areas: &mut [u32])
    requires one_each { length node_of.now ≡ length plane.now.values }
    requires none { AreCounts node_of.now 0 areas.old }
    ensures counts { AreCounts node_of.now (length plane.now.values) areas.new }
    ensures plane { IsPlane plane.now }
{
    let shape = plane.shape();
    for p in 0..shape.pixels() {
        let node = node_of[p as usize] as usize;
        if node < areas.len() {
            areas[node] += 1;
        }
    }
}

// Adds each node's area, from the last to the first, to that of its parent, whose number is smaller.
fn add_to_parents(plane: &Plane, tree: &Tree, areas: &mut [u32])
    requires tree { IsTreeOfPlane plane.now tree.now }
    requires plane { IsPlane plane.now }
    requires own { AreSoFar plane.now tree.now (length tree.now.rows) areas.old }
    ensures { AreSoFar plane.now tree.now 0 areas.new }
{
    let rows = tree.rows();
    for n in (0..rows.len()).rev() {
        let parent = rows[n].parent;
        if parent != NONE {
            let area = areas[n];
            areas[parent as usize] += area;
        }
    }
}
