//! The map of a sheet's sources, taken to the plane.

ghost use Rattle.std.specs.Prelude.{◌≡◌, ◌≤◌, ◌*◌, ℕ, IfOk, length, slice_index};
ghost use Rattle.comp_tree.specs.declared.shape.Connect.{Connect};
ghost use Rattle.comp_tree.specs.Raster.{Raster};
ghost use Rattle.comp_tree.specs.Components.{tree_of};
ghost use Rattle.node_sums.specs.DisjointNodes.{AreDisjointNodes};
ghost use Rattle.source_pick.specs.Segmentation.{segmentation_of};
ghost use Rattle.source_sheet.specs.Checks.{LiesInBoth, LieInBoth};
ghost use Rattle.source_sheet.specs.Backs.{ArePutIn, AreTakenTo, ShowsNodes};

use crate::back::stands_at;
use crate::sheet::{Place, Sheet};
use comp_tree::{Shape, Tree};
use costs::OutOfMemory;
use source_pick::segment_in_parts;
use std::alloc::Global;
use std::thread::Threads;

/// For each pixel of the plane the number, from 1, of the node in the list that has it on the sheet, else 0. So many workers number the
/// sheet's pixels.
pub(crate) fn map_of_sheet<R: Threads + Sync>(
    rt: &R,
    alloc: Global,
    sheet: &Sheet,
    tree: Tree,
    nodes: &[u32],
    workers: u32,
) -> Result<Vec<u32>, OutOfMemory>
    requires disjoint { AreDisjointNodes tree nodes.now }
    requires placed { LieInBoth sheet.now.whole sheet.now.plane.shape sheet.now.places.items }
    requires of_sheet { tree.shape ≡ sheet.now.plane.shape }
    ensures shows { IfOk result (λ map. ShowsNodes tree sheet.now nodes.now map.items) }
    ensures one_each { IfOk result (λ map. length map.items ≡ sheet.now.whole.width * sheet.now.whole.height) }
    ensures few { IfOk result (λ map. (p : ℕ) → slice_index map.items p ≤ 2147483647) }
{
    let numbers = numbers_of_sheet(rt, alloc, tree, nodes, workers)?;
    let mut map = vec![in alloc; 0u32; sheet.whole.pixels() as usize]?;
    put_places(
        sheet.whole,
        sheet.plane.shape(),
        &sheet.places,
        &numbers,
        &mut map,
    );
    Ok(map)
}

// For each pixel of the sheet the number of the node that has it. The sheet's tree is gone when this returns, so that it takes no memory
// beside the map.
fn numbers_of_sheet<R: Threads + Sync>(
    rt: &R,
    alloc: Global,
    tree: Tree,
    nodes: &[u32],
    workers: u32,
) -> Result<Vec<u32>, OutOfMemory>
    requires { AreDisjointNodes tree nodes.now }
    ensures exact { IfOk result (λ numbers. (plane : Raster) (connect : Connect) → tree ≡ tree_of plane connect
        → numbers.items ≡ segmentation_of plane connect nodes.now) }
    ensures one_each { IfOk result (λ numbers. length numbers.items ≡ tree.shape.width * tree.shape.height) }
    ensures few { IfOk result (λ numbers. (p : ℕ) → slice_index numbers.items p ≤ 2147483647) }
{
    // for its clauses alone: how many pixels there are
    let _count = tree.node_of().len();
    segment_in_parts(rt, alloc, &tree, nodes, workers)
}

fn put_places(whole: Shape, onto: Shape, places: &[Place], numbers: &[u32], map: &mut [u32])
    requires placed { LieInBoth whole onto places.now }
    requires there { length numbers.now ≡ onto.width * onto.height }
    requires one_each { length map.old ≡ whole.width * whole.height }
    requires blank { (p : ℕ) → slice_index map.old p ≡ 0 }
    ensures { AreTakenTo whole.width onto.width places.now numbers.now (length places.now) map.new }
{
    for place in places {
        put_place(whole, onto, place, numbers, map);
    }
}

// A number that isn't 0 is one of a source, which has no pixel at any other place. So the places may overlap in the plane.
fn put_place(whole: Shape, onto: Shape, place: &Place, numbers: &[u32], map: &mut [u32])
    requires placed { LiesInBoth whole onto place.now }
    requires there { length numbers.now ≡ onto.width * onto.height }
    requires one_each { length map.old ≡ whole.width * whole.height }
    ensures { ArePutIn whole.width onto.width place.now numbers.now (place.now.shape.width * place.now.shape.height) map.old map.new }
{
    for q in 0..place.shape.pixels() {
        let there = stands_at(onto, place.to_left, place.to_top, place.shape, q);
        let number = numbers[there as usize];
        if number != 0 {
            let p = stands_at(whole, place.left, place.top, place.shape, q);
            map[p as usize] = number;
        }
    }
}
