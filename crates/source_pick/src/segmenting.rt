//! The segmentation map: the number of the source that holds each pixel.

ghost use Rattle.std.specs.Prelude.{◌≡◌, ◌+◌, ◌≤◌, ◌<◌, ◌^◌, ℕ, List, IfOk, length, replicate, slice_index};
ghost use Rattle.comp_tree.specs.declared.shape.Connect.{Connect};
ghost use Rattle.comp_tree.specs.Raster.{Raster};
ghost use Rattle.comp_tree.specs.Components.{tree_of};
ghost use Rattle.node_sums.specs.DisjointNodes.{AreDisjointNodes, AreNumbered};
ghost use Rattle.source_pick.specs.Segmentation.{segmentation_of};
ghost use Rattle.source_pick.specs.Passes.{HavePixelNumbers};

use comp_tree::{NONE, Tree};
use costs::OutOfMemory;
use node_sums::numbers_of_nodes;
use std::alloc::Global;
use std::thread;
use std::thread::Threads;

/// For each pixel the number of the source that holds it, from 1, else 0: a pass over the nodes and one over the pixels.
/// The one error is that memory was refused.
pub fn segment(alloc: Global, tree: &Tree, sources: &[u32]) -> Result<Vec<u32>, OutOfMemory>
    requires { AreDisjointNodes tree.now sources.now }
    ensures exact { IfOk result (λ numbers. (plane : Raster) (connect : Connect)
        → tree.now ≡ tree_of plane connect
        → numbers.items ≡ segmentation_of plane connect sources.now) }
    ensures one_each { IfOk result (λ numbers. length numbers.items ≡ length tree.now.node_of) }
    ensures few { IfOk result (λ numbers. (p : ℕ) → slice_index numbers.items p ≤ 2147483647) }
{
    let numbers = numbers_of_nodes(alloc, tree, sources)?;
    let mut map = zeros(alloc, tree.node_of().len())?;
    number_all(tree, &numbers, &mut map);
    Ok(map)
}

/// The same numbers, with the pixels shared out in `parts` bands of rows, each in a thread of its own where one can be
/// made; 0 counts as 1.
pub fn segment_in_parts<R: Threads + Sync>(
    rt: &R,
    alloc: Global,
    tree: &Tree,
    sources: &[u32],
    parts: u32,
) -> Result<Vec<u32>, OutOfMemory>
    requires { AreDisjointNodes tree.now sources.now }
    ensures exact { IfOk result (λ numbers. (plane : Raster) (connect : Connect)
        → tree.now ≡ tree_of plane connect
        → numbers.items ≡ segmentation_of plane connect sources.now) }
    ensures one_each { IfOk result (λ numbers. length numbers.items ≡ length tree.now.node_of) }
    ensures few { IfOk result (λ numbers. (p : ℕ) → slice_index numbers.items p ≤ 2147483647) }
{
    let numbers = numbers_of_nodes(alloc, tree, sources)?;
    let mut map = zeros(alloc, tree.node_of().len())?;
    number_bands(rt, tree, &numbers, tree.shape().band_size(parts), &mut map);
    Ok(map)
}

fn zeros(alloc: Global, count: usize) -> Result<Vec<u32>, OutOfMemory>
    ensures { IfOk result (λ numbers. numbers.items ≡ replicate count 0) }
{
    let numbers = vec![in alloc; 0u32; count]?;
    Ok(numbers)
}

// Fills the map.
fn number_all(tree: &Tree, numbers: &[u32], map: &mut [u32])
    requires numbers { length numbers.now ≡ length tree.now.rows }
    requires blank { map.old ≡ replicate (length tree.now.node_of) 0 }
    ensures { (marked : List ℕ) (plane : Raster) (connect : Connect)
        → AreDisjointNodes tree.now marked
        → AreNumbered tree.now marked (length tree.now.rows) numbers.now
        → tree.now ≡ tree_of plane connect → map.new ≡ segmentation_of plane connect marked }
{
    number_pixels(tree, numbers, 0, map);
}

// Fills the map in bands of `size` pixels.
fn number_bands<R: Threads + Sync>(rt: &R, tree: &Tree, numbers: &[u32], size: u32, map: &mut [u32])
    requires some { 0 < size }
    requires numbers { length numbers.now ≡ length tree.now.rows }
    requires blank { map.old ≡ replicate (length tree.now.node_of) 0 }
    ensures { (marked : List ℕ) (plane : Raster) (connect : Connect)
        → AreDisjointNodes tree.now marked
        → AreNumbered tree.now marked (length tree.now.rows) numbers.now
        → tree.now ≡ tree_of plane connect → map.new ≡ segmentation_of plane connect marked }
{
    thread::for_each_chunk_mut(
        rt,
        map,
        size as usize,
        &|start: usize, band: &mut [u32]|
            requires { (length numbers.now ≡ length tree.now.rows)
                × (start + length band.now ≤ length tree.now.node_of)
                × ((k : ℕ) → slice_index band.now k ≡ 0) }
            ensures { HavePixelNumbers tree.entry.now numbers.entry.now start (length band.entry.now) band.exit.now }
        { number_pixels(tree, numbers, start, band) },
    );
}

// A pixel has the number of its smallest node. The pixels are those from `start` on.
fn number_pixels(tree: &Tree, numbers: &[u32], start: usize, map: &mut [u32])
    requires numbers { length numbers.now ≡ length tree.now.rows }
    requires inside { start + length map.old ≤ length tree.now.node_of }
    requires blank { (k : ℕ) → slice_index map.old k ≡ 0 }
    ensures { HavePixelNumbers tree.now numbers.now start (length map.old) map.new }
{
    let node_of = tree.node_of();
    for k in 0..map.len() {
        let n = node_of[start + k];
        if n != NONE {
            let number = numbers[n as usize];
            map[k] = number;
        }
    }
}
