//! The rows of the nodes: one for each canonical pixel, which is a defined pixel whose link is `NONE` or has a smaller value (the
//! level roots of Wilkinson et al. 2008).

ghost use Rattle.std.specs.Prelude.{◌≡◌, ◌<◌, length, map, All, IfOk};
ghost use Rattle.std.specs.List.Sorted.{IsPermutation, IsSortedByKey};
ghost use Rattle.comp_tree.specs.Components.{in_order};
ghost use Rattle.comp_tree.specs.Forest.{IsForest};
ghost use Rattle.tree_canon.specs.Canonical.{is_canonical as is_canonical_in, loose_row, with_parent, level_and_pixel, level_then_pixel};
ghost use Rattle.tree_canon.specs.Places.{ArePixelsFrom, AreNumberedBy};

use crate::numbers::node_number_at;
use comp_tree::{NONE, NodeRow, Plane};
use costs::OutOfMemory;
use rayon::prelude::*;
use std::alloc::Global;
use std::thread::Threads;

// Whether a pixel is canonical. In a forest only a defined pixel has a link.
#[inline]
pub(crate) fn is_canonical(plane: &Plane, links: &[u32], p: u32) -> bool
    requires one_each { length links.now ≡ length plane.now.values }
    requires forest { IsForest plane.now.values 0 links.now }
    requires pixel { p < length plane.now.values }
    ensures { result ≡ is_canonical_in plane.now links.now p }
{
    let link = links[p as usize];
    if link == NONE {
        return plane.is_defined(p);
    }
    !plane.is_at_least(plane.level(p), link)
}

// The row of a canonical pixel, as yet without its parent.
#[inline]
pub(crate) fn loose(plane: &Plane, p: u32) -> NodeRow
    requires { p < length plane.now.values }
    ensures { result ≡ loose_row plane.now p }
{
    NodeRow {
        level: plane.level(p),
        rep: p,
        parent: NONE,
    }
}

// The rows of some pixels, in their order.
fn rows_of(alloc: Global, plane: &Plane, pixels: &[u32]) -> Result<Vec<NodeRow>, OutOfMemory>
    requires { ArePixelsFrom plane.now 0 pixels.now }
    ensures { IfOk result (λ rows. rows.items ≡ map (loose_row plane.now) pixels.now) }
{
    let mut rows = Vec::with_capacity(alloc, pixels.len())?;
    for p in pixels {
        rows.push(loose(plane, *p))?;
    }
    Ok(rows)
}

// Sorts rows by level and pixel: by threads where `parts` is more than 1.
fn sort_rows<R: Threads + Sync>(rt: &R, rows: &mut [NodeRow], parts: u32)
    ensures permutation { IsPermutation rows.old rows.new }
    ensures same_length { length rows.new ≡ length rows.old }
    ensures sorted { IsSortedByKey level_and_pixel level_then_pixel rows.new }
{
    if parts > 1 {
        sort_by_threads(rt, rows);
    } else {
        rows.sort_unstable_by_key(|row| (row.level, row.rep));
    }
}

fn sort_by_threads<R: Threads + Sync>(rt: &R, rows: &mut [NodeRow])
    ensures permutation { IsPermutation rows.old rows.new }
    ensures same_length { length rows.new ≡ length rows.old }
    ensures sorted { IsSortedByKey level_and_pixel level_then_pixel rows.new }
{
    par_sort_unstable_by_key(rt, rows, |row: &NodeRow| (row.level, row.rep));
}

// The rows of some pixels, sorted by level and pixel.
pub(crate) fn sorted_rows<R: Threads + Sync>(
    rt: &R,
    alloc: Global,
    plane: &Plane,
    pixels: &[u32],
    parts: u32,
) -> Result<Vec<NodeRow>, OutOfMemory>
    requires { ArePixelsFrom plane.now 0 pixels.now }
    ensures { IfOk result (λ rows. rows.items ≡ map (loose_row plane.now) (in_order plane.now pixels.now)) }
{
    let mut rows = rows_of(alloc, plane, pixels)?;
    sort_rows(rt, &mut rows, parts);
    Ok(rows)
}

// Gives each row its parent: the node of its pixel's link, and `NONE` where that is `NONE`. It goes by the pixels, in their order,
// since their links and numbers then lie close together in memory.
pub(crate) fn set_parents(links: &[u32], numbers: &[u32], pixels: &[u32], rows: &mut [NodeRow])
    requires within { All (λ p. p < length links.now) pixels.now }
    requires one_each { length numbers.now ≡ length links.now }
    requires rows { AreNumberedBy rows.old pixels.now numbers.now }
    ensures { rows.new ≡ map (with_parent links.now numbers.now) rows.old }
{
    for p in pixels {
        let parent = node_number_at(numbers, links[*p as usize]);
        rows[numbers[*p as usize] as usize].parent = parent;
    }
}
