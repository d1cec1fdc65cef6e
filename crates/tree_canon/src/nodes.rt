//! The nodes of a forest and their numbers.

ghost use Rattle.std.specs.Prelude.{◌≡◌, ◌≤◌, ◌^◌, length, map, filter, IfOk};
ghost use Rattle.comp_tree.specs.Limits.{most_pixels};
ghost use Rattle.comp_tree.specs.Raster.{pixels as all_pixels};
ghost use Rattle.comp_tree.specs.Forest.{IsForest};
ghost use Rattle.tree_canon.specs.Canonical.{is_canonical as is_canonical_in, canonical_pixels, loose_row, IsNumbering};

use crate::counting::{Span, number_by_counting};
use crate::numbers::number_pixels;
use crate::rows::sorted_rows;
use comp_tree::{NodeRow, Plane};
use costs::OutOfMemory;
use std::alloc::Global;
use std::thread::Threads;

// The rows of the nodes in their order, and the number of each pixel's node, `NONE` for an undefined pixel.
#[derive(Drop)]
pub(crate) struct Numbered {
    pub(crate) rows: Vec<NodeRow>,
    pub(crate) numbers: Vec<u32>,
}

// The rows without the parents and the numbers, by sorting the canonical pixels.
fn number_by_order<R: Threads + Sync>(
    rt: &R,
    alloc: Global,
    plane: &Plane,
    links: &[u32],
    pixels: &[u32],
    parts: u32,
) -> Result<Numbered, OutOfMemory>
    requires one_each { length links.now ≡ length plane.now.values }
    requires forest { IsForest plane.now.values 0 links.now }
    requires few { length links.now ≤ most_pixels }
    requires canonical { pixels.now ≡ filter (is_canonical_in plane.now links.now) (all_pixels plane.now) }
    ensures rows { IfOk result (λ made. made.rows.items ≡ map (loose_row plane.now) (canonical_pixels plane.now links.now)) }
    ensures numbers { IfOk result (λ made. IsNumbering plane.now links.now made.numbers.items) }
{
    let rows = sorted_rows(rt, alloc, plane, pixels, parts)?;
    let numbers = number_pixels(alloc, plane, links, &rows)?;
    Ok(Numbered { rows, numbers })
}

// The rows without the parents and the numbers, from the canonical pixels: by counting where their levels lie close together, and
// else by sorting.
pub(crate) fn number_nodes<R: Threads + Sync>(
    rt: &R,
    alloc: Global,
    plane: &Plane,
    links: &[u32],
    pixels: &[u32],
    parts: u32,
) -> Result<Numbered, OutOfMemory>
    requires one_each { length links.now ≡ length plane.now.values }
    requires forest { IsForest plane.now.values 0 links.now }
    requires few { length links.now ≤ most_pixels }
    requires canonical { pixels.now ≡ filter (is_canonical_in plane.now links.now) (all_pixels plane.now) }
    ensures rows { IfOk result (λ made. made.rows.items ≡ map (loose_row plane.now) (canonical_pixels plane.now links.now)) }
    ensures numbers { IfOk result (λ made. IsNumbering plane.now links.now made.numbers.items) }
{
    let span = Span::of(plane, pixels);
    if span.is_narrow(pixels.len()) {
        return number_by_counting(alloc, plane, links, pixels, span);
    }
    number_by_order(rt, alloc, plane, links, pixels, parts)
}
