//! The number of each pixel's node.

ghost use Rattle.std.specs.Prelude.{◌≡◌, ◌+◌, ◌<◌, ◌≤◌, ◌^◌, length, map, All, IfOk};
ghost use Rattle.comp_tree.specs.Limits.{most_pixels};
ghost use Rattle.comp_tree.specs.Raster.{HasGap};
ghost use Rattle.comp_tree.specs.Forest.{IsForest};
ghost use Rattle.tree_canon.specs.Canonical.{canonical_pixels, loose_row, node_number_at as number_in, IsNumbering};
ghost use Rattle.tree_canon.specs.Numbers.{HaveOwnPixels, HasRowNumbers, LeadBack, HasLinkNumbers};

use comp_tree::{NONE, NodeRow, Plane};
use costs::OutOfMemory;
use std::alloc::Global;

// The number of each pixel's node, and `NONE` for an undefined pixel. The rows are those of the canonical pixels, in order.
pub(crate) fn number_pixels(
    alloc: Global,
    plane: &Plane,
    links: &[u32],
    rows: &[NodeRow],
) -> Result<Vec<u32>, OutOfMemory>
    requires one_each { length links.now ≡ length plane.now.values }
    requires forest { IsForest plane.now.values 0 links.now }
    requires few { length links.now ≤ most_pixels }
    requires canonical { rows.now ≡ map (loose_row plane.now) (canonical_pixels plane.now links.now) }
    ensures { IfOk result (λ numbers. IsNumbering plane.now links.now numbers.items) }
{
    let mut numbers = vec![in alloc; NONE; links.len()]?;
    number_rows(rows, &mut numbers);
    number_others(plane, links, &mut numbers);
    Ok(numbers)
}

// The number that a list has for a pixel. `NONE` lies outside every list, so its number is `NONE`.
#[inline]
pub(crate) fn node_number_at(numbers: &[u32], p: u32) -> u32
    ensures { result ≡ number_in numbers.now p }
{
    numbers.get(p as usize).copied().unwrap_or(NONE)
}

// Gives the pixel of each row the number of the row.
fn number_rows(rows: &[NodeRow], numbers: &mut [u32])
    requires few { length rows.now ≤ most_pixels }
    requires within { All (λ row. row.rep < length numbers.old) rows.now }
    requires apart { HaveOwnPixels rows.now }
    ensures { HasRowNumbers rows.now numbers.old numbers.new }
{
    for (n, row) in rows.iter().enumerate() {
        numbers[row.rep as usize] = n as u32;
    }
}

// The next pixel after `p` that may be defined. Only where `p` has no number, and so is undefined, are the undefined pixels after it
// passed over: where most pixels are defined the plane is hardly read.
#[inline]
fn next_pixel(plane: &Plane, p: u32, number: u32, count: u32) -> u32
    requires order { p < count }
    requires inside { count ≤ length plane.now.values }
    ensures low { p + 1 ≤ result }
    ensures high { result ≤ count }
    ensures gap { HasGap plane.now.values (p + 1) result }
{
    if number != NONE {
        return p + 1;
    }
    plane.next_defined(p + 1, count)
}

// Gives each defined pixel without a number that of its link. A link within a level leads to a smaller pixel, so one pass is enough.
// An undefined pixel has no link, and so no number.
pub(crate) fn number_others(plane: &Plane, links: &[u32], numbers: &mut [u32])
    requires link_each { length links.now ≡ length plane.now.values }
    requires forest { IsForest plane.now.values 0 links.now }
    requires one_each { length numbers.old ≡ length links.now }
    requires few { length links.now ≤ most_pixels }
    requires back { LeadBack links.now numbers.old }
    ensures { HasLinkNumbers links.now numbers.old numbers.new }
{
    let count = plane.shape().pixels();
    let mut p = plane.next_defined(0, count);
    while p < count {
        if numbers[p as usize] == NONE {
            let number = node_number_at(numbers, links[p as usize]);
            numbers[p as usize] = number;
        }
        p = next_pixel(plane, p, numbers[p as usize], count);
    }
}
