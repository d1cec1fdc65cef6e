//! The outline of a node: the part of its sums that filters ask for.

ghost use Rattle.std.specs.Prelude.{◌≡◌, [], ℕ, ◌+◌, ◌*◌, ◌<◌, ◌≤◌, IsTrue, IfOk, length, slice_index, replicate};
ghost use Rattle.comp_tree.specs.declared.shape.Connect.{Connect};
ghost use Rattle.comp_tree.specs.Raster.{Raster, IsPlane, HasValuesInRange, pixels, is_defined};
ghost use Rattle.comp_tree.specs.Components.{tree_of};
ghost use Rattle.node_sums.specs.declared.entry.Sums.{Sums as Entry};
ghost use Rattle.node_sums.specs.Sums.{sums_over, IsTreeOfPlane};
ghost use Rattle.node_sums.specs.Merging.{AreCounted, AreOwn, AreOwnTo, sums_at_place, together as sums_together};
ghost use Rattle.node_sums.specs.Outlines.{outline_of, outlines_in, AreOutlinesOfPlane, AreOutlinesOfTree};
ghost use Rattle.node_sums.specs.OutlinePasses.{FitTogether, AreOutlinesOf};

use comp_tree::{NONE, Plane, Tree};
use costs::OutOfMemory;
use std::alloc::Global;

/// The outline of a node's sums: its area, the sum of its values, and its box. As in FITS, x and y count columns and rows
/// from 1.
#[derive(Clone, Copy, PartialEq, Eq, Debug)]
pub struct Outline {
    /// The number of pixels.
    pub area: u32,
    /// The sum of their values.
    pub r: i64,
    /// The least and the greatest x.
    pub xmin: u32,
    pub xmax: u32,
    pub ymin: u32,
    pub ymax: u32,
}

impl Outline {
    // The outline of no pixel.
    #[tactic(auto, unfolding(crate::specs::Sums::sums_over))]
    fn none() -> Outline
        ensures { (r : Raster) → result ≡ outline_of (sums_over r []) }
    {
        Outline {
            area: 0,
            r: 0,
            xmin: u32::MAX,
            xmax: 0,
            ymin: u32::MAX,
            ymax: 0,
        }
    }

    // The outline of one pixel in column `x` and row `y`, both from 1, which has this value.
    fn of_pixel(x: u32, y: u32, value: i64) -> Outline
        ensures { (p : ℕ) → result ≡ outline_of (sums_at_place x y p value) }
    {
        Outline {
            area: 1,
            r: value,
            xmin: x,
            xmax: x,
            ymin: y,
            ymax: y,
        }
    }

    // The outline of two sets of pixels that share none.
    fn together(&self, other: &Outline) -> Outline
        requires { FitTogether self.now other.now }
        ensures { (s t : Entry) → self.now ≡ outline_of s → other.now ≡ outline_of t
            → result ≡ outline_of (sums_together s t) }
    {
        Outline {
            area: self.area + other.area,
            r: self.r + other.r,
            xmin: self.xmin.min(other.xmin),
            xmax: self.xmax.max(other.xmax),
            ymin: self.ymin.min(other.ymin),
            ymax: self.ymax.max(other.ymax),
        }
    }
}

/// The outline of each node of a plane's tree, in the order of their numbers: one pass over the pixels, and one over the
/// nodes from the last to the first. The one error is that memory was refused.
pub fn outlines(alloc: Global, plane: &Plane, tree: &Tree) -> Result<Vec<Outline>, OutOfMemory>
    requires { IsTreeOfPlane plane.now tree.now }
    ensures exact { IfOk result (λ outlines. (connect : Connect) → tree.now ≡ tree_of plane.now connect
        → outlines.items ≡ outlines_in plane.now connect) }
    ensures of_plane { IfOk result
        (λ outlines. AreOutlinesOfPlane plane.now tree.now outlines.items) }
    ensures of_tree { IfOk result (λ outlines. AreOutlinesOfTree tree.now outlines.items) }
{
    let mut outlines = empty(alloc, tree.rows().len())?;
    add_pixels(plane, tree.node_of(), &mut outlines);
    add_to_parents(plane, tree, &mut outlines);
    Ok(outlines)
}

// So many outlines, each of no pixel.
fn empty(alloc: Global, count: usize) -> Result<Vec<Outline>, OutOfMemory>
    ensures { IfOk result (λ outlines. (r : Raster)
        → outlines.items ≡ replicate count (outline_of (sums_over r []))) }
{
    let outlines = vec![in alloc; Outline::none(); count]?;
    Ok(outlines)
}

// Adds each defined pixel to the outline of its smallest node.
fn add_pixels(plane: &Plane, node_of: &[u32], outlines: &mut [Outline])
    requires nodes { (p : ℕ) → IsTrue (is_defined plane.now p)
        → slice_index node_of.now p < length outlines.old }
    requires one_each { length node_of.now ≡ length plane.now.values }
    requires none { AreOutlinesOf (AreOwn plane.now node_of.now []) outlines.old }
    ensures own { AreOutlinesOf (AreOwn plane.now node_of.now (pixels plane.now)) outlines.new }
    ensures plane { IsPlane plane.now }
    ensures in_range { HasValuesInRange plane.now.values }
{
    let shape = plane.shape();
    for row in 0..shape.height {
        add_row(plane, node_of, shape.width, row, outlines);
    }
}

// Adds the defined pixels of one row, counted from 0. All rows before it were added. Behind an undefined pixel it goes on at the next
// defined one: so few pixels are passed quickly, and where all are defined, none is looked at twice.
fn add_row(plane: &Plane, node_of: &[u32], width: u32, row: u32, outlines: &mut [Outline])
    requires nodes { (p : ℕ) → IsTrue (is_defined plane.now p)
        → slice_index node_of.now p < length outlines.old }
    requires one_each { length node_of.now ≡ length plane.now.values }
    requires plane { IsPlane plane.now }
    requires width { width ≡ plane.now.shape.width }
    requires row { row < plane.now.shape.height }
    requires before { AreOutlinesOf (AreOwnTo plane.now node_of.now (row * width)) outlines.old }
    ensures { AreOutlinesOf (AreOwnTo plane.now node_of.now (row * width + width)) outlines.new }
{
    let first = row * width;
    let end = first + width;
    let mut p = first;
    while p < end {
        if let Some(value) = plane.get(p) {
            let n = node_of[p as usize] as usize;
            let pixel = Outline::of_pixel(p - first + 1, row + 1, value);
            outlines[n] = outlines[n].together(&pixel);
            p += 1;
        } else {
            p = plane.next_defined(p + 1, end);
        }
    }
}

// Adds each node's outline, from the last to the first, to that of its parent, whose number is smaller.
fn add_to_parents(plane: &Plane, tree: &Tree, outlines: &mut [Outline])
    requires tree { IsTreeOfPlane plane.now tree.now }
    requires plane { IsPlane plane.now }
    requires in_range { HasValuesInRange plane.now.values }
    requires own { AreOutlinesOf (AreCounted plane.now tree.now (length tree.now.rows))
        outlines.old }
    ensures { AreOutlinesOf (AreCounted plane.now tree.now 0) outlines.new }
{
    let rows = tree.rows();
    for n in (0..rows.len()).rev() {
        let parent = rows[n].parent;
        if parent != NONE {
            let whole = outlines[parent as usize].together(&outlines[n]);
            outlines[parent as usize] = whole;
        }
    }
}
