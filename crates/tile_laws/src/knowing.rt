//! Which components a window doesn't know well enough to answer for its core: told from the boxes of its tree's nodes, with no pass over
//! the pixels.

ghost use Rattle.std.specs.Prelude.{◌≡◌, ℕ, ◌+◌, ◌-◌, ◌<◌, ◌≤◌, ◌↔◌, [], IsTrue, IfOk, length, int_lt};
ghost use Rattle.std.specs.List.{All};
ghost use Rattle.comp_tree.specs.Nesting.{level_in};
ghost use Rattle.comp_tree.specs.Windows.{IsInside};
ghost use Rattle.node_sums.specs.Outlines.{AreOutlinesOfTree};
ghost use Rattle.source_sheet.specs.Laid.{window_at};
ghost use Rattle.tile_laws.specs.Extents.{extent_box};
ghost use Rattle.tile_laws.specs.Knowing.{HasBoxIn, node_box, DoMeet, IsSettled, IsWholeAt, AreSettled, IsUnsettled};
ghost use Rattle.tile_laws.specs.Opening.{IsBoxOf, open_extents};
ghost use Rattle.tile_laws.specs.Boxed.{DoMeetAlong};

use crate::extents::{Extent, Interval, lies_deep};
use comp_tree::{NONE, Shape, Tree};
use costs::OutOfMemory;
use node_sums::Outline;
use source_pick::Choice;
use std::alloc::Global;

/// Where a window lies in an image of shape `whole`: its first pixel stands in column `left` of row `top`.
#[derive(Clone, Copy, PartialEq, Eq, Debug)]
pub struct WindowPlace {
    pub left: u32,
    pub top: u32,
    pub whole: Shape,
}

/// The boxes, in the image, of the components at the threshold of which a window may not know all, in the order of the tree's nodes: their boxes meet the
/// core and don't lie deep in the sure box, so a window around them is to be looked at. Where there are none the window knows its core
/// ([`boxes_tell_the_core`](crate::laws::boxes_tell_the_core)). The one error is that memory was refused.
pub fn open_boxes(
    alloc: Global,
    tree: &Tree,
    outlines: &[Outline],
    choice: &Choice,
    place: &WindowPlace,
    core: &Extent,
    sure: &Extent,
) -> Result<Vec<Extent>, OutOfMemory>
    requires outlines { AreOutlinesOfTree tree.now outlines.now }
    requires inside { IsInside place.now.whole (window_at place.now.left place.now.top tree.now.shape) }
    ensures exact { IfOk result (λ boxes. boxes.items ≡ open_extents choice.now.threshold tree.now.rows outlines.now
        place.now.left place.now.top place.now.whole (extent_box core.now) (extent_box sure.now)) }
    ensures inside { IfOk result (λ boxes. All (λ found. IsBoxOf place.now.whole (extent_box found)) boxes.items) }
    ensures few { IfOk result (λ boxes. length boxes.items ≤ 2147483644) }
    ensures known { IfOk result (λ boxes. boxes.items ≡ [] → AreSettled choice.now.threshold tree.now.rows outlines.now
        place.now.left place.now.top place.now.whole (extent_box core.now) (extent_box sure.now) (length tree.now.rows)) }
    ensures unsettled { IfOk result (λ boxes. All (λ found. IsUnsettled choice.now.threshold tree.now.rows outlines.now
        place.now.left place.now.top place.now.whole (extent_box core.now) (extent_box sure.now) (extent_box found)) boxes.items) }
{
    let mut boxes = Vec::new(alloc);
    for n in 0..tree.node_count() {
        if is_whole_at(tree, n, choice) {
            let part = box_of(&outlines[n as usize], tree, place);
            if !is_settled(&part, place.whole, core, sure) {
                boxes.push(part)?;
            }
        }
    }
    Ok(boxes)
}

// Whether a node has at least the threshold and its parent, if any, hasn't.
fn is_whole_at(tree: &Tree, n: u32, choice: &Choice) -> bool
    requires node { n < length tree.now.rows }
    ensures { IsTrue result ↔ IsWholeAt choice.now.threshold tree.now.rows n }
{
    if is_low(tree, n, choice) {
        return false;
    }
    let parent = tree.parent(n);
    if parent == NONE {
        return true;
    }
    is_low(tree, parent, choice)
}

// Whether a node's level is below the threshold.
fn is_low(tree: &Tree, n: u32, choice: &Choice) -> bool
    requires node { n < length tree.now.rows }
    ensures { result ≡ int_lt (level_in tree.now.rows n) choice.now.threshold }
{
    tree.rows()[n as usize].level < choice.threshold
}

// Whether a box lies deep in the sure box or doesn't meet the core.
fn is_settled(part: &Extent, whole: Shape, core: &Extent, sure: &Extent) -> bool
    requires columns { part.now.columns.from < part.now.columns.to }
    requires rows { part.now.rows.from < part.now.rows.to }
    requires inside { part.now.columns.to ≤ whole.width }
    ensures { IsTrue result ↔ IsSettled whole (extent_box core.now) (extent_box sure.now) (extent_box part.now) }
{
    if !do_meet(core, part) {
        return true;
    }
    lies_deep(part, sure, whole)
}

/// The box of a node in the image.
pub fn box_of(outline: &Outline, tree: &Tree, place: &WindowPlace) -> Extent
    requires boxed { HasBoxIn tree.now.shape outline.now }
    requires inside { IsInside place.now.whole (window_at place.now.left place.now.top tree.now.shape) }
    ensures same { extent_box result ≡ node_box place.now.left place.now.top outline.now }
    ensures columns { result.columns.from < result.columns.to }
    ensures rows { result.rows.from < result.rows.to }
    ensures inside { result.columns.to ≤ place.now.whole.width }
    ensures below { result.rows.to ≤ place.now.whole.height }
{
    // for its clauses alone: a shape has short sides
    let _shape = tree.shape();
    Extent {
        columns: Interval {
            from: place.left + outline.xmin - 1,
            to: place.left + outline.xmax,
        },
        rows: Interval {
            from: place.top + outline.ymin - 1,
            to: place.top + outline.ymax,
        },
    }
}

// Whether two boxes share a pixel.
fn do_meet(a: &Extent, b: &Extent) -> bool
    ensures { IsTrue result ↔ DoMeet (extent_box a.now) (extent_box b.now) }
{
    do_meet_along(&a.columns, &b.columns) && do_meet_along(&a.rows, &b.rows)
}

// The same along one side.
fn do_meet_along(a: &Interval, b: &Interval) -> bool
    ensures { IsTrue result ↔ DoMeetAlong a.now.from a.now.to b.now.from b.now.to }
{
    a.from < b.to && b.from < a.to
}
