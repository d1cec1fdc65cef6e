//! Boxes of an image: in which a window's background is the image's, and which components lie deep in them.

ghost use Rattle.std.specs.Prelude.{◌≡◌, ℕ, ◌+◌, ◌<◌, ◌≤◌, ◌^◌, ◌↔◌, IsTrue};
ghost use Rattle.comp_tree.specs.Windows.{IsInside, IsDeep, IsDeepIn, is_in_box};
ghost use Rattle.source_sheet.specs.Laid.{window_at};
ghost use Rattle.tile_laws.specs.Clear.{clear_from, clear_to, clear_box};
ghost use Rattle.tile_laws.specs.Extents.{extent_box};

use comp_tree::Shape;

/// The pixels of an image's side from number `from` up to number `to`, without this one.
#[derive(Clone, Copy, PartialEq, Eq, Debug)]
pub struct Interval {
    pub from: u32,
    pub to: u32,
}

/// A box of an image: some of its columns and some of its rows, counted from 0.
#[derive(Clone, Copy, PartialEq, Eq, Debug)]
pub struct Extent {
    pub columns: Interval,
    pub rows: Interval,
}

/// The box of an image of shape `whole` in which the background is the image's own in the window of shape `window`
/// whose first pixel stands in column `left` of row `top`, as far as each cell that is needed has a pixel with a value.
/// `mesh` is the size of the mesh, 0 for none; `left` and `top` are to be multiples of it. The box may be empty: then
/// `from` isn't below `to`.
pub fn clear_extent(
    flat: bool,
    mesh: u32,
    whole: Shape,
    left: u32,
    top: u32,
    window: Shape,
) -> Extent
    requires inside { IsInside whole (window_at left top window) }
    requires mesh { mesh ≤ 65535 }
    ensures { extent_box result ≡ clear_box flat mesh whole (window_at left top window) }
{
    Extent {
        columns: clear_interval(flat, mesh, whole.width, left, left + window.width),
        rows: clear_interval(flat, mesh, whole.height, top, top + window.height),
    }
}

// The same along one side, of which the window has the pixels from `corner` up to `end`.
fn clear_interval(flat: bool, mesh: u32, whole: u32, corner: u32, end: u32) -> Interval
    requires mesh { mesh ≤ 65535 }
    requires corner { corner ≤ 65535 }
    ensures from { result.from ≡ clear_from flat mesh corner }
    ensures to { result.to ≡ clear_to flat mesh whole end }
{
    Interval {
        from: first_clear(flat, mesh, corner),
        to: end_of_clear(flat, mesh, whole, end),
    }
}

#[tactic(auto, unfolding(crate::specs::Clear::clear_from))]
fn first_clear(flat: bool, mesh: u32, corner: u32) -> u32
    requires mesh { mesh ≤ 65535 }
    requires corner { corner ≤ 65535 }
    ensures { result ≡ clear_from flat mesh corner }
{
    if flat || corner == 0 {
        corner
    } else {
        corner + 3 * mesh / 2
    }
}

#[tactic(auto, unfolding(crate::specs::Clear::clear_to))]
fn end_of_clear(flat: bool, mesh: u32, whole: u32, end: u32) -> u32
    requires { mesh ≤ 65535 }
    ensures { result ≡ clear_to flat mesh whole end }
{
    if mesh == 0 || end == whole {
        return end;
    }
    let edge = end / mesh * mesh;
    if flat {
        edge
    } else {
        edge.saturating_sub((3 * mesh + 1) / 2)
    }
}

/// Each pixel of the first box lies so deep in the second one that its neighbours lie there too, of which there are
/// none beyond the edges of an image of shape `whole`. So a component in this box is the same in the window and in the
/// image, if the second box is sure.
pub fn lies_deep(component: &Extent, sure: &Extent, whole: Shape) -> bool
    requires some_columns { component.now.columns.from < component.now.columns.to }
    requires some_rows { component.now.rows.from < component.now.rows.to }
    requires few_columns { component.now.columns.to ≤ whole.width }
    ensures { IsTrue result
        ↔ ((p : ℕ) → IsTrue (is_in_box whole.width (extent_box component.now) p)
        → IsDeepIn whole (extent_box sure.now) p) }
{
    is_deep(&component.columns, &sure.columns, whole.width)
        && is_deep(&component.rows, &sure.rows, whole.height)
}

// The same along one side.
fn is_deep(part: &Interval, sure: &Interval, side: u32) -> bool
    requires { part.now.from < part.now.to }
    ensures { IsTrue result ↔ ((x : ℕ) → part.now.from ≤ x → x < part.now.to
        → IsDeep sure.now.from sure.now.to side x) }
{
    let begins = sure.from == 0 || sure.from < part.from;
    let ends = part.to < sure.to || (sure.to == side && part.to == side);
    begins && ends
}
