//! The pixels of groups, and what is beside them, as they are copied to a sheet.

ghost use Rattle.std.specs.Prelude.{◌≡◌, ◌*◌, ◌<◌, ◌≤◌, length, IfSome, All};
ghost use Rattle.comp_tree.specs.Raster.{HasValuesWithin};

use crate::beside::{end_beside, reach_in};
use crate::checking::pixel_at;
use crate::groups::Groups;
use crate::layout::Layout;
use crate::sheet::Place;
use comp_tree::{Canvas, Connect, Plane};
use costs::OutOfMemory;
use source_pick::Choice;
use std::alloc::Global;

/// The sheet with each group at its place, and with the pixels beside it. All others are undefined.
pub(crate) fn copy_groups(
    alloc: Global,
    plane: &Plane,
    connect: Connect,
    choice: &Choice,
    groups: &Groups,
    layout: &Layout,
) -> Result<Plane, OutOfMemory>
    requires pixels { All (λ p. p < length plane.now.values) groups.now.pixels.items }
    requires few { layout.now.shape.width * layout.now.shape.height ≤ length plane.now.values }
{
    let mut canvas = Canvas::blank_within(alloc, layout.shape, plane.most())?;
    let mut start = 0;
    for (end, place) in groups.ends.iter().zip(&layout.places) {
        let end = *end as usize;
        copy_group(
            plane,
            connect,
            choice,
            &groups.pixels,
            start,
            end,
            place,
            &mut canvas,
        );
        start = end;
    }
    Ok(canvas.into_plane())
}

// Copies the pixels in the list from `start` up to `end`.
fn copy_group(
    plane: &Plane,
    connect: Connect,
    choice: &Choice,
    pixels: &[u32],
    start: usize,
    end: usize,
    place: &Place,
    canvas: &mut Canvas,
)
    requires pixels { All (λ p. p < length plane.now.values) pixels.now }
    requires within { HasValuesWithin canvas.old.most plane.now.values }
    ensures same_size { length canvas.new.values ≡ length canvas.old.values }
    ensures same_bound { canvas.new.most ≡ canvas.old.most }
{
    for k in start..end.min(pixels.len()) {
        copy_around(plane, connect, choice, pixels[k], place, canvas);
    }
}

// Copies a pixel and its neighbours, row by row. Where the pixel before it is high too, that one is of its group, and most of these are
// copied with it.
fn copy_around(
    plane: &Plane,
    connect: Connect,
    choice: &Choice,
    p: u32,
    place: &Place,
    canvas: &mut Canvas,
)
    requires pixel { p < length plane.now.values }
    requires within { HasValuesWithin canvas.old.most plane.now.values }
    ensures same_size { length canvas.new.values ≡ length canvas.old.values }
    ensures same_bound { canvas.new.most ≡ canvas.old.most }
{
    let whole = plane.shape();
    let column = p % whole.width;
    let row = p / whole.width;
    let follows = 0 < column && plane.is_at_least(choice.threshold, p - 1);
    for y in row.saturating_sub(1)..end_beside(row, 1, whole.height) {
        let reach = reach_in(connect, row, y);
        let first = if follows {
            column + reach
        } else {
            column.saturating_sub(reach)
        };
        let end = end_beside(column, reach, whole.width);
        copy_row(plane, y, first, end, place, canvas);
    }
}

// Copies the pixels of this row, from column `first` up to `end`, to where the place has them, as far as it does.
fn copy_row(plane: &Plane, row: u32, first: u32, end: u32, place: &Place, canvas: &mut Canvas)
    requires row { row < plane.now.shape.height }
    requires end { end ≤ plane.now.shape.width }
    requires within { HasValuesWithin canvas.old.most plane.now.values }
    ensures same_size { length canvas.new.values ≡ length canvas.old.values }
    ensures same_bound { canvas.new.most ≡ canvas.old.most }
{
    let whole = plane.shape();
    let sheet = canvas.shape();
    let height = place.shape.height;
    let Some(y) = moved(row, place.top, height, place.to_top, sheet.height) else {
        return;
    };
    let width = place.shape.width;
    for column in first..end {
        if let Some(x) = moved(column, place.left, width, place.to_left, sheet.width) {
            let p = pixel_at(whole, column, row);
            canvas.set(pixel_at(sheet, x, y), plane.get(p));
        }
    }
}

// The number x as one of `count` numbers from `first` on, moved to as many from `to` on, if it is one and still below `end`.
#[inline]
fn moved(x: u32, first: u32, count: u32, to: u32, end: u32) -> Option<u32>
    ensures { IfSome result (λ y. y < end) }
{
    let part = x.checked_sub(first)?;
    let y = to.checked_add(part)?;
    if part < count && y < end {
        Some(y)
    } else {
        None
    }
}
