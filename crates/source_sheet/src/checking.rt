//! The check that a sheet may stand for a plane.

ghost use Rattle.std.specs.Prelude.{◌≡◌, ℕ, ◌+◌, ◌-◌, ◌*◌, ◌<◌, ◌≤◌, length, IsTrue, IfOk, All};
ghost use Rattle.comp_tree.specs.Raster.{is_defined};
ghost use Rattle.comp_tree.specs.Windows.{IsInside, in_whole};
ghost use Rattle.source_pick.specs.Sheets.{IsCopied, is_high_there};
ghost use Rattle.source_sheet.specs.Laid.{windows_of, AreApartThere, window_at};
ghost use Rattle.source_sheet.specs.Checks.{LiesInBoth, LieInBoth, IsInWindow, StaysWithin, IsSameAt, IsRowSame, AreSameAround, IsPixelCopied, ArePixelsCopied, AreLowThere, AreWithin, AreNewlyMarked, AreAllApart, AreAllCopied, AreGoodPlaces, IsBetween, IsInRows, LiesInside};

use crate::beside::{end_beside, reach_in};
use crate::holding::hold_all;
use crate::marks::PixelMarks;
use crate::sheet::Place;
use comp_tree::{Connect, Plane, Shape, neighbours};
use costs::OutOfMemory;
use rayon::prelude::*;
use source_pick::Choice;
use std::alloc::Global;
use std::thread::Threads;

// How many places a thread takes at least: fewer aren't worth its start.
const PLACES_AT_LEAST: usize = 64;

/// Whether a sheet may stand for the plane: its places are copies, none overlaps another one, and they hold each pixel that
/// is listed. The one error is that memory was refused.
pub(crate) fn is_laid_out<R: Threads + Sync>(
    rt: &R,
    alloc: Global,
    plane: &Plane,
    sheet: &Plane,
    connect: Connect,
    choice: &Choice,
    places: &[Place],
    listed: &[u32],
) -> Result<bool, OutOfMemory>
    requires { All (λ p. p < length plane.now.values) listed.now }
    ensures { IfOk result (λ good. IsTrue good
        → AreGoodPlaces plane.now sheet.now connect choice.now.threshold places.now listed.now) }
{
    // for their clauses alone: how many pixels there are
    let _shapes = (plane.shape(), sheet.shape());
    if !are_copied(rt, plane, sheet, connect, choice, places) {
        return Ok(false);
    }
    let apart = are_apart(alloc, plane, sheet, places)?;
    if !apart {
        return Ok(false);
    }
    let held = hold_all(alloc, plane, sheet, choice, places, listed)?;
    Ok(held)
}

// Whether each place is a copy. Threads share the places, since none needs what was found of another one.
fn are_copied<R: Threads + Sync>(
    rt: &R,
    plane: &Plane,
    sheet: &Plane,
    connect: Connect,
    choice: &Choice,
    places: &[Place],
) -> bool
    ensures { IsTrue result
        → AreAllCopied plane.now sheet.now connect choice.now.threshold places.now (length places.now) }
{
    places.par_iter().with_min_len(PLACES_AT_LEAST).all(
        rt,
        |place: &Place| -> bool
            ensures { IsTrue result
                → IsCopied plane.entry.now sheet.entry.now connect choice.entry.now.threshold (windows_of place.now) }
        { is_copied(plane, sheet, connect, choice, place) },
    )
}

// Whether what a place shows of the sheet is a copy: each pixel of at least the threshold has its value and its
// surroundings in the plane.
fn is_copied(plane: &Plane, sheet: &Plane, connect: Connect, choice: &Choice, place: &Place) -> bool
    ensures { IsTrue result → IsCopied plane.now sheet.now connect choice.now.threshold (windows_of place.now) }
{
    lies_inside(plane.shape(), sheet.shape(), place)
        && are_rows_copied(plane, sheet, connect, choice, place)
}

// Whether a place lies in an image and a sheet of these shapes.
fn lies_inside(whole: Shape, sheet: Shape, place: &Place) -> bool
    ensures { IsTrue result → LiesInBoth whole sheet place.now }
{
    is_inside(whole, place.left, place.top, place.shape)
        && is_inside(sheet, place.to_left, place.to_top, place.shape)
}

// Whether a window of this shape, with its corner there, lies in an image. No sum is taken, since it might not fit.
fn is_inside(whole: Shape, left: u32, top: u32, shape: Shape) -> bool
    ensures { IsTrue result → IsInside whole (window_at left top shape) }
{
    left <= whole.width
        && top <= whole.height
        && shape.width <= whole.width - left
        && shape.height <= whole.height - top
}

// Whether each row of the place is a copy.
fn are_rows_copied(
    plane: &Plane,
    sheet: &Plane,
    connect: Connect,
    choice: &Choice,
    place: &Place,
) -> bool
    requires placed { LiesInBoth plane.now.shape sheet.now.shape place.now }
    ensures { IsTrue result → ArePixelsCopied plane.now sheet.now connect choice.now.threshold (windows_of place.now) 0
        (place.now.shape.height * place.now.shape.width) }
{
    for row in 0..place.shape.height {
        if !is_row_copied(plane, sheet, connect, choice, place, row) {
            return false;
        }
    }
    true
}

// Whether each pixel of a row of the place is a copy, where it is of at least the threshold: run by run of such pixels, whose
// neighbours are so compared once for all. Most pixels are below it, and not looked at any further.
fn is_row_copied(
    plane: &Plane,
    sheet: &Plane,
    connect: Connect,
    choice: &Choice,
    place: &Place,
    row: u32,
) -> bool
    requires placed { LiesInBoth plane.now.shape sheet.now.shape place.now }
    requires row { row < place.now.shape.height }
    ensures { IsTrue result → ArePixelsCopied plane.now sheet.now connect choice.now.threshold (windows_of place.now)
        (row * place.now.shape.width) ((row + 1) * place.now.shape.width) }
{
    let mut first = high_from(sheet, choice, place, row, 0);
    while first < place.shape.width {
        let end = low_from(sheet, choice, place, row, first + 1);
        if !is_run_copied(plane, sheet, connect, place, row, first, end) {
            return false;
        }
        first = high_from(sheet, choice, place, row, end);
    }
    true
}

// Whether the sheet's pixel in this column and row of the place has at least the threshold.
#[inline(always)]
fn is_high_at(sheet: &Plane, choice: &Choice, place: &Place, row: u32, column: u32) -> bool
    requires inside { IsInside sheet.now.shape (windows_of place.now).to }
    requires column { column < place.now.shape.width }
    requires row { row < place.now.shape.height }
    ensures { IsTrue (is_high_there sheet.now choice.now.threshold (windows_of place.now).to (row * place.now.shape.width + column))
        → IsTrue result }
{
    let there = pixel_at(sheet.shape(), column + place.to_left, row + place.to_top);
    sheet.is_at_least(choice.threshold, there)
}

// The first column from this one on in which it has, or the end of the row.
fn high_from(sheet: &Plane, choice: &Choice, place: &Place, row: u32, column: u32) -> u32
    requires inside { IsInside sheet.now.shape (windows_of place.now).to }
    requires column { column ≤ place.now.shape.width }
    requires row { row < place.now.shape.height }
    ensures from { column ≤ result }
    ensures within { result ≤ place.now.shape.width }
    ensures low { AreLowThere sheet.now choice.now.threshold (windows_of place.now).to
        (row * place.now.shape.width + column) (row * place.now.shape.width + result) }
{
    for x in column..place.shape.width {
        if is_high_at(sheet, choice, place, row, x) {
            return x;
        }
    }
    place.shape.width
}

// The first one in which it hasn't.
fn low_from(sheet: &Plane, choice: &Choice, place: &Place, row: u32, column: u32) -> u32
    requires inside { IsInside sheet.now.shape (windows_of place.now).to }
    requires column { column ≤ place.now.shape.width }
    requires row { row < place.now.shape.height }
    ensures from { column ≤ result }
    ensures within { result ≤ place.now.shape.width }
{
    for x in column..place.shape.width {
        if !is_high_at(sheet, choice, place, row, x) {
            return x;
        }
    }
    place.shape.width
}

// Whether each pixel of a run is a copy, with what is around it: of those in this row of the place from column `first` up to `end`.
fn is_run_copied(
    plane: &Plane,
    sheet: &Plane,
    connect: Connect,
    place: &Place,
    row: u32,
    first: u32,
    end: u32,
) -> bool
    requires placed { LiesInBoth plane.now.shape sheet.now.shape place.now }
    requires row { row < place.now.shape.height }
    requires some { first < end }
    requires end { end ≤ place.now.shape.width }
    ensures { IsTrue result → (x : ℕ) → first ≤ x → x < end
        → IsPixelCopied plane.now sheet.now connect (windows_of place.now) (row * place.now.shape.width + x) }
{
    if !are_same_around(plane, sheet, connect, place, row, first, end) {
        return false;
    }
    if is_inner(place.shape, row, first, end) {
        return true;
    }
    stay_within(plane, sheet, connect, place, row, first, end)
}

// Whether the pixels of a run, and all their neighbours within the window, are the same in both planes.
fn are_same_around(
    plane: &Plane,
    sheet: &Plane,
    connect: Connect,
    place: &Place,
    row: u32,
    first: u32,
    end: u32,
) -> bool
    requires placed { LiesInBoth plane.now.shape sheet.now.shape place.now }
    requires row { row < place.now.shape.height }
    requires some { first < end }
    requires end { end ≤ place.now.shape.width }
    ensures { IsTrue result → (x : ℕ) → first ≤ x → x < end
        → AreSameAround plane.now sheet.now connect (windows_of place.now) x row place.now.shape.height }
{
    let bottom = end_beside(row, 1, place.shape.height);
    for y in row.saturating_sub(1)..bottom {
        let reach = reach_in(connect, row, y);
        let from = first.saturating_sub(reach);
        let to = end_beside(end - 1, reach, place.shape.width);
        if !is_row_same(plane, sheet, place, y, from, to) {
            return false;
        }
    }
    true
}

// Whether the pixels of this row of the window, from column `first` up to `end`, are the same in both planes.
fn is_row_same(plane: &Plane, sheet: &Plane, place: &Place, row: u32, first: u32, end: u32) -> bool
    requires placed { LiesInBoth plane.now.shape sheet.now.shape place.now }
    requires row { row < place.now.shape.height }
    requires end { end ≤ place.now.shape.width }
    ensures { IsTrue result → IsRowSame plane.now sheet.now (windows_of place.now) row first end }
{
    let from = pixel_at(plane.shape(), place.left, row + place.top);
    let to = pixel_at(sheet.shape(), place.to_left, row + place.to_top);
    for column in first..end {
        if !is_same(plane.get(from + column), sheet.get(to + column)) {
            return false;
        }
    }
    true
}

// Whether both are none, or the same.
#[inline]
fn is_same(value: Option<i64>, copy: Option<i64>) -> bool
    ensures { IsTrue result → value ≡ copy }
{
    match (value, copy) {
        (Some(v), Some(w)) => v == w,
        (None, None) => true,
        _ => false,
    }
}

// Whether the window has a pixel on each side of a run: then nothing that is adjacent to its pixels lies beyond.
fn is_inner(shape: Shape, row: u32, first: u32, end: u32) -> bool
    requires row { row < shape.height }
    requires end { end ≤ shape.width }
    ensures { IsTrue result → (x : ℕ) → first ≤ x → x < end → LiesInside shape x row }
{
    0 < first && end < shape.width && 0 < row && row + 1 < shape.height
}

// Whether what is adjacent to the pixels of a run lies in the windows.
fn stay_within(
    plane: &Plane,
    sheet: &Plane,
    connect: Connect,
    place: &Place,
    row: u32,
    first: u32,
    end: u32,
) -> bool
    requires placed { LiesInBoth plane.now.shape sheet.now.shape place.now }
    requires row { row < place.now.shape.height }
    requires end { end ≤ place.now.shape.width }
    ensures { IsTrue result → AreWithin plane.now sheet.now connect (windows_of place.now) row first end }
{
    for x in first..end {
        if !has_around(plane, connect, place.left, place.top, place.shape, x, row)
            || !has_around(
                sheet,
                connect,
                place.to_left,
                place.to_top,
                place.shape,
                x,
                row,
            )
        {
            return false;
        }
    }
    true
}

// Whether what is adjacent to the pixel in this column and row of the window lies in the window.
fn has_around(
    plane: &Plane,
    connect: Connect,
    left: u32,
    top: u32,
    shape: Shape,
    column: u32,
    row: u32,
) -> bool
    requires inside { IsInside plane.now.shape (window_at left top shape) }
    requires column { column < shape.width }
    requires row { row < shape.height }
    ensures { IsTrue result → StaysWithin plane.now connect (window_at left top shape)
        (in_whole plane.now.shape.width (window_at left top shape) (row * shape.width + column)) }
{
    let whole = plane.shape();
    let p = pixel_at(whole, column + left, row + top);
    let near = neighbours(whole, connect, p);
    are_all_seen(plane, left, top, shape, &near)
}

// Whether each of these pixels that is defined lies in the window.
fn are_all_seen(plane: &Plane, left: u32, top: u32, shape: Shape, near: &[u32]) -> bool
    requires { All (λ a. a < length plane.now.values) near.now }
    ensures { IsTrue result → All (λ a. IsTrue (is_defined plane.now a)
        → IsInWindow plane.now.shape.width (window_at left top shape) a) near.now }
{
    for a in near {
        if !is_seen_or_undefined(plane, left, top, shape, *a) {
            return false;
        }
    }
    true
}

// Whether pixel p of the plane lies in the window, or is undefined.
fn is_seen_or_undefined(plane: &Plane, left: u32, top: u32, shape: Shape, p: u32) -> bool
    requires { p < length plane.now.values }
    ensures { IsTrue result → IsTrue (is_defined plane.now p)
        → IsInWindow plane.now.shape.width (window_at left top shape) p }
{
    !plane.is_defined(p) || is_seen(plane.shape(), left, top, shape, p)
}

// Whether pixel p of an image lies in the window.
fn is_seen(whole: Shape, left: u32, top: u32, shape: Shape, p: u32) -> bool
    ensures { IsTrue result → IsInWindow whole.width (window_at left top shape) p }
{
    is_among(p % whole.width, left, shape.width) && is_among(p / whole.width, top, shape.height)
}

// Whether x is one of so many numbers from the first one on.
fn is_among(x: u32, first: u32, count: u32) -> bool
    ensures { IsTrue result → (first ≤ x) × (x - first < count) }
{
    first <= x && x - first < count
}

// The number of the pixel in a column and a row.
pub(crate) fn pixel_at(whole: Shape, column: u32, row: u32) -> u32
    requires column { column < whole.width }
    requires row { row < whole.height }
    ensures is { result ≡ row * whole.width + column }
    ensures below { result < whole.width * whole.height }
{
    row * whole.width + column
}

// Whether no pixel of the sheet lies in two places.
fn are_apart(
    alloc: Global,
    plane: &Plane,
    sheet: &Plane,
    places: &[Place],
) -> Result<bool, OutOfMemory>
    requires { LieInBoth plane.now.shape sheet.now.shape places.now }
    ensures { IfOk result (λ apart. IsTrue apart → AreApartThere sheet.now places.now) }
{
    let whole = plane.shape();
    let onto = sheet.shape();
    let mut marks = PixelMarks::none(alloc, onto.pixels() as usize)?;
    let apart = mark_windows(whole, onto, places, &mut marks);
    Ok(apart)
}

// Marks the pixels of the places' windows on the sheet, up to a window of which a pixel has a mark.
fn mark_windows(whole: Shape, onto: Shape, places: &[Place], marks: &mut PixelMarks) -> bool
    requires one_each { length marks.old ≡ onto.width * onto.height }
    requires placed { LieInBoth whole onto places.now }
    ensures { IsTrue result → AreAllApart onto.width places.now (length places.now) marks.new }
{
    for place in places {
        if !mark_window(onto, place.to_left, place.to_top, place.shape, marks) {
            return false;
        }
    }
    true
}

// Marks the pixels of the window, up to a row of which a pixel has a mark.
fn mark_window(whole: Shape, left: u32, top: u32, shape: Shape, marks: &mut PixelMarks) -> bool
    requires one_each { length marks.old ≡ whole.width * whole.height }
    requires inside { IsInside whole (window_at left top shape) }
    ensures { IsTrue result → AreNewlyMarked marks.old marks.new
        (IsInRows whole.width (window_at left top shape) shape.height) }
{
    for row in 0..shape.height {
        let first = pixel_at(whole, left, row + top);
        if !mark_between(first, first + shape.width, marks) {
            return false;
        }
    }
    true
}

// Marks the pixels from the first one up to the end, or up to one that has a mark.
fn mark_between(first: u32, end: u32, marks: &mut PixelMarks) -> bool
    requires order { first ≤ end }
    requires inside { end ≤ length marks.old }
    ensures { IsTrue result → AreNewlyMarked marks.old marks.new (IsBetween first end) }
{
    for p in first..end {
        if marks.has(p) {
            return false;
        }
        marks.set(p);
    }
    true
}
