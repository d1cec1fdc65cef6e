//! The check that places hold pixels: each listed one, and none twice.

ghost use Rattle.std.specs.Prelude.{◌≡◌, ℕ, ◌+◌, ◌*◌, ◌<◌, true, false, IsTrue, Bool, List, length, replicate, All, Contains, IfOk, slice_get, Some};
ghost use Rattle.comp_tree.specs.Marks.{is_marked};
ghost use Rattle.source_sheet.specs.declared.sheet.Place.{Place};
ghost use Rattle.source_sheet.specs.Laid.{AreHeldOnce, HoldsPixel};
ghost use Rattle.source_sheet.specs.Checks.{LiesInBoth, LieInBoth};
ghost use Rattle.source_sheet.specs.Holding.{HasHeld, HasHeldFirst, HasHeldAll, AreHeldApart};

use crate::checking::pixel_at;
use crate::marks::PixelMarks;
use crate::sheet::Place;
use comp_tree::Plane;
use costs::OutOfMemory;
use source_pick::Choice;
use std::alloc::Global;

/// Whether each listed pixel of the plane is held by a place of the sheet, and none by two. The one error is that memory was refused.
pub(crate) fn hold_all(
    alloc: Global,
    plane: &Plane,
    sheet: &Plane,
    choice: &Choice,
    places: &[Place],
    listed: &[u32],
) -> Result<bool, OutOfMemory>
    requires placed { LieInBoth plane.now.shape sheet.now.shape places.now }
    requires listed { All (λ p. p < length plane.now.values) listed.now }
    ensures apart { IfOk result (λ all. all ≡ true → AreHeldOnce plane.now sheet.now choice.now.threshold places.now) }
    ensures held { IfOk result (λ all. all ≡ true → (p : ℕ) → Contains listed.now p
        → (i : ℕ) × ((c : Place) × (slice_get places.now i ≡ Some c) × HoldsPixel plane.now sheet.now choice.now.threshold c p)) }
{
    let mut marks = PixelMarks::none(alloc, plane.shape().pixels() as usize)?;
    Ok(hold_listed(plane, sheet, choice, places, listed, &mut marks))
}

// The same, with marks on the plane's pixels that are held.
fn hold_listed(
    plane: &Plane,
    sheet: &Plane,
    choice: &Choice,
    places: &[Place],
    listed: &[u32],
    marks: &mut PixelMarks,
) -> bool
    requires placed { LieInBoth plane.now.shape sheet.now.shape places.now }
    requires listed { All (λ p. p < length plane.now.values) listed.now }
    requires blank { marks.old ≡ replicate (length plane.now.values) false }
    ensures apart { result ≡ true → AreHeldOnce plane.now sheet.now choice.now.threshold places.now }
    ensures held { result ≡ true → (p : ℕ) → Contains listed.now p
        → (i : ℕ) × ((c : Place) × (slice_get places.now i ≡ Some c) × HoldsPixel plane.now sheet.now choice.now.threshold c p) }
{
    if !mark_all_held(plane, sheet, choice, places, marks) {
        return false;
    }
    are_marked(marks, listed)
}

// Whether all these pixels are marked.
fn are_marked(marks: &PixelMarks, listed: &[u32]) -> bool
    requires { All (λ p. p < length marks.now) listed.now }
    ensures { result ≡ true → All (λ p. IsTrue (is_marked marks.now p)) listed.now }
{
    for p in listed {
        if !marks.has(*p) {
            return false;
        }
    }
    true
}

// Marks what each place holds. It stops where a pixel would be marked twice, and tells whether it didn't.
fn mark_all_held(
    plane: &Plane,
    sheet: &Plane,
    choice: &Choice,
    places: &[Place],
    marks: &mut PixelMarks,
) -> bool
    requires placed { LieInBoth plane.now.shape sheet.now.shape places.now }
    requires blank { marks.old ≡ replicate (length plane.now.values) false }
    ensures { result ≡ true
        → AreHeldApart plane.now sheet.now choice.now.threshold places.now (length places.now) marks.new }
{
    for place in places {
        if !mark_held(plane, sheet, choice, place, marks) {
            return false;
        }
    }
    true
}

// Marks what a place holds, row by row, as `mark_all_held` does.
fn mark_held(
    plane: &Plane,
    sheet: &Plane,
    choice: &Choice,
    place: &Place,
    marks: &mut PixelMarks,
) -> bool
    requires placed { LiesInBoth plane.now.shape sheet.now.shape place.now }
    requires one_each { length marks.old ≡ length plane.now.values }
    ensures { result ≡ true → HasHeldAll plane.now sheet.now choice.now.threshold place.now marks.old marks.new }
{
    for row in 0..place.shape.height {
        if !mark_held_row(plane, sheet, choice, place, row, marks) {
            return false;
        }
    }
    true
}

// Marks what a place holds of this row of its window, as `mark_all_held` does.
fn mark_held_row(
    plane: &Plane,
    sheet: &Plane,
    choice: &Choice,
    place: &Place,
    row: u32,
    marks: &mut PixelMarks,
) -> bool
    requires placed { LiesInBoth plane.now.shape sheet.now.shape place.now }
    requires row { row < place.now.shape.height }
    requires one_each { length marks.old ≡ length plane.now.values }
    ensures one_each { length marks.new ≡ length marks.old }
    ensures held { result ≡ true → (first : List Bool)
        → HasHeldFirst plane.now sheet.now choice.now.threshold place.now (row * place.now.shape.width) first marks.old
        → HasHeldFirst plane.now sheet.now choice.now.threshold place.now ((row + 1) * place.now.shape.width) first marks.new }
{
    let whole = plane.shape();
    let small = sheet.shape();
    for column in 0..place.shape.width {
        let p = pixel_at(whole, place.left + column, place.top + row);
        let there = pixel_at(small, place.to_left + column, place.to_top + row);
        if !hold(sheet, choice, there, p, marks) {
            return false;
        }
    }
    true
}

// Marks pixel `p` if pixel `there` of the sheet is high, and tells whether it had no mark.
#[inline]
fn hold(sheet: &Plane, choice: &Choice, there: u32, p: u32, marks: &mut PixelMarks) -> bool
    requires there { there < length sheet.now.values }
    requires pixel { p < length marks.old }
    ensures one_each { length marks.new ≡ length marks.old }
    ensures held { result ≡ true → HasHeld sheet.now choice.now.threshold there p marks.old marks.new }
{
    if !sheet.is_at_least(choice.threshold, there) {
        return true;
    }
    if marks.has(p) {
        return false;
    }
    marks.set(p);
    true
}
