//! Groups of high pixels: those of at least the threshold that reach each other.

ghost use Rattle.std.specs.Prelude.{◌≡◌, ◌+◌, ◌<◌, ◌≤◌, true, false, [], length, replicate, All, IfOk, OnOk, IfSome};
ghost use Rattle.source_sheet.specs.Groups.{HasLookedAt, HasLookedAtFirst, HasSpread, IsFlooded, AreGrouped, HasGrouped, AreGroupedBefore, HoldsGroups};

use crate::marks::PixelMarks;
use comp_tree::{Connect, Plane, neighbours};
use costs::OutOfMemory;
use source_pick::Choice;
use std::alloc::Global;

// So many pixels are looked at together, and passed over where all of them are low, as most are.
const TOGETHER: u32 = 16;

/// Groups of pixels of at least the threshold that reach each other: one behind the other in one list. Groups of fewer than `min_area`
/// pixels are left out: no source lies in one.
#[derive(Drop)]
pub(crate) struct Groups {
    pub pixels: Vec<u32>,
    /// Where group `i` ends in `pixels`.
    pub ends: Vec<u32>,
}

/// The groups of a plane, in the order of their first pixels, or `None` where they have more than half of its pixels: then a sheet is of no
/// use. The one error is that memory was refused.
pub(crate) fn large_groups(
    alloc: Global,
    plane: &Plane,
    connect: Connect,
    choice: &Choice,
) -> Result<Option<Groups>, OutOfMemory>
    ensures held { IfOk result (λ found. IfSome found
        (λ groups. HoldsGroups plane.now connect choice.now groups.pixels.items)) }
    ensures inside { IfOk result (λ found. IfSome found
        (λ groups. All (λ p. p < length plane.now.values) groups.pixels.items)) }
{
    let mut marks = PixelMarks::none(alloc, plane.shape().pixels() as usize)?;
    let mut groups = Groups {
        pixels: Vec::new(alloc),
        ends: Vec::new(alloc),
    };
    if !scan(plane, connect, choice, &mut marks, &mut groups)? {
        return Ok(None);
    }
    Ok(Some(groups))
}

// Finds the groups of all pixels. It gives up where they have more than half of the pixels, and tells whether it didn't.
fn scan(
    plane: &Plane,
    connect: Connect,
    choice: &Choice,
    marks: &mut PixelMarks,
    groups: &mut Groups,
) -> Result<bool, OutOfMemory>
    requires blank { marks.old ≡ replicate (length plane.now.values) false }
    requires empty { groups.old.pixels.items ≡ [] }
    ensures held { IfOk result (λ whole. whole ≡ true → HoldsGroups plane.now connect choice.now groups.new.pixels.items) }
    ensures inside { IfOk result (λ whole. whole ≡ true → All (λ p. p < length plane.now.values) groups.new.pixels.items) }
{
    let count = plane.shape().pixels();
    let mut first = 0;
    while first < count {
        let end = first + TOGETHER.min(count - first);
        if !look_at_piece(plane, connect, choice, count / 2, first, end, marks, groups)? {
            return Ok(false);
        }
        first = end;
    }
    Ok(true)
}

// Finds the groups of the pixels from `first` up to `end`: where all of them are low, there are none. It gives up where the groups have more
// than `most` pixels, and tells whether it didn't.
#[inline]
fn look_at_piece(
    plane: &Plane,
    connect: Connect,
    choice: &Choice,
    most: u32,
    first: u32,
    end: u32,
    marks: &mut PixelMarks,
    groups: &mut Groups,
) -> Result<bool, OutOfMemory>
    requires order { first ≤ end }
    requires inside { end ≤ length plane.now.values }
    requires before { AreGroupedBefore plane.now connect choice.now.threshold choice.now.min_area first marks.old groups.old.pixels.items }
    requires few { length groups.old.pixels.items ≤ most }
    ensures few { IfOk result (λ whole. whole ≡ true → length groups.new.pixels.items ≤ most) }
    ensures before { IfOk result (λ whole. whole ≡ true
        → AreGroupedBefore plane.now connect choice.now.threshold choice.now.min_area end marks.new groups.new.pixels.items) }
{
    if !plane.any_at_least(choice.threshold, first, end) {
        return Ok(true);
    }
    look_at_all(plane, connect, choice, most, first, end, marks, groups)
}

// The same by a look at each of them.
fn look_at_all(
    plane: &Plane,
    connect: Connect,
    choice: &Choice,
    most: u32,
    first: u32,
    end: u32,
    marks: &mut PixelMarks,
    groups: &mut Groups,
) -> Result<bool, OutOfMemory>
    requires order { first ≤ end }
    requires inside { end ≤ length plane.now.values }
    requires before { AreGroupedBefore plane.now connect choice.now.threshold choice.now.min_area first marks.old groups.old.pixels.items }
    requires few { length groups.old.pixels.items ≤ most }
    ensures few { IfOk result (λ whole. whole ≡ true → length groups.new.pixels.items ≤ most) }
    ensures before { IfOk result (λ whole. whole ≡ true
        → AreGroupedBefore plane.now connect choice.now.threshold choice.now.min_area end marks.new groups.new.pixels.items) }
{
    for p in first..end {
        if !look_at(plane, connect, choice, most, p, marks, groups)? {
            return Ok(false);
        }
    }
    Ok(true)
}

// Finds the group of `p`, if it is high and its group isn't known. It gives up where the groups have more than `most` pixels, and tells
// whether it didn't.
#[inline]
fn look_at(
    plane: &Plane,
    connect: Connect,
    choice: &Choice,
    most: u32,
    p: u32,
    marks: &mut PixelMarks,
    groups: &mut Groups,
) -> Result<bool, OutOfMemory>
    requires pixel { p < length plane.now.values }
    requires before { AreGroupedBefore plane.now connect choice.now.threshold choice.now.min_area p marks.old groups.old.pixels.items }
    requires few { length groups.old.pixels.items ≤ most }
    ensures few { IfOk result (λ whole. whole ≡ true → length groups.new.pixels.items ≤ most) }
    ensures before { IfOk result (λ whole. whole ≡ true
        → AreGroupedBefore plane.now connect choice.now.threshold choice.now.min_area (p + 1) marks.new groups.new.pixels.items) }
{
    // most pixels are low: their marks aren't read
    if !plane.is_at_least(choice.threshold, p) || marks.has(p) {
        return Ok(true);
    }
    add_group(plane, connect, choice, most, p, marks, groups)
}

// Marks the group of `p`, and adds it to the groups if it is large enough. It gives up where they have more than `most` pixels, and tells
// whether it didn't.
fn add_group(
    plane: &Plane,
    connect: Connect,
    choice: &Choice,
    most: u32,
    p: u32,
    marks: &mut PixelMarks,
    groups: &mut Groups,
) -> Result<bool, OutOfMemory>
    requires pixel { p < length plane.now.values }
    requires grouped { AreGrouped plane.now connect choice.now.threshold choice.now.min_area marks.old groups.old.pixels.items }
    requires few { length groups.old.pixels.items ≤ most }
    ensures few { IfOk result (λ whole. whole ≡ true → length groups.new.pixels.items ≤ most) }
    ensures grouped { IfOk result (λ whole. whole ≡ true
        → HasGrouped plane.now connect choice.now.threshold choice.now.min_area p marks.old marks.new groups.new.pixels.items) }
{
    let start = groups.pixels.len();
    if !flood(plane, connect, choice, most, p, marks, &mut groups.pixels)? {
        return Ok(false);
    }
    if groups.pixels.len() - start < choice.min_area as usize {
        groups.pixels.truncate(start);
        return Ok(true);
    }
    let end = groups.pixels.len() as u32;
    groups.ends.push(end)?;
    Ok(true)
}

// Marks `p` and each high pixel that is reached from there over pixels without a mark, and puts them behind the list, which serves as a
// queue. It gives up where the list has more than `most` pixels, and tells whether it didn't.
fn flood(
    plane: &Plane,
    connect: Connect,
    choice: &Choice,
    most: u32,
    p: u32,
    marks: &mut PixelMarks,
    pixels: &mut Vec<u32>,
) -> Result<bool, OutOfMemory>
    requires pixel { p < length plane.now.values }
    requires one_each { length marks.old ≡ length plane.now.values }
    requires inside { All (λ a. a < length plane.now.values) pixels.old.items }
    requires few { length pixels.old.items ≤ most }
    ensures few { IfOk result (λ whole. whole ≡ true → length pixels.new.items ≤ most) }
    ensures flooded { IfOk result (λ whole. whole ≡ true
        → IsFlooded plane.now connect choice.now.threshold p marks.old pixels.old.items marks.new pixels.new.items) }
{
    let mut cursor = pixels.len();
    marks.set(p);
    pixels.push(p)?;
    while cursor < pixels.len() {
        if cursor >= most as usize {
            return Ok(false);
        }
        let a = pixels[cursor];
        spread(plane, connect, choice, a, marks, pixels)?;
        cursor += 1;
    }
    Ok(true)
}

// Marks each high neighbour of `a` that has no mark, and puts it behind the list.
fn spread(
    plane: &Plane,
    connect: Connect,
    choice: &Choice,
    a: u32,
    marks: &mut PixelMarks,
    pixels: &mut Vec<u32>,
) -> Result<(), OutOfMemory>
    requires pixel { a < length plane.now.values }
    requires one_each { length marks.old ≡ length plane.now.values }
    ensures { OnOk result (HasSpread plane.now connect choice.now.threshold a marks.old pixels.old.items marks.new pixels.new.items) }
{
    let near = neighbours(plane.shape(), connect, a);
    mark_high(plane, choice, &near, marks, pixels)
}

// Marks each high one of these pixels that has no mark, and puts it behind the list.
fn mark_high(
    plane: &Plane,
    choice: &Choice,
    near: &[u32],
    marks: &mut PixelMarks,
    pixels: &mut Vec<u32>,
) -> Result<(), OutOfMemory>
    requires inside { All (λ b. b < length plane.now.values) near.now }
    requires one_each { length marks.old ≡ length plane.now.values }
    ensures { OnOk result (HasLookedAtFirst plane.now choice.now.threshold near.now (length near.now)
        marks.old pixels.old.items marks.new pixels.new.items) }
{
    for b in near {
        mark(plane, choice, *b, marks, pixels)?;
    }
    Ok(())
}

// Marks a pixel that is high and has no mark, and puts it behind the list.
fn mark(
    plane: &Plane,
    choice: &Choice,
    b: u32,
    marks: &mut PixelMarks,
    pixels: &mut Vec<u32>,
) -> Result<(), OutOfMemory>
    requires pixel { b < length plane.now.values }
    requires one_each { length marks.old ≡ length plane.now.values }
    ensures { OnOk result (HasLookedAt plane.now choice.now.threshold b marks.old pixels.old.items marks.new pixels.new.items) }
{
    if marks.has(b) || !plane.is_at_least(choice.threshold, b) {
        return Ok(());
    }
    marks.set(b);
    pixels.push(b)?;
    Ok(())
}
