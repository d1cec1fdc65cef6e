//! The residual of a plane.
//!
//! A row is cut into runs, in each of which all pixels lie between the same two columns of cells, so that the level rises
//! evenly. Where a run starts, by lengths in half pixels: the centre of pixel x is at 2x + 1, that of cell i at
//! (2i + 1) * mesh. Cell `next` is the first whose centre lies past the pixel's exactly where 2x + 1 is at least the
//! centre of cell `next` - 1 and below its own, so from (2 * next - 1) * mesh on. That is x >= next * mesh - (mesh + 1) / 2
//! in whole pixels: half of (2 * next - 1) * mesh - 1, rounded up, is next * mesh less half of mesh + 1, rounded down.
//! For `next` = 0 this would lie before the row, which starts at 0 then; and no run reaches past the row's end.

ghost use Rattle.std.specs.Prelude.{◌≡◌, ℕ, ◌+◌, ◌-◌, ◌*◌, ◌/◌, ◌^◌, ◌<◌, ◌≤◌, ◌-ℤ◌, true, false, length, None, IfOk, IfSome, OnOk, OnErr};
ghost use Rattle.std.specs.Option.{option_map};
ghost use Rattle.comp_tree.specs.Limits.{IsInHalfRange, IsWithin, IsWithinRange, value_bound};
ghost use Rattle.comp_tree.specs.Raster.{HasValuesInHalfRange, HasValuesWithin};
ghost use Rattle.mesh_background.specs.Laws.{IsNumberInHalfRange};
ghost use Rattle.mesh_background.specs.Mesh.{values_of_mesh};
ghost use Rattle.mesh_background.specs.Residuals.{filtered_values, pixel_level, residual_of, residual_with};
ghost use Rattle.mesh_background.specs.Interpolation.{past_centre, cell_before, cell_after};
ghost use Rattle.mesh_background.specs.Lessened.{numbers_under, number_of_cell, level_of};
ghost use Rattle.mesh_background.specs.Lessened.{AreNumbers, IsInHalfRangeFrom, IsBand, IsLessened};
ghost use Rattle.mesh_background.specs.Slopes.{steps_on, first_before, IsSmallStep};

use crate::cells::mesh_values_with;
use crate::grid::Grid;
use crate::interpolation::{Between, down_column, level_between, parts_of, step_between};
use crate::slope::Mixed;
use crate::smoothing::smooth_mesh;
use comp_tree::{Pixel, Plane};
use costs::OutOfMemory;
use std::alloc::Global;
use std::thread::Threads;

/// The residual of a plane under a mesh: each defined pixel less its background. Undefined pixels stay undefined.
///
/// Where the order is `flat`, the background is the number of the pixel's cell. Else the numbers of the cells are
/// filtered, each by the lower median of itself and those around it, and the background is the level between the four
/// cells whose centres lie around the pixel's. With mesh 0 it is 0 everywhere, so the residual equals the plane.
///
/// The residual is made in the place of the plane. The one error is that memory was refused. The pixels are lessened in
/// `parts` bands, and at least 1,024 where values are small, as by `subtract_background`.
pub fn residual<R: Threads + Sync>(
    rt: &R,
    alloc: Global,
    mut plane: Plane,
    mesh: u32,
    flat: bool,
    parts: u32,
) -> Result<Plane, OutOfMemory>
    requires few { mesh ≤ 65535 }
    requires in_range { HasValuesInHalfRange plane.values }
    ensures { IfOk result (λ residual. residual ≡ residual_of plane mesh flat) }
{
    residual_with(rt, alloc, plane, mesh, flat, None, parts)
}

/// The same, but that where a number is given, the cells without a defined pixel have that.
pub fn residual_with<R: Threads + Sync>(
    rt: &R,
    alloc: Global,
    mut plane: Plane,
    mesh: u32,
    flat: bool,
    empty: Option<i64>,
    parts: u32,
) -> Result<Plane, OutOfMemory>
    requires few { mesh ≤ 65535 }
    requires in_range { HasValuesInHalfRange plane.values }
    requires given { IsNumberInHalfRange empty plane }
    ensures { IfOk result (λ residual. residual ≡ residual_with empty plane mesh flat) }
{
    subtract_background_with(rt, alloc, &mut plane, mesh, flat, empty, parts)?;
    Ok(plane)
}

/// Makes of a plane its residual, in place.
///
/// The pixels are lessened in `parts` bands of whole rows, each in a thread of its own where one can be made; 0 counts
/// as 1. Where values are small, so that what is left is sure to be below 2^31, less than 1,024 counts as 1,024. The one error
/// is that memory was refused; the plane is as it was then.
pub fn subtract_background<R: Threads + Sync>(
    rt: &R,
    alloc: Global,
    plane: &mut Plane,
    mesh: u32,
    flat: bool,
    parts: u32,
) -> Result<(), OutOfMemory>
    requires few { mesh ≤ 65535 }
    requires in_range { HasValuesInHalfRange plane.old.values }
    ensures subtracted { OnOk result (plane.new ≡ residual_of plane.old mesh flat) }
    ensures kept { OnErr result (plane.new ≡ plane.old) }
{
    subtract_background_with(rt, alloc, plane, mesh, flat, None, parts)
}

/// The same, but that where a number is given, the cells without a defined pixel have that.
pub fn subtract_background_with<R: Threads + Sync>(
    rt: &R,
    alloc: Global,
    plane: &mut Plane,
    mesh: u32,
    flat: bool,
    empty: Option<i64>,
    parts: u32,
) -> Result<(), OutOfMemory>
    requires few { mesh ≤ 65535 }
    requires in_range { HasValuesInHalfRange plane.old.values }
    requires given { IsNumberInHalfRange empty plane.old }
    ensures subtracted { OnOk result (plane.new ≡ residual_with empty plane.old mesh flat) }
    ensures kept { OnErr result (plane.new ≡ plane.old) }
{
    if mesh == 0 {
        return Ok(());
    }
    let numbers = match mesh_values_with(rt, alloc, plane, mesh, empty) {
        Ok(numbers) => numbers,
        Err(error) => return Err(error),
    };
    let grid = Grid::of(plane.shape(), mesh);
    if flat {
        return subtract_numbers(rt, alloc, plane, &grid, &numbers, empty, parts);
    }
    let smooth = match smooth_mesh(alloc, &numbers, grid.columns, grid.rows) {
        Ok(smooth) => smooth,
        Err(error) => return Err(error),
    };
    subtract_levels(rt, alloc, plane, &grid, &smooth, empty, parts)
}

// Takes the numbers of the cells away from the values of their pixels.
fn subtract_numbers<R: Threads + Sync>(
    rt: &R,
    alloc: Global,
    plane: &mut Plane,
    grid: &Grid,
    numbers: &[i64],
    empty: Option<i64>,
    parts: u32,
) -> Result<(), OutOfMemory>
    requires shape { grid.now.shape ≡ plane.old.shape }
    requires numbers { numbers.now ≡ values_of_mesh empty plane.old grid.now.mesh }
    requires in_range { HasValuesInHalfRange plane.old.values }
    requires given { IsNumberInHalfRange empty plane.old }
    ensures subtracted { OnOk result (plane.new ≡ residual_with empty plane.old grid.now.mesh true) }
    ensures kept { OnErr result (plane.new ≡ plane.old) }
{
    subtract_by_bands(rt, alloc, plane, grid, numbers, true, empty, parts)
}

// Takes the levels between the filtered numbers away from the values of the pixels.
fn subtract_levels<R: Threads + Sync>(
    rt: &R,
    alloc: Global,
    plane: &mut Plane,
    grid: &Grid,
    numbers: &[i64],
    empty: Option<i64>,
    parts: u32,
) -> Result<(), OutOfMemory>
    requires shape { grid.now.shape ≡ plane.old.shape }
    requires numbers { numbers.now ≡ filtered_values empty plane.old grid.now.mesh }
    requires in_range { HasValuesInHalfRange plane.old.values }
    requires given { IsNumberInHalfRange empty plane.old }
    ensures subtracted { OnOk result (plane.new ≡ residual_with empty plane.old grid.now.mesh false) }
    ensures kept { OnErr result (plane.new ≡ plane.old) }
{
    subtract_by_bands(rt, alloc, plane, grid, numbers, false, empty, parts)
}

// Both, by bands of whole rows. A band begins with a row, so its rows are found by its first pixel alone.
fn subtract_by_bands<R: Threads + Sync>(
    rt: &R,
    alloc: Global,
    plane: &mut Plane,
    grid: &Grid,
    numbers: &[i64],
    flat: bool,
    empty: Option<i64>,
    parts: u32,
) -> Result<(), OutOfMemory>
    requires shape { grid.now.shape ≡ plane.old.shape }
    requires numbers { numbers.now ≡ numbers_under empty plane.old grid.now.mesh flat }
    requires in_range { HasValuesInHalfRange plane.old.values }
    requires given { IsNumberInHalfRange empty plane.old }
    ensures subtracted { OnOk result (plane.new ≡ residual_with empty plane.old grid.now.mesh flat) }
    ensures kept { OnErr result (plane.new ≡ plane.old) }
{
    let most = most_left(plane, empty);
    let size = plane.shape().band_size(parts_for(most, parts));
    plane.change_bands(
        rt,
        alloc,
        size,
        most,
        &|start: usize, band: &mut [Pixel]|
            requires { IsBand grid.now.shape start band.now
                × AreNumbers grid.now.mesh grid.now.shape numbers.now }
            ensures { IsLessened band.entry.now (λ k. level_of
                flat grid.entry.now.mesh grid.entry.now.shape numbers.entry.now (start + k))
                0 (length band.entry.now) band.exit.now }
        { lessen_band(grid, numbers, flat, start, band) },
    )
}

// A bound of what is left of the values. A background is within any bound of its plane's values and of the number that is
// given for empty cells, so what is left is within twice that; nor is it beyond the range, since each of them is within
// half of it.
fn most_left(plane: &Plane, empty: Option<i64>) -> u64
    requires in_range { HasValuesInHalfRange plane.now.values }
    requires given { IsNumberInHalfRange empty plane.now }
    ensures half { HasValuesWithin (result / 2) plane.now.values }
    ensures given { IfSome empty (λ v. IsWithin (result / 2) v) }
    ensures bounded { result ≤ value_bound (length plane.now.values) }
{
    let most = bound_with(plane, empty);
    (most * 2).min(range_of(plane.shape().pixels()))
}

// A bound of the values and of that number.
fn bound_with(plane: &Plane, empty: Option<i64>) -> u64
    requires given { IsNumberInHalfRange empty plane.now }
    ensures within { HasValuesWithin result plane.now.values }
    ensures given { IfSome empty (λ v. IsWithin result v) }
    ensures bounded { result ≤ value_bound (length plane.now.values) }
{
    with_value(bound_of_values(plane), empty)
}

// A bound of the values. That of a plane of 32-bit numbers doesn't tell whether what is left stays below 2^31: so where it
// is large each value is looked at.
fn bound_of_values(plane: &Plane) -> u64
    ensures within { HasValuesWithin result plane.now.values }
    ensures bounded { result ≤ value_bound (length plane.now.values) }
{
    let told = plane.most();
    if told < 1 << 30 {
        return told;
    }
    plane.farthest()
}

// A bound, or how far from 0 this value lies where that is farther.
#[inline(always)]
fn with_value(bound: u64, value: Option<i64>) -> u64
    requires { IfSome value (λ v. IsWithinRange v) }
    ensures kept { bound ≤ result }
    ensures within { IfSome value (λ v. IsWithin result v) }
    ensures least { (most : ℕ) → bound ≤ most → IfSome value (λ v. IsWithin most v) → result ≤ most }
{
    match value {
        Some(value) => bound.max(value.unsigned_abs()),
        None => bound,
    }
}

// The bound of the values that a plane with so many pixels may have.
#[tactic(auto, unfolding(comp_tree::specs::Limits::value_bound))]
fn range_of(count: u32) -> u64
    ensures { result ≡ value_bound count }
{
    if count <= 1 << 24 { 1 << 37 } else { 1 << 30 }
}

// How many bands are asked for. Values below 2^31 may be kept in four bytes a pixel; then the bands are changed one after
// the other, in a buffer of eight bytes a pixel. Small bands keep it in a
// processor's cache.
fn parts_for(most: u64, parts: u32) -> u32 {
    if most < 1 << 31 {
        parts.max(1024)
    } else {
        parts
    }
}

// Lessens the pixels of a band, of which the first one is pixel `start` of the image.
fn lessen_band(grid: &Grid, numbers: &[i64], flat: bool, start: usize, band: &mut [Pixel])
    requires band { IsBand grid.now.shape start band.old }
    requires numbers { AreNumbers grid.now.mesh grid.now.shape numbers.now }
    ensures { IsLessened band.old
        (λ k. level_of flat grid.now.mesh grid.now.shape numbers.now (start + k))
        0 (length band.old) band.new }
{
    let width = grid.shape.width as usize;
    let top = start / width;
    for row in 0..band.len() / width {
        lessen_nth_row(grid, numbers, flat, (top + row) as u32, row * width, band);
    }
}

// Lessens those of row `y`, whose pixels stand in the band from place `first` on.
fn lessen_nth_row(
    grid: &Grid,
    numbers: &[i64],
    flat: bool,
    y: u32,
    first: usize,
    band: &mut [Pixel],
)
    requires row { y < grid.now.shape.height }
    requires inside { first + grid.now.shape.width ≤ length band.old }
    requires numbers { AreNumbers grid.now.mesh grid.now.shape numbers.now }
    requires in_range { IsInHalfRangeFrom first band.old }
    ensures { IsLessened band.old (λ k. level_of
        flat grid.now.mesh grid.now.shape numbers.now (y * grid.now.shape.width + (k - first)))
        first (first + grid.now.shape.width) band.new }
{
    let (_, rest) = band.split_at_mut(first);
    let (row, _) = rest.split_at_mut(grid.shape.width as usize);
    lessen_row(grid, numbers, flat, y, row);
}

// Lessens the pixels of row `y`.
fn lessen_row(grid: &Grid, numbers: &[i64], flat: bool, y: u32, row: &mut [Pixel])
    requires row { y < grid.now.shape.height }
    requires one_each { length row.old ≡ grid.now.shape.width }
    requires numbers { AreNumbers grid.now.mesh grid.now.shape numbers.now }
    requires in_range { IsInHalfRangeFrom 0 row.old }
    ensures { IsLessened row.old
        (λ x. level_of flat grid.now.mesh grid.now.shape numbers.now (y * grid.now.shape.width + x))
        0 grid.now.shape.width row.new }
{
    if !flat {
        lessen_row_by_levels(grid, numbers, y, row);
    } else {
        lessen_row_by_numbers(grid, numbers, y, row);
    }
}

// Takes the numbers of the cells away. The row's pixels in one cell stand side by side, so a number is looked up once for
// all of them.
fn lessen_row_by_numbers(grid: &Grid, numbers: &[i64], y: u32, row: &mut [Pixel])
    requires row { y < grid.now.shape.height }
    requires one_each { length row.old ≡ grid.now.shape.width }
    requires numbers { AreNumbers grid.now.mesh grid.now.shape numbers.now }
    requires in_range { IsInHalfRangeFrom 0 row.old }
    ensures { IsLessened row.old (λ x. number_of_cell
        grid.now.mesh grid.now.shape.width numbers.now (y * grid.now.shape.width + x))
        0 grid.now.shape.width row.new }
{
    let cells = y / grid.mesh * grid.columns;
    for column in 0..grid.columns {
        let left = column * grid.mesh;
        let right = (left + grid.mesh).min(grid.shape.width);
        let number = numbers[(cells + column) as usize];
        lessen_run(row, left as usize, right as usize, number);
    }
}

// Takes the levels between the cells' numbers away.
fn lessen_row_by_levels(grid: &Grid, numbers: &[i64], y: u32, row: &mut [Pixel])
    requires row { y < grid.now.shape.height }
    requires one_each { length row.old ≡ grid.now.shape.width }
    requires numbers { AreNumbers grid.now.mesh grid.now.shape numbers.now }
    requires in_range { IsInHalfRangeFrom 0 row.old }
    ensures { IsLessened row.old
        (λ x. pixel_level grid.now.mesh grid.now.shape numbers.now (y * grid.now.shape.width + x))
        0 grid.now.shape.width row.new }
{
    let down = Between::cells(grid.rows, grid.mesh, y);
    for next in 0..grid.columns + 1 {
        lessen_run_by_levels(grid, numbers, y, &down, next, row);
    }
}

// The same for those pixels of a row that lie between the same two columns of cells, of which the second one is `next`.
// There the level rises evenly, so there is no division for each pixel.
fn lessen_run_by_levels(
    grid: &Grid,
    numbers: &[i64],
    y: u32,
    down: &Between,
    next: u32,
    row: &mut [Pixel],
)
    requires row { y < grid.now.shape.height }
    requires one_each { length row.old ≡ grid.now.shape.width }
    requires before { down.now.before ≡ cell_before grid.now.rows grid.now.mesh y }
    requires after { down.now.after ≡ cell_after grid.now.rows grid.now.mesh y }
    requires past { down.now.past ≡ past_centre grid.now.mesh y }
    requires next { next ≤ grid.now.columns }
    requires numbers { AreNumbers grid.now.mesh grid.now.shape numbers.now }
    requires in_range { IsInHalfRangeFrom
        (first_before grid.now.mesh grid.now.shape.width next) row.old }
    ensures { IsLessened row.old
        (λ x. pixel_level grid.now.mesh grid.now.shape numbers.now (y * grid.now.shape.width + x))
        (first_before grid.now.mesh grid.now.shape.width next)
        (first_before grid.now.mesh grid.now.shape.width (next + 1)) row.new }
{
    let mesh = grid.mesh;
    let left = grid.run_start(next);
    let right = grid.run_start(next + 1);
    let across = Between::cells(grid.columns, mesh, left);
    let before = down_column(numbers, grid.columns, mesh, down, across.before);
    let after = down_column(numbers, grid.columns, mesh, down, across.after);
    let level = level_between(mesh, across.past, before, after);
    let step = step_between(mesh, before, after);
    lessen_slope(
        row,
        left as usize,
        right as usize,
        level,
        step,
        parts_of(mesh),
    );
}

// Takes levels away from the values of the pixels from `first` up to `end`: from the first one this one, from the next
// one a step more, and so on.
fn lessen_slope(row: &mut [Pixel], first: usize, end: usize, level: Mixed, step: Mixed, parts: u64)
    requires order { first ≤ end }
    requires within { end ≤ length row.old }
    requires some { 0 < parts }
    requires few { parts ≤ 2 ^ 60 }
    requires rest { level.rest < parts }
    requires step_rest { step.rest < parts }
    requires step { IsSmallStep step.floor }
    requires levels { (k : ℕ) → k < end - first → IsInHalfRange (steps_on parts level step k) }
    requires in_range { IsInHalfRangeFrom first row.old }
    ensures { IsLessened row.old (λ x. steps_on parts level step (x - first)) first end row.new }
{
    let mut at = level;
    for x in first..end {
        row[x] = lessened(row[x], at.floor);
        at = at.plus(step, parts);
    }
}

// Takes a number away from the values of the pixels from `first` up to `end`.
fn lessen_run(row: &mut [Pixel], first: usize, end: usize, number: i64)
    requires order { first ≤ end }
    requires within { end ≤ length row.old }
    requires number { IsInHalfRange number }
    requires in_range { IsInHalfRangeFrom first row.old }
    ensures { IsLessened row.old (λ _. number) first end row.new }
{
    for x in first..end {
        row[x] = lessened(row[x], number);
    }
}

// The pixel less a number, if it is defined.
#[inline(always)]
fn lessened(pixel: Pixel, number: i64) -> Pixel
    requires number { IsInHalfRange number }
    requires in_range { IfSome pixel (λ v. IsInHalfRange v) }
    ensures { result ≡ option_map (λ v. v -ℤ number) pixel }
{
    match pixel.value() {
        Some(value) => Pixel::of(Some(value - number)),
        None => pixel,
    }
}
