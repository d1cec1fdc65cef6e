//! Small planes under meshes with full, short and empty cells.

ghost use Rattle.std.specs.Prelude.{◌^◌, IfOk, IfSome};
ghost use Rattle.comp_tree.specs.Limits.{IsWithin};
ghost use Rattle.comp_tree.specs.Raster.{HasValuesInHalfRange};

use crate::{
    level_at, mesh_values, mesh_values_with, residual, residual_with, smooth_mesh,
    subtract_background, subtract_background_with,
};
use comp_tree::{Plane, Shape};
use std::alloc::Global;
use std::process::Abort;
use std::test::Fail;
use std::thread::Threads;

// Stands for an undefined pixel in the tables below.
const U: i64 = 99;

// A plane of these values, in which `U` stands for an undefined pixel.
fn plane_of(alloc: Global, width: u32, height: u32, values: &[i64]) -> Result<Plane, Fail>
    ensures { IfOk result (λ plane. HasValuesInHalfRange plane.values) }
{
    let shape = Shape::of(width, height).ok_or("a shape")?;
    let mut pixels = Vec::new(alloc);
    for value in values {
        let pixel = pixel_of(*value)?;
        pixels.push(pixel)?;
    }
    match Plane::of(alloc, shape, &pixels)? {
        Some(plane) => Ok(plane),
        None => Err(Fail::from("a plane of these values")),
    }
}

// A value of such a table, which is a small one.
fn pixel_of(value: i64) -> Result<Option<i64>, Fail>
    ensures { IfOk result (λ pixel. IfSome pixel (λ v. IsWithin (2 ^ 29) v)) }
{
    if value == U {
        return Ok(None);
    }
    if value < -U || value > U {
        return Err(Fail::from("a small value"));
    }
    Ok(Some(value))
}

// Compares a plane with a table.
fn try_values(rt: &impl Abort, plane: &Plane, wanted: &[i64]) {
    assert_eq!(rt; plane.shape().pixels() as usize, wanted.len());
    for (p, value) in wanted.iter().enumerate() {
        if p < plane.shape().pixels() as usize {
            assert_eq!(rt; plane.get(p as u32).unwrap_or(U), *value, "pixel {p}");
        }
    }
}

// Compares numbers of cells.
fn try_numbers(rt: &impl Abort, numbers: &[i64], wanted: &[i64]) {
    assert_eq!(rt; numbers, wanted);
}

// Compares the numbers of a plane's cells.
fn try_medians<R: Threads + Sync + Abort>(
    rt: &R,
    alloc: Global,
    plane: &Plane,
    mesh: u32,
    wanted: &[i64],
) -> Result<(), Fail> {
    assert!(rt; 0 < mesh && mesh <= 65535);
    let values = mesh_values(rt, alloc, plane, mesh)?;
    try_numbers(rt, &values, wanted);
    Ok(())
}

// Compares the residual of a plane with a table.
fn try_residual<R: Threads + Sync + Abort>(
    rt: &R,
    alloc: Global,
    plane: &Plane,
    mesh: u32,
    flat: bool,
    parts: u32,
    wanted: &[i64],
) -> Result<(), Fail>
    requires { HasValuesInHalfRange plane.now.values }
{
    assert!(rt; mesh <= 9);
    let left = residual(rt, alloc, plane.copied(alloc)?, mesh, flat, parts)?;
    try_values(rt, &left, wanted);
    Ok(())
}

// Four pixels, two, and none: the last cell gets the median of the image.
#[test]
fn medians_of_full_short_and_empty_cells(rt: HostRuntime) -> Result<(), Fail> {
    let plane = plane_of(rt.alloc(), 5, 2, &[1, 4, U, U, 9, 2, 3, U, U, 7])?;
    try_medians(&rt, rt.alloc(), &plane, 2, &[2, 3, 7])
}

// 3 and 4 have the lower median 3, the last column stands alone, and a mesh larger than the image has one cell.
#[test]
fn medians_of_an_image_under_several_meshes(rt: HostRuntime) -> Result<(), Fail> {
    let plane = plane_of(rt.alloc(), 3, 2, &[4, -7, 5, 3, 20, -6])?;
    try_medians(&rt, rt.alloc(), &plane, 1, &[4, -7, 5, 3, 20, -6])?;
    try_medians(&rt, rt.alloc(), &plane, 2, &[3, -6])?;
    try_medians(&rt, rt.alloc(), &plane, 65535, &[3])
}

// A row of more pixels than are copied together: the first and the last pixel of both runs are defined.
#[test]
fn medians_of_a_long_row(rt: HostRuntime) -> Result<(), Fail> {
    let mut values = [U; 70];
    values[0] = 1;
    values[63] = 5;
    values[64] = 3;
    values[69] = 7;
    let plane = plane_of(rt.alloc(), 70, 1, &values)?;
    try_medians(&rt, rt.alloc(), &plane, 64, &[1, 3])?;
    try_medians(&rt, rt.alloc(), &plane, 65535, &[3])
}

#[test]
fn an_image_without_defined_pixels_has_zeros(rt: HostRuntime) -> Result<(), Fail> {
    let plane = plane_of(rt.alloc(), 2, 1, &[U, U])?;
    try_medians(&rt, rt.alloc(), &plane, 1, &[0, 0])?;
    try_residual(&rt, rt.alloc(), &plane, 1, false, 1, &[U, U])
}

// The same cells; the one that has none gets the given number.
#[test]
fn a_given_number_goes_to_the_empty_cell(rt: HostRuntime) -> Result<(), Fail> {
    let plane = plane_of(rt.alloc(), 5, 2, &[1, 4, U, U, 9, 2, 3, U, U, 7])?;
    let values = mesh_values_with(&rt, rt.alloc(), &plane, 2, Some(-5))?;
    try_numbers(&rt, &values, &[2, -5, 7]);
    Ok(())
}

// The numbers are filtered to -5 2 -5, and the background is -5 -4 -2 0 -4 in both rows.
#[test]
fn a_given_number_is_in_the_smooth_residual(rt: HostRuntime) -> Result<(), Fail> {
    let plane = plane_of(rt.alloc(), 5, 2, &[1, 4, U, U, 9, 2, 3, U, U, 7])?;
    let left = residual_with(&rt, rt.alloc(), plane, 2, false, Some(-5), 1)?;
    try_values(&rt, &left, &[6, 8, U, U, 13, 7, 7, U, U, 11]);
    Ok(())
}

#[test]
fn a_given_number_is_subtracted_in_place(rt: HostRuntime) -> Result<(), Fail> {
    let mut plane = plane_of(rt.alloc(), 5, 2, &[1, 4, U, U, 9, 2, 3, U, U, 7])?;
    subtract_background_with(&rt, rt.alloc(), &mut plane, 2, true, Some(-5), 2)?;
    try_values(&rt, &plane, &[-1, 2, U, U, 2, 0, 1, U, U, 0]);
    Ok(())
}

// The number of a cell is for the whole of it where the background is flat; without a mesh nothing is taken away.
#[test]
fn flat_residual_and_none(rt: HostRuntime) -> Result<(), Fail> {
    let plane = plane_of(rt.alloc(), 5, 2, &[1, 4, U, U, 9, 2, 3, U, U, 7])?;
    let left = [-1, 2, U, U, 2, 0, 1, U, U, 0];
    try_residual(&rt, rt.alloc(), &plane, 2, true, 1, &left)?;
    let same = [1, 4, U, U, 9, 2, 3, U, U, 7];
    try_residual(&rt, rt.alloc(), &plane, 0, true, 1, &same)?;
    try_residual(&rt, rt.alloc(), &plane, 0, false, 1, &same)
}

#[test]
fn numbers_of_three_cells_are_filtered(rt: HostRuntime) -> Result<(), Fail> {
    let smooth = smooth_mesh(rt.alloc(), &[2, 3, 7], 3, 1)?;
    try_numbers(&rt, &smooth, &[2, 3, 3]);
    Ok(())
}

// Two rows, and three.
#[test]
fn the_filter_looks_at_the_rows_above_and_below(rt: HostRuntime) -> Result<(), Fail> {
    let two = smooth_mesh(rt.alloc(), &[5, 3], 1, 2)?;
    try_numbers(&rt, &two, &[3, 3]);
    let three = smooth_mesh(rt.alloc(), &[9, 3, 7], 1, 3)?;
    try_numbers(&rt, &three, &[3, 7, 3]);
    Ok(())
}

// The cells of the first plane have the numbers 1, 9, 5, 9, 3 and 3; the second plane is its window from the third cell
// on. From pixel 7 on the background depends on cells of the window alone, and the residual is the same. Pixel 6 has
// one cell of margin, which isn't enough.
#[test]
fn residual_of_a_window(rt: HostRuntime) -> Result<(), Fail> {
    let plane = plane_of(rt.alloc(), 12, 1, &[1, 1, 9, 9, 5, 5, 9, 9, 3, 3, 3, 3])?;
    let left = [0, -1, 5, 3, -3, -3, 3, 5, 0, 0, 0, 0];
    try_residual(&rt, rt.alloc(), &plane, 2, false, 1, &left)?;
    let window = plane_of(rt.alloc(), 8, 1, &[5, 5, 9, 9, 3, 3, 3, 3])?;
    let there = [0, 0, 4, 5, 0, 0, 0, 0];
    try_residual(&rt, rt.alloc(), &window, 2, false, 1, &there)
}

// The background is 2 2 2 3 3 in both rows.
#[test]
fn smooth_residual(rt: HostRuntime) -> Result<(), Fail> {
    let plane = plane_of(rt.alloc(), 5, 2, &[1, 4, U, U, 9, 2, 3, U, U, 7])?;
    let left = [-1, 2, U, U, 6, 0, 1, U, U, 4];
    try_residual(&rt, rt.alloc(), &plane, 2, false, 1, &left)
}

// The background is -20 -18 -13 -10 -10 -10.
#[test]
fn smooth_residual_below_zero(rt: HostRuntime) -> Result<(), Fail> {
    let plane = plane_of(rt.alloc(), 6, 1, &[-20, -20, -10, -10, 0, 0])?;
    try_residual(&rt, rt.alloc(), &plane, 2, false, 1, &[0, -2, 3, 0, 10, 10])
}

// The last of three cells has one row, but the centre of a full one. The filtered numbers are 6 6 0, the background 6 6
// 6 6 6 4 2. Bands of three rows, three and one are cut as the cells are, bands of two rows across them.
#[test]
fn a_short_last_cell_keeps_its_centre(rt: HostRuntime) -> Result<(), Fail> {
    let plane = plane_of(rt.alloc(), 1, 7, &[6, 6, 6, 9, 9, 9, 0])?;
    let left = [0, 0, 0, 3, 3, 5, -2];
    try_residual(&rt, rt.alloc(), &plane, 3, false, 3, &left)?;
    try_residual(&rt, rt.alloc(), &plane, 3, false, 4, &left)
}

// Beyond the outer centres a cell's own number stands, or a level on the edge; the last one is -63 / 16, rounded down.
#[test]
fn levels_between_four_cells(rt: HostRuntime) -> Result<(), Fail> {
    let values = [0, 9, -16, 24];
    assert_eq!(rt; level_at(&values, 2, 2, 2, 0, 0), 0);
    assert_eq!(rt; level_at(&values, 2, 2, 2, 3, 3), 24);
    assert_eq!(rt; level_at(&values, 2, 2, 2, 1, 0), 2);
    assert_eq!(rt; level_at(&values, 2, 2, 2, 0, 2), -12);
    assert_eq!(rt; level_at(&values, 2, 2, 2, 1, 2), -4);
    Ok(())
}

#[test]
fn background_is_subtracted_in_place(rt: HostRuntime) -> Result<(), Fail> {
    let mut plane = plane_of(rt.alloc(), 5, 2, &[1, 4, U, U, 9, 2, 3, U, U, 7])?;
    subtract_background(&rt, rt.alloc(), &mut plane, 2, true, 2)?;
    try_values(&rt, &plane, &[-1, 2, U, U, 2, 0, 1, U, U, 0]);
    Ok(())
}

// Where memory is refused the plane is as it was. `tests/growths.py` runs this with each growth of memory refused in turn.
#[test]
fn background_is_subtracted_whole_or_not_at_all(rt: HostRuntime) -> Result<(), Fail> {
    let mut plane = plane_of(rt.alloc(), 5, 2, &[1, 4, U, U, 9, 2, 3, U, U, 7])?;
    match subtract_background(&rt, rt.alloc(), &mut plane, 2, false, 2) {
        Ok(()) => try_values(&rt, &plane, &[-1, 2, U, U, 6, 0, 1, U, U, 4]),
        Err(_) => try_values(&rt, &plane, &[1, 4, U, U, 9, 2, 3, U, U, 7]),
    }
    Ok(())
}
