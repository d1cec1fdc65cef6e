//! The numbers of the cells: the lower medians of their defined pixels.

ghost use Rattle.std.specs.Prelude.{◌≡◌, ◌+◌, ◌-◌, ◌*◌, ◌<◌, ◌≤◌, ◌++◌, ℕ, length, map, slice_get, unwrap_or, Some, None, IfOk, OnOk};
ghost use Rattle.std.specs.List.{flat_map, range_with_len};
ghost use Rattle.std.specs.Option.{option_to_list};
ghost use Rattle.comp_tree.specs.Raster.{Raster};
ghost use Rattle.mesh_background.specs.Medians.{lower_median as lower_median_of};
ghost use Rattle.mesh_background.specs.Mesh.{cell_count, cell_pixels, defined_values, image_value, empty_value, values_of_mesh};

use crate::grid::Grid;
use crate::median::lower_median;
use comp_tree::{Pixel, Plane};
use costs::OutOfMemory;
use rayon::prelude::*;
use std::alloc::Global;
use std::thread::Threads;

// How many pixels are copied together: as many as a row of a cell has under the usual mesh.
const TOGETHER: u32 = 64;

/// The number of each cell of the mesh, row by row: the lower median of the cell's defined pixels. A cell that has none gets
/// that of all defined pixels of the image, or 0 where the image has none either.
///
/// The cells are shared out among threads. The one error is that memory was refused.
pub fn mesh_values<R: Threads + Sync>(
    rt: &R,
    alloc: Global,
    plane: &Plane,
    mesh: u32,
) -> Result<Vec<i64>, OutOfMemory>
    requires some { 0 < mesh }
    requires few { mesh ≤ 65535 }
    ensures { IfOk result (λ values. values.items ≡ values_of_mesh None plane.now mesh) }
{
    mesh_values_with(rt, alloc, plane, mesh, None)
}

/// The same, but that where a number is given, the cells without a defined pixel get that.
pub fn mesh_values_with<R: Threads + Sync>(
    rt: &R,
    alloc: Global,
    plane: &Plane,
    mesh: u32,
    empty: Option<i64>,
) -> Result<Vec<i64>, OutOfMemory>
    requires some { 0 < mesh }
    requires few { mesh ≤ 65535 }
    ensures { IfOk result (λ values. values.items ≡ values_of_mesh empty plane.now mesh) }
{
    let grid = Grid::of(plane.shape(), mesh);
    let medians = cell_medians(rt, alloc, plane, &grid)?;
    let otherwise = value_for_empty_cells(alloc, plane, &medians, empty)?;
    filled(alloc, &medians, otherwise)
}

// The lower median of each cell that has a defined pixel. To sort a cell is work enough for a thread, so even a few
// cells are split up: without that, a thousand of them would be one piece.
fn cell_medians<R: Threads + Sync>(
    rt: &R,
    alloc: Global,
    plane: &Plane,
    grid: &Grid,
) -> Result<Vec<Option<i64>>, OutOfMemory>
    requires { grid.now.shape ≡ plane.now.shape }
    ensures { IfOk result (λ medians. medians.items
        ≡ map (λ k. lower_median_of (defined_values plane.now (cell_pixels plane.now grid.now.mesh k)))
        (range_with_len 0 (cell_count grid.now.mesh plane.now.shape))) }
{
    (0..grid.cells())
        .into_par_iter()
        .with_min_len(1)
        .map(
            |cell: u32| -> Result<Option<i64>, OutOfMemory>
                requires { (grid.now.shape ≡ plane.now.shape)
                    × (cell < cell_count grid.now.mesh plane.now.shape) }
                ensures { IfOk result (λ median. median
                    ≡ lower_median_of (defined_values plane.entry.now (cell_pixels plane.entry.now grid.entry.now.mesh cell))) }
            { cell_median(alloc, plane, grid, cell) },
        )
        .collect::<Result<Vec<Option<i64>>, OutOfMemory>>(rt, alloc)?
}

// The lower median of a cell, if it has a defined pixel.
fn cell_median(
    alloc: Global,
    plane: &Plane,
    grid: &Grid,
    cell: u32,
) -> Result<Option<i64>, OutOfMemory>
    requires shape { grid.now.shape ≡ plane.now.shape }
    requires cell { cell < cell_count grid.now.mesh plane.now.shape }
    ensures { IfOk result (λ median.
        median ≡ lower_median_of (defined_values plane.now (cell_pixels plane.now grid.now.mesh cell))) }
{
    let mut members = cell_members(alloc, plane, grid, cell)?;
    Ok(lower_median(&mut members))
}

// The values of the defined pixels of a cell. The list has room for all pixels at once, so it is never moved.
fn cell_members(
    alloc: Global,
    plane: &Plane,
    grid: &Grid,
    cell: u32,
) -> Result<Vec<i64>, OutOfMemory>
    requires shape { grid.now.shape ≡ plane.now.shape }
    requires cell { cell < cell_count grid.now.mesh plane.now.shape }
    ensures { IfOk result (λ members.
        members.items ≡ defined_values plane.now (cell_pixels plane.now grid.now.mesh cell)) }
{
    let width = plane.shape().width;
    let bounds = grid.cell(cell);
    let room = (bounds.right - bounds.left) * (bounds.bottom - bounds.top);
    let mut members = Vec::with_capacity(alloc, room as usize)?;
    for y in bounds.top..bounds.bottom {
        push_values(
            plane,
            y * width + bounds.left,
            y * width + bounds.right,
            &mut members,
        )?;
    }
    Ok(members)
}

// Appends the values of the defined pixels from `first` up to `end`. How the plane keeps its pixels is asked for once a
// run of them, and not for each.
fn push_values(
    plane: &Plane,
    first: u32,
    end: u32,
    members: &mut Vec<i64>,
) -> Result<(), OutOfMemory>
    requires ordered { first ≤ end }
    requires within { end ≤ length plane.now.values }
    ensures { OnOk result (members.new.items
        ≡ members.old.items ++ defined_values plane.now (range_with_len first (end - first))) }
{
    let mut run = [Pixel::of(None); TOGETHER as usize];
    let whole = (end - first) / TOGETHER;
    for k in 0..whole {
        push_run(plane, first + k * TOGETHER, &mut run, members)?;
    }
    let rest = (end - first) % TOGETHER;
    push_run(plane, end - rest, &mut run[..rest as usize], members)
}

// Appends those of the pixels from `first` on, as many as `run` has room for.
#[inline]
fn push_run(
    plane: &Plane,
    first: u32,
    run: &mut [Pixel],
    members: &mut Vec<i64>,
) -> Result<(), OutOfMemory>
    requires within { first + length run.old ≤ length plane.now.values }
    ensures one_each { length run.new ≡ length run.old }
    ensures pushed { OnOk result (members.new.items
        ≡ members.old.items ++ defined_values plane.now (range_with_len first (length run.old))) }
{
    plane.copy_pixels(first, run);
    push_defined(run, members)
}

// Appends the values of those pixels that have one.
#[inline]
fn push_defined(run: &[Pixel], members: &mut Vec<i64>) -> Result<(), OutOfMemory>
    ensures { OnOk result (members.new.items ≡ members.old.items ++ flat_map option_to_list run.now) }
{
    for pixel in run {
        push_value(*pixel, members)?;
    }
    Ok(())
}

// Appends the value of a pixel, if it is defined.
#[inline(always)]
fn push_value(pixel: Pixel, members: &mut Vec<i64>) -> Result<(), OutOfMemory>
    ensures { OnOk result (members.new.items ≡ members.old.items ++ option_to_list pixel) }
{
    if let Some(value) = pixel.value() {
        members.push(value)?;
    }
    Ok(())
}

// What a cell without a defined pixel gets: the given number, or else the image's own median.
fn value_for_empty_cells(
    alloc: Global,
    plane: &Plane,
    medians: &[Option<i64>],
    empty: Option<i64>,
) -> Result<i64, OutOfMemory>
    ensures { IfOk result (λ value. (k : ℕ) → slice_get medians.now k ≡ Some None
        → value ≡ empty_value empty plane.now) }
{
    match empty {
        Some(number) => Ok(number),
        None => value_of_empty_cells(alloc, plane, medians),
    }
}

// What it gets where no number is given. The image's own median is looked for only where there is such a cell.
fn value_of_empty_cells(
    alloc: Global,
    plane: &Plane,
    medians: &[Option<i64>],
) -> Result<i64, OutOfMemory>
    ensures { IfOk result (λ value. (k : ℕ) → slice_get medians.now k ≡ Some None
        → value ≡ image_value plane.now) }
{
    if medians.iter().all(|median| median.is_some()) {
        return Ok(0);
    }
    let pixels = plane.shape().pixels();
    let mut members = Vec::with_capacity(alloc, pixels as usize)?;
    push_values(plane, 0, pixels, &mut members)?;
    Ok(lower_median(&mut members).unwrap_or(0))
}

// The medians, with this value where there is none.
fn filled(alloc: Global, medians: &[Option<i64>], otherwise: i64) -> Result<Vec<i64>, OutOfMemory>
    ensures { IfOk result (λ values.
        values.items ≡ map (λ median. unwrap_or median otherwise) medians.now) }
{
    let values = medians
        .iter()
        .map(|median| median.unwrap_or(otherwise))
        .collect(alloc)?;
    Ok(values)
}
