//! The numbers of the cells, smoothed by a median filter.

ghost use Rattle.std.specs.Prelude.{◌≡◌, ◌*◌, ◌/◌, ◌%◌, ◌<◌, length, IfOk, OnOk};
ghost use Rattle.mesh_background.specs.Smoothing.{filtered_mesh, numbers_around};

use crate::median::lower_median;
use costs::OutOfMemory;
use std::alloc::Global;

// How many cells a cell and those around it are, at most.
const MOST_AROUND: usize = 9;

/// The filtered numbers of a grid of cells, row by row: for each cell the lower median of its own number and of those
/// of the cells around it, also across a corner. At the edge of the grid there are fewer.
///
/// The one error is that memory was refused.
pub fn smooth_mesh(
    alloc: Global,
    values: &[i64],
    columns: u32,
    rows: u32,
) -> Result<Vec<i64>, OutOfMemory>
    requires some_columns { 0 < columns }
    requires some_rows { 0 < rows }
    requires one_each { length values.now ≡ columns * rows }
    ensures { IfOk result (λ smooth. smooth.items ≡ filtered_mesh values.now columns rows) }
{
    let mut smooth = Vec::with_capacity(alloc, values.len())?;
    let mut around = Vec::with_capacity(alloc, MOST_AROUND)?;
    for cell in 0..values.len() {
        gather_around(values, columns as usize, rows as usize, cell, &mut around)?;
        smooth.push(lower_median(&mut around).unwrap_or(0))?;
    }
    Ok(smooth)
}

// Lists the numbers of a cell and of those around it, in place of what was in the list.
fn gather_around(
    values: &[i64],
    columns: usize,
    rows: usize,
    cell: usize,
    around: &mut Vec<i64>,
) -> Result<(), OutOfMemory>
    requires one_each { length values.now ≡ columns * rows }
    requires cell { cell < columns * rows }
    ensures { OnOk result (around.new.items
        ≡ numbers_around values.now columns rows (cell % columns) (cell / columns)) }
{
    let column = cell % columns;
    let row = cell / columns;
    let left = column.max(1) - 1;
    let right = (column + 2).min(columns);
    around.clear();
    for near in row.max(1) - 1..(row + 2).min(rows) {
        around.extend_from_slice(&values[near * columns + left..near * columns + right])?;
    }
    Ok(())
}
