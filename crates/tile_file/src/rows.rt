//! Rows of the catalogue as cells of a table, and back.

ghost use Rattle.std.specs.Prelude.{◌≡◌, ◌<◌, ◌%◌, ◌++◌, IfSome, IfNone, ℕ, FitsSigned, IfOk, OnOk, length};
ghost use Rattle.std.specs.Int.{w64};
ghost use Rattle.std.specs.List.{All, flat_map};
ghost use Rattle.source_pick.specs.declared.catalogue.CatRow.{CatRow};
ghost use Rattle.source_pick.specs.Catalogue.{cells_of};
ghost use Rattle.fits_write.specs.CatalogueColumns.{cells_in_row};

use costs::OutOfMemory;
use fits_write::CELLS_IN_ROW;
use source_pick::{CatRow, cells};
use std::alloc::Global;

/// The cells of the rows, one behind the other.
pub fn row_cells(alloc: Global, rows: &[CatRow]) -> Result<Vec<i64>, OutOfMemory>
    ensures { IfOk result (λ table. table.items ≡ flat_map cells_of rows.now) }
{
    let mut table = Vec::new(alloc);
    for row in rows {
        if let Err(_) = table.extend_from_slice(&cells(row)) {
            return Err(OutOfMemory);
        }
    }
    Ok(table)
}

// The number in a cell.
fn value_of(cell: &i64) -> i64
    ensures same { result ≡ cell.now }
    ensures fits { FitsSigned w64 result }
{
    *cell
}

// The row with these cells, and the only one.
fn row_of(numbers: &[i64; CELLS_IN_ROW]) -> CatRow
    ensures cells { cells_of result ≡ numbers.now }
    ensures only { (row : CatRow) → cells_of row ≡ numbers.now → result ≡ row }
    ensures whole { All (FitsSigned w64) (cells_of result) }
{
    let [
        number,
        level,
        base,
        area,
        flux,
        peak,
        xmin,
        xmax,
        ymin,
        ymax,
        xfirst,
        yfirst,
        xcen,
        ycen,
        xvar,
        yvar,
        xycov,
    ] = numbers;
    CatRow {
        number: value_of(number),
        level: value_of(level),
        base: value_of(base),
        area: value_of(area),
        flux: value_of(flux),
        peak: value_of(peak),
        xmin: value_of(xmin),
        xmax: value_of(xmax),
        ymin: value_of(ymin),
        ymax: value_of(ymax),
        xfirst: value_of(xfirst),
        yfirst: value_of(yfirst),
        xcen: value_of(xcen),
        ycen: value_of(ycen),
        xvar: value_of(xvar),
        yvar: value_of(yvar),
        xycov: value_of(xycov),
    }
}

// A row, and the cells behind it.
#[derive(Clone, Copy)]
struct RowAhead<'a> {
    row: CatRow,
    rest: &'a [i64],
}

// The row at the front of the cells, if there are enough.
fn split_row(cells: &[i64]) -> Option<RowAhead<'_>>
    ensures some { IfSome result (λ ahead. (cells.now ≡ cells_of ahead.row ++ ahead.rest.now) × All (FitsSigned w64) (cells_of ahead.row)) }
    ensures none { IfNone result (length cells.now < cells_in_row) }
{
    match cells.split_first_chunk::<CELLS_IN_ROW>() {
        Some((front, rest)) => Some(RowAhead {
            row: row_of(front),
            rest,
        }),
        None => None,
    }
}

/// The rows with these cells.
pub(crate) fn rows_of(alloc: Global, table: &[i64]) -> Result<Vec<CatRow>, OutOfMemory>
    requires { length table.now % cells_in_row ≡ 0 }
    ensures cells { IfOk result (λ rows. table.now ≡ flat_map cells_of rows.items) }
    ensures whole { IfOk result (λ rows. All (FitsSigned w64) table.now) }
{
    let mut rows = Vec::new(alloc);
    let mut rest = table;
    while let Some(ahead) = split_row(rest) {
        rows.push(ahead.row)?;
        rest = ahead.rest;
    }
    Ok(rows)
}
