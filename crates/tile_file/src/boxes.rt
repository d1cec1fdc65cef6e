//! Boxes of an image as cells of a table, and back.

ghost use Rattle.std.specs.Prelude.{◌≡◌, ◌+◌, ◌≤◌, ◌++◌, ℕ, ℤ, pos, List, IfSome, IfNone, OnOk};
ghost use Rattle.fits_write.specs.CatalogueColumns.{column};
ghost use Rattle.fits_write.specs.declared.table.Cell.TheVariants.{J};
ghost use Rattle.tile_laws.specs.declared.extents.Extent.{Extent};
ghost use Rattle.tile_laws.specs.declared.extents.Interval.{Interval};
ghost use Rattle.tile_file.specs.TileFiles.{box_columns, box_cells, HasEndsWithin};
ghost use Rattle.tile_file.specs.Reading.{AreEndsOf};

use costs::OutOfMemory;
use fits_write::{Cell, Column};
use tile_laws::{Extent, Interval};

/// How many cells a box has.
pub(crate) const CELLS_IN_BOX: usize = 4;

// Where no side of an image ends later.
const LAST_END: i64 = 65535;

/// The columns of a table of boxes.
#[tactic(auto, unfolding(crate::specs::TileFiles::box_columns))]
pub(crate) fn box_columns() -> [Column; CELLS_IN_BOX]
    ensures { result ≡ box_columns }
{
    [
        narrow_column(b"XMIN    "),
        narrow_column(b"XMAX    "),
        narrow_column(b"YMIN    "),
        narrow_column(b"YMAX    "),
    ]
}

fn narrow_column(name: &[u8; 8]) -> Column
    ensures { result ≡ column name.now J }
{
    Column {
        name: *name,
        cell: Cell::J,
    }
}

// The cells of a box.
fn box_cells(extent: &Extent) -> [i64; CELLS_IN_BOX]
    ensures { result ≡ box_cells extent.now }
{
    [
        i64::from(extent.columns.from) + 1,
        i64::from(extent.columns.to),
        i64::from(extent.rows.from) + 1,
        i64::from(extent.rows.to),
    ]
}

/// Puts the cells of a box behind those before them.
pub(crate) fn add_box(cells: &mut Vec<i64>, extent: &Extent) -> Result<(), OutOfMemory>
    ensures { OnOk result (cells.new.items ≡ cells.old.items ++ box_cells extent.now) }
{
    match cells.extend_from_slice(&box_cells(extent)) {
        Ok(()) => Ok(()),
        Err(_) => Err(OutOfMemory),
    }
}

// What two cells say of one side of a box.
fn side_of(least: &i64, greatest: &i64) -> Option<Interval>
    ensures some { IfSome result (AreEndsOf least.now greatest.now) }
    ensures none { IfNone result ((side : Interval) → AreEndsOf least.now greatest.now side → ⊥) }
{
    if *least < 1 || *least > LAST_END + 1 || *greatest < 0 || *greatest > LAST_END {
        return None;
    }
    Some(Interval {
        from: (*least - 1) as u32,
        to: *greatest as u32,
    })
}

// The box with these cells.
fn extent_of(cells: &[i64; CELLS_IN_BOX]) -> Option<Extent>
    ensures some { IfSome result (λ found. (cells.now ≡ box_cells found) × HasEndsWithin found) }
    ensures none { IfNone result ((found : Extent) → HasEndsWithin found → cells.now ≡ box_cells found → ⊥) }
{
    let [xmin, xmax, ymin, ymax] = cells;
    let Some(columns) = side_of(xmin, xmax) else {
        return None;
    };
    let Some(rows) = side_of(ymin, ymax) else {
        return None;
    };
    Some(Extent { columns, rows })
}

/// A box, and the cells behind it.
#[derive(Clone, Copy)]
pub(crate) struct BoxAhead<'a> {
    pub found: Extent,
    pub rest: &'a [i64],
}

/// The box at the front of the cells, if there is one that ends where an image may.
pub(crate) fn split_box(cells: &[i64]) -> Option<BoxAhead<'_>>
    ensures some { IfSome result (λ ahead. (cells.now ≡ box_cells ahead.found ++ ahead.rest.now) × HasEndsWithin ahead.found) }
    ensures none { IfNone result ((found : Extent) (rest : List ℤ) → HasEndsWithin found → cells.now ≡ box_cells found ++ rest → ⊥) }
{
    let Some((front, rest)) = cells.split_first_chunk::<CELLS_IN_BOX>() else {
        return None;
    };
    match extent_of(front) {
        Some(found) => Some(BoxAhead { found, rest }),
        None => None,
    }
}
