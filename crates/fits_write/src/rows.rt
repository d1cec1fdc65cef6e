//! From the bytes of a row to its cells.
ghost use Rattle.std.specs.Prelude.{◌≡◌, ◌≤◌, ◌++◌, length, drop, OnOk};
ghost use Rattle.fits_write.specs.Columns.{cell_size, row_size};
ghost use Rattle.fits_write.specs.Rows.{front_cell, row_cells};

use crate::{Cell, Column};
use byteorder::{BigEndian, ByteOrder};
use costs::OutOfMemory;

// The number in a cell of this kind at the front of the bytes, and what stands behind it.
fn split_cell(cell: Cell, bytes: &[u8]) -> (i64, &[u8])
    requires { cell_size cell ≤ length bytes.now }
    ensures number { result.0 ≡ front_cell cell bytes.now }
    ensures rest { result.1.now ≡ drop (cell_size cell) bytes.now }
{
    match cell {
        Cell::J => (i64::from(BigEndian::read_i32(bytes)), &bytes[4..]),
        Cell::K => (BigEndian::read_i64(bytes), &bytes[8..]),
    }
}

/// Puts the cells of the row with these columns and bytes behind those before them.
pub fn add_row(cells: &mut Vec<i64>, columns: &[Column], bytes: &[u8]) -> Result<(), OutOfMemory>
    requires { row_size columns.now ≤ length bytes.now }
    ensures { OnOk result (cells.new.items ≡ cells.old.items ++ row_cells columns.now bytes.now) }
{
    let mut rest = bytes;
    for column in columns {
        let (number, behind) = split_cell(column.cell, rest);
        cells.push(number)?;
        rest = behind;
    }
    Ok(())
}
