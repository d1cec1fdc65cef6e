//! A table of whole numbers at the front of bytes.
ghost use Rattle.std.specs.Prelude.{◌≡◌, ◌*◌, ◌<◌, ◌≤◌, ◌++◌, ℕ, ℤ, pos, List, Some, length, FitsSigned, IsTrue, IfOk, IfSome, IfNone, MatchOption};
ghost use Rattle.std.specs.List.{All, concat, list_all};
ghost use Rattle.std.specs.Int.{w64};
ghost use Rattle.fits_card.specs.Written.{is_plain};
ghost use Rattle.fits_write.specs.Columns.{IsTable, row_size, column_cards};
ghost use Rattle.fits_write.specs.Hdus.{header, named_cards, named_hdu};
ghost use Rattle.fits_write.specs.Rows.{table_cells};
ghost use Rattle.fits_back.specs.Announced.{announced};
ghost use Rattle.fits_back.specs.Fronts.{BeginsNot};
ghost use Rattle.fits_back.specs.TableRows.{StandAsRows, BeginsWithNoRows};

use crate::data::split_data;
use crate::front::{strip_cards, strip_fill};
use costs::OutOfMemory;
use fits_card::integer;
use fits_card::laws::integer_is_read_back;
use fits_write::laws::written_cells_are_read_back;
use fits_write::{Cell, Column, add_row, column_cards, named_back, table_front};
use std::alloc::Global;

// The most rows that a table can have: 2^31 - 1.
const MOST_ROWS: i64 = 2147483647;

/// The cells of a table, row by row, and what stands behind it.
#[derive(Drop)]
pub struct SplitTable<'a> {
    pub cells: Vec<i64>,
    pub rest: &'a [u8],
}

/// Takes apart the table with this name and these columns at the front of the bytes, if there is one. Memory is taken only where the rows
/// that its header announces are there.
pub fn split_table<'a>(
    alloc: Global,
    bytes: &'a [u8],
    name: &[u8],
    columns: &[Column],
) -> Result<Option<SplitTable<'a>>, OutOfMemory>
    requires short { length name.now ≤ 68 }
    requires plain { IsTrue (list_all is_plain name.now) }
    requires some_columns { 0 < length columns.now }
    requires few_columns { length columns.now ≤ 99 }
    requires plain_names { IsTrue (list_all (λ column. list_all is_plain column.name) columns.now) }
    ensures some { IfOk result (λ found. IfSome found (λ split.
        (bytes.now ≡ named_hdu name.now columns.now split.cells.items ++ split.rest.now) × IsTable columns.now split.cells.items)) }
    ensures none { IfOk result (λ found. IfNone found ((cells : List ℤ) (rest : List ℕ) → IsTable columns.now cells
        → All (FitsSigned w64) cells → bytes.now ≡ named_hdu name.now columns.now cells ++ rest → ⊥)) }
{
    integer_is_read_back();
    written_cells_are_read_back();
    let Some(rows) = announced_rows(bytes) else {
        return Ok(None)
    };
    let Some(behind) = strip_table_header(bytes, name, columns, rows) else {
        return Ok(None)
    };
    split_rows(alloc, behind, columns, rows)
}

// How many rows the fifth card of a table's header announces.
#[tactic(auto, unfolding(crate::specs::Announced::announced))]
fn announced_rows(bytes: &[u8]) -> Option<usize>
    ensures { MatchOption result ((rows : ℕ) → 400 ≤ length bytes.now → rows ≤ 2147483647 → announced bytes.now ≡ Some (pos rows) → ⊥)
        (λ rows. (rows ≤ 2147483647) × (announced bytes.now ≡ Some (pos rows))) }
{
    if bytes.len() < 400 {
        return None;
    }
    let mut card = [b' '; 80];
    card.copy_from_slice(&bytes[320..400]);
    match integer(&card) {
        Some(rows) if 0 <= rows && rows <= MOST_ROWS => Some(rows as usize),
        _ => None,
    }
}

// What stands behind the header of a table with so many rows.
fn strip_table_header<'a>(
    bytes: &'a [u8],
    name: &[u8],
    columns: &[Column],
    rows: usize,
) -> Option<&'a [u8]>
    requires short { length name.now ≤ 68 }
    requires plain { IsTrue (list_all is_plain name.now) }
    requires few_columns { length columns.now ≤ 99 }
    requires few_rows { rows ≤ 2147483647 }
    requires plain_names { IsTrue (list_all (λ column. list_all is_plain column.name) columns.now) }
    ensures { MatchOption result (BeginsNot (header (named_cards name.now columns.now rows)) bytes.now)
        (λ rest. bytes.now ≡ header (named_cards name.now columns.now rows) ++ rest.now) }
{
    let Some(behind_front) = strip_cards(bytes, &table_front(columns, rows)) else {
        return None
    };
    let Some(behind_columns) = strip_columns(behind_front, columns) else {
        return None
    };
    let Some(behind_cards) = strip_cards(behind_columns, &named_back(name)) else {
        return None
    };
    strip_fill(behind_cards, b' ', bytes.len() - behind_cards.len())
}

// What stands behind the cards of these columns.
fn strip_columns<'a>(bytes: &'a [u8], columns: &[Column]) -> Option<&'a [u8]>
    requires few_columns { length columns.now ≤ 99 }
    requires plain_names { IsTrue (list_all (λ column. list_all is_plain column.name) columns.now) }
    ensures { MatchOption result (BeginsNot (concat (column_cards 1 columns.now)) bytes.now)
        (λ rest. bytes.now ≡ concat (column_cards 1 columns.now) ++ rest.now) }
{
    let mut rest = bytes;
    for (index, column) in columns.iter().enumerate() {
        let Some(behind) = strip_cards(rest, &column_cards(index + 1, column)) else {
            return None
        };
        rest = behind;
    }
    Some(rest)
}

// Takes apart the data of a table with so many rows.
fn split_rows<'a>(
    alloc: Global,
    bytes: &'a [u8],
    columns: &[Column],
    rows: usize,
) -> Result<Option<SplitTable<'a>>, OutOfMemory>
    requires some_columns { 0 < length columns.now }
    requires few_columns { length columns.now ≤ 99 }
    requires plain_names { IsTrue (list_all (λ column. list_all is_plain column.name) columns.now) }
    requires few_rows { rows ≤ 2147483647 }
    ensures some { IfOk result (λ found. IfSome found (λ split.
        StandAsRows columns.now rows bytes.now split.cells.items split.rest.now)) }
    ensures none { IfOk result (λ found. IfNone found (BeginsWithNoRows columns.now rows bytes.now)) }
{
    written_cells_are_read_back();
    let size = row_size(columns);
    if bytes.len() / size < rows {
        return Ok(None);
    }
    let Some(split) = split_data(bytes, size * rows) else {
        return Ok(None)
    };
    match read_rows(alloc, columns, split.bytes, rows) {
        Ok(cells) => Ok(Some(SplitTable {
            cells,
            rest: split.rest,
        })),
        Err(fault) => Err(fault),
    }
}

// How many bytes a row of these columns has.
fn row_size(columns: &[Column]) -> usize
    requires { length columns.now ≤ 99 }
    ensures size { result ≡ row_size columns.now }
    ensures least { 4 * length columns.now ≤ result }
    ensures most { result ≤ 8 * length columns.now }
{
    let mut size = 0;
    for column in columns {
        size += match column.cell {
            Cell::J => 4,
            Cell::K => 8,
        };
    }
    size
}

// The cells of so many rows.
fn read_rows(
    alloc: Global,
    columns: &[Column],
    bytes: &[u8],
    rows: usize,
) -> Result<Vec<i64>, OutOfMemory>
    requires few_columns { length columns.now ≤ 99 }
    requires few_rows { rows ≤ 2147483647 }
    requires whole { length bytes.now ≡ row_size columns.now * rows }
    ensures { IfOk result (λ cells. cells.items ≡ table_cells columns.now bytes.now rows) }
{
    let size = row_size(columns);
    let mut cells = Vec::with_capacity(alloc, columns.len() * rows)?;
    for row in 0..rows {
        add_row(&mut cells, columns, &bytes[size * row..size * (row + 1)])?;
    }
    Ok(cells)
}
