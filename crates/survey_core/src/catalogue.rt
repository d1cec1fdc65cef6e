//! Reading one catalogue.
ghost use Rattle.std.specs.Prelude.{◌≡◌, ◌==◌, ◌≤◌, ◌+◌, ◌*◌, ◌^◌, ◌<◌, ◌↔◌, ℕ, true, false, length, min, IsTrue, IfOk, IfErr, IfSome, IfNone, MatchResult};
ghost use Rattle.std.specs.Option.{ForSome};
ghost use Rattle.dev_io.specs.Causes.{HasCause};
ghost use Rattle.dev_io.specs.Streams.{Takes, TakesAtMost};
ghost use Rattle.survey_core.specs.Tables.{IsNumbered};
ghost use Rattle.fits_hdu.specs.Headers.{is_other};
ghost use Rattle.fits_write.specs.CatalogueColumns.{bytes_in_row, cells_in_row};
ghost use Rattle.survey_core.specs.Catalogues.{is_catalogue, most_rows, is_misnumbered, table_of, first_misnumbered, catalogue_in};
ghost use Rattle.fits_write.specs.Rows.{row_cells};
ghost use Rattle.survey_core.specs.Listings.{table_cell};
ghost use Rattle.survey_core.specs.Reads.{IsRow, AreTableRows, IsAccepted, IsRejected, IsCutWithin, ReadCause};

use crate::Fault;
use crate::fault::Stop;
use dev_io::{Failed, Source, fill};
use fits_hdu::{Hdu, Kind, find_hdu};
use fits_write::{BYTES_IN_ROW, CELLS_IN_ROW, NUMBER, add_row, catalogue_columns};
use std::alloc::Global;

// The HDU of the table.
const TABLE: u16 = 2;

const MOST_ROWS: u64 = 1 << 20;

const BLOCK: usize = 2880;

fn is_table(kind: Kind) -> bool
    ensures { result ≡ is_other kind }
{
    match kind {
        Kind::Primary | Kind::Image => false,
        Kind::Other => true,
    }
}

// So many bytes are just so many rows.
fn are_rows(rows: u64, bytes: u64) -> bool
    ensures { result ≡ (bytes == bytes_in_row * rows) }
{
    match rows.checked_mul(BYTES_IN_ROW as u64) {
        Some(size) => size == bytes,
        None => false,
    }
}

#[tactic(auto, unfolding(crate::specs::Catalogues::is_catalogue))]
fn is_catalogue(hdu: &Hdu) -> bool
    ensures { result ≡ is_catalogue hdu.now }
{
    is_table(hdu.kind)
        && hdu.bitpix == 8
        && hdu.naxis == 2
        && hdu.width == BYTES_IN_ROW as u64
        && are_rows(hdu.height, hdu.data_bytes)
}

fn read_row<S: Source>(src: &mut S, row: &mut [u8; BYTES_IN_ROW]) -> Result<(), Stop>
    ensures told { ForSome (S.left src.old) (λ bytes. MatchResult result (λ _. IsRow bytes (S.left src.new) row.new) (IsCutWithin bytes bytes_in_row (S.left src.new))) }
    ensures cause { IfErr result (ReadCause (S.faults src.old) (S.faults src.new)) }
    ensures later { S.faults src.old ≤ S.faults src.new }
{
    match fill(src, row) {
        Ok(BYTES_IN_ROW) => Ok(()),
        Ok(_) => Err(Stop::Refused(Fault::TruncatedTable)),
        Err(_) => Err(Stop::ReadFault),
    }
}

// The cells of so many rows, one behind the other.
fn read_rows<S: Source>(alloc: Global, src: &mut S, count: u64) -> Result<Vec<i64>, Stop>
    ensures told { ForSome (S.left src.old) (λ bytes. MatchResult result
        (λ cells. AreTableRows bytes count (S.left src.new) cells.items)
        (IsCutWithin bytes (bytes_in_row * count) (S.left src.new))) }
    ensures length { IfOk result (λ cells. length cells.items ≡ cells_in_row * count) }
    ensures cause { IfErr result (ReadCause (S.faults src.old) (S.faults src.new)) }
    ensures later { S.faults src.old ≤ S.faults src.new }
{
    let columns = catalogue_columns();
    let mut cells = Vec::new(alloc);
    let mut row = [0; BYTES_IN_ROW];
    for _ in 0..count {
        if let Err(stop) = read_row(src, &mut row) {
            return Err(stop);
        }
        if let Err(_) = add_row(&mut cells, &columns, &row) {
            return Err(Stop::NoMemory);
        }
    }
    Ok(cells)
}

/// This cell of this row, both from 0.
pub(crate) fn cell(cells: &[i64], row: usize, column: usize) -> i64
    requires column { column < cells_in_row }
    requires row { cells_in_row * row + cells_in_row ≤ length cells.now }
    ensures { result ≡ table_cell cells.now row column }
{
    cells[CELLS_IN_ROW * row + column]
}

// The row, from 0, doesn't have the number of its place.
fn is_misnumbered(cells: &[i64], row: usize) -> bool
    requires { cells_in_row * row + cells_in_row ≤ length cells.now }
    ensures { result ≡ is_misnumbered cells.now row }
{
    cell(cells, row, NUMBER) != row as i64 + 1
}

// The first row, from 0, whose NUMBER isn't its place.
fn misnumbered(cells: &[i64]) -> Option<usize>
    ensures first { result ≡ first_misnumbered cells.now }
    ensures within { IfSome result (λ place. cells_in_row * place < length cells.now) }
    ensures some { IfSome result (λ place. is_misnumbered cells.now place ≡ true) }
    ensures none { IfNone result ((i : ℕ) → cells_in_row * i + cells_in_row ≤ length cells.now → is_misnumbered cells.now i ≡ false) }
{
    for place in 0..cells.len() / CELLS_IN_ROW {
        if is_misnumbered(cells, place) {
            return Some(place);
        }
    }
    None
}

/// Whether the cells are whole rows, each of which has the number of its place: what a keeper takes and gives back.
pub fn are_numbered(cells: &[i64]) -> bool
    ensures { IsTrue result ↔ IsNumbered cells.now }
{
    if cells.len() % CELLS_IN_ROW != 0 {
        return false;
    }
    match misnumbered(cells) {
        Some(_) => false,
        None => true,
    }
}

// Takes so many bytes, or as many as there are.
fn take_padding<S: Source>(src: &mut S, count: usize) -> Result<(), Failed>
    requires { count ≤ 2880 }
    ensures told { ForSome (S.left src.old) (λ bytes. MatchResult result
        (λ _. Takes bytes (S.left src.new) (min count (length bytes)))
        (λ _. TakesAtMost bytes (S.left src.new) (min count (length bytes)))) }
    ensures cause { HasCause (S.faults src.old) (S.faults src.new) result }
{
    let mut padding = [0; BLOCK];
    match fill(src, &mut padding[..count]) {
        Ok(_) => Ok(()),
        Err(failed) => Err(failed),
    }
}

// The cells of a table with so many rows, up to the next block.
fn read_table<S: Source>(alloc: Global, src: &mut S, rows: u64) -> Result<Vec<i64>, Stop>
    requires { rows ≤ most_rows }
    ensures told { ForSome (S.left src.old) (λ bytes. MatchResult result
        (λ cells. IsAccepted (table_of bytes rows) bytes (S.left src.new) cells.items)
        (IsRejected (table_of bytes rows) bytes (S.left src.new))) }
    ensures numbered { IfOk result (λ cells. IsNumbered cells.items) }
    ensures few { IfOk result (λ cells. length cells.items ≤ cells_in_row * most_rows) }
    ensures cause { IfErr result (ReadCause (S.faults src.old) (S.faults src.new)) }
    ensures later { S.faults src.old ≤ S.faults src.new }
{
    let cells = match read_rows(alloc, src, rows) {
        Ok(cells) => cells,
        Err(stop) => return Err(stop),
    };
    if let Some(place) = misnumbered(&cells) {
        return Err(Stop::Refused(Fault::RowNumber {
            row: place as u32 + 1,
        }));
    }
    let behind = rows as usize * BYTES_IN_ROW % BLOCK;
    match take_padding(src, (BLOCK - behind) % BLOCK) {
        Ok(()) => Ok(cells),
        Err(_) => Err(Stop::ReadFault),
    }
}

/// The cells of the catalogue that comes next, and its padding as far as there is any.
pub(crate) fn read_catalogue<S: Source>(alloc: Global, src: &mut S) -> Result<Vec<i64>, Stop>
    ensures told { ForSome (S.left src.old) (λ bytes. MatchResult result
        (λ cells. IsAccepted (catalogue_in bytes) bytes (S.left src.new) cells.items)
        (IsRejected (catalogue_in bytes) bytes (S.left src.new))) }
    ensures numbered { IfOk result (λ cells. IsNumbered cells.items) }
    ensures few { IfOk result (λ cells. length cells.items ≤ cells_in_row * most_rows) }
    ensures cause { IfErr result (ReadCause (S.faults src.old) (S.faults src.new)) }
    ensures later { S.faults src.old ≤ S.faults src.new }
{
    let hdu = match find_hdu(src, TABLE) {
        Ok(hdu) => hdu,
        Err(stop) => return Err(Stop::at_hdu(stop)),
    };
    if !is_catalogue(&hdu) {
        return Err(Stop::Refused(Fault::NotCatalogue));
    }
    if hdu.height > MOST_ROWS {
        return Err(Stop::Refused(Fault::TooManyRows));
    }
    read_table(alloc, src, hdu.height)
}
