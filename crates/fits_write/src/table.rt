//! A table of whole numbers as a binary table extension.
ghost use Rattle.std.specs.Prelude.{◌≡◌, ◌*◌, ◌≤◌, ◌^◌, [], ◌∷◌, ◌++◌, IsTrue, length, OnOk, OnErr};
ghost use Rattle.std.specs.List.{concat, list_all};
ghost use Rattle.dev_io.specs.Causes.{HasCause};
ghost use Rattle.dev_io.specs.Streams.{AppendsPrefix, PutAppends};
ghost use Rattle.fits_write.specs.Blocks.{filled};
ghost use Rattle.fits_write.specs.Waiting.{Waits};
ghost use Rattle.fits_card.specs.Written.{is_plain, numbered_keyword};
ghost use Rattle.fits_write.specs.Columns.{IsTable, FitsCell, cell_size, cell_bytes, form_of, row_size, column_cards, table_bytes};
ghost use Rattle.fits_write.specs.Hdus.{header, table_front, named_back, named_cards, named_hdu, table_hdu};

use crate::WriteFault;
use crate::blocks::Blocks;
use crate::header::add_cards;
use byteorder::{BigEndian, ByteOrder};
use dev_io::{Failed, Sink};
use fits_card::{Card, end_card, int_card, text_card};

/// How a column keeps its numbers: `J` in 32 bits and `K` in 64 bits, in two's complement.
#[derive(Clone, Copy, Debug, PartialEq, Eq)]
pub enum Cell {
    J,
    K,
}

/// A column of a table. Its name is printing ASCII without a quote, and is filled with spaces.
#[derive(Clone, Copy, Debug, PartialEq, Eq)]
pub struct Column {
    pub name: [u8; 8],
    pub cell: Cell,
}

/// Writes a binary table extension with the name `SOURCES`. The cells stand row by row, and each number of a `J` column fits
/// 32 bits.
#[tactic(auto, unfolding(crate::specs::Hdus::table_hdu))]
pub fn put_table<O: Sink>(sink: &mut O, columns: &[Column], cells: &[i64]) -> Result<(), WriteFault>
    requires { IsTable columns.now cells.now }
    ensures bytes { PutAppends (O.written sink.old) (O.written sink.new) result
        (table_hdu columns.now cells.now) }
    ensures cause { HasCause (O.faults sink.old) (O.faults sink.new) result }
{
    put_named_table(sink, b"SOURCES", columns, cells)
}

/// The same under another name, of printing ASCII without a quote.
pub fn put_named_table<O: Sink>(
    sink: &mut O,
    name: &[u8],
    columns: &[Column],
    cells: &[i64],
) -> Result<(), WriteFault>
    requires short { length name.now ≤ 68 }
    requires plain { IsTrue (list_all is_plain name.now) }
    requires table { IsTable columns.now cells.now }
    ensures bytes { PutAppends (O.written sink.old) (O.written sink.new) result
        (named_hdu name.now columns.now cells.now) }
    ensures cause { HasCause (O.faults sink.old) (O.faults sink.new) result }
{
    match put_header_and_cells(sink, name, columns, cells) {
        Ok(()) => Ok(()),
        Err(_) => Err(WriteFault),
    }
}

fn put_header_and_cells<O: Sink>(
    sink: &mut O,
    name: &[u8],
    columns: &[Column],
    cells: &[i64],
) -> Result<(), Failed>
    requires short { length name.now ≤ 68 }
    requires plain { IsTrue (list_all is_plain name.now) }
    requires table { IsTable columns.now cells.now }
    ensures bytes { PutAppends (O.written sink.old) (O.written sink.new) result
        (named_hdu name.now columns.now cells.now) }
    ensures cause { HasCause (O.faults sink.old) (O.faults sink.new) result }
{
    if let Err(failed) = put_table_header(sink, name, columns, cells.len() / columns.len()) {
        return Err(failed);
    }
    put_cells(sink, columns, cells)
}

fn put_table_header<O: Sink>(
    sink: &mut O,
    name: &[u8],
    columns: &[Column],
    rows: usize,
) -> Result<(), Failed>
    requires short { length name.now ≤ 68 }
    requires plain { IsTrue (list_all is_plain name.now) }
    requires few_columns { length columns.now ≤ 99 }
    requires few_rows { rows ≤ 2147483647 }
    requires plain_names { IsTrue (list_all (λ column. list_all is_plain column.name) columns.now) }
    ensures bytes { PutAppends (O.written sink.old) (O.written sink.new) result
        (header (named_cards name.now columns.now rows)) }
    ensures cause { HasCause (O.faults sink.old) (O.faults sink.new) result }
{
    let mut blocks = Blocks::new();
    if let Err(failed) = add_cards(sink, &mut blocks, &table_front(columns, rows)) {
        return Err(failed);
    }
    if let Err(failed) = add_columns(sink, &mut blocks, columns) {
        return Err(failed);
    }
    if let Err(failed) = add_cards(sink, &mut blocks, &named_back(name)) {
        return Err(failed);
    }
    blocks.fill(sink, b' ')
}

/// The cards of a table's header before those of its columns.
#[tactic(auto, unfolding(crate::specs::Hdus::table_front))]
pub fn table_front(columns: &[Column], rows: usize) -> [Card; 8]
    requires few_columns { length columns.now ≤ 99 }
    requires few_rows { rows ≤ 2147483647 }
    ensures { result ≡ table_front columns.now rows }
{
    [
        text_card(b"XTENSION", b"BINTABLE"),
        int_card(b"BITPIX  ", 8),
        int_card(b"NAXIS   ", 2),
        int_card(b"NAXIS1  ", row_size(columns) as i64),
        int_card(b"NAXIS2  ", rows as i64),
        int_card(b"PCOUNT  ", 0),
        int_card(b"GCOUNT  ", 1),
        int_card(b"TFIELDS ", columns.len() as i64),
    ]
}

/// The cards of a table's header behind those of its columns. The name is printing ASCII without a quote.
#[tactic(auto, unfolding(crate::specs::Hdus::named_back))]
pub fn named_back(name: &[u8]) -> [Card; 2]
    requires short { length name.now ≤ 68 }
    requires plain { IsTrue (list_all is_plain name.now) }
    ensures { result ≡ named_back name.now }
{
    [text_card(b"EXTNAME ", name), end_card()]
}

fn row_size(columns: &[Column]) -> usize
    requires { length columns.now ≤ 99 }
    ensures size { result ≡ row_size columns.now }
    ensures small { result ≤ 8 * length columns.now }
{
    let mut size = 0;
    for column in columns {
        size += cell_size(column.cell);
    }
    size
}

fn cell_size(cell: Cell) -> usize
    ensures { result ≡ cell_size cell }
{
    match cell {
        Cell::J => 4,
        Cell::K => 8,
    }
}

// Lets the cards of these columns wait.
fn add_columns<O: Sink>(sink: &mut O, blocks: &mut Blocks, columns: &[Column]) -> Result<(), Failed>
    requires few_columns { length columns.now ≤ 99 }
    requires plain_names { IsTrue (list_all (λ column. list_all is_plain column.name) columns.now) }
    ensures ok { OnOk result (Waits (O.written sink.old) (O.written sink.new)
        (blocks.old ++ concat (column_cards 1 columns.now)) blocks.new) }
    ensures err { OnErr result (AppendsPrefix (O.written sink.old) (O.written sink.new)
        (blocks.old ++ concat (column_cards 1 columns.now))) }
    ensures cause { HasCause (O.faults sink.old) (O.faults sink.new) result }
{
    for (index, column) in columns.iter().enumerate() {
        if let Err(failed) = add_cards(sink, blocks, &column_cards(index + 1, column)) {
            return Err(failed);
        }
    }
    Ok(())
}

/// The cards of the column with this number, from 1: its name and its form (FITS Standard 4.0, section 7.3.1).
pub fn column_cards(number: usize, column: &Column) -> [Card; 2]
    requires few { number ≤ 99 }
    requires plain { IsTrue (list_all is_plain column.now.name) }
    ensures { result ≡ column_cards number (column.now ∷ []) }
{
    let form = match column.cell {
        Cell::J => b"J",
        Cell::K => b"K",
    };
    [
        text_card(&numbered(b"TTYPE", number), &column.name),
        text_card(&numbered(b"TFORM", number), form),
    ]
}

// The keyword with this root and number.
fn numbered(root: &[u8; 5], number: usize) -> [u8; 8]
    requires { number ≤ 99 }
    ensures { result ≡ numbered_keyword root.now number }
{
    let ones = b'0' + (number % 10) as u8;
    let tens = b'0' + (number / 10) as u8;
    let [a, b, c, d, e] = *root;
    if number < 10 {
        [a, b, c, d, e, ones, b' ', b' ']
    } else {
        [a, b, c, d, e, tens, ones, b' ']
    }
}

fn put_cells<O: Sink>(sink: &mut O, columns: &[Column], cells: &[i64]) -> Result<(), Failed>
    requires { IsTable columns.now cells.now }
    ensures bytes { PutAppends (O.written sink.old) (O.written sink.new) result
        (filled 0 (table_bytes columns.now cells.now)) }
    ensures cause { HasCause (O.faults sink.old) (O.faults sink.new) result }
{
    let mut blocks = Blocks::new();
    for (place, number) in cells.iter().enumerate() {
        let cell = columns[place % columns.len()].cell;
        if let Err(failed) = add_cell(sink, &mut blocks, cell, *number) {
            return Err(failed);
        }
    }
    blocks.fill(sink, 0)
}

fn add_cell<O: Sink>(
    sink: &mut O,
    blocks: &mut Blocks,
    cell: Cell,
    number: i64,
) -> Result<(), Failed>
    requires { FitsCell cell number }
    ensures ok { OnOk result (Waits (O.written sink.old) (O.written sink.new)
        (blocks.old ++ cell_bytes cell number) blocks.new) }
    ensures err { OnErr result (AppendsPrefix (O.written sink.old) (O.written sink.new)
        (blocks.old ++ cell_bytes cell number)) }
    ensures cause { HasCause (O.faults sink.old) (O.faults sink.new) result }
{
    let mut bytes = [0; 8];
    match cell {
        Cell::J => {
            BigEndian::write_i32(&mut bytes, number as i32);
            blocks.add(sink, &bytes[..4])
        }
        Cell::K => {
            BigEndian::write_i64(&mut bytes, number);
            blocks.add(sink, &bytes)
        }
    }
}
