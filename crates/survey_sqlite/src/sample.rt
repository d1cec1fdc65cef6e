//! Catalogues for the tests: five pixels in a row, and a table of their sources.

use dev_io::BLOCK;
use fits_write::{CELLS_IN_ROW, Cell, FLUX, NUMBER, XCEN, YCEN, catalogue_columns};
use itoa::Buffer;
use std::alloc::Global;
use std::test::Fail;

const PRIMARY: [&[u8]; 5] = [
    b"SIMPLE  =                    T",
    b"BITPIX  =                    8",
    b"NAXIS   =                    0",
    b"EXTEND  =                    T",
    b"END",
];

/// The image of the labels, with no name.
pub(crate) const MAP: [&[u8]; 8] = [
    b"XTENSION= 'IMAGE   '",
    b"BITPIX  =                   32",
    b"NAXIS   =                    2",
    b"NAXIS1  =                    5",
    b"NAXIS2  =                    1",
    b"PCOUNT  =                    0",
    b"GCOUNT  =                    1",
    b"END",
];

/// The image of the labels with its name, at which a survey doesn't look.
pub(crate) const NAMED_MAP: [&[u8]; 9] = [
    b"XTENSION= 'IMAGE   '",
    b"BITPIX  =                   32",
    b"NAXIS   =                    2",
    b"NAXIS1  =                    5",
    b"NAXIS2  =                    1",
    b"PCOUNT  =                    0",
    b"GCOUNT  =                    1",
    b"EXTNAME = 'SEGMENT '",
    b"END",
];

const TABLE: [&[u8]; 3] = [
    b"XTENSION= 'BINTABLE'",
    b"BITPIX  =                    8",
    b"NAXIS   =                    2",
];

const TABLE_SIZES: [&[u8]; 2] = [
    b"PCOUNT  =                    0",
    b"GCOUNT  =                    1",
];

/// NUMBER, FLUX and XCEN of a row.
pub(crate) type Source = (i32, i64, i32);

/// A catalogue: how wide its rows are said to be, and their sources.
#[derive(Clone, Copy)]
pub(crate) struct Sample<'a> {
    pub(crate) width: usize,
    pub(crate) sources: &'a [Source],
}

fn fill_block(bytes: &mut Vec<u8>, byte: u8) -> Result<(), Fail> {
    let rest = (BLOCK - bytes.len() % BLOCK) % BLOCK;
    for _ in 0..rest {
        bytes.push(byte)?;
    }
    Ok(())
}

// A card of this text.
fn card(text: &[u8]) -> [u8; 80] {
    let mut card = [b' '; 80];
    let count = text.len().min(80);
    card[..count].copy_from_slice(&text[..count]);
    card
}

fn add_cards(bytes: &mut Vec<u8>, cards: &[&[u8]]) -> Result<(), Fail> {
    for text in cards {
        bytes.extend_from_slice(&card(text))?;
    }
    Ok(())
}

// A card with this number, which ends in column 30.
fn number_card(keyword: &[u8], number: usize) -> [u8; 80] {
    let mut text = Buffer::new();
    let digits = text.format(number).as_bytes();
    let mut all = card(keyword);
    all[8] = b'=';
    let count = digits.len().min(20);
    all[30 - count..30].copy_from_slice(&digits[..count]);
    all
}

// The cell of a source in the column at this place.
fn cell_of(source: Source, place: usize) -> i64 {
    let (number, flux, xcen) = source;
    if place == NUMBER {
        i64::from(number)
    } else if place == FLUX {
        flux
    } else if place == XCEN {
        i64::from(xcen)
    } else if place == YCEN {
        1000
    } else {
        0
    }
}

fn add_row(bytes: &mut Vec<u8>, source: Source) -> Result<(), Fail> {
    let columns = catalogue_columns();
    for place in 0..CELLS_IN_ROW {
        let cell = cell_of(source, place).to_be_bytes();
        match columns[place].cell {
            Cell::J => bytes.extend_from_slice(&cell[4..])?,
            Cell::K => bytes.extend_from_slice(&cell)?,
        }
    }
    Ok(())
}

// The primary header, the image of the labels with these cards, and its pixels, all 0.
fn add_image(bytes: &mut Vec<u8>, map: &[&[u8]]) -> Result<(), Fail> {
    add_cards(bytes, &PRIMARY)?;
    fill_block(bytes, b' ')?;
    add_cards(bytes, map)?;
    fill_block(bytes, b' ')?;
    bytes.extend_from_slice(&[0; 20])?;
    fill_block(bytes, 0)
}

fn add_table_header(bytes: &mut Vec<u8>, width: usize, height: usize) -> Result<(), Fail> {
    add_cards(bytes, &TABLE)?;
    bytes.extend_from_slice(&number_card(b"NAXIS1", width))?;
    bytes.extend_from_slice(&number_card(b"NAXIS2", height))?;
    add_cards(bytes, &TABLE_SIZES)?;
    bytes.extend_from_slice(&number_card(b"TFIELDS", CELLS_IN_ROW))?;
    // the name of the table, and two cards for each column
    for _ in 0..2 * CELLS_IN_ROW + 1 {
        bytes.extend_from_slice(&card(b"COMMENT"))?;
    }
    bytes.extend_from_slice(&card(b"END"))?;
    fill_block(bytes, b' ')
}

fn add_catalogue(bytes: &mut Vec<u8>, map: &[&[u8]], sample: Sample) -> Result<(), Fail> {
    add_image(bytes, map)?;
    add_table_header(bytes, sample.width, sample.sources.len())?;
    for source in sample.sources {
        add_row(bytes, *source)?;
    }
    fill_block(bytes, 0)
}

/// These catalogues one behind the other, each with an image of these cards.
pub(crate) fn catalogues(
    alloc: Global,
    map: &[&[u8]],
    samples: &[Sample],
) -> Result<Vec<u8>, Fail> {
    let mut bytes = Vec::new(alloc);
    for sample in samples {
        add_catalogue(&mut bytes, map, *sample)?;
    }
    Ok(bytes)
}
