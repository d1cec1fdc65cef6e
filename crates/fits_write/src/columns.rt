//! The columns of a catalogue.
ghost use Rattle.std.specs.Prelude.{◌≡◌, length};
ghost use Rattle.fits_write.specs.Columns.{row_size};
ghost use Rattle.fits_write.specs.CatalogueColumns.{catalogue_columns, measured_columns, bytes_in_row};

use crate::{Cell, Column};

// A column by its name, which is filled with spaces, and the kind of its cells.
macro_rules! column {
    ($name:literal, $kind:ident) => {
        Column {
            name: *$name,
            cell: Cell::$kind,
        }
    };
}

// The columns of the catalogue, in their order. Behind each stand its unit, unless that is the image's own, and what it is. With this list the
// man page, FORMATS, Python's columns and the plain model are compared.
const CATALOGUE: &[Column] = &[
    column!(b"NUMBER  ", J), // number of the source, its number in the segmentation map
    column!(b"LEVEL   ", K), // level of the source's node
    column!(b"BASE    ", K), // level of the node's parent
    column!(b"AREA    ", J), // [pix] pixels of the source
    column!(b"FLUX    ", K), // sum of value less base
    column!(b"PEAK    ", K), // greatest value
    column!(b"XMIN    ", J), // [pix] least column, from 1
    column!(b"XMAX    ", J), // [pix] greatest column, from 1
    column!(b"YMIN    ", J), // [pix] least row, from 1
    column!(b"YMAX    ", J), // [pix] greatest row, from 1
    column!(b"XFIRST  ", J), // [pix] column of the least pixel, from 1
    column!(b"YFIRST  ", J), // [pix] row of the least pixel, from 1
    column!(b"XCEN    ", J), // [0.001 pix] mean column weighted by value less base, in thousandths of a pixel, from 1000
    column!(b"YCEN    ", J), // [0.001 pix] mean row weighted by value less base, in thousandths of a pixel, from 1000
    column!(b"XVAR    ", K), // [0.001 pix2] variance of the columns, in thousandths of a square pixel
    column!(b"YVAR    ", K), // [0.001 pix2] variance of the rows, in thousandths of a square pixel
    column!(b"XYCOV   ", K), // [0.001 pix2] covariance of columns and rows, in thousandths of a square pixel
];

// Behind them the columns of the measures in a second image.
const MEASURES: &[Column] = &[
    column!(b"SEEN    ", J), // [pix] pixels with a value in the second image
    column!(b"MISSING ", J), // [pix] pixels without one
    column!(b"VSUM    ", K), // sum of the values in the second image
    column!(b"VLOW    ", K), // least value there
    column!(b"VPEAK   ", K), // greatest value there
    column!(b"VMEAN   ", K), // mean of the values there, in thousandths
    column!(b"VBACK   ", K), // mean of the values around the source there, in thousandths
];

/// How many cells a row of the catalogue has.
pub const CELLS_IN_ROW: usize = CATALOGUE.len();

/// How many bytes it has.
pub const BYTES_IN_ROW: usize = 96;

/// How many cells a row with the measures in a second image has.
pub const MEASURED_CELLS_IN_ROW: usize = CELLS_IN_ROW + MEASURES.len();

/// The places, from 0, of columns that are looked up.
pub const NUMBER: usize = 0;

pub const FLUX: usize = 4;

pub const XCEN: usize = 12;

pub const YCEN: usize = 13;

/// The columns of the catalogue, in their order.
#[tactic(auto, unfolding(crate::specs::CatalogueColumns::catalogue_columns))]
pub fn catalogue_columns() -> [Column; CELLS_IN_ROW]
    ensures columns { result ≡ catalogue_columns }
    ensures bytes { row_size result ≡ bytes_in_row }
{
    let mut all = [CATALOGUE[0]; CELLS_IN_ROW];
    all.copy_from_slice(CATALOGUE);
    all
}

/// The columns of a catalogue, and behind them those of the measures in a second image.
#[tactic(auto, unfolding(crate::specs::CatalogueColumns::catalogue_columns, crate::specs::CatalogueColumns::measured_columns))]
pub fn measured_columns() -> [Column; MEASURED_CELLS_IN_ROW]
    ensures { result ≡ measured_columns }
{
    let mut all = [CATALOGUE[0]; MEASURED_CELLS_IN_ROW];
    all[..CELLS_IN_ROW].copy_from_slice(CATALOGUE);
    all[CELLS_IN_ROW..].copy_from_slice(MEASURES);
    all
}
