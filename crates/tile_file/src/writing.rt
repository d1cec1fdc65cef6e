//! A tile on its way to a file.

ghost use Rattle.std.specs.Prelude.{◌≡◌, ◌++◌, IfOk};
ghost use Rattle.dev_io.specs.Causes.{HasCause};
ghost use Rattle.dev_io.specs.Streams.{PutAppends};
ghost use Rattle.fits_write.specs.CatalogueColumns.{catalogue_columns};
ghost use Rattle.fits_write.specs.Hdus.{map_hdu, table_hdu};
ghost use Rattle.tile_file.specs.TileFiles.{tile_bytes, file_bytes, IsTileFile, CanBePut};

use crate::boxes::box_columns;
use crate::frames::tile_cells;
use crate::rows::row_cells;
use comp_tree::Shape;
use costs::OutOfMemory;
use dev_io::Sink;
use fits_write::{
    WriteFault, catalogue_columns, put_empty_primary, put_map, put_named_table, put_table,
};
use std::alloc::Global;
use tile_join::TileCatalogue;

/// A tile whose numbers stand ready to be written.
#[derive(Drop)]
pub struct TileFile {
    // that of the window
    shape: Shape,
    // the cells of the table of boxes
    boxes: Vec<i64>,
    // those of the map
    numbers: Vec<u32>,
    // the cells of the table of rows
    rows: Vec<i64>,
}

/// What is to be written of a tile. Its map is taken over; the cells of its boxes and rows take memory.
pub fn file_of(alloc: Global, tile: TileCatalogue) -> Result<TileFile, OutOfMemory>
    requires { IsTileFile tile }
    ensures bytes { IfOk result (λ file. file_bytes file ≡ tile_bytes tile) }
    ensures writable { IfOk result CanBePut }
{
    let boxes = tile_cells(alloc, &tile)?;
    let rows = row_cells(alloc, &tile.rows)?;
    Ok(TileFile {
        shape: tile.window.shape,
        boxes,
        numbers: tile.map,
        rows,
    })
}

/// Writes the four HDUs of a tile.
pub fn put_file<O: Sink>(sink: &mut O, file: &TileFile) -> Result<(), WriteFault>
    requires { CanBePut file.now }
    ensures bytes { PutAppends (O.written sink.old) (O.written sink.new) result (file_bytes file.now) }
    ensures cause { HasCause (O.faults sink.old) (O.faults sink.new) result }
{
    if let Err(fault) = put_empty_primary(sink) {
        return Err(fault);
    }
    if let Err(fault) = put_named_table(sink, b"TILE", &box_columns(), &file.boxes) {
        return Err(fault);
    }
    put_map_and_rows(sink, file)
}

fn put_map_and_rows<O: Sink>(sink: &mut O, file: &TileFile) -> Result<(), WriteFault>
    requires { CanBePut file.now }
    ensures bytes { PutAppends (O.written sink.old) (O.written sink.new) result
        (map_hdu file.now.shape file.now.numbers.items ++ table_hdu catalogue_columns file.now.rows.items) }
    ensures cause { HasCause (O.faults sink.old) (O.faults sink.new) result }
{
    if let Err(fault) = put_map(sink, file.shape, &file.numbers) {
        return Err(fault);
    }
    put_table(sink, &catalogue_columns(), &file.rows)
}
