//! A tile's bytes, made by hand, are read, and written again.

use crate::boxes::box_columns;
use crate::*;
use comp_tree::Shape;
use dev_io::MemSink;
use fits_write::{catalogue_columns, put_empty_primary, put_map, put_named_table, put_table};
use std::alloc::Global;
use std::test::Fail;

// An image of 8 columns and 2 rows, a window of its columns from 3 on, a core of those from 4 to 6, and a box that is open; a source in the window.
const BOXES: [i64; 16] = [1, 8, 1, 2, 3, 8, 1, 2, 4, 6, 1, 2, 7, 8, 2, 2];

const NUMBERS: [u32; 12] = [0, 0, 1, 1, 0, 0, 0, 0, 0, 1, 0, 0];

const ROW: [i64; 17] = [
    1, 9, 2, 3, 21, 9, 5, 6, 1, 2, 5, 1, 5333, 1333, 222, 222, 111,
];

// The bytes of that tile.
fn bytes_of_tile(alloc: Global, window: Shape) -> Result<Vec<u8>, Fail> {
    let mut sink = MemSink::new(vec![in alloc; 1; 23040]?, &[], 0);
    if put_empty_primary(&mut sink).is_err() {
        return Err("primary".into());
    }
    if put_named_table(&mut sink, b"TILE", &box_columns(), &BOXES).is_err() {
        return Err("boxes".into());
    }
    if window.pixels() != 12 || put_map(&mut sink, window, &NUMBERS).is_err() {
        return Err("map".into());
    }
    if put_table(&mut sink, &catalogue_columns(), &ROW).is_err() {
        return Err("rows".into());
    }
    Ok(Vec::from_slice(alloc, sink.bytes())?)
}

#[test]
fn a_tile_is_read_and_written_again(rt: HostRuntime) -> Result<(), Fail> {
    let alloc = rt.alloc();
    let window = Shape::of(6, 2).ok_or("sides")?;
    let bytes = bytes_of_tile(alloc, window)?;
    let found = split_tile(alloc, &bytes).ok().ok_or("memory")?;
    let ahead = found.ok_or("a tile")?;
    assert!(rt; ahead.rest.is_empty());
    let tile = ahead.tile;
    assert_eq!(rt; tile.whole.width, 8);
    assert_eq!(rt; tile.window.left, 2);
    assert_eq!(rt; tile.core.shape.width, 3);
    assert_eq!(rt; tile.open.len(), 1);
    assert_eq!(rt; tile.map.as_slice(), NUMBERS.as_slice());
    assert_eq!(rt; tile.rows.len(), 1);
    assert_eq!(rt; tile.rows[0].xcen, 5333);
    let Ok(file) = file_of(alloc, tile) else {
        return Err("memory".into());
    };
    let mut again = MemSink::new(vec![in alloc; 1; 23040]?, &[], 0);
    assert_eq!(rt; put_file(&mut again, &file), Ok(()));
    assert_eq!(rt; again.bytes(), bytes.as_slice());
    Ok(())
}

#[test]
fn tiles_of_a_file_are_read(rt: HostRuntime) -> Result<(), Fail> {
    let alloc = rt.alloc();
    let window = Shape::of(6, 2).ok_or("sides")?;
    let bytes = bytes_of_tile(alloc, window)?;
    let mut twice = Vec::new(alloc);
    twice.extend_from_slice(&bytes)?;
    twice.extend_from_slice(&bytes)?;
    let tiles = split_tiles(alloc, &twice).ok().ok_or("memory")?;
    assert_eq!(rt; tiles.ok_or("tiles")?.len(), 2);
    twice.push(0)?;
    let tiles = split_tiles(alloc, &twice).ok().ok_or("memory")?;
    assert!(rt; tiles.is_none());
    Ok(())
}
