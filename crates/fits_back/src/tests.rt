//! Written HDUs are taken apart, and bytes that differ from them in one place are refused.

use crate::*;
use comp_tree::Shape;
use dev_io::MemSink;
use fits_write::{Cell, Column, put_empty_primary, put_map, put_named_table};
use std::test::Fail;

#[test]
fn a_primary_is_taken_off(rt: HostRuntime) -> Result<(), Fail> {
    let mut sink = MemSink::new(vec![in rt.alloc(); 1; 2880]?, &[], 0);
    assert_eq!(rt; put_empty_primary(&mut sink), Ok(()));
    assert_eq!(rt; split_primary(sink.bytes()), Some(b"".as_slice()));
    assert_eq!(rt; split_primary(b"SIMPLE"), None);
    Ok(())
}

#[test]
fn a_map_is_taken_apart(rt: HostRuntime) -> Result<(), Fail> {
    let shape = Shape::of(2, 1).ok_or("sides")?;
    let turned = Shape::of(1, 2).ok_or("sides")?;
    let mut sink = MemSink::new(vec![in rt.alloc(); 1; 5760]?, &[], 0);
    assert_eq!(rt; shape.pixels(), 2);
    assert_eq!(rt; put_map(&mut sink, shape, &[0, 258]), Ok(()));
    let split = split_map(rt.alloc(), sink.bytes(), shape)
        .ok()
        .ok_or("memory")?;
    let map = split.ok_or("a map")?;
    assert_eq!(rt; map.numbers.as_slice(), [0, 258].as_slice());
    assert!(rt; map.rest.is_empty());
    let split = split_map(rt.alloc(), sink.bytes(), turned)
        .ok()
        .ok_or("memory")?;
    assert!(rt; split.is_none());
    Ok(())
}

#[test]
fn a_table_is_taken_apart(rt: HostRuntime) -> Result<(), Fail> {
    let columns = [
        Column {
            name: *b"NUMBER  ",
            cell: Cell::J,
        },
        Column {
            name: *b"FLUX    ",
            cell: Cell::K,
        },
    ];
    let mut sink = MemSink::new(vec![in rt.alloc(); 1; 5760]?, &[], 0);
    let cells = [1, -2, 7, 1 << 40];
    assert_eq!(rt;
        put_named_table(&mut sink, b"TILE", &columns, &cells),
        Ok(())
    );
    let split = split_table(rt.alloc(), sink.bytes(), b"TILE", &columns)
        .ok()
        .ok_or("memory")?;
    let table = split.ok_or("a table")?;
    assert_eq!(rt; table.cells.as_slice(), cells.as_slice());
    assert!(rt; table.rest.is_empty());
    let split = split_table(rt.alloc(), sink.bytes(), b"ROWS", &columns)
        .ok()
        .ok_or("memory")?;
    assert!(rt; split.is_none());
    Ok(())
}
