//! Written HDUs beside literals, and cells that are read back.
ghost use Rattle.std.specs.Prelude.{◌+◌, ◌*◌, ◌≤◌, length};

use crate::*;
use comp_tree::{Canvas, Plane, Shape};
use dev_io::MemSink;
use std::test::Fail;

// Whether the card at this place, from 0, is this text and spaces.
fn is_card(bytes: &[u8], place: usize, text: &[u8]) -> bool
    requires within { 80 * place + 80 ≤ length bytes.now }
    requires short { length text.now ≤ 80 }
{
    let card = &bytes[80 * place..80 * place + 80];
    let (front, rest) = card.split_at(text.len());
    front == text && rest.iter().all(|b| *b == b' ')
}

#[test]
fn a_plane_is_written(rt: HostRuntime) -> Result<(), Fail> {
    let shape = Shape::of(2, 1).ok_or("sides")?;
    let plane = Plane::of(rt.alloc(), shape, &[None, Some(-2)])?.ok_or("a plane")?;
    let mut sink = MemSink::new(vec![in rt.alloc(); 1; 5760]?, &[], 0);
    assert_eq!(rt; put_plane(&mut sink, &plane), Ok(()));
    let bytes = sink.bytes();
    assert_eq!(rt; bytes.len(), 5760);
    assert!(rt; is_card(bytes, 0, b"SIMPLE  =                    T"));
    assert!(rt; is_card(bytes, 1, b"BITPIX  =                   64"));
    assert!(rt; is_card(bytes, 2, b"NAXIS   =                    2"));
    assert!(rt; is_card(bytes, 3, b"NAXIS1  =                    2"));
    assert!(rt; is_card(bytes, 4, b"NAXIS2  =                    1"));
    assert!(rt; is_card(bytes, 5, b"BLANK   = -9223372036854775808"));
    assert!(rt; is_card(bytes, 6, b"END"));
    assert!(rt; bytes[560..2880].iter().all(|b| *b == b' '));
    let pixels = b"\x80\0\0\0\0\0\0\0\xff\xff\xff\xff\xff\xff\xff\xfe";
    assert_eq!(rt; &bytes[2880..2896], pixels.as_slice());
    assert!(rt; bytes[2896..].iter().all(|b| *b == 0));
    Ok(())
}

#[test]
fn full_blocks_are_not_padded(rt: HostRuntime) -> Result<(), Fail> {
    let shape = Shape::of(360, 1).ok_or("sides")?;
    let plane = Canvas::blank(rt.alloc(), shape)
        .expect(&rt, "memory")
        .into_plane();
    let mut sink = MemSink::new(vec![in rt.alloc(); 0; 9000]?, &[], 0);
    assert_eq!(rt; put_plane(&mut sink, &plane), Ok(()));
    assert_eq!(rt; sink.bytes().len(), 5760);
    Ok(())
}

#[test]
fn a_failing_sink_has_a_front(rt: HostRuntime) -> Result<(), Fail> {
    let shape = Shape::of(2, 1).ok_or("sides")?;
    let plane = Canvas::blank(rt.alloc(), shape)
        .expect(&rt, "memory")
        .into_plane();
    let mut sink = MemSink::new(vec![in rt.alloc(); 0; 9000]?, &[2], 10);
    assert_eq!(rt; put_plane(&mut sink, &plane), Err(WriteFault));
    assert_eq!(rt; sink.bytes().len(), 2890);
    Ok(())
}

#[test]
fn an_empty_primary_is_written(rt: HostRuntime) -> Result<(), Fail> {
    let mut sink = MemSink::new(vec![in rt.alloc(); 1; 2880]?, &[], 0);
    assert_eq!(rt; put_empty_primary(&mut sink), Ok(()));
    let bytes = sink.bytes();
    assert_eq!(rt; bytes.len(), 2880);
    assert!(rt; is_card(bytes, 0, b"SIMPLE  =                    T"));
    assert!(rt; is_card(bytes, 1, b"BITPIX  =                    8"));
    assert!(rt; is_card(bytes, 2, b"NAXIS   =                    0"));
    assert!(rt; is_card(bytes, 3, b"EXTEND  =                    T"));
    assert!(rt; is_card(bytes, 4, b"END"));
    assert!(rt; bytes[400..].iter().all(|b| *b == b' '));
    Ok(())
}

#[test]
fn a_map_is_written(rt: HostRuntime) -> Result<(), Fail> {
    let shape = Shape::of(2, 1).ok_or("sides")?;
    let mut sink = MemSink::new(vec![in rt.alloc(); 1; 5760]?, &[], 0);
    assert_eq!(rt; shape.pixels(), 2);
    assert_eq!(rt; put_map(&mut sink, shape, &[0, 258]), Ok(()));
    let bytes = sink.bytes();
    assert_eq!(rt; bytes.len(), 5760);
    assert!(rt; is_card(bytes, 0, b"XTENSION= 'IMAGE   '"));
    assert!(rt; is_card(bytes, 1, b"BITPIX  =                   32"));
    assert!(rt; is_card(bytes, 3, b"NAXIS1  =                    2"));
    assert!(rt; is_card(bytes, 6, b"GCOUNT  =                    1"));
    assert!(rt; is_card(bytes, 7, b"EXTNAME = 'SEGMENT '"));
    assert!(rt; is_card(bytes, 8, b"END"));
    assert_eq!(rt; &bytes[2880..2888], b"\0\0\0\0\0\0\x01\x02".as_slice());
    assert!(rt; bytes[2888..].iter().all(|b| *b == 0));
    Ok(())
}

#[test]
fn a_table_is_written(rt: HostRuntime) -> Result<(), Fail> {
    let columns = [
        Column {
            name: *b"NUMBER  ",
            cell: Cell::J,
        },
        Column {
            name: *b"FLUX    ",
            cell: Cell::K,
        },
    ];
    let mut sink = MemSink::new(vec![in rt.alloc(); 1; 5760]?, &[], 0);
    assert_eq!(rt; put_table(&mut sink, &columns, &[1, -2]), Ok(()));
    let bytes = sink.bytes();
    assert_eq!(rt; bytes.len(), 5760);
    assert!(rt; is_card(bytes, 0, b"XTENSION= 'BINTABLE'"));
    assert!(rt; is_card(bytes, 3, b"NAXIS1  =                   12"));
    assert!(rt; is_card(bytes, 4, b"NAXIS2  =                    1"));
    assert!(rt; is_card(bytes, 7, b"TFIELDS =                    2"));
    assert!(rt; is_card(bytes, 8, b"TTYPE1  = 'NUMBER  '"));
    assert!(rt; is_card(bytes, 11, b"TFORM2  = 'K       '"));
    assert!(rt; is_card(bytes, 12, b"EXTNAME = 'SOURCES '"));
    assert!(rt; is_card(bytes, 13, b"END"));
    let cells = b"\0\0\0\x01\xff\xff\xff\xff\xff\xff\xff\xfe";
    assert_eq!(rt; &bytes[2880..2892], cells.as_slice());
    assert!(rt; bytes[2892..].iter().all(|b| *b == 0));
    Ok(())
}

#[test]
fn a_table_has_its_name(rt: HostRuntime) -> Result<(), Fail> {
    let columns = [Column {
        name: *b"XMIN    ",
        cell: Cell::J,
    }];
    let mut sink = MemSink::new(vec![in rt.alloc(); 1; 5760]?, &[], 0);
    assert_eq!(rt; put_named_table(&mut sink, b"TILE", &columns, &[7]), Ok(()));
    let bytes = sink.bytes();
    assert_eq!(rt; bytes.len(), 5760);
    assert!(rt; is_card(bytes, 7, b"TFIELDS =                    1"));
    assert!(rt; is_card(bytes, 8, b"TTYPE1  = 'XMIN    '"));
    assert!(rt; is_card(bytes, 10, b"EXTNAME = 'TILE    '"));
    assert!(rt; is_card(bytes, 11, b"END"));
    assert_eq!(rt; &bytes[2880..2884], b"\0\0\0\x07".as_slice());
    Ok(())
}

#[test]
fn a_table_without_rows_is_a_header(rt: HostRuntime) -> Result<(), Fail> {
    let column = Column {
        name: *b"LEVEL   ",
        cell: Cell::K,
    };
    let mut sink = MemSink::new(vec![in rt.alloc(); 1; 9000]?, &[], 0);
    assert_eq!(rt; put_table(&mut sink, &[column; 17], &[]), Ok(()));
    let bytes = sink.bytes();
    assert_eq!(rt; bytes.len(), 5760);
    assert!(rt; is_card(bytes, 4, b"NAXIS2  =                    0"));
    assert!(rt; is_card(bytes, 40, b"TTYPE17 = 'LEVEL   '"));
    assert!(rt; is_card(bytes, 43, b"END"));
    Ok(())
}

#[test]
fn cells_are_read_by_their_columns(rt: HostRuntime) {
    let columns = catalogue_columns();
    let mut bytes = [0; BYTES_IN_ROW];
    bytes[3] = 7;
    bytes[4..12].copy_from_slice(&[255; 8]);
    bytes[20] = 128;
    bytes[BYTES_IN_ROW - 1] = 9;
    let mut cells = Vec::new(rt.alloc());
    assert!(rt; add_row(&mut cells, &columns, &bytes).is_ok());
    assert_eq!(rt; cells.len(), CELLS_IN_ROW);
    assert_eq!(rt; cells[0], 7);
    assert_eq!(rt; cells[1], -1);
    assert_eq!(rt; cells[2], 0);
    assert_eq!(rt; cells[3], -2147483648);
    assert_eq!(rt; cells[CELLS_IN_ROW - 1], 9);
}
