//! The command `detect`: its map and its catalogue.
use crate::in_memory::{Row, append_cards, append_hdu, compare};
use std::alloc::Global;
use std::process::Abort;
use std::test::Fail;
use std::thread::Threads;

// Five pixels, 1 6 2 5 1.
const HILLS: &[u8] =
    b"SIMPLE  = T|BITPIX  = 8|NAXIS   = 2|NAXIS1  = 5|NAXIS2  = 1|END|#\x01\x06\x02\x05\x01";

// Two pixels that are undefined.
const NO_PIXELS: &[u8] =
    b"SIMPLE  = T|BITPIX  = 8|NAXIS   = 2|NAXIS1  = 2|NAXIS2  = 1|BLANK   = 7|END|#\x07\x07";

// The row of the left hill: one column in each line.
const LEFT_HILL: &[u8] = b"\0\0\0\x01\
    \0\0\0\0\0\0\0\x06\
    \0\0\0\0\0\0\0\x02\
    \0\0\0\x01\
    \0\0\0\0\0\0\0\x04\
    \0\0\0\0\0\0\0\x06\
    \0\0\0\x02\
    \0\0\0\x02\
    \0\0\0\x01\
    \0\0\0\x01\
    \0\0\0\x02\
    \0\0\0\x01\
    \0\0\x07\xd0\
    \0\0\x03\xe8\
    \0\0\0\0\0\0\0\0\
    \0\0\0\0\0\0\0\0\
    \0\0\0\0\0\0\0\0";

const RIGHT_HILL: &[u8] = b"\0\0\0\x02\
    \0\0\0\0\0\0\0\x05\
    \0\0\0\0\0\0\0\x02\
    \0\0\0\x01\
    \0\0\0\0\0\0\0\x03\
    \0\0\0\0\0\0\0\x05\
    \0\0\0\x04\
    \0\0\0\x04\
    \0\0\0\x01\
    \0\0\0\x01\
    \0\0\0\x04\
    \0\0\0\x01\
    \0\0\x0f\xa0\
    \0\0\x03\xe8\
    \0\0\0\0\0\0\0\0\
    \0\0\0\0\0\0\0\0\
    \0\0\0\0\0\0\0\0";

// The row of both hills as one source.
const BOTH_HILLS: &[u8] = b"\0\0\0\x01\
    \0\0\0\0\0\0\0\x02\
    \0\0\0\0\0\0\0\x01\
    \0\0\0\x03\
    \0\0\0\0\0\0\0\x0a\
    \0\0\0\0\0\0\0\x06\
    \0\0\0\x02\
    \0\0\0\x04\
    \0\0\0\x01\
    \0\0\0\x01\
    \0\0\0\x02\
    \0\0\0\x01\
    \0\0\x0b\x54\
    \0\0\x03\xe8\
    \0\0\0\0\0\0\x02\x9a\
    \0\0\0\0\0\0\0\0\
    \0\0\0\0\0\0\0\0";

const PRIMARY: [&[u8]; 5] = [
    b"SIMPLE  =                    T",
    b"BITPIX  =                    8",
    b"NAXIS   =                    0",
    b"EXTEND  =                    T",
    b"END",
];

// The cards of the table's columns, and those behind them.
const COLUMNS: [&[u8]; 36] = [
    b"TTYPE1  = 'NUMBER  '",
    b"TFORM1  = 'J       '",
    b"TTYPE2  = 'LEVEL   '",
    b"TFORM2  = 'K       '",
    b"TTYPE3  = 'BASE    '",
    b"TFORM3  = 'K       '",
    b"TTYPE4  = 'AREA    '",
    b"TFORM4  = 'J       '",
    b"TTYPE5  = 'FLUX    '",
    b"TFORM5  = 'K       '",
    b"TTYPE6  = 'PEAK    '",
    b"TFORM6  = 'K       '",
    b"TTYPE7  = 'XMIN    '",
    b"TFORM7  = 'J       '",
    b"TTYPE8  = 'XMAX    '",
    b"TFORM8  = 'J       '",
    b"TTYPE9  = 'YMIN    '",
    b"TFORM9  = 'J       '",
    b"TTYPE10 = 'YMAX    '",
    b"TFORM10 = 'J       '",
    b"TTYPE11 = 'XFIRST  '",
    b"TFORM11 = 'J       '",
    b"TTYPE12 = 'YFIRST  '",
    b"TFORM12 = 'J       '",
    b"TTYPE13 = 'XCEN    '",
    b"TFORM13 = 'J       '",
    b"TTYPE14 = 'YCEN    '",
    b"TFORM14 = 'J       '",
    b"TTYPE15 = 'XVAR    '",
    b"TFORM15 = 'K       '",
    b"TTYPE16 = 'YVAR    '",
    b"TFORM16 = 'K       '",
    b"TTYPE17 = 'XYCOV   '",
    b"TFORM17 = 'K       '",
    b"EXTNAME = 'SOURCES '",
    b"END",
];

// A run over an image in one row, and what its output has that isn't the same in each.
#[derive(Clone, Copy)]
struct Sources<'a> {
    words: &'a [&'a str],
    image: &'a [u8],
    taken: usize,
    // the cards of the map's width and of the number of rows
    width: &'a [u8],
    count: &'a [u8],
    map: &'a [u8],
    rows: &'a [&'a [u8]],
}

// The whole output.
fn written(alloc: Global, case: Sources) -> Result<Vec<u8>, Fail> {
    let map_cards: [&[u8]; 9] = [
        b"XTENSION= 'IMAGE   '",
        b"BITPIX  =                   32",
        b"NAXIS   =                    2",
        case.width,
        b"NAXIS2  =                    1",
        b"PCOUNT  =                    0",
        b"GCOUNT  =                    1",
        b"EXTNAME = 'SEGMENT '",
        b"END",
    ];
    let table_cards: [&[u8]; 8] = [
        b"XTENSION= 'BINTABLE'",
        b"BITPIX  =                    8",
        b"NAXIS   =                    2",
        b"NAXIS1  =                   96",
        case.count,
        b"PCOUNT  =                    0",
        b"GCOUNT  =                    1",
        b"TFIELDS =                   17",
    ];
    let mut bytes = Vec::new(alloc);
    append_hdu(&mut bytes, &PRIMARY, &[])?;
    append_hdu(&mut bytes, &map_cards, &[case.map])?;
    append_cards(&mut bytes, &table_cards)?;
    append_hdu(&mut bytes, &COLUMNS, case.rows)?;
    Ok(bytes)
}

// Compares all that a run shows.
fn compare_sources<R: Threads + Sync + Abort>(
    rt: &R,
    alloc: Global,
    case: Sources,
) -> Result<(), Fail> {
    let output = written(alloc, case)?;
    let row = Row {
        words: case.words,
        header: case.image,
        data: b"",
        status: 0,
        output: output.as_slice(),
        notes: b"",
        taken: case.taken,
    };
    compare(rt, alloc, row)
}

// Two sources where each half has its share of the flux, and else one.
#[test]
fn sources_have_their_map_and_their_rows(rt: HostRuntime) -> Result<(), Fail> {
    let cases: &[Sources] = &[
        Sources {
            words: &["detect", "--threshold", "2", "--contrast", "300"],
            image: HILLS,
            taken: 2885,
            width: b"NAXIS1  =                    5",
            count: b"NAXIS2  =                    2",
            map: b"\0\0\0\0\0\0\0\x01\0\0\0\0\0\0\0\x02\0\0\0\0",
            rows: &[LEFT_HILL, RIGHT_HILL],
        },
        Sources {
            words: &["detect", "--threshold", "2", "--contrast", "301"],
            image: HILLS,
            taken: 2885,
            width: b"NAXIS1  =                    5",
            count: b"NAXIS2  =                    1",
            map: b"\0\0\0\0\0\0\0\x01\0\0\0\x01\0\0\0\x01\0\0\0\0",
            rows: &[BOTH_HILLS],
        },
        Sources {
            words: &["detect", "--threshold", "2", "--contrast", "1000"],
            image: HILLS,
            taken: 2885,
            width: b"NAXIS1  =                    5",
            count: b"NAXIS2  =                    1",
            map: b"\0\0\0\0\0\0\0\x01\0\0\0\x01\0\0\0\x01\0\0\0\0",
            rows: &[BOTH_HILLS],
        },
    ];
    for case in cases {
        compare_sources(&rt, rt.alloc(), *case)?;
    }
    Ok(())
}

#[test]
fn an_image_without_pixels_has_an_empty_catalogue(rt: HostRuntime) -> Result<(), Fail> {
    let case = Sources {
        words: &["detect", "--threshold", "1"],
        image: NO_PIXELS,
        taken: 2882,
        width: b"NAXIS1  =                    2",
        count: b"NAXIS2  =                    0",
        map: b"\0\0\0\0\0\0\0\0",
        rows: &[],
    };
    compare_sources(&rt, rt.alloc(), case)
}
