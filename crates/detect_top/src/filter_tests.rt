use crate::in_memory::{Row, append_hdu, compare};
use std::alloc::Global;
use std::process::Abort;
use std::test::Fail;
use std::thread::Threads;

const ONE_ROW: &[u8] = b"SIMPLE  = T|BITPIX  = 8|NAXIS   = 2|NAXIS1  = 5|NAXIS2  = 1|END|#";

const ONE_ROW_SIDES: [&[u8]; 2] = [
    b"NAXIS1  =                    5",
    b"NAXIS2  =                    1",
];

const SQUARE: &[u8] = b"SIMPLE  = T|BITPIX  = 8|NAXIS   = 2|NAXIS1  = 2|NAXIS2  = 2|END|#";

const SQUARE_SIDES: [&[u8]; 2] = [
    b"NAXIS1  =                    2",
    b"NAXIS2  =                    2",
];

// A rule and its options, the header and the pixels of an image, and the cards of the sides and the pixels of what is left of it.
#[derive(Clone, Copy)]
struct Filtering<'a> {
    rule: &'a str,
    options: [&'a str; 4],
    image: &'a [u8],
    pixels: &'a [u8],
    taken: usize,
    sides: [&'a [u8]; 2],
    left: &'a [u8],
}

// The whole output, with each pixel in 64 bits.
fn written(alloc: Global, case: Filtering) -> Result<Vec<u8>, Fail> {
    let [width, height] = case.sides;
    let cards: [&[u8]; 7] = [
        b"SIMPLE  =                    T",
        b"BITPIX  =                   64",
        b"NAXIS   =                    2",
        width,
        height,
        b"BLANK   = -9223372036854775808",
        b"END",
    ];
    let mut data = Vec::new(alloc);
    for pixel in case.left {
        data.extend_from_slice(&[0, 0, 0, 0, 0, 0, 0, *pixel])?;
    }
    let mut bytes = Vec::new(alloc);
    append_hdu(&mut bytes, &cards, &[data.as_slice()])?;
    Ok(bytes)
}

// Compares all that a run shows.
fn compare_filtering<R: Threads + Sync + Abort>(
    rt: &R,
    alloc: Global,
    case: Filtering,
) -> Result<(), Fail> {
    let output = written(alloc, case)?;
    let [first, one, second, other] = case.options;
    let words = ["filter", "--rule", case.rule, first, one, second, other];
    let row = Row {
        words: &words,
        header: case.image,
        data: case.pixels,
        status: 0,
        output: output.as_slice(),
        notes: b"",
        taken: case.taken,
    };
    compare(rt, alloc, row)
}

#[test]
fn each_rule_leaves_its_pixels(rt: HostRuntime) -> Result<(), Fail> {
    let cases: &[Filtering] = &[
        Filtering {
            rule: "min",
            options: ["--min-area", "2", "--max-area", "2"],
            image: ONE_ROW,
            pixels: &[0, 1, 3, 2, 0],
            taken: 2885,
            sides: ONE_ROW_SIDES,
            left: &[0, 0, 0, 0, 0],
        },
        Filtering {
            rule: "max",
            options: ["--min-area", "2", "--max-area", "2"],
            image: ONE_ROW,
            pixels: &[0, 1, 3, 2, 0],
            taken: 2885,
            sides: ONE_ROW_SIDES,
            left: &[0, 1, 2, 2, 0],
        },
        Filtering {
            rule: "direct",
            options: ["--max-area", "2", "--min-area", "2"],
            image: ONE_ROW,
            pixels: &[0, 1, 3, 2, 0],
            taken: 2885,
            sides: ONE_ROW_SIDES,
            left: &[0, 0, 2, 2, 0],
        },
        Filtering {
            rule: "subtractive",
            options: ["--min-area", "2", "--max-area", "2"],
            image: ONE_ROW,
            pixels: &[0, 1, 3, 2, 0],
            taken: 2885,
            sides: ONE_ROW_SIDES,
            left: &[0, 0, 1, 1, 0],
        },
        Filtering {
            rule: "direct",
            options: ["--min-fill", "750", "--min-flux", "0"],
            image: SQUARE,
            pixels: &[1, 1, 1, 0],
            taken: 2884,
            sides: SQUARE_SIDES,
            left: &[1, 1, 1, 0],
        },
        Filtering {
            rule: "direct",
            options: ["--min-fill", "751", "--strips", "2"],
            image: SQUARE,
            pixels: &[1, 1, 1, 0],
            taken: 2884,
            sides: SQUARE_SIDES,
            left: &[0, 0, 0, 0],
        },
    ];
    for case in cases {
        compare_filtering(&rt, rt.alloc(), *case)?;
    }
    Ok(())
}
