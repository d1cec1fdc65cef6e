//! What `tree` answers: lines, refusals and the bytes taken.
use crate::in_memory::{Row, compare, compare_rows, file};
use crate::{read_words, run};
use dev_io::{MemSink, PlainSource};
use orders::Usage;
use std::alloc::Global;
use std::process::Abort;
use std::test::Fail;
use std::thread::Threads;
use strip_crew::OpenGate;

// Words that give no order, and the line that says so.
#[derive(Clone, Copy)]
struct NoOrder<'a> {
    words: &'a [&'a str],
    notes: &'a [u8],
}

#[test]
fn small_images_have_their_lines(rt: HostRuntime) -> Result<(), Fail> {
    let rows: &[Row] = &[
        Row {
            words: &["tree"],
            header: b"SIMPLE  = T|BITPIX  = 8|NAXIS   = 2|NAXIS1  = 3|NAXIS2  = 1|END|#",
            data: &[1, 2, 1],
            status: 0,
            output: b"0 1 0 - 3\n1 2 1 0 1\n",
            notes: b"",
            taken: 2883,
        },
        Row {
            words: &["tree"],
            header: b"SIMPLE  = T|BITPIX  = 8|NAXIS   = 2|NAXIS1  = 3|NAXIS2  = 1|END|#",
            data: &[1, 2, 1, 7, 7],
            status: 0,
            output: b"0 1 0 - 3\n1 2 1 0 1\n",
            notes: b"",
            taken: 2883,
        },
        Row {
            words: &["tree"],
            header: b"SIMPLE  = T|BITPIX  = 8|NAXIS   = 2|NAXIS1  = 1|NAXIS2  = 1|END|#",
            data: &[0],
            status: 0,
            output: b"0 0 0 - 1\n",
            notes: b"",
            taken: 2881,
        },
        Row {
            words: &["tree"],
            header: b"SIMPLE  = T|BITPIX  = 8|NAXIS   = 2|NAXIS1  = 3|NAXIS2  = 1|BLANK   = 0|END|#",
            data: &[5, 0, 5],
            status: 0,
            output: b"0 5 0 - 1\n1 5 2 - 1\n",
            notes: b"",
            taken: 2883,
        },
        Row {
            words: &["tree"],
            header: b"SIMPLE  = T|BITPIX  = 8|NAXIS   = 2|NAXIS1  = 2|NAXIS2  = 1|BLANK   = 7|END|#",
            data: &[7, 7],
            status: 0,
            output: b"",
            notes: b"",
            taken: 2882,
        },
    ];
    compare_rows(&rt, rt.alloc(), rows)
}

#[test]
fn connectivity_4_and_8(rt: HostRuntime) -> Result<(), Fail> {
    let rows: &[Row] = &[
        Row {
            words: &["tree"],
            header: b"SIMPLE  = T|BITPIX  = 8|NAXIS   = 2|NAXIS1  = 2|NAXIS2  = 2|END|#",
            data: &[9, 0, 0, 9],
            status: 0,
            output: b"0 0 1 - 4\n1 9 0 0 1\n2 9 3 0 1\n",
            notes: b"",
            taken: 2884,
        },
        Row {
            words: &["tree", "--connect", "08"],
            header: b"SIMPLE  = T|BITPIX  = 8|NAXIS   = 2|NAXIS1  = 2|NAXIS2  = 2|END|#",
            data: &[9, 0, 0, 9],
            status: 0,
            output: b"0 0 1 - 4\n1 9 0 0 2\n",
            notes: b"",
            taken: 2884,
        },
        Row {
            words: &["tree"],
            header: b"SIMPLE  = T|BITPIX  = 8|NAXIS   = 2|NAXIS1  = 3|NAXIS2  = 2|END|#",
            data: &[1, 5, 1, 7, 1, 1],
            status: 0,
            output: b"0 1 0 - 6\n1 5 1 0 1\n2 7 3 0 1\n",
            notes: b"",
            taken: 2886,
        },
        Row {
            words: &["tree", "--connect", "8"],
            header: b"SIMPLE  = T|BITPIX  = 8|NAXIS   = 2|NAXIS1  = 3|NAXIS2  = 2|END|#",
            data: &[1, 5, 1, 7, 1, 1],
            status: 0,
            output: b"0 1 0 - 6\n1 5 1 0 2\n2 7 3 1 1\n",
            notes: b"",
            taken: 2886,
        },
    ];
    compare_rows(&rt, rt.alloc(), rows)
}

#[test]
fn numbers_of_16_and_32_bits(rt: HostRuntime) -> Result<(), Fail> {
    let rows: &[Row] = &[
        Row {
            words: &["tree", "--hdu", "0"],
            header: b"SIMPLE  = T|BITPIX  = 16|NAXIS   = 2|NAXIS1  = 2|NAXIS2  = 1|BSCALE  = 1.0|BZERO   = 3.276800E+04|END|#",
            data: &[128, 0, 127, 255],
            status: 0,
            output: b"0 0 0 - 2\n1 65535 1 0 1\n",
            notes: b"",
            taken: 2884,
        },
        Row {
            words: &["tree"],
            header: b"SIMPLE  = T|BITPIX  = 32|NAXIS   = 2|NAXIS1  = 4|NAXIS2  = 1|BZERO   = 2147483648|END|#",
            data: &[
                128, 0, 0, 0, 127, 255, 255, 255, 128, 0, 0, 1, 127, 255, 255, 254,
            ],
            status: 0,
            output: b"0 0 0 - 4\n1 1 2 0 3\n2 4294967294 3 1 1\n3 4294967295 1 1 1\n",
            notes: b"",
            taken: 2896,
        },
        Row {
            words: &["tree"],
            header: b"SIMPLE  = T|BITPIX  = 16|NAXIS   = 2|NAXIS1  = 1|NAXIS2  = 1|BLANK   = -1|END|#",
            data: &[255, 255],
            status: 0,
            output: b"",
            notes: b"",
            taken: 2882,
        },
        Row {
            words: &["tree"],
            header: b"SIMPLE  = T|BITPIX  = 8|NAXIS   = 2|NAXIS1  = 1|NAXIS2  = 1|BLANK   = 7.|END|#",
            data: &[7],
            status: 0,
            output: b"",
            notes: b"",
            taken: 2881,
        },
    ];
    compare_rows(&rt, rt.alloc(), rows)
}

// The words of a list of nodes with so many strips and workers.
fn cut_words<'a>(strips: &'a str, workers: &'a str) -> [&'a str; 5] {
    ["tree", "--strips", strips, "--workers", workers]
}

#[test]
fn strips_and_workers_change_nothing(rt: HostRuntime) -> Result<(), Fail> {
    let numbers = [
        ("1", "1"),
        ("1", "3"),
        ("2", "1"),
        ("2", "3"),
        ("3", "1"),
        ("3", "3"),
    ];
    for (strips, workers) in numbers {
        let hills = Row {
            words: &cut_words(strips, workers),
            header: b"SIMPLE  = T|BITPIX  = 8|NAXIS   = 2|NAXIS1  = 3|NAXIS2  = 3|END|#",
            data: &[5, 0, 6, 5, 2, 6, 3, 3, 3],
            status: 0,
            output: b"0 0 1 - 9\n1 2 4 0 8\n2 3 6 1 7\n3 5 0 2 2\n4 6 2 2 2\n",
            notes: b"",
            taken: 2889,
        };
        compare(&rt, rt.alloc(), hills)?;
    }
    let flat = Row {
        words: &cut_words("3", "2"),
        header: b"SIMPLE  = T|BITPIX  = 8|NAXIS   = 2|NAXIS1  = 4|NAXIS2  = 3|END|#",
        data: &[6; 12],
        status: 0,
        output: b"0 6 0 - 12\n",
        notes: b"",
        taken: 2892,
    };
    compare(&rt, rt.alloc(), flat)
}

#[test]
fn background_is_taken_off(rt: HostRuntime) -> Result<(), Fail> {
    let rows: &[Row] = &[
        Row {
            words: &["tree", "--mesh", "2", "--flat", "1"],
            header: b"SIMPLE  = T|BITPIX  = 8|NAXIS   = 2|NAXIS1  = 5|NAXIS2  = 2|BLANK   = 255|END|#",
            data: &[1, 4, 255, 255, 9, 2, 3, 255, 255, 7],
            status: 0,
            output: b"0 -1 0 - 4\n1 0 5 0 3\n2 0 9 - 2\n3 1 6 1 2\n4 2 1 3 1\n5 2 4 2 1\n",
            notes: b"",
            taken: 2890,
        },
        Row {
            words: &["tree", "--mesh", "2"],
            header: b"SIMPLE  = T|BITPIX  = 8|NAXIS   = 2|NAXIS1  = 5|NAXIS2  = 2|BLANK   = 255|END|#",
            data: &[1, 4, 255, 255, 9, 2, 3, 255, 255, 7],
            status: 0,
            output: b"0 -1 0 - 4\n1 0 5 0 3\n2 1 6 1 2\n3 2 1 2 1\n4 4 9 - 2\n5 6 4 4 1\n",
            notes: b"",
            taken: 2890,
        },
        Row {
            words: &["tree", "--mesh", "2", "--flat", "0"],
            header: b"SIMPLE  = T|BITPIX  = 8|NAXIS   = 2|NAXIS1  = 6|NAXIS2  = 1|BZERO   = -20|END|#",
            data: &[0, 0, 10, 10, 20, 20],
            status: 0,
            output: b"0 -2 1 - 6\n1 0 0 0 1\n2 0 3 0 4\n3 3 2 2 1\n4 10 4 2 2\n",
            notes: b"",
            taken: 2886,
        },
    ];
    compare_rows(&rt, rt.alloc(), rows)
}

#[test]
fn scaling_is_refused(rt: HostRuntime) -> Result<(), Fail> {
    let rows: &[Row] = &[
        Row {
            words: &["tree"],
            header: b"SIMPLE  = T|BITPIX  = 8|NAXIS   = 2|NAXIS1  = 1|NAXIS2  = 1|BSCALE  = 2|END|#",
            data: &[0],
            status: 2,
            output: b"",
            notes: b"refused: 14 Bscale\n",
            taken: 2880,
        },
        Row {
            words: &["tree"],
            header: b"SIMPLE  = T|BITPIX  = 8|NAXIS   = 2|NAXIS1  = 1|NAXIS2  = 1|BZERO   = 0.5|END|#",
            data: &[0],
            status: 2,
            output: b"",
            notes: b"refused: 15 Bzero\n",
            taken: 2880,
        },
        Row {
            words: &["tree"],
            header: b"SIMPLE  = T|BITPIX  = 8|NAXIS   = 2|NAXIS1  = 1|NAXIS2  = 1|BZERO   = 0.5|BSCALE  = 2|END|#",
            data: &[0],
            status: 2,
            output: b"",
            notes: b"refused: 14 Bscale\n",
            taken: 2880,
        },
        Row {
            words: &["tree"],
            header: b"SIMPLE  = T|BITPIX  = 8|NAXIS   = 2|NAXIS1  = 1|NAXIS2  = 1|BLANK   = 1.5|END|#",
            data: &[0],
            status: 2,
            output: b"",
            notes: b"refused: 16 Blank\n",
            taken: 2880,
        },
        Row {
            words: &["tree"],
            header: b"SIMPLE  = T|BITPIX  = -32|NAXIS   = 2|NAXIS1  = 1|NAXIS2  = 1|END|#",
            data: &[0, 0, 0, 0],
            status: 2,
            output: b"",
            notes: b"refused: 13 Bitpix\n",
            taken: 2880,
        },
    ];
    compare_rows(&rt, rt.alloc(), rows)
}

// A product of 2^40 bytes is the greatest that isn't too long.
#[test]
fn sizes_are_refused(rt: HostRuntime) -> Result<(), Fail> {
    let rows: &[Row] = &[
        Row {
            words: &["tree"],
            header: b"SIMPLE  = T|BITPIX  = 8|NAXIS   = 2|NAXIS1  = 65536|NAXIS2  = 1|END|#",
            data: &[0],
            status: 2,
            output: b"",
            notes: b"refused: 12 ImageTooLarge\n",
            taken: 2880,
        },
        Row {
            words: &["tree"],
            header: b"SIMPLE  = T|BITPIX  = 8|NAXIS   = 2|NAXIS1  = 4097|NAXIS2  = 4096|END|#",
            data: &[0],
            status: 2,
            output: b"",
            notes: b"refused: 12 ImageTooLarge\n",
            taken: 2880,
        },
        Row {
            words: &["tree"],
            header: b"SIMPLE  = T|BITPIX  = 8|NAXIS   = 2|NAXIS1  = 1048576|NAXIS2  = 1048576|END|#",
            data: &[0],
            status: 2,
            output: b"",
            notes: b"refused: 12 ImageTooLarge\n",
            taken: 2880,
        },
        Row {
            words: &["tree"],
            header: b"SIMPLE  = T|BITPIX  = 16|NAXIS   = 2|NAXIS1  = 1048576|NAXIS2  = 1048576|END|#",
            data: &[0],
            status: 2,
            output: b"",
            notes: b"refused: 6 DataTooLong\n",
            taken: 2880,
        },
        Row {
            words: &["tree"],
            header: b"SIMPLE  = T|BITPIX  = 8|NAXIS   = 2|NAXIS1  = 65535|NAXIS2  = 256|END|#",
            data: &[0],
            status: 2,
            output: b"",
            notes: b"refused: 17 TruncatedData\n",
            taken: 2881,
        },
        Row {
            words: &["tree"],
            header: b"SIMPLE  = T|BITPIX  = 8|NAXIS   = 2|NAXIS1  = 3|NAXIS2  = 1|END|#",
            data: &[1, 2],
            status: 2,
            output: b"",
            notes: b"refused: 17 TruncatedData\n",
            taken: 2882,
        },
    ];
    compare_rows(&rt, rt.alloc(), rows)
}

#[test]
fn headers_that_are_cut_are_refused(rt: HostRuntime) -> Result<(), Fail> {
    let rows: &[Row] = &[
        Row {
            words: &["tree"],
            header: b"",
            data: b"",
            status: 2,
            output: b"",
            notes: b"refused: 1 NotFits\n",
            taken: 0,
        },
        Row {
            words: &["tree"],
            header: b"SIMPLE  = T|BITPIX  = 8|NAXIS   = 2|NAXIS1  = 3|NAXIS2  = 1|#",
            data: b"",
            status: 2,
            output: b"",
            notes: b"refused: 2 TruncatedHeader\n",
            taken: 2880,
        },
        Row {
            words: &["tree"],
            header: b"SIMPLE  = T|BITPIX  = 8|NAXIS   = 2|NAXIS1  = 3|NAXIS2  = 1|",
            data: b"",
            status: 2,
            output: b"",
            notes: b"refused: 2 TruncatedHeader\n",
            taken: 400,
        },
        Row {
            words: &["tree"],
            header: b"SIMPLE  = T|NAXIS   = 0|END|",
            data: b"",
            status: 2,
            output: b"",
            notes: b"refused: 3 BadKeyword hdu 0 card 2\n",
            taken: 160,
        },
    ];
    compare_rows(&rt, rt.alloc(), rows)
}

#[test]
fn an_hdu_is_found_by_its_number(rt: HostRuntime) -> Result<(), Fail> {
    let rows: &[Row] = &[
        Row {
            words: &["tree"],
            header: b"SIMPLE  = T|BITPIX  = 8|NAXIS   = 0|EXTEND  = T|COMMENT no value|END|#XTENSION= 'IMAGE'|BITPIX  = 8|NAXIS   = 2|NAXIS1  = 3|NAXIS2  = 1|PCOUNT  = 0|GCOUNT  = 1|EXTNAME = 'SCI'|HIERARCH ESO DET ID = 'a'|CONTINUE  'more'|END|#",
            data: &[1, 2, 1],
            status: 2,
            output: b"",
            notes: b"refused: 11 NoImage\n",
            taken: 2880,
        },
        Row {
            words: &["tree", "--hdu", "1", "--connect", "4"],
            header: b"SIMPLE  = T|BITPIX  = 8|NAXIS   = 0|EXTEND  = T|COMMENT no value|END|#XTENSION= 'IMAGE'|BITPIX  = 8|NAXIS   = 2|NAXIS1  = 3|NAXIS2  = 1|PCOUNT  = 0|GCOUNT  = 1|EXTNAME = 'SCI'|HIERARCH ESO DET ID = 'a'|CONTINUE  'more'|END|#",
            data: &[1, 2, 1],
            status: 0,
            output: b"0 1 0 - 3\n1 2 1 0 1\n",
            notes: b"",
            taken: 5763,
        },
        Row {
            words: &["tree", "--hdu", "2"],
            header: b"SIMPLE  = T|BITPIX  = 8|NAXIS   = 0|EXTEND  = T|COMMENT no value|END|#XTENSION= 'IMAGE'|BITPIX  = 8|NAXIS   = 2|NAXIS1  = 3|NAXIS2  = 1|PCOUNT  = 0|GCOUNT  = 1|EXTNAME = 'SCI'|HIERARCH ESO DET ID = 'a'|CONTINUE  'more'|END|#",
            data: &[1, 2, 1],
            status: 2,
            output: b"",
            notes: b"refused: 7 NoSuchHdu\n",
            taken: 5763,
        },
        Row {
            words: &["tree", "--hdu", "2"],
            header: b"SIMPLE  = T|BITPIX  = 8|NAXIS   = 0|EXTEND  = T|COMMENT no value|END|#XTENSION= 'IMAGE'|BITPIX  = 8|NAXIS   = 2|NAXIS1  = 3|NAXIS2  = 1|PCOUNT  = 0|GCOUNT  = 1|EXTNAME = 'SCI'|HIERARCH ESO DET ID = 'a'|CONTINUE  'more'|END|#",
            data: &[1, 2],
            status: 2,
            output: b"",
            notes: b"refused: 8 TruncatedSkip\n",
            taken: 5762,
        },
    ];
    compare_rows(&rt, rt.alloc(), rows)
}

#[test]
fn a_primary_is_skipped(rt: HostRuntime) -> Result<(), Fail> {
    let rows: &[Row] = &[
        Row {
            words: &["tree", "--hdu", "1"],
            header: b"SIMPLE  = T|BITPIX  = 8|NAXIS   = 2|NAXIS1  = 3|NAXIS2  = 1|END|#",
            data: &[1, 2],
            status: 2,
            output: b"",
            notes: b"refused: 8 TruncatedSkip\n",
            taken: 2882,
        },
        Row {
            words: &["tree", "--hdu", "1"],
            header: b"SIMPLE  = T|BITPIX  = 8|NAXIS   = 2|NAXIS1  = 3|NAXIS2  = 1|END|#",
            data: &[1, 2, 1],
            status: 2,
            output: b"",
            notes: b"refused: 7 NoSuchHdu\n",
            taken: 2883,
        },
    ];
    compare_rows(&rt, rt.alloc(), rows)
}

#[test]
fn random_groups_are_refused(rt: HostRuntime) -> Result<(), Fail> {
    let rows: &[Row] = &[
        Row {
            words: &["tree", "--hdu", "0"],
            header: b"SIMPLE  = T|BITPIX  = 8|NAXIS   = 1|NAXIS1  = 0|GROUPS  = T|END|#XTENSION= 'IMAGE'|BITPIX  = 8|NAXIS   = 2|NAXIS1  = 3|NAXIS2  = 1|PCOUNT  = 0|GCOUNT  = 1|EXTNAME = 'SCI'|HIERARCH ESO DET ID = 'a'|CONTINUE  'more'|END|#",
            data: &[1, 2, 1],
            status: 2,
            output: b"",
            notes: b"refused: 5 Groups\n",
            taken: 2880,
        },
        Row {
            words: &["tree", "--hdu", "1"],
            header: b"SIMPLE  = T|BITPIX  = 8|NAXIS   = 1|NAXIS1  = 0|GROUPS  = T|END|#XTENSION= 'IMAGE'|BITPIX  = 8|NAXIS   = 2|NAXIS1  = 3|NAXIS2  = 1|PCOUNT  = 0|GCOUNT  = 1|EXTNAME = 'SCI'|HIERARCH ESO DET ID = 'a'|CONTINUE  'more'|END|#",
            data: &[1, 2, 1],
            status: 2,
            output: b"",
            notes: b"refused: 5 Groups\n",
            taken: 2880,
        },
        Row {
            words: &["tree", "--hdu", "2"],
            header: b"SIMPLE  = T|BITPIX  = 8|NAXIS   = 1|NAXIS1  = 0|GROUPS  = T|END|#XTENSION= 'IMAGE'|BITPIX  = 8|NAXIS   = 2|NAXIS1  = 3|NAXIS2  = 1|PCOUNT  = 0|GCOUNT  = 1|EXTNAME = 'SCI'|HIERARCH ESO DET ID = 'a'|CONTINUE  'more'|END|#",
            data: &[1, 2, 1],
            status: 2,
            output: b"",
            notes: b"refused: 5 Groups\n",
            taken: 2880,
        },
    ];
    compare_rows(&rt, rt.alloc(), rows)
}

#[test]
fn a_wrong_word_ends_the_run(rt: HostRuntime) -> Result<(), Fail> {
    let cases: &[NoOrder] = &[
        NoOrder {
            words: &[],
            notes: b"usage: word 1\n",
        },
        NoOrder {
            words: &["draw"],
            notes: b"usage: word 1\n",
        },
        NoOrder {
            words: &["tree", "--strips", "0"],
            notes: b"usage: word 3\n",
        },
        NoOrder {
            words: &["tree", "--strips"],
            notes: b"usage: word 3\n",
        },
        NoOrder {
            words: &["tree", "--mesh", "2", "--mesh", "2"],
            notes: b"usage: word 4\n",
        },
        NoOrder {
            words: &["detect"],
            notes: b"usage: word 2\n",
        },
        NoOrder {
            words: &["tree", "--hdu", "65536"],
            notes: b"usage: word 3\n",
        },
    ];
    for case in cases {
        let row = Row {
            words: case.words,
            header: b"SIMPLE  = T",
            data: b"",
            status: 1,
            output: b"",
            notes: case.notes,
            taken: 0,
        };
        compare(&rt, rt.alloc(), row)?;
    }
    Ok(())
}

// A run that knows no measuring, over an image of one pixel.
fn try_run<R: Threads + Sync + Abort>(
    rt: &R,
    alloc: Global,
    words: &[&str],
    status: u8,
    output: &[u8],
    notes: &[u8],
) -> Result<(), Fail> {
    let header = b"SIMPLE  = T|BITPIX  = 8|NAXIS   = 2|NAXIS1  = 1|NAXIS2  = 1|END|#".as_slice();
    let bytes = file(alloc, header, &[7])?;
    let mut input = PlainSource::new(&bytes);
    let mut written = MemSink::new(vec![in alloc; 0; 99]?, &[], 0);
    let mut told = MemSink::new(vec![in alloc; 0; 99]?, &[], 0);
    let found = run(
        rt,
        alloc,
        words,
        &mut input,
        &mut written,
        &mut told,
        &OpenGate,
    );
    assert_eq!(rt; found, status);
    assert_eq!(rt; written.bytes(), output);
    assert_eq!(rt; told.bytes(), notes);
    Ok(())
}

#[test]
fn words_of_one_image_do_not_measure(rt: HostRuntime) -> Result<(), Fail> {
    let measure = ["measure", "--values", "1", "--threshold", "2"];
    try_run(&rt, rt.alloc(), &["tree"], 0, b"0 7 0 - 1\n", b"")?;
    try_run(&rt, rt.alloc(), &measure, 1, b"", b"usage: word 1\n")?;
    assert_eq!(rt; read_words(&measure), Err(Usage { word: 1 }));
    Ok(())
}
