//! Runs of `measure`.
use crate::in_memory::{
    Failing, NONE_FAILS, ROOM, compare_end, compare_taken, file_of_two, run_in_memory,
};
use std::alloc::Global;
use std::process::Abort;
use std::test::Fail;
use std::thread::Threads;

// The header of an image extension of the shape of the primary HDU, behind the padding of the data before it.
const EXTENSION: &[u8] =
    b"#XTENSION= 'IMAGE   '|BITPIX  = 8|NAXIS   = 2|NAXIS1  = 5|NAXIS2  = 1|PCOUNT  = 0|GCOUNT  = 1|BLANK   = 255|END|#";

// The 24 cells of a row, one column in each line: both hills as one source, with two values seen and one missing.
const BOTH_HILLS: &[u8] = b"\0\0\0\x01\
    \0\0\0\0\0\0\0\x02\
    \0\0\0\0\0\0\0\x01\
    \0\0\0\x03\
    \0\0\0\0\0\0\0\x0a\
    \0\0\0\0\0\0\0\x06\
    \0\0\0\x02\
    \0\0\0\x04\
    \0\0\0\x01\
    \0\0\0\x01\
    \0\0\0\x02\
    \0\0\0\x01\
    \0\0\x0b\x54\
    \0\0\x03\xe8\
    \0\0\0\0\0\0\x02\x9a\
    \0\0\0\0\0\0\0\0\
    \0\0\0\0\0\0\0\0\
    \0\0\0\x02\
    \0\0\0\x01\
    \0\0\0\0\0\0\0\x3c\
    \0\0\0\0\0\0\0\x14\
    \0\0\0\0\0\0\0\x28\
    \0\0\0\0\0\0\x75\x30\
    \0\0\0\0\0\0\x21\x34";

// The two sources of the extension, with the pixels of the primary HDU as values.
const LEFT_PART: &[u8] = b"\0\0\0\x01\
    \0\0\0\0\0\0\0\x0a\
    \0\0\0\0\0\0\0\x0a\
    \0\0\0\x02\
    \0\0\0\0\0\0\0\x0a\
    \0\0\0\0\0\0\0\x14\
    \0\0\0\x01\
    \0\0\0\x02\
    \0\0\0\x01\
    \0\0\0\x01\
    \0\0\0\x01\
    \0\0\0\x01\
    \0\0\x07\xd0\
    \0\0\x03\xe8\
    \0\0\0\0\0\0\0\xfa\
    \0\0\0\0\0\0\0\0\
    \0\0\0\0\0\0\0\0\
    \0\0\0\x02\
    \0\0\0\0\
    \0\0\0\0\0\0\0\x07\
    \0\0\0\0\0\0\0\x01\
    \0\0\0\0\0\0\0\x06\
    \0\0\0\0\0\0\x0d\xac\
    \0\0\0\0\0\0\0\0";

const RIGHT_PART: &[u8] = b"\0\0\0\x02\
    \0\0\0\0\0\0\0\x07\
    \0\0\0\0\0\0\0\x07\
    \0\0\0\x02\
    \0\0\0\0\0\0\0\x21\
    \0\0\0\0\0\0\0\x28\
    \0\0\0\x04\
    \0\0\0\x05\
    \0\0\0\x01\
    \0\0\0\x01\
    \0\0\0\x04\
    \0\0\0\x01\
    \0\0\x0f\xa0\
    \0\0\x03\xe8\
    \0\0\0\0\0\0\0\xfa\
    \0\0\0\0\0\0\0\0\
    \0\0\0\0\0\0\0\0\
    \0\0\0\x02\
    \0\0\0\0\
    \0\0\0\0\0\0\0\x06\
    \0\0\0\0\0\0\0\x01\
    \0\0\0\0\0\0\0\x05\
    \0\0\0\0\0\0\x0b\xb8\
    \0\0\0\0\0\0\0\0";

// One bright pixel of the extension, whose parent lies below the threshold and has two pixels more: one is far from the bright one.
const ABOVE_A_FAINT_PARENT: &[u8] = b"\0\0\0\x01\
    \0\0\0\0\0\0\0\x06\
    \0\0\0\0\0\0\0\x01\
    \0\0\0\x01\
    \0\0\0\0\0\0\0\x05\
    \0\0\0\0\0\0\0\x06\
    \0\0\0\x04\
    \0\0\0\x04\
    \0\0\0\x01\
    \0\0\0\x01\
    \0\0\0\x04\
    \0\0\0\x01\
    \0\0\x0f\xa0\
    \0\0\x03\xe8\
    \0\0\0\0\0\0\0\0\
    \0\0\0\0\0\0\0\0\
    \0\0\0\0\0\0\0\0\
    \0\0\0\x01\
    \0\0\0\0\
    \0\0\0\0\0\0\0\x05\
    \0\0\0\0\0\0\0\x05\
    \0\0\0\0\0\0\0\x05\
    \0\0\0\0\0\0\x13\x88\
    \0\0\0\0\0\0\x0f\xa0";

// Compares a run of these words, over an extension with these data, with a map and with the rows of a catalogue.
fn try_rows<R: Threads + Sync + Abort>(
    rt: &R,
    alloc: Global,
    words: &[&str],
    data: &[u8],
    map: &[u8],
    rows: &[u8],
) -> Result<(), Fail> {
    let bytes = file_of_two(alloc, EXTENSION, data)?;
    let found = run_in_memory(rt, alloc, words, &bytes, ROOM, NONE_FAILS)?;
    compare_end(rt, &found, 0, b"");
    compare_taken(rt, &found, bytes.len(), 8645);
    assert_eq!(rt; found.output.len(), ROOM);
    assert!(rt;
        found
            .output
            .get(5760..)
            .is_some_and(|data| data.starts_with(map))
    );
    assert!(rt;
        found
            .output
            .get(14_400..)
            .is_some_and(|data| data.starts_with(rows))
    );
    assert!(rt;
        found
            .output
            .iter()
            .skip(14_400 + rows.len())
            .all(|byte| *byte == 0)
    );
    Ok(())
}

#[test]
fn values_stand_in_the_later_hdu(rt: HostRuntime) -> Result<(), Fail> {
    let words = [
        "measure",
        "--values",
        "1",
        "--threshold",
        "2",
        "--contrast",
        "301",
    ];
    let map = b"\0\0\0\0\0\0\0\x01\0\0\0\x01\0\0\0\x01\0\0\0\0";
    try_rows(
        &rt,
        rt.alloc(),
        &words,
        &[10, 20, 255, 40, 7],
        map,
        BOTH_HILLS,
    )
}

#[test]
fn values_stand_in_the_earlier_hdu(rt: HostRuntime) -> Result<(), Fail> {
    let alloc = rt.alloc();
    let words = [
        "measure",
        "--hdu",
        "1",
        "--values",
        "0",
        "--threshold",
        "2",
        "--contrast",
        "301",
    ];
    let map = b"\0\0\0\x01\0\0\0\x01\0\0\0\0\0\0\0\x02\0\0\0\x02";
    let mut rows = LEFT_PART.to_vec(alloc)?;
    rows.extend_from_slice(RIGHT_PART)?;
    try_rows(&rt, alloc, &words, &[10, 20, 255, 40, 7], map, &rows)
}

// The pixels below the parent's level are left out of the tree that the values are measured over.
#[test]
fn a_parent_lies_below_the_threshold(rt: HostRuntime) -> Result<(), Fail> {
    let words = ["measure", "--hdu", "1", "--values", "0", "--threshold", "2"];
    let map = b"\0\0\0\0\0\0\0\0\0\0\0\0\0\0\0\x01\0\0\0\0";
    try_rows(
        &rt,
        rt.alloc(),
        &words,
        &[0, 1, 1, 6, 0],
        map,
        ABOVE_A_FAINT_PARENT,
    )
}

// Compares a run that writes nothing with its status, its notes and the bytes that it takes.
fn try_refusal<R: Threads + Sync + Abort>(
    rt: &R,
    alloc: Global,
    words: &[&str],
    extension: &[u8],
    status: u8,
    notes: &[u8],
    taken: usize,
) -> Result<(), Fail> {
    let bytes = file_of_two(alloc, extension, &[10, 20, 30, 40])?;
    let found = run_in_memory(rt, alloc, words, &bytes, 99, NONE_FAILS)?;
    compare_end(rt, &found, status, notes);
    compare_taken(rt, &found, bytes.len(), taken);
    assert_eq!(rt; found.output.len(), 0);
    Ok(())
}

#[test]
fn each_fault_has_its_line(rt: HostRuntime) -> Result<(), Fail> {
    let narrow =
        b"#XTENSION= 'IMAGE   '|BITPIX  = 8|NAXIS   = 2|NAXIS1  = 4|NAXIS2  = 1|PCOUNT  = 0|GCOUNT  = 1|END|#";
    // the words, the extension, the status, the notes, and the bytes taken
    let cases: [(&[&str], &[u8], u8, &[u8], usize); 5] = [
        (
            &["measure", "--values", "0", "--threshold", "2"],
            narrow,
            1,
            b"usage: word 6\n",
            0,
        ),
        (
            &["measure", "--values", "1", "--threshold", "2"],
            narrow,
            2,
            b"refused: 19 ShapeDiffers\n",
            8640,
        ),
        (
            &["measure", "--values", "1", "--threshold", "2"],
            EXTENSION,
            2,
            b"refused: 17 TruncatedData\n",
            8644,
        ),
        (
            &["measure", "--values", "2", "--threshold", "2"],
            narrow,
            2,
            b"refused: 7 NoSuchHdu\n",
            8644,
        ),
        (
            &["measure", "--hdu", "2", "--values", "1", "--threshold", "2"],
            EXTENSION,
            2,
            b"refused: 17 TruncatedData\n",
            8644,
        ),
    ];
    for (words, extension, status, notes, taken) in cases {
        try_refusal(&rt, rt.alloc(), words, extension, status, notes, taken)?;
    }
    Ok(())
}

// A take of the second image, and a call of the output.
#[test]
fn a_device_fails(rt: HostRuntime) -> Result<(), Fail> {
    let alloc = rt.alloc();
    let bytes = file_of_two(alloc, EXTENSION, &[10, 20, 255, 40, 7])?;
    let words = ["measure", "--values", "1", "--threshold", "2"];
    let takes = Failing {
        takes: &[26],
        ..NONE_FAILS
    };
    let read = run_in_memory(&rt, alloc, &words, &bytes, 99, takes)?;
    compare_end(&rt, &read, 3, b"read fault\n");
    compare_taken(&rt, &read, bytes.len(), 8640);
    assert_eq!(rt; read.output.len(), 0);
    let puts = Failing {
        puts: &[2],
        kept: 10,
        ..NONE_FAILS
    };
    let written = run_in_memory(&rt, alloc, &words, &bytes, ROOM, puts)?;
    compare_end(&rt, &written, 4, b"write fault\n");
    assert_eq!(rt; written.output.len(), 2890);
    Ok(())
}
