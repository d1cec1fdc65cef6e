//! Headers that are made to mislead, each with its answer and the number of bytes that a run takes.
use crate::in_memory::{
    NONE_FAILS, append, compare_end, compare_output, compare_taken, file, run_in_memory,
};
use std::alloc::Global;
use std::process::Abort;
use std::test::Fail;
use std::thread::Threads;

// A file that is refused, with any data behind its cards.
#[derive(Clone, Copy)]
struct RefusedFile<'a> {
    hdu: &'a str,
    cards: &'a [u8],
    notes: &'a [u8],
    taken: usize,
}

// A file that is read, whose pixels are stored as 48.
#[derive(Clone, Copy)]
struct ReadFile<'a> {
    hdu: &'a str,
    cards: &'a [u8],
    lines: &'a [u8],
    taken: usize,
}

// The side of a mesh's cells, and the lines that a run with it writes.
#[derive(Clone, Copy)]
struct Meshed<'a> {
    mesh: &'a str,
    lines: &'a [u8],
}

// Runs `tree` on the HDU with this number, and compares all that can be seen.
fn compare<R: Threads + Sync + Abort>(
    rt: &R,
    alloc: Global,
    hdu: &str,
    bytes: &[u8],
    lines: &[u8],
    note: &[u8],
    taken: usize,
) -> Result<(), Fail> {
    let outcome = run_in_memory(rt, alloc, &["tree", "--hdu", hdu], bytes, 99, NONE_FAILS)?;
    compare_end(rt, &outcome, if note.is_empty() { 0 } else { 2 }, note);
    compare_output(rt, &outcome, lines);
    compare_taken(rt, &outcome, bytes.len(), taken);
    Ok(())
}

fn compare_refused<R: Threads + Sync + Abort>(
    rt: &R,
    alloc: Global,
    case: RefusedFile,
) -> Result<(), Fail> {
    let bytes = file(alloc, case.cards, b"")?;
    compare(rt, alloc, case.hdu, &bytes, b"", case.notes, case.taken)
}

fn compare_all_refused<R: Threads + Sync + Abort>(
    rt: &R,
    alloc: Global,
    cases: &[RefusedFile],
) -> Result<(), Fail> {
    for case in cases {
        compare_refused(rt, alloc, *case)?;
    }
    Ok(())
}

fn compare_read<R: Threads + Sync + Abort>(
    rt: &R,
    alloc: Global,
    case: ReadFile,
) -> Result<(), Fail> {
    let bytes = file(alloc, case.cards, b"")?;
    compare(rt, alloc, case.hdu, &bytes, case.lines, b"", case.taken)
}

fn compare_all_read<R: Threads + Sync + Abort>(
    rt: &R,
    alloc: Global,
    cases: &[ReadFile],
) -> Result<(), Fail> {
    for case in cases {
        compare_read(rt, alloc, *case)?;
    }
    Ok(())
}

// Bytes that end within a header, and an END that isn't one.
#[test]
fn headers_that_end_early(rt: HostRuntime) -> Result<(), Fail> {
    let cases: &[RefusedFile] = &[
        RefusedFile {
            hdu: "0",
            cards: b"SIMPLE  = F",
            notes: b"refused: 2 TruncatedHeader\n",
            taken: 11,
        },
        RefusedFile {
            hdu: "0",
            cards: b"SIMPLE  = T|BITPIX  = 8|NAXIS   = 2|NAXIS1  = 3|NAXIS2  = 1|#",
            notes: b"refused: 2 TruncatedHeader\n",
            taken: 2880,
        },
        RefusedFile {
            hdu: "0",
            cards: b"SIMPLE ",
            notes: b"refused: 1 NotFits\n",
            taken: 7,
        },
        RefusedFile {
            hdu: "0",
            cards: b"SIMPLE  ",
            notes: b"refused: 2 TruncatedHeader\n",
            taken: 8,
        },
        RefusedFile {
            hdu: "0",
            cards: b"SIMPLE  = T|BITPIX  = 8|NAXIS   = 2|NAXIS1  = 1|NAXIS2  = 1|END                                                                            /#",
            notes: b"refused: 2 TruncatedHeader\n",
            taken: 2880,
        },
        RefusedFile {
            hdu: "0",
            cards: b"SIMPLE  = T|BITPIX  = 8|NAXIS   = 2|NAXIS1  = 1|NAXIS2  = 1| END|#",
            notes: b"refused: 2 TruncatedHeader\n",
            taken: 2880,
        },
    ];
    compare_all_refused(&rt, rt.alloc(), cases)
}

// A card that isn't the one of its place.
#[test]
fn mandatory_cards_out_of_place(rt: HostRuntime) -> Result<(), Fail> {
    let cases: &[RefusedFile] = &[
        RefusedFile {
            hdu: "1",
            cards: b"SIMPLE  = T|BITPIX  = 8|NAXIS   = 0|END|#XTENSION= 'IMAGE'|BITPIX  = 8|PCOUNT  = 0|NAXIS   = 0|END|#",
            notes: b"refused: 3 BadKeyword hdu 1 card 3\n",
            taken: 3120,
        },
        RefusedFile {
            hdu: "0",
            cards: b"SIMPLE  = T|BITPIX  = 8|NAXIS   = 999|NAXIS1  = 1|NAXIS2  = 1|END|#",
            notes: b"refused: 3 BadKeyword hdu 0 card 6\n",
            taken: 480,
        },
        RefusedFile {
            hdu: "0",
            cards: b"SIMPLE  = T|BITPIX  = 8|NAXIS   = 2|NAXIS01 = 1|NAXIS2  = 1|END|#",
            notes: b"refused: 3 BadKeyword hdu 0 card 4\n",
            taken: 320,
        },
        RefusedFile {
            hdu: "0",
            cards: b"SIMPLE  = T|BITPIX  = 8|NAXIS   = 2|naxis1  = 1|NAXIS2  = 1|END|#",
            notes: b"refused: 3 BadKeyword hdu 0 card 4\n",
            taken: 320,
        },
    ];
    compare_all_refused(&rt, rt.alloc(), cases)
}

// A mandatory card that has no permitted value.
#[test]
fn mandatory_cards_with_other_values(rt: HostRuntime) -> Result<(), Fail> {
    let cases: &[RefusedFile] = &[
        RefusedFile {
            hdu: "0",
            cards: b"SIMPLE  = F|BITPIX  = 8|NAXIS   = 0|END|#",
            notes: b"refused: 3 BadKeyword hdu 0 card 1\n",
            taken: 80,
        },
        RefusedFile {
            hdu: "0",
            cards: b"SIMPLE  = T|BITPIX  = 8.0|NAXIS   = 0|END|#",
            notes: b"refused: 3 BadKeyword hdu 0 card 2\n",
            taken: 160,
        },
        RefusedFile {
            hdu: "0",
            cards: b"SIMPLE  = T|BITPIX  = 8|NAXIS   = 1000|END|#",
            notes: b"refused: 3 BadKeyword hdu 0 card 3\n",
            taken: 240,
        },
        RefusedFile {
            hdu: "0",
            cards: b"SIMPLE  = T|BITPIX  = 8|NAXIS   = 2|NAXIS1  = -1|NAXIS2  = 1|END|#",
            notes: b"refused: 3 BadKeyword hdu 0 card 4\n",
            taken: 320,
        },
        RefusedFile {
            hdu: "0",
            cards: b"SIMPLE  = T|BITPIX  = 8|NAXIS   = 2|NAXIS1  = 9223372036854775808|NAXIS2  = 1|END|#",
            notes: b"refused: 3 BadKeyword hdu 0 card 4\n",
            taken: 320,
        },
        RefusedFile {
            hdu: "1",
            cards: b"SIMPLE  = T|BITPIX  = 8|NAXIS   = 0|END|#XTENSION= 5|BITPIX  = 8|NAXIS   = 0|END|#",
            notes: b"refused: 3 BadKeyword hdu 1 card 1\n",
            taken: 2960,
        },
    ];
    compare_all_refused(&rt, rt.alloc(), cases)
}

// PCOUNT and GCOUNT of an extension that can't be read, or make it no image.
#[test]
fn counts_at_fault(rt: HostRuntime) -> Result<(), Fail> {
    let cases: &[RefusedFile] = &[
        RefusedFile {
            hdu: "1",
            cards: b"SIMPLE  = T|BITPIX  = 8|NAXIS   = 0|END|#XTENSION= 'IMAGE'|BITPIX  = 8|NAXIS   = 0|PCOUNT  = -1|END|#",
            notes: b"refused: 3 BadKeyword hdu 1 card 4\n",
            taken: 3200,
        },
        RefusedFile {
            hdu: "1",
            cards: b"SIMPLE  = T|BITPIX  = 8|NAXIS   = 0|END|#XTENSION= 'IMAGE'|BITPIX  = 8|NAXIS   = 0|PCOUNT  = 'x'|END|#",
            notes: b"refused: 3 BadKeyword hdu 1 card 4\n",
            taken: 3200,
        },
        RefusedFile {
            hdu: "1",
            cards: b"SIMPLE  = T|BITPIX  = 8|NAXIS   = 0|END|#XTENSION= 'IMAGE'|BITPIX  = 8|NAXIS   = 0|GCOUNT  = -1|END|#",
            notes: b"refused: 3 BadKeyword hdu 1 card 4\n",
            taken: 3200,
        },
        RefusedFile {
            hdu: "1",
            cards: b"SIMPLE  = T|BITPIX  = 8|NAXIS   = 0|END|#XTENSION= 'IMAGE'|BITPIX  = 8|NAXIS   = 2|NAXIS1  = 1|NAXIS2  = 1|GCOUNT  = 2|END|#00",
            notes: b"refused: 10 NotImage\n",
            taken: 5760,
        },
        RefusedFile {
            hdu: "1",
            cards: b"SIMPLE  = T|BITPIX  = 8|NAXIS   = 0|END|#XTENSION= 'IMAGE'|BITPIX  = 8|NAXIS   = 2|NAXIS1  = 1|NAXIS2  = 1|PCOUNT  = 8|END|#000000000",
            notes: b"refused: 10 NotImage\n",
            taken: 5760,
        },
        RefusedFile {
            hdu: "2",
            cards: b"SIMPLE  = T|BITPIX  = 8|NAXIS   = 0|END|#XTENSION= 'IMAGE'|BITPIX  = 8|NAXIS   = 2|NAXIS1  = 1|NAXIS2  = 1|GCOUNT  = 2|END|#0",
            notes: b"refused: 8 TruncatedSkip\n",
            taken: 5761,
        },
        RefusedFile {
            hdu: "2",
            cards: b"SIMPLE  = T|BITPIX  = 8|NAXIS   = 0|END|#XTENSION= 'IMAGE'|BITPIX  = 8|NAXIS   = 2|NAXIS1  = 1|NAXIS2  = 1|PCOUNT  = 8|END|#00000000",
            notes: b"refused: 8 TruncatedSkip\n",
            taken: 5768,
        },
    ];
    compare_all_refused(&rt, rt.alloc(), cases)
}

// Behind an HDU stand other bytes, or too few.
#[test]
fn bytes_where_no_hdu_begins(rt: HostRuntime) -> Result<(), Fail> {
    let cases: &[RefusedFile] = &[
        RefusedFile {
            hdu: "1",
            cards: b"SIMPLE  = T|BITPIX  = 8|NAXIS   = 0|END|#no HDU begins",
            notes: b"refused: 7 NoSuchHdu\n",
            taken: 2893,
        },
        RefusedFile {
            hdu: "1",
            cards: b"SIMPLE  = T|BITPIX  = 8|NAXIS   = 0|END|#XTENSIO",
            notes: b"refused: 7 NoSuchHdu\n",
            taken: 2887,
        },
        RefusedFile {
            hdu: "1",
            cards: b"SIMPLE  = T|BITPIX  = 8|NAXIS   = 0|END|#X",
            notes: b"refused: 7 NoSuchHdu\n",
            taken: 2881,
        },
    ];
    compare_all_refused(&rt, rt.alloc(), cases)
}

// Faults that a whole header shows.
#[test]
fn hdus_that_hold_no_image(rt: HostRuntime) -> Result<(), Fail> {
    let cases: &[RefusedFile] = &[
        RefusedFile {
            hdu: "0",
            cards: b"SIMPLE  = T|BITPIX  = 8|NAXIS   = 3|NAXIS1  = 9223372036854775807|NAXIS2  = 9223372036854775807|NAXIS3  = 9223372036854775807|END|#",
            notes: b"refused: 6 DataTooLong\n",
            taken: 2880,
        },
        RefusedFile {
            hdu: "0",
            cards: b"SIMPLE  = T|BITPIX  = 8|NAXIS   = 4|NAXIS1  = 9223372036854775807|NAXIS2  = 9223372036854775807|NAXIS3  = 9223372036854775807|NAXIS4  = 0|END|#",
            notes: b"refused: 11 NoImage\n",
            taken: 2880,
        },
        RefusedFile {
            hdu: "1",
            cards: b"SIMPLE  = T|BITPIX  = 8|NAXIS   = 0|END|#XTENSION= 'BINTABLE'|BITPIX  = 8|NAXIS   = 2|NAXIS1  = 8|NAXIS2  = 1|PCOUNT  = 0|GCOUNT  = 1|TFIELDS = 1|END|#",
            notes: b"refused: 10 NotImage\n",
            taken: 5760,
        },
    ];
    compare_all_refused(&rt, rt.alloc(), cases)
}

// BSCALE, BZERO and BLANK with values that they may not have.
#[test]
fn scalings_that_cannot_be_read(rt: HostRuntime) -> Result<(), Fail> {
    let cases: &[RefusedFile] = &[
        RefusedFile {
            hdu: "0",
            cards: b"SIMPLE  = T|BITPIX  = 8|NAXIS   = 2|NAXIS1  = 1|NAXIS2  = 1|BZERO   = 1E-99999999999999999999|END|#0",
            notes: b"refused: 15 Bzero\n",
            taken: 2880,
        },
        RefusedFile {
            hdu: "0",
            cards: b"SIMPLE  = T|BITPIX  = 8|NAXIS   = 2|NAXIS1  = 1|NAXIS2  = 1|BZERO   = 4294967297|END|#0",
            notes: b"refused: 15 Bzero\n",
            taken: 2880,
        },
        RefusedFile {
            hdu: "0",
            cards: b"SIMPLE  = T|BITPIX  = 8|NAXIS   = 2|NAXIS1  = 1|NAXIS2  = 1|BSCALE  = '1'|END|#0",
            notes: b"refused: 14 Bscale\n",
            taken: 2880,
        },
        RefusedFile {
            hdu: "0",
            cards: b"SIMPLE  = T|BITPIX  = 8|NAXIS   = 2|NAXIS1  = 1|NAXIS2  = 1|BLANK   = 9223372036854775808|END|#0",
            notes: b"refused: 16 Blank\n",
            taken: 2880,
        },
        RefusedFile {
            hdu: "0",
            cards: b"SIMPLE  = T|BITPIX  = 8|NAXIS   = 2|NAXIS1  = 1|NAXIS2  = 1|BSCALE  = / c|BSCALE  = 2|END|#0",
            notes: b"refused: 14 Bscale\n",
            taken: 2880,
        },
    ];
    compare_all_refused(&rt, rt.alloc(), cases)
}

// A primary whose GROUPS is T has random groups. Another HDU with these axes has no image.
#[test]
fn groups_that_are_none(rt: HostRuntime) -> Result<(), Fail> {
    let cases: &[RefusedFile] = &[
        RefusedFile {
            hdu: "0",
            cards: b"SIMPLE  = T|BITPIX  = 8|NAXIS   = 1|NAXIS1  = 0|GROUPS  = 'T'|END|#",
            notes: b"refused: 11 NoImage\n",
            taken: 2880,
        },
        RefusedFile {
            hdu: "0",
            cards: b"SIMPLE  = T|BITPIX  = 8|NAXIS   = 1|NAXIS1  = 0|GROUPS  = F|END|#",
            notes: b"refused: 11 NoImage\n",
            taken: 2880,
        },
        RefusedFile {
            hdu: "1",
            cards: b"SIMPLE  = T|BITPIX  = 8|NAXIS   = 0|END|#XTENSION= 'IMAGE'|BITPIX  = 8|NAXIS   = 1|NAXIS1  = 0|GROUPS  = T|END|#",
            notes: b"refused: 11 NoImage\n",
            taken: 5760,
        },
    ];
    compare_all_refused(&rt, rt.alloc(), cases)
}

#[test]
fn odd_headers_are_read(rt: HostRuntime) -> Result<(), Fail> {
    let cases: &[ReadFile] = &[
        ReadFile {
            hdu: "0",
            cards: b"SIMPLE  = T|BITPIX  = 8|NAXIS   = 2|NAXIS1  = 1|NAXIS2  = 1|PCOUNT  = 'x'|END|#0",
            lines: b"0 48 0 - 1\n",
            taken: 2881,
        },
        ReadFile {
            hdu: "0",
            cards: b"SIMPLE  = T|BITPIX  = 8|NAXIS   = 2|NAXIS1  = 1|NAXIS2  = 1|BZERO   = 32768.000000000000000000000000000000000000000000000000000000000000|END|#0",
            lines: b"0 32816 0 - 1\n",
            taken: 2881,
        },
        ReadFile {
            hdu: "0",
            cards: b"SIMPLE  = T|BITPIX  = 8|NAXIS   = 2|NAXIS1  = 1|NAXIS2  = 1|BZERO   = 0E99999999999999999999|END|#0",
            lines: b"0 48 0 - 1\n",
            taken: 2881,
        },
        ReadFile {
            hdu: "0",
            cards: b"SIMPLE  = T|BITPIX  = 8|NAXIS   = 2|NAXIS1  = 1|NAXIS2  = 1|BZERO   = 4294967296|END|#0",
            lines: b"0 4294967344 0 - 1\n",
            taken: 2881,
        },
        ReadFile {
            hdu: "0",
            cards: b"SIMPLE  = T|BITPIX  = 8|NAXIS   = 2|NAXIS1  = 1|NAXIS2  = 1|BLANK   = 304|END|#0",
            lines: b"0 48 0 - 1\n",
            taken: 2881,
        },
    ];
    compare_all_read(&rt, rt.alloc(), cases)
}

#[test]
fn odd_extensions_are_read(rt: HostRuntime) -> Result<(), Fail> {
    let cases: &[ReadFile] = &[
        ReadFile {
            hdu: "1",
            cards: b"SIMPLE  = T|BITPIX  = 8|NAXIS   = 0|END|#XTENSION= 'IMAGE'|BITPIX  = 8|NAXIS   = 2|NAXIS1  = 1|NAXIS2  = 1|PCOUNT  = 0|GCOUNT  = 1|PCOUNT  = 'x'|END|#0",
            lines: b"0 48 0 - 1\n",
            taken: 5761,
        },
        ReadFile {
            hdu: "1",
            cards: b"SIMPLE  = T|BITPIX  = 8|NAXIS   = 0|END|#XTENSION= 'IMAGE'|BITPIX  = 8|NAXIS   = 2|NAXIS1  = 1|NAXIS2  = 1|GROUPS  = T|END|#0",
            lines: b"0 48 0 - 1\n",
            taken: 5761,
        },
        ReadFile {
            hdu: "0",
            cards: b"SIMPLE  = T|BITPIX  = 8|NAXIS   = 2|NAXIS1  = 3|NAXIS2  = 1|GROUPS  = T|END|#000",
            lines: b"0 48 0 - 3\n",
            taken: 2883,
        },
        ReadFile {
            hdu: "2",
            cards: b"SIMPLE  = T|BITPIX  = 8|NAXIS   = 0|END|#XTENSION= 'IMAGE'|BITPIX  = 8|NAXIS   = 2|NAXIS1  = 1|NAXIS2  = 1|GCOUNT  = 2|END|#00#XTENSION= 'IMAGE'|BITPIX  = 8|NAXIS   = 2|NAXIS1  = 1|NAXIS2  = 1|END|#0",
            lines: b"0 48 0 - 1\n",
            taken: 11521,
        },
        ReadFile {
            hdu: "2",
            cards: b"SIMPLE  = T|BITPIX  = 8|NAXIS   = 0|END|#XTENSION= 'IMAGE'|BITPIX  = 8|NAXIS   = 2|NAXIS1  = 1|NAXIS2  = 1|PCOUNT  = 8|END|#000000000#XTENSION= 'IMAGE'|BITPIX  = 8|NAXIS   = 2|NAXIS1  = 1|NAXIS2  = 1|END|#0",
            lines: b"0 48 0 - 1\n",
            taken: 11521,
        },
    ];
    compare_all_read(&rt, rt.alloc(), cases)
}

// These cards, so many comments, this last card, and a block of one pixel.
fn long_header(alloc: Global, cards: &[u8], comments: u32, last: &[u8]) -> Result<Vec<u8>, Fail> {
    let mut bytes = file(alloc, cards, b"")?;
    for _ in 0..comments {
        bytes.extend_from_slice(
            b"COMMENT one of many cards of a header that has no end before its last block is .",
        )?;
    }
    append(&mut bytes, last, &[0])?;
    Ok(bytes)
}

#[test]
fn a_header_has_at_most_36000_cards(rt: HostRuntime) -> Result<(), Fail> {
    let alloc = rt.alloc();
    let cards = b"SIMPLE  = T|BITPIX  = 8|NAXIS   = 2|NAXIS1  = 1|NAXIS2  = 1|";
    let longest = long_header(alloc, cards, 35_994, b"END|#")?;
    compare(&rt, alloc, "0", &longest, b"0 0 0 - 1\n", b"", 2_880_001)?;
    let too_long = long_header(alloc, cards, 35_995, b"END|#")?;
    let note = b"refused: 4 HeaderTooLong\n";
    compare(&rt, alloc, "0", &too_long, b"", note, 2_880_000)
}

#[test]
fn a_count_at_fault_goes_before_too_many_cards(rt: HostRuntime) -> Result<(), Fail> {
    let alloc = rt.alloc();
    let cards =
        b"SIMPLE  = T|BITPIX  = 8|NAXIS   = 0|END|#XTENSION= 'IMAGE'|BITPIX  = 8|NAXIS   = 0|";
    let bytes = long_header(alloc, cards, 35_996, b"PCOUNT  = 'x'|#")?;
    let note = b"refused: 3 BadKeyword hdu 1 card 36000\n";
    compare(&rt, alloc, "1", &bytes, b"", note, 2_882_880)
}

// A frame as a camera writes it: 2048 x 2048 pixels of 16 bits, all with the stored number 0, and a header of two blocks.
fn frame(alloc: Global) -> Result<Vec<u8>, Fail> {
    let mut bytes = file(
        alloc,
        b"SIMPLE  = T|BITPIX  = 16|NAXIS   = 2|NAXIS1  = 2048|NAXIS2  = 2048|BSCALE  = 1|BZERO   = 32768|DATE-OBS= '2026-01-01'|",
        b"",
    )?;
    for _ in 0..31 {
        append(&mut bytes, b"COMMENT|", b"")?;
    }
    append(&mut bytes, b"END|#", b"")?;
    for _ in 0..2048 {
        bytes.extend_from_slice(&[0; 4096])?;
    }
    Ok(bytes)
}

#[test]
fn an_ordinary_frame_has_one_node(rt: HostRuntime) -> Result<(), Fail> {
    let alloc = rt.alloc();
    let bytes = frame(alloc)?;
    assert_eq!(rt; bytes.len(), 8_394_368);
    let cases: &[Meshed] = &[
        Meshed {
            mesh: "0",
            lines: b"0 32768 0 - 4194304\n",
        },
        Meshed {
            mesh: "64",
            lines: b"0 0 0 - 4194304\n",
        },
    ];
    for case in cases {
        let words = [
            "tree",
            "--connect",
            "8",
            "--strips",
            "16",
            "--workers",
            "4",
            "--mesh",
            case.mesh,
        ];
        let outcome = run_in_memory(&rt, alloc, &words, &bytes, 99, NONE_FAILS)?;
        assert_eq!(rt; outcome.status, 0);
        assert_eq!(rt; outcome.output.as_slice(), case.lines);
        assert_eq!(rt; outcome.left, 0);
    }
    Ok(())
}

#[test]
fn an_ordinary_frame_has_no_source(rt: HostRuntime) -> Result<(), Fail> {
    let alloc = rt.alloc();
    let bytes = frame(alloc)?;
    let words = ["detect", "--threshold", "10", "--mesh", "64"];
    let outcome = run_in_memory(&rt, alloc, &words, &bytes, 16_800_000, NONE_FAILS)?;
    assert_eq!(rt; outcome.status, 0);
    assert_eq!(rt; outcome.output.len(), 16_790_400);
    Ok(())
}
