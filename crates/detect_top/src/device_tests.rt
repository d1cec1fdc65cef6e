//! Each call of each device failing in turn.
use crate::in_memory::{
    Failing, NONE_FAILS, Outcome, ROOM, compare_end, compare_output, file, run_in_memory,
};
use std::alloc::Global;
use std::process::Abort;
use std::test::Fail;
use std::thread::Threads;

// The words of a run, and the file that it reads.
#[derive(Clone, Copy)]
struct Command<'a> {
    words: &'a [&'a str],
    header: &'a [u8],
    pixels: &'a [u8],
}

const TREE: Command<'static> = Command {
    words: &["tree"],
    header: b"SIMPLE  = T|BITPIX  = 8|NAXIS   = 2|NAXIS1  = 3|NAXIS2  = 1|END|#",
    pixels: &[1, 2, 1],
};

const DETECT: Command<'static> = Command {
    words: &["detect", "--threshold", "2", "--contrast", "300"],
    header: b"SIMPLE  = T|BITPIX  = 8|NAXIS   = 2|NAXIS1  = 5|NAXIS2  = 1|END|#",
    pixels: &[1, 6, 2, 5, 1],
};

const FILTER: Command<'static> = Command {
    words: &[
        "filter",
        "--rule",
        "direct",
        "--min-area",
        "2",
        "--max-area",
        "2",
    ],
    header: b"SIMPLE  = T|BITPIX  = 8|NAXIS   = 2|NAXIS1  = 5|NAXIS2  = 1|END|#",
    pixels: &[0, 1, 3, 2, 0],
};

// An image that is refused.
const SCALED: Command<'static> = Command {
    words: &["tree"],
    header: b"SIMPLE  = T|BITPIX  = 8|NAXIS   = 2|NAXIS1  = 1|NAXIS2  = 1|BSCALE  = 2|END|#",
    pixels: &[0],
};

// More calls than any of these runs makes.
const MANY: u32 = 60;

// A call of the notes that fails, how many bytes it keeps, and what stands on the notes then.
#[derive(Clone, Copy)]
struct FailingNotes<'a> {
    call: u32,
    kept: usize,
    notes: &'a [u8],
}

// The run of this command.
fn outcome<R: Threads + Sync>(
    rt: &R,
    alloc: Global,
    command: Command,
    failing: Failing,
) -> Result<Outcome, Fail> {
    let bytes = file(alloc, command.header, command.pixels)?;
    run_in_memory(rt, alloc, command.words, &bytes, ROOM, failing)
}

// What stands on the output is a front of the whole one.
fn compare_front(rt: &impl Abort, whole: &Outcome, found: &Outcome) {
    assert!(rt; whole.output.as_slice().starts_with(&found.output));
}

// Lets each take fail in turn, until a run has none that does. It gives the number of takes.
fn fail_each_take<R: Threads + Sync + Abort>(
    rt: &R,
    alloc: Global,
    command: Command,
) -> Result<u32, Fail> {
    for call in 1..MANY {
        let failing = Failing {
            takes: &[call],
            ..NONE_FAILS
        };
        let found = outcome(rt, alloc, command, failing)?;
        if found.status == 0 {
            return Ok(call - 1);
        }
        compare_end(rt, &found, 3, b"read fault\n");
        compare_output(rt, &found, b"");
    }
    Ok(MANY)
}

// Lets each call of the output fail in turn, which keeps so many bytes. It gives the number of calls.
fn fail_each_put<R: Threads + Sync + Abort>(
    rt: &R,
    alloc: Global,
    command: Command,
    kept: usize,
) -> Result<u32, Fail> {
    let whole = outcome(rt, alloc, command, NONE_FAILS)?;
    for call in 1..MANY {
        let failing = Failing {
            puts: &[call],
            kept,
            ..NONE_FAILS
        };
        let found = outcome(rt, alloc, command, failing)?;
        compare_front(rt, &whole, &found);
        if found.status == 0 {
            compare_output(rt, &found, &whole.output);
            return Ok(call - 1);
        }
        compare_end(rt, &found, 4, b"write fault\n");
    }
    Ok(MANY)
}

// Seven takes for the cards of the header, two for the rest of its block, and one for the pixels.
#[test]
fn each_take_that_fails_ends_the_run(rt: HostRuntime) -> Result<(), Fail> {
    let detect = fail_each_take(&rt, rt.alloc(), DETECT)?;
    let filter = fail_each_take(&rt, rt.alloc(), FILTER)?;
    assert_eq!(rt; (detect, filter), (10, 10));
    Ok(())
}

// Six blocks and the last call, `done`.
#[test]
fn each_put_that_fails_ends_a_detection(rt: HostRuntime) -> Result<(), Fail> {
    for kept in [0, 1, 2880] {
        assert_eq!(rt; fail_each_put(&rt, rt.alloc(), DETECT, kept)?, 7);
    }
    Ok(())
}

// The second call's piece is the map's header, of which ten bytes come through.
#[test]
fn a_front_of_the_output_stands(rt: HostRuntime) -> Result<(), Fail> {
    let whole = outcome(&rt, rt.alloc(), DETECT, NONE_FAILS)?;
    let failing = Failing {
        puts: &[2],
        kept: 10,
        ..NONE_FAILS
    };
    let found = outcome(&rt, rt.alloc(), DETECT, failing)?;
    compare_end(&rt, &found, 4, b"write fault\n");
    compare_front(&rt, &whole, &found);
    assert_eq!(rt; found.output.len(), 2890);
    Ok(())
}

#[test]
fn each_put_that_fails_ends_a_filtering(rt: HostRuntime) -> Result<(), Fail> {
    for kept in [0, 1, 2880] {
        assert_eq!(rt; fail_each_put(&rt, rt.alloc(), FILTER, kept)?, 3);
    }
    Ok(())
}

// Whatever becomes of the line, the status is that of the refusal. The first call has the line, and the second is `done`.
#[test]
fn failing_notes_leave_a_refusal(rt: HostRuntime) -> Result<(), Fail> {
    let cases: &[FailingNotes] = &[
        FailingNotes {
            call: 1,
            kept: 0,
            notes: b"",
        },
        FailingNotes {
            call: 1,
            kept: 1,
            notes: b"r",
        },
        FailingNotes {
            call: 2,
            kept: 0,
            notes: b"refused: 14 Bscale\n",
        },
        FailingNotes {
            call: 3,
            kept: 0,
            notes: b"refused: 14 Bscale\n",
        },
    ];
    for case in cases {
        let failing = Failing {
            notes: &[case.call],
            notes_kept: case.kept,
            ..NONE_FAILS
        };
        let found = outcome(&rt, rt.alloc(), SCALED, failing)?;
        compare_end(&rt, &found, 2, case.notes);
        compare_output(&rt, &found, b"");
    }
    Ok(())
}

#[test]
fn failing_notes_leave_an_output(rt: HostRuntime) -> Result<(), Fail> {
    let alloc = rt.alloc();
    for command in [TREE, DETECT] {
        let whole = outcome(&rt, alloc, command, NONE_FAILS)?;
        assert_eq!(rt; whole.status, 0);
        for call in 1..4 {
            let failing = Failing {
                notes: &[call],
                ..NONE_FAILS
            };
            let found = outcome(&rt, alloc, command, failing)?;
            compare_end(&rt, &found, 0, b"");
            compare_output(&rt, &found, &whole.output);
        }
    }
    Ok(())
}
