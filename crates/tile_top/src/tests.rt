//! Runs of `tile` over the first row of an image of two: 0 5 0 0 5 5 0 5, of which the window shows the columns from 2 on.
use crate::run_tile;
use dev_io::{BLOCK, MemSink, MemSource};
use pixel_plane::Limits;
use std::alloc::Global;
use std::process::Abort;
use std::test::Fail;
use std::thread::Threads;
use strip_crew::OpenGate;

const CARDS: [&[u8]; 6] = [
    b"SIMPLE  = T",
    b"BITPIX  = 8",
    b"NAXIS   = 2",
    b"NAXIS1  = 6",
    b"NAXIS2  = 1",
    b"END",
];

// What came of a run.
#[derive(Drop)]
struct Outcome {
    status: u8,
    output: Vec<u8>,
    notes: Vec<u8>,
}

// Fills the last piece of this size with spaces.
fn fill(bytes: &mut Vec<u8>, size: usize) -> Result<(), Fail> {
    for _ in 0..BLOCK {
        if size == 0 || bytes.len() % size == 0 {
            return Ok(());
        }
        bytes.push(b' ')?;
    }
    Ok(())
}

// The file of the window.
fn window(alloc: Global) -> Result<Vec<u8>, Fail> {
    let mut bytes = Vec::new(alloc);
    for card in CARDS {
        bytes.extend_from_slice(card)?;
        fill(&mut bytes, 80)?;
    }
    fill(&mut bytes, BLOCK)?;
    bytes.extend_from_slice(&[0, 0, 5, 5, 0, 5])?;
    Ok(bytes)
}

// Runs `tile` over the window, where the words say that it has so many rows.
fn run<R: Threads + Sync>(rt: &R, alloc: Global, rows: &str) -> Result<Outcome, Fail> {
    let words = [
        "tile",
        "--whole",
        "8",
        "2",
        "--window",
        "2",
        "0",
        "6",
        rows,
        "--core",
        "5",
        "0",
        "3",
        "1",
        "detect",
        "--threshold",
        "3",
    ];
    let bytes = window(alloc)?;
    let mut input = MemSource::new(&bytes, 1000, &[]);
    let mut output = MemSink::new(vec![in alloc; 0; 8 * BLOCK]?, &[], 0);
    let mut notes = MemSink::new(vec![in alloc; 0; 99]?, &[], 0);
    let status = run_tile(
        rt,
        alloc,
        &words,
        &Limits::wide(),
        &mut input,
        &mut output,
        &mut notes,
        &OpenGate,
    );
    Ok(Outcome {
        status,
        output: output.bytes().to_vec(alloc)?,
        notes: notes.bytes().to_vec(alloc)?,
    })
}

// Compares what stands on the output at a place.
fn compare_at(rt: &impl Abort, found: &Outcome, place: usize, bytes: &[u8]) {
    assert!(rt; found.output.len() >= place && found.output[place..].starts_with(bytes));
}

// The boxes of the image, the window and the core, the map of the window, and the number of the one row of the core: the second source.
#[test]
fn a_window_is_written_as_a_tile(rt: HostRuntime) -> Result<(), Fail> {
    let found = run(&rt, rt.alloc(), "1")?;
    assert_eq!(rt; found.status, 0);
    assert_eq!(rt; found.output.len(), 8 * BLOCK);
    let boxes = [
        0, 0, 0, 1, 0, 0, 0, 8, 0, 0, 0, 1, 0, 0, 0, 2, 0, 0, 0, 3, 0, 0, 0, 8,
    ];
    compare_at(&rt, &found, 2 * BLOCK, &boxes);
    compare_at(
        &rt,
        &found,
        4 * BLOCK,
        &[0, 0, 0, 0, 0, 0, 0, 0, 0, 0, 0, 1],
    );
    compare_at(&rt, &found, 7 * BLOCK, &[0, 0, 0, 2]);
    Ok(())
}

#[test]
fn an_image_of_another_shape_is_refused(rt: HostRuntime) -> Result<(), Fail> {
    let found = run(&rt, rt.alloc(), "2")?;
    assert_eq!(rt; found.status, 2);
    assert_eq!(rt;
        found.notes.as_slice(),
        b"refused: 19 ShapeDiffers\n".as_slice()
    );
    assert!(rt; found.output.is_empty());
    Ok(())
}

#[test]
fn a_window_beyond_the_image_is_a_usage(rt: HostRuntime) -> Result<(), Fail> {
    let found = run(&rt, rt.alloc(), "3")?;
    assert_eq!(rt; found.status, 1);
    assert_eq!(rt; found.notes.as_slice(), b"usage: word 5\n".as_slice());
    Ok(())
}
