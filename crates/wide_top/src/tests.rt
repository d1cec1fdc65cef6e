//! An image of one row, 5 0 5, in two tiles and as a whole, and one that has pixels without a value.
use crate::run_wide;
use dev_io::{BLOCK, MemSink, MemSource};
use pixel_plane::Limits;
use std::alloc::Global;
use std::test::Fail;
use std::thread::Threads;
use strip_crew::OpenGate;

// What came of a run.
#[derive(Drop)]
struct Outcome {
    status: u8,
    output: Vec<u8>,
    notes: Vec<u8>,
}

// Fills the last piece of this size with spaces.
fn fill(bytes: &mut Vec<u8>, size: usize) -> Result<(), Fail> {
    for _ in 0..BLOCK {
        if size == 0 || bytes.len() % size == 0 {
            return Ok(());
        }
        bytes.push(b' ')?;
    }
    Ok(())
}

// A file with one row of pixels, as many as this card says; 255 stands for one without a value.
fn file(alloc: Global, width: &[u8], pixels: &[u8]) -> Result<Vec<u8>, Fail> {
    let cards: [&[u8]; 7] = [
        b"SIMPLE  = T",
        b"BITPIX  = 8",
        b"NAXIS   = 2",
        width,
        b"NAXIS2  = 1",
        b"BLANK   = 255",
        b"END",
    ];
    let mut bytes = Vec::new(alloc);
    for card in cards {
        bytes.extend_from_slice(card)?;
        fill(&mut bytes, 80)?;
    }
    fill(&mut bytes, BLOCK)?;
    bytes.extend_from_slice(pixels)?;
    Ok(bytes)
}

fn run<R: Threads + Sync>(
    rt: &R,
    alloc: Global,
    words: &[&str],
    bytes: &[u8],
) -> Result<Outcome, Fail> {
    let mut input = MemSource::new(bytes, 1000, &[]);
    let mut output = MemSink::new(vec![in alloc; 0; 8 * BLOCK]?, &[], 0);
    let mut notes = MemSink::new(vec![in alloc; 0; 99]?, &[], 0);
    let status = run_wide(
        rt,
        alloc,
        words,
        &Limits::wide(),
        &mut input,
        &mut output,
        &mut notes,
        &OpenGate,
    );
    Ok(Outcome {
        status,
        output: output.bytes().to_vec(alloc)?,
        notes: notes.bytes().to_vec(alloc)?,
    })
}

// The tile of the first pixel, from the window of the first two.
fn first_tile<R: Threads + Sync>(rt: &R, alloc: Global) -> Result<Outcome, Fail> {
    let words = [
        "tile",
        "--whole",
        "3",
        "1",
        "--window",
        "0",
        "0",
        "2",
        "1",
        "--core",
        "0",
        "0",
        "1",
        "1",
        "detect",
        "--threshold",
        "3",
    ];
    run(rt, alloc, &words, &file(alloc, b"NAXIS1  = 2", &[5, 0])?)
}

// The tile of the two others, from their own window.
fn second_tile<R: Threads + Sync>(rt: &R, alloc: Global) -> Result<Outcome, Fail> {
    let words = [
        "tile",
        "--whole",
        "3",
        "1",
        "--window",
        "1",
        "0",
        "2",
        "1",
        "--core",
        "1",
        "0",
        "2",
        "1",
        "detect",
        "--threshold",
        "3",
    ];
    run(rt, alloc, &words, &file(alloc, b"NAXIS1  = 2", &[0, 5])?)
}

#[test]
fn tiles_that_are_joined_are_the_whole(rt: HostRuntime) -> Result<(), Fail> {
    let alloc = rt.alloc();
    let mut tiles = second_tile(&rt, alloc)?.output;
    tiles.extend_from_slice(&first_tile(&rt, alloc)?.output)?;
    let joined = run(&rt, alloc, &["join"], &tiles)?;
    assert_eq!(rt; joined.status, 0);
    let whole = file(alloc, b"NAXIS1  = 3", &[5, 0, 5])?;
    let detected = run(&rt, alloc, &["detect", "--threshold", "3"], &whole)?;
    assert_eq!(rt; detected.status, 0);
    assert!(rt; joined.output.as_slice() == detected.output.as_slice());
    Ok(())
}

// The tile of the first three of ten pixels, from the window of the first six, whose own median is 7. The image's is 0.
fn front_tile<R: Threads + Sync>(rt: &R, alloc: Global) -> Result<Outcome, Fail> {
    let words = [
        "tile",
        "--whole",
        "10",
        "1",
        "--window",
        "0",
        "0",
        "6",
        "1",
        "--core",
        "0",
        "0",
        "3",
        "1",
        "--empty-cells",
        "0",
        "detect",
        "--threshold",
        "3",
        "--mesh",
        "1",
    ];
    let window = file(alloc, b"NAXIS1  = 6", &[9, 0, 7, 255, 255, 8])?;
    run(rt, alloc, &words, &window)
}

// The tile of the others, from the window of the last eight.
fn back_tile<R: Threads + Sync>(rt: &R, alloc: Global) -> Result<Outcome, Fail> {
    let words = [
        "tile",
        "--whole",
        "10",
        "1",
        "--window",
        "2",
        "0",
        "8",
        "1",
        "--core",
        "3",
        "0",
        "7",
        "1",
        "--empty-cells",
        "0",
        "detect",
        "--threshold",
        "3",
        "--mesh",
        "1",
    ];
    let window = file(alloc, b"NAXIS1  = 8", &[7, 255, 255, 8, 0, 0, 0, 0])?;
    run(rt, alloc, &words, &window)
}

#[test]
fn tiles_with_empty_cells_are_joined_by_their_number(rt: HostRuntime) -> Result<(), Fail> {
    let alloc = rt.alloc();
    let mut tiles = front_tile(&rt, alloc)?.output;
    tiles.extend_from_slice(&back_tile(&rt, alloc)?.output)?;
    let joined = run(&rt, alloc, &["join"], &tiles)?;
    assert_eq!(rt; joined.status, 0);
    let whole = file(alloc, b"NAXIS1  = 10", &[9, 0, 7, 255, 255, 8, 0, 0, 0, 0])?;
    let words = ["detect", "--threshold", "3", "--mesh", "1"];
    let detected = run(&rt, alloc, &words, &whole)?;
    assert_eq!(rt; detected.status, 0);
    assert!(rt; joined.output.as_slice() == detected.output.as_slice());
    Ok(())
}

#[test]
fn a_tile_alone_leaves_a_gap(rt: HostRuntime) -> Result<(), Fail> {
    let alloc = rt.alloc();
    let tile = first_tile(&rt, alloc)?.output;
    let joined = run(&rt, alloc, &["join"], &tile)?;
    assert_eq!(rt; joined.status, 2);
    assert_eq!(rt;
        joined.notes.as_slice(),
        b"refused: 34 CoreGap pixel 1\n".as_slice()
    );
    assert!(rt; joined.output.is_empty());
    Ok(())
}
