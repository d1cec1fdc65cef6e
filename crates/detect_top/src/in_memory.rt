//! Runs in memory, and the files that they read. For tests alone.

use crate::run_all;
use dev_io::{BLOCK, MemSink, MemSource};
use std::alloc::Global;
use std::process::Abort;
use std::test::Fail;
use std::thread::Threads;
use strip_crew::OpenGate;

// The bytes that a take moves at most.
const PIECE: usize = 1000;

/// Room for what is written of a few pixels.
pub(crate) const ROOM: usize = 17_280;

/// Which takes of the input and which calls of the output and of the notes fail, by their numbers from 1, and how many bytes of its piece a call that
/// fails keeps, on the output and on the notes.
#[derive(Clone, Copy)]
pub(crate) struct Failing<'a> {
    pub(crate) takes: &'a [u32],
    pub(crate) puts: &'a [u32],
    pub(crate) kept: usize,
    pub(crate) notes: &'a [u32],
    pub(crate) notes_kept: usize,
}

/// No device fails.
pub(crate) const NONE_FAILS: Failing<'static> = Failing {
    takes: &[],
    puts: &[],
    kept: 0,
    notes: &[],
    notes_kept: 0,
};

/// What came of a run: its status, what it wrote, and how many bytes of the input it left.
#[derive(Drop)]
pub(crate) struct Outcome {
    pub(crate) status: u8,
    pub(crate) output: Vec<u8>,
    pub(crate) notes: Vec<u8>,
    pub(crate) left: usize,
}

/// A run, and all that it must show.
#[derive(Clone, Copy)]
pub(crate) struct Row<'a> {
    pub(crate) words: &'a [&'a str],
    pub(crate) header: &'a [u8],
    pub(crate) data: &'a [u8],
    pub(crate) status: u8,
    pub(crate) output: &'a [u8],
    pub(crate) notes: &'a [u8],
    pub(crate) taken: usize,
}

// Fills the last piece of this size with this byte.
fn fill(bytes: &mut Vec<u8>, size: usize, byte: u8) -> Result<(), Fail> {
    for _ in 0..BLOCK {
        if size == 0 || bytes.len() % size == 0 {
            return Ok(());
        }
        bytes.push(byte)?;
    }
    Ok(())
}

/// Appends the bytes of this text, in which a bar ends a card and a number sign a block, and the data behind them.
pub(crate) fn append(bytes: &mut Vec<u8>, header: &[u8], data: &[u8]) -> Result<(), Fail> {
    for byte in header {
        match *byte {
            b'|' => fill(bytes, 80, b' ')?,
            b'#' => fill(bytes, BLOCK, b' ')?,
            other => bytes.push(other)?,
        }
    }
    bytes.extend_from_slice(data)?;
    Ok(())
}

/// Appends these cards, each filled up with spaces.
pub(crate) fn append_cards(bytes: &mut Vec<u8>, cards: &[&[u8]]) -> Result<(), Fail> {
    for card in cards {
        bytes.extend_from_slice(card)?;
        fill(bytes, 80, b' ')?;
    }
    Ok(())
}

/// Appends an HDU as a run writes it: these cards, and the data in these pieces, each of the two in whole blocks.
pub(crate) fn append_hdu(bytes: &mut Vec<u8>, cards: &[&[u8]], data: &[&[u8]]) -> Result<(), Fail> {
    append_cards(bytes, cards)?;
    fill(bytes, BLOCK, b' ')?;
    for piece in data {
        bytes.extend_from_slice(piece)?;
    }
    fill(bytes, BLOCK, 0)
}

/// A primary HDU with one row of five pixels, and behind it what this text and these data say.
pub(crate) fn file_of_two(alloc: Global, header: &[u8], data: &[u8]) -> Result<Vec<u8>, Fail> {
    let first = b"SIMPLE  = T|BITPIX  = 8|NAXIS   = 2|NAXIS1  = 5|NAXIS2  = 1|END|#".as_slice();
    let mut bytes = Vec::new(alloc);
    append(&mut bytes, first, &[1, 6, 2, 5, 1])?;
    append(&mut bytes, header, data)?;
    Ok(bytes)
}

/// A file of this text and these data.
pub(crate) fn file(alloc: Global, header: &[u8], data: &[u8]) -> Result<Vec<u8>, Fail> {
    let mut bytes = Vec::new(alloc);
    append(&mut bytes, header, data)?;
    Ok(bytes)
}

/// Runs these words over these bytes, with room for so many bytes of output.
pub(crate) fn run_in_memory<R: Threads + Sync>(
    rt: &R,
    alloc: Global,
    words: &[&str],
    bytes: &[u8],
    room: usize,
    failing: Failing,
) -> Result<Outcome, Fail> {
    let mut input = MemSource::new(bytes, PIECE, failing.takes);
    let mut output = MemSink::new(vec![in alloc; 0; room]?, failing.puts, failing.kept);
    let mut notes = MemSink::new(vec![in alloc; 0; 99]?, failing.notes, failing.notes_kept);
    let status = run_all(
        rt,
        alloc,
        words,
        &mut input,
        &mut output,
        &mut notes,
        &OpenGate,
    );
    Ok(Outcome {
        status,
        output: output.bytes().to_vec(alloc)?,
        notes: notes.bytes().to_vec(alloc)?,
        left: input.rest().len(),
    })
}

/// Compares the status and what stands on the notes.
pub(crate) fn compare_end(rt: &impl Abort, found: &Outcome, status: u8, notes: &[u8]) {
    assert_eq!(rt; found.status, status);
    assert_eq!(rt; found.notes.as_slice(), notes);
}

/// Compares what stands on the output.
pub(crate) fn compare_output(rt: &impl Abort, found: &Outcome, output: &[u8]) {
    assert_eq!(rt; found.output.as_slice(), output);
}

/// Compares how many bytes a run took of so many.
pub(crate) fn compare_taken(rt: &impl Abort, found: &Outcome, len: usize, taken: usize) {
    assert_eq!(rt; len - found.left.min(len), taken);
}

/// Makes a row's run, and compares all that can be seen.
pub(crate) fn compare<R: Threads + Sync + Abort>(
    rt: &R,
    alloc: Global,
    row: Row,
) -> Result<(), Fail> {
    let bytes = file(alloc, row.header, row.data)?;
    let outcome = run_in_memory(rt, alloc, row.words, &bytes, ROOM, NONE_FAILS)?;
    compare_end(rt, &outcome, row.status, row.notes);
    compare_output(rt, &outcome, row.output);
    compare_taken(rt, &outcome, bytes.len(), row.taken);
    Ok(())
}

/// Makes each row's run, and compares all that can be seen.
pub(crate) fn compare_rows<R: Threads + Sync + Abort>(
    rt: &R,
    alloc: Global,
    rows: &[Row],
) -> Result<(), Fail> {
    for row in rows {
        compare(rt, alloc, *row)?;
    }
    Ok(())
}
