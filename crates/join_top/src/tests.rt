//! Runs of `join` that end before there is anything to join.
use crate::run_join;
use dev_io::{BLOCK, MemSink, MemSource};
use std::alloc::Global;
use std::test::Fail;

// What came of a run.
#[derive(Drop)]
struct Outcome {
    status: u8,
    output: Vec<u8>,
    notes: Vec<u8>,
}

fn run(alloc: Global, words: &[&str], bytes: &[u8]) -> Result<Outcome, Fail> {
    let mut input = MemSource::new(bytes, 1000, &[]);
    let mut output = MemSink::new(vec![in alloc; 0; 6 * BLOCK]?, &[], 0);
    let mut notes = MemSink::new(vec![in alloc; 0; 99]?, &[], 0);
    let status = run_join(alloc, words, &mut input, &mut output, &mut notes);
    Ok(Outcome {
        status,
        output: output.bytes().to_vec(alloc)?,
        notes: notes.bytes().to_vec(alloc)?,
    })
}

#[test]
fn no_tile_is_no_image(rt: HostRuntime) -> Result<(), Fail> {
    let found = run(rt.alloc(), &["join"], b"")?;
    assert_eq!(rt; found.status, 2);
    assert_eq!(rt;
        found.notes.as_slice(),
        b"refused: 30 NotTiles\n".as_slice()
    );
    Ok(())
}

#[test]
fn a_second_word_is_at_fault(rt: HostRuntime) -> Result<(), Fail> {
    let found = run(rt.alloc(), &["join", "join"], b"")?;
    assert_eq!(rt; found.status, 1);
    assert_eq!(rt; found.notes.as_slice(), b"usage: word 2\n".as_slice());
    Ok(())
}
