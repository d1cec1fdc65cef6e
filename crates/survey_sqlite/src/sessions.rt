//! Sessions over catalogues in memory, and all that they must show.

use crate::sample::{Sample, catalogues};
use dev_io::{MemSink, MemSource};
use std::alloc::Global;
use std::process::Abort;
use std::test::Fail;
use survey_core::{Keeper, run_survey};

/// What came of a session: its status, what it printed and noted, and how many bytes of the input it left.
#[derive(Drop)]
pub(crate) struct Outcome {
    pub(crate) status: u8,
    pub(crate) output: Vec<u8>,
    pub(crate) notes: Vec<u8>,
    pub(crate) left: usize,
}

/// A session and all that it must show. Its input is the front of these catalogues, `most` bytes at the most.
#[derive(Clone, Copy)]
pub(crate) struct Row<'a> {
    pub(crate) words: &'a [&'a str],
    pub(crate) samples: &'a [Sample<'a>],
    pub(crate) most: usize,
    pub(crate) status: u8,
    pub(crate) taken: usize,
    pub(crate) output: &'a [u8],
    pub(crate) notes: &'a [u8],
}

/// Runs a session over these bytes. It has no contract, so that a proof of its caller carries nothing of what a session tells.
pub(crate) fn session<K: Keeper>(
    alloc: Global,
    words: &[&str],
    bytes: &[u8],
    keeper: &mut K,
) -> Result<Outcome, Fail> {
    let mut input = MemSource::new(bytes, 1000, &[]);
    let mut output = MemSink::new(vec![in alloc; 0; 200]?, &[], 0);
    let mut notes = MemSink::new(vec![in alloc; 0; 99]?, &[], 0);
    let status = run_survey(alloc, words, &mut input, keeper, &mut output, &mut notes);
    Ok(Outcome {
        status,
        output: Vec::from_slice(alloc, output.bytes())?,
        notes: Vec::from_slice(alloc, notes.bytes())?,
        left: input.rest().len(),
    })
}

// The first of these bytes, so many at the most.
fn front(bytes: &[u8], count: usize) -> &[u8] {
    &bytes[..count.min(bytes.len())]
}

/// Makes a row's session over catalogues whose images have these cards, and compares all that can be seen.
pub(crate) fn compare<K: Keeper, R: Abort>(
    rt: &R,
    alloc: Global,
    map: &[&[u8]],
    keeper: &mut K,
    row: Row,
) -> Result<(), Fail> {
    let all = catalogues(alloc, map, row.samples)?;
    let bytes = front(&all, row.most);
    let outcome = session(alloc, row.words, bytes, keeper)?;
    assert_eq!(rt; outcome.status, row.status);
    assert_eq!(rt; bytes.len().saturating_sub(outcome.left), row.taken);
    assert_eq!(rt; outcome.output.as_slice(), row.output);
    assert_eq!(rt; outcome.notes.as_slice(), row.notes);
    Ok(())
}
