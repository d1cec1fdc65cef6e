//! The lines of nodes as texts in memory, made by threads.
ghost use Rattle.std.specs.Prelude.{◌≡◌, ◌+◌, ◌*◌, ◌<◌, ◌≤◌, length, map, IfOk};
ghost use Rattle.std.specs.List.{concat};
ghost use Rattle.dev_io.specs.Causes.{HasCause};
ghost use Rattle.dev_io.specs.Streams.{PutAppends};
ghost use Rattle.tree_products.specs.LineStretches.{lines_between, lines_of_stretch};

use crate::lines::put_lines;
use comp_tree::NodeRow;
use costs::OutOfMemory;
use dev_io::{Failed, Sink};
use std::alloc::Global;
use std::thread;
use std::thread::Threads;

// A sink into memory that grows. It fails where memory for a piece is refused, and then has nothing of that piece.
#[derive(Drop)]
struct GrowingSink {
    bytes: Vec<u8>,
    settled: bool,
    faults: u64,
}

impl Sink for GrowingSink {
    ghost use Rattle.std.specs.Prelude.{Some};

    ghost written = { λ s. Some s.bytes.items };

    ghost settled = { λ s. s.settled };

    ghost faults = { λ s. s.faults };

    fn put(&mut self, piece: &[u8]) -> Result<(), Failed> {
        self.settled = false;
        match self.bytes.extend_from_slice(piece) {
            Ok(()) => Ok(()),
            Err(_) => {
                self.faults = self.faults.saturating_add(1);
                Err(Failed)
            }
        }
    }

    fn done(&mut self) -> Result<(), Failed> {
        self.settled = true;
        Ok(())
    }
}

// The lines of the nodes from `first` up to `end`.
fn text_between(
    alloc: Global,
    rows: &[NodeRow],
    areas: &[u32],
    first: usize,
    end: usize,
) -> Result<Vec<u8>, OutOfMemory>
    requires one_each { length areas.now ≡ length rows.now }
    requires order { first ≤ end }
    requires inside { end ≤ length rows.now }
    ensures { IfOk result (λ text. text.items ≡ lines_between rows.now areas.now first end) }
{
    let mut sink = GrowingSink {
        bytes: Vec::new(alloc),
        settled: false,
        faults: 0,
    };
    match put_lines(&mut sink, rows, areas, first, end) {
        Ok(()) => Ok(sink.bytes),
        Err(_) => Err(OutOfMemory),
    }
}

// The lines of the stretch with this number, where each stretch has `size` lines, or fewer at the end.
fn text_of_stretch(
    alloc: Global,
    rows: &[NodeRow],
    areas: &[u32],
    first: usize,
    end: usize,
    size: usize,
    number: usize,
) -> Result<Vec<u8>, OutOfMemory>
    requires one_each { length areas.now ≡ length rows.now }
    requires inside { end ≤ length rows.now }
    requires some { 0 < size }
    requires begins { first + number * size < end }
    ensures { IfOk result (λ text. text.items ≡ lines_of_stretch rows.now areas.now first end size number) }
{
    let begin = first + number * size;
    let stop = begin + size.min(end - begin);
    text_between(alloc, rows, areas, begin, stop)
}

// The lines of the nodes from `first` up to `end`, as texts of `size` lines each, or fewer in the last. Each text is made by a thread of
// its own, where there are several and threads can be made.
pub(crate) fn texts<R: Threads + Sync>(
    rt: &R,
    alloc: Global,
    rows: &[NodeRow],
    areas: &[u32],
    first: usize,
    end: usize,
    size: usize,
) -> Result<Vec<Vec<u8>>, OutOfMemory>
    requires one_each { length areas.now ≡ length rows.now }
    requires order { first ≤ end }
    requires inside { end ≤ length rows.now }
    requires some { 0 < size }
    ensures { IfOk result (λ texts. concat (map (λ text. text.items) texts.items) ≡ lines_between rows.now areas.now first end) }
{
    let made = thread::map_indices(
        rt,
        alloc,
        (end - first).div_ceil(size),
        &|number: usize| -> Result<Vec<u8>, OutOfMemory>
            requires { (length areas.now ≡ length rows.now)
                × (end ≤ length rows.now)
                × (0 < size)
                × (first + number * size < end) }
            ensures { IfOk result (λ text. text.items ≡ lines_of_stretch rows.entry.now areas.entry.now first end size number) }
        { text_of_stretch(alloc, rows, areas, first, end, size, number) },
    )?;
    let mut texts = Vec::new(alloc);
    for text in made {
        texts.push(text?)?;
    }
    Ok(texts)
}
