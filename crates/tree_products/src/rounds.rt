//! The lines of nodes, round by round: threads make the texts of a round, which are then written one behind the other.
ghost use Rattle.std.specs.Prelude.{◌≡◌, ◌<◌, ◌≤◌, ◌++◌, length, map, OnOk, OnErr};
ghost use Rattle.std.specs.List.{concat};
ghost use Rattle.dev_io.specs.Causes.{HasCause};
ghost use Rattle.dev_io.specs.Streams.{PutAppends, AppendsPrefix};
ghost use Rattle.dev_io.specs.Blocks.{Moves};
ghost use Rattle.tree_products.specs.Lines.{tree_lines};
ghost use Rattle.tree_products.specs.LineStretches.{lines_between};

use crate::lines::add_lines;
use crate::texts::texts;
use comp_tree::NodeRow;
use dev_io::{BLOCK, Block, Failed, Sink};
use std::alloc::Global;
use std::thread::Threads;

// Lets a text wait, which may be longer than a block.
fn add_text<O: Sink>(sink: &mut O, block: &mut Block, text: &[u8]) -> Result<(), Failed>
    ensures ok { OnOk result (Moves (O.written sink.old) (O.written sink.new)
        (block.old ++ text.now) block.new) }
    ensures err { OnErr result (AppendsPrefix (O.written sink.old) (O.written sink.new)
        (block.old ++ text.now)) }
    ensures cause { HasCause (O.faults sink.old) (O.faults sink.new) result }
{
    let mut first = 0;
    while first < text.len() {
        let count = (text.len() - first).min(BLOCK);
        if let Err(failed) = block.add(sink, &text[first..first + count]) {
            return Err(failed);
        }
        first += count;
    }
    Ok(())
}

// Lets some texts wait, one behind the other.
fn add_texts<O: Sink>(sink: &mut O, block: &mut Block, texts: &[Vec<u8>]) -> Result<(), Failed>
    ensures ok { OnOk result (Moves (O.written sink.old) (O.written sink.new)
        (block.old ++ concat (map (λ text. text.items) texts.now)) block.new) }
    ensures err { OnErr result (AppendsPrefix (O.written sink.old) (O.written sink.new)
        (block.old ++ concat (map (λ text. text.items) texts.now))) }
    ensures cause { HasCause (O.faults sink.old) (O.faults sink.new) result }
{
    for text in texts {
        if let Err(failed) = add_text(sink, block, text) {
            return Err(failed);
        }
    }
    Ok(())
}

// Lets the lines of a round wait, those of the nodes from `first` up to `end`. Where memory for their texts is refused, they are made one
// by one: the output has begun, so that can't be the answer.
fn add_round<R: Threads + Sync, O: Sink>(
    rt: &R,
    alloc: Global,
    sink: &mut O,
    block: &mut Block,
    rows: &[NodeRow],
    areas: &[u32],
    first: usize,
    end: usize,
    size: usize,
) -> Result<(), Failed>
    requires one_each { length areas.now ≡ length rows.now }
    requires order { first ≤ end }
    requires inside { end ≤ length rows.now }
    requires some { 0 < size }
    ensures ok { OnOk result (Moves (O.written sink.old) (O.written sink.new)
        (block.old ++ lines_between rows.now areas.now first end) block.new) }
    ensures err { OnErr result (AppendsPrefix (O.written sink.old) (O.written sink.new)
        (block.old ++ lines_between rows.now areas.now first end)) }
    ensures cause { HasCause (O.faults sink.old) (O.faults sink.new) result }
{
    match texts(rt, alloc, rows, areas, first, end, size) {
        Ok(texts) => add_texts(sink, block, &texts),
        Err(_) => add_lines(sink, block, rows, areas, first, end),
    }
}

// Writes the lines of all nodes, in rounds of `round` lines, of which each thread makes `size`; either may be fewer at the end.
pub(crate) fn put_in_rounds<R: Threads + Sync, O: Sink>(
    rt: &R,
    alloc: Global,
    sink: &mut O,
    rows: &[NodeRow],
    areas: &[u32],
    size: usize,
    round: usize,
) -> Result<(), Failed>
    requires one_each { length areas.now ≡ length rows.now }
    requires some { 0 < size }
    requires some_in_round { 0 < round }
    ensures bytes { PutAppends (O.written sink.old) (O.written sink.new) result
        (tree_lines rows.now areas.now) }
    ensures cause { HasCause (O.faults sink.old) (O.faults sink.new) result }
{
    let mut block = Block::new();
    let mut first = 0;
    while first < rows.len() {
        let end = first + round.min(rows.len() - first);
        if let Err(failed) = add_round(rt, alloc, sink, &mut block, rows, areas, first, end, size) {
            return Err(failed);
        }
        first = end;
    }
    block.flush(sink)
}
