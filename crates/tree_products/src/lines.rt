//! The lines of a tree.
ghost use Rattle.std.specs.Prelude.{◌≡◌, ◌≤◌, ◌++◌, length, OnOk, OnErr, IfOk};
ghost use Rattle.dev_io.specs.Causes.{HasCause};
ghost use Rattle.dev_io.specs.Streams.{PutAppends, AppendsPrefix};
ghost use Rattle.dev_io.specs.Blocks.{Moves};
ghost use Rattle.comp_tree.specs.declared.shape.Connect.{Connect};
ghost use Rattle.comp_tree.specs.Components.{tree_of};
ghost use Rattle.node_sums.specs.Sums.{IsTreeOfPlane};
ghost use Rattle.tree_products.specs.Lines.{parent_text as text_of_parent, node_line, tree_lines, node_list};
ghost use Rattle.tree_products.specs.LineStretches.{lines_between};

use crate::rounds::put_in_rounds;
use command_line::lines::add_all;
use comp_tree::{NONE, NodeRow, Plane, Tree};
use costs::OutOfMemory;
use dev_io::{Block, Failed, Sink};
use fits_write::WriteFault;
use itoa::Buffer;
use node_sums::areas;
use std::alloc::Global;
use std::thread::Threads;

// How many lines a thread makes at once: a few megabytes of text, so that a thread's start takes a small part of the time.
const LINES_IN_TEXT: usize = 65_536;

/// A tree, the area of each of its nodes, and in how many parts at once their lines are made.
#[derive(Drop)]
pub struct Nodes {
    pub tree: Tree,
    pub areas: Vec<u32>,
    pub parts: u32,
}

/// The areas of the nodes of a plane's tree, whose lines are to be made in so many parts.
pub fn node_areas(alloc: Global, plane: Plane, tree: Tree, parts: u32) -> Result<Nodes, OutOfMemory>
    requires { IsTreeOfPlane plane tree }
    ensures one_each { IfOk result (λ nodes. length nodes.areas.items ≡ length nodes.tree.rows) }
    ensures lines { IfOk result (λ nodes. (connect : Connect) → tree ≡ tree_of plane connect
        → tree_lines nodes.tree.rows nodes.areas.items ≡ node_list plane connect) }
{
    let areas = areas(alloc, &plane, &tree)?;
    Ok(Nodes { tree, areas, parts })
}

// The number of a node's parent, or `-` at a root.
fn parent_text(buffer: &mut Buffer, parent: u32) -> &str
    ensures text { result.now ≡ text_of_parent parent }
    ensures short { length result.now ≤ 40 }
{
    if parent == NONE {
        "-"
    } else {
        buffer.format(parent)
    }
}

// Lets the line of a node wait.
fn add_node<O: Sink>(
    sink: &mut O,
    block: &mut Block,
    number: usize,
    row: NodeRow,
    area: u32,
) -> Result<(), Failed>
    ensures ok { OnOk result (Moves (O.written sink.old) (O.written sink.new)
        (block.old ++ node_line number row area) block.new) }
    ensures err { OnErr result (AppendsPrefix (O.written sink.old) (O.written sink.new)
        (block.old ++ node_line number row area)) }
    ensures cause { HasCause (O.faults sink.old) (O.faults sink.new) result }
{
    let mut number_buffer = Buffer::new();
    let mut level_buffer = Buffer::new();
    let mut rep_buffer = Buffer::new();
    let mut parent_buffer = Buffer::new();
    let mut area_buffer = Buffer::new();
    let pieces: [&[u8]; 10] = [
        number_buffer.format(number).as_bytes(),
        b" ",
        level_buffer.format(row.level).as_bytes(),
        b" ",
        rep_buffer.format(row.rep).as_bytes(),
        b" ",
        parent_text(&mut parent_buffer, row.parent).as_bytes(),
        b" ",
        area_buffer.format(area).as_bytes(),
        b"\n",
    ];
    add_all(sink, block, &pieces)
}

// Lets the lines of the nodes from `first` up to `end` wait.
pub(crate) fn add_lines<O: Sink>(
    sink: &mut O,
    block: &mut Block,
    rows: &[NodeRow],
    areas: &[u32],
    first: usize,
    end: usize,
) -> Result<(), Failed>
    requires one_each { length areas.now ≡ length rows.now }
    requires order { first ≤ end }
    requires inside { end ≤ length rows.now }
    ensures ok { OnOk result (Moves (O.written sink.old) (O.written sink.new)
        (block.old ++ lines_between rows.now areas.now first end) block.new) }
    ensures err { OnErr result (AppendsPrefix (O.written sink.old) (O.written sink.new)
        (block.old ++ lines_between rows.now areas.now first end)) }
    ensures cause { HasCause (O.faults sink.old) (O.faults sink.new) result }
{
    for number in first..end {
        if let Err(failed) = add_node(sink, block, number, rows[number], areas[number]) {
            return Err(failed);
        }
    }
    Ok(())
}

// Writes the lines of the nodes from `first` up to `end`.
pub(crate) fn put_lines<O: Sink>(
    sink: &mut O,
    rows: &[NodeRow],
    areas: &[u32],
    first: usize,
    end: usize,
) -> Result<(), Failed>
    requires one_each { length areas.now ≡ length rows.now }
    requires order { first ≤ end }
    requires inside { end ≤ length rows.now }
    ensures bytes { PutAppends (O.written sink.old) (O.written sink.new) result
        (lines_between rows.now areas.now first end) }
    ensures cause { HasCause (O.faults sink.old) (O.faults sink.new) result }
{
    let mut block = Block::new();
    if let Err(failed) = add_lines(sink, &mut block, rows, areas, first, end) {
        return Err(failed);
    }
    block.flush(sink)
}

// Where there is one part, no memory is taken.
fn put_nodes<R: Threads + Sync, O: Sink>(
    rt: &R,
    alloc: Global,
    sink: &mut O,
    rows: &[NodeRow],
    areas: &[u32],
    parts: u32,
) -> Result<(), Failed>
    requires { length areas.now ≡ length rows.now }
    ensures bytes { PutAppends (O.written sink.old) (O.written sink.new) result
        (tree_lines rows.now areas.now) }
    ensures cause { HasCause (O.faults sink.old) (O.faults sink.new) result }
{
    if parts > 1 {
        let round = LINES_IN_TEXT * parts as usize;
        return put_in_rounds(rt, alloc, sink, rows, areas, LINES_IN_TEXT, round);
    }
    put_lines(sink, rows, areas, 0, rows.len())
}

/// Writes a line for each node: its number, its level, the pixel that represents it, the number of its parent or `-` at a
/// root, and its area in pixels. Pixels are counted from 0, row by row.
///
/// The lines stand in the order of the nodes, whatever `parts` is. Where it is more than 1, so many threads make the texts of
/// 65,536 lines each, which are then written one behind the other; no more texts than that stand in memory at once.
/// Where memory for them is refused, their lines are made one by one, as they all are in one part (0 counts as 1), which takes
/// no memory: so no refusal changes the output or the answer.
pub fn put_tree<R: Threads + Sync, O: Sink>(
    rt: &R,
    alloc: Global,
    sink: &mut O,
    tree: &Tree,
    areas: &[u32],
    parts: u32,
) -> Result<(), WriteFault>
    requires { length areas.now ≡ length tree.now.rows }
    ensures bytes { PutAppends (O.written sink.old) (O.written sink.new) result
        (tree_lines tree.now.rows areas.now) }
    ensures cause { HasCause (O.faults sink.old) (O.faults sink.new) result }
{
    match put_nodes(rt, alloc, sink, tree.rows(), areas, parts) {
        Ok(()) => Ok(()),
        Err(_) => Err(WriteFault),
    }
}
