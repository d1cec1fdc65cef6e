//! The trial: an image that is made from a number, and what is told of it.
ghost use Rattle.std.specs.Prelude.{◌≡◌, ◌≤◌, length, count_by, sum_by, IfOk};
ghost use Rattle.dev_io.specs.Causes.{HasCause};
ghost use Rattle.dev_io.specs.Streams.{PutAppends};
ghost use Rattle.comp_tree.specs.declared.shape.Connect.{Connect};
ghost use Rattle.comp_tree.specs.Raster.{Raster};
ghost use Rattle.comp_tree.specs.Components.{tree_of};
ghost use Rattle.node_sums.specs.Sums.{IsTreeOfPlane};
ghost use Rattle.node_sums.specs.Outlines.{outlines_in, AreOutlinesOfTree};
ghost use Rattle.tree_products.specs.Trials.{next_state, trial_image as image_of, is_root_row, is_mapped, total_flux, summary_of, trial_line};
ghost use Rattle.tree_products.specs.SmallValues.{HasSmallValues};
ghost use Rattle.tree_products.specs.TrialSizes.{HasSmallFluxes};

use command_line::lines::put_line;
use comp_tree::{Canvas, NONE, NodeRow, Plane, Shape, Tree};
use costs::OutOfMemory;
use dev_io::{Failed, Sink};
use fits_write::WriteFault;
use itoa::Buffer;
use node_sums::{Outline, flux_by_outlines, outlines};
use source_pick::{Choice, pick_by_outlines, segment_in_parts};
use std::alloc::Global;
use std::thread::Threads;

/// What is told of a trial's image.
#[derive(Clone, Copy, PartialEq, Eq, Debug)]
pub struct Summary {
    pub pixels: u32,
    pub nodes: u32,
    /// The number of nodes without a parent.
    pub roots: u32,
    /// The sum of the areas of all nodes.
    pub areas: u64,
    /// The sum of their fluxes.
    pub fluxes: u64,
    pub sources: u32,
    /// The number of pixels that belong to a source.
    pub mapped: u32,
}

// The sources that are counted.
const CHOICE: Choice = Choice {
    threshold: 128,
    min_area: 1,
    min_flux: 0,
    contrast: 5,
};

// A linear congruential generator.
fn step(state: u32) -> u32
    ensures { result ≡ next_state state }
{
    state.wrapping_mul(1664525).wrapping_add(1013904223)
}

/// The trial's image: each pixel has the eight most significant bits of its state.
pub fn trial_image(alloc: Global, seed: u32, shape: Shape) -> Result<Plane, OutOfMemory>
    ensures { IfOk result (λ plane. plane ≡ image_of seed shape) }
{
    let mut canvas = Canvas::blank_within(alloc, shape, 255)?;
    let mut state = seed;
    for p in 0..shape.pixels() {
        let next = step(state);
        canvas.set(p, Some(i64::from(next >> 24)));
        state = next;
    }
    Ok(canvas.into_plane())
}

fn count_roots(rows: &[NodeRow]) -> u32
    requires { length rows.now ≤ 2147483647 }
    ensures { result ≡ count_by is_root_row rows.now }
{
    let mut roots = 0;
    for row in rows {
        if row.parent == NONE {
            roots += 1;
        }
    }
    roots
}

fn count_mapped(numbers: &[u32]) -> u32
    requires { length numbers.now ≤ 2147483647 }
    ensures { result ≡ count_by is_mapped numbers.now }
{
    let mut mapped = 0;
    for number in numbers {
        if *number != 0 {
            mapped += 1;
        }
    }
    mapped
}

fn sum_areas(outlines: &[Outline]) -> u64
    requires { length outlines.now ≤ 2147483647 }
    ensures { result ≡ sum_by (λ o. o.area) outlines.now }
{
    let mut areas = 0;
    for entry in outlines {
        areas += entry.area as u64;
    }
    areas
}

fn sum_fluxes(tree: &Tree, outlines: &[Outline]) -> u64
    requires outlines { AreOutlinesOfTree tree.now outlines.now }
    requires small { HasSmallFluxes tree.now outlines.now }
    ensures { (plane : Raster) (connect : Connect) → tree.now ≡ tree_of plane connect → outlines.now ≡
        outlines_in plane connect → result ≡ total_flux plane connect }
{
    let mut fluxes = 0;
    for n in 0..tree.node_count() {
        fluxes += flux_by_outlines(tree, outlines, n).unsigned_abs();
    }
    fluxes
}

/// What is told of a plane and its tree, which are gone when this returns. So many workers fill the map.
pub fn summarize<R: Threads + Sync>(
    rt: &R,
    alloc: Global,
    plane: Plane,
    tree: Tree,
    workers: u32,
) -> Result<Summary, OutOfMemory>
    requires of_plane { IsTreeOfPlane plane tree }
    requires small { HasSmallValues plane.values }
    ensures { IfOk result (λ summary. (connect : Connect) → tree ≡ tree_of plane connect →
        summary ≡ summary_of plane connect) }
{
    summary_in(rt, alloc, &plane, &tree, workers)
}

// By references, so that no way out drops the plane and its tree: those are proved slowly.
fn summary_in<R: Threads + Sync>(
    rt: &R,
    alloc: Global,
    plane: &Plane,
    tree: &Tree,
    workers: u32,
) -> Result<Summary, OutOfMemory>
    requires of_plane { IsTreeOfPlane plane.now tree.now }
    requires small { HasSmallValues plane.now.values }
    ensures { IfOk result (λ summary. (connect : Connect) → tree.now ≡ tree_of plane.now connect →
        summary ≡ summary_of plane.now connect) }
{
    let shape = plane.shape();
    let outlines = outlines(alloc, plane, tree)?;
    let sources = pick_by_outlines(alloc, plane, tree, &outlines, &CHOICE)?.nodes;
    let numbers = segment_in_parts(rt, alloc, tree, &sources, workers)?;
    Ok(Summary {
        pixels: shape.pixels(),
        nodes: tree.node_count(),
        roots: count_roots(tree.rows()),
        areas: sum_areas(&outlines),
        fluxes: sum_fluxes(tree, &outlines),
        sources: sources.len() as u32,
        mapped: count_mapped(&numbers),
    })
}

/// Writes the line of a trial: `pixels P nodes N roots R areas A fluxes F sources S mapped M`.
pub fn put_trial<O: Sink>(sink: &mut O, summary: &Summary) -> Result<(), WriteFault>
    ensures bytes { PutAppends (O.written sink.old) (O.written sink.new) result
        (trial_line summary.now) }
    ensures cause { HasCause (O.faults sink.old) (O.faults sink.new) result }
{
    match put_numbers(sink, summary) {
        Ok(()) => Ok(()),
        Err(_) => Err(WriteFault),
    }
}

fn put_numbers<O: Sink>(sink: &mut O, summary: &Summary) -> Result<(), Failed>
    ensures bytes { PutAppends (O.written sink.old) (O.written sink.new) result
        (trial_line summary.now) }
    ensures cause { HasCause (O.faults sink.old) (O.faults sink.new) result }
{
    let mut pixels = Buffer::new();
    let mut nodes = Buffer::new();
    let mut roots = Buffer::new();
    let mut areas = Buffer::new();
    let mut fluxes = Buffer::new();
    let mut sources = Buffer::new();
    let mut mapped = Buffer::new();
    let pieces: [&[u8]; 15] = [
        b"pixels ",
        pixels.format(summary.pixels).as_bytes(),
        b" nodes ",
        nodes.format(summary.nodes).as_bytes(),
        b" roots ",
        roots.format(summary.roots).as_bytes(),
        b" areas ",
        areas.format(summary.areas).as_bytes(),
        b" fluxes ",
        fluxes.format(summary.fluxes).as_bytes(),
        b" sources ",
        sources.format(summary.sources).as_bytes(),
        b" mapped ",
        mapped.format(summary.mapped).as_bytes(),
        b"\n",
    ];
    put_line(sink, &pieces)
}
