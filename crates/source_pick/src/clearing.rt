//! Which pixels of a plane its sources depend on.
ghost use Rattle.std.specs.Prelude.{◌≡◌, ◌+◌, ◌*◌, ◌^◌, ◌<◌, ◌≤◌, ℕ, IfOk, OnOk, OnErr, length, map, replicate, false, slice_index_or};
ghost use Rattle.comp_tree.specs.Raster.{pixels, is_at_least};
ghost use Rattle.comp_tree.specs.Grid.{distance as distance_of};
ghost use Rattle.source_pick.specs.Locality.{is_near_high, kept, HaveSameSources};
ghost use Rattle.source_pick.specs.declared.choice.Choice.{Choice};
ghost use Rattle.source_pick.specs.Clearing.{
  columns_beside as columns_beside_of,
  HasNoneBelow,
  AreSetBetween,
  AreSetAround,
  AreMarkedNear,
};

use comp_tree::{Connect, Plane, Shape};
use costs::OutOfMemory;
use std::alloc::Global;
use std::thread;
use std::thread::Threads;

/// Makes each pixel undefined that is below the threshold and has no neighbour of at least the threshold. The sources
/// of the plane stay the same, and its tree has fewer nodes.
///
/// The pixels that stay are looked for in `parts` bands, each in a thread of its own where one can be made; 0 counts as
/// 1. The one error is that memory was refused; the plane is as it was then.
pub fn clear_far<R: Threads + Sync>(
    rt: &R,
    alloc: Global,
    plane: &mut Plane,
    connect: Connect,
    threshold: i64,
    parts: u32,
) -> Result<(), OutOfMemory>
    ensures kept { OnOk result (plane.new ≡ kept plane.old connect threshold) }
    ensures same { OnOk result ((choice : Choice) → choice.threshold ≡ threshold
        → HaveSameSources plane.old plane.new connect choice) }
    ensures unchanged { OnErr result (plane.new ≡ plane.old) }
{
    if !has_below(plane, threshold) {
        return Ok(());
    }
    *plane = near(rt, alloc, plane, connect, threshold, parts)?;
    Ok(())
}

/// The plane of the pixels near those of at least the threshold (what `clear_far` leaves), beside the plane itself.
///
/// The pixels are looked for in `parts` bands, as by `clear_far`. The one error is that memory was refused.
pub fn near<R: Threads + Sync>(
    rt: &R,
    alloc: Global,
    plane: &Plane,
    connect: Connect,
    threshold: i64,
    parts: u32,
) -> Result<Plane, OutOfMemory>
    ensures kept { IfOk result (λ near. near ≡ kept plane.now connect threshold) }
    ensures same { IfOk result (λ near. (choice : Choice) → choice.threshold ≡ threshold
        → HaveSameSources plane.now near connect choice) }
{
    let size = plane.shape().band_size(parts);
    let marks = near_marks(rt, alloc, plane, connect, threshold, size)?;
    plane.marked(alloc, &marks)
}

// Whether a defined pixel is below the threshold. Mostly one of the first pixels is.
fn has_below(plane: &Plane, threshold: i64) -> bool
    ensures { result ≡ false → HasNoneBelow plane.now threshold (length plane.now.values) }
{
    for p in 0..plane.shape().pixels() {
        if plane.is_defined(p) && !plane.is_at_least(threshold, p) {
            return true;
        }
    }
    false
}

// Marks each pixel of at least the threshold, and its neighbours, in bands of `size` pixels.
fn near_marks<R: Threads + Sync>(
    rt: &R,
    alloc: Global,
    plane: &Plane,
    connect: Connect,
    threshold: i64,
    size: u32,
) -> Result<Vec<bool>, OutOfMemory>
    requires { 0 < size }
    ensures { IfOk result (λ marks.
        marks.items ≡ map (is_near_high plane.now connect threshold) (pixels plane.now)) }
{
    let mut marks = no_marks(alloc, plane.shape().pixels() as usize)?;
    mark_bands(rt, plane, connect, threshold, size, &mut marks);
    Ok(marks)
}

fn no_marks(alloc: Global, count: usize) -> Result<Vec<bool>, OutOfMemory>
    ensures { IfOk result (λ marks. marks.items ≡ replicate count false) }
{
    let marks = vec![in alloc; false; count]?;
    Ok(marks)
}

// Sets the marks in bands of `size` pixels. A band looks at its own pixels and those beside it, and writes its own
// marks alone.
fn mark_bands<R: Threads + Sync>(
    rt: &R,
    plane: &Plane,
    connect: Connect,
    threshold: i64,
    size: u32,
    marks: &mut [bool],
)
    requires some { 0 < size }
    requires blank { marks.old ≡ replicate (length plane.now.values) false }
    ensures { marks.new ≡ map (is_near_high plane.now connect threshold) (pixels plane.now) }
{
    thread::for_each_chunk_mut(
        rt,
        marks,
        size as usize,
        &|start: usize, band: &mut [bool]|
            requires { (0 < length band.now)
                × (start + length band.now ≤ length plane.now.values)
                × ((k : ℕ) → slice_index_or band.now k false ≡ false) }
            ensures { (k : ℕ) → k < length band.entry.now
                → slice_index_or band.exit.now k false
                ≡ is_near_high plane.entry.now connect threshold (start + k) }
        { mark_band(plane, connect, threshold, start, band) },
    );
}

// Sets the marks of the pixels from `start` on.
fn mark_band(plane: &Plane, connect: Connect, threshold: i64, start: usize, marks: &mut [bool])
    requires some { 0 < length marks.old }
    requires inside { start + length marks.old ≤ length plane.now.values }
    requires blank { (k : ℕ) → slice_index_or marks.old k false ≡ false }
    ensures { (k : ℕ) → k < length marks.old
        → slice_index_or marks.new k false ≡ is_near_high plane.now connect threshold (start + k) }
{
    let shape = plane.shape();
    let width = shape.width as usize;
    let first = (start / width).saturating_sub(1);
    let end = ((start + marks.len() - 1) / width + 2).min(shape.height as usize);
    for row in first..end {
        mark_row(plane, connect, threshold, row as u32, start, marks);
    }
}

// Marks what is near the pixels of a row.
fn mark_row(
    plane: &Plane,
    connect: Connect,
    threshold: i64,
    row: u32,
    start: usize,
    marks: &mut [bool],
)
    requires row { row < plane.now.shape.height }
    requires inside { start + length marks.old ≤ length plane.now.values }
    ensures { (first : ℕ) → AreMarkedNear plane.now connect threshold start first (row * plane.now.shape.width) marks.old
        → AreMarkedNear plane.now connect threshold start first ((row + 1) * plane.now.shape.width) marks.new }
{
    let shape = plane.shape();
    for column in 0..shape.width {
        if plane.is_at_least(threshold, row * shape.width + column) {
            mark_around(shape, connect, column, row, start, marks);
        }
    }
}

// Marks a pixel and its neighbours.
fn mark_around(shape: Shape, connect: Connect, x: u32, y: u32, start: usize, marks: &mut [bool])
    requires column { x < shape.width }
    requires row { y < shape.height }
    requires inside { start + length marks.old ≤ shape.width * shape.height }
    ensures { AreSetAround connect shape.width (y * shape.width + x) start (shape.width * shape.height) marks.old marks.new }
{
    let end = (y + 2).min(shape.height);
    for row in y.saturating_sub(1)..end {
        let side = columns_beside(connect, distance(y, row));
        let first = row * shape.width + x.saturating_sub(side);
        let end = row * shape.width + (x + side + 1).min(shape.width);
        mark_between(first as usize, end as usize, start, marks);
    }
}

// How far two rows lie apart.
#[tactic(auto, unfolding(comp_tree::specs::Grid::distance))]
fn distance(a: u32, b: u32) -> u32
    ensures { result ≡ distance_of a b }
{
    if a < b { b - a } else { a - b }
}

// How many pixels to each side are neighbours, in a row that lies so far away.
fn columns_beside(connect: Connect, rows: u32) -> u32
    ensures exact { result ≡ columns_beside_of connect rows }
    ensures near { result ≤ 1 }
{
    match connect {
        Connect::Four => 1u32.saturating_sub(rows),
        Connect::Eight => 1,
    }
}

// Sets the marks of the pixels from `first` up to `end`, as far as they are there.
fn mark_between(first: usize, end: usize, start: usize, marks: &mut [bool])
    requires { start + length marks.old < 2 ^ 64 }
    ensures { AreSetBetween start first end end marks.old marks.new }
{
    for p in first.max(start)..end.min(start + marks.len()) {
        marks[p - start] = true;
    }
}
