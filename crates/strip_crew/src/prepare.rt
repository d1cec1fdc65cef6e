//! The jobs of all strips, prepared in parallel.

ghost use Rattle.std.specs.Prelude.{◌≡◌, ℕ, ◌+◌, ◌*◌, ◌<◌, ◌≤◌, ◌++◌, min, List, IfOk, OnOk, length, slice_index, vec_items};
ghost use Rattle.tree_join.specs.Cuts.{IsCut};
ghost use Rattle.strip_crew.specs.Run.{plan_of, row_at, HasShortStrips};
ghost use Rattle.strip_crew.specs.Grouping.{groups_of};
ghost use Rattle.strip_crew.specs.Claims.{AreReady};
ghost use Rattle.strip_crew.specs.Workers.{AreGroup, AreParts};

use comp_tree::{Connect, Plane};
use costs::OutOfMemory;
use std::alloc::Global;
use std::thread;
use std::thread::Threads;
use strip_flood::StripJob;

// The row after the last of strip `i`.
fn row_after(plane: &Plane, cut: &[u32], i: usize) -> u32
    requires cut { IsCut plane.now.shape.height cut.now }
    requires inside { i < length cut.now }
    ensures value { (connect : _) → result ≡ row_at (plan_of plane.now connect cut.now) (i + 1) }
    ensures above { slice_index cut.now i < result }
    ensures inside { result ≤ plane.now.shape.height }
{
    if i + 1 < cut.len() {
        cut[i + 1]
    } else {
        plane.shape().height
    }
}

// The jobs of the strips from `first` up to and without `limit`.
fn prepare_group(
    alloc: Global,
    plane: &Plane,
    connect: Connect,
    cut: &[u32],
    first: usize,
    limit: usize,
) -> Result<Vec<StripJob>, OutOfMemory>
    requires cut { IsCut plane.now.shape.height cut.now }
    requires short { HasShortStrips plane.now.shape.width plane.now.shape.height cut.now }
    requires order { first ≤ limit }
    requires inside { limit ≤ length cut.now }
    ensures { IfOk result (λ jobs. AreReady (plan_of plane.now connect cut.now) first limit jobs.items) }
{
    let mut jobs = Vec::new(alloc);
    for i in first..limit {
        jobs.push(StripJob::prepare(alloc, plane, connect, cut[i], row_after(plane, cut, i))?)?;
    }
    Ok(jobs)
}

// The jobs of group `group`, where each group has `size` strips, or fewer at the end.
fn prepare_part(
    alloc: Global,
    plane: &Plane,
    connect: Connect,
    cut: &[u32],
    size: usize,
    group: usize,
) -> Result<Vec<StripJob>, OutOfMemory>
    requires cut { IsCut plane.now.shape.height cut.now }
    requires short { HasShortStrips plane.now.shape.width plane.now.shape.height cut.now }
    requires size { size ≤ length cut.now }
    requires inside { group * size < length cut.now }
    ensures { IfOk result (λ jobs. AreGroup (plan_of plane.now connect cut.now) size group jobs.items) }
{
    let first = group * size;
    let limit = first + size.min(cut.len() - first);
    prepare_group(alloc, plane, connect, cut, first, limit)
}

// The jobs of all groups, where each group has `size` strips, or fewer at the end.
fn prepare_parts<R: Threads + Sync>(
    rt: &R,
    alloc: Global,
    plane: &Plane,
    connect: Connect,
    cut: &[u32],
    size: usize,
) -> Result<Vec<Result<Vec<StripJob>, OutOfMemory>>, OutOfMemory>
    requires cut { IsCut plane.now.shape.height cut.now }
    requires short { HasShortStrips plane.now.shape.width plane.now.shape.height cut.now }
    requires some { 0 < size }
    requires most { size ≤ length cut.now }
    ensures parts { IfOk result
        (λ parts. AreParts vec_items (plan_of plane.now connect cut.now) size 0 parts.items) }
    ensures count { IfOk result (λ parts. length parts.items ≡ groups_of size (length cut.now)) }
{
    Ok(thread::map_indices(
        rt,
        alloc,
        cut.len().div_ceil(size),
        &|group: usize| -> Result<Vec<StripJob>, OutOfMemory>
            requires { IsCut plane.now.shape.height cut.now
                × HasShortStrips plane.now.shape.width plane.now.shape.height cut.now
                × (size ≤ length cut.now)
                × (group * size < length cut.now) }
            ensures { IfOk result (λ jobs. AreGroup (plan_of plane.entry.now connect cut.entry.now) size group jobs.items) }
        { prepare_part(alloc, plane, connect, cut, size, group) },
    )?)
}

/// The jobs of all strips, in order. They are prepared in groups of neighbouring strips, at most as many groups as
/// there are workers, by the runtime's parallel map.
pub fn prepare_all<R: Threads + Sync>(
    rt: &R,
    alloc: Global,
    plane: &Plane,
    connect: Connect,
    cut: &[u32],
    workers: u32,
) -> Result<Vec<StripJob>, OutOfMemory>
    requires cut { IsCut plane.now.shape.height cut.now }
    requires short { HasShortStrips plane.now.shape.width plane.now.shape.height cut.now }
    requires workers { 0 < workers }
    ensures { IfOk result
        (λ jobs. AreReady (plan_of plane.now connect cut.now) 0 (length cut.now) jobs.items) }
{
    let size = cut.len().div_ceil(workers as usize);
    let parts = prepare_parts(rt, alloc, plane, connect, cut, size)?;
    let mut jobs = Vec::new(alloc);
    for part in parts {
        let mut part = part?;
        jobs.append(&mut part)?;
    }
    Ok(jobs)
}
