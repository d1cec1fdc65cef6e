//! The component tree (max-tree) of a plane, by workers that flood its strips.

ghost use Rattle.std.specs.Prelude.{◌≡◌, ◌*◌, ◌/◌, ◌^◌, ◌<◌, ◌≤◌, IfOk};
ghost use Rattle.comp_tree.specs.Components.{tree_of};

use crate::crew::flood_all;
use crate::cut::even_cut;
use crate::gate::Gate;
use comp_tree::{Connect, Plane, Shape, Tree};
use costs::OutOfMemory;
use std::alloc::Global;
use std::thread::Threads;
use tree_canon::canon;

// The fewest strips of nearly one height of which none has more than 2^24 pixels: one, where the plane has no more.
pub(crate) fn least_strips(shape: Shape) -> u32
    ensures some { 0 < result }
    ensures most { result ≤ 65535 }
    ensures enough { shape.height ≤ 2 ^ 24 / shape.width * result }
{
    shape.height.div_ceil((1 << 24) / shape.width)
}

/// The component tree of a plane. Its rows are cut into so many strips, or one for each row where there are fewer; of a
/// large plane into more, until none has more than 2^24 pixels. So many workers flood them, and the nodes of the joined
/// forest are numbered. The tree doesn't depend on how many strips and workers there are.
///
/// The one error is that memory was refused.
pub fn component_tree<R: Threads + Sync, G: Gate>(
    rt: &R,
    alloc: Global,
    plane: &Plane,
    connect: Connect,
    strips: u32,
    workers: u32,
    gate: &G,
) -> Result<Tree, OutOfMemory>
    requires some_strip { 0 < strips }
    requires most_strips { strips ≤ 65535 }
    requires some_worker { 0 < workers }
    requires most_workers { workers ≤ 64 }
    ensures { IfOk result (λ tree. tree ≡ tree_of plane.now connect) }
{
    let shape = plane.shape();
    let cut = even_cut(alloc, shape.height, strips.max(least_strips(shape)))?;
    let forest = flood_all(rt, alloc, plane, connect, &cut, workers, gate)?;
    canon(rt, alloc, plane, &forest, workers)
}
