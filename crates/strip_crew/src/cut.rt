//! Cuts of a plane into strips, and the joining of strips at their boundaries.

ghost use Rattle.std.specs.Prelude.{◌≡◌, ℕ, ◌+◌, ◌*◌, ◌<◌, ◌≤◌, min, IfOk, length, slice_index, slice_index_or};
ghost use Rattle.comp_tree.specs.Forest.{IsForest, StandsFor};
ghost use Rattle.comp_tree.specs.Grid.{IsAdjacency};
ghost use Rattle.tree_join.specs.Cuts.{IsCut};
ghost use Rattle.strip_crew.specs.Run.{plan_of, even_rows};
ghost use Rattle.strip_crew.specs.Copied.{AreCopied};

use crate::gate::OpenGate;
use crate::group::join_group;
use comp_tree::{Connect, Plane};
use costs::OutOfMemory;
use std::alloc::Global;
use std::thread::Threads;

/// Cuts rows into strips of nearly one height, and gives the first row of each: the row `i * height / k`, rounded
/// down, for each i below k, where k is the number of strips, but no more than there are rows. Both are from 1 to
/// 65,535.
pub fn even_cut(alloc: Global, height: u32, strips: u32) -> Result<Vec<u32>, OutOfMemory>
    requires some_row { 0 < height }
    requires most_rows { height ≤ 65535 }
    requires some_strip { 0 < strips }
    requires most_strips { strips ≤ 65535 }
    ensures rows { IfOk result (λ cut. cut.items ≡ even_rows height (min height strips)) }
    ensures cut { IfOk result (λ cut. IsCut height cut.items) }
    ensures even { IfOk result (λ cut. (n : ℕ) → height ≤ n * min height strips → (i : ℕ) → i < length cut.items
        → slice_index_or cut.items (i + 1) height ≤ slice_index cut.items i + n) }
{
    let count = height.min(strips);
    let mut cut = Vec::with_capacity(alloc, count as usize)?;
    for i in 0..count {
        cut.push_reserved(i * height / count);
    }
    Ok(cut)
}

// How often the strips are divided into halves that are joined at once: there are up to 64 such groups.
const FORKS: u32 = 6;

/// Joins all strips of a cut, whose links lie one after the other. `skips` is lent to `join_group`.
pub fn join_cut<R: Threads + Sync>(
    rt: &R,
    links: &mut [u32],
    skips: &mut [u32],
    plane: &Plane,
    connect: Connect,
    cut: &[u32],
)
    requires cut { IsCut plane.now.shape.height cut.now }
    requires copied { AreCopied (plan_of plane.now connect cut.now) (length cut.now) links.old }
    ensures count { length links.new ≡ length plane.now.values }
    ensures forest { IsForest plane.now.values 0 links.new }
    ensures stands { StandsFor plane.now.values 0 links.new
        (IsAdjacency plane.now.values plane.now.shape.width connect) }
{
    // for its clauses alone: how many pixels a plane has
    let _shape = plane.shape();
    join_group(
        rt,
        links,
        skips,
        plane,
        connect,
        0,
        &cut[1..],
        FORKS,
        &OpenGate,
    );
}
