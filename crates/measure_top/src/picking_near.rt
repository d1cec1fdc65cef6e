//! The sources of a plane, found in the tree of its pixels near those of at least the threshold, or of a sheet with these: this tree is small. Why it
//! serves, and why the measures need another one, stands in `cutting`.
ghost use Rattle.std.specs.Prelude.{◌≡◌, ◌^◌, ◌<◌, ◌≤◌, length, map, IfOk, ◌≤ℤ◌};
ghost use Rattle.comp_tree.specs.declared.shape.Connect.{Connect};
ghost use Rattle.comp_tree.specs.Raster.{Raster};
ghost use Rattle.comp_tree.specs.Components.{tree_of};
ghost use Rattle.comp_tree.specs.Laws.{top_of};
ghost use Rattle.node_sums.specs.Sums.{sums_of, IsTreeOfPlane, AreSumsOfNode, AreSumsOfNodes};
ghost use Rattle.source_pick.specs.Catalogue.{catalogue_row, FitsColumns};
ghost use Rattle.node_sums.specs.DisjointNodes.{AreDisjointNodes};
ghost use Rattle.source_sheet.specs.Laid.{IsLaidOut, IsTreeOfSheet};
ghost use Rattle.orders.specs.Words.{HasLimits};
ghost use Rattle.measure_top.specs.Picks.{AreNodesOf, AreSourcesOf, HaveFittingRows, CanBeListed, HaveBasesFrom};

use comp_tree::{Connect, Plane, Tree};
use costs::OutOfMemory;
use node_sums::Sums;
use orders::Order;
use source_pick::{Choice, near, pick, row, segment_in_parts};
use source_sheet::{PickedSource, Sheet, lay_out, sources_with_tops};
use std::alloc::Global;
use std::thread::Threads;
use strip_crew::{Gate, component_tree};

/// The map over the sources, and the sources in the order of their numbers.
#[derive(Drop)]
pub(crate) struct Picked {
    pub(crate) map: Vec<u32>,
    pub(crate) nodes: Vec<PickedSource>,
}

// Node `n`, as source with this number.
fn picked_node(tree: &Tree, sums: &Sums, number: u32, n: u32) -> PickedSource
    requires sums { AreSumsOfNode tree.now n sums.now }
    requires node { n < length tree.now.rows }
    requires from_one { 1 ≤ number }
    requires few { number ≤ 2147483647 }
    ensures row { (plane : Raster) (connect : Connect) → tree.now ≡ tree_of plane connect
        → sums.now ≡ sums_of plane connect n → result.row ≡ catalogue_row plane connect number n }
    ensures rep { (plane : Raster) (connect : Connect) → tree.now ≡ tree_of plane connect →
        result.rep ≡ top_of plane connect n }
    ensures columns { FitsColumns result.row }
{
    PickedSource {
        row: row(tree, sums, number, n),
        rep: tree.rows()[n as usize].rep,
    }
}

// These nodes, by the sums of each; they are numbered from 1.
fn picked_nodes(
    alloc: Global,
    tree: &Tree,
    sums: &[Sums],
    picked: &[u32],
) -> Result<Vec<PickedSource>, OutOfMemory>
    requires sums { AreSumsOfNodes tree.now picked.now sums.now }
    requires disjoint { AreDisjointNodes tree.now picked.now }
    ensures exact { IfOk result (λ nodes. (plane : Raster) (connect : Connect) → tree.now ≡ tree_of plane connect
        → sums.now ≡ map (sums_of plane connect) picked.now
        → AreNodesOf plane connect picked.now nodes.items) }
    ensures few { IfOk result (λ nodes. length nodes.items ≤ 2147483647) }
    ensures fits { IfOk result (λ nodes. HaveFittingRows nodes.items) }
{
    let mut nodes = match Vec::with_capacity(alloc, picked.len()) {
        Ok(nodes) => nodes,
        Err(_) => return Err(OutOfMemory),
    };
    for (place, n) in picked.iter().enumerate() {
        let node = picked_node(tree, &sums[place], place as u32 + 1, *n);
        match nodes.push(node) {
            Ok(_) => {}
            Err(_) => return Err(OutOfMemory),
        }
    }
    Ok(nodes)
}

// The sources of a plane, with its tree. So many workers fill the map.
fn pick_of_tree<R: Threads + Sync>(
    rt: &R,
    alloc: Global,
    plane: &Plane,
    tree: &Tree,
    choice: &Choice,
    workers: u32,
) -> Result<Picked, OutOfMemory>
    requires of_plane { IsTreeOfPlane plane.now tree.now }
    requires contrast { choice.now.contrast ≤ 1000 }
    ensures exact { IfOk result
        (λ picked. (connect : Connect) → tree.now ≡ tree_of plane.now connect
        → AreSourcesOf plane.now connect choice.now picked.map.items picked.nodes.items) }
    ensures listed { IfOk result
        (λ picked. CanBeListed plane.now.shape picked.map.items picked.nodes.items) }
{
    let _shape = plane.shape();
    let picked = pick(alloc, plane, tree, choice)?;
    let map = segment_in_parts(rt, alloc, tree, &picked.nodes, workers)?;
    let nodes = picked_nodes(alloc, tree, &picked.sums, &picked.nodes)?;
    Ok(Picked { map, nodes })
}

// The sources of a plane, found in the plane of the pixels that matter, which is kept in little memory.
fn pick_near<R: Threads + Sync, G: Gate>(
    rt: &R,
    alloc: Global,
    plane: &Plane,
    order: Order,
    choice: &Choice,
    gate: &G,
) -> Result<Picked, OutOfMemory>
    requires limits { HasLimits order }
    requires contrast { choice.now.contrast ≤ 1000 }
    ensures exact { IfOk result (λ picked.
        AreSourcesOf plane.now order.connect choice.now picked.map.items picked.nodes.items) }
    ensures listed { IfOk result
        (λ picked. CanBeListed plane.now.shape picked.map.items picked.nodes.items) }
{
    let near = near(
        rt,
        alloc,
        plane,
        order.connect,
        choice.threshold,
        order.workers,
    )?;
    let tree = component_tree(
        rt,
        alloc,
        &near,
        order.connect,
        order.strips,
        order.workers,
        gate,
    )?;
    pick_of_tree(rt, alloc, &near, &tree, choice, order.workers)
}

// The sources of a plane, from the sheet that was laid out for it.
fn pick_on_sheet<R: Threads + Sync, G: Gate>(
    rt: &R,
    alloc: Global,
    sheet: &Sheet,
    order: Order,
    choice: &Choice,
    gate: &G,
) -> Result<Picked, OutOfMemory>
    requires limits { HasLimits order }
    requires contrast { choice.now.contrast ≤ 1000 }
    requires laid_out { IsTreeOfSheet choice.now sheet.now (tree_of sheet.now.plane order.connect) }
    ensures exact { IfOk result (λ picked. (plane : Raster) → IsLaidOut plane order.connect choice.now sheet.now
        → AreSourcesOf plane order.connect choice.now picked.map.items picked.nodes.items) }
    ensures listed { IfOk result
        (λ picked. CanBeListed sheet.now.whole picked.map.items picked.nodes.items) }
{
    let tree = component_tree(
        rt,
        alloc,
        &sheet.plane,
        order.connect,
        order.strips,
        order.workers,
        gate,
    )?;
    let found = sources_with_tops(rt, alloc, sheet, tree, choice, order.workers)?;
    Ok(Picked {
        map: found.map,
        nodes: found.sources,
    })
}

/// The sources of a plane: found on a sheet where few pixels are high, else in the plane of the pixels near these. Sheet or plane, and the tree, are
/// gone when this returns. The one error is that memory was refused.
pub(crate) fn pick_sources<R: Threads + Sync, G: Gate>(
    rt: &R,
    alloc: Global,
    plane: &Plane,
    order: Order,
    choice: &Choice,
    gate: &G,
) -> Result<Picked, OutOfMemory>
    requires limits { HasLimits order }
    requires contrast { choice.now.contrast ≤ 1000 }
    ensures exact { IfOk result (λ picked.
        AreSourcesOf plane.now order.connect choice.now picked.map.items picked.nodes.items) }
    ensures listed { IfOk result
        (λ picked. CanBeListed plane.now.shape picked.map.items picked.nodes.items) }
{
    match lay_out(rt, alloc, plane, order.connect, choice)? {
        Some(sheet) => pick_on_sheet(rt, alloc, &sheet, order, choice, gate),
        None => pick_near(rt, alloc, plane, order, choice, gate),
    }
}

fn base(node: &PickedSource) -> i64
    ensures { result ≡ node.now.row.base }
{
    node.row.base
}

/// The least of a level and of the bases of these nodes.
pub(crate) fn lowest_base(nodes: &[PickedSource], level: i64) -> i64
    ensures level { result ≤ℤ level }
    ensures bases { HaveBasesFrom result nodes.now }
{
    let mut lowest = level;
    for node in nodes {
        let low = base(node);
        lowest = lowest.min(low);
    }
    lowest
}
