//! The sources of a plane, in the order of their least pixels.

ghost use Rattle.std.specs.Prelude.{◌≡◌, ◌<◌, ◌≤◌, List, IfOk, length, map};
ghost use Rattle.comp_tree.specs.declared.shape.Connect.{Connect};
ghost use Rattle.comp_tree.specs.Raster.{Raster, IsPlane};
ghost use Rattle.comp_tree.specs.Components.{tree_of};
ghost use Rattle.node_sums.specs.declared.outline.Outline.{Outline as Outlined};
ghost use Rattle.node_sums.specs.Sums.{sums_of, IsTreeOfPlane, AreSumsOfNodes};
ghost use Rattle.node_sums.specs.Outlines.{outlines_in, AreOutlinesOfTree, ForEachPlaneOutlined};
ghost use Rattle.node_sums.specs.DisjointNodes.{AreDisjointNodes};
ghost use Rattle.source_pick.specs.declared.choice.Choice.{Choice as Chosen};
ghost use Rattle.source_pick.specs.Sources.{is_source, ArePickedFrom};
ghost use Rattle.source_pick.specs.Passes.{
  AreEntries,
  AreStrong,
  AreStrongChildCounts,
  AreAboveSplits,
  AreSources,
  AreListedSources,
  are_several,
  with_sums,
  placed_nodes,
  placed_sums,
};

use crate::choice::Choice;
use crate::marking::{entries_of_nodes, strong_nodes};
use crate::splitting::{StrongChildren, above_splits, strong_children};
use comp_tree::{NONE, Plane, Tree};
use costs::OutOfMemory;
use node_sums::{Outline, Sums, outlines, sums_of_nodes};
use std::alloc::{AllocError, Global};

/// The sources of a plane: their nodes in the order of their numbers, and the sums of each.
#[derive(Drop)]
pub struct Picked {
    pub nodes: Vec<u32>,
    pub sums: Vec<Sums>,
}

// A source: its node, and its sums.
#[derive(Clone, Copy)]
struct PlacedSource {
    node: u32,
    sums: Sums,
}

/// The sources of a plane, by its tree: passes over the pixels and the nodes, and a sort of the sources. The one error is
/// that memory was refused.
pub fn pick(
    alloc: Global,
    plane: &Plane,
    tree: &Tree,
    choice: &Choice,
) -> Result<Picked, OutOfMemory>
    requires tree { IsTreeOfPlane plane.now tree.now }
    requires contrast { choice.now.contrast ≤ 1000 }
    ensures exact { IfOk result (λ picked. (connect : Connect) → tree.now ≡ tree_of plane.now connect
        → ArePickedFrom plane.now connect choice.now picked.nodes.items picked.sums.items) }
    ensures disjoint { IfOk result (λ picked. AreDisjointNodes tree.now picked.nodes.items) }
    ensures sums { IfOk result
        (λ picked. AreSumsOfNodes tree.now picked.nodes.items picked.sums.items) }
{
    let outlines = outlines(alloc, plane, tree)?;
    pick_by_outlines(alloc, plane, tree, &outlines, choice)
}

/// The same, for which the outlines of all nodes were made before.
pub fn pick_by_outlines(
    alloc: Global,
    plane: &Plane,
    tree: &Tree,
    outlines: &[Outline],
    choice: &Choice,
) -> Result<Picked, OutOfMemory>
    requires tree { IsTreeOfPlane plane.now tree.now }
    requires outlines { AreOutlinesOfTree tree.now outlines.now }
    requires of_plane { (connect : Connect) → tree.now ≡ tree_of plane.now connect
        → outlines.now ≡ outlines_in plane.now connect }
    requires contrast { choice.now.contrast ≤ 1000 }
    ensures exact { IfOk result (λ picked. (connect : Connect) → tree.now ≡ tree_of plane.now connect
        → ArePickedFrom plane.now connect choice.now picked.nodes.items picked.sums.items) }
    ensures disjoint { IfOk result (λ picked. AreDisjointNodes tree.now picked.nodes.items) }
    ensures sums { IfOk result
        (λ picked. AreSumsOfNodes tree.now picked.nodes.items picked.sums.items) }
{
    let _shape = plane.shape();
    let flags = flags_of_sources(alloc, tree, outlines, choice)?;
    let nodes = flagged_nodes(alloc, tree, &flags)?;
    let sums = sums_of_nodes(alloc, plane, tree, &nodes)?;
    let mut placed = placed_sources(alloc, &nodes, &sums)?;
    // a source is large, so the keys are sorted and the sources moved once
    placed.sort_by_cached_key(|source| source.sums.first)?;
    picked_of(alloc, &placed)
}

// For each node whether it is a source.
fn flags_of_sources(
    alloc: Global,
    tree: &Tree,
    outlines: &[Outline],
    choice: &Choice,
) -> Result<Vec<bool>, OutOfMemory>
    requires { AreOutlinesOfTree tree.now outlines.now }
    ensures { IfOk result (λ flags.
        AreSources choice.now tree.now outlines.now (length tree.now.rows) flags.items) }
{
    let entries = entries_of_nodes(alloc, tree, outlines, choice)?;
    let strong = strong_nodes(alloc, tree, outlines, choice, &entries)?;
    let children = strong_children(alloc, tree, &entries, &strong)?;
    let above = above_splits(alloc, tree, &children)?;
    source_flags(alloc, tree, &entries, &strong, &children, &above)
}

// The same from what the passes found.
fn source_flags(
    alloc: Global,
    tree: &Tree,
    entries: &[u32],
    strong: &[bool],
    children: &[StrongChildren],
    above: &[bool],
) -> Result<Vec<bool>, OutOfMemory>
    requires entries { length entries.now ≡ length tree.now.rows }
    requires strong { length strong.now ≡ length tree.now.rows }
    requires children { AreStrongChildCounts tree.now.rows entries.now strong.now (length tree.now.rows) children.now }
    requires above { AreAboveSplits tree.now.rows (map are_several children.now) above.now }
    ensures { IfOk result (λ flags. (choice : Chosen) (outlines : List Outlined)
        → AreEntries choice tree.now outlines (length tree.now.rows) entries.now
        → AreStrong choice tree.now outlines (length tree.now.rows) strong.now
        → AreSources choice tree.now outlines (length tree.now.rows) flags.items) }
{
    let mut flags = vec![in alloc; false; tree.node_count() as usize]?;
    flag_sources(tree, entries, strong, children, above, &mut flags);
    Ok(flags)
}

fn flag_sources(
    tree: &Tree,
    entries: &[u32],
    strong: &[bool],
    children: &[StrongChildren],
    above: &[bool],
    flags: &mut [bool],
)
    requires entries { length entries.now ≡ length tree.now.rows }
    requires strong { length strong.now ≡ length tree.now.rows }
    requires children { AreStrongChildCounts tree.now.rows entries.now strong.now (length tree.now.rows) children.now }
    requires above { AreAboveSplits tree.now.rows (map are_several children.now) above.now }
    requires flags { length flags.old ≡ length tree.now.rows }
    ensures { (choice : Chosen) (outlines : List Outlined)
        → AreEntries choice tree.now outlines (length tree.now.rows) entries.now
        → AreStrong choice tree.now outlines (length tree.now.rows) strong.now
        → AreSources choice tree.now outlines (length tree.now.rows) flags.new }
{
    for n in 0..tree.node_count() {
        let is_flagged = passes_as_source(tree, entries, strong, children, above, n);
        flags[n as usize] = is_flagged;
    }
}

fn passes_as_source(
    tree: &Tree,
    entries: &[u32],
    strong: &[bool],
    children: &[StrongChildren],
    above: &[bool],
    n: u32,
) -> bool
    requires node { n < length tree.now.rows }
    requires entries { length entries.now ≡ length tree.now.rows }
    requires strong { length strong.now ≡ length tree.now.rows }
    requires children { AreStrongChildCounts tree.now.rows entries.now strong.now (length tree.now.rows) children.now }
    requires above { AreAboveSplits tree.now.rows (map are_several children.now) above.now }
    ensures { (choice : Chosen) (outlines : List Outlined)
        → AreEntries choice tree.now outlines (length tree.now.rows) entries.now
        → AreStrong choice tree.now outlines (length tree.now.rows) strong.now
        → ForEachPlaneOutlined tree.now outlines (λ r connect. IsPlane r
        → result ≡ is_source r connect choice n) }
{
    if above[n as usize] {
        return false;
    }
    if entries[n as usize] == n {
        return true;
    }
    if !strong[n as usize] {
        return false;
    }
    let parent = tree.parent(n);
    if parent == NONE {
        return false;
    }
    children[parent as usize].are_several()
}

// The sources, in the order of nodes.
fn flagged_nodes(alloc: Global, tree: &Tree, flags: &[bool]) -> Result<Vec<u32>, OutOfMemory>
    requires { length flags.now ≡ length tree.now.rows }
    ensures { IfOk result (λ nodes. (choice : Chosen) (outlines : List Outlined)
        → AreSources choice tree.now outlines (length tree.now.rows) flags.now
        → AreListedSources choice tree.now outlines (length tree.now.rows) nodes.items) }
{
    let mut nodes = Vec::new(alloc);
    for n in 0..tree.node_count() {
        if flags[n as usize] {
            nodes.push(n)?;
        }
    }
    Ok(nodes)
}

// The same with their sums.
fn placed_sources(
    alloc: Global,
    nodes: &[u32],
    sums: &[Sums],
) -> Result<Vec<PlacedSource>, OutOfMemory>
    requires { length sums.now ≡ length nodes.now }
    ensures { IfOk result (λ placed. (r : Raster) (connect : Connect)
        → sums.now ≡ map (sums_of r connect) nodes.now
        → placed.items ≡ map (with_sums r connect) nodes.now) }
{
    let mut placed = Vec::new(alloc);
    for i in 0..nodes.len() {
        placed.push(PlacedSource {
            node: nodes[i],
            sums: sums[i],
        })?;
    }
    Ok(placed)
}

// Their nodes alone, and their sums alone.
fn picked_of(alloc: Global, placed: &[PlacedSource]) -> Result<Picked, OutOfMemory>
    ensures nodes { IfOk result (λ picked. picked.nodes.items ≡ placed_nodes placed.now) }
    ensures sums { IfOk result (λ picked. picked.sums.items ≡ placed_sums placed.now) }
{
    let nodes = nodes_of(alloc, placed)?;
    let sums = sums_in_order(alloc, placed)?;
    Ok(Picked { nodes, sums })
}

fn nodes_of(alloc: Global, placed: &[PlacedSource]) -> Result<Vec<u32>, AllocError>
    ensures { IfOk result (λ nodes. nodes.items ≡ placed_nodes placed.now) }
{
    placed.iter().map(|source| source.node).collect(alloc)
}

fn sums_in_order(alloc: Global, placed: &[PlacedSource]) -> Result<Vec<Sums>, AllocError>
    ensures { IfOk result (λ sums. sums.items ≡ placed_sums placed.now) }
{
    placed.iter().map(|source| source.sums).collect(alloc)
}
