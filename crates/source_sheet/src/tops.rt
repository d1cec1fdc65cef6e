//! The sources of a sheet as they are measured in other values: each with its row in the plane's catalogue, and with the pixel of the plane that
//! represents it, by which any tree that has the node finds it.

ghost use Rattle.std.specs.Prelude.{◌≡◌, ◌≤◌, ◌*◌, ℕ, ℤ, IfOk, All, map, length, slice_get, Some};
ghost use Rattle.comp_tree.specs.declared.shape.Connect.{Connect};
ghost use Rattle.comp_tree.specs.ComponentTree.{rep_in};
ghost use Rattle.comp_tree.specs.Components.{tree_of};
ghost use Rattle.comp_tree.specs.Laws.{top_of};
ghost use Rattle.comp_tree.specs.Raster.{Raster};
ghost use Rattle.node_sums.specs.DisjointNodes.{AreDisjointNodes};
ghost use Rattle.node_sums.specs.Sums.{sums_of, AreSumsOfNode};
ghost use Rattle.source_pick.specs.Catalogue.{FitsColumns, catalogue, catalogue_row};
ghost use Rattle.source_pick.specs.Segmentation.{segmentation};
ghost use Rattle.source_pick.specs.Sheets.{row_back, sheet_rows, taken_back};
ghost use Rattle.source_pick.specs.Sources.{sources};
ghost use Rattle.source_sheet.specs.declared.back.Taken.{Taken as Source};
ghost use Rattle.source_sheet.specs.declared.tops.PickedSource.{PickedSource as Entry};
ghost use Rattle.source_sheet.specs.Backs.{HaveSums, IsNodeAt, found_of};
ghost use Rattle.source_sheet.specs.Checks.{LiesInBoth, IsInWindow};
ghost use Rattle.source_sheet.specs.Laid.{windows_of, part_of, IsLaidOut, IsTreeOfSheet};
ghost use Rattle.source_sheet.specs.Tops.{LieAt, AreListedWithTops, tops_back};

use crate::back::{Taken, back, laws_of_sheets, nodes_of, sorted_sources, taken_row};
use crate::map::map_of_sheet;
use crate::sheet::Sheet;
use comp_tree::{Shape, Tree};
use costs::OutOfMemory;
use source_pick::{CatRow, Choice};
use std::alloc::Global;
use std::thread::Threads;

/// A source of a plane: its row in the catalogue, and the pixel of the plane that represents it.
#[derive(Clone, Copy)]
pub struct PickedSource {
    pub row: CatRow,
    pub rep: u32,
}

/// The map of a plane, a number for each pixel, and its sources in the order of their numbers.
#[derive(Drop)]
pub struct SheetSources {
    pub map: Vec<u32>,
    pub sources: Vec<PickedSource>,
}

// A source of the sheet as one of the plane, with this number.
fn source_back(whole: Shape, onto: Shape, tree: &Tree, number: u32, source: &Taken) -> PickedSource
    requires sums { AreSumsOfNode tree.now source.now.node source.now.sums }
    requires node { IsNodeAt tree.now source.now }
    requires placed { LiesInBoth whole onto source.now.place }
    requires lies { IsInWindow onto.width (windows_of source.now.place).to (rep_in tree.now.rows source.now.node) }
    requires from_one { 1 ≤ number }
    requires few { number ≤ 2147483647 }
    ensures row { (s : Raster) (connect : Connect) → tree.now ≡ tree_of s connect
        → source.now.sums ≡ sums_of s connect source.now.node → (t : Raster) (h : ℤ)
        → result.row ≡ row_back (part_of t h source.now.place) (catalogue_row s connect number source.now.node) }
    ensures top { (s : Raster) (h : ℤ) → result.rep
        ≡ taken_back whole.width onto.width (part_of s h source.now.place) (rep_in tree.now.rows source.now.node) }
    ensures columns { FitsColumns result.row }
{
    let there = tree.rows()[source.node as usize].rep;
    PickedSource {
        row: taken_row(tree, number, source),
        rep: back(whole, onto, &source.place, there),
    }
}

// The sources as those of the plane, numbered from 1.
fn sources_back(
    alloc: Global,
    whole: Shape,
    onto: Shape,
    tree: &Tree,
    taken: &[Taken],
) -> Result<Vec<PickedSource>, OutOfMemory>
    requires sums { (i : ℕ) (e : Source) → slice_get taken.now i ≡ Some e → AreSumsOfNode tree.now e.node e.sums }
    requires nodes { (i : ℕ) (e : Source) → slice_get taken.now i ≡ Some e → IsNodeAt tree.now e }
    requires lie { LieAt whole onto tree.now taken.now }
    requires few { length taken.now ≤ 2147483647 }
    ensures rows { IfOk result (λ sources. (s : Raster) (connect : Connect) → tree.now ≡ tree_of s connect
        → HaveSums s connect taken.now → (h : ℤ)
        → map (λ (e : Entry). e.row) sources.items ≡ sheet_rows s connect (found_of s h taken.now)) }
    ensures tops { IfOk result (λ sources. (s : Raster) (h : ℤ)
        → map (λ (e : Entry). e.rep) sources.items ≡ tops_back whole.width onto.width s h tree.now taken.now) }
    ensures one_each { IfOk result (λ sources. length sources.items ≡ length taken.now) }
    ensures fits { IfOk result (λ sources. (i : ℕ) (e : Entry) → slice_get sources.items i ≡ Some e → FitsColumns e.row) }
{
    let mut sources = Vec::with_capacity(alloc, taken.len())?;
    for (place, source) in taken.iter().enumerate() {
        let entry = source_back(whole, onto, tree, place as u32 + 1, source);
        sources.push(entry)?;
    }
    Ok(sources)
}

// The nodes of the sheet's sources in the order of the plane, and these as sources of the plane.
#[derive(Drop)]
struct ListedWithTops {
    nodes: Vec<u32>,
    sources: Vec<PickedSource>,
}

// Picks the sources of a sheet and lists them. The sums are gone when this returns.
fn list_with_tops(
    alloc: Global,
    sheet: &Sheet,
    tree: &Tree,
    choice: &Choice,
) -> Result<ListedWithTops, OutOfMemory>
    requires laid_out { IsTreeOfSheet choice.now sheet.now tree.now }
    requires contrast { choice.now.contrast ≤ 1000 }
    ensures nodes { IfOk result (λ listed. AreDisjointNodes tree.now listed.nodes.items) }
    ensures few { IfOk result (λ listed. length listed.sources.items ≤ 2147483647) }
    ensures fits { IfOk result (λ listed. (i : ℕ) (e : Entry) → slice_get listed.sources.items i ≡ Some e → FitsColumns e.row) }
    ensures listed { IfOk result (λ listed. (plane : Raster) (connect : Connect) → IsLaidOut plane connect choice.now sheet.now
        → tree.now ≡ tree_of sheet.now.plane connect
        → AreListedWithTops plane connect choice.now sheet.now listed.nodes.items listed.sources.items) }
{
    laws_of_sheets();
    let onto = sheet.plane.shape();
    let taken = sorted_sources(alloc, sheet, tree, choice)?;
    let nodes = nodes_of(alloc, &taken)?;
    let sources = sources_back(alloc, sheet.whole, onto, tree, &taken)?;
    Ok(ListedWithTops { nodes, sources })
}

/// The sources of the plane for which a sheet was laid out, with the pixels that represent them, from the sheet's component tree, which is gone
/// when this returns. So many workers fill the sheet's map. The one error is that memory was refused.
pub fn sources_with_tops<R: Threads + Sync>(
    rt: &R,
    alloc: Global,
    sheet: &Sheet,
    tree: Tree,
    choice: &Choice,
    workers: u32,
) -> Result<SheetSources, OutOfMemory>
    requires laid_out { IsTreeOfSheet choice.now sheet.now tree }
    requires contrast { choice.now.contrast ≤ 1000 }
    ensures one_each { IfOk result (λ found. length found.map.items ≡ sheet.now.whole.width * sheet.now.whole.height) }
    ensures small { IfOk result (λ found. All (λ n. n ≤ 2147483647) found.map.items) }
    ensures few { IfOk result (λ found. length found.sources.items ≤ 2147483647) }
    ensures fits { IfOk result (λ found. (i : ℕ) (e : Entry) → slice_get found.sources.items i ≡ Some e → FitsColumns e.row) }
    ensures map { IfOk result (λ found. (plane : Raster) (connect : Connect) → IsLaidOut plane connect choice.now sheet.now
        → tree ≡ tree_of sheet.now.plane connect → found.map.items ≡ segmentation plane connect choice.now) }
    ensures rows { IfOk result (λ found. (plane : Raster) (connect : Connect) → IsLaidOut plane connect choice.now sheet.now
        → tree ≡ tree_of sheet.now.plane connect → map (λ (e : Entry). e.row) found.sources.items ≡ catalogue plane connect choice.now) }
    ensures tops { IfOk result (λ found. (plane : Raster) (connect : Connect) → IsLaidOut plane connect choice.now sheet.now
        → tree ≡ tree_of sheet.now.plane connect
        → map (λ (e : Entry). e.rep) found.sources.items ≡ map (top_of plane connect) (sources plane connect choice.now)) }
{
    laws_of_sheets();
    let listed = list_with_tops(alloc, sheet, &tree, choice)?;
    let map = map_of_sheet(rt, alloc, sheet, tree, &listed.nodes, workers)?;
    Ok(SheetSources {
        map,
        sources: listed.sources,
    })
}
