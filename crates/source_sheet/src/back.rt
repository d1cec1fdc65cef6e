//! The sources of a sheet, taken back to the plane: their order there, and their rows.

ghost use Rattle.std.specs.Prelude.{◌≡◌, ◌≤◌, ◌<◌, ◌+◌, ◌*◌, ◌++◌, ℕ, ℤ, IfOk, IfSome, OnOk, All, List, map, length, slice_index, slice_get, Some};
ghost use Rattle.std.specs.List.{flat_map};
ghost use Rattle.comp_tree.specs.declared.shape.Connect.{Connect};
ghost use Rattle.comp_tree.specs.Components.{tree_of};
ghost use Rattle.node_sums.specs.Sums.{sums_of, AreSumsOfNode};
ghost use Rattle.fits_write.specs.Columns.{IsTable};
ghost use Rattle.fits_write.specs.CatalogueColumns.{catalogue_columns};
ghost use Rattle.source_pick.specs.Catalogue.{FitsColumns, catalogue_row, catalogue, cells_of};
ghost use Rattle.source_pick.specs.Segmentation.{segmentation};
ghost use Rattle.node_sums.specs.declared.entry.Sums.{Sums as Entry};
ghost use Rattle.node_sums.specs.DisjointNodes.{AreDisjointNodes};
ghost use Rattle.comp_tree.specs.Raster.{Raster};
ghost use Rattle.comp_tree.specs.Windows.{IsInside, in_whole};
ghost use Rattle.source_pick.specs.Sheets.{taken_back, row_back, sheet_rows, AreTakenBack};
ghost use Rattle.source_sheet.specs.declared.back.Taken.{Taken as Source};
ghost use Rattle.source_sheet.specs.Laid.{windows_of, part_of, IsLaidOut, IsTreeOfSheet};
ghost use Rattle.source_sheet.specs.Checks.{LiesInBoth, LieInBoth, IsInWindow};
ghost use Rattle.source_sheet.specs.Backs.{SheetLaws, AreMarkedIn, AreOwners, first_in, AreFirstsOf, HaveOwnSums, HaveSums, IsTakenIfOwned, AreTaken, found_of, nodes_in, IsNear, IsNodeAt, AreListed, parts_of};

use crate::map::map_of_sheet;
use crate::sheet::{Place, Sheet};
use comp_tree::{Shape, Tree};
use costs::OutOfMemory;
use fits_write::CELLS_IN_ROW;
use node_sums::Sums;
use source_pick::laws::{sources_are_disjoint, sources_of_sheets};
use source_pick::{CatRow, Choice, cells, pick, row};
use std::alloc::{AllocError, Global};
use std::thread::Threads;

// A source of the sheet: the least pixel that it has in the plane, its node with its sums, and the place that holds it.
#[derive(Clone, Copy)]
pub(crate) struct Taken {
    first: u32,
    pub(crate) node: u32,
    pub(crate) place: Place,
    sums: Sums,
}

// Where pixel `q` of a window stands in an image of shape `whole`.
pub(crate) fn stands_at(whole: Shape, left: u32, top: u32, shape: Shape, q: u32) -> u32
    requires inside { IsInside whole (record { left = left; top = top; shape = shape }) }
    requires below { q < shape.width * shape.height }
    ensures place { result ≡ in_whole whole.width (record { left = left; top = top; shape = shape }) q }
    ensures within { result < whole.width * whole.height }
{
    (q / shape.width + top) * whole.width + (q % shape.width + left)
}

// A pixel that the place's window on the sheet has, as a pixel of the plane.
pub(crate) fn back(whole: Shape, onto: Shape, place: &Place, p: u32) -> u32
    requires placed { LiesInBoth whole onto place.now }
    requires lies { IsInWindow onto.width (windows_of place.now).to p }
    ensures { (s : Raster) (h : ℤ) → result ≡ taken_back whole.width onto.width (part_of s h place.now) p }
{
    let row = p / onto.width + place.top - place.to_top;
    let column = p % onto.width + place.left - place.to_left;
    row * whole.width + column
}

// For each pixel of the sheet the number, from 1, of the place in whose window it lies, else 0.
fn owners(
    alloc: Global,
    whole: Shape,
    onto: Shape,
    places: &[Place],
) -> Result<Vec<u32>, OutOfMemory>
    requires placed { LieInBoth whole onto places.now }
    requires few { length places.now ≤ 2147483647 }
    ensures owners { IfOk result (λ owners. AreOwners onto.width places.now (length places.now) owners.items) }
    ensures one_each { IfOk result (λ owners. length owners.items ≡ onto.width * onto.height) }
{
    let mut owners = vec![in alloc; 0u32; onto.pixels() as usize]?;
    mark_owners(whole, onto, places, &mut owners);
    Ok(owners)
}

fn mark_owners(whole: Shape, onto: Shape, places: &[Place], owners: &mut [u32])
    requires placed { LieInBoth whole onto places.now }
    requires few { length places.now ≤ 2147483647 }
    requires blank { (p : ℕ) → slice_index owners.old p ≡ 0 }
    requires one_each { length owners.old ≡ onto.width * onto.height }
    ensures { AreOwners onto.width places.now (length places.now) owners.new }
{
    for (i, place) in places.iter().enumerate() {
        mark_owner(onto, place, i as u32 + 1, owners);
    }
}

// Marks the pixels of the place's window on the sheet.
fn mark_owner(onto: Shape, place: &Place, number: u32, owners: &mut [u32])
    requires inside { IsInside onto (windows_of place.now).to }
    requires one_each { length owners.old ≡ onto.width * onto.height }
    ensures { AreMarkedIn onto.width (windows_of place.now).to number (place.now.shape.width * place.now.shape.height) owners.old owners.new }
{
    for q in 0..place.shape.pixels() {
        let p = stands_at(onto, place.to_left, place.to_top, place.shape, q);
        owners[p as usize] = number;
    }
}

// The laws of sheets and of sources, on which the clauses below rest.
pub(crate) fn laws_of_sheets()
    ensures { SheetLaws }
{
    sources_of_sheets();
    sources_are_disjoint();
}

// Node `n` of the sheet with these sums, where a place has its least pixel.
fn taken_at(
    whole: Shape,
    onto: Shape,
    places: &[Place],
    owners: &[u32],
    sums: &Sums,
    n: u32,
) -> Option<Taken>
    requires placed { LieInBoth whole onto places.now }
    requires owners { AreOwners onto.width places.now (length places.now) owners.now }
    requires first { sums.now.first < length owners.now }
    ensures taken { (all : List Entry) → sums.now.first ≡ first_in all n
        → IsTakenIfOwned whole.width onto.width places.now owners.now all n result }
    ensures own { IfSome result (λ e. (e.node ≡ n) × (e.sums ≡ sums.now)) }
{
    let owner = owners[sums.first as usize];
    if owner == 0 {
        return None;
    }
    let place = places[owner as usize - 1];
    let first = back(whole, onto, &place, sums.first);
    Some(Taken {
        first,
        node: n,
        place,
        sums: *sums,
    })
}

// The picked nodes whose least pixels, as their sums have them, some place has.
fn placed_sources(
    alloc: Global,
    whole: Shape,
    onto: Shape,
    places: &[Place],
    owners: &[u32],
    sums: &[Sums],
    picked: &[u32],
) -> Result<Vec<Taken>, OutOfMemory>
    requires placed { LieInBoth whole onto places.now }
    requires owners { AreOwners onto.width places.now (length places.now) owners.now }
    requires one_each { length sums.now ≡ length picked.now }
    requires firsts { (i : ℕ) (entry : Entry) → slice_get sums.now i ≡ Some entry → entry.first < length owners.now }
    ensures taken { IfOk result (λ taken. (all : List Entry) → AreFirstsOf all picked.now sums.now
        → AreTaken whole.width onto.width places.now owners.now all picked.now (length picked.now) taken.items) }
    ensures own { IfOk result (λ taken. HaveOwnSums picked.now sums.now taken.items) }
{
    let mut taken = Vec::new(alloc);
    for (i, n) in picked.iter().enumerate() {
        if let Some(source) = taken_at(whole, onto, places, owners, &sums[i], *n) {
            taken.push(source)?;
        }
    }
    Ok(taken)
}

// The sources of the sheet that its places hold, in the order of their least pixels in the plane.
pub(crate) fn sorted_sources(
    alloc: Global,
    sheet: &Sheet,
    tree: &Tree,
    choice: &Choice,
) -> Result<Vec<Taken>, OutOfMemory>
    requires laid_out { IsTreeOfSheet choice.now sheet.now tree.now }
    requires contrast { choice.now.contrast ≤ 1000 }
    ensures back { IfOk result (λ taken. (plane : Raster) (connect : Connect) → IsLaidOut plane connect choice.now sheet.now
        → tree.now ≡ tree_of sheet.now.plane connect
        → AreTakenBack plane sheet.now.plane connect choice.now (parts_of sheet.now.plane choice.now.threshold sheet.now.places.items)
        (found_of sheet.now.plane choice.now.threshold taken.items)) }
    ensures placed { IfOk result (λ taken. (i : ℕ) (e : Source) → slice_get taken.items i ≡ Some e
        → (j : ℕ) × (slice_get sheet.now.places.items j ≡ Some e.place)) }
    ensures nodes { IfOk result (λ taken. AreDisjointNodes tree.now (nodes_in taken.items)) }
    ensures at { IfOk result (λ taken. (i : ℕ) (e : Source) → slice_get taken.items i ≡ Some e → IsNodeAt tree.now e) }
    ensures sums { IfOk result (λ taken. (i : ℕ) (e : Source) → slice_get taken.items i ≡ Some e → AreSumsOfNode tree.now e.node e.sums) }
    ensures exact { IfOk result (λ taken. (connect : Connect) → tree.now ≡ tree_of sheet.now.plane connect
        → HaveSums sheet.now.plane connect taken.items) }
    ensures few { IfOk result (λ taken. length taken.items ≤ 2147483647) }
{
    laws_of_sheets();
    let onto = sheet.plane.shape();
    let picked = pick(alloc, &sheet.plane, tree, choice)?;
    let owners = owners(alloc, sheet.whole, onto, &sheet.places)?;
    let mut taken = placed_sources(
        alloc,
        sheet.whole,
        onto,
        &sheet.places,
        &owners,
        &picked.sums,
        &picked.nodes,
    )?;
    // a source is large, so the keys are sorted and the sources moved once
    taken.sort_by_cached_key(|source| source.first)?;
    Ok(taken)
}

// A row of the sheet, as a row of the plane.
fn row_back(row: &CatRow, place: &Place) -> CatRow
    requires fits { FitsColumns row.now }
    requires near { IsNear place.now }
    ensures { (s : Raster) (h : ℤ) → result ≡ row_back (part_of s h place.now) row.now }
{
    let right = place.left as i64 - place.to_left as i64;
    let down = place.top as i64 - place.to_top as i64;
    CatRow {
        xmin: row.xmin + right,
        xmax: row.xmax + right,
        ymin: row.ymin + down,
        ymax: row.ymax + down,
        xfirst: row.xfirst + right,
        yfirst: row.yfirst + down,
        xcen: row.xcen + 1000 * right,
        ycen: row.ycen + 1000 * down,
        ..*row
    }
}

// The row of a source in the plane, with this number.
pub(crate) fn taken_row(tree: &Tree, number: u32, source: &Taken) -> CatRow
    requires sums { AreSumsOfNode tree.now source.now.node source.now.sums }
    requires node { IsNodeAt tree.now source.now }
    requires from_one { 1 ≤ number }
    requires few { number ≤ 2147483647 }
    ensures exact { (s : Raster) (connect : Connect) → tree.now ≡ tree_of s connect
        → source.now.sums ≡ sums_of s connect source.now.node → (t : Raster) (h : ℤ)
        → result ≡ row_back (part_of t h source.now.place) (catalogue_row s connect number source.now.node) }
    ensures columns { FitsColumns result }
{
    let there = row(tree, &source.sums, number, source.node);
    row_back(&there, &source.place)
}

// Puts the cells of a row behind those before it.
fn add_row(table: &mut Vec<i64>, row: &CatRow) -> Result<(), OutOfMemory>
    ensures { OnOk result (table.new.items ≡ table.old.items ++ cells_of row.now) }
{
    match table.extend_from_slice(&cells(row)) {
        Ok(()) => Ok(()),
        Err(_) => Err(OutOfMemory),
    }
}

// The cells of the sources in the plane, which are numbered from 1.
fn taken_cells(alloc: Global, tree: &Tree, taken: &[Taken]) -> Result<Vec<i64>, OutOfMemory>
    requires sums { (i : ℕ) (e : Source) → slice_get taken.now i ≡ Some e → AreSumsOfNode tree.now e.node e.sums }
    requires nodes { (i : ℕ) (e : Source) → slice_get taken.now i ≡ Some e → IsNodeAt tree.now e }
    requires few { length taken.now ≤ 2147483647 }
    ensures exact { IfOk result (λ table. (s : Raster) (connect : Connect) → tree.now ≡ tree_of s connect
        → HaveSums s connect taken.now → (h : ℤ)
        → table.items ≡ flat_map cells_of (sheet_rows s connect (found_of s h taken.now))) }
    ensures table { IfOk result (λ table. IsTable catalogue_columns table.items) }
{
    let mut table = match Vec::with_capacity(alloc, CELLS_IN_ROW * taken.len()) {
        Ok(table) => table,
        Err(_) => return Err(OutOfMemory),
    };
    for (place, source) in taken.iter().enumerate() {
        let row = taken_row(tree, place as u32 + 1, source);
        add_row(&mut table, &row)?;
    }
    Ok(table)
}

// The nodes of the sources alone.
pub(crate) fn nodes_of(alloc: Global, taken: &[Taken]) -> Result<Vec<u32>, AllocError>
    ensures { IfOk result (λ nodes. nodes.items ≡ nodes_in taken.now) }
{
    taken.iter().map(|source| source.node).collect(alloc)
}

// The nodes of the sheet's sources in the order of the plane, and the cells of their catalogue there.
#[derive(Drop)]
struct Listed {
    nodes: Vec<u32>,
    cells: Vec<i64>,
}

// Picks the sources of a sheet and lists them. The sums are gone when this returns, so that they take no memory beside the map.
fn list_sources(
    alloc: Global,
    sheet: &Sheet,
    tree: &Tree,
    choice: &Choice,
) -> Result<Listed, OutOfMemory>
    requires laid_out { IsTreeOfSheet choice.now sheet.now tree.now }
    requires contrast { choice.now.contrast ≤ 1000 }
    ensures nodes { IfOk result (λ listed. AreDisjointNodes tree.now listed.nodes.items) }
    ensures table { IfOk result (λ listed. IsTable catalogue_columns listed.cells.items) }
    ensures listed { IfOk result (λ listed. (plane : Raster) (connect : Connect) → IsLaidOut plane connect choice.now sheet.now
        → tree.now ≡ tree_of sheet.now.plane connect
        → AreListed plane connect choice.now sheet.now listed.nodes.items listed.cells.items) }
{
    let taken = sorted_sources(alloc, sheet, tree, choice)?;
    let nodes = nodes_of(alloc, &taken)?;
    let cells = taken_cells(alloc, tree, &taken)?;
    Ok(Listed { nodes, cells })
}

/// The map of a plane, a number for each pixel, and the cells of its catalogue, row by row.
#[derive(Drop)]
pub struct SheetDetection {
    pub map: Vec<u32>,
    pub cells: Vec<i64>,
}

/// The sources of the plane for which a sheet was laid out, from the sheet's component tree, which is gone when this returns. So many workers
/// fill the sheet's map.
pub fn sources_of_sheet<R: Threads + Sync>(
    rt: &R,
    alloc: Global,
    sheet: &Sheet,
    tree: Tree,
    choice: &Choice,
    workers: u32,
) -> Result<SheetDetection, OutOfMemory>
    requires laid_out { IsTreeOfSheet choice.now sheet.now tree }
    requires contrast { choice.now.contrast ≤ 1000 }
    ensures one_each { IfOk result (λ found. length found.map.items ≡ sheet.now.whole.width * sheet.now.whole.height) }
    ensures small { IfOk result (λ found. All (λ n. n ≤ 2147483647) found.map.items) }
    ensures table { IfOk result (λ found. IsTable catalogue_columns found.cells.items) }
    ensures map { IfOk result (λ found. (plane : Raster) (connect : Connect) → IsLaidOut plane connect choice.now sheet.now
        → tree ≡ tree_of sheet.now.plane connect → found.map.items ≡ segmentation plane connect choice.now) }
    ensures cells { IfOk result (λ found. (plane : Raster) (connect : Connect) → IsLaidOut plane connect choice.now sheet.now
        → tree ≡ tree_of sheet.now.plane connect → found.cells.items ≡ flat_map cells_of (catalogue plane connect choice.now)) }
{
    laws_of_sheets();
    let listed = list_sources(alloc, sheet, &tree, choice)?;
    let map = map_of_sheet(rt, alloc, sheet, tree, &listed.nodes, workers)?;
    Ok(SheetDetection {
        map,
        cells: listed.cells,
    })
}
