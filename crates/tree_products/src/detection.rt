//! The sources of a plane: their segmentation map and their catalogue.
ghost use Rattle.std.specs.Prelude.{◌≡◌, ◌≤◌, ◌++◌, IfOk, OnOk, map};
ghost use Rattle.std.specs.List.{flat_map};
ghost use Rattle.dev_io.specs.Causes.{HasCause};
ghost use Rattle.dev_io.specs.Streams.{PutAppends};
ghost use Rattle.comp_tree.specs.declared.shape.Connect.{Connect};
ghost use Rattle.comp_tree.specs.Raster.{Raster};
ghost use Rattle.comp_tree.specs.Components.{tree_of};
ghost use Rattle.node_sums.specs.Sums.{sums_of, IsTreeOfPlane, AreSumsOfNodes};
ghost use Rattle.fits_write.specs.Columns.{IsTable};
ghost use Rattle.source_pick.specs.Sources.{sources};
ghost use Rattle.node_sums.specs.DisjointNodes.{AreDisjointNodes};
ghost use Rattle.source_pick.specs.Catalogue.{catalogue_of, cells_of};
ghost use Rattle.fits_write.specs.CatalogueColumns.{catalogue_columns};
ghost use Rattle.tree_products.specs.Catalogues.{hdus, detected_hdus};
ghost use Rattle.tree_products.specs.Catalogues.{IsDetection};
ghost use Rattle.source_sheet.specs.Laid.{IsLaidOut, IsTreeOfSheet};

use comp_tree::{Plane, Shape, Tree};
use costs::OutOfMemory;
use dev_io::Sink;
use fits_write::{
    CELLS_IN_ROW, WriteFault, catalogue_columns, put_empty_primary, put_map, put_table,
};
use node_sums::Sums;
use source_pick::{CatRow, Choice, cells, pick, row, segment_in_parts};
use source_sheet::{Sheet, sources_of_sheet};
use std::alloc::Global;
use std::thread::Threads;

/// The map, with a number for each pixel, and the cells of the catalogue, row by row.
#[derive(Drop)]
pub struct Detection {
    pub shape: Shape,
    pub map: Vec<u32>,
    pub cells: Vec<i64>,
}

// Puts the cells of a row behind those before it.
fn add_row(table: &mut Vec<i64>, row: &CatRow) -> Result<(), OutOfMemory>
    ensures { OnOk result (table.new.items ≡ table.old.items ++ cells_of row.now) }
{
    match table.extend_from_slice(&cells(row)) {
        Ok(()) => Ok(()),
        Err(_) => Err(OutOfMemory),
    }
}

// The cells of the catalogue of these nodes, by the sums of each; they are numbered from 1.
fn table_cells(
    alloc: Global,
    tree: &Tree,
    sums: &[Sums],
    picked: &[u32],
) -> Result<Vec<i64>, OutOfMemory>
    requires sums { AreSumsOfNodes tree.now picked.now sums.now }
    requires disjoint { AreDisjointNodes tree.now picked.now }
    ensures exact { IfOk result (λ table. (plane : Raster) (connect : Connect) → tree.now ≡
        tree_of plane connect → sums.now ≡ map (sums_of plane connect) picked.now
        → table.items ≡ flat_map cells_of (catalogue_of plane connect picked.now)) }
    ensures table { IfOk result (λ table. IsTable catalogue_columns table.items) }
{
    let mut table = match Vec::with_capacity(alloc, CELLS_IN_ROW * picked.len()) {
        Ok(table) => table,
        Err(_) => return Err(OutOfMemory),
    };
    for (place, node) in picked.iter().enumerate() {
        let row = row(tree, &sums[place], place as u32 + 1, *node);
        add_row(&mut table, &row)?;
    }
    Ok(table)
}

// The nodes that were picked, and the cells of their catalogue.
#[derive(Drop)]
struct Listed {
    picked: Vec<u32>,
    cells: Vec<i64>,
}

// Picks the sources of a plane, with its tree, and lists them. The plane and the sums are gone when this returns, so that they take no memory beside
// the map.
fn list_sources(
    alloc: Global,
    plane: Plane,
    tree: &Tree,
    choice: &Choice,
) -> Result<Listed, OutOfMemory>
    requires of_plane { IsTreeOfPlane plane tree.now }
    requires contrast { choice.now.contrast ≤ 1000 }
    ensures disjoint { IfOk result (λ listed. AreDisjointNodes tree.now listed.picked.items) }
    ensures picked { IfOk result (λ listed. (connect : Connect) → tree.now ≡ tree_of plane connect →
        listed.picked.items ≡ sources plane connect choice.now) }
    ensures cells { IfOk result (λ listed. (connect : Connect) → tree.now ≡ tree_of plane connect →
        listed.cells.items ≡ flat_map cells_of (catalogue_of plane connect listed.picked.items)) }
    ensures table { IfOk result (λ listed. IsTable catalogue_columns listed.cells.items) }
{
    let picked = pick(alloc, &plane, tree, choice)?;
    let cells = table_cells(alloc, tree, &picked.sums, &picked.nodes)?;
    Ok(Listed {
        picked: picked.nodes,
        cells,
    })
}

/// The sources of a plane, with its tree. So many workers fill the map.
pub fn detect<R: Threads + Sync>(
    rt: &R,
    alloc: Global,
    plane: Plane,
    tree: Tree,
    choice: &Choice,
    workers: u32,
) -> Result<Detection, OutOfMemory>
    requires of_plane { IsTreeOfPlane plane tree }
    requires contrast { choice.now.contrast ≤ 1000 }
    ensures writable { IfOk result
        (λ found. IsDetection found.shape found.map.items found.cells.items) }
    ensures bytes { IfOk result (λ found. (connect : Connect) → tree ≡ tree_of plane connect
        → hdus found.shape found.map.items found.cells.items ≡
        detected_hdus plane connect choice.now) }
{
    let shape = plane.shape();
    let listed = list_sources(alloc, plane, &tree, choice)?;
    let map = segment_in_parts(rt, alloc, &tree, &listed.picked, workers)?;
    Ok(Detection {
        shape,
        map,
        cells: listed.cells,
    })
}

/// The sources of the plane for which a sheet was laid out, with the sheet's tree. So many workers fill the map.
pub fn detect_on_sheet<R: Threads + Sync>(
    rt: &R,
    alloc: Global,
    sheet: &Sheet,
    tree: Tree,
    choice: &Choice,
    workers: u32,
) -> Result<Detection, OutOfMemory>
    requires laid_out { IsTreeOfSheet choice.now sheet.now tree }
    requires contrast { choice.now.contrast ≤ 1000 }
    ensures writable { IfOk result
        (λ found. IsDetection found.shape found.map.items found.cells.items) }
    ensures bytes { IfOk result (λ found. (plane : Raster) (connect : Connect)
        → IsLaidOut plane connect choice.now sheet.now → tree ≡ tree_of sheet.now.plane connect
        → hdus found.shape found.map.items found.cells.items ≡
        detected_hdus plane connect choice.now) }
{
    let found = sources_of_sheet(rt, alloc, sheet, tree, choice, workers)?;
    Ok(Detection {
        shape: sheet.whole,
        map: found.map,
        cells: found.cells,
    })
}

/// Writes the primary HDU, the map and the catalogue.
pub fn put_detection<O: Sink>(output: &mut O, found: &Detection) -> Result<(), WriteFault>
    requires { IsDetection found.now.shape found.now.map.items found.now.cells.items }
    ensures bytes { PutAppends (O.written output.old) (O.written output.new) result
        (hdus found.now.shape found.now.map.items found.now.cells.items) }
    ensures cause { HasCause (O.faults output.old) (O.faults output.new) result }
{
    if let Err(fault) = put_empty_primary(output) {
        return Err(fault);
    }
    if let Err(fault) = put_map(output, found.shape, &found.map) {
        return Err(fault);
    }
    put_table(output, &catalogue_columns(), &found.cells)
}
