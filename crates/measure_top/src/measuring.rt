//! The sources of one plane, measured in another: their segmentation map and their catalogue.
ghost use Rattle.std.specs.Prelude.{◌≡◌, ℕ, ◌^◌, ◌<◌, ◌≤◌, ◌++◌, Some, slice_get, length, IfOk, OnOk, IsTrue};
ghost use Rattle.dev_io.specs.Causes.{HasCause};
ghost use Rattle.dev_io.specs.Streams.{PutAppends};
ghost use Rattle.comp_tree.specs.declared.shape.Connect.{Connect};
ghost use Rattle.comp_tree.specs.Raster.{Raster, IsPlane, HasValuesInHalfRange};
ghost use Rattle.comp_tree.specs.Components.{tree_of};
ghost use Rattle.fits_write.specs.Columns.{IsTable};
ghost use Rattle.source_pick.specs.Catalogue.{FitsColumns};
ghost use Rattle.dual_measure.specs.declared.values.Measure.{Measure as Entry};
ghost use Rattle.dual_measure.specs.Measures.{measure_of, measures_of, back_of, HasMeasureSizes, IsPlanesTree, AreTheTreesMeasures};
ghost use Rattle.dual_measure.specs.Columns.{measured_cells_of};
ghost use Rattle.orders.specs.Words.{HasLimits};
ghost use Rattle.measure_top.specs.Cuts.{cut};
ghost use Rattle.measure_top.specs.MeasuredCatalogues.{measured_hdus, measured_sources, measured_output};
ghost use Rattle.fits_write.specs.CatalogueColumns.{measured_columns};
ghost use Rattle.measure_top.specs.MeasuredDetections.{IsMeasuredDetection};
ghost use Rattle.measure_top.specs.Picks.{HaveFittingRows, StandIn, all_cells};

use crate::cutting::cut_below;
use crate::picking_near::{lowest_base, pick_sources};
use comp_tree::{Plane, Shape, Tree};
use costs::OutOfMemory;
use dev_io::Sink;
use dual_measure::{Measure, back, measured_cells, measures};
use fits_write::{
    MEASURED_CELLS_IN_ROW, WriteFault, measured_columns, put_empty_primary, put_map, put_table,
};
use mesh_background::residual;
use orders::Order;
use source_pick::{CatRow, Choice};
use source_sheet::PickedSource;
use std::alloc::Global;
use std::thread::Threads;
use strip_crew::{Gate, component_tree};

/// The map, with a number for each pixel, and the cells of the catalogue, row by row.
#[derive(Drop)]
pub struct Measured {
    pub shape: Shape,
    pub map: Vec<u32>,
    pub cells: Vec<i64>,
}

// The cells of a row, of which `n` is the node in this tree. They are a table of one row.
fn row_cells(
    tree: &Tree,
    measures: &[Measure],
    row: &CatRow,
    n: u32,
) -> [i64; MEASURED_CELLS_IN_ROW]
    requires measures { AreTheTreesMeasures tree.now measures.now }
    requires small { (m : ℕ) (entry : Entry) → slice_get measures.now m ≡ Some entry →
        HasMeasureSizes entry }
    requires node { n < length tree.now.rows }
    requires columns { FitsColumns row.now }
    ensures exact { (plane values : Raster) (connect : Connect) → IsPlane plane → tree.now ≡
        tree_of plane connect → measures.now ≡ measures_of values plane connect
        → result ≡ measured_cells_of row.now (measure_of values plane connect n)
        (back_of values plane connect n) }
    ensures table { IsTable measured_columns result }
{
    let around = back(tree, measures, n);
    measured_cells(row, &measures[n as usize], around)
}

// Puts a row behind those before it.
fn add_row(table: &mut Vec<i64>, row: &[i64; MEASURED_CELLS_IN_ROW]) -> Result<(), OutOfMemory>
    ensures { OnOk result (table.new.items ≡ table.old.items ++ row.now) }
{
    match table.extend_from_slice(row) {
        Ok(()) => Ok(()),
        Err(_) => Err(OutOfMemory),
    }
}

// The cells of the catalogue of some nodes, each of which is found in this tree by the pixel that represents it.
fn table_cells(
    alloc: Global,
    tree: &Tree,
    measures: &[Measure],
    nodes: &[PickedSource],
) -> Result<Vec<i64>, OutOfMemory>
    requires measures { AreTheTreesMeasures tree.now measures.now }
    requires small { (m : ℕ) (entry : Entry) → slice_get measures.now m ≡ Some entry →
        HasMeasureSizes entry }
    requires there { StandIn tree.now nodes.now }
    requires few { length nodes.now ≤ 2147483647 }
    requires fits { HaveFittingRows nodes.now }
    ensures exact { IfOk result (λ table. (plane values : Raster) (connect : Connect) →
        IsPlane plane → tree.now ≡ tree_of plane connect
        → measures.now ≡ measures_of values plane connect → table.items ≡
        all_cells plane values connect nodes.now) }
    ensures table { IfOk result (λ table. IsTable measured_columns table.items) }
{
    let mut table = match Vec::with_capacity(alloc, MEASURED_CELLS_IN_ROW * nodes.len()) {
        Ok(table) => table,
        Err(_) => return Err(OutOfMemory),
    };
    let node_of = tree.node_of();
    for node in nodes {
        let cells = row_cells(tree, measures, &node.row, node_of[node.rep as usize]);
        add_row(&mut table, &cells)?;
    }
    Ok(table)
}

// The same with the measures, for a tree that has the nodes.
fn cells_in_tree(
    alloc: Global,
    tree: &Tree,
    values: &Plane,
    nodes: &[PickedSource],
) -> Result<Vec<i64>, OutOfMemory>
    requires shape { values.now.shape ≡ tree.now.shape }
    requires tree { IsPlanesTree tree.now }
    requires there { StandIn tree.now nodes.now }
    requires few { length nodes.now ≤ 2147483647 }
    requires fits { HaveFittingRows nodes.now }
    ensures exact { IfOk result (λ cells. (plane : Raster) (connect : Connect) → IsPlane plane →
        tree.now ≡ tree_of plane connect
        → cells.items ≡ all_cells plane values.now connect nodes.now) }
    ensures table { IfOk result (λ cells. IsTable measured_columns cells.items) }
{
    let measures = measures(alloc, values, tree)?;
    table_cells(alloc, tree, &measures, nodes)
}

// The tree of the plane's pixels of at least this level, made in the place of the plane, which is gone when this returns.
fn tree_above<R: Threads + Sync, G: Gate>(
    rt: &R,
    alloc: Global,
    mut plane: Plane,
    level: i64,
    order: Order,
    gate: &G,
) -> Result<Tree, OutOfMemory>
    requires { HasLimits order }
    ensures { IfOk result (λ tree. tree ≡ tree_of (cut plane level) order.connect) }
{
    cut_below(&mut plane, level);
    plane.compact(alloc)?;
    component_tree(
        rt,
        alloc,
        &plane,
        order.connect,
        order.strips,
        order.workers,
        gate,
    )
}

// The sources of a plane, measured in the values. What is around a source lies at least as high as the lowest base of all, so the second tree is that
// of the pixels of at least this level alone. It is made when the first tree is gone.
fn measure_residuals<R: Threads + Sync, G: Gate>(
    rt: &R,
    alloc: Global,
    plane: Plane,
    values: &Plane,
    order: Order,
    choice: &Choice,
    gate: &G,
) -> Result<Measured, OutOfMemory>
    requires limits { HasLimits order }
    requires contrast { choice.now.contrast ≤ 1000 }
    requires shape { plane.shape ≡ values.now.shape }
    ensures writable { IfOk result
        (λ found. IsMeasuredDetection found.shape found.map.items found.cells.items) }
    ensures bytes { IfOk result
        (λ found. measured_hdus found.shape found.map.items found.cells.items ≡
        measured_sources plane values.now order.connect choice.now) }
{
    let shape = plane.shape();
    let picked = pick_sources(rt, alloc, &plane, order, choice, gate)?;
    let level = lowest_base(&picked.nodes, choice.threshold);
    let tree = tree_above(rt, alloc, plane, level, order, gate)?;
    let cells = cells_in_tree(alloc, &tree, values, &picked.nodes)?;
    Ok(Measured {
        shape,
        map: picked.map,
        cells,
    })
}

/// The sources of an image, measured in a second image, the values.
///
/// The sources are found in the tree of the pixels near those of at least the threshold. The values around a source are those that its parent has
/// besides, which may lie below the threshold: so they are measured over a second tree, which reaches down to the lowest parent of a source.
pub(crate) fn measure_sources<R: Threads + Sync, G: Gate>(
    rt: &R,
    alloc: Global,
    image: Plane,
    values: Plane,
    order: Order,
    choice: Choice,
    gate: &G,
) -> Result<Measured, OutOfMemory>
    requires limits { HasLimits order }
    requires contrast { choice.contrast ≤ 1000 }
    requires storable { HasValuesInHalfRange image.values }
    requires values_storable { HasValuesInHalfRange values.values }
    requires shape { image.shape ≡ values.shape }
    ensures writable { IfOk result
        (λ found. IsMeasuredDetection found.shape found.map.items found.cells.items) }
    ensures bytes { IfOk result
        (λ found. measured_hdus found.shape found.map.items found.cells.items ≡
        measured_output order choice image values) }
{
    let plane = residual(rt, alloc, image, order.mesh, order.flat, order.workers)?;
    let values = residual(rt, alloc, values, order.mesh, order.flat, order.workers)?;
    measure_residuals(rt, alloc, plane, &values, order, &choice, gate)
}

fn put_hdus<O: Sink>(output: &mut O, found: &Measured) -> Result<(), WriteFault>
    requires { IsMeasuredDetection found.now.shape found.now.map.items found.now.cells.items }
    ensures bytes { PutAppends (O.written output.old) (O.written output.new) result
        (measured_hdus found.now.shape found.now.map.items found.now.cells.items) }
    ensures cause { HasCause (O.faults output.old) (O.faults output.new) result }
{
    if let Err(fault) = put_empty_primary(output) {
        return Err(fault);
    }
    if let Err(fault) = put_map(output, found.shape, &found.map) {
        return Err(fault);
    }
    put_table(output, &measured_columns(), &found.cells)
}

/// Writes the primary HDU, the map and the catalogue, and hands all of it on.
pub fn put_measured<O: Sink>(output: &mut O, found: &Measured) -> Result<(), WriteFault>
    requires { IsMeasuredDetection found.now.shape found.now.map.items found.now.cells.items }
    ensures bytes { PutAppends (O.written output.old) (O.written output.new) result
        (measured_hdus found.now.shape found.now.map.items found.now.cells.items) }
    ensures settled { OnOk result (IsTrue (O.settled output.new)) }
    ensures cause { HasCause (O.faults output.old) (O.faults output.new) result }
{
    if let Err(fault) = put_hdus(output, found) {
        return Err(fault);
    }
    match output.done() {
        Ok(()) => Ok(()),
        Err(_) => Err(WriteFault),
    }
}
