//! What a job makes of a plane, whole in memory before the first byte of output.
ghost use Rattle.std.specs.Prelude.{◌≡◌, ◌≤◌, Some, length, IfOk, OnOk, IsTrue};
ghost use Rattle.dev_io.specs.Causes.{HasCause};
ghost use Rattle.dev_io.specs.Streams.{PutAppends};
ghost use Rattle.comp_tree.specs.declared.shape.Connect.{Connect};
ghost use Rattle.comp_tree.specs.Components.{tree_of};
ghost use Rattle.node_sums.specs.Sums.{IsTreeOfPlane};
ghost use Rattle.filter_rules.specs.Filtered.{filtered as filtered_of};
ghost use Rattle.comp_tree.specs.Raster.{Raster};
ghost use Rattle.orders.specs.Words.{HasJobLimits};
ghost use Rattle.orders.specs.declared.words.Job.TheVariants.{Detect};
ghost use Rattle.tree_products.specs.Catalogues.{detected_hdus};
ghost use Rattle.tree_products.specs.Grounds.{ground_plane, IsGroundFor, IsSheetFor, IsTreeOfGround};
ghost use Rattle.tree_products.specs.JobSheets.{IsTreeOfJobsSheet};
ghost use Rattle.tree_products.specs.Lines.{tree_lines, node_list};
ghost use Rattle.tree_products.specs.Products.{output_of_job};
ghost use Rattle.tree_products.specs.Writables.{bytes_of, SuitsJob, IsWritable};

use crate::standing::Ground;
use crate::{
    Detection, Nodes, Summary, detect, detect_on_sheet, node_areas, put_detection, put_tree,
    put_trial, summarize,
};
use comp_tree::{Connect, Plane, Tree};
use costs::OutOfMemory;
use dev_io::Sink;
use filter_rules::{Criterion, Rule, filter};
use fits_write::{WriteFault, put_plane};
use node_sums::outlines;
use orders::{Job, Order};
use source_pick::{Choice, clear_far};
use source_sheet::{Sheet, lay_out};
use std::alloc::Global;
use std::thread::Threads;

/// What is to be written.
#[derive(Drop)]
pub enum Product {
    /// The node list.
    Nodes(Nodes),
    /// A filtered plane.
    Image(Plane),
    /// A map and a catalogue.
    Sources(Detection),
    /// What is told of a trial.
    Told(Summary),
}

fn filtered(
    alloc: Global,
    plane: Plane,
    tree: Tree,
    rule: Rule,
    criterion: &Criterion,
) -> Result<Plane, OutOfMemory>
    requires of_plane { IsTreeOfPlane plane tree }
    requires fill { criterion.now.min_fill ≤ 1000 }
    ensures { IfOk result (λ left. (connect : Connect) → tree ≡ tree_of plane connect →
        left ≡ filtered_of plane connect rule criterion.now) }
{
    filtered_by(alloc, &plane, &tree, rule, criterion)
}

// By references, so that no way out drops the plane and its tree: those are proved slowly.
fn filtered_by(
    alloc: Global,
    plane: &Plane,
    tree: &Tree,
    rule: Rule,
    criterion: &Criterion,
) -> Result<Plane, OutOfMemory>
    requires of_plane { IsTreeOfPlane plane.now tree.now }
    requires fill { criterion.now.min_fill ≤ 1000 }
    ensures { IfOk result (λ left. (connect : Connect) → tree.now ≡ tree_of plane.now connect →
        left ≡ filtered_of plane.now connect rule criterion.now) }
{
    let outlines = outlines(alloc, plane, tree)?;
    filter(alloc, plane, tree, outlines, rule, criterion)
}

/// What a job makes of a plane, from the ground on which it works and its tree, which are gone when this returns. So many workers fill a map,
/// or make the lines of nodes when these are written. The one error is that memory was refused.
pub fn make_of<R: Threads + Sync>(
    rt: &R,
    alloc: Global,
    job: Job,
    workers: u32,
    on: Ground,
    tree: Tree,
) -> Result<Product, OutOfMemory>
    requires of_ground { IsTreeOfGround job on tree }
    requires limits { HasJobLimits job }
    ensures writable { IfOk result (λ product. IsWritable product) }
    ensures bytes { IfOk result (λ product. (plane : Raster) (connect : Connect) → IsGroundFor job connect plane on
        → tree ≡ tree_of (ground_plane on) connect → bytes_of product ≡ output_of_job job connect plane) }
{
    match on {
        Ground::Whole(plane) => make_of_plane(rt, alloc, job, workers, plane, tree),
        Ground::Sheet(sheet) => make_of_sheet(rt, alloc, job, workers, &sheet, tree),
    }
}

// Of a plane itself.
fn make_of_plane<R: Threads + Sync>(
    rt: &R,
    alloc: Global,
    job: Job,
    workers: u32,
    plane: Plane,
    tree: Tree,
) -> Result<Product, OutOfMemory>
    requires of_plane { IsTreeOfPlane plane tree }
    requires limits { HasJobLimits job }
    requires suits { SuitsJob job plane }
    ensures writable { IfOk result (λ product. IsWritable product) }
    ensures bytes { IfOk result (λ product. (connect : Connect) → tree ≡ tree_of plane connect →
        bytes_of product ≡ output_of_job job connect plane) }
{
    match job {
        Job::Tree => Ok(Product::Nodes(node_areas(alloc, plane, tree, workers)?)),
        Job::Filter { rule, criterion } => Ok(Product::Image(filtered(
            alloc, plane, tree, rule, &criterion,
        )?)),
        Job::Detect { choice } => Ok(Product::Sources(detect(
            rt, alloc, plane, tree, &choice, workers,
        )?)),
        Job::Trial { .. } => Ok(Product::Told(summarize(rt, alloc, plane, tree, workers)?)),
        Job::Measure { .. } => unreachable!(),
    }
}

// Of a sheet, which stands only for a plane whose sources are wanted.
fn make_of_sheet<R: Threads + Sync>(
    rt: &R,
    alloc: Global,
    job: Job,
    workers: u32,
    sheet: &Sheet,
    tree: Tree,
) -> Result<Product, OutOfMemory>
    requires of_sheet { IsTreeOfJobsSheet job sheet.now tree }
    requires limits { HasJobLimits job }
    ensures writable { IfOk result (λ product. IsWritable product) }
    ensures bytes { IfOk result (λ product. (plane : Raster) (connect : Connect) → IsSheetFor job connect plane sheet.now
        → tree ≡ tree_of sheet.now.plane connect → bytes_of product ≡ output_of_job job connect plane) }
{
    match job {
        Job::Detect { choice } => Ok(Product::Sources(detect_on_sheet(
            rt, alloc, sheet, tree, &choice, workers,
        )?)),
        Job::Tree | Job::Filter { .. } | Job::Trial { .. } | Job::Measure { .. } => unreachable!(),
    }
}

/// The ground on which a job works, in the place of this plane. The sources of a plane are decided by the pixels of at least the threshold and those
/// around them, so these alone are kept: on a sheet where they are few, else in the plane.
pub fn ground_of<R: Threads + Sync>(
    rt: &R,
    alloc: Global,
    plane: Plane,
    order: Order,
) -> Result<Ground, OutOfMemory>
    requires suits { SuitsJob order.job plane }
    ensures { IfOk result (λ on. IsGroundFor order.job order.connect plane on) }
{
    match order.job {
        Job::Detect { choice } => {
            ground_for_sources(rt, alloc, plane, order.connect, choice, order.workers)
        }
        Job::Tree | Job::Filter { .. } | Job::Trial { .. } | Job::Measure { .. } => {
            Ok(Ground::Whole(plane))
        }
    }
}

fn ground_for_sources<R: Threads + Sync>(
    rt: &R,
    alloc: Global,
    plane: Plane,
    connect: Connect,
    choice: Choice,
    workers: u32,
) -> Result<Ground, OutOfMemory>
    ensures { IfOk result (λ on. IsGroundFor (Detect choice) connect plane on) }
{
    match lay_out(rt, alloc, &plane, connect, &choice)? {
        Some(sheet) => Ok(Ground::Sheet(sheet)),
        None => Ok(Ground::Whole(without_far(rt, alloc, plane, connect, choice, workers)?)),
    }
}

fn without_far<R: Threads + Sync>(
    rt: &R,
    alloc: Global,
    mut plane: Plane,
    connect: Connect,
    choice: Choice,
    workers: u32,
) -> Result<Plane, OutOfMemory>
    ensures { IfOk result
        (λ left. detected_hdus left connect choice ≡ detected_hdus plane connect choice) }
{
    clear_far(rt, alloc, &mut plane, connect, choice.threshold, workers)?;
    plane.compact(alloc)?;
    Ok(plane)
}

fn put_product<R: Threads + Sync, O: Sink>(
    rt: &R,
    alloc: Global,
    output: &mut O,
    product: &Product,
) -> Result<(), WriteFault>
    requires { IsWritable product.now }
    ensures bytes { PutAppends (O.written output.old) (O.written output.new) result
        (bytes_of product.now) }
    ensures cause { HasCause (O.faults output.old) (O.faults output.new) result }
{
    match product {
        Product::Nodes(nodes) => {
            put_tree(rt, alloc, output, &nodes.tree, &nodes.areas, nodes.parts)
        }
        Product::Image(plane) => put_plane(output, plane),
        Product::Sources(found) => put_detection(output, found),
        Product::Told(summary) => put_trial(output, summary),
    }
}

/// Writes it, and hands all of it on. Lines of nodes are made by as many threads as their list has parts: where memory for that is
/// refused they are made one by one, so the output and the answer are the same.
pub fn write<R: Threads + Sync, O: Sink>(
    rt: &R,
    alloc: Global,
    output: &mut O,
    product: &Product,
) -> Result<(), WriteFault>
    requires { IsWritable product.now }
    ensures bytes { PutAppends (O.written output.old) (O.written output.new) result
        (bytes_of product.now) }
    ensures settled { OnOk result (IsTrue (O.settled output.new)) }
    ensures cause { HasCause (O.faults output.old) (O.faults output.new) result }
{
    if let Err(fault) = put_product(rt, alloc, output, product) {
        return Err(fault);
    }
    match output.done() {
        Ok(()) => Ok(()),
        Err(_) => Err(WriteFault),
    }
}
