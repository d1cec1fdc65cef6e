//! What an order makes of its images, whole in memory before the first byte of output.
ghost use Rattle.std.specs.Prelude.{◌≡◌, IfOk, OnOk, IsTrue};
ghost use Rattle.dev_io.specs.Causes.{HasCause};
ghost use Rattle.dev_io.specs.Streams.{PutAppends};
ghost use Rattle.comp_tree.specs.Raster.{HasValuesInHalfRange};
ghost use Rattle.mesh_background.specs.Residuals.{residual_of};
ghost use Rattle.orders.specs.Words.{HasLimits};
ghost use Rattle.orders.specs.declared.words.Job.TheVariants.{Trial};
ghost use Rattle.tree_products.specs.Products.{output_of};
ghost use Rattle.tree_products.specs.Writables.{bytes_of, SuitsJob, IsWritable};
ghost use Rattle.tree_products.specs.Trials.{trial_image as image_of};
ghost use Rattle.detect_top.specs.Made.{made_bytes, IsMade};

use comp_tree::{Plane, Shape};
use costs::OutOfMemory;
use dev_io::Sink;
use measure_top::{Measured, put_measured};
use orders::Order;
use std::alloc::Global;
use std::thread::Threads;
use strip_crew::{Gate, component_tree};
use tree_products::{Product, WriteFault, ground_of, make_of, trial_image, write};

/// What stands ready to be written.
#[derive(Drop)]
pub(crate) enum Made {
    /// Of one image.
    OfOne(Product),
    /// The sources of one image, measured in another.
    OfTwo(Measured),
}

/// What an order makes of an image. All memory that it wants is taken here: the texts of lines, which threads make while they
/// are written, can do without.
pub(crate) fn make<R: Threads + Sync, G: Gate>(
    rt: &R,
    alloc: Global,
    image: Plane,
    order: Order,
    gate: &G,
) -> Result<Product, OutOfMemory>
    requires limits { HasLimits order }
    requires storable { HasValuesInHalfRange image.values }
    requires suits { SuitsJob order.job (residual_of image order.mesh order.flat) }
    ensures writable { IfOk result (λ product. IsWritable product) }
    ensures bytes { IfOk result (λ product. bytes_of product ≡ output_of order image) }
{
    let residual = mesh_background::residual(
        rt,
        alloc,
        image,
        order.mesh,
        order.flat,
        order.workers,
    )?;
    let on = ground_of(rt, alloc, residual, order)?;
    let tree = component_tree(
        rt,
        alloc,
        on.plane(),
        order.connect,
        order.strips,
        order.workers,
        gate,
    )?;
    make_of(rt, alloc, order.job, order.workers, on, tree)
}

/// What a trial of this seed and this shape makes.
pub(crate) fn make_trial<R: Threads + Sync, G: Gate>(
    rt: &R,
    alloc: Global,
    order: Order,
    seed: u32,
    shape: Shape,
    gate: &G,
) -> Result<Product, OutOfMemory>
    requires limits { HasLimits order }
    requires trial { order.job ≡ Trial seed shape }
    ensures writable { IfOk result (λ product. IsWritable product) }
    ensures bytes { IfOk result
        (λ product. bytes_of product ≡ output_of order (image_of seed shape)) }
{
    let image = trial_image(alloc, seed, shape)?;
    make(rt, alloc, image, order, gate)
}

/// Writes it, and hands all of it on.
pub(crate) fn write_made<R: Threads + Sync, O: Sink>(
    rt: &R,
    alloc: Global,
    output: &mut O,
    made: &Made,
) -> Result<(), WriteFault>
    requires { IsMade made.now }
    ensures bytes { PutAppends (O.written output.old) (O.written output.new) result
        (made_bytes made.now) }
    ensures settled { OnOk result (IsTrue (O.settled output.new)) }
    ensures cause { HasCause (O.faults output.old) (O.faults output.new) result }
{
    match made {
        Made::OfOne(product) => write(rt, alloc, output, product),
        Made::OfTwo(found) => put_measured(output, found),
    }
}
