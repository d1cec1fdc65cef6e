//! What an order to measure makes of an input: both images are read, and then the sources of the one are measured in the other.
ghost use Rattle.std.specs.Prelude.{◌≡◌, ◌≢◌, ◌≤◌, ℕ, List, IfOk, IfErr, IsErrOf, IsTrue};
ghost use Rattle.dev_io.specs.Causes.{Rose};
ghost use Rattle.comp_tree.specs.Raster.{HasValuesInHalfRange};
ghost use Rattle.orders.specs.Words.{HasLimits};
ghost use Rattle.pixel_plane.specs.InputFaults.{IsCutStop};
ghost use Rattle.run_relation.specs.Headline.{Tells};
ghost use Rattle.run_relation.specs.RunEnds.{IsMadeOf};
ghost use Rattle.measure_top.specs.MeasuredDetections.{IsMeasuredDetection, measured_bytes};
ghost use Rattle.measure_top.specs.MeasureAnswers.{measured_of_two, asked_to_measure};

use crate::measuring::{Measured, measure_sources};
use costs::OutOfMemory;
use dev_io::Source;
use orders::Order;
use pixel_plane::{Limits, Stop, TwoPlanes, read_two};
use source_pick::Choice;
use std::alloc::Global;
use std::thread::Threads;
use strip_crew::Gate;

// The image in which sources are detected is that of the HDU that the order names, whichever of the two stands first.
#[tactic(auto, unfolding(crate::specs::MeasureAnswers::measured_of_two))]
fn measure_planes<R: Threads + Sync, G: Gate>(
    rt: &R,
    alloc: Global,
    order: Order,
    choice: Choice,
    values: u16,
    planes: TwoPlanes,
    gate: &G,
) -> Result<Measured, OutOfMemory>
    requires limits { HasLimits order }
    requires contrast { choice.contrast ≤ 1000 }
    requires storable { HasValuesInHalfRange planes.first.values }
    requires later_storable { HasValuesInHalfRange planes.second.values }
    requires shape { planes.first.shape ≡ planes.second.shape }
    ensures writable { IfOk result
        (λ found. IsMeasuredDetection found.shape found.map.items found.cells.items) }
    ensures bytes { IfOk result
        (λ found. measured_bytes found ≡
        measured_of_two order choice values planes.first planes.second) }
{
    if order.hdu < values {
        measure_sources(rt, alloc, planes.first, planes.second, order, choice, gate)
    } else {
        measure_sources(rt, alloc, planes.second, planes.first, order, choice, gate)
    }
}

/// Reads the image of an order and that of the values, whichever of the two HDUs stands first, and measures the sources of the one in the other.
pub fn measure_input<R: Threads + Sync, S: Source, G: Gate>(
    rt: &R,
    alloc: Global,
    order: Order,
    choice: Choice,
    values: u16,
    limits: &Limits,
    input: &mut S,
    gate: &G,
) -> Result<Measured, Stop>
    requires limits { HasLimits order }
    requires contrast { choice.contrast ≤ 1000 }
    requires apart { values ≢ order.hdu }
    ensures told { (bytes : List ℕ) →
        Tells (asked_to_measure limits.now order choice values) (S.left input.old) bytes →
        IsMadeOf (asked_to_measure limits.now order choice values) bytes
        (S.left input.old) (S.left input.new) measured_bytes result }
    ensures writable { IfOk result
        (λ found. IsMeasuredDetection found.shape found.map.items found.cells.items) }
    ensures reads { IsErrOf result Stop.ReadFault → Rose (S.faults input.old) (S.faults input.new) }
    ensures ended { IfErr result (λ stop. IsCutStop stop → IsTrue (S.ended input.new)) }
{
    let (first, second) = (order.hdu.min(values), order.hdu.max(values));
    let planes = match read_two(alloc, input, first, second, limits) {
        Ok(planes) => planes,
        Err(stop) => return Err(stop),
    };
    match measure_planes(rt, alloc, order, choice, values, planes, gate) {
        Ok(found) => Ok(found),
        Err(_) => Err(Stop::NoMemory),
    }
}
