//! The image: its HDU is found and judged, and its pixels are read.
ghost use Rattle.std.specs.Prelude.{◌≡◌, ◌≤◌, ℕ, List, Ok, IfOk, IfErr, IsErrOf, IsTrue, MatchResult};
ghost use Rattle.std.specs.Option.{ForSome};
ghost use Rattle.dev_io.specs.Causes.{Rose};
ghost use Rattle.dev_io.specs.Streams.{Takes};
ghost use Rattle.pixel_plane.specs.Images.{checked};
ghost use Rattle.comp_tree.specs.Raster.{HasValuesInHalfRange};
ghost use Rattle.pixel_plane.specs.Verdicts.{verdict_on, verdict_on_hdu};
ghost use Rattle.pixel_plane.specs.InputFaults.{IsCutStop};
ghost use Rattle.pixel_plane.specs.Stops.{stop_at_hdu, stop_at_plane};
ghost use Rattle.pixel_plane.specs.Streams.{ImageRead, ImageStopped};

use crate::input_fault::Fault;
use crate::{Limits, PlaneStop, check_within, read_plane_within};
use comp_tree::Plane;
use dev_io::Source;
use fits_hdu::{Hdu, HduStop, find_hdu};
use std::alloc::Global;

/// Why there is no image: the bytes have a fault, the source failed, or memory was refused.
#[derive(Clone, Copy, Debug, PartialEq, Eq)]
pub enum Stop {
    Refused(Fault),
    ReadFault,
    NoMemory,
}

impl Stop {
    // Where the HDU isn't found.
    pub(crate) fn at_hdu(stop: HduStop) -> Stop
        ensures { result ≡ stop_at_hdu stop }
    {
        match stop {
            HduStop::Fault(fault) => Stop::Refused(Fault::Hdu(fault)),
            HduStop::ReadFault => Stop::ReadFault,
        }
    }

    // Where the pixels of an image aren't read.
    pub(crate) fn at_plane(stop: PlaneStop) -> Stop
        ensures { result ≡ stop_at_plane stop }
    {
        match stop {
            PlaneStop::Fault(fault) => Stop::Refused(Fault::Plane(fault)),
            PlaneStop::ReadFault => Stop::ReadFault,
            PlaneStop::OutOfMemory => Stop::NoMemory,
        }
    }
}

// Judges an HDU whose data are the next bytes, and reads its pixels.
pub(crate) fn read_found<S: Source>(
    alloc: Global,
    src: &mut S,
    hdu: &Hdu,
    limits: &Limits,
) -> Result<Plane, Stop>
    ensures told { (bytes : List ℕ) (head : ℕ) → Takes bytes (S.left src.old) head →
        MatchResult result
        (λ plane. ImageRead (verdict_on_hdu limits.now bytes hdu.now head (checked limits.now hdu.now)) bytes
        (S.left src.new) plane)
        (λ stop. ImageStopped (verdict_on_hdu limits.now bytes hdu.now head (checked limits.now hdu.now)) bytes
        (S.left src.new) stop) }
    ensures shape { IfOk result (λ plane. checked limits.now hdu.now ≡ Ok plane.shape) }
    ensures storable { IfOk result (λ plane. HasValuesInHalfRange plane.values) }
    ensures ended { IfErr result (λ stop. IsCutStop stop → IsTrue (S.ended src.new)) }
    ensures later { S.faults src.old ≤ S.faults src.new }
    ensures fault { IsErrOf result Stop.ReadFault → Rose (S.faults src.old) (S.faults src.new) }
{
    let shape = match check_within(hdu, limits) {
        Ok(shape) => shape,
        Err(fault) => return Err(Stop::Refused(Fault::Image(fault))),
    };
    match read_plane_within(alloc, src, hdu, shape, limits) {
        Ok(plane) => Ok(plane),
        Err(stop) => Err(Stop::at_plane(stop)),
    }
}

/// Finds the HDU with this number, judges it within these limits and reads its pixels.
pub fn read_image<S: Source>(
    alloc: Global,
    src: &mut S,
    number: u16,
    limits: &Limits,
) -> Result<Plane, Stop>
    ensures told { ForSome (S.left src.old) (λ bytes. MatchResult result
        (λ plane. ImageRead (verdict_on limits.now bytes number) bytes (S.left src.new) plane)
        (λ stop. ImageStopped (verdict_on limits.now bytes number) bytes (S.left src.new) stop)) }
    ensures storable { IfOk result (λ plane. HasValuesInHalfRange plane.values) }
    ensures ended { IfErr result (λ stop. IsCutStop stop → IsTrue (S.ended src.new)) }
    ensures later { S.faults src.old ≤ S.faults src.new }
    ensures fault { IsErrOf result Stop.ReadFault → Rose (S.faults src.old) (S.faults src.new) }
{
    let hdu = match find_hdu(src, number) {
        Ok(hdu) => hdu,
        Err(stop) => return Err(Stop::at_hdu(stop)),
    };
    read_found(alloc, src, &hdu, limits)
}
