//! The two images: their HDUs are found and judged one after the other, and their pixels are read.
ghost use Rattle.std.specs.Prelude.{◌≡◌, ◌<◌, ◌≤◌, ℕ, List, Ok, IfOk, IfErr, IsErrOf, IsTrue, MatchResult};
ghost use Rattle.std.specs.Option.{ForSome};
ghost use Rattle.std.specs.Result.{result_ok};
ghost use Rattle.dev_io.specs.Causes.{Rose};
ghost use Rattle.dev_io.specs.Streams.{Takes};
ghost use Rattle.comp_tree.specs.Raster.{IsPlane, HasValuesInHalfRange};
ghost use Rattle.pixel_plane.specs.Images.{checked};
ghost use Rattle.pixel_plane.specs.Verdicts.{verdict_on, verdict_on_hdu};
ghost use Rattle.pixel_plane.specs.InputFaults.{IsCutStop};
ghost use Rattle.pixel_plane.specs.Streams.{ImageStopped};
ghost use Rattle.pixel_plane.specs.TwoImages.{is_other_shape, verdict_beside, verdict_on_two};
ghost use Rattle.pixel_plane.specs.TwoReads.{TwoRead, TwoStopped};
ghost use Rattle.pixel_plane.specs.FirstImages.{FirstImageRead};

use crate::image::{Stop, read_found};
use crate::input_fault::Fault;
use crate::{Limits, check_within};
use comp_tree::{Plane, Shape};
use dev_io::Source;
use fits_hdu::{Hdu, find_after, find_hdu};
use std::alloc::Global;

/// The planes of the HDUs with the lesser and with the greater number.
#[derive(Drop)]
pub struct TwoPlanes {
    pub first: Plane,
    pub second: Plane,
}

// The image of an HDU, with what its header says.
#[derive(Drop)]
struct FirstImage {
    hdu: Hdu,
    plane: Plane,
}

// Whether the HDU's header describes an image of another shape.
fn has_other_shape(hdu: &Hdu, shape: Shape, limits: &Limits) -> bool
    ensures { result ≡ is_other_shape shape (result_ok (checked limits.now hdu.now)) }
{
    match check_within(hdu, limits) {
        Ok(other) => shape.width != other.width || shape.height != other.height,
        Err(_) => false,
    }
}

// Finds the HDU with this number, judges it and reads its pixels.
fn read_first<S: Source>(
    alloc: Global,
    src: &mut S,
    number: u16,
    limits: &Limits,
) -> Result<FirstImage, Stop>
    ensures told { ForSome (S.left src.old) (λ bytes. MatchResult result
        (λ first. FirstImageRead limits.now bytes number (S.left src.new) first)
        (λ stop. ImageStopped (verdict_on limits.now bytes number) bytes (S.left src.new) stop)) }
    ensures storable { IfOk result (λ first. HasValuesInHalfRange first.plane.values) }
    ensures ended { IfErr result (λ stop. IsCutStop stop → IsTrue (S.ended src.new)) }
    ensures later { S.faults src.old ≤ S.faults src.new }
    ensures fault { IsErrOf result Stop.ReadFault → Rose (S.faults src.old) (S.faults src.new) }
{
    let hdu = match find_hdu(src, number) {
        Ok(hdu) => hdu,
        Err(stop) => return Err(Stop::at_hdu(stop)),
    };
    match read_found(alloc, src, &hdu, limits) {
        Ok(plane) => Ok(FirstImage { hdu, plane }),
        Err(stop) => Err(stop),
    }
}

// Reads the pixels of the later HDU, whose data are the next bytes, beside the image of the earlier one. The shapes are compared before any memory is taken.
fn read_beside<S: Source>(
    alloc: Global,
    src: &mut S,
    first: Plane,
    hdu: &Hdu,
    limits: &Limits,
) -> Result<TwoPlanes, Stop>
    ensures told { (bytes : List ℕ) (head end head' : ℕ) → Takes bytes (S.left src.old) head' →
        MatchResult result
        (λ planes. TwoRead (verdict_beside first head end
        (verdict_on_hdu limits.now bytes hdu.now head' (checked limits.now hdu.now))
        (result_ok (checked limits.now hdu.now))) bytes (S.left src.new) planes)
        (λ stop. TwoStopped (verdict_beside first head end
        (verdict_on_hdu limits.now bytes hdu.now head' (checked limits.now hdu.now))
        (result_ok (checked limits.now hdu.now))) bytes (S.left src.new) stop) }
    ensures same { IfOk result (λ planes. planes.first ≡ first) }
    ensures storable { IfOk result (λ planes. HasValuesInHalfRange planes.second.values) }
    ensures same_shape { IfOk result (λ planes. planes.first.shape ≡ planes.second.shape) }
    ensures ended { IfErr result (λ stop. IsCutStop stop → IsTrue (S.ended src.new)) }
    ensures later { S.faults src.old ≤ S.faults src.new }
    ensures fault { IsErrOf result Stop.ReadFault → Rose (S.faults src.old) (S.faults src.new) }
{
    if has_other_shape(hdu, first.shape(), limits) {
        return Err(Stop::Refused(Fault::ShapeDiffers));
    }
    match read_found(alloc, src, hdu, limits) {
        Ok(second) => Ok(TwoPlanes { first, second }),
        Err(stop) => Err(stop),
    }
}

// Goes on behind the image of the HDU with the number `at` to the HDU with this number, and reads its pixels too.
fn read_second<S: Source>(
    alloc: Global,
    src: &mut S,
    first: FirstImage,
    at: u16,
    number: u16,
    limits: &Limits,
) -> Result<TwoPlanes, Stop>
    requires { at < number }
    ensures told { (bytes : List ℕ) → FirstImageRead limits.now bytes at (S.left src.old) first →
        MatchResult result
        (λ planes. TwoRead (verdict_on_two limits.now bytes at number) bytes (S.left src.new) planes)
        (λ stop. TwoStopped (verdict_on_two limits.now bytes at number) bytes (S.left src.new) stop) }
    ensures same { IfOk result (λ planes. planes.first ≡ first.plane) }
    ensures storable { IfOk result (λ planes. HasValuesInHalfRange planes.second.values) }
    ensures same_shape { IfOk result (λ planes. planes.first.shape ≡ planes.second.shape) }
    ensures ended { IfErr result (λ stop. IsCutStop stop → IsTrue (S.ended src.new)) }
    ensures later { S.faults src.old ≤ S.faults src.new }
    ensures fault { IsErrOf result Stop.ReadFault → Rose (S.faults src.old) (S.faults src.new) }
{
    let hdu = match find_after(src, &first.hdu, at, number) {
        Ok(hdu) => hdu,
        Err(stop) => return Err(Stop::at_hdu(stop)),
    };
    read_beside(alloc, src, first.plane, &hdu, limits)
}

/// Finds the HDUs with these numbers, judges them within these limits and reads the pixels of both, in one pass over the bytes.
pub fn read_two<S: Source>(
    alloc: Global,
    src: &mut S,
    first: u16,
    second: u16,
    limits: &Limits,
) -> Result<TwoPlanes, Stop>
    requires { first < second }
    ensures told { ForSome (S.left src.old) (λ bytes. MatchResult result
        (λ planes. TwoRead (verdict_on_two limits.now bytes first second) bytes (S.left src.new) planes)
        (λ stop. TwoStopped (verdict_on_two limits.now bytes first second) bytes (S.left src.new) stop)) }
    ensures storable { IfOk result (λ planes. HasValuesInHalfRange planes.first.values ×
        HasValuesInHalfRange planes.second.values) }
    ensures same_shape { IfOk result (λ planes. planes.first.shape ≡ planes.second.shape) }
    ensures ended { IfErr result (λ stop. IsCutStop stop → IsTrue (S.ended src.new)) }
    ensures later { S.faults src.old ≤ S.faults src.new }
    ensures fault { IsErrOf result Stop.ReadFault → Rose (S.faults src.old) (S.faults src.new) }
{
    let image = match read_first(alloc, src, first, limits) {
        Ok(image) => image,
        Err(stop) => return Err(stop),
    };
    read_second(alloc, src, image, first, second, limits)
}
