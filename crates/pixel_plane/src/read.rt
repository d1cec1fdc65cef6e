//! Reading the pixels.
ghost use Rattle.std.specs.Prelude.{◌≡◌, ◌≢◌, ◌≤◌, ◌-◌, ◌*◌, Ok, true, length, IfOk, IfErr, IsErrOf, IsTrue, MatchResult};
ghost use Rattle.std.specs.Option.{ForSome};
ghost use Rattle.dev_io.specs.Causes.{Rose};
ghost use Rattle.dev_io.specs.Streams.{Fills};
ghost use Rattle.comp_tree.specs.Raster.{HasValuesInHalfRange};
ghost use Rattle.pixel_plane.specs.ImageLimits.{usual_limits};
ghost use Rattle.pixel_plane.specs.WithinLimits.{HasValuesInLimits};
ghost use Rattle.pixel_plane.specs.Stored.{holds_narrow};
ghost use Rattle.pixel_plane.specs.Images.{checked};
ghost use Rattle.pixel_plane.specs.Reading.{PlaneRead, PlaneStopped, NamesPixel};
ghost use Rattle.pixel_plane.specs.Decoding.{most_in, PixelsRead, PixelsStopped, BytesStopped, RestStopped, IsDecoded, FarInside, NamesNone, NamesOnly, NamesFar};

use crate::encoding::Encoding;
use crate::runs::decode_run;
use crate::{Limits, PixelPlace, PlaneFault, PlaneStop};
use comp_tree::{Canvas, Pixel, Plane, Shape};
use dev_io::{BLOCK, Source, fill, skip};
use fits_hdu::Hdu;
use std::alloc::Global;

// So many bytes are taken at once, eight blocks: it costs less than to ask the source for each block.
const AT_ONCE: usize = 8 * BLOCK;

// So many pixels are decoded before the canvas gets them.
const RUN: u32 = 1024;

/// The plane of an image whose data are the next bytes, row by row. A pixel has the value BZERO and its stored number together, and is
/// undefined where the stored number is BLANK (FITS Standard 4.0, section 4.4.2.5). All memory is taken before the first byte. A pixel
/// out of range is answered when all bytes of the image were taken, so that an input which ends before them is `TruncatedData`.
pub fn read_plane<S: Source>(
    alloc: Global,
    src: &mut S,
    hdu: &Hdu,
    shape: Shape,
) -> Result<Plane, PlaneStop>
    requires { checked usual_limits hdu.now ≡ Ok shape }
    ensures told { ForSome (S.left src.old) (λ bytes. MatchResult result
        (λ plane. PlaneRead usual_limits hdu.now shape bytes (S.left src.new) plane)
        (λ stop. PlaneStopped usual_limits hdu.now shape bytes (S.left src.new) stop)) }
    ensures shape { IfOk result (λ plane. plane.shape ≡ shape) }
    ensures range { IfErr result (NamesPixel usual_limits hdu.now shape) }
    ensures half_range { IfOk result (λ plane. HasValuesInHalfRange plane.values) }
    ensures truncated { IsErrOf result (PlaneStop.Fault PlaneFault.TruncatedData) →
        IsTrue (S.ended src.new) }
    ensures later { S.faults src.old ≤ S.faults src.new }
    ensures fault { IsErrOf result PlaneStop.ReadFault →
        Rose (S.faults src.old) (S.faults src.new) }
{
    read_plane_within(alloc, src, hdu, shape, &Limits::usual())
}

/// The same within these limits.
pub fn read_plane_within<S: Source>(
    alloc: Global,
    src: &mut S,
    hdu: &Hdu,
    shape: Shape,
    limits: &Limits,
) -> Result<Plane, PlaneStop>
    requires { checked limits.now hdu.now ≡ Ok shape }
    ensures told { ForSome (S.left src.old) (λ bytes. MatchResult result
        (λ plane. PlaneRead limits.now hdu.now shape bytes (S.left src.new) plane)
        (λ stop. PlaneStopped limits.now hdu.now shape bytes (S.left src.new) stop)) }
    ensures shape { IfOk result (λ plane. plane.shape ≡ shape) }
    ensures range { IfErr result (NamesPixel limits.now hdu.now shape) }
    ensures half_range { IfOk result (λ plane. HasValuesInHalfRange plane.values) }
    ensures truncated { IsErrOf result (PlaneStop.Fault PlaneFault.TruncatedData) →
        IsTrue (S.ended src.new) }
    ensures later { S.faults src.old ≤ S.faults src.new }
    ensures fault { IsErrOf result PlaneStop.ReadFault →
        Rose (S.faults src.old) (S.faults src.new) }
{
    let encoding = Encoding::of(hdu, shape, limits);
    let Ok(mut canvas) = Canvas::blank_within(alloc, shape, encoding.most()) else {
        return Err(PlaneStop::OutOfMemory);
    };
    match read_pixels(src, &encoding, &mut canvas) {
        Ok(()) => Ok(canvas.into_plane()),
        Err(stop) => Err(stop),
    }
}

// Gives the pixels their values, from the next bytes.
fn read_pixels<S: Source>(
    src: &mut S,
    encoding: &Encoding,
    canvas: &mut Canvas,
) -> Result<(), PlaneStop>
    requires most { canvas.old.most ≡ most_in encoding.now }
    requires in_limits { HasValuesInLimits encoding.now.limits canvas.old.values }
    ensures shape { canvas.new.shape ≡ canvas.old.shape }
    ensures count { length canvas.new.values ≡ length canvas.old.values }
    ensures most { canvas.new.most ≡ canvas.old.most }
    ensures in_limits { HasValuesInLimits encoding.now.limits canvas.new.values }
    ensures told { ForSome (S.left src.old) (λ bytes. MatchResult result
        (λ _. PixelsRead encoding.now bytes (S.left src.new) canvas.new.values)
        (λ stop. PixelsStopped encoding.now (length canvas.old.values) bytes
        (S.left src.new) stop)) }
    ensures range { IfErr result (NamesFar encoding.now (length canvas.old.values)) }
    ensures truncated { IsErrOf result (PlaneStop.Fault PlaneFault.TruncatedData) →
        IsTrue (S.ended src.new) }
    ensures later { S.faults src.old ≤ S.faults src.new }
    ensures fault { IsErrOf result PlaneStop.ReadFault →
        Rose (S.faults src.old) (S.faults src.new) }
{
    let count = canvas.shape().pixels();
    // A block holds a whole number of pixels of each size.
    let most = (AT_ONCE / encoding.size) as u32;
    let mut block = [0; AT_ONCE];
    let mut first = 0;
    while first < count {
        let end = count.min(first + most);
        let bytes = &mut block[..(end - first) as usize * encoding.size];
        if let Err(stop) = fill_all(src, bytes) {
            return Err(stop);
        }
        if let Err(far) = decode(encoding, bytes, canvas, first, end) {
            return Err(stop_at_range(src, &far, (count - end) as usize * encoding.size));
        }
        first = end;
    }
    Ok(())
}

// Why the reading of an image stops in which this is the first pixel out of range, and so many bytes are still to come: where
// they don't all come, that goes before it.
fn stop_at_range<S: Source>(src: &mut S, far: &PixelPlace, rest: usize) -> PlaneStop
    ensures told { ForSome (S.left src.old)
        (λ bytes. RestStopped rest far.now.pixel far.now.stored bytes (S.left src.new) result) }
    ensures range { NamesOnly far.now.pixel far.now.stored result }
    ensures truncated { result ≡ PlaneStop.Fault PlaneFault.TruncatedData →
        IsTrue (S.ended src.new) }
    ensures later { S.faults src.old ≤ S.faults src.new }
    ensures fault { result ≡ PlaneStop.ReadFault → Rose (S.faults src.old) (S.faults src.new) }
{
    match skip(src, rest as u64) {
        Ok(true) => PlaneStop::Fault(PlaneFault::PixelRange {
            pixel: far.pixel,
            stored: far.stored,
        }),
        Ok(false) => PlaneStop::Fault(PlaneFault::TruncatedData),
        Err(_) => PlaneStop::ReadFault,
    }
}

// Fills the buffer from the next bytes.
fn fill_all<S: Source>(src: &mut S, buf: &mut [u8]) -> Result<(), PlaneStop>
    ensures told { ForSome (S.left src.old) (λ bytes. MatchResult result
        (λ _. Fills bytes (S.left src.new) (length buf.new) buf.new)
        (λ stop. BytesStopped (length buf.new) bytes (S.left src.new) stop)) }
    ensures range { IfErr result NamesNone }
    ensures truncated { IsErrOf result (PlaneStop.Fault PlaneFault.TruncatedData) →
        IsTrue (S.ended src.new) }
    ensures later { S.faults src.old ≤ S.faults src.new }
    ensures fault { IsErrOf result PlaneStop.ReadFault →
        Rose (S.faults src.old) (S.faults src.new) }
{
    match fill(src, buf) {
        Ok(taken) if taken < buf.len() => Err(PlaneStop::Fault(PlaneFault::TruncatedData)),
        Ok(_) => Ok(()),
        Err(_) => Err(PlaneStop::ReadFault),
    }
}

// Gives the pixels from `first` up to `end` the values of the numbers in these bytes, as far as they are in range.
fn decode(
    encoding: &Encoding,
    bytes: &[u8],
    canvas: &mut Canvas,
    first: u32,
    end: u32,
) -> Result<(), PixelPlace>
    requires order { first ≤ end }
    requires room { (end - first) * encoding.now.size ≤ length bytes.now }
    requires within { end ≤ length canvas.old.values }
    requires most { canvas.old.most ≡ most_in encoding.now }
    requires in_limits { HasValuesInLimits encoding.now.limits canvas.old.values }
    ensures shape { canvas.new.shape ≡ canvas.old.shape }
    ensures count { length canvas.new.values ≡ length canvas.old.values }
    ensures most { canvas.new.most ≡ canvas.old.most }
    ensures in_limits { HasValuesInLimits encoding.now.limits canvas.new.values }
    ensures decoded { MatchResult result
        (λ _. IsDecoded encoding.now bytes.now first end canvas.old.values canvas.new.values)
        (λ far. FarInside encoding.now bytes.now first end canvas.old.values canvas.new.values far.pixel far.stored) }
{
    // A loop for each, so that no pixel is compared where none can be out of range.
    if encoding.is_never_far() {
        decode_narrow(encoding, bytes, canvas, first, end);
        return Ok(());
    }
    decode_compared(encoding, bytes, canvas, first, end)
}

// A run of pixels at a time, so that neither what size a number has nor how the canvas keeps pixels is asked for each.
fn decode_narrow(encoding: &Encoding, bytes: &[u8], canvas: &mut Canvas, first: u32, end: u32)
    requires order { first ≤ end }
    requires narrow { encoding.now.size ≢ 8 }
    requires holds { holds_narrow encoding.now.limits ≡ true }
    requires room { (end - first) * encoding.now.size ≤ length bytes.now }
    requires within { end ≤ length canvas.old.values }
    requires most { canvas.old.most ≡ most_in encoding.now }
    requires in_limits { HasValuesInLimits encoding.now.limits canvas.old.values }
    ensures shape { canvas.new.shape ≡ canvas.old.shape }
    ensures count { length canvas.new.values ≡ length canvas.old.values }
    ensures most { canvas.new.most ≡ canvas.old.most }
    ensures in_limits { HasValuesInLimits encoding.now.limits canvas.new.values }
    ensures decoded { IsDecoded encoding.now bytes.now first end canvas.old.values canvas.new.values }
{
    let mut pixels = [Pixel::of(None); RUN as usize];
    let mut p = first;
    while p < end {
        let count = (end - p).min(RUN);
        let run = &mut pixels[..count as usize];
        let at = (p - first) as usize * encoding.size;
        decode_run(encoding, &bytes[at..], run);
        canvas.put_pixels(p, run);
        p += count;
    }
}

fn decode_compared(
    encoding: &Encoding,
    bytes: &[u8],
    canvas: &mut Canvas,
    first: u32,
    end: u32,
) -> Result<(), PixelPlace>
    requires wide { holds_narrow encoding.now.limits ≡ true → encoding.now.size ≡ 8 }
    requires room { (end - first) * encoding.now.size ≤ length bytes.now }
    requires within { end ≤ length canvas.old.values }
    requires most { canvas.old.most ≡ most_in encoding.now }
    requires in_limits { HasValuesInLimits encoding.now.limits canvas.old.values }
    ensures shape { canvas.new.shape ≡ canvas.old.shape }
    ensures count { length canvas.new.values ≡ length canvas.old.values }
    ensures most { canvas.new.most ≡ canvas.old.most }
    ensures in_limits { HasValuesInLimits encoding.now.limits canvas.new.values }
    ensures decoded { MatchResult result
        (λ _. IsDecoded encoding.now bytes.now first end canvas.old.values canvas.new.values)
        (λ far. FarInside encoding.now bytes.now first end canvas.old.values canvas.new.values far.pixel far.stored) }
{
    for p in first..end {
        let at = (p - first) as usize * encoding.size;
        match encoding.compared_value(&bytes[at..]) {
            Ok(value) => canvas.set(p, value),
            Err(stored) => return Err(PixelPlace { pixel: p, stored }),
        }
    }
    Ok(())
}
