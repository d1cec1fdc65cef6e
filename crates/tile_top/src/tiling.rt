//! The run of `tile`: the image of a window is read, and what detection tells there of the image's core is written as a tile's file.
ghost use Rattle.std.specs.Prelude.{◌≡◌, ◌≤◌, ℕ, List, true, false, IfOk, IfErr, IsErrOf, IsTrue, OnOk};
ghost use Rattle.dev_io.specs.Causes.{HasCause, Rose};
ghost use Rattle.dev_io.specs.Streams.{PutAppends};
ghost use Rattle.command_line.specs.Lines.{texts};
ghost use Rattle.comp_tree.specs.Raster.{HasValuesInHalfRange};
ghost use Rattle.orders.specs.Words.{HasLimits};
ghost use Rattle.pixel_plane.specs.InputFaults.{IsCutStop};
ghost use Rattle.run_relation.specs.RunEnds.{IsMadeOf, EndBytes, EndCause};
ghost use Rattle.run_relation.specs.Headline.{Tells, use_of_input, use_of_output, IsUnused, IsRunOf};
ghost use Rattle.tile_make.specs.Placed.{is_tile_place};
ghost use Rattle.tile_file.specs.TileFiles.{CanBePut, file_bytes};
ghost use Rattle.tile_top.specs.TileAnswers.{tile_output, has_window_shape, asked_for_tile, asked_of_tile};
ghost use Rattle.tile_top.specs.Reading.{IsTileOrder};

use comp_tree::{Plane, Shape};
use costs::OutOfMemory;
use dev_io::{Sink, Source};
use fits_write::WriteFault;
use pixel_plane::{Fault, Limits, Stop, read_image};
use run_relation::{End, tell};
use std::alloc::Global;
use std::thread::Threads;
use strip_crew::Gate;
use tile_file::{TileFile, file_of, put_file};
use tile_make::{TileStop, make_tile};
use tile_words::{TileOrder, read_tile_order};

// Whether an image has the shape of the order's window.
fn has_window_shape(order: &TileOrder, shape: Shape) -> bool
    ensures { result ≡ has_window_shape order.now shape }
{
    shape.width == order.window.width && shape.height == order.window.height
}

// What the order makes of the image of its window. All memory for it is taken here.
fn make_file<R: Threads + Sync, G: Gate>(
    rt: &R,
    alloc: Global,
    image: Plane,
    order: &TileOrder,
    gate: &G,
) -> Result<TileFile, OutOfMemory>
    requires order { IsTileOrder order.now }
    requires shape { has_window_shape order.now image.shape ≡ true }
    requires storable { HasValuesInHalfRange image.values }
    ensures writable { IfOk result CanBePut }
    ensures bytes { IfOk result (λ file. file_bytes file ≡ tile_output order.now image) }
{
    match make_tile(
        rt,
        alloc,
        image,
        &order.order,
        order.empty,
        &order.choice,
        &order.place,
        gate,
    ) {
        Ok(tile) => file_of(alloc, tile),
        Err(TileStop::Misplaced) => unreachable!(),
        Err(TileStop::NoMemory) => Err(OutOfMemory),
    }
}

// Reads the image of the window, and makes what the order asks for.
fn read_and_make<R: Threads + Sync, S: Source, G: Gate>(
    rt: &R,
    alloc: Global,
    order: &TileOrder,
    limits: &Limits,
    input: &mut S,
    gate: &G,
) -> Result<TileFile, Stop>
    requires order { IsTileOrder order.now }
    ensures told { (bytes : List ℕ) → Tells (asked_for_tile limits.now order.now) (S.left input.old) bytes →
        IsMadeOf (asked_for_tile limits.now order.now) bytes (S.left input.old) (S.left input.new) file_bytes result }
    ensures writable { IfOk result CanBePut }
    ensures reads { IsErrOf result Stop.ReadFault → Rose (S.faults input.old) (S.faults input.new) }
    ensures ended { IfErr result (λ stop. IsCutStop stop → IsTrue (S.ended input.new)) }
{
    let image = match read_image(alloc, input, order.order.hdu, limits) {
        Ok(image) => image,
        Err(stop) => return Err(stop),
    };
    if !has_window_shape(order, image.shape()) {
        return Err(Stop::Refused(Fault::ShapeDiffers));
    }
    match make_file(rt, alloc, image, order, gate) {
        Ok(file) => Ok(file),
        Err(_) => Err(Stop::NoMemory),
    }
}

// Writes a tile's file, and hands all of it on.
fn write_file<O: Sink>(output: &mut O, file: &TileFile) -> Result<(), WriteFault>
    requires { CanBePut file.now }
    ensures bytes { PutAppends (O.written output.old) (O.written output.new) result (file_bytes file.now) }
    ensures settled { OnOk result (IsTrue (O.settled output.new)) }
    ensures cause { HasCause (O.faults output.old) (O.faults output.new) result }
{
    if let Err(fault) = put_file(output, file) {
        return Err(fault);
    }
    match output.done() {
        Ok(()) => Ok(()),
        Err(_) => Err(WriteFault),
    }
}

// Does the work of an order.
fn carry_out<R: Threads + Sync, S: Source, O: Sink, G: Gate>(
    rt: &R,
    alloc: Global,
    order: &TileOrder,
    limits: &Limits,
    input: &mut S,
    output: &mut O,
    gate: &G,
) -> End
    requires order { IsTileOrder order.now }
    ensures bytes { (bytes : List ℕ) → Tells (asked_for_tile limits.now order.now) (S.left input.old) bytes →
        EndBytes (asked_for_tile limits.now order.now) bytes
        (use_of_input S.left S.ended S.faults input.old input.new)
        (use_of_output O.written O.settled O.faults output.old output.new) result }
    ensures cause { EndCause (asked_for_tile limits.now order.now)
        (use_of_input S.left S.ended S.faults input.old input.new)
        (use_of_output O.written O.settled O.faults output.old output.new) result }
{
    let file = match read_and_make(rt, alloc, order, limits, input, gate) {
        Ok(file) => file,
        Err(Stop::Refused(fault)) => return End::Refused(fault),
        Err(Stop::ReadFault) => return End::ReadFault,
        Err(Stop::NoMemory) => return End::NoMemory,
    };
    match write_file(output, &file) {
        Ok(()) => End::Done,
        Err(_) => End::WriteFault,
    }
}

/// Does what the words of `tile` say, over this input, where images have these limits: all of a run but its line on the notes.
///
/// The image is that of the window which the words name; one of another shape is refused, as `ShapeDiffers`. All memory is taken before the first byte
/// of output, which comes in pieces of at most 2,880 bytes.
pub fn end_of_tile<R: Threads + Sync, S: Source, O: Sink, G: Gate>(
    rt: &R,
    alloc: Global,
    words: &[&str],
    limits: &Limits,
    input: &mut S,
    output: &mut O,
    gate: &G,
) -> End
    ensures bytes { (bytes : List ℕ) → Tells (asked_of_tile limits.now (texts words.now)) (S.left input.old) bytes →
        EndBytes (asked_of_tile limits.now (texts words.now)) bytes
        (use_of_input S.left S.ended S.faults input.old input.new)
        (use_of_output O.written O.settled O.faults output.old output.new) result }
    ensures cause { EndCause (asked_of_tile limits.now (texts words.now))
        (use_of_input S.left S.ended S.faults input.old input.new)
        (use_of_output O.written O.settled O.faults output.old output.new) result }
    ensures untouched { (asked_of_tile limits.now (texts words.now)).reads ≡ false →
        IsUnused (use_of_input S.left S.ended S.faults input.old input.new) }
{
    match read_tile_order(words, limits.pixels) {
        Ok(order) => carry_out(rt, alloc, &order, limits, input, output, gate),
        Err(usage) => End::Usage(usage),
    }
}

/// The whole run. Its input, its output and its status are those of [`end_of_tile`], which has no notes.
pub fn run_tile<R: Threads + Sync, S: Source, O: Sink, N: Sink, G: Gate>(
    rt: &R,
    alloc: Global,
    words: &[&str],
    limits: &Limits,
    input: &mut S,
    output: &mut O,
    notes: &mut N,
    gate: &G,
) -> u8
    ensures { IsRunOf (asked_of_tile limits.now (texts words.now))
        (use_of_input S.left S.ended S.faults input.old input.new)
        (use_of_output O.written O.settled O.faults output.old output.new)
        (use_of_output N.written N.settled N.faults notes.old notes.new) result }
{
    let end = end_of_tile(rt, alloc, words, limits, input, output, gate);
    tell(notes, end);
    end.status()
}
