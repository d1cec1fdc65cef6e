//! The run as a whole.
ghost use Rattle.std.specs.Prelude.{◌≡◌, ℕ, List, false, true, Ok, IfOk, IfErr, IsErrOf, IsTrue};
ghost use Rattle.dev_io.specs.Causes.{Rose};
ghost use Rattle.command_line.specs.Lines.{texts};
ghost use Rattle.orders.specs.Words.{image_order_of, HasLimits};
ghost use Rattle.pixel_plane.specs.InputFaults.{IsCutStop};
ghost use Rattle.run_relation.specs.RunEnds.{IsMadeOf, EndBytes, EndCause};
ghost use Rattle.run_relation.specs.Headline.{Tells, use_of_input, use_of_output, IsUnused, IsRunOf};
ghost use Rattle.detect_top.specs.WordAnswers.{asked_by, asked_within, asked_of, asked_of_all};
ghost use Rattle.detect_top.specs.Made.{made_bytes, IsMade, IsOfInput};

use crate::making::{Made, make, make_trial, write_made};
use dev_io::{Sink, Source};
use measure_top::measure_input;
use orders::{Job, Order, Usage, read_order, read_order_within};
use pixel_plane::{Limits, Stop, read_image};
use run_relation::{End, tell};
use std::alloc::Global;
use std::thread::Threads;
use strip_crew::Gate;

// Reads the image, and makes what the order asks for.
fn make_of_input<R: Threads + Sync, S: Source, G: Gate>(
    rt: &R,
    alloc: Global,
    order: Order,
    limits: &Limits,
    input: &mut S,
    gate: &G,
) -> Result<Made, Stop>
    requires limits { HasLimits order }
    requires of_input { IsOfInput order.job }
    ensures asks { (asked_by limits.now (Ok order)).reads ≡ true }
    ensures told { (bytes : List ℕ) → Tells (asked_by limits.now (Ok order)) (S.left input.old) bytes →
        IsMadeOf (asked_by limits.now (Ok order)) bytes (S.left input.old) (S.left input.new)
        made_bytes result }
    ensures writable { IfOk result (λ made. IsMade made) }
    ensures reads { IsErrOf result Stop.ReadFault → Rose (S.faults input.old) (S.faults input.new) }
    ensures ended { IfErr result (λ stop. IsCutStop stop → IsTrue (S.ended input.new)) }
{
    let image = match read_image(alloc, input, order.hdu, limits) {
        Ok(image) => image,
        Err(stop) => return Err(stop),
    };
    match make(rt, alloc, image, order, gate) {
        Ok(product) => Ok(Made::OfOne(product)),
        Err(_) => Err(Stop::NoMemory),
    }
}

// Reads what the order needs, and makes what it asks for.
fn make_by_order<R: Threads + Sync, S: Source, G: Gate>(
    rt: &R,
    alloc: Global,
    order: Order,
    limits: &Limits,
    input: &mut S,
    gate: &G,
) -> Result<Made, Stop>
    requires limits { HasLimits order }
    ensures told { (bytes : List ℕ) → Tells (asked_by limits.now (Ok order)) (S.left input.old) bytes →
        IsMadeOf (asked_by limits.now (Ok order)) bytes (S.left input.old) (S.left input.new)
        made_bytes result }
    ensures writable { IfOk result (λ made. IsMade made) }
    ensures reads { IsErrOf result Stop.ReadFault → Rose (S.faults input.old) (S.faults input.new)
        × ((asked_by limits.now (Ok order)).reads ≡ true) }
    ensures ended { IfErr result (λ stop. IsCutStop stop → IsTrue (S.ended input.new)) }
    ensures untouched { (asked_by limits.now (Ok order)).reads ≡ false →
        IsUnused (use_of_input S.left S.ended S.faults input.old input.new) }
{
    match order.job {
        Job::Tree | Job::Filter { .. } | Job::Detect { .. } => {
            make_of_input(rt, alloc, order, limits, input, gate)
        }
        Job::Trial { seed, shape } => match make_trial(rt, alloc, order, seed, shape, gate) {
            Ok(product) => Ok(Made::OfOne(product)),
            Err(_) => Err(Stop::NoMemory),
        },
        Job::Measure { choice, values } => {
            match measure_input(rt, alloc, order, choice, values, limits, input, gate) {
                Ok(found) => Ok(Made::OfTwo(found)),
                Err(stop) => Err(stop),
            }
        }
    }
}

// Does the work of an order.
fn carry_out<R: Threads + Sync, S: Source, O: Sink, G: Gate>(
    rt: &R,
    alloc: Global,
    order: Order,
    limits: &Limits,
    input: &mut S,
    output: &mut O,
    gate: &G,
) -> End
    requires limits { HasLimits order }
    ensures bytes { (bytes : List ℕ) → Tells (asked_by limits.now (Ok order)) (S.left input.old) bytes →
        EndBytes (asked_by limits.now (Ok order)) bytes
        (use_of_input S.left S.ended S.faults input.old input.new)
        (use_of_output O.written O.settled O.faults output.old output.new) result }
    ensures cause { EndCause (asked_by limits.now (Ok order))
        (use_of_input S.left S.ended S.faults input.old input.new)
        (use_of_output O.written O.settled O.faults output.old output.new) result }
    ensures untouched { (asked_by limits.now (Ok order)).reads ≡ false →
        IsUnused (use_of_input S.left S.ended S.faults input.old input.new) }
{
    let made = match make_by_order(rt, alloc, order, limits, input, gate) {
        Ok(made) => made,
        Err(Stop::Refused(fault)) => return End::Refused(fault),
        Err(Stop::ReadFault) => return End::ReadFault,
        Err(Stop::NoMemory) => return End::NoMemory,
    };
    match write_made(rt, alloc, output, &made) {
        Ok(()) => End::Done,
        Err(_) => End::WriteFault,
    }
}

fn work<R: Threads + Sync, S: Source, O: Sink, G: Gate>(
    rt: &R,
    alloc: Global,
    order: Result<Order, Usage>,
    limits: &Limits,
    input: &mut S,
    output: &mut O,
    gate: &G,
) -> End
    requires { IfOk order HasLimits }
    ensures bytes { (bytes : List ℕ) → Tells (asked_by limits.now order) (S.left input.old) bytes →
        EndBytes (asked_by limits.now order) bytes
        (use_of_input S.left S.ended S.faults input.old input.new)
        (use_of_output O.written O.settled O.faults output.old output.new) result }
    ensures cause { EndCause (asked_by limits.now order)
        (use_of_input S.left S.ended S.faults input.old input.new)
        (use_of_output O.written O.settled O.faults output.old output.new) result }
    ensures untouched { (asked_by limits.now order).reads ≡ false →
        IsUnused (use_of_input S.left S.ended S.faults input.old input.new) }
{
    match order {
        Ok(order) => carry_out(rt, alloc, order, limits, input, output, gate),
        Err(usage) => End::Usage(usage),
    }
}

// The run of an order, or of words that give none, from its beginning to its end.
fn run_order<R: Threads + Sync, S: Source, O: Sink, N: Sink, G: Gate>(
    rt: &R,
    alloc: Global,
    order: Result<Order, Usage>,
    limits: &Limits,
    input: &mut S,
    output: &mut O,
    notes: &mut N,
    gate: &G,
) -> u8
    requires { IfOk order HasLimits }
    ensures { IsRunOf (asked_by limits.now order)
        (use_of_input S.left S.ended S.faults input.old input.new)
        (use_of_output O.written O.settled O.faults output.old output.new)
        (use_of_output N.written N.settled N.faults notes.old notes.new) result }
{
    let end = work(rt, alloc, order, limits, input, output, gate);
    tell(notes, end);
    end.status()
}

/// Does what the words say, over this input, where images have these limits, and tells how it ended: all of a run but its line on the notes. With
/// `measure` as the first word, sources are detected in one image and measured in another of the same file; all other words work on one image, or
/// make one. No area that the words name is larger than the most pixels of an image. An image that a trial makes has the usual limits.
///
/// All memory on which an answer depends is taken before the first byte of output, which comes in pieces of at most 2,880 bytes. What is taken later
/// are texts of a tree's lines, where several workers make them: where memory for these is refused, the lines are made without.
pub fn end_within<R: Threads + Sync, S: Source, O: Sink, G: Gate>(
    rt: &R,
    alloc: Global,
    words: &[&str],
    limits: &Limits,
    input: &mut S,
    output: &mut O,
    gate: &G,
) -> End
    ensures bytes { (bytes : List ℕ) → Tells (asked_within limits.now (texts words.now)) (S.left input.old) bytes →
        EndBytes (asked_within limits.now (texts words.now)) bytes
        (use_of_input S.left S.ended S.faults input.old input.new)
        (use_of_output O.written O.settled O.faults output.old output.new) result }
    ensures cause { EndCause (asked_within limits.now (texts words.now))
        (use_of_input S.left S.ended S.faults input.old input.new)
        (use_of_output O.written O.settled O.faults output.old output.new) result }
    ensures untouched { (asked_within limits.now (texts words.now)).reads ≡ false →
        IsUnused (use_of_input S.left S.ended S.faults input.old input.new) }
{
    let order = read_order_within(words, limits.pixels);
    work(rt, alloc, order, limits, input, output, gate)
}

/// The whole run. Its input, its output and its status are those of [`end_within`], which has no notes: so notes decide nothing, whether they take
/// their line or not.
pub fn run_within<R: Threads + Sync, S: Source, O: Sink, N: Sink, G: Gate>(
    rt: &R,
    alloc: Global,
    words: &[&str],
    limits: &Limits,
    input: &mut S,
    output: &mut O,
    notes: &mut N,
    gate: &G,
) -> u8
    ensures { IsRunOf (asked_within limits.now (texts words.now))
        (use_of_input S.left S.ended S.faults input.old input.new)
        (use_of_output O.written O.settled O.faults output.old output.new)
        (use_of_output N.written N.settled N.faults notes.old notes.new) result }
{
    let end = end_within(rt, alloc, words, limits, input, output, gate);
    tell(notes, end);
    end.status()
}

/// The same where images have the usual limits.
pub fn run_all<R: Threads + Sync, S: Source, O: Sink, N: Sink, G: Gate>(
    rt: &R,
    alloc: Global,
    words: &[&str],
    input: &mut S,
    output: &mut O,
    notes: &mut N,
    gate: &G,
) -> u8
    ensures { IsRunOf (asked_of_all (texts words.now))
        (use_of_input S.left S.ended S.faults input.old input.new)
        (use_of_output O.written O.settled O.faults output.old output.new)
        (use_of_output N.written N.settled N.faults notes.old notes.new) result }
{
    run_within(
        rt,
        alloc,
        words,
        &Limits::usual(),
        input,
        output,
        notes,
        gate,
    )
}

/// Reads the words of a command that works on one image, or makes one: `measure` is none of these, and is a word at fault. It takes no memory.
pub fn read_words(words: &[&str]) -> Result<Order, Usage>
    ensures order { result ≡ image_order_of (texts words.now) }
    ensures limits { IfOk result HasLimits }
{
    match words.first() {
        Some(word) if *word == "measure" => Err(Usage { word: 1 }),
        _ => read_order(words),
    }
}

/// Does what words say that work on one image, or make one: `run_all` for these words alone.
pub fn run<R: Threads + Sync, S: Source, O: Sink, N: Sink, G: Gate>(
    rt: &R,
    alloc: Global,
    words: &[&str],
    input: &mut S,
    output: &mut O,
    notes: &mut N,
    gate: &G,
) -> u8
    ensures { IsRunOf (asked_of (texts words.now))
        (use_of_input S.left S.ended S.faults input.old input.new)
        (use_of_output O.written O.settled O.faults output.old output.new)
        (use_of_output N.written N.settled N.faults notes.old notes.new) result }
{
    let order = read_words(words);
    run_order(
        rt,
        alloc,
        order,
        &Limits::usual(),
        input,
        output,
        notes,
        gate,
    )
}
