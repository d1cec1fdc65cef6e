//! The run as a whole.
ghost use Rattle.std.specs.Prelude.{◌≡◌, ℕ, List, Some, Ok, IsTrue, OnOk};
ghost use Rattle.dev_io.specs.Causes.{HasCause};
ghost use Rattle.dev_io.specs.Streams.{PutAppends};
ghost use Rattle.command_line.specs.Lines.{texts};
ghost use Rattle.run_relation.specs.Headline.{use_of_input, use_of_output};
ghost use Rattle.tree_products.specs.Catalogues.{hdus, IsDetection};
ghost use Rattle.tile_words.specs.TileWords.{join_order_of};
ghost use Rattle.join_top.specs.JoinHeadline.{JoinEndsBy, JoinEndCause, IsJoinOf};

use crate::ends::JoinEnd;
use crate::making::{MakeStop, make_joined};
use crate::notes::tell_join;
use crate::reading::{ReadStop, read_all};
use dev_io::{Sink, Source};
use std::alloc::Global;
use tile_words::read_join;
use tree_products::{Detection, WriteFault, put_detection};

// Writes a primary HDU, the map and the catalogue, and hands all of it on.
fn write_joined<O: Sink>(output: &mut O, found: &Detection) -> Result<(), WriteFault>
    requires { IsDetection found.now.shape found.now.map.items found.now.cells.items }
    ensures bytes { PutAppends (O.written output.old) (O.written output.new) result
        (hdus found.now.shape found.now.map.items found.now.cells.items) }
    ensures settled { OnOk result (IsTrue (O.settled output.new)) }
    ensures cause { HasCause (O.faults output.old) (O.faults output.new) result }
{
    if let Err(fault) = put_detection(output, found) {
        return Err(fault);
    }
    match output.done() {
        Ok(()) => Ok(()),
        Err(_) => Err(WriteFault),
    }
}

// Reads the tiles, joins them, and writes what they give.
fn carry_out<S: Source, O: Sink>(alloc: Global, input: &mut S, output: &mut O) -> JoinEnd
    ensures told { (bytes : List ℕ) → S.left input.old ≡ Some bytes → JoinEndsBy bytes
        (use_of_input S.left S.ended S.faults input.old input.new)
        (use_of_output O.written O.settled O.faults output.old output.new) result }
    ensures cause { JoinEndCause (Ok tt)
        (use_of_input S.left S.ended S.faults input.old input.new)
        (use_of_output O.written O.settled O.faults output.old output.new) result }
{
    let bytes = match read_all(alloc, input) {
        Ok(bytes) => bytes,
        Err(ReadStop::ReadFault) => return JoinEnd::ReadFault,
        Err(ReadStop::NoMemory) => return JoinEnd::NoMemory,
    };
    let found = match make_joined(alloc, bytes) {
        Ok(found) => found,
        Err(MakeStop::Refused(refusal)) => return JoinEnd::Refused(refusal),
        Err(MakeStop::NoMemory) => return JoinEnd::NoMemory,
    };
    match write_joined(output, &found) {
        Ok(()) => JoinEnd::Done,
        Err(_) => JoinEnd::WriteFault,
    }
}

/// Joins the tiles whose files stand on the input, one behind the other in any order: all of a run of `join` but its line on the notes. Where they
/// are what detection makes of windows of one image, the output is what `detect` writes of the whole image.
///
/// All of the input is read before tiles are looked at, and let go before they are joined. All memory is taken before the first byte of output, which
/// comes in pieces of at most 2,880 bytes.
pub fn end_of_join<S: Source, O: Sink>(
    alloc: Global,
    words: &[&str],
    input: &mut S,
    output: &mut O,
) -> JoinEnd
    ensures told { (bytes : List ℕ) → join_order_of (texts words.now) ≡ Ok tt → S.left input.old ≡ Some bytes → JoinEndsBy bytes
        (use_of_input S.left S.ended S.faults input.old input.new)
        (use_of_output O.written O.settled O.faults output.old output.new) result }
    ensures cause { JoinEndCause (join_order_of (texts words.now))
        (use_of_input S.left S.ended S.faults input.old input.new)
        (use_of_output O.written O.settled O.faults output.old output.new) result }
{
    match read_join(words) {
        Ok(()) => carry_out(alloc, input, output),
        Err(usage) => JoinEnd::Usage(usage),
    }
}

/// The whole run. Its input, its output and its status are those of [`end_of_join`], which has no notes.
pub fn run_join<S: Source, O: Sink, N: Sink>(
    alloc: Global,
    words: &[&str],
    input: &mut S,
    output: &mut O,
    notes: &mut N,
) -> u8
    ensures { IsJoinOf (join_order_of (texts words.now))
        (use_of_input S.left S.ended S.faults input.old input.new)
        (use_of_output O.written O.settled O.faults output.old output.new)
        (use_of_output N.written N.settled N.faults notes.old notes.new) result }
{
    let end = end_of_join(alloc, words, input, output);
    tell_join(notes, end);
    end.status()
}
