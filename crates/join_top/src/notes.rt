//! The line on the notes.
ghost use Rattle.dev_io.specs.Causes.{HasCause};
ghost use Rattle.dev_io.specs.Streams.{PutAppends};
ghost use Rattle.command_line.specs.Notes.{Noted};
ghost use Rattle.join_top.specs.JoinNotes.{join_note, join_refusal_line};

use crate::ends::{JoinEnd, JoinPlace, JoinRefusal};
use command_line::lines::put_line;
use command_line::notes::put_usage;
use dev_io::{Failed, Sink};
use itoa::Buffer;

// Puts the line of a refusal: its number, its name, and the tile or the pixel at fault.
fn put_refusal<N: Sink>(notes: &mut N, refusal: JoinRefusal) -> Result<(), Failed>
    ensures bytes { PutAppends (N.written notes.old) (N.written notes.new) result (join_refusal_line refusal) }
    ensures cause { HasCause (N.faults notes.old) (N.faults notes.new) result }
{
    let mut number = Buffer::new();
    let number = number.format(refusal.number()).as_bytes();
    let name = refusal.name().as_bytes();
    let mut place = Buffer::new();
    match refusal.place() {
        Some(JoinPlace::Tile(tile)) => {
            let tile = place.format(tile).as_bytes();
            put_line(
                notes,
                &[b"refused: ", number, b" ", name, b" tile ", tile, b"\n"],
            )
        }
        Some(JoinPlace::Pixel(pixel)) => {
            let pixel = place.format(pixel).as_bytes();
            put_line(
                notes,
                &[b"refused: ", number, b" ", name, b" pixel ", pixel, b"\n"],
            )
        }
        None => put_line(notes, &[b"refused: ", number, b" ", name, b"\n"]),
    }
}

fn put_note<N: Sink>(notes: &mut N, end: JoinEnd) -> Result<(), Failed>
    ensures bytes { PutAppends (N.written notes.old) (N.written notes.new) result (join_note end) }
    ensures cause { HasCause (N.faults notes.old) (N.faults notes.new) result }
{
    match end {
        JoinEnd::Done => Ok(()),
        JoinEnd::Usage(usage) => put_usage(notes, usage.word as usize),
        JoinEnd::Refused(refusal) => put_refusal(notes, refusal),
        JoinEnd::ReadFault => notes.put(b"read fault\n"),
        JoinEnd::WriteFault => notes.put(b"write fault\n"),
        JoinEnd::NoMemory => notes.put(b"out of memory\n"),
    }
}

// Tells how the run ended. What the notes answer changes nothing.
pub(crate) fn tell_join<N: Sink>(notes: &mut N, end: JoinEnd)
    ensures { Noted (N.written notes.old) (N.written notes.new) (N.settled notes.new)
        (N.faults notes.old) (N.faults notes.new) (join_note end) }
{
    if matches!(end, JoinEnd::Done) {
        return;
    }
    if let Err(_) = put_note(notes, end) {
        return;
    }
    let _ = notes.done();
}
