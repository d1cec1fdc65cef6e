//! The line on the notes.
ghost use Rattle.std.specs.Prelude.{◌≤◌, length};
ghost use Rattle.dev_io.specs.Causes.{HasCause};
ghost use Rattle.dev_io.specs.Streams.{PutAppends};
ghost use Rattle.run_relation.specs.Answers.{note_of, line_at_place, refusal_line};
ghost use Rattle.command_line.specs.Notes.{Noted};

use crate::ends::End;
use command_line::lines::put_line;
use command_line::notes::put_usage;
use dev_io::{Failed, Sink};
use fits_hdu::CardPlace;
use itoa::Buffer;
use pixel_plane::{Fault, PixelPlace, Place};

fn put_card<N: Sink>(
    notes: &mut N,
    number: &[u8],
    name: &[u8],
    place: CardPlace,
) -> Result<(), Failed>
    requires short_number { length number.now ≤ 40 }
    requires short_name { length name.now ≤ 15 }
    ensures bytes { PutAppends (N.written notes.old) (N.written notes.new) result
        (line_at_place number.now name.now (Place.Card place)) }
    ensures cause { HasCause (N.faults notes.old) (N.faults notes.new) result }
{
    let mut hdu = Buffer::new();
    let mut card = Buffer::new();
    put_line(
        notes,
        &[
            b"refused: ",
            number,
            b" ",
            name,
            b" hdu ",
            hdu.format(place.hdu).as_bytes(),
            b" card ",
            card.format(place.card).as_bytes(),
            b"\n",
        ],
    )
}

fn put_pixel<N: Sink>(
    notes: &mut N,
    number: &[u8],
    name: &[u8],
    place: PixelPlace,
) -> Result<(), Failed>
    requires short_number { length number.now ≤ 40 }
    requires short_name { length name.now ≤ 15 }
    ensures bytes { PutAppends (N.written notes.old) (N.written notes.new) result
        (line_at_place number.now name.now (Place.Pixel place)) }
    ensures cause { HasCause (N.faults notes.old) (N.faults notes.new) result }
{
    let mut pixel = Buffer::new();
    let mut stored = Buffer::new();
    put_line(
        notes,
        &[
            b"refused: ",
            number,
            b" ",
            name,
            b" pixel ",
            pixel.format(place.pixel).as_bytes(),
            b" stored ",
            stored.format(place.stored).as_bytes(),
            b"\n",
        ],
    )
}

// Puts the line of a fault: its number, its name, and the card or the pixel at fault.
fn put_refusal<N: Sink>(notes: &mut N, fault: Fault) -> Result<(), Failed>
    ensures bytes { PutAppends (N.written notes.old) (N.written notes.new) result
        (refusal_line fault) }
    ensures cause { HasCause (N.faults notes.old) (N.faults notes.new) result }
{
    let mut number = Buffer::new();
    let number = number.format(fault.number()).as_bytes();
    let name = fault.name().as_bytes();
    match fault.place() {
        Some(Place::Card(place)) => put_card(notes, number, name, place),
        Some(Place::Pixel(place)) => put_pixel(notes, number, name, place),
        None => put_line(notes, &[b"refused: ", number, b" ", name, b"\n"]),
    }
}

fn put_note<N: Sink>(notes: &mut N, end: End) -> Result<(), Failed>
    ensures bytes { PutAppends (N.written notes.old) (N.written notes.new) result (note_of end) }
    ensures cause { HasCause (N.faults notes.old) (N.faults notes.new) result }
{
    match end {
        End::Done => Ok(()),
        End::Usage(usage) => put_usage(notes, usage.word as usize),
        End::Refused(fault) => put_refusal(notes, fault),
        End::ReadFault => notes.put(b"read fault\n"),
        End::WriteFault => notes.put(b"write fault\n"),
        End::NoMemory => notes.put(b"out of memory\n"),
    }
}

/// Tells how the run ended. What the notes answer changes nothing.
pub fn tell<N: Sink>(notes: &mut N, end: End)
    ensures { Noted (N.written notes.old) (N.written notes.new) (N.settled notes.new)
        (N.faults notes.old) (N.faults notes.new) (note_of end) }
{
    if matches!(end, End::Done) {
        return;
    }
    if let Err(_) = put_note(notes, end) {
        return;
    }
    let _ = notes.done();
}
