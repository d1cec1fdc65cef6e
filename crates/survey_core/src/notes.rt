//! The line on the notes.
ghost use Rattle.std.specs.Prelude.{◌≡◌, ◌≤◌, length};
ghost use Rattle.dev_io.specs.Causes.{HasCause};
ghost use Rattle.dev_io.specs.Streams.{PutAppends};
ghost use Rattle.survey_core.specs.Answers.{session_note, stop_line, line_with_place, survey_refusal_line};
ghost use Rattle.command_line.specs.Notes.{Noted};

use crate::Fault;
use crate::fault::{FaultPlace, Stop};
use crate::top::End;
use command_line::lines::put_line;
use command_line::notes::put_usage;
use dev_io::{Failed, Sink};
use itoa::Buffer;

// The card or the row at fault stands behind the number and the name.
fn put_place<N: Sink>(
    notes: &mut N,
    number: &[u8],
    name: &[u8],
    place: FaultPlace,
) -> Result<(), Failed>
    requires short_number { length number.now ≤ 40 }
    requires short_name { length name.now ≤ 15 }
    ensures bytes { PutAppends (N.written notes.old) (N.written notes.new) result (line_with_place number.now name.now place) }
    ensures cause { HasCause (N.faults notes.old) (N.faults notes.new) result }
{
    let mut first = Buffer::new();
    let mut second = Buffer::new();
    match place {
        FaultPlace::Card(place) => put_line(
            notes,
            &[
                b"refused: ",
                number,
                b" ",
                name,
                b" hdu ",
                first.format(place.hdu).as_bytes(),
                b" card ",
                second.format(place.card).as_bytes(),
                b"\n",
            ],
        ),
        FaultPlace::Row(row) => put_line(
            notes,
            &[
                b"refused: ",
                number,
                b" ",
                name,
                b" row ",
                first.format(row).as_bytes(),
                b"\n",
            ],
        ),
    }
}

fn put_refusal<N: Sink>(notes: &mut N, fault: Fault) -> Result<(), Failed>
    ensures bytes { PutAppends (N.written notes.old) (N.written notes.new) result (survey_refusal_line fault) }
    ensures cause { HasCause (N.faults notes.old) (N.faults notes.new) result }
{
    let mut number = Buffer::new();
    let number = number.format(fault.number()).as_bytes();
    let name = fault.name().as_bytes();
    match fault.place() {
        Some(place) => put_place(notes, number, name, place),
        None => put_line(notes, &[b"refused: ", number, b" ", name, b"\n"]),
    }
}

fn put_stop<N: Sink>(notes: &mut N, stop: Stop) -> Result<(), Failed>
    ensures bytes { PutAppends (N.written notes.old) (N.written notes.new) result (stop_line stop) }
    ensures cause { HasCause (N.faults notes.old) (N.faults notes.new) result }
{
    match stop {
        Stop::Refused(fault) => put_refusal(notes, fault),
        Stop::ReadFault => notes.put(b"read fault\n"),
        Stop::WriteFault => notes.put(b"write fault\n"),
        Stop::NoMemory => notes.put(b"out of memory\n"),
        Stop::KeeperFault => notes.put(b"keeper fault\n"),
    }
}

fn put_note<N: Sink>(notes: &mut N, end: End) -> Result<(), Failed>
    ensures bytes { PutAppends (N.written notes.old) (N.written notes.new) result (session_note end) }
    ensures cause { HasCause (N.faults notes.old) (N.faults notes.new) result }
{
    match end {
        End::Done => Ok(()),
        End::Usage(usage) => put_usage(notes, usage.word),
        End::Stopped(stop) => put_stop(notes, stop),
    }
}

/// Tells how the session ended. What the notes answer changes nothing.
pub(crate) fn tell<N: Sink>(notes: &mut N, end: End)
    ensures { Noted (N.written notes.old) (N.written notes.new) (N.settled notes.new) (N.faults notes.old) (N.faults notes.new) (session_note end) }
{
    if matches!(end, End::Done) {
        return;
    }
    if let Err(_) = put_note(notes, end) {
        return;
    }
    let _ = notes.done();
}
