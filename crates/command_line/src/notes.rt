//! What a program tells of its end.
ghost use Rattle.dev_io.specs.Causes.{HasCause};
ghost use Rattle.dev_io.specs.Streams.{PutAppends};
ghost use Rattle.command_line.specs.Notes.{usage_line};

use crate::lines::put_line;
use dev_io::{Failed, Sink};
use itoa::Buffer;

/// Writes the line that names the word at fault, counted from 1. A word that is missing stands behind the last.
pub fn put_usage<N: Sink>(notes: &mut N, word: usize) -> Result<(), Failed>
    ensures bytes { PutAppends (N.written notes.old) (N.written notes.new) result
        (usage_line word) }
    ensures cause { HasCause (N.faults notes.old) (N.faults notes.new) result }
{
    let mut buffer = Buffer::new();
    put_line(
        notes,
        &[b"usage: word ", buffer.format(word).as_bytes(), b"\n"],
    )
}
