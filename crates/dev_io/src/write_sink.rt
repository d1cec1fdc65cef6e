//! A sink over a writer of std.
ghost use Rattle.std.specs.Prelude.{◌≡◌, false};

use crate::{Failed, Sink};
use std::io::Write;

/// A sink over a writer of std, the trusted edge on the side of the output. It tells what the writer tells: over memory its
/// bytes, over standard output nothing. An error of the writer is a fault, and so is a write that takes nothing of a piece.
#[derive(Debug, Drop)]
pub struct WriteSink<W> {
    writer: W,
    settled: bool,
    faults: u64,
}

impl<W: Write> WriteSink<W> {
    /// Nothing was written yet.
    pub fn new(writer: W) -> Self
        ensures writer { ⟦<WriteSink<W> as Sink>⟧.written result ≡ W.contents writer }
        ensures unsettled { ⟦<WriteSink<W> as Sink>⟧.settled result ≡ false }
        ensures faults { ⟦<WriteSink<W> as Sink>⟧.faults result ≡ 0 }
    {
        WriteSink {
            writer,
            settled: false,
            faults: 0,
        }
    }
}

impl<W: Write> Sink for WriteSink<W> {
    ghost written = { λ s. W.contents s.writer };

    ghost settled = { λ s. s.settled };

    ghost faults = { λ s. s.faults };

    // Writes until the writer has taken the whole piece.
    fn put(&mut self, piece: &[u8]) -> Result<(), Failed> {
        self.settled = false;
        let mut rest = piece;
        while !rest.is_empty() {
            match self.writer.write(rest) {
                Ok(count) if count > 0 => rest = &rest[count..],
                _ => {
                    self.faults = self.faults.saturating_add(1);
                    return Err(Failed);
                }
            }
        }
        Ok(())
    }

    // Flushes the writer.
    fn done(&mut self) -> Result<(), Failed> {
        match self.writer.flush() {
            Ok(()) => {
                self.settled = true;
                Ok(())
            }
            Err(_) => {
                self.settled = false;
                self.faults = self.faults.saturating_add(1);
                Err(Failed)
            }
        }
    }
}
