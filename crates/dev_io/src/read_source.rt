//! A source over a reader of std.
ghost use Rattle.std.specs.Prelude.{◌≡◌, false};
ghost use Rattle.dev_io.specs.Adapters.{left_after, left_after-ended};

use crate::{Failed, Source};
use std::io::Read;

/// A source over a reader of std, the trusted edge on the side of the input. It tells what the reader tells: over memory its
/// bytes, over standard input nothing. An error of the reader, of any kind, is a fault.
#[derive(Debug, Drop)]
pub struct ReadSource<R> {
    reader: R,
    ended: bool,
    faults: u64,
}

impl<R: Read> ReadSource<R> {
    /// Nothing was read yet.
    pub fn new(reader: R) -> Self
        ensures reader { ⟦<ReadSource<R> as Source>⟧.left result ≡ R.remaining reader }
        ensures fresh { ⟦<ReadSource<R> as Source>⟧.ended result ≡ false }
        ensures faults { ⟦<ReadSource<R> as Source>⟧.faults result ≡ 0 }
    {
        ReadSource {
            reader,
            ended: false,
            faults: 0,
        }
    }
}

impl<R: Read> Source for ReadSource<R> {
    ghost left = { λ s. left_after s.ended (R.remaining s.reader) };

    ghost ended = { λ s. s.ended };

    ghost faults = { λ s. s.faults };

    ghost nothing_after_end = { λ s. left_after-ended s.ended (R.remaining s.reader) };

    // One read. After the end there is none.
    fn take(&mut self, buf: &mut [u8]) -> Result<usize, Failed> {
        if self.ended {
            return Ok(0);
        }
        match self.reader.read(buf) {
            Ok(count) => {
                self.ended = count == 0;
                Ok(count)
            }
            Err(_) => {
                self.faults = self.faults.saturating_add(1);
                Err(Failed)
            }
        }
    }
}
