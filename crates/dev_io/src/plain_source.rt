//! A source over bytes in memory that never fails.
ghost use Rattle.std.specs.Prelude.{◌≡◌, [], false, IsTrue, Some, min, length};

use crate::{Failed, Source};

/// A source over memory: it tells its bytes, and its count of faults stays 0.
#[derive(Debug, Drop)]
pub struct PlainSource<'a> {
    bytes: &'a [u8],
    ended: bool,
    ghost at_end: { IsTrue ended → bytes.now ≡ [] },
}

impl<'a> PlainSource<'a> {
    ghost use Rattle.dev_io.specs.Fakes.{plain_rest};

    /// Nothing was taken yet.
    pub fn new(bytes: &'a [u8]) -> Self
        ensures rest { plain_rest result ≡ bytes.now }
        ensures fresh { ⟦<PlainSource<'a> as Source>⟧.ended result ≡ false }
    {
        PlainSource {
            bytes,
            ended: false,
        }
    }

    /// The bytes still to come.
    pub fn rest(&self) -> &[u8]
        ensures { result.now ≡ plain_rest self.now }
    {
        self.bytes
    }
}

impl Source for PlainSource<'_> {
    ghost left = { λ s. Some s.bytes.now };

    ghost ended = { λ s. s.ended };

    ghost faults = { λ _. 0 };

    ghost nothing_after_end = { λ s. s.at_end };

    fn take(&mut self, buf: &mut [u8]) -> Result<usize, Failed> {
        let count = self.bytes.len().min(buf.len());
        let all = self.bytes;
        buf[..count].copy_from_slice(&all[..count]);
        self.bytes = &all[count..];
        if count == 0 {
            self.ended = true;
        }
        Ok(count)
    }
}
