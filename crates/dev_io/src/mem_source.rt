//! A source over bytes in memory, which come in pieces, and which fails at chosen calls.
ghost use Rattle.std.specs.Prelude.{◌≡◌, ◌<◌, ◌≤◌, ◌||◌, [], false, IsTrue, Some, IfOk, OnErr, ℕ, take, length, min, is_err, if◌then◌else◌};
ghost use Rattle.std.specs.Io.{ReadsAtMost};
ghost use Rattle.std.specs.Io.KnownBytes.{Consumes, IsAtEnd, Keeps};
ghost use Rattle.dev_io.specs.Causes.{HasCause};
ghost use Rattle.dev_io.specs.Streams.{gives_nothing};

use crate::calls::is_among;
use crate::{Failed, Source};

/// A source over memory, for tests: it tells its bytes, cuts them into pieces, and fails where it is asked to.
#[derive(Debug, Drop)]
pub struct MemSource<'a> {
    bytes: &'a [u8],
    piece: usize,
    fails: &'a [u32],
    calls: u64,
    ended: bool,
    faults: u64,
    ghost at_end: { IsTrue ended → bytes.now ≡ [] },
    ghost moves_some: { 0 < piece },
}

impl<'a> MemSource<'a> {
    ghost use Rattle.dev_io.specs.Fakes.{source_rest, source_ended, source_calls, source_faults, source_piece, source_fails};

    /// A take moves at most `piece` bytes. The takes whose numbers, from 1, stand in `fails` will fail.
    pub fn new(bytes: &'a [u8], piece: usize, fails: &'a [u32]) -> Self
        requires { 0 < piece }
        ensures rest { source_rest result ≡ bytes.now }
        ensures piece { source_piece result ≡ piece }
        ensures fails { source_fails result ≡ fails.now }
        ensures calls { source_calls result ≡ 0 }
        ensures fresh { source_ended result ≡ false }
        ensures faults { source_faults result ≡ 0 }
    {
        MemSource {
            bytes,
            piece,
            fails,
            calls: 0,
            ended: false,
            faults: 0,
        }
    }

    /// The bytes still to come.
    pub fn rest(&self) -> &[u8]
        ensures { result.now ≡ source_rest self.now }
    {
        self.bytes
    }
}

impl Source for MemSource<'_> {
    ghost use Rattle.dev_io.specs.Fakes.{source_rest, source_ended, source_calls, source_faults, source_piece, source_fails, fails_next, one_more};

    ghost left = { λ s. Some (source_rest s) };

    ghost ended = { λ s. source_ended s };

    ghost faults = { λ s. source_faults s };

    ghost nothing_after_end = { λ s. s.at_end };

    fn take(&mut self, buf: &mut [u8]) -> Result<usize, Failed>
        requires { 0 < length buf.old }
        ensures bound { ReadsAtMost result buf.new }
        ensures moved { IfOk result (λ n.
            Consumes (Some (source_rest self.old)) (Some (source_rest self.new)) (take n buf.new)) }
        ensures end { IfOk result (λ n. n ≡ 0 → IsAtEnd (Some (source_rest self.new))) }
        ensures ended { source_ended self.new ≡ (source_ended self.old || gives_nothing result) }
        ensures kept { OnErr result
            (Keeps (Some (source_rest self.old)) (Some (source_rest self.new))) }
        ensures cause { HasCause (source_faults self.old) (source_faults self.new) result }

        // As many bytes come as the piece, the buffer and the source have.
        ensures count { IfOk result (λ n. n ≡ min (source_piece self.old)
            (min (length buf.old) (length (source_rest self.old)))) }
        // It fails at these calls and at no other.
        ensures fails { is_err result ≡ fails_next (source_fails self.old) (source_calls self.old) }
        ensures faults { source_faults self.new ≡ (if is_err result
            then one_more (source_faults self.old) else source_faults self.old) }
        ensures calls { source_calls self.new ≡ one_more (source_calls self.old) }
        ensures same_piece { source_piece self.new ≡ source_piece self.old }
        ensures same_fails { source_fails self.new ≡ source_fails self.old }
    {
        self.calls = self.calls.saturating_add(1);
        if is_among(self.calls, self.fails) {
            self.faults = self.faults.saturating_add(1);
            return Err(Failed);
        }
        let all = self.bytes;
        let count = self.piece.min(buf.len().min(all.len()));
        buf[..count].copy_from_slice(&all[..count]);
        self.bytes = &all[count..];
        if count == 0 {
            self.ended = true;
        }
        Ok(count)
    }
}
