//! A sink into a fixed room in memory, which fails at chosen calls.
ghost use Rattle.std.specs.Prelude.{◌≡◌, ◌<◌, ◌≤◌, ◌+◌, ◌||◌, ◌++◌, [], false, Some, ℕ, take, length, is_err, is_ok, nat_lt, if◌then◌else◌};
ghost use Rattle.std.specs.Io.KnownBytes.{Keeps};
ghost use Rattle.dev_io.specs.Causes.{HasCause};
ghost use Rattle.dev_io.specs.Streams.{PutAppends};

use crate::calls::is_among;
use crate::{Failed, Sink};

/// A sink into memory, for tests: it tells its bytes, and fails where it is asked to or where a piece doesn't fit.
#[derive(Debug, Drop)]
pub struct MemSink<'a> {
    room: Vec<u8>,
    len: usize,
    fails: &'a [u32],
    kept: usize,
    calls: u64,
    settled: bool,
    faults: u64,
    ghost fits: { len ≤ length room.items },
}

impl<'a> MemSink<'a> {
    ghost use Rattle.dev_io.specs.Fakes.{sink_bytes, sink_room, sink_settled, sink_calls, sink_faults, sink_fails, sink_kept, fails_next, one_more};

    /// The bytes will stand in the front of `room`, whose length is what fits. Puts and calls of `done` are numbered together,
    /// from 1: one whose number stands in `fails` will fail, and append at most `kept` bytes of its piece.
    pub fn new(room: Vec<u8>, fails: &'a [u32], kept: usize) -> Self
        ensures bytes { sink_bytes result ≡ [] }
        ensures room { sink_room result ≡ length room.items }
        ensures fails { sink_fails result ≡ fails.now }
        ensures kept { sink_kept result ≡ kept }
        ensures calls { sink_calls result ≡ 0 }
        ensures unsettled { sink_settled result ≡ false }
        ensures faults { sink_faults result ≡ 0 }
    {
        MemSink {
            room,
            len: 0,
            fails,
            kept,
            calls: 0,
            settled: false,
            faults: 0,
        }
    }

    /// The bytes that it was given.
    pub fn bytes(&self) -> &[u8]
        ensures { result.now ≡ sink_bytes self.now }
    {
        &self.room[..self.len]
    }

    fn append(&mut self, bytes: &[u8])
        requires { self.old.len + length bytes.now ≤ length self.old.room.items }
        ensures bytes { sink_bytes self.new ≡ sink_bytes self.old ++ bytes.now }
        ensures len { self.new.len ≡ self.old.len + length bytes.now }
        ensures room { sink_room self.new ≡ sink_room self.old }
        ensures fails { sink_fails self.new ≡ sink_fails self.old }
        ensures kept { sink_kept self.new ≡ sink_kept self.old }
        ensures calls { sink_calls self.new ≡ sink_calls self.old }
        ensures settled { sink_settled self.new ≡ sink_settled self.old }
        ensures faults { sink_faults self.new ≡ sink_faults self.old }
    {
        let end = self.len + bytes.len();
        self.room[self.len..end].copy_from_slice(bytes);
        self.len = end;
    }
}

impl Sink for MemSink<'_> {
    ghost use Rattle.dev_io.specs.Fakes.{sink_bytes, sink_room, sink_settled, sink_calls, sink_faults, sink_fails, sink_kept, appended_count, fails_next, one_more};

    ghost written = { λ s. Some (sink_bytes s) };

    ghost settled = { λ s. sink_settled s };

    ghost faults = { λ s. sink_faults s };

    fn put(&mut self, piece: &[u8]) -> Result<(), Failed>
        requires some { 0 < length piece.now }
        requires small { length piece.now ≤ 2880 }
        ensures bytes { PutAppends (Some (sink_bytes self.old)) (Some (sink_bytes self.new)) result
            piece.now }
        ensures unsettled { sink_settled self.new ≡ false }
        ensures cause { HasCause (sink_faults self.old) (sink_faults self.new) result }

        // What fits is appended, or at one of these calls at most what is kept then.
        ensures appended { sink_bytes self.new ≡ sink_bytes self.old
            ++ take (appended_count self.old (length piece.now)) piece.now }
        // It fails at these calls, and where the piece doesn't fit.
        ensures fails { is_err result ≡ (fails_next (sink_fails self.old) (sink_calls self.old)
            || nat_lt (sink_room self.old) (length (sink_bytes self.old) + length piece.now)) }
        ensures faults { sink_faults self.new
            ≡ (if is_err result then one_more (sink_faults self.old) else sink_faults self.old) }
        ensures calls { sink_calls self.new ≡ one_more (sink_calls self.old) }
        ensures same_room { sink_room self.new ≡ sink_room self.old }
        ensures same_fails { sink_fails self.new ≡ sink_fails self.old }
        ensures same_kept { sink_kept self.new ≡ sink_kept self.old }
    {
        self.calls = self.calls.saturating_add(1);
        let to_fail = is_among(self.calls, self.fails);
        self.settled = false;
        let most = if to_fail {
            self.kept.min(piece.len())
        } else {
            piece.len()
        };
        let count = most.min(self.room.len() - self.len);
        self.append(&piece[..count]);
        if to_fail || count < piece.len() {
            self.faults = self.faults.saturating_add(1);
            return Err(Failed);
        }
        Ok(())
    }

    fn done(&mut self) -> Result<(), Failed>
        ensures bytes { Keeps (Some (sink_bytes self.old)) (Some (sink_bytes self.new)) }
        ensures settled { sink_settled self.new ≡ is_ok result }
        ensures cause { HasCause (sink_faults self.old) (sink_faults self.new) result }

        // It fails at these calls and at no other.
        ensures fails { is_err result ≡ fails_next (sink_fails self.old) (sink_calls self.old) }
        ensures faults { sink_faults self.new
            ≡ (if is_err result then one_more (sink_faults self.old) else sink_faults self.old) }
        ensures calls { sink_calls self.new ≡ one_more (sink_calls self.old) }
        ensures same_room { sink_room self.new ≡ sink_room self.old }
        ensures same_fails { sink_fails self.new ≡ sink_fails self.old }
        ensures same_kept { sink_kept self.new ≡ sink_kept self.old }
    {
        self.calls = self.calls.saturating_add(1);
        let to_fail = is_among(self.calls, self.fails);
        self.settled = !to_fail;
        if to_fail {
            self.faults = self.faults.saturating_add(1);
            return Err(Failed);
        }
        Ok(())
    }
}
