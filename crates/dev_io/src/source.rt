//! Where bytes come from.
ghost use Rattle.std.specs.Prelude.{◌≡◌, ◌<◌, ◌≤◌, ◌+◌, ◌||◌, ℕ, Bool, false, List, length, take, IsTrue, IfOk, OnErr, MatchResult};
ghost use Rattle.std.specs.Io.{ReadsAtMost};
ghost use Rattle.std.specs.Io.KnownBytes.{Consumes, IsAtEnd, Keeps};
ghost use Rattle.std.specs.declared.option.Option.{Option};
ghost use Rattle.std.specs.Option.{ForSome};
ghost use Rattle.dev_io.specs.Causes.{HasCause};
ghost use Rattle.dev_io.specs.Streams.{gives_nothing, falls_short, Fills, Takes, TakesAtMost, Skipped};

use crate::block::BLOCK;

/// A call on a source or a sink failed: its count of faults has risen, or stands at its last value, 2^64 - 1.
#[derive(Clone, Copy, Debug, PartialEq, Eq)]
pub struct Failed;

/// Bytes in their order, which are taken once. Where `left` is told at one moment it is told at all later ones.
pub trait Source {
    /// The bytes still to come, where they are told.
    ghost left: { Self → Option (List ℕ) };

    /// A take has found the end.
    ghost ended: { Self → Bool };

    /// How often the source has failed.
    ghost faults: { Self → ℕ };

    /// Moves some of the next bytes into the front of `buf`; none only at the end.
    fn take(&mut self, buf: &mut [u8]) -> Result<usize, Failed>
        requires { 0 < length buf.old }
        ensures bound { ReadsAtMost result buf.new }
        ensures moved { IfOk result
            (λ n. Consumes (left self.old) (left self.new) (take n buf.new)) }
        ensures end { IfOk result (λ n. n ≡ 0 → IsAtEnd (left self.new)) }
        ensures ended { ended self.new ≡ (ended self.old || gives_nothing result) }
        ensures kept { OnErr result (Keeps (left self.old) (left self.new)) }
        ensures cause { HasCause (faults self.old) (faults self.new) result };

    /// After the end there is nothing to come.
    ghost nothing_after_end: { (s : Self) → IsTrue (ended s) → IsAtEnd (left s) };
}

/// Takes until `buf` is full or the source is at its end, and answers how many bytes came. The bytes that came before a
/// failure are gone.
pub fn fill<S: Source>(src: &mut S, buf: &mut [u8]) -> Result<usize, Failed>
    ensures bound { ReadsAtMost result buf.new }
    ensures moved { IfOk result (λ n. ForSome (S.left src.old)
        (λ bytes. Fills bytes (S.left src.new) n buf.new)) }
    ensures short { IfOk result (λ n. n < length buf.new → IsTrue (S.ended src.new)) }
    ensures ended { S.ended src.new ≡ (S.ended src.old || falls_short result (length buf.new)) }
    ensures lost { OnErr result (ForSome (S.left src.old)
        (λ bytes. TakesAtMost bytes (S.left src.new) (length buf.new))) }
    ensures cause { HasCause (S.faults src.old) (S.faults src.new) result }
{
    let mut at = 0;
    while at < buf.len() {
        match src.take(&mut buf[at..]) {
            Ok(0) => return Ok(at),
            Ok(count) => at += count,
            Err(failed) => return Err(failed),
        }
    }
    Ok(at)
}

/// Takes so many bytes, and answers whether all of them came.
pub fn skip<S: Source>(src: &mut S, count: u64) -> Result<bool, Failed>
    ensures told { (bytes : List ℕ) (at : ℕ) → Takes bytes (S.left src.old) at → MatchResult result
        (λ all. Skipped bytes at count (S.left src.new) all)
        (λ _. TakesAtMost bytes (S.left src.new) (at + count)) }
    ensures ended { IfOk result (λ all. all ≡ false → IsTrue (S.ended src.new)) }
    ensures cause { HasCause (S.faults src.old) (S.faults src.new) result }
{
    let mut buffer = [0; BLOCK];
    let mut left = count;
    while left > 0 {
        let piece = left.min(BLOCK as u64) as usize;
        match fill(src, &mut buffer[..piece]) {
            Ok(taken) if taken < piece => return Ok(false),
            Ok(_) => left -= piece as u64,
            Err(failed) => return Err(failed),
        }
    }
    Ok(true)
}
