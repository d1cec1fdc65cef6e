//! Where bytes go.
ghost use Rattle.std.specs.Prelude.{◌≡◌, ◌<◌, ◌≤◌, ℕ, Bool, false, List, length, is_ok};
ghost use Rattle.std.specs.Io.KnownBytes.{Keeps};
ghost use Rattle.std.specs.declared.option.Option.{Option};
ghost use Rattle.dev_io.specs.Causes.{HasCause};
ghost use Rattle.dev_io.specs.Streams.{PutAppends};

use crate::Failed;

/// A place for bytes, in pieces of 1 to 2,880 (a block of FITS Standard 4.0, section 3.1). Where `written` is told at one
/// moment it is told at all later ones.
pub trait Sink {
    /// The bytes that it was given, where they are told.
    ghost written: { Self → Option (List ℕ) };

    /// All of them were handed on.
    ghost settled: { Self → Bool };

    /// How often the sink has failed.
    ghost faults: { Self → ℕ };

    /// Appends the piece, or at `Err` a front of it.
    fn put(&mut self, piece: &[u8]) -> Result<(), Failed>
        requires some { 0 < length piece.now }
        requires small { length piece.now ≤ 2880 }
        ensures bytes { PutAppends (written self.old) (written self.new) result piece.now }
        ensures unsettled { settled self.new ≡ false }
        ensures cause { HasCause (faults self.old) (faults self.new) result };

    /// Hands on what is buffered. Only this makes the sink settled.
    fn done(&mut self) -> Result<(), Failed>
        ensures bytes { Keeps (written self.old) (written self.new) }
        ensures settled { settled self.new ≡ is_ok result }
        ensures cause { HasCause (faults self.old) (faults self.new) result };
}
