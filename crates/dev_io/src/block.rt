//! Bytes that wait until a piece is full.
ghost use Rattle.std.specs.Prelude.{◌≡◌, ◌+◌, ◌≤◌, ◌<◌, ◌%◌, [], ◌++◌, length, OnOk, OnErr};
ghost use Rattle.dev_io.specs.Causes.{HasCause};
ghost use Rattle.dev_io.specs.Streams.{AppendsPrefix};
ghost use Rattle.dev_io.specs.Blocks.{Moves};

use crate::{Failed, Sink};
use std::marker::Model;

/// The bytes of a block (FITS Standard 4.0, section 3.1), and the most that a sink takes at once.
pub const BLOCK: usize = 2880;

/// A block of output. Seen as the bytes that wait in it, fewer than 2,880: as soon as it is full it is put as one piece.
#[derive(Drop)]
pub struct Block {
    bytes: [u8; BLOCK],
    len: usize,
}

impl Model for Block {
    ghost use Rattle.std.specs.Prelude.{List, ℕ, take, ◌<◌};

    ghost Value = { List ℕ };

    ghost view = { λ block. take block.len block.bytes };

    ghost invariant = { λ block. block.len < 2880 };
}

impl Block {
    /// A block in which nothing waits.
    pub fn new() -> Self
        ensures { result ≡ [] }
    {
        Block {
            bytes: [0; BLOCK],
            len: 0,
        }
    }

    /// Lets these bytes wait behind those that do, and puts a full block.
    pub fn add<O: Sink>(&mut self, sink: &mut O, bytes: &[u8]) -> Result<(), Failed>
        requires { length bytes.now ≤ 2880 }
        ensures ok { OnOk result (Moves (O.written sink.old) (O.written sink.new)
            (self.old ++ bytes.now) self.new) }
        // Nothing is put but whole blocks.
        ensures whole { OnOk result
            (length self.new ≡ (length self.old + length bytes.now) % 2880) }
        ensures err { OnErr result (AppendsPrefix (O.written sink.old) (O.written sink.new)
            (self.old ++ bytes.now)) }
        ensures kept { OnErr result (self.new ≡ self.old) }
        ensures cause { HasCause (O.faults sink.old) (O.faults sink.new) result }
    {
        let room = BLOCK - self.len;
        if bytes.len() < room {
            self.push(bytes);
            return Ok(());
        }
        let (front, rest) = bytes.split_at(room);
        self.put_filled(sink, front)?;
        self.push(rest);
        Ok(())
    }

    /// Puts what waits, if anything does: the last piece, which may be short.
    pub fn flush<O: Sink>(&mut self, sink: &mut O) -> Result<(), Failed>
        ensures ok { OnOk result
            (Moves (O.written sink.old) (O.written sink.new) self.old self.new) }
        ensures empty { OnOk result (self.new ≡ []) }
        ensures err { OnErr result
            (AppendsPrefix (O.written sink.old) (O.written sink.new) self.old) }
        ensures kept { OnErr result (self.new ≡ self.old) }
        ensures cause { HasCause (O.faults sink.old) (O.faults sink.new) result }
    {
        if self.len == 0 {
            return Ok(());
        }
        sink.put(&self.bytes[..self.len])?;
        self.len = 0;
        Ok(())
    }

    // Puts the block filled up by `front`.
    fn put_filled<O: Sink>(&mut self, sink: &mut O, front: &[u8]) -> Result<(), Failed>
        requires { length self.old + length front.now ≡ 2880 }
        ensures ok { OnOk result (Moves (O.written sink.old) (O.written sink.new)
            (self.old ++ front.now) self.new) }
        ensures empty { OnOk result (self.new ≡ []) }
        ensures err { OnErr result (AppendsPrefix (O.written sink.old) (O.written sink.new)
            (self.old ++ front.now)) }
        ensures kept { OnErr result (self.new ≡ self.old) }
        ensures cause { HasCause (O.faults sink.old) (O.faults sink.new) result }
    {
        self.bytes[self.len..].copy_from_slice(front);
        sink.put(&self.bytes)?;
        self.len = 0;
        Ok(())
    }

    fn push(&mut self, bytes: &[u8])
        requires { length self.old + length bytes.now < 2880 }
        ensures { self.new ≡ self.old ++ bytes.now }
    {
        let end = self.len + bytes.len();
        self.bytes[self.len..end].copy_from_slice(bytes);
        self.len = end;
    }
}
