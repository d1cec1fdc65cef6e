//! The bytes of a header or of data on their way to a sink, in whole blocks.
ghost use Rattle.std.specs.Prelude.{◌≡◌, ◌≤◌, [], ◌++◌, length, replicate, OnOk, OnErr};
ghost use Rattle.dev_io.specs.Causes.{HasCause};
ghost use Rattle.dev_io.specs.Streams.{AppendsPrefix, PutAppends};
ghost use Rattle.fits_write.specs.Blocks.{room_after};
ghost use Rattle.fits_write.specs.Waiting.{Waits};

use dev_io::{BLOCK, Block, Failed, Sink};
use std::marker::Model;

/// Bytes that go to a sink in whole blocks. Seen as those that wait until a block is full.
#[derive(Drop)]
pub(crate) struct Blocks {
    block: Block,
    // how many bytes wait in the block
    len: usize,
}

impl Model for Blocks {
    ghost use Rattle.std.specs.Prelude.{◌≡◌, ◌<◌, List, ℕ, length};

    ghost Value = { List ℕ };

    ghost view = { λ blocks. blocks.block };

    ghost invariant = { λ blocks. (blocks.len ≡ length blocks.block) × (blocks.len < 2880) };
}

impl Blocks {
    pub(crate) fn new() -> Self
        ensures { result ≡ [] }
    {
        Blocks {
            block: Block::new(),
            len: 0,
        }
    }

    /// Lets these bytes wait behind those that do.
    pub(crate) fn add<O: Sink>(&mut self, sink: &mut O, bytes: &[u8]) -> Result<(), Failed>
        requires { length bytes.now ≤ 2880 }
        ensures ok { OnOk result
            (Waits (O.written sink.old) (O.written sink.new) (self.old ++ bytes.now) self.new) }
        ensures err { OnErr result
            (AppendsPrefix (O.written sink.old) (O.written sink.new) (self.old ++ bytes.now)) }
        ensures cause { HasCause (O.faults sink.old) (O.faults sink.new) result }
    {
        if let Err(failed) = self.block.add(sink, bytes) {
            return Err(failed);
        }
        self.len = (self.len + bytes.len()) % BLOCK;
        Ok(())
    }

    /// Fills what waits to a block with copies of this byte, and puts it.
    pub(crate) fn fill<O: Sink>(&mut self, sink: &mut O, byte: u8) -> Result<(), Failed>
        ensures bytes { PutAppends (O.written sink.old) (O.written sink.new) result
            (self.old ++ replicate (room_after (length self.old)) byte) }
        ensures cause { HasCause (O.faults sink.old) (O.faults sink.new) result }
    {
        let copies = [byte; BLOCK];
        let room = (BLOCK - self.len) % BLOCK;
        if let Err(failed) = self.block.add(sink, &copies[..room]) {
            return Err(failed);
        }
        self.len = 0;
        Ok(())
    }
}
