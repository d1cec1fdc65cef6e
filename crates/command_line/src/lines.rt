//! Lines of text on their way to a sink.
ghost use Rattle.std.specs.Prelude.{◌≡◌, ◌+◌, ◌%◌, ◌≤◌, ◌++◌, length, OnOk, OnErr};
ghost use Rattle.dev_io.specs.Causes.{HasCause};
ghost use Rattle.dev_io.specs.Streams.{PutAppends, AppendsPrefix};
ghost use Rattle.dev_io.specs.Blocks.{Moves};
ghost use Rattle.command_line.specs.Lines.{joined_texts};

use dev_io::{Block, Failed, Sink};

/// Lets these pieces wait, one behind the other.
pub fn add_all<O: Sink>(sink: &mut O, block: &mut Block, pieces: &[&[u8]]) -> Result<(), Failed>
    requires { length (joined_texts pieces.now) ≤ 2880 }
    ensures ok { OnOk result (Moves (O.written sink.old) (O.written sink.new)
        (block.old ++ joined_texts pieces.now) block.new) }
    // Nothing is put but whole blocks.
    ensures whole { OnOk result (length block.new % 2880
        ≡ (length block.old + length (joined_texts pieces.now)) % 2880) }
    ensures err { OnErr result (AppendsPrefix (O.written sink.old) (O.written sink.new)
        (block.old ++ joined_texts pieces.now)) }
    ensures cause { HasCause (O.faults sink.old) (O.faults sink.new) result }
{
    for piece in pieces {
        if let Err(failed) = block.add(sink, piece) {
            return Err(failed);
        }
    }
    Ok(())
}

/// Writes a line of these pieces.
pub fn put_line<O: Sink>(sink: &mut O, pieces: &[&[u8]]) -> Result<(), Failed>
    requires { length (joined_texts pieces.now) ≤ 2880 }
    ensures bytes { PutAppends (O.written sink.old) (O.written sink.new) result
        (joined_texts pieces.now) }
    ensures cause { HasCause (O.faults sink.old) (O.faults sink.new) result }
{
    let mut block = Block::new();
    add_all(sink, &mut block, pieces)?;
    block.flush(sink)
}
