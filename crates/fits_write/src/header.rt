//! Headers of cards.
ghost use Rattle.std.specs.Prelude.{◌++◌, OnOk, OnErr};
ghost use Rattle.std.specs.List.{concat};
ghost use Rattle.dev_io.specs.Causes.{HasCause};
ghost use Rattle.dev_io.specs.Streams.{AppendsPrefix, PutAppends};
ghost use Rattle.fits_write.specs.Waiting.{Waits};
ghost use Rattle.fits_write.specs.Hdus.{header};

use crate::blocks::Blocks;
use dev_io::{Failed, Sink};
use fits_card::Card;

/// Lets these cards wait, one behind the other.
pub(crate) fn add_cards<O: Sink>(
    sink: &mut O,
    blocks: &mut Blocks,
    cards: &[Card],
) -> Result<(), Failed>
    ensures ok { OnOk result (Waits (O.written sink.old) (O.written sink.new)
        (blocks.old ++ concat cards.now) blocks.new) }
    ensures err { OnErr result
        (AppendsPrefix (O.written sink.old) (O.written sink.new) (blocks.old ++ concat cards.now)) }
    ensures cause { HasCause (O.faults sink.old) (O.faults sink.new) result }
{
    for card in cards {
        if let Err(failed) = blocks.add(sink, card) {
            return Err(failed);
        }
    }
    Ok(())
}

/// Writes a header of these cards, of which the last is END.
pub(crate) fn put_header<O: Sink>(sink: &mut O, cards: &[Card]) -> Result<(), Failed>
    ensures bytes { PutAppends (O.written sink.old) (O.written sink.new) result (header cards.now) }
    ensures cause { HasCause (O.faults sink.old) (O.faults sink.new) result }
{
    let mut blocks = Blocks::new();
    if let Err(failed) = add_cards(sink, &mut blocks, cards) {
        return Err(failed);
    }
    blocks.fill(sink, b' ')
}
