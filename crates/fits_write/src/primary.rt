//! A primary HDU without data.
ghost use Rattle.std.specs.Prelude.{◌≡◌};
ghost use Rattle.dev_io.specs.Causes.{HasCause};
ghost use Rattle.dev_io.specs.Streams.{PutAppends};
ghost use Rattle.fits_write.specs.Hdus.{primary_cards, empty_primary};

use crate::WriteFault;
use crate::header::put_header;
use dev_io::Sink;
use fits_card::{Card, end_card, int_card, logical_card};

/// Writes a primary HDU without data, behind which extensions may stand. It is one block.
pub fn put_empty_primary<O: Sink>(sink: &mut O) -> Result<(), WriteFault>
    ensures bytes { PutAppends (O.written sink.old) (O.written sink.new) result empty_primary }
    ensures cause { HasCause (O.faults sink.old) (O.faults sink.new) result }
{
    match put_header(sink, &primary_cards()) {
        Ok(()) => Ok(()),
        Err(_) => Err(WriteFault),
    }
}

/// The cards of a primary header without data.
#[tactic(auto, unfolding(crate::specs::Hdus::primary_cards))]
pub fn primary_cards() -> [Card; 5]
    ensures { result ≡ primary_cards }
{
    [
        logical_card(b"SIMPLE  ", true),
        int_card(b"BITPIX  ", 8),
        int_card(b"NAXIS   ", 0),
        logical_card(b"EXTEND  ", true),
        end_card(),
    ]
}
