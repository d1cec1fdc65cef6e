//! The next card of a stream.
ghost use Rattle.std.specs.Prelude.{◌≤◌, List, ℕ, MatchResult, IfErr};
ghost use Rattle.dev_io.specs.Streams.{Takes};
ghost use Rattle.fits_hdu.specs.Reading.{Caused, CardRead, CardMissing};

use crate::fault::{HduFault, HduStop};
use dev_io::{Source, fill};
use fits_card::Card;

/// The next card.
pub(crate) fn read_card<S: Source>(src: &mut S) -> Result<Card, HduStop>
    ensures told { (bytes : List ℕ) (at : ℕ) → Takes bytes (S.left src.old) at → MatchResult result
        (λ card. CardRead bytes at (S.left src.new) card)
        (λ stop. CardMissing bytes at (S.left src.new) stop) }
    ensures cause { IfErr result
        (Caused ⊥ (S.ended src.new) (S.faults src.old) (S.faults src.new)) }
    ensures later { S.faults src.old ≤ S.faults src.new }
{
    let mut card = [0; 80];
    match fill(src, &mut card) {
        Ok(80) => Ok(card),
        Ok(_) => Err(HduStop::Fault(HduFault::TruncatedHeader)),
        Err(_) => Err(HduStop::ReadFault),
    }
}
