//! What stands behind a known front of bytes.
ghost use Rattle.std.specs.Prelude.{◌≡◌, ◌++◌, replicate, MatchOption};
ghost use Rattle.std.specs.List.{concat};
ghost use Rattle.fits_write.specs.Blocks.{room_after};
ghost use Rattle.fits_write.specs.Hdus.{header};
ghost use Rattle.fits_back.specs.Fronts.{BeginsNot};

use dev_io::BLOCK;
use fits_card::Card;

/// What stands behind this front, if the bytes begin with it.
pub(crate) fn strip<'a>(bytes: &'a [u8], front: &[u8]) -> Option<&'a [u8]>
    ensures { MatchOption result (BeginsNot front.now bytes.now) (λ rest. bytes.now ≡ front.now ++ rest.now) }
{
    bytes.strip_prefix(front)
}

/// The same of cards, one behind the other.
pub(crate) fn strip_cards<'a>(bytes: &'a [u8], cards: &[Card]) -> Option<&'a [u8]>
    ensures { MatchOption result (BeginsNot (concat cards.now) bytes.now) (λ rest. bytes.now ≡ concat cards.now ++ rest.now) }
{
    let mut rest = bytes;
    for card in cards {
        let Some(behind) = strip(rest, card) else {
            return None
        };
        rest = behind;
    }
    Some(rest)
}

/// The same of copies of this byte, as many as a block that holds the last of `len` bytes still has room for.
pub(crate) fn strip_fill(bytes: &[u8], byte: u8, len: usize) -> Option<&[u8]>
    ensures { MatchOption result (BeginsNot (replicate (room_after len) byte) bytes.now)
        (λ rest. bytes.now ≡ replicate (room_after len) byte ++ rest.now) }
{
    let copies = [byte; BLOCK];
    strip(bytes, &copies[..(BLOCK - len % BLOCK) % BLOCK])
}

/// The same of a header of these cards, of which the last is END.
pub(crate) fn strip_header<'a>(bytes: &'a [u8], cards: &[Card]) -> Option<&'a [u8]>
    ensures { MatchOption result (BeginsNot (header cards.now) bytes.now) (λ rest. bytes.now ≡ header cards.now ++ rest.now) }
{
    let Some(behind) = strip_cards(bytes, cards) else {
        return None
    };
    strip_fill(behind, b' ', bytes.len() - behind.len())
}
