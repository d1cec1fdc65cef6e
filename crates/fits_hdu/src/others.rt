//! The cards after the mandatory ones.
ghost use Rattle.std.specs.Prelude.{◌≡◌, List, ℕ, [], ◌∷◌, ◌++◌, ◌&&◌, ◌||◌, codes, not};
ghost use Rattle.std.specs.Option.{option_map};
ghost use Rattle.fits_hdu.specs.Cards.{is_true, whole};
ghost use Rattle.fits_hdu.specs.Headers.{counting, is_bad_count, natural_or_zero};
ghost use Rattle.fits_hdu.specs.Kept.{kept_others};

use crate::cards::{is_true, is_valued, natural, whole};
use fits_card::Card;
use fits_card::number::Whole;

/// What is kept of them: of each keyword the first card with a value.
#[derive(Clone, Copy)]
pub(crate) struct Others {
    pub(crate) groups: Option<bool>,
    pub(crate) pcount: Option<u64>,
    pub(crate) gcount: Option<u64>,
    pub(crate) bscale: Option<Whole>,
    pub(crate) bzero: Option<Whole>,
    pub(crate) blank: Option<Whole>,
}

fn keep_logical(kept: Option<bool>, card: &Card, keyword: &[u8; 8]) -> Option<bool>
    ensures { (cards : List (List ℕ)) → kept ≡ option_map is_true (counting keyword.now cards) →
        result ≡ option_map is_true (counting keyword.now (cards ++ card.now ∷ [])) }
{
    if kept.is_none() && is_valued(card, keyword) {
        Some(is_true(card))
    } else {
        kept
    }
}

fn keep_number(kept: Option<u64>, card: &Card, keyword: &[u8; 8]) -> Option<u64>
    ensures { (cards : List (List ℕ)) → kept ≡
        option_map natural_or_zero (counting keyword.now cards) → result ≡
        option_map natural_or_zero (counting keyword.now (cards ++ card.now ∷ [])) }
{
    if kept.is_none() && is_valued(card, keyword) {
        Some(natural(card).unwrap_or(0))
    } else {
        kept
    }
}

fn keep_whole(kept: Option<Whole>, card: &Card, keyword: &[u8; 8]) -> Option<Whole>
    ensures { (cards : List (List ℕ)) → kept ≡ option_map whole (counting keyword.now cards) →
        result ≡ option_map whole (counting keyword.now (cards ++ card.now ∷ [])) }
{
    if kept.is_none() && is_valued(card, keyword) {
        Some(whole(card))
    } else {
        kept
    }
}

// Whether the card is the one with this keyword that counts, and isn't an integer from 0.
fn is_bad_count(kept: Option<u64>, card: &Card, keyword: &[u8; 8]) -> bool
    ensures { (cards : List (List ℕ)) → kept ≡
        option_map natural_or_zero (counting keyword.now cards) → result ≡
        is_bad_count keyword.now cards card.now }
{
    is_valued(card, keyword) && (kept.is_none() && natural(card).is_none())
}

impl Others {
    pub(crate) fn none() -> Others
        ensures { result ≡ kept_others [] }
    {
        Others {
            groups: None,
            pcount: None,
            gcount: None,
            bscale: None,
            bzero: None,
            blank: None,
        }
    }

    /// Whether the card is an extension's PCOUNT or GCOUNT that counts, and isn't an integer from 0.
    pub(crate) fn is_bad(&self, primary: bool, card: &Card) -> bool
        ensures { (cards : List (List ℕ)) → self.now ≡ kept_others cards → result ≡ (not primary &&
            (is_bad_count (codes "PCOUNT  ") cards card.now || is_bad_count
            (codes "GCOUNT  ") cards card.now)) }
    {
        if primary {
            return false;
        }
        is_bad_count(self.pcount, card, b"PCOUNT  ") || is_bad_count(self.gcount, card, b"GCOUNT  ")
    }

    /// With one more card.
    pub(crate) fn with(&self, card: &Card) -> Others
        ensures { (cards : List (List ℕ)) → self.now ≡ kept_others cards → result ≡
            kept_others (cards ++ card.now ∷ []) }
    {
        Others {
            groups: keep_logical(self.groups, card, b"GROUPS  "),
            pcount: keep_number(self.pcount, card, b"PCOUNT  "),
            gcount: keep_number(self.gcount, card, b"GCOUNT  "),
            bscale: keep_whole(self.bscale, card, b"BSCALE  "),
            bzero: keep_whole(self.bzero, card, b"BZERO   "),
            blank: keep_whole(self.blank, card, b"BLANK   "),
        }
    }
}
