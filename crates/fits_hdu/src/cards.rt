//! What one card says.
ghost use Rattle.std.specs.Prelude.{◌≡◌, ◌<◌, ◌≤◌, Bool, List, ℕ, codes};
ghost use Rattle.fits_card.specs.Written.{numbered_keyword};
ghost use Rattle.fits_hdu.specs.Cards.{has_keyword, natural, whole, is_true, is_image, is_end, is_first, bitpix_of, naxis_of, axis_of, is_valued};
ghost use Rattle.fits_hdu.specs.Headers.{is_beginning};

use fits_card::number::Whole;
use fits_card::{Card, has_value, integer, logical, name, text};

/// Whether the bytes begin as a primary header or an extension does.
#[tactic(auto, unfolding(crate::specs::Headers::is_beginning))]
pub(crate) fn is_beginning(front: &[u8], primary: bool) -> bool
    ensures { result ≡ is_beginning primary front.now }
{
    if front.len() < 8 {
        return false;
    }
    if primary {
        &front[..8] == b"SIMPLE  ".as_slice()
    } else {
        &front[..8] == b"XTENSION".as_slice()
    }
}

#[tactic(auto, unfolding(crate::specs::Cards::has_keyword))]
fn has_keyword(card: &Card, keyword: &[u8; 8]) -> bool
    ensures { result ≡ has_keyword keyword.now card.now }
{
    name(card) == *keyword
}

#[tactic(auto, unfolding(crate::specs::Cards::is_valued))]
pub(crate) fn is_valued(card: &Card, keyword: &[u8; 8]) -> bool
    ensures { result ≡ is_valued keyword.now card.now }
{
    has_keyword(card, keyword) && has_value(card)
}

/// The value, where it is the logical T.
#[tactic(auto, unfolding(crate::specs::Cards::is_true))]
pub(crate) fn is_true(card: &Card) -> bool
    ensures { result ≡ is_true card.now }
{
    logical(card).unwrap_or(false)
}

/// The value as a whole number.
#[tactic(auto, unfolding(crate::specs::Cards::whole))]
pub(crate) fn whole(card: &Card) -> Whole
    ensures { result ≡ whole card.now }
{
    fits_card::whole(card)
}

#[tactic(auto, unfolding(crate::specs::Cards::is_end))]
pub(crate) fn is_end(card: &Card) -> bool
    ensures { result ≡ is_end card.now }
{
    fits_card::is_end(card)
}

/// The value, where it is an integer from 0.
#[tactic(auto, unfolding(crate::specs::Cards::natural))]
pub(crate) fn natural(card: &Card) -> Option<u64>
    ensures { result ≡ natural card.now }
{
    match integer(card) {
        Some(number) if number >= 0 => Some(number as u64),
        _ => None,
    }
}

#[tactic(auto, unfolding(crate::specs::Cards::is_image))]
pub(crate) fn is_image(card: &Card) -> bool
    ensures { result ≡ is_image card.now }
{
    match text(card) {
        Some(text) => text.as_slice() == b"IMAGE".as_slice(),
        None => false,
    }
}

/// SIMPLE with T in the primary header, XTENSION with a string in an extension's.
#[tactic(auto, unfolding(crate::specs::Cards::is_first))]
pub(crate) fn is_first(card: &Card, primary: bool) -> bool
    ensures { result ≡ is_first primary card.now }
{
    if primary {
        has_keyword(card, b"SIMPLE  ") && logical(card).unwrap_or(false)
    } else {
        has_keyword(card, b"XTENSION") && text(card).is_some()
    }
}

/// The number of a permitted BITPIX card.
#[tactic(auto, unfolding(crate::specs::Cards::bitpix_of))]
pub(crate) fn bitpix(card: &Card) -> Option<i32>
    ensures { result ≡ bitpix_of card.now }
{
    if !has_keyword(card, b"BITPIX  ") {
        return None;
    }
    match integer(card) {
        Some(number @ (8 | 16 | 32 | 64 | -32 | -64)) => Some(number as i32),
        _ => None,
    }
}

/// The number of a permitted NAXIS card.
#[tactic(auto, unfolding(crate::specs::Cards::naxis_of))]
pub(crate) fn naxis(card: &Card) -> Option<u16>
    ensures { result ≡ naxis_of card.now }
{
    if !has_keyword(card, b"NAXIS   ") {
        return None;
    }
    match natural(card) {
        Some(number) if number <= 999 => Some(number as u16),
        _ => None,
    }
}

/// The length of this axis, from 1, on a permitted card.
#[tactic(auto, unfolding(crate::specs::Cards::axis_of))]
pub(crate) fn axis(card: &Card, number: u16) -> Option<u64>
    requires { number ≤ 999 }
    ensures { result ≡ axis_of number card.now }
{
    if has_keyword(card, &axis_keyword(number)) {
        natural(card)
    } else {
        None
    }
}

// The keyword of an axis: its number without leading zeros, filled with spaces.
#[tactic(auto, unfolding(fits_card::specs::Written::numbered_keyword))]
fn axis_keyword(number: u16) -> [u8; 8]
    requires { number ≤ 999 }
    ensures { result ≡ numbered_keyword (codes "NAXIS") number }
{
    let ones = b'0' + (number % 10) as u8;
    let tens = b'0' + (number / 10 % 10) as u8;
    let hundreds = b'0' + (number / 100) as u8;
    if number < 10 {
        [b'N', b'A', b'X', b'I', b'S', ones, b' ', b' ']
    } else if number < 100 {
        [b'N', b'A', b'X', b'I', b'S', tens, ones, b' ']
    } else {
        [b'N', b'A', b'X', b'I', b'S', hundreds, tens, ones]
    }
}
