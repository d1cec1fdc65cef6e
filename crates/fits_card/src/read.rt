//! The readers of a card.
ghost use Rattle.std.specs.Prelude.{◌≡◌, ◌≤◌, ◌↔◌, IsTrue, take, length};
ghost use Rattle.std.specs.Option.{option_map};
ghost use Rattle.fits_card.specs.Values.{value_of, token_value, is_present, logical_of, integer_of, text_of, whole_of};
ghost use Rattle.fits_card.specs.Written.{written_end};

use crate::Card;
use crate::field::{is_over, significant, token, unquoted, value_field};
use crate::number::{Whole, is_numeral, magnitude, number, signed, split_sign};
use crate::write::end_card;
use arrayvec::ArrayVec;

/// The keyword, filled with spaces: columns 1 to 8.
pub fn name(card: &Card) -> [u8; 8]
    ensures { result ≡ take 8 card.now }
{
    let mut name = [b' '; 8];
    name.copy_from_slice(&card[..8]);
    name
}

/// Whether the card is `END` and 77 spaces. A card with anything else after `END` is an ordinary one.
pub fn is_end(card: &Card) -> bool
    ensures { IsTrue result ↔ (card.now ≡ written_end) }
{
    *card == end_card()
}

/// Whether the card has a value: columns 9 and 10 are `= `, and the value field is more than spaces and a comment.
pub fn has_value(card: &Card) -> bool
    ensures { result ≡ is_present (value_of card.now) }
{
    match value_field(card) {
        [] => false,
        [first, ..] => *first != b'/',
    }
}

/// The logical, where the card's value is one.
pub fn logical(card: &Card) -> Option<bool>
    ensures { result ≡ logical_of (value_of card.now) }
{
    let Some(token) = token(card) else {
        return None
    };
    logical_token(token)
}

fn logical_token(token: &[u8]) -> Option<bool>
    ensures { result ≡ logical_of (token_value token.now) }
{
    let [letter] = token else { return None };
    match letter {
        b'T' => Some(true),
        b'F' => Some(false),
        _ => None,
    }
}

/// The integer, where the card's value is one that an `i64` holds. A real is no integer, even where it is whole.
pub fn integer(card: &Card) -> Option<i64>
    ensures { result ≡ integer_of (value_of card.now) }
{
    let Some(token) = token(card) else {
        return None
    };
    integer_token(token)
}

fn integer_token(token: &[u8]) -> Option<i64>
    ensures { result ≡ integer_of (token_value token.now) }
{
    let (negative, digits) = split_sign(token);
    if !is_numeral(digits) {
        return None;
    }
    let Some(magnitude) = magnitude(digits) else {
        return None
    };
    signed(negative, magnitude)
}

/// The string's bytes, where the card's value is a string. Each doubled quote is made one, and trailing spaces are cut.
pub fn text(card: &Card) -> Option<ArrayVec<u8, 68>>
    ensures { option_map (λ text. text.items) result ≡ text_of (value_of card.now) }
{
    let [first, inside @ ..] = value_field(card) else {
        return None
    };
    if *first != b'\'' {
        return None;
    }
    let Some((mut text, rest)) = unquoted(inside) else {
        return None
    };
    if !is_over(rest) {
        return None;
    }
    let kept = significant(text.as_slice());
    text.truncate(kept);
    Some(text)
}

/// The number, where the card's value is an integer or a real, as a whole number. It is judged on its digits, however many there are.
pub fn whole(card: &Card) -> Whole
    ensures { result ≡ whole_of (value_of card.now) }
{
    let Some(token) = token(card) else {
        return Whole::Unreadable
    };
    whole_token(token)
}

fn whole_token(token: &[u8]) -> Whole
    requires { length token.now ≤ 70 }
    ensures { result ≡ whole_of (token_value token.now) }
{
    let (negative, bytes) = split_sign(token);
    number(negative, bytes)
}
