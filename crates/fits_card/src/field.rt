//! The value field of a card, and the pieces that it is cut into.
ghost use Rattle.std.specs.Prelude.{◌≡◌, ◌+◌, ◌≤◌, length, take, drop, IfSome};
ghost use Rattle.std.specs.Option.{option_copied, option_map};
ghost use Rattle.std.specs.List.{position_or_len};
ghost use Rattle.fits_card.specs.Pieces.{is_among, closed, before_any, from_any, is_over, without_leading_spaces, without_trailing_spaces};
ghost use Rattle.fits_card.specs.Values.{value_field, content_of, token_content};
ghost use Rattle.fits_card.specs.Tokens.{token_in};

use crate::Card;
use arrayvec::ArrayVec;

/// The value field without its leading spaces. It is empty where the card has no value indicator.
pub(crate) fn value_field(card: &Card) -> &[u8]
    ensures field { result.now ≡ value_field card.now }
    ensures short { length result.now ≤ 70 }
{
    if card[8] == b'=' && card[9] == b' ' {
        skip_spaces(&card[10..])
    } else {
        &[]
    }
}

fn skip_spaces(bytes: &[u8]) -> &[u8]
    ensures rest { result.now ≡ without_leading_spaces bytes.now }
    ensures short { length result.now ≤ length bytes.now }
{
    for (at, b) in bytes.iter().enumerate() {
        if *b != b' ' {
            return &bytes[at..];
        }
    }
    &[]
}

/// Whether only spaces stand before the end of the card or a comment.
pub(crate) fn is_over(bytes: &[u8]) -> bool
    ensures { result ≡ is_over bytes.now }
{
    match skip_spaces(bytes) {
        [] => true,
        [first, ..] => *first == b'/',
    }
}

/// The bytes before the first of the stops, and the bytes from it on.
pub(crate) fn split_before<'a>(bytes: &'a [u8], stops: &[u8]) -> (&'a [u8], &'a [u8])
    ensures front { result.0.now ≡ before_any stops.now bytes.now }
    ensures rest { result.1.now ≡ from_any stops.now bytes.now }
    ensures whole { length result.0.now + length result.1.now ≡ length bytes.now }
{
    bytes.split_at(first_place(bytes, stops))
}

// The place of the first byte that is one of the stops, or the length where there is none.
fn first_place(bytes: &[u8], stops: &[u8]) -> usize
    ensures place { result ≡ position_or_len (is_among stops.now) bytes.now }
    ensures within { result ≤ length bytes.now }
{
    for (at, b) in bytes.iter().enumerate() {
        if stops.contains(b) {
            return at;
        }
    }
    bytes.len()
}

/// The bytes after the first.
pub(crate) fn after_first(bytes: &[u8]) -> &[u8]
    ensures rest { result.now ≡ drop 1 bytes.now }
    ensures short { length result.now ≤ length bytes.now }
{
    match bytes {
        [] => bytes,
        [_, rest @ ..] => rest,
    }
}

/// The token that is the card's value.
pub(crate) fn token(card: &Card) -> Option<&[u8]>
    ensures content { option_copied result ≡ token_in (content_of (value_field card.now)) }
    ensures short { IfSome result (λ token. length token.now ≤ 70) }
{
    token_of(value_field(card))
}

fn token_of(field: &[u8]) -> Option<&[u8]>
    ensures content { option_copied result ≡ token_in (content_of field.now) }
    ensures short { IfSome result (λ token. length token.now ≤ length field.now) }
{
    let [first, ..] = field else { return None };
    if *first == b'/' {
        return None;
    }
    if *first == b'\'' {
        return None;
    }
    plain_token(field)
}

// The token at the front of the field, where nothing but a comment follows it.
fn plain_token(field: &[u8]) -> Option<&[u8]>
    ensures content { option_copied result ≡ token_in (token_content field.now) }
    ensures short { IfSome result (λ token. length token.now ≤ length field.now) }
{
    let (token, rest) = split_before(field, b" /");
    if is_over(rest) { Some(token) } else { None }
}

/// A string's bytes with each doubled quote made one, and what follows its closing quote.
pub(crate) fn unquoted(bytes: &[u8]) -> Option<(ArrayVec<u8, 68>, &[u8])>
    requires { length bytes.now ≤ 69 }
    ensures { option_map (λ string. record { text = string.0.items; rest = string.1.now }) result ≡ closed bytes.now }
{
    let mut text = ArrayVec::new();
    let mut rest = bytes;
    while rest.len() > 1 {
        if rest[0] != b'\'' {
            text.push(rest[0]);
            rest = &rest[1..];
        } else if rest[1] == b'\'' {
            text.push(b'\'');
            rest = &rest[2..];
        } else {
            return Some((text, &rest[1..]));
        }
    }
    let [last] = rest else { return None };
    if *last == b'\'' {
        Some((text, &[]))
    } else {
        None
    }
}

/// How many bytes stand before the spaces at the end, which are not significant in a string.
pub(crate) fn significant(bytes: &[u8]) -> usize
    ensures { take result bytes.now ≡ without_trailing_spaces bytes.now }
{
    let mut kept = bytes.len();
    while kept > 0 {
        if bytes[kept - 1] != b' ' {
            return kept;
        }
        kept -= 1;
    }
    0
}
