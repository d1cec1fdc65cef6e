//! The numbers that tokens write.
ghost use Rattle.std.specs.Prelude.{◌≡◌, ℕ, ◌+◌, ◌-◌, ◌*◌, ◌^◌, ◌<◌, ◌≤◌, ◌++◌, length, pos, negsuc, SomeIff, IfSome, IsTrue, true, ◌-ℤ◌, ◌≤ℤ◌};
ghost use Rattle.std.specs.Str.{all_ascii_digits};
ghost use Rattle.arrayvec.specs.ArrayVec.{array_vec_len};
ghost use Rattle.std.specs.Option.{option_map};
ghost use Rattle.fits_card.specs.Values.{is_negative, unsigned, is_numeral, number_of, signed, fits_i64, fitted, number_value, exponent_of, real_value, whole_of, whole_real};
ghost use Rattle.fits_card.specs.Clamped.{clamped};

use crate::field::{after_first, split_before};
use arrayvec::ArrayVec;

/// What a card's value is as a whole number.
#[derive(Debug, Clone, Copy, PartialEq, Eq, Drop)]
pub enum Whole {
    /// An integer, or a real that is a whole number, such as `3.276800E+04`.
    Is(i64),
    /// A real that isn't a whole number.
    NotWhole,
    /// A whole number that an `i64` can't hold.
    Beyond,
    /// The card has no value, or one that isn't a number.
    Unreadable,
}

/// Whether the token has a minus, and the token without a sign.
pub(crate) fn split_sign(token: &[u8]) -> (bool, &[u8])
    ensures negative { result.0 ≡ is_negative token.now }
    ensures rest { result.1.now ≡ unsigned token.now }
    ensures short { length result.1.now ≤ length token.now }
{
    match token {
        [b'-', rest @ ..] => (true, rest),
        [b'+', rest @ ..] => (false, rest),
        _ => (false, token),
    }
}

/// Whether these are one or more digits.
pub(crate) fn is_numeral(bytes: &[u8]) -> bool
    ensures { result ≡ is_numeral bytes.now }
{
    if bytes.is_empty() {
        return false;
    }
    for b in bytes {
        if !b.is_ascii_digit() {
            return false;
        }
    }
    true
}

// The number with one more digit at its end, where it fits.
fn with_digit(number: u64, digit: u8) -> Option<u64>
    requires low { 48 ≤ digit }
    requires high { digit ≤ 57 }
    ensures { SomeIff result (number * 10 + (digit - 48) < 2 ^ 64) (number * 10 + (digit - 48)) }
{
    let Some(shifted) = number.checked_mul(10) else {
        return None
    };
    shifted.checked_add(u64::from(digit - b'0'))
}

/// The number that the digits write, where it fits.
pub(crate) fn magnitude(digits: &[u8]) -> Option<u64>
    requires { IsTrue (all_ascii_digits digits.now) }
    ensures { SomeIff result (number_of digits.now < 2 ^ 64) (number_of digits.now) }
{
    let mut sum = 0;
    for digit in digits {
        let Some(next) = with_digit(sum, *digit) else {
            return None
        };
        sum = next;
    }
    Some(sum)
}

/// The number with its sign, where it fits.
pub(crate) fn signed(negative: bool, magnitude: u64) -> Option<i64>
    ensures { SomeIff result (IsTrue (fits_i64 (signed negative magnitude))) (signed negative magnitude) }
{
    if negative {
        0i64.checked_sub_unsigned(magnitude)
    } else {
        0i64.checked_add_unsigned(magnitude)
    }
}

fn fitted(negative: bool, magnitude: Option<u64>) -> Whole
    ensures { (n : ℕ) → SomeIff magnitude (n < 2 ^ 64) n → result ≡ fitted (signed negative n) }
{
    let Some(magnitude) = magnitude else {
        return Whole::Beyond
    };
    match signed(negative, magnitude) {
        Some(number) => Whole::Is(number),
        None => Whole::Beyond,
    }
}

/// The integer or the real that the bytes after a sign write.
pub(crate) fn number(negative: bool, bytes: &[u8]) -> Whole
    requires { length bytes.now ≤ 70 }
    ensures { result ≡ whole_of (number_value negative bytes.now) }
{
    if is_numeral(bytes) {
        fitted(negative, magnitude(bytes))
    } else {
        real(negative, bytes)
    }
}

fn real(negative: bool, bytes: &[u8]) -> Whole
    requires { length bytes.now ≤ 70 }
    ensures { result ≡ whole_of (real_value negative bytes.now) }
{
    let (mantissa, scale) = split_before(bytes, b"EDed");
    let (whole, fraction) = split_before(mantissa, b".");
    let fraction = after_first(fraction);
    let Some(exponent) = exponent(scale) else {
        return Whole::Unreadable
    };
    let digits = joined(whole, fraction);
    if is_numeral(digits.as_slice()) {
        shifted(negative, digits.as_slice(), less(exponent, fraction.len()))
    } else {
        Whole::Unreadable
    }
}

// An exponent as far from 0 as this moves the point past all digits that a card can hold, as any farther one does.
const FAR: u64 = 1_000;

// The exponent after its letter, or `FAR` or its negative where it is beyond these.
fn exponent(bytes: &[u8]) -> Option<i64>
    ensures value { result ≡ option_map clamped (exponent_of bytes.now) }
    ensures low { IfSome result (λ e. negsuc 999 ≤ℤ e) }
    ensures high { IfSome result (λ e. e ≤ℤ pos 1000) }
{
    let [_, digits @ ..] = bytes else {
        return Some(0)
    };
    let (negative, digits) = split_sign(digits);
    if !is_numeral(digits) {
        return None;
    }
    signed(negative, magnitude(digits).unwrap_or(FAR).min(FAR))
}

// The exponent of a real whose digits after the point are counted to the whole number.
fn less(exponent: i64, decimals: usize) -> i64
    requires low { negsuc 999 ≤ℤ exponent }
    requires high { exponent ≤ℤ pos 1000 }
    requires few { decimals ≤ 70 }
    ensures { result ≡ exponent -ℤ pos decimals }
{
    exponent - decimals as i64
}

fn joined(whole: &[u8], fraction: &[u8]) -> ArrayVec<u8, 70>
    requires { length whole.now + length fraction.now ≤ 70 }
    ensures { result.items ≡ whole.now ++ fraction.now }
{
    let mut digits = ArrayVec::new();
    append(&mut digits, whole);
    append(&mut digits, fraction);
    digits
}

fn append(digits: &mut ArrayVec<u8, 70>, more: &[u8])
    requires { array_vec_len digits.old + length more.now ≤ 70 }
    ensures { digits.new.items ≡ digits.old.items ++ more.now }
{
    for digit in more {
        digits.push(*digit);
    }
}

// The number that the digits write, times 10 to the power of the shift.
fn shifted(negative: bool, digits: &[u8], shift: i64) -> Whole
    requires { IsTrue (all_ascii_digits digits.now) }
    ensures { result ≡ whole_real (signed negative (number_of digits.now)) shift }
{
    let places = shift.unsigned_abs();
    if shift >= 0 {
        return fitted(negative, raised(digits, places));
    }
    let cut = digits.len().min(places as usize);
    let (front, back) = digits.split_at(digits.len() - cut);
    let Some(cut_off) = magnitude(back) else {
        return Whole::NotWhole
    };
    if cut_off != 0 {
        return Whole::NotWhole;
    }
    fitted(negative, magnitude(front))
}

// The number that the digits and so many zeros write, where it fits.
fn raised(digits: &[u8], zeros: u64) -> Option<u64>
    requires { IsTrue (all_ascii_digits digits.now) }
    ensures { SomeIff result (number_of digits.now * 10 ^ zeros < 2 ^ 64) (number_of digits.now * 10 ^ zeros) }
{
    let Some(number) = magnitude(digits) else {
        return None
    };
    if number == 0 {
        return Some(0);
    }
    if zeros > 19 {
        return None;
    }
    number.checked_mul(10u64.pow(zeros as u32))
}
