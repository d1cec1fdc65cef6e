//! Whole numbers in words.
ghost use Rattle.std.specs.Prelude.{◌≡◌, ◌≤ℤ◌, Some, IfSome};
ghost use Rattle.std.specs.List.{list_all};
ghost use Rattle.std.specs.Char.{is_ascii_digit};
ghost use Rattle.command_line.specs.Numbers.{without_minus as digits_of, is_short_numeral, within, number_between as number_in};

fn without_minus(text: &[u8]) -> &[u8]
    ensures { result.now ≡ digits_of text.now }
{
    match text {
        [b'-', digits @ ..] => digits,
        _ => text,
    }
}

fn are_digits(bytes: &[u8]) -> bool
    ensures { result ≡ list_all is_ascii_digit bytes.now }
{
    bytes.iter().all(|byte| byte.is_ascii_digit())
}

fn is_short_numeral(digits: &[u8]) -> bool
    ensures { result ≡ is_short_numeral digits.now }
{
    !digits.is_empty() && digits.len() <= 19 && are_digits(digits)
}

fn within(number: i64, least: i64, most: i64) -> Option<i64>
    ensures found { result ≡ within least most (Some number) }
    ensures low { IfSome result (λ n. least ≤ℤ n) }
    ensures high { IfSome result (λ n. n ≤ℤ most) }
{
    if least <= number && number <= most {
        Some(number)
    } else {
        None
    }
}

/// The whole number from `least` to `most` that the word is: an optional minus and 1 to 19 decimal digits. It takes no memory.
pub fn number_between(text: &str, least: i64, most: i64) -> Option<i64>
    ensures number { result ≡ number_in least most text.now }
    ensures low { IfSome result (λ n. least ≤ℤ n) }
    ensures high { IfSome result (λ n. n ≤ℤ most) }
{
    if !is_short_numeral(without_minus(text.as_bytes())) {
        return None;
    }
    match text.parse::<i64>() {
        Ok(number) => within(number, least, most),
        Err(_) => None,
    }
}
