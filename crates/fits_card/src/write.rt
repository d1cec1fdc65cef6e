//! The cards that a program writes, in fixed format (FITS Standard 4.0, section 4.2).
ghost use Rattle.std.specs.Prelude.{◌≡◌, ◌+◌, ◌≤◌, ◌++◌, length, take, drop, IsTrue};
ghost use Rattle.std.specs.List.{list_all};
ghost use Rattle.fits_card.specs.Written.{is_plain, written_value, written_logical, written_integer, written_text, written_end};

use crate::Card;

// Writes the bytes from this place on.
fn put(line: &mut [u8], at: usize, bytes: &[u8])
    requires { at + length bytes.now ≤ length line.old }
    ensures { line.new ≡ take at line.old ++ bytes.now ++ drop (at + length bytes.now) line.old }
{
    line[at..at + bytes.len()].copy_from_slice(bytes);
}

// A card with this value from column 11 on.
fn value_card(name: &[u8; 8], value: &[u8]) -> Card
    requires { length value.now ≤ 70 }
    ensures { result ≡ written_value name.now value.now }
{
    let mut card = [b' '; 80];
    put(&mut card, 0, name);
    put(&mut card, 8, b"= ");
    put(&mut card, 10, value);
    card
}

/// The logical stands in column 30.
#[tactic(auto, unfolding(crate::specs::Written::written_logical))]
pub fn logical_card(name: &[u8; 8], value: bool) -> Card
    ensures { result ≡ written_logical name.now value }
{
    let mut field = [b' '; 20];
    field[19] = if value { b'T' } else { b'F' };
    value_card(name, &field)
}

/// The integer's last digit stands in column 30.
#[tactic(auto, unfolding(crate::specs::Written::written_integer))]
pub fn int_card(name: &[u8; 8], value: i64) -> Card
    ensures { result ≡ written_integer name.now value }
{
    let mut buffer = itoa::Buffer::new();
    let digits = buffer.format(value).as_bytes();
    let mut field = [b' '; 20];
    put(&mut field, 20 - digits.len(), digits);
    value_card(name, &field)
}

/// The text stands between quotes from column 11 on, filled with spaces to at least eight characters.
pub fn text_card(name: &[u8; 8], value: &[u8]) -> Card
    requires short { length value.now ≤ 68 }
    requires plain { IsTrue (list_all is_plain value.now) }
    ensures { result ≡ written_text name.now value.now }
{
    let width = value.len().max(8);
    let mut field = [b' '; 70];
    put(&mut field, 0, b"'");
    put(&mut field, 1, value);
    put(&mut field, 1 + width, b"'");
    value_card(name, &field[..2 + width])
}

/// The card that ends a header.
#[tactic(auto, unfolding(crate::specs::Written::written_end))]
pub fn end_card() -> Card
    ensures { result ≡ written_end }
{
    let mut card = [b' '; 80];
    put(&mut card, 0, b"END");
    card
}
