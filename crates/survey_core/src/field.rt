//! The name of a field of the sky.
ghost use Rattle.std.specs.Prelude.{◌≡◌, ℕ, List, take, length, true, Some, None, ◌≤◌, if◌then◌else◌, nat_eq, refl};
ghost use Rattle.std.specs.List.{list_all};
ghost use Rattle.std.specs.Ordering.{as_partial_cmp};
ghost use Rattle.std.specs.Cmp.{partial_order_from_own_ties};
ghost use Rattle.std.specs.Cmp.Lexicographic.{pointwise};
ghost use Rattle.std.specs.Cmp.Rules.{comparing};
ghost use Rattle.std.proofs.Common.{rules};
ghost use Rattle.survey_core.specs.Fields.{is_letter, is_name, name_cmp};

use std::cmp::Ordering;
use std::marker::Model;

const MOST: usize = 16;

/// The name of a field: 1 to 16 letters, digits, `_` or `-`. Seen as its bytes, by which fields are ordered.
#[derive(Drop)]
pub struct Field {
    letters: [u8; MOST],
    len: usize,
}

impl Model for Field {
    ghost use Rattle.std.specs.Prelude.{List, ℕ, take, ◌≤◌, ◌≡◌, true};
    ghost use Rattle.survey_core.specs.Fields.{is_name};

    ghost Value = { List ℕ };

    ghost view = { λ f. take f.len f.letters };

    ghost invariant = { λ f. (f.len ≤ 16) × (is_name (take f.len f.letters) ≡ true) };
}

fn is_letter(b: u8) -> bool
    ensures { result ≡ is_letter b }
{
    matches!(b, b'A'..=b'Z' | b'a'..=b'z' | b'0'..=b'9' | b'_' | b'-')
}

fn is_name(text: &[u8]) -> bool
    ensures { result ≡ is_name text.now }
{
    !text.is_empty() && text.len() <= MOST && are_letters(text)
}

fn are_letters(text: &[u8]) -> bool
    ensures { result ≡ list_all is_letter text.now }
{
    text.iter().all(|b| is_letter(*b))
}

impl Field {
    /// The field of this name, unless it is none.
    pub fn of(text: &str) -> Option<Field>
        ensures { result ≡ (if is_name text.now then Some text.now else None) }
    {
        Field::of_bytes(text.as_bytes())
    }

    /// The same of a name as bytes.
    pub fn of_bytes(text: &[u8]) -> Option<Field>
        ensures { result ≡ (if is_name text.now then Some text.now else None) }
    {
        if !is_name(text) {
            return None;
        }
        Some(Field::named(text))
    }

    fn named(text: &[u8]) -> Field
        requires { is_name text.now ≡ true }
        ensures { result ≡ text.now }
    {
        let mut letters = [0; MOST];
        letters[..text.len()].copy_from_slice(text);
        Field {
            letters,
            len: text.len(),
        }
    }

    /// Its letters, in ASCII.
    pub fn bytes(&self) -> &[u8]
        ensures value { result.now ≡ self.now }
        ensures name { is_name result.now ≡ true }
        ensures short { length result.now ≤ 16 }
    {
        &self.letters[..self.len]
    }

    /// The same field.
    pub fn copy(&self) -> Field
        ensures { result ≡ self.now }
    {
        Field {
            letters: self.letters,
            len: self.len,
        }
    }
}

impl PartialEq for Field {
    ghost eq = { pointwise nat_eq };

    ghost laws = { Prim.search (comparing, rules) };

    fn eq(&self, other: &Field) -> bool {
        self.bytes() == other.bytes()
    }
}

impl Eq for Field {
    ghost laws = { Prim.search (comparing, rules) };
}

impl PartialOrd for Field {
    ghost partial_cmp = { as_partial_cmp name_cmp };

    ghost laws = { partial_order_from_own_ties (Prim.search (comparing, rules)) (Prim.search (comparing, rules)) };

    fn partial_cmp(&self, other: &Field) -> Option<Ordering> {
        Some(self.cmp(other))
    }
}

impl Ord for Field {
    ghost cmp = { name_cmp };

    ghost total = { Prim.search (comparing, rules) };

    ghost matches_partial_cmp = { λ x y. refl };

    ghost matches_eq = { Prim.search (comparing, rules) };

    fn cmp(&self, other: &Field) -> Ordering {
        self.bytes().cmp(other.bytes())
    }
}
