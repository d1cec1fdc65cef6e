//! An empty primary HDU at the front of bytes.
ghost use Rattle.std.specs.Prelude.{◌≡◌, ◌++◌, ℕ, List, IfSome, IfNone};
ghost use Rattle.fits_write.specs.Hdus.{empty_primary};

use crate::front::strip_header;
use fits_write::primary_cards;

/// What stands behind an empty primary HDU at the front of the bytes, if there is one.
#[tactic(auto, unfolding(fits_write::specs::Hdus::empty_primary))]
pub fn split_primary(bytes: &[u8]) -> Option<&[u8]>
    ensures some { IfSome result (λ rest. bytes.now ≡ empty_primary ++ rest.now) }
    ensures none { IfNone result ((rest : List ℕ) → bytes.now ≡ empty_primary ++ rest → ⊥) }
{
    strip_header(bytes, &primary_cards())
}
