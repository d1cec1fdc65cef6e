//! The law of a search that goes on. It is the contract of a function that does nothing, and speaks of the definitions alone.

ghost use Rattle.fits_hdu.specs.Laws.{SearchGoesOn, OtherBytesAreMet};

/// A search that goes on behind the data of an HDU finds what the search from the first byte finds, and meets the same bytes.
#[tactic(auto, using(crate::proofs::Searching::search_goes_on, crate::proofs::Searching::other_bytes_are_met))]
pub fn a_search_goes_on()
    ensures found { SearchGoesOn }
    ensures met { OtherBytesAreMet }
{}
