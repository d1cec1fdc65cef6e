//! The skips of some rows, in a list that the caller lends: each leads from a pixel to one further up that the links join with
//! it.
//!
//! What links join stays joined, at each level, so its skips stay true while links change. While a pair is still to be
//! joined, a skip may stand on that pair too: then it is true of the links alone where its end has a higher value than the
//! earlier pixel of the pair.

ghost use Rattle.std.specs.Prelude.{◌≡◌, ◌+◌, length, set, IfSome};
ghost use Rattle.tree_join.specs.Walks.{IsSkipAt};

use comp_tree::NONE;
use costs::Steps;
use std::sync::ledger::Ledger;

// A place for each pixel from the first one on, as far as the list is long; NONE where no skip is known.
#[derive(Drop)]
pub(crate) struct Skips<'a> {
    places: &'a mut [u32],
}

impl<'a> Skips<'a> {
    pub(crate) fn over(places: &'a mut [u32]) -> Skips<'a>
        ensures same_reference { result.places.ghost_name ≡ places.entry.ghost_name }
        ensures places { result.places.now ≡ places.old }
    {
        Skips { places }
    }

    // The pixel that the skip at this place leads to, if one is known. No other function reads a place, and none outside this
    // module can.
    pub(crate) fn told<M: Ledger>(&self, place: usize, reads: &mut Steps<M>) -> Option<u32>
        ensures told { IfSome result (λ there. IsSkipAt self.now.places.now place there) }
        ensures read { reads.new ≡ reads.old + 1 }
    {
        reads.tick();
        if place >= self.places.len() {
            return None;
        }
        let there = self.places[place];
        if there == NONE {
            return None;
        }
        Some(there)
    }

    // Beyond the list's end nothing is noted.
    pub(crate) fn note(&mut self, place: usize, there: u32)
        ensures same_reference { self.new.places.ghost_name ≡ self.old.places.ghost_name }
        ensures places { self.new.places.now ≡ set self.old.places.now place there }
    {
        if place < self.places.len() {
            self.places[place] = there;
        }
    }
}
