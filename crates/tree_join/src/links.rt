//! The links of some rows, behind a type that counts each read.
//!
//! Once a slice is lent to `Links`, no other module can reach it: a line elsewhere that reads a link without a tick of the
//! counter doesn't compile. A read here that isn't counted is refused by the contract of `read`.

ghost use Rattle.std.specs.Prelude.{◌≡◌, ◌+◌, ◌<◌, length, set, slice_index};

use costs::Steps;
use std::sync::ledger::Ledger;

#[derive(Drop)]
pub(crate) struct Links<'a> {
    places: &'a mut [u32],
}

impl<'a> Links<'a> {
    pub(crate) fn over(places: &'a mut [u32]) -> Links<'a>
        ensures same_reference { result.places.ghost_name ≡ places.entry.ghost_name }
        ensures places { result.places.now ≡ places.old }
    {
        Links { places }
    }

    pub(crate) fn read<M: Ledger>(&self, place: usize, reads: &mut Steps<M>) -> u32
        requires { place < length self.now.places.now }
        ensures link { result ≡ slice_index self.now.places.now place }
        ensures read { reads.new ≡ reads.old + 1 }
    {
        reads.tick();
        self.places[place]
    }

    pub(crate) fn write(&mut self, place: usize, link: u32)
        requires { place < length self.old.places.now }
        ensures same_reference { self.new.places.ghost_name ≡ self.old.places.ghost_name }
        ensures places { self.new.places.now ≡ set self.old.places.now place link }
    {
        self.places[place] = link;
    }
}
