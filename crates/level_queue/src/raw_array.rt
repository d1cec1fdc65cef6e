//! An array of a fixed length over a raw block. A clause sees what each place holds.
ghost use Rattle.std.specs.Prelude.{◌≡◌, ◌<◌, List, Option, Some, None, length, replicate, get_or, slice_set, IfOk};
ghost use Rattle.std.specs.Vec.Ownership.{FitsInBlock};
ghost use Rattle.level_queue.specs.Places.{HoldsValue};

use crate::block::{Places, allocate, deallocate};
use std::alloc::{AllocError, Global};
use std::marker::Model;

pub struct RawArray<T> {
    places: Places<T>,
    len: usize,
    alloc: Global,
}

impl<T> Model for RawArray<T> {
    ghost use Rattle.std.specs.Prelude.{List, Option};
    ghost use Rattle.std.specs.Coded.{coded_list, coded_option};

    ghost Value = { List (Option T) };

    ghost coded = { coded_list (coded_option T.code) };

    ghost use Rattle.std.specs.Prelude.{◌≡◌, length};

    ghost view = { λ a. a.places.held };

    ghost invariant = { λ a. length a.places.held ≡ a.len };
}

impl<T> RawArray<T> {
    // `len` empty places, whose memory is left as it is.
    pub(crate) fn new(alloc: Global, len: usize) -> Result<Self, AllocError>
        requires { FitsInBlock T.row len }
        ensures { IfOk result (λ array. array ≡ replicate len None) }
    {
        let places = allocate(&alloc, len)?;
        Ok(RawArray { places, len, alloc })
    }

    #[inline]
    pub(crate) fn get(&self, index: usize) -> T
    where
        T: Copy,
        requires { HoldsValue self.now index }
        ensures { get_or self.now index None ≡ Some result }
    {
        *self.places.get(index)
    }

    #[inline]
    pub(crate) fn write(&mut self, index: usize, item: T)
    where
        T: Copy,
        requires { index < length self.old }
        ensures { self.new ≡ slice_set self.old index (Some item) }
    {
        self.places.put(index, item);
    }

    // Moves the value out, which leaves the place empty.
    #[inline]
    pub(crate) fn take(&mut self, index: usize) -> T
    where
        T: Copy,
        requires { HoldsValue self.old index }
        ensures value { get_or self.old index None ≡ Some result }
        ensures left { self.new ≡ slice_set self.old index None }
    {
        let item = self.get(index);
        self.places.forget(index);
        item
    }
}

impl<T> Drop for RawArray<T> {
    fn drop(self) {
        let RawArray { places, len, alloc } = self;
        deallocate(&alloc, places, len);
    }
}
