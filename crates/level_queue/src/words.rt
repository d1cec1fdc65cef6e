//! Words of 64 bits in a raw array. A clause sees the list of the words.
ghost use Rattle.std.specs.Prelude.{◌≡◌, ◌+◌, ◌*◌, ◌/◌, ◌^◌, ◌<◌, ◌≤◌, ◌==◌, List, length, replicate, get_or, slice_set, IfOk};
ghost use Rattle.level_queue.specs.Bits.{bit, Marks, Clears, IsLastOf};

use crate::raw_array::RawArray;
use std::alloc::{AllocError, Global};
use std::marker::Model;

#[derive(Drop)]
pub struct Words {
    array: RawArray<u64>,
}

impl Model for Words {
    ghost use Rattle.std.specs.Prelude.{◌≡◌, ℕ, List, map, Some};
    ghost use Rattle.level_queue.specs.Bits.{word};

    ghost Value = { List ℕ };

    ghost view = { λ w. map word w.array };

    ghost invariant = { λ w. w.array ≡ map Some (map word w.array) };
}

impl Words {
    // `len` words that are 0.
    pub(crate) fn new(alloc: Global, len: usize) -> Result<Self, AllocError>
        requires { len ≤ 2 ^ 24 }
        ensures { IfOk result (λ words. words ≡ replicate len 0) }
    {
        let mut array = RawArray::new(alloc, len)?;
        for i in 0..len {
            array.write(i, 0);
        }
        Ok(Words { array })
    }

    #[inline]
    pub(crate) fn get(&self, index: usize) -> u64
        requires { index < length self.now }
        ensures { result ≡ get_or self.now index 0 }
    {
        self.array.get(index)
    }

    #[inline]
    pub(crate) fn set(&mut self, index: usize, word: u64)
        requires { index < length self.old }
        ensures { self.new ≡ slice_set self.old index word }
    {
        self.array.write(index, word);
    }

    // Whether the bit is set.
    #[inline]
    pub(crate) fn has(&self, index: usize) -> bool
        requires { index / 64 < length self.now }
        ensures { result ≡ (bit self.now index == 1) }
    {
        (self.get(index / 64) >> (index % 64)) & 1 == 1
    }

    // Sets the bit, and answers whether its word was 0.
    #[inline]
    pub(crate) fn mark(&mut self, index: usize) -> bool
        requires { index / 64 < length self.old }
        ensures marks { Marks self.old self.new index }
        ensures was { result ≡ (get_or self.old (index / 64) 0 == 0) }
    {
        let old = self.get(index / 64);
        self.set(index / 64, old | 1 << (index % 64));
        old == 0
    }

    // Clears the bit, and answers whether its word is 0 now.
    #[inline]
    pub(crate) fn clear(&mut self, index: usize) -> bool
        requires { index / 64 < length self.old }
        ensures clears { Clears self.old self.new index }
        ensures is { result ≡ (get_or self.new (index / 64) 0 == 0) }
    {
        let left = self.get(index / 64) & !(1 << (index % 64));
        self.set(index / 64, left);
        left == 0
    }

    // The last bit of the word that is set.
    #[inline]
    pub(crate) fn last_of(&self, index: usize) -> usize
        requires small { index < 2 ^ 24 }
        requires some { 0 < get_or self.now index 0 }
        ensures { IsLastOf self.now index result }
    {
        index * 64 + self.get(index).ilog2() as usize
    }
}
