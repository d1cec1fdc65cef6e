//! Marks on the pixels of a plane: a bit each, since there may be two thousand million pixels.

ghost use Rattle.std.specs.Prelude.{◌≡◌, ◌<◌, false, true, length, replicate, slice_set, IfOk};
ghost use Rattle.comp_tree.specs.Marks.{is_marked};

use costs::OutOfMemory;
use std::alloc::Global;
use std::marker::Model;

/// For each of some pixels whether it has a mark.
#[derive(Drop)]
pub(crate) struct PixelMarks {
    words: Vec<u64>,
    count: usize,
}

impl Model for PixelMarks {
    ghost use Rattle.std.specs.Prelude.{◌≤◌, ◌*◌, length, Bool, List};
    ghost use Rattle.level_queue.specs.Bits.{bits_of};

    ghost Value = { List Bool };

    ghost view = { λ m. bits_of m.words.items m.count };

    ghost invariant = { λ m. m.count ≤ 64 * length m.words.items };
}

impl PixelMarks {
    /// So many pixels without a mark. The one error is that memory was refused.
    pub(crate) fn none(alloc: Global, count: usize) -> Result<PixelMarks, OutOfMemory>
        ensures { IfOk result (λ marks. marks ≡ replicate count false) }
    {
        let words = vec![in alloc; 0u64; count.div_ceil(64)]?;
        Ok(PixelMarks { words, count })
    }

    #[inline]
    pub(crate) fn has(&self, p: u32) -> bool
        requires { p < length self.now }
        ensures { result ≡ is_marked self.now p }
    {
        (self.words[p as usize / 64] >> (p % 64)) & 1 == 1
    }

    #[inline]
    pub(crate) fn set(&mut self, p: u32)
        requires { p < length self.old }
        ensures { self.new ≡ slice_set self.old p true }
    {
        self.words[p as usize / 64] |= 1 << (p % 64);
    }
}
