//! How a plane keeps its pixels: each of them, or, where few are defined, of each block of 32 pixels those from its first defined pixel
//! to its last.

ghost use Rattle.std.specs.Prelude.{◌≡◌, ℕ, [], true, ◌+◌, ◌-◌, ◌*◌, ◌++◌, ◌^◌, ◌<◌, ◌≤◌, None, false, cond, slice_index_or, length};
ghost use Rattle.std.specs.Prelude.{map, IfOk, OnOk, OnErr, IfSome, IsTrue, is_some, slice_set};
ghost use Rattle.std.specs.Fork.{AcceptsChunksMut, AllInChunks};
ghost use Rattle.comp_tree.specs.Limits.{most_pixels};
ghost use Rattle.comp_tree.specs.Bands.{LeavesWithin};
ghost use Rattle.comp_tree.specs.Kept.{kept_items};
ghost use Rattle.comp_tree.specs.Numbers.{most_short};
ghost use Rattle.comp_tree.specs.Raster.{value_at, at_least, HasGap, HasValuesWithin};
ghost use Rattle.std.specs.Option.{option_map};
ghost use Rattle.comp_tree.specs.Stored.{kept_place, place_in_run as place_in_run_of, AreBlocksOf, AreAllInBlocks};
ghost use Rattle.comp_tree.specs.Stored.{shown_values};
ghost use Rattle.std.specs.List.{list_any, range_with_len};

use crate::kept::{Kept, SHORT_END, copy_of};
use crate::pixel::Pixel;
use costs::OutOfMemory;
use std::alloc::Global;
use std::marker::Model;
use std::thread::Threads;
use std::{mem, thread};

// How many pixels there are in a block.
const BLOCK: usize = 32;

// The run of a block: its pixels from the first defined one to the last. `first` and `end` count from the block's first pixel,
// and where no pixel is defined they are equal.
#[derive(Clone, Copy)]
pub struct Run {
    // the place of the run's first pixel among all that are kept
    start: u32,
    first: u8,
    end: u8,
}

#[derive(Drop)]
pub(crate) struct Pixels {
    count: usize,
    // A run for each block, or no list while each pixel is kept.
    runs: Option<Vec<Run>>,
    kept: Kept,
}

impl Model for Pixels {
    ghost use Rattle.std.specs.Prelude.{List, Option, ℤ};
    ghost use Rattle.std.specs.Option.{option_map};
    ghost use Rattle.comp_tree.specs.Kept.{kept_items};
    ghost use Rattle.comp_tree.specs.Stored.{kept_pixels, AreKept};

    ghost Value = { List (Option ℤ) };

    ghost view = { λ pixels. kept_pixels pixels.count (option_map (λ runs. runs.items) pixels.runs) (kept_items pixels.kept) };

    ghost invariant = { λ pixels. AreKept pixels.count (option_map (λ runs. runs.items) pixels.runs) (kept_items pixels.kept) };
}

impl Pixels {
    // These pixels.
    pub(crate) fn of(kept: Kept) -> Pixels
        ensures { result ≡ kept_items kept }
    {
        Pixels {
            count: kept.len(),
            runs: None,
            kept,
        }
    }

    // Takes others in their place.
    pub(crate) fn replace_by(&mut self, pixels: Pixels)
        ensures { self.new ≡ pixels }
    {
        *self = pixels;
    }

    // How many there are.
    fn len(&self) -> usize
        ensures { result ≡ length self.now }
    {
        self.count
    }

    // The same pixels a second time.
    pub(crate) fn copied(&self, alloc: Global) -> Result<Pixels, OutOfMemory>
        ensures { IfOk result (λ copy. copy ≡ self.now) }
    {
        let kept = self.kept.copied(alloc)?;
        let runs = copy_if_there(alloc, &self.runs)?;
        Ok(Pixels {
            count: self.count,
            runs,
            kept,
        })
    }

    // The value of a pixel, where it is defined.
    #[inline(always)]
    pub(crate) fn get(&self, p: usize) -> Option<i64>
        requires { p < length self.now }
        ensures { result ≡ value_at self.now p }
    {
        match place_of(&self.runs, p) {
            Some(place) => self.kept.get(place),
            None => None,
        }
    }

    // The same as a pixel.
    #[inline(always)]
    fn pixel(&self, p: usize) -> Pixel
        requires { p < length self.now }
        ensures { result ≡ value_at self.now p }
    {
        match place_of(&self.runs, p) {
            Some(place) => self.kept.pixel(place),
            None => Pixel::of(None),
        }
    }

    // Copies the pixels from `first` on into `run`, as many as it has.
    pub(crate) fn copy_run(&self, first: usize, run: &mut [Pixel])
        requires inside { first + length run.old ≤ length self.now }
        ensures one_each { length run.new ≡ length run.old }
        ensures same { (k : ℕ) → k < length run.old → value_at run.new k ≡ value_at self.now (first + k) }
    {
        match self.runs {
            None => self.kept.copy_run(first, run),
            Some(_) => self.copy_each(first, run),
        }
    }

    // The same by a look at each.
    fn copy_each(&self, first: usize, run: &mut [Pixel])
        requires inside { first + length run.old ≤ length self.now }
        ensures one_each { length run.new ≡ length run.old }
        ensures same { (k : ℕ) → k < length run.old → value_at run.new k ≡ value_at self.now (first + k) }
    {
        // for its clauses alone: how many there are
        let _count = self.len();
        for k in 0..run.len() {
            run[k] = self.pixel(first + k);
        }
    }

    // Whether one of so many pixels from `first` on is defined and has at least this value.
    pub(crate) fn any_at_least(&self, bound: i64, first: usize, count: usize) -> bool
        requires inside { first + count ≤ length self.now }
        ensures { result ≡ list_any (λ p. at_least bound (value_at self.now p)) (range_with_len first count) }
    {
        match self.runs {
            None => self.kept.any_at_least(bound, first, count),
            Some(_) => self.any_of_each(bound, first, count),
        }
    }

    // The same by a look at each.
    fn any_of_each(&self, bound: i64, first: usize, count: usize) -> bool
        requires inside { first + count ≤ length self.now }
        ensures { result ≡ list_any (λ p. at_least bound (value_at self.now p)) (range_with_len first count) }
    {
        // for its clauses alone: how many there are
        let _count = self.len();
        let mut any = false;
        for k in 0..count {
            any |= self.pixel(first + k).is_at_least(bound);
        }
        any
    }

    // How far from 0 a value lies at the most, or 0 where no pixel is defined.
    pub(crate) fn farthest(&self) -> u64
        ensures within { HasValuesWithin result self.now }
        ensures least { (most : ℕ) → HasValuesWithin most self.now → result ≤ most }
    {
        match self.runs {
            None => self.kept.farthest(),
            Some(_) => self.farthest_of_each(),
        }
    }

    // The same by a look at each.
    fn farthest_of_each(&self) -> u64
        ensures within { HasValuesWithin result self.now }
        ensures least { (most : ℕ) → HasValuesWithin most self.now → result ≤ most }
    {
        let count = self.len();
        let mut distance: u64 = 0;
        for p in 0..count {
            distance = distance.max(self.pixel(p).distance());
        }
        distance
    }

    // Makes a pixel undefined.
    #[inline]
    pub(crate) fn clear(&mut self, p: usize)
        requires { p < length self.old }
        ensures { self.new ≡ slice_set self.old p None }
    {
        if let Some(place) = place_of(&self.runs, p) {
            self.kept.set(place, None);
        }
    }

    // Changes the pixels in bands of `size`, as a plane's `change_bands` does. Those that are kept in blocks are spread out before, and short
    // ones made wide where what is left wants it.
    pub(crate) fn change_bands<R: Threads + Sync, F: Fn(usize, &mut [Pixel]) + Sync>(
        &mut self,
        rt: &R,
        alloc: Global,
        size: usize,
        most: u64,
        change: &F,
    ) -> Result<(), OutOfMemory>
        requires some { 0 < size }
        requires accepts { AcceptsChunksMut F.Fn change.now size self.old }
        requires within { LeavesWithin most F.Fn change.now size self.old }
        ensures one_each { length self.new ≡ length self.old }
        ensures changed { OnOk result (AllInChunks F.Fn change.now size self.old self.new) }
        ensures unchanged { OnErr result (self.new ≡ self.old) }
    {
        if most < SHORT_END {
            match self.change_if_short(alloc, size, change) {
                Ok(false) => {}
                Ok(true) => return Ok(()),
                Err(refused) => return Err(refused),
            }
        }
        self.change_wide(rt, alloc, size, change)
    }

    // The same where they are short and each is kept, and whether they are.
    fn change_if_short<F: Fn(usize, &mut [Pixel])>(
        &mut self,
        alloc: Global,
        size: usize,
        change: &F,
    ) -> Result<bool, OutOfMemory>
        requires some { 0 < size }
        requires accepts { AcceptsChunksMut F.Fn change.now size self.old }
        requires within { LeavesWithin most_short F.Fn change.now size self.old }
        ensures one_each { length self.new ≡ length self.old }
        ensures changed { IfOk result (λ short. short ≡ true
            → AllInChunks F.Fn change.now size self.old self.new) }
        ensures wide { IfOk result (λ short. short ≡ false → self.new ≡ self.old) }
        ensures unchanged { OnErr result (self.new ≡ self.old) }
    {
        if self.runs.is_some() {
            return Ok(false);
        }
        self.kept.change_if_short(alloc, size, change)
    }

    // The same where they are made wide.
    fn change_wide<R: Threads + Sync, F: Fn(usize, &mut [Pixel]) + Sync>(
        &mut self,
        rt: &R,
        alloc: Global,
        size: usize,
        change: &F,
    ) -> Result<(), OutOfMemory>
        requires some { 0 < size }
        requires accepts { AcceptsChunksMut F.Fn change.now size self.old }
        ensures one_each { length self.new ≡ length self.old }
        ensures changed { OnOk result (AllInChunks F.Fn change.now size self.old self.new) }
        ensures unchanged { OnErr result (self.new ≡ self.old) }
    {
        let mut pixels = self.take_each(alloc)?;
        thread::for_each_chunk_mut(rt, &mut pixels, size, change);
        *self = Pixels::of(Kept::Wide(pixels));
        Ok(())
    }

    // Takes all pixels out, so that none is left here, or copies them where they aren't kept one by one in eight bytes.
    fn take_each(&mut self, alloc: Global) -> Result<Vec<Pixel>, OutOfMemory>
        ensures taken { IfOk result (λ pixels. pixels.items ≡ self.old) }
        ensures unchanged { OnErr result (self.new ≡ self.old) }
    {
        if self.runs.is_none() {
            if let Kept::Wide(pixels) = &mut self.kept {
                self.count = 0;
                return Ok(mem::replace(pixels, Vec::new(alloc)));
            }
        }
        self.spread_out(alloc)
    }

    // All pixels.
    fn spread_out(&self, alloc: Global) -> Result<Vec<Pixel>, OutOfMemory>
        ensures { IfOk result (λ pixels. pixels.items ≡ self.now) }
    {
        let count = self.count;
        let mut pixels = Vec::with_capacity(alloc, count)?;
        for p in 0..count {
            pixels.push(self.pixel(p))?;
        }
        Ok(pixels)
    }

    // The next pixel behind this one that may be defined. Where pixels are kept in blocks, those beside a run are passed over.
    #[inline(always)]
    pub(crate) fn behind(&self, p: usize) -> usize
        requires pixel { p < length self.now }
        requires few { p < 2 ^ 32 }
        ensures later { p < result }
        ensures none { HasGap self.now (p + 1) result }
    {
        match &self.runs {
            None => p + 1,
            Some(runs) => p / BLOCK * BLOCK + behind_in_run(runs[p / BLOCK], p % BLOCK),
        }
    }

    // The same pixels in blocks, those undefined that aren't marked, if they aren't kept so and at most a quarter of them remains.
    // Without marks all are shown.
    pub(crate) fn in_blocks(
        &self,
        alloc: Global,
        marks: Option<&[bool]>,
    ) -> Result<Option<Pixels>, OutOfMemory>
        requires few { length self.now ≤ most_pixels }
        requires one_each { IfSome marks (λ marks. length marks.now ≡ length self.now) }
        ensures { IfOk result (λ made. IfSome made
            (λ pixels. pixels ≡ shown_values self.now marks.entry)) }
    {
        match &self.runs {
            None => blocks_of(alloc, self, marks),
            Some(_) => Ok(None),
        }
    }
}

// Which of the kept pixels is this one, if one is.
#[inline(always)]
#[tactic(auto, unfolding(crate::specs::Stored::kept_place))]
fn place_of(runs: &Option<Vec<Run>>, p: usize) -> Option<usize>
    requires { IfSome runs.now (λ runs. p < length runs.items * 32) }
    ensures { result ≡ kept_place (option_map (λ runs. runs.items) runs.now) p }
{
    let Some(runs) = runs else {
        return Some(p);
    };
    place_in_run(runs[p / BLOCK], p % BLOCK)
}

// The place of a block's pixel, if it is one of the run's.
#[inline(always)]
#[tactic(auto, unfolding(crate::specs::Stored::place_in_run))]
fn place_in_run(run: Run, k: usize) -> Option<usize>
    ensures { result ≡ place_in_run_of run k }
{
    if k < run.first as usize || k >= run.end as usize {
        return None;
    }
    Some(run.start as usize + (k - run.first as usize))
}

// The next pixel of a block behind this one that is one of the run's, or the end of the block.
#[inline(always)]
fn behind_in_run(run: Run, k: usize) -> usize
    requires { k < 32 }
    ensures later { k < result }
    ensures inside { result ≤ 32 }
    ensures none { (j : ℕ) → k < j → j < result → place_in_run_of run j ≡ None }
{
    if k >= run.end as usize {
        return BLOCK;
    }
    (k + 1).max(BLOCK.min(run.first as usize))
}

// The same list a second time, if there is one.
fn copy_if_there(alloc: Global, runs: &Option<Vec<Run>>) -> Result<Option<Vec<Run>>, OutOfMemory>
    ensures { IfOk result (λ copy. option_map (λ runs. runs.items) copy
        ≡ option_map (λ runs. runs.items) runs.now) }
{
    let Some(runs) = runs else {
        return Ok(None);
    };
    let copy = copy_of(alloc, runs)?;
    Ok(Some(copy))
}

// These pixels in blocks, those undefined that aren't marked, if at most a quarter of them remains. Without marks all are shown.
fn blocks_of(
    alloc: Global,
    pixels: &Pixels,
    marks: Option<&[bool]>,
) -> Result<Option<Pixels>, OutOfMemory>
    requires few { length pixels.now ≤ most_pixels }
    requires one_each { IfSome marks (λ marks. length marks.now ≡ length pixels.now) }
    ensures { IfOk result (λ made. IfSome made
        (λ made. made ≡ shown_values pixels.now marks.entry)) }
{
    let mut runs = Vec::with_capacity(alloc, pixels.len().div_ceil(BLOCK))?;
    // room that isn't used takes no memory until it is written to
    let mut kept = Vec::with_capacity(alloc, pixels.len() / 4)?;
    if !add_blocks(&mut runs, &mut kept, pixels, marks)? {
        return Ok(None);
    }
    Ok(Some(Pixels {
        count: pixels.len(),
        runs: Some(runs),
        kept: Kept::Wide(kept),
    }))
}

// Adds all blocks, or only some where more than a quarter of the pixels remains. Whether all were added.
fn add_blocks(
    runs: &mut Vec<Run>,
    kept: &mut Vec<Pixel>,
    pixels: &Pixels,
    marks: Option<&[bool]>,
) -> Result<bool, OutOfMemory>
    requires few { length pixels.now ≤ most_pixels }
    requires one_each { IfSome marks (λ marks. length marks.now ≡ length pixels.now) }
    requires no_runs { runs.old.items ≡ [] }
    requires none_kept { kept.old.items ≡ [] }
    ensures { IfOk result (λ all. all ≡ true → AreAllInBlocks runs.new.items kept.new.items
        (shown_values pixels.now marks.entry)) }
{
    for block in 0..pixels.len().div_ceil(BLOCK) {
        add_block(runs, kept, pixels, marks, block)?;
        if kept.len() > pixels.len() / 4 {
            return Ok(false);
        }
    }
    Ok(true)
}

// Adds the next block to the first ones.
fn add_block(
    runs: &mut Vec<Run>,
    kept: &mut Vec<Pixel>,
    pixels: &Pixels,
    marks: Option<&[bool]>,
    block: usize,
) -> Result<(), OutOfMemory>
    requires few { length pixels.now ≤ most_pixels }
    requires one_each { IfSome marks (λ marks. length marks.now ≡ length pixels.now) }
    requires inside { block * 32 < length pixels.now }
    requires before { AreBlocksOf block runs.old.items kept.old.items
        (shown_values pixels.now marks) }
    ensures { OnOk result (AreBlocksOf (block + 1) runs.new.items kept.new.items
        (shown_values pixels.now marks.entry)) }
{
    let low = block * BLOCK;
    let high = pixels.len().min(low + BLOCK);
    let first = first_shown(pixels, marks, low, high);
    let end = end_of_shown(pixels, marks, first, high);
    let run = Run {
        start: kept.len() as u32,
        first: (first - low) as u8,
        end: (end - low) as u8,
    };
    runs.push(run)?;
    push_shown(kept, pixels, marks, first, end)
}

// Adds some pixels as they are shown.
fn push_shown(
    kept: &mut Vec<Pixel>,
    pixels: &Pixels,
    marks: Option<&[bool]>,
    first: usize,
    end: usize,
) -> Result<(), OutOfMemory>
    requires one_each { IfSome marks (λ marks. length marks.now ≡ length pixels.now) }
    requires order { first ≤ end }
    requires inside { end ≤ length pixels.now }
    ensures { OnOk result (kept.new.items ≡ kept.old.items
        ++ map (value_at (shown_values pixels.now marks.entry))
        (range_with_len first (end - first))) }
{
    for p in first..end {
        kept.push(shown(pixels, marks, p))?;
    }
    Ok(())
}

// The first of some pixels that is shown, or their end where none is.
fn first_shown(pixels: &Pixels, marks: Option<&[bool]>, low: usize, high: usize) -> usize
    requires one_each { IfSome marks (λ marks. length marks.now ≡ length pixels.now) }
    requires order { low ≤ high }
    requires inside { high ≤ length pixels.now }
    ensures low { low ≤ result }
    ensures high { result ≤ high }
    ensures none_before { HasGap (shown_values pixels.now marks.entry)
        low result }
{
    let mut first = low;
    while first < high && shown(pixels, marks, first).value().is_none() {
        first += 1;
    }
    first
}

// The pixel after the last of some that is shown, or the first where none is.
fn end_of_shown(pixels: &Pixels, marks: Option<&[bool]>, low: usize, high: usize) -> usize
    requires one_each { IfSome marks (λ marks. length marks.now ≡ length pixels.now) }
    requires order { low ≤ high }
    requires inside { high ≤ length pixels.now }
    ensures low { low ≤ result }
    ensures high { result ≤ high }
    ensures none_behind { HasGap (shown_values pixels.now marks.entry)
        result high }
{
    let mut end = high;
    while low < end && shown(pixels, marks, end - 1).value().is_none() {
        end -= 1;
    }
    end
}

// A pixel as it is shown: an undefined one where it isn't marked.
#[inline(always)]
fn shown(pixels: &Pixels, marks: Option<&[bool]>, p: usize) -> Pixel
    requires one_each { IfSome marks (λ marks. length marks.now ≡ length pixels.now) }
    requires inside { p < length pixels.now }
    ensures { result
        ≡ value_at (shown_values pixels.now marks.entry) p }
{
    match marks {
        None => pixels.pixel(p),
        Some(marks) => pixel_if(pixels, marks, p),
    }
}

// The pixel if it is marked, and else an undefined one.
#[inline(always)]
fn pixel_if(pixels: &Pixels, marks: &[bool], p: usize) -> Pixel
    requires one_each { length marks.now ≡ length pixels.now }
    requires inside { p < length pixels.now }
    ensures { result ≡ cond (slice_index_or marks.now p false) (value_at pixels.now p) None }
{
    if marks[p] {
        pixels.pixel(p)
    } else {
        Pixel::of(None)
    }
}
