//! How pixels are kept one after the other: each in eight bytes, or in four where all values are small.

ghost use Rattle.std.specs.Prelude.{◌≡◌, ◌+◌, ◌^◌, ◌<◌, ◌≤◌, ℕ, true, false, None, replicate, slice_set, length, min, take, drop, IfOk, OnOk, OnErr, IfSome};
ghost use Rattle.std.specs.Fork.{AcceptsAt, ChangesAt, AcceptsChunksMut, AllInChunks};
ghost use Rattle.comp_tree.specs.Bands.{LeavesWithin};
ghost use Rattle.comp_tree.specs.ShortBands.{LeavesBandWithin, IsBandChanged};
ghost use Rattle.comp_tree.specs.Limits.{IsWithin};
ghost use Rattle.comp_tree.specs.Numbers.{most_short};
ghost use Rattle.comp_tree.specs.Raster.{at_least, value_at, HasValuesWithin};
ghost use Rattle.std.specs.List.{list_any, range_with_len};
ghost use Rattle.comp_tree.specs.Kept.{kept_items, room_of};

use crate::pixel::{Pixel, ShortPixel};
use costs::OutOfMemory;
use std::alloc::Global;

// Values below this one, and above its negative, are kept in four bytes.
pub(crate) const SHORT_END: u64 = 1 << 31;

#[derive(Drop)]
pub enum Kept {
    Wide(Vec<Pixel>),
    Short(Vec<ShortPixel>),
}

impl Kept {
    // So many undefined pixels, with room for values from `-most` to `most`.
    pub(crate) fn blank(alloc: Global, count: usize, most: u64) -> Result<Kept, OutOfMemory>
        requires { most ≤ 2 ^ 37 }
        ensures items { IfOk result (λ kept. kept_items kept ≡ replicate count None) }
        ensures room { IfOk result (λ kept. most ≤ room_of kept) }
    {
        if most < SHORT_END {
            let pixels = vec![in alloc; ShortPixel::of(None); count]?;
            return Ok(Kept::Short(pixels));
        }
        let pixels = vec![in alloc; Pixel::of(None); count]?;
        Ok(Kept::Wide(pixels))
    }

    pub(crate) fn len(&self) -> usize
        ensures { result ≡ length (kept_items self.now) }
    {
        match self {
            Kept::Wide(pixels) => pixels.len(),
            Kept::Short(pixels) => pixels.len(),
        }
    }

    // The pixel at this place.
    #[inline(always)]
    pub(crate) fn pixel(&self, place: usize) -> Pixel
        requires { place < length (kept_items self.now) }
        ensures { result ≡ value_at (kept_items self.now) place }
    {
        match self {
            Kept::Wide(pixels) => pixels[place],
            Kept::Short(pixels) => pixels[place].wide(),
        }
    }

    // Its value, where it is defined.
    #[inline(always)]
    pub(crate) fn get(&self, place: usize) -> Option<i64>
        requires { place < length (kept_items self.now) }
        ensures { result ≡ value_at (kept_items self.now) place }
    {
        match self {
            Kept::Wide(pixels) => pixels[place].value(),
            Kept::Short(pixels) => pixels[place].value(),
        }
    }

    // Gives a pixel a value, or none.
    #[inline(always)]
    pub(crate) fn set(&mut self, place: usize, value: Option<i64>)
        requires inside { place < length (kept_items self.old) }
        requires room { IfSome value (λ v. IsWithin (room_of self.old) v) }
        ensures items { kept_items self.new ≡ slice_set (kept_items self.old) place value }
        ensures room { room_of self.new ≡ room_of self.old }
    {
        match self {
            Kept::Wide(pixels) => pixels[place] = Pixel::of(value),
            Kept::Short(pixels) => pixels[place] = ShortPixel::of(value),
        }
    }

    // Copies the pixels from `first` on into `run`, as many as it has.
    pub(crate) fn copy_run(&self, first: usize, run: &mut [Pixel])
        requires inside { first + length run.old ≤ length (kept_items self.now) }
        ensures one_each { length run.new ≡ length run.old }
        ensures same { (k : ℕ) → k < length run.old → value_at run.new k ≡ value_at (kept_items self.now) (first + k) }
    {
        match self {
            Kept::Wide(pixels) => copy_wide(pixels, first, run),
            Kept::Short(pixels) => widen(pixels, first, run),
        }
    }

    // Gives the pixels from `first` on the values of `run`.
    pub(crate) fn put_run(&mut self, first: usize, run: &[Pixel])
        requires inside { first + length run.now ≤ length (kept_items self.old) }
        requires room { HasValuesWithin (room_of self.old) run.now }
        ensures room { room_of self.new ≡ room_of self.old }
        ensures one_each { length (kept_items self.new) ≡ length (kept_items self.old) }
        ensures inside { (k : ℕ) → k < length run.now → value_at (kept_items self.new) (first + k) ≡ value_at run.now k }
        ensures before { (p : ℕ) → p < first → value_at (kept_items self.new) p ≡ value_at (kept_items self.old) p }
        ensures behind { (p : ℕ) → first + length run.now ≤ p
            → value_at (kept_items self.new) p ≡ value_at (kept_items self.old) p }
    {
        match self {
            Kept::Wide(pixels) => put_wide(run, pixels, first),
            Kept::Short(pixels) => shorten(run, pixels, first),
        }
    }

    // Whether one of so many pixels from `first` on is defined and has at least this value.
    pub(crate) fn any_at_least(&self, bound: i64, first: usize, count: usize) -> bool
        requires inside { first + count ≤ length (kept_items self.now) }
        ensures { result ≡ list_any (λ p. at_least bound (value_at (kept_items self.now) p)) (range_with_len first count) }
    {
        match self {
            Kept::Wide(pixels) => any_wide(pixels, bound, first, count),
            Kept::Short(pixels) => any_short(pixels, bound, first, count),
        }
    }

    // How far from 0 a value lies at the most, or 0 where no pixel is defined.
    pub(crate) fn farthest(&self) -> u64
        ensures within { HasValuesWithin result (kept_items self.now) }
        ensures least { (most : ℕ) → HasValuesWithin most (kept_items self.now) → result ≤ most }
    {
        match self {
            Kept::Wide(pixels) => farthest_wide(pixels),
            Kept::Short(pixels) => farthest_short(pixels),
        }
    }

    // The same pixels a second time.
    pub(crate) fn copied(&self, alloc: Global) -> Result<Kept, OutOfMemory>
        ensures { IfOk result (λ copy. kept_items copy ≡ kept_items self.now) }
    {
        match self {
            Kept::Wide(pixels) => Ok(Kept::Wide(copy_of(alloc, pixels)?)),
            Kept::Short(pixels) => Ok(Kept::Short(copy_of(alloc, pixels)?)),
        }
    }

    // Changes short pixels in bands of `size`, as a plane's `change_bands` does, one after the other. Wide ones stay, and it tells so.
    pub(crate) fn change_if_short<F: Fn(usize, &mut [Pixel])>(
        &mut self,
        alloc: Global,
        size: usize,
        change: &F,
    ) -> Result<bool, OutOfMemory>
        requires some { 0 < size }
        requires accepts { AcceptsChunksMut F.Fn change.now size (kept_items self.old) }
        requires within { LeavesWithin most_short F.Fn change.now size (kept_items self.old) }
        ensures one_each { length (kept_items self.new) ≡ length (kept_items self.old) }
        ensures changed { IfOk result (λ short. short ≡ true
            → AllInChunks F.Fn change.now size (kept_items self.old) (kept_items self.new)) }
        ensures wide { IfOk result (λ short. short ≡ false → self.new ≡ self.old) }
        ensures unchanged { OnErr result (kept_items self.new ≡ kept_items self.old) }
    {
        match self {
            Kept::Wide(_) => Ok(false),
            Kept::Short(pixels) => match change_short_bands(alloc, pixels, size, change) {
                Ok(()) => Ok(true),
                Err(refused) => Err(refused),
            },
        }
    }
}

// The same items a second time.
pub(crate) fn copy_of<T: Copy>(alloc: Global, items: &[T]) -> Result<Vec<T>, OutOfMemory>
    ensures { IfOk result (λ copy. copy.items ≡ items.now) }
{
    let mut copy = Vec::with_capacity(alloc, items.len())?;
    copy.extend_from_slice(items)?;
    Ok(copy)
}

// Changes short pixels in bands, each of which is made wide for that, one after the other. All memory is taken before the first one.
fn change_short_bands<F: Fn(usize, &mut [Pixel])>(
    alloc: Global,
    pixels: &mut [ShortPixel],
    size: usize,
    change: &F,
) -> Result<(), OutOfMemory>
    requires some { 0 < size }
    requires accepts { AcceptsChunksMut F.Fn change.now size pixels.old }
    requires within { LeavesWithin most_short F.Fn change.now size pixels.old }
    ensures one_each { length pixels.new ≡ length pixels.old }
    ensures changed { OnOk result (AllInChunks F.Fn change.now size pixels.old pixels.new) }
    ensures unchanged { OnErr result (pixels.new ≡ pixels.old) }
{
    let mut band = vec![in alloc; Pixel::of(None); size.min(pixels.len())]?;
    change_in_turn(pixels, &mut band, size, change);
    Ok(())
}

// The same in a band that was made before, which is overwritten.
fn change_in_turn<F: Fn(usize, &mut [Pixel])>(
    pixels: &mut [ShortPixel],
    band: &mut [Pixel],
    size: usize,
    change: &F,
)
    requires some { 0 < size }
    requires room { length band.old ≡ min size (length pixels.old) }
    requires accepts { AcceptsChunksMut F.Fn change.now size pixels.old }
    requires within { LeavesWithin most_short F.Fn change.now size pixels.old }
    ensures one_each { length pixels.new ≡ length pixels.old }
    ensures changed { AllInChunks F.Fn change.now size pixels.old pixels.new }
{
    let count = pixels.len();
    for n in 0..count.div_ceil(size) {
        let start = n * size;
        let length = size.min(count - start);
        change_short_band(pixels, start, &mut band[..length], change);
    }
}

// Changes the short pixels from `start` on, as many as the band has, which is overwritten.
fn change_short_band<F: Fn(usize, &mut [Pixel])>(
    pixels: &mut [ShortPixel],
    start: usize,
    band: &mut [Pixel],
    change: &F,
)
    requires inside { start + length band.old ≤ length pixels.old }
    requires accepts { AcceptsAt F.Fn change.now start (take (length band.old) (drop start pixels.old)) }
    requires within { LeavesBandWithin F.Fn change.now start (length band.old) most_short pixels.old }
    ensures { IsBandChanged F.Fn change.now start (length band.old) pixels.old pixels.new }
{
    widen(pixels, start, band);
    change_at(start, band, change);
    shorten(band, pixels, start);
}

// Calls `change` with a band that begins at `start`.
fn change_at<F: Fn(usize, &mut [Pixel])>(start: usize, band: &mut [Pixel], change: &F)
    requires { AcceptsAt F.Fn change.now start band.old }
    ensures one_each { length band.new ≡ length band.old }
    ensures changes { ChangesAt F.Fn change.now start band.old band.new }
{
    change(start, band);
}

// Fills the band with the pixels from `start` on.
fn widen(pixels: &[ShortPixel], start: usize, band: &mut [Pixel])
    requires inside { start + length band.old ≤ length pixels.now }
    ensures one_each { length band.new ≡ length band.old }
    ensures same { (k : ℕ) → k < length band.old → value_at band.new k ≡ value_at pixels.now (start + k) }
{
    for k in 0..band.len() {
        band[k] = pixels[start + k].wide();
    }
}

// Puts the pixels of the band where those from `start` on are.
fn shorten(band: &[Pixel], pixels: &mut [ShortPixel], start: usize)
    requires inside { start + length band.now ≤ length pixels.old }
    requires within { HasValuesWithin most_short band.now }
    ensures one_each { length pixels.new ≡ length pixels.old }
    ensures inside { (k : ℕ) → k < length band.now → value_at pixels.new (start + k) ≡ value_at band.now k }
    ensures before { (p : ℕ) → p < start → value_at pixels.new p ≡ value_at pixels.old p }
    ensures behind { (p : ℕ) → start + length band.now ≤ p → value_at pixels.new p ≡ value_at pixels.old p }
{
    for k in 0..band.len() {
        pixels[start + k] = ShortPixel::of(band[k].value());
    }
}

// Fills the band with the pixels from `start` on, which are wide already.
fn copy_wide(pixels: &[Pixel], start: usize, band: &mut [Pixel])
    requires inside { start + length band.old ≤ length pixels.now }
    ensures one_each { length band.new ≡ length band.old }
    ensures same { (k : ℕ) → k < length band.old → value_at band.new k ≡ value_at pixels.now (start + k) }
{
    for k in 0..band.len() {
        band[k] = pixels[start + k];
    }
}

// Puts the pixels of the band where those from `start` on are, which are wide too.
fn put_wide(band: &[Pixel], pixels: &mut [Pixel], start: usize)
    requires inside { start + length band.now ≤ length pixels.old }
    ensures one_each { length pixels.new ≡ length pixels.old }
    ensures inside { (k : ℕ) → k < length band.now → value_at pixels.new (start + k) ≡ value_at band.now k }
    ensures before { (p : ℕ) → p < start → value_at pixels.new p ≡ value_at pixels.old p }
    ensures behind { (p : ℕ) → start + length band.now ≤ p → value_at pixels.new p ≡ value_at pixels.old p }
{
    for k in 0..band.len() {
        pixels[start + k] = band[k];
    }
}

// Whether one of so many wide pixels from `start` on has at least this value. It looks at all of them: with no way out of the loop
// several are compared at once.
fn any_wide(pixels: &[Pixel], bound: i64, start: usize, count: usize) -> bool
    requires inside { start + count ≤ length pixels.now }
    ensures { result ≡ list_any (λ p. at_least bound (value_at pixels.now p)) (range_with_len start count) }
{
    let mut any = false;
    for k in 0..count {
        any |= pixels[start + k].is_at_least(bound);
    }
    any
}

// The same of short pixels.
fn any_short(pixels: &[ShortPixel], bound: i64, start: usize, count: usize) -> bool
    requires inside { start + count ≤ length pixels.now }
    ensures { result ≡ list_any (λ p. at_least bound (value_at pixels.now p)) (range_with_len start count) }
{
    let mut any = false;
    for k in 0..count {
        any |= pixels[start + k].is_at_least(bound);
    }
    any
}

// How far from 0 a value of wide pixels lies at the most.
fn farthest_wide(pixels: &[Pixel]) -> u64
    ensures within { HasValuesWithin result pixels.now }
    ensures least { (most : ℕ) → HasValuesWithin most pixels.now → result ≤ most }
{
    let mut distance: u64 = 0;
    for k in 0..pixels.len() {
        distance = distance.max(pixels[k].distance());
    }
    distance
}

// The same of short pixels.
fn farthest_short(pixels: &[ShortPixel]) -> u64
    ensures within { HasValuesWithin result pixels.now }
    ensures least { (most : ℕ) → HasValuesWithin most pixels.now → result ≤ most }
{
    let mut distance: u32 = 0;
    for k in 0..pixels.len() {
        distance = distance.max(pixels[k].distance());
    }
    u64::from(distance)
}
