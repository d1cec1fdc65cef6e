//! Planes: images of whole numbers with undefined pixels.

ghost use Rattle.std.specs.Prelude.{◌≡◌, ℕ, ◌+◌, ◌-◌, ◌*◌, ◌^◌, ◌<◌, ◌≤◌, true, None, length, is_some, slice_set, IfOk, IfSome, OnOk, OnErr, IsTrue};
ghost use Rattle.std.specs.List.{list_all, list_any, range_with_len};
ghost use Rattle.std.specs.Fork.{AcceptsChunksMut, AllInChunks};
ghost use Rattle.comp_tree.specs.Bands.{LeavesWithin};
ghost use Rattle.comp_tree.specs.Limits.{IsWithin, IsWithinRange, value_bound};
ghost use Rattle.comp_tree.specs.Kept.{kept_items};
ghost use Rattle.comp_tree.specs.Raster.{is_pixel_value as may_stand, raster_of};
ghost use Rattle.comp_tree.specs.Raster.{HasValuesInRange, HasValuesWithin, HasGap, value_at, is_defined, level, is_at_least, is_earlier, without_unmarked};

use crate::kept::Kept;
use crate::pixel::Pixel;
use crate::pixels::Pixels;
use crate::shape::Shape;
use costs::OutOfMemory;
use std::alloc::Global;
use std::marker::Model;
use std::thread::Threads;

/// An image of whole numbers from -2^37 to 2^37 (from -2^30 to 2^30, where it has more than 2^24 pixels), in which a pixel may be undefined.
///
/// Pixel `y * width + x` stands in column `x` of row `y`, both from 0.
#[derive(Drop)]
pub struct Plane {
    shape: Shape,
    // no value is below `-most` or above `most`
    most: u64,
    pixels: Pixels,
}

impl Model for Plane {
    ghost use Rattle.std.specs.Prelude.{◌≡◌, ◌*◌, ◌≤◌, length};
    ghost use Rattle.comp_tree.specs.Limits.{value_bound};
    ghost use Rattle.comp_tree.specs.Raster.{Raster, HasValuesWithin};

    ghost Value = { Raster };

    ghost view = { λ plane. record { shape = plane.shape; values = plane.pixels } };

    ghost invariant = { λ plane. (length plane.pixels ≡ plane.shape.width * plane.shape.height)
        × HasValuesWithin plane.most plane.pixels × (plane.most ≤ value_bound (length plane.pixels)) };
}

impl Plane {
    // The plane of these pixels, row by row, whose values are from `-most` to `most`.
    pub(crate) fn of_pixels(shape: Shape, most: u64, pixels: Kept) -> Plane
        requires one_each { length (kept_items pixels) ≡ shape.width * shape.height }
        requires within { HasValuesWithin most (kept_items pixels) }
        requires bounded { most ≤ value_bound (length (kept_items pixels)) }
        ensures { result ≡ record { shape = shape; values = kept_items pixels } }
    {
        Plane {
            shape,
            most,
            pixels: Pixels::of(pixels),
        }
    }

    /// The plane of these values, row by row. There is none where there isn't one value for each pixel, or where one lies
    /// outside the range.
    pub fn of(
        alloc: Global,
        shape: Shape,
        values: &[Option<i64>],
    ) -> Result<Option<Plane>, OutOfMemory>
        ensures { IfOk result (λ plane. plane ≡ raster_of shape values.now) }
    {
        if values.len() != shape.pixels() as usize {
            return Ok(None);
        }
        match pixels_of(alloc, values)? {
            Some(pixels) => Ok(Some(Plane::of_pixels(
                shape,
                bound_of(values.len()),
                Kept::Wide(pixels),
            ))),
            None => Ok(None),
        }
    }

    /// A second plane with the same pixels. The one error is that memory was refused.
    pub fn copied(&self, alloc: Global) -> Result<Plane, OutOfMemory>
        ensures { IfOk result (λ copy. copy ≡ self.now) }
    {
        let pixels = self.pixels.copied(alloc)?;
        Ok(Plane {
            shape: self.shape,
            most: self.most,
            pixels,
        })
    }

    /// The width and the height. They never change.
    pub fn shape(&self) -> Shape
        ensures same { result ≡ self.now.shape }
        ensures pixels { length self.now.values ≡ result.width * result.height }
        ensures in_range { HasValuesInRange self.now.values }
    {
        self.shape
    }

    /// A bound of its values: none is below `-most` or above it. A value may be nearer to 0 than any bound that it tells.
    pub fn most(&self) -> u64
        ensures within { HasValuesWithin result self.now.values }
        ensures bounded { result ≤ value_bound (length self.now.values) }
    {
        self.most
    }

    /// The value of a pixel, where it is defined.
    #[inline(always)]
    pub fn get(&self, p: u32) -> Option<i64>
        requires { p < length self.now.values }
        ensures value { result ≡ value_at self.now.values p }
        ensures in_range { IfSome result (λ v. IsWithinRange v) }
        ensures bounded { IfSome result (λ v. IsWithin (value_bound (length self.now.values)) v) }
    {
        self.pixels.get(p as usize)
    }

    /// Copies the pixels from `first` on into `run`, as many as it has.
    pub fn copy_pixels(&self, first: u32, run: &mut [Pixel])
        requires inside { first + length run.old ≤ length self.now.values }
        ensures one_each { length run.new ≡ length run.old }
        ensures same { (k : ℕ) → k < length run.old → value_at run.new k ≡ value_at self.now.values (first + k) }
    {
        self.pixels.copy_run(first as usize, run);
    }

    /// Whether one of the pixels from `first` up to `end` belongs to the threshold set of this level. It is quicker than a look at each.
    pub fn any_at_least(&self, bound: i64, first: u32, end: u32) -> bool
        requires order { first ≤ end }
        requires inside { end ≤ length self.now.values }
        ensures { result ≡ list_any (is_at_least self.now bound) (range_with_len first (end - first)) }
    {
        let count = end - first;
        self.pixels
            .any_at_least(bound, first as usize, count as usize)
    }

    /// How far from 0 a value lies at the most, or 0 where no pixel is defined.
    pub fn farthest(&self) -> u64
        ensures within { HasValuesWithin result self.now.values }
        ensures least { (most : ℕ) → HasValuesWithin most self.now.values → result ≤ most }
        ensures bounded { result ≤ value_bound (length self.now.values) }
    {
        self.pixels.farthest()
    }

    /// The first defined pixel from `first` up to `end`, or `end` if there is none. With many undefined pixels it is quicker
    /// than a look at each.
    #[inline(always)]
    pub fn next_defined(&self, first: u32, end: u32) -> u32
        requires order { first ≤ end }
        requires inside { end ≤ length self.now.values }
        ensures low { first ≤ result }
        ensures high { result ≤ end }
        ensures gap { HasGap self.now.values first result }
        ensures defined { result < end → IsTrue (is_defined self.now result) }
    {
        let mut p = first;
        while p < end && self.get(p).is_none() {
            p = self.pixels.behind(p as usize).min(end as usize) as u32;
        }
        p
    }

    /// Whether a pixel has a value.
    pub fn is_defined(&self, p: u32) -> bool
        requires { p < length self.now.values }
        ensures { result ≡ is_defined self.now p }
    {
        self.get(p).is_some()
    }

    /// The value of a defined pixel, and 0 for an undefined one.
    #[tactic(auto, unfolding(crate::specs::Raster::level))]
    pub fn level(&self, p: u32) -> i64
        requires { p < length self.now.values }
        ensures { result ≡ level self.now p }
    {
        self.get(p).unwrap_or(0)
    }

    /// Whether a pixel belongs to the threshold set of this level: it is defined and has at least this value.
    pub fn is_at_least(&self, bound: i64, p: u32) -> bool
        requires { p < length self.now.values }
        ensures { result ≡ is_at_least self.now bound p }
    {
        match self.get(p) {
            Some(value) => bound <= value,
            None => false,
        }
    }

    /// Whether both pixels are defined, and `p` comes before `q` in the order by value and, at equal values, by number.
    /// The links of a forest follow this order, which makes one pixel of a plateau stand for all of it.
    pub fn is_earlier(&self, p: u32, q: u32) -> bool
        requires first { p < length self.now.values }
        requires second { q < length self.now.values }
        ensures { result ≡ is_earlier self.now p q }
    {
        match (self.get(p), self.get(q)) {
            (Some(v), Some(w)) => v < w || (v <= w && p < q),
            _ => false,
        }
    }

    /// Makes a pixel undefined. On a `Canvas` an undefined pixel can get a value too.
    pub fn clear(&mut self, p: u32)
        requires { p < length self.old.values }
        ensures { self.new ≡ record self.old { values = slice_set self.old.values p None } }
    {
        self.pixels.clear(p as usize);
    }

    /// A second plane, in which the pixels that aren't marked are undefined. Where few are left it takes little memory. The one error is
    /// that memory was refused.
    pub fn marked(&self, alloc: Global, marks: &[bool]) -> Result<Plane, OutOfMemory>
        requires one_each { length marks.now ≡ length self.now.values }
        ensures { IfOk result (λ plane. plane ≡ without_unmarked self.now marks.now) }
    {
        // for its clauses alone: how many pixels there are
        let _count = self.shape.pixels();
        if let Some(pixels) = self.pixels.in_blocks(alloc, Some(marks))? {
            return Ok(Plane {
                shape: self.shape,
                most: self.most,
                pixels,
            });
        }
        let mut copy = self.copied(alloc)?;
        copy.clear_unmarked(marks);
        Ok(copy)
    }

    fn clear_unmarked(&mut self, marks: &[bool])
        requires { length marks.now ≡ length self.old.values }
        ensures { self.new ≡ without_unmarked self.old marks.now }
    {
        let count = self.shape().pixels();
        for p in 0..count {
            if !marks[p as usize] {
                self.clear(p);
            }
        }
    }

    /// Changes the pixels in bands of `size`, each in a thread of its own where one can be made. `change` is called with the
    /// number of a band's first pixel, and the band. The last band may have fewer pixels.
    ///
    /// What `change` leaves is from `-most` to `most`. The one error is that memory was refused; the plane is as it was then.
    pub fn change_bands<R: Threads + Sync, F: Fn(usize, &mut [Pixel]) + Sync>(
        &mut self,
        rt: &R,
        alloc: Global,
        size: u32,
        most: u64,
        change: &F,
    ) -> Result<(), OutOfMemory>
        requires some { 0 < size }
        requires accepts { AcceptsChunksMut F.Fn change.now size self.old.values }
        requires within { LeavesWithin most F.Fn change.now size self.old.values }
        requires bounded { most ≤ value_bound (length self.old.values) }
        ensures shape { self.new.shape ≡ self.old.shape }
        ensures one_each { length self.new.values ≡ length self.old.values }
        ensures changed { OnOk result
            (AllInChunks F.Fn change.now size self.old.values self.new.values) }
        ensures unchanged { OnErr result (self.new ≡ self.old) }
    {
        match self
            .pixels
            .change_bands(rt, alloc, size as usize, most, change)
        {
            Ok(()) => self.most = most,
            Err(refused) => return Err(refused),
        }
        Ok(())
    }

    /// Keeps the pixels in less memory, where few of them are defined. For a moment it takes more.
    ///
    /// The one error is that memory was refused.
    pub fn compact(&mut self, alloc: Global) -> Result<(), OutOfMemory>
        ensures { self.new ≡ self.old }
    {
        // for its clauses alone: how many pixels there are
        let _count = self.shape.pixels();
        if let Some(pixels) = self.pixels.in_blocks(alloc, None)? {
            self.pixels.replace_by(pixels);
        }
        Ok(())
    }
}

// The pixels with these values, if they may have them.
fn pixels_of(alloc: Global, values: &[Option<i64>]) -> Result<Option<Vec<Pixel>>, OutOfMemory>
    ensures there { IfOk result
        (λ pixels. is_some pixels ≡ list_all (may_stand (value_bound (length values.now))) values.now) }
    ensures same { IfOk result (λ pixels. IfSome pixels (λ v. v.items ≡ values.now)) }
{
    let bound = bound_of(values.len());
    let mut pixels = Vec::with_capacity(alloc, values.len())?;
    for value in values {
        if !is_pixel_value(bound, *value) {
            return Ok(None);
        }
        pixels.push(Pixel::of(*value))?;
    }
    Ok(Some(pixels))
}

// Whether a pixel may have this value, or none.
fn is_pixel_value(bound: u64, value: Option<i64>) -> bool
    requires { bound ≤ 2 ^ 37 }
    ensures test { result ≡ may_stand bound value }
    ensures in_range { result ≡ true → IfSome value (λ v. IsWithinRange v) }
{
    let most = bound as i64;
    match value {
        Some(v) => -most <= v && v <= most,
        None => true,
    }
}

// The bound of the values of a plane with so many pixels.
#[tactic(auto, unfolding(crate::specs::Limits::value_bound))]
pub(crate) fn bound_of(count: usize) -> u64
    ensures is { result ≡ value_bound count }
    ensures most { result ≤ 2 ^ 37 }
{
    if count <= 1 << 24 { 1 << 37 } else { 1 << 30 }
}
