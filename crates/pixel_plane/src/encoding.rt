//! How an image keeps the values of its pixels as bytes.
ghost use Rattle.std.specs.Prelude.{◌≡◌, ◌≢◌, ◌≤◌, ◌==◌, ◌&&◌, not, true, length, IsTrue, None, Some, IfSome, IfOk, MatchResult, ◌+ℤ◌, ◌≤ℤ◌, pos, neg_ℤ, ◌^◌};
ghost use Rattle.pixel_plane.specs.Images.{image_fault};
ghost use Rattle.pixel_plane.specs.WithinLimits.{IsInRange};
ghost use Rattle.comp_tree.specs.Limits.{IsWithin};
ghost use Rattle.pixel_plane.specs.Sizes.{is_number_size, IsFarNumber};
ghost use Rattle.pixel_plane.specs.Nearness.{IsNumberOf, leaves_out_least, limits_most, numbers_most, most_of};
ghost use Rattle.pixel_plane.specs.Stored.{size_of, stored_number, value_stored_as, is_out_of_range, holds_narrow, value_limits, whole_or_zero, blank_of};

use crate::Limits;
use byteorder::{BigEndian, ByteOrder};
use comp_tree::{Pixel, Shape};
use fits_card::number::Whole;
use fits_hdu::Hdu;

// The values of all numbers of fewer than 64 bits are nearer to 0 than this, whatever BZERO is accepted.
const MOST_NARROW: i64 = 1 << 33;

// The least number of 32 bits.
const LEAST_OF_32: i64 = -(1 << 31);

/// The size of the stored numbers in bytes, what is added to each, the number that stands for an undefined pixel, and the limits of the values.
#[derive(Clone, Copy)]
pub(crate) struct Encoding {
    pub(crate) size: usize,
    pub(crate) zero: i64,
    pub(crate) blank: Option<i64>,
    pub(crate) limits: Limits,
    pub(crate) ghost sizes: { IsTrue (is_number_size size) },
    pub(crate) ghost low: { neg_ℤ (pos (2 ^ 32)) ≤ℤ zero },
    pub(crate) ghost high: { zero ≤ℤ pos (2 ^ 32) },
}

impl Encoding {
    /// The encoding of an image of this shape that can be read.
    pub(crate) fn of(hdu: &Hdu, shape: Shape, limits: &Limits) -> Encoding
        requires { image_fault limits.now hdu.now ≡ None }
        ensures size { result.size ≡ size_of hdu.now }
        ensures zero { result.zero ≡ whole_or_zero hdu.now.bzero }
        ensures blank { result.blank ≡ blank_of hdu.now.blank }
        ensures limits { result.limits ≡ value_limits limits.now shape }
    {
        Encoding {
            size: hdu.bitpix.unsigned_abs() as usize / 8,
            zero: whole_or_zero(hdu.bzero),
            blank: blank_of(hdu.blank),
            limits: limits.narrowed(shape.pixels()),
        }
    }

    /// Whether no value can be out of range: each number has at most four bytes, and the limits hold the values of all such.
    pub(crate) fn is_never_far(&self) -> bool
        ensures { result ≡ (not (self.now.size == 8) && holds_narrow self.now.limits) }
    {
        self.size != 8 && self.limits.least <= -MOST_NARROW && MOST_NARROW <= self.limits.greatest
    }

    /// A bound of the values: none that a number stands for and that is in the limits is below `-most` or above it.
    #[tactic(auto, unfolding(crate::specs::Nearness::most_of))]
    pub(crate) fn most(&self) -> u64
        ensures { result ≡ most_of self.now.size self.now.zero self.now.blank self.now.limits }
    {
        self.numbers_most().min(self.limits_most())
    }

    // That of the numbers, whatever the limits are. With eight bytes it is the one of all limits.
    #[tactic(auto, unfolding(crate::specs::Nearness::numbers_most))]
    fn numbers_most(&self) -> u64
        ensures { result ≡ numbers_most self.now.size self.now.zero self.now.blank }
    {
        if self.size == 8 {
            return 1 << 36;
        }
        if self.size != 4 {
            return self.zero.unsigned_abs() + (1 << 15);
        }
        if self.leaves_out_least() {
            return (1 << 31) - 1;
        }
        1 << 33
    }

    // Whether the least number of 32 bits has no value, and the others are values as they are: all these are below 2^31 on either side
    // of 0.
    fn leaves_out_least(&self) -> bool
        ensures { result ≡ leaves_out_least self.now.zero self.now.blank }
    {
        self.zero == 0 && self.blank == Some(LEAST_OF_32)
    }

    // That of the limits, whatever the numbers are.
    fn limits_most(&self) -> u64
        ensures { result ≡ limits_most self.now.limits }
    {
        let farthest = self.limits.greatest.max(-self.limits.least).max(0);
        farthest.unsigned_abs()
    }

    /// The pixel that a number of this size stands for, where it is never out of range.
    #[inline(always)]
    pub(crate) fn pixel_of(&self, stored: i64) -> Pixel
        requires of_size { IsNumberOf self.now.size stored }
        requires low { neg_ℤ (pos (2 ^ 32)) ≤ℤ stored }
        requires high { stored ≤ℤ pos (2 ^ 32) }
        requires holds { holds_narrow self.now.limits ≡ true }
        ensures value { result ≡ value_stored_as self.now.zero self.now.blank stored }
        ensures within { IfSome result (λ v. IsInRange self.now.limits v) }
        ensures near { IfSome result (λ v. IsWithin
            (most_of self.now.size self.now.zero self.now.blank self.now.limits) v) }
    {
        if self.blank == Some(stored) {
            Pixel::of(None)
        } else {
            Pixel::of(Some(self.zero + stored))
        }
    }

    // The first number of these bytes.
    fn stored(&self, bytes: &[u8]) -> i64
        requires room { self.now.size ≤ length bytes.now }
        ensures number { result ≡ stored_number self.now.size bytes.now }
        ensures of_size { IsNumberOf self.now.size result }
    {
        match self.size {
            1 => i64::from(bytes[0]),
            2 => i64::from(BigEndian::read_i16(bytes)),
            4 => i64::from(BigEndian::read_i32(bytes)),
            _ => BigEndian::read_i64(bytes),
        }
    }

    /// The value that the first number of these bytes stands for, or the number itself if that value is out of range.
    pub(crate) fn compared_value(&self, bytes: &[u8]) -> Result<Option<i64>, i64>
        requires room { self.now.size ≤ length bytes.now }
        ensures value { MatchResult result
            (λ value. value ≡ value_stored_as self.now.zero self.now.blank
            (stored_number self.now.size bytes.now))
            (λ stored. IsFarNumber self.now.limits self.now.zero self.now.blank stored
            (stored_number self.now.size bytes.now)) }
        ensures within { IfOk result (λ value. IfSome value (λ v. IsInRange self.now.limits v)) }
        ensures near { IfOk result (λ value. IfSome value (λ v. IsWithin
            (most_of self.now.size self.now.zero self.now.blank self.now.limits) v)) }
    {
        let stored = self.stored(bytes);
        if self.blank == Some(stored) {
            return Ok(None);
        }
        if self.is_far(stored) {
            return Err(stored);
        }
        Ok(Some(self.zero + stored))
    }

    // Whether the value that this number stands for is out of range. The number is compared, since the sum could pass the type's bounds.
    fn is_far(&self, stored: i64) -> bool
        ensures { result ≡ is_out_of_range self.now.limits (Some (self.now.zero +ℤ stored)) }
    {
        stored < self.limits.least - self.zero || self.limits.greatest - self.zero < stored
    }
}

fn whole_or_zero(number: Whole) -> i64
    ensures { result ≡ whole_or_zero number }
{
    match number {
        Whole::Is(n) => n,
        _ => 0,
    }
}

fn blank_of(blank: Option<Whole>) -> Option<i64>
    ensures { result ≡ blank_of blank }
{
    match blank {
        Some(Whole::Is(n)) => Some(n),
        _ => None,
    }
}
