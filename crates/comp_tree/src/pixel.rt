//! A pixel as a plane keeps it.

ghost use Rattle.std.specs.Prelude.{◌≡◌, ℕ, ◌≤◌, IfSome};
ghost use Rattle.comp_tree.specs.Raster.{at_least};
ghost use Rattle.comp_tree.specs.Limits.{IsWithin, IsWithinRange};
ghost use Rattle.comp_tree.specs.Numbers.{most_short};

use std::marker::Model;

// Stands for an undefined pixel. No value is so small, so a pixel takes 8 bytes: an `Option<i64>` would take 16, and
// reading pixels is most of what flooding does.
const UNDEFINED: i64 = i64::MIN;

// Stands for one among short pixels.
const UNDEFINED_SHORT: i32 = i32::MIN;

/// A pixel as a plane keeps it: its value, or none where it is undefined. It takes eight bytes.
#[derive(Clone, Copy)]
pub struct Pixel {
    // the value, or `UNDEFINED`
    number: i64,
}

impl Model for Pixel {
    ghost use Rattle.std.specs.Prelude.{Option, ℤ};
    ghost use Rattle.comp_tree.specs.Limits.{undefined_number};
    ghost use Rattle.comp_tree.specs.Numbers.{pixel_of, kept_number, kept_number-same};

    ghost Value = { Option ℤ };

    ghost view = { λ pixel. pixel_of undefined_number pixel.number };

    ghost inverse = { λ value. record { number = kept_number undefined_number value } };

    ghost use Rattle.std.proofs.Common.{ap};

    ghost inverse_ok = { λ pixel _. ap (λ number. record { number = number }) (kept_number-same undefined_number pixel.number) };
}

impl Pixel {
    /// The pixel with this value, or without one.
    #[inline(always)]
    pub fn of(value: Option<i64>) -> Pixel
        requires { IfSome value (λ v. IsWithinRange v) }
        ensures { result ≡ value }
    {
        match value {
            Some(number) => Pixel { number },
            None => Pixel { number: UNDEFINED },
        }
    }

    /// Its value, if it is defined.
    #[inline(always)]
    #[tactic(auto, unfolding(crate::specs::Numbers::pixel_of))]
    pub fn value(self) -> Option<i64>
        ensures { result ≡ self }
    {
        if self.number == UNDEFINED {
            return None;
        }
        Some(self.number)
    }
}

impl Pixel {
    // Whether it is defined and has at least this value: two comparisons and no branch.
    #[inline(always)]
    #[tactic(auto, unfolding(crate::specs::Numbers::pixel_of))]
    pub(crate) fn is_at_least(self, bound: i64) -> bool
        ensures { result ≡ at_least bound self }
    {
        self.number != UNDEFINED && bound <= self.number
    }

    // How far from 0 its value lies, or 0 where it is undefined. Both answers cost so little that they are made without a branch, and in a loop
    // several at once.
    #[inline(always)]
    pub(crate) fn distance(self) -> u64
        ensures within { IfSome self (λ v. IsWithin result v) }
        ensures least { (most : ℕ) → IfSome self (λ v. IsWithin most v) → result ≤ most }
    {
        if self.number == UNDEFINED {
            return 0;
        }
        self.number.unsigned_abs()
    }
}

/// A pixel of which the value is below 2^31 and above its negative. It takes four bytes.
#[derive(Clone, Copy)]
pub struct ShortPixel {
    // the value, or `UNDEFINED_SHORT`
    number: i32,
}

impl Model for ShortPixel {
    ghost use Rattle.std.specs.Prelude.{Option, ℤ};
    ghost use Rattle.comp_tree.specs.Numbers.{undefined_short, pixel_of, kept_number, kept_number-same};

    ghost Value = { Option ℤ };

    ghost view = { λ pixel. pixel_of undefined_short pixel.number };

    ghost inverse = { λ value. record { number = kept_number undefined_short value } };

    ghost use Rattle.std.proofs.Common.{ap};

    ghost inverse_ok = { λ pixel _. ap (λ number. record { number = number }) (kept_number-same undefined_short pixel.number) };
}

impl ShortPixel {
    /// The pixel with this value, or without one.
    #[inline(always)]
    pub(crate) fn of(value: Option<i64>) -> ShortPixel
        requires { IfSome value (λ v. IsWithin most_short v) }
        ensures { result ≡ value }
    {
        match value {
            Some(number) => ShortPixel {
                number: number as i32,
            },
            None => ShortPixel {
                number: UNDEFINED_SHORT,
            },
        }
    }

    /// The same in eight bytes.
    #[inline(always)]
    pub(crate) fn wide(self) -> Pixel
        ensures { result ≡ self }
    {
        Pixel::of(self.value())
    }

    /// Its value, if it is defined.
    #[inline(always)]
    #[tactic(auto, unfolding(crate::specs::Numbers::pixel_of))]
    pub(crate) fn value(self) -> Option<i64>
        ensures same { result ≡ self }
        ensures near { IfSome result (λ v. IsWithinRange v) }
    {
        if self.number == UNDEFINED_SHORT {
            return None;
        }
        Some(i64::from(self.number))
    }
    // Whether it is defined and has at least this value: two comparisons and no branch.
    #[inline(always)]
    #[tactic(auto, unfolding(crate::specs::Numbers::pixel_of))]
    pub(crate) fn is_at_least(self, bound: i64) -> bool
        ensures { result ≡ at_least bound self }
    {
        self.number != UNDEFINED_SHORT && bound <= i64::from(self.number)
    }

    // The same of short ones. In 32 bits, twice as many are made at once as in 64.
    #[inline(always)]
    pub(crate) fn distance(self) -> u32
        ensures within { IfSome self (λ v. IsWithin result v) }
        ensures least { (most : ℕ) → IfSome self (λ v. IsWithin most v) → result ≤ most }
    {
        if self.number == UNDEFINED_SHORT {
            return 0;
        }
        self.number.unsigned_abs()
    }
}
