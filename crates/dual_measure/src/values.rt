//! The values of a node's pixels, while they are being added and when all are.

ghost use Rattle.std.specs.Prelude.{◌≡◌, IfSome};
ghost use Rattle.comp_tree.specs.Limits.{IsWithinRange};
ghost use Rattle.dual_measure.specs.Measures.{HasMeasureSizes};
ghost use Rattle.dual_measure.specs.Adding.{blank_measure, measure_at, combined, settled_measure};

/// What a second image, the values, holds where a node of the first image's tree lies.
#[derive(Clone, Copy, Debug, PartialEq, Eq)]
pub struct Measure {
    /// The number of the node's pixels that are defined in the values.
    pub seen: u32,
    /// The number of the others.
    pub missing: u32,
    /// The sum of the values seen.
    pub v: i64,
    /// The least value seen, or 0 where none is.
    pub low: i64,
    /// The greatest value seen, or 0 where none is.
    pub peak: i64,
}

impl Measure {
    // Before any pixel is added: no value lies above `low` or below `peak`.
    pub(crate) fn blank() -> Measure
        ensures { result ≡ blank_measure }
    {
        Measure {
            seen: 0,
            missing: 0,
            v: 0,
            low: i64::MAX,
            peak: i64::MIN,
        }
    }

    pub(crate) fn of_pixel(value: Option<i64>) -> Measure
        requires { IfSome value (λ v. IsWithinRange v) }
        ensures { result ≡ measure_at value }
    {
        match value {
            Some(v) => Measure {
                seen: 1,
                missing: 0,
                v,
                low: v,
                peak: v,
            },
            None => Measure {
                missing: 1,
                ..Measure::blank()
            },
        }
    }

    // Over two sets of pixels that share none.
    pub(crate) fn combined(&self, other: &Measure) -> Measure
        requires { HasMeasureSizes (combined self.now other.now) }
        ensures { result ≡ combined self.now other.now }
    {
        Measure {
            seen: self.seen + other.seen,
            missing: self.missing + other.missing,
            v: self.v + other.v,
            low: self.low.min(other.low),
            peak: self.peak.max(other.peak),
        }
    }

    // When all pixels were added.
    #[tactic(auto, unfolding(crate::specs::Adding::settled_measure))]
    pub(crate) fn settled(&self) -> Measure
        ensures { result ≡ settled_measure self.now }
    {
        if self.seen > 0 {
            return *self;
        }
        Measure {
            low: 0,
            peak: 0,
            ..*self
        }
    }
}
