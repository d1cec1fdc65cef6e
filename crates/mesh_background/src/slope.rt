//! Levels that rise by the same part of a unit from pixel to pixel. To carry along what is left of a division costs a
//! comparison for each pixel, and not a division.

ghost use Rattle.std.specs.Prelude.{◌≡◌, ◌+◌, ◌*◌, ◌<◌, ◌≤◌, ◌^◌, ◌+ℤ◌};
ghost use Rattle.comp_tree.specs.Limits.{IsInHalfRange};
ghost use Rattle.mesh_background.specs.Slopes.{in_parts, IsSmallStep, IsSmallTimes};

// A mixed number: so many units and, above them, so many parts of one, less than a whole.
#[derive(Clone, Copy)]
pub(crate) struct Mixed {
    pub(crate) floor: i64,
    pub(crate) rest: u64,
}

impl Mixed {
    // So many parts, of which a unit has `parts`.
    pub(crate) fn of(scaled: i128, parts: u64) -> Mixed
        requires some { 0 < parts }
        requires few { parts ≤ 2 ^ 60 }
        requires size { IsSmallTimes parts scaled }
        ensures value { in_parts parts result ≡ scaled }
        ensures rest { result.rest < parts }
        ensures small { IsSmallStep result.floor }
    {
        let unit = i128::from(parts);
        let floor = scaled.div_euclid(unit);
        Mixed {
            floor: floor as i64,
            rest: (scaled - unit * floor) as u64,
        }
    }

    // The sum of a level and a step.
    pub(crate) fn plus(self, step: Mixed, parts: u64) -> Mixed
        requires parts { parts ≤ 2 ^ 60 }
        requires level { IsInHalfRange self.floor }
        requires step { IsSmallStep step.floor }
        requires rest { self.rest < parts }
        requires step_rest { step.rest < parts }
        ensures sum { in_parts parts result ≡ in_parts parts self +ℤ in_parts parts step }
        ensures rest { result.rest < parts }
    {
        let floor = self.floor + step.floor;
        let rest = self.rest + step.rest;
        if rest < parts {
            Mixed { floor, rest }
        } else {
            Mixed {
                floor: floor + 1,
                rest: rest - parts,
            }
        }
    }
}
