//! Limits by name, and those of one image. They stand beside the type, since the definitions of what they are name it.
ghost use Rattle.std.specs.Prelude.{◌≡◌, pos};
ghost use Rattle.comp_tree.specs.Limits.{half_bound};
ghost use Rattle.pixel_plane.specs.ImageLimits.{usual_limits, wide_limits, narrowed};

use crate::Limits;

impl Limits {
    /// Those of `maxdetect`: 2^24 pixels, and values from -2^36 to 2^36.
    pub fn usual() -> Limits
        ensures { result ≡ usual_limits }
    {
        Limits {
            pixels: 1 << 24,
            least: -(1 << 36),
            greatest: 1 << 36,
        }
    }

    /// Those of `maxwide`: as many pixels as a plane can have, 2^31 - 1, and the same values.
    pub fn wide() -> Limits
        ensures { result ≡ wide_limits }
    {
        Limits {
            pixels: 2_147_483_647,
            least: -(1 << 36),
            greatest: 1 << 36,
        }
    }

    /// Those of an image with so many pixels.
    pub(crate) fn narrowed(&self, count: u32) -> Limits
        ensures { result ≡ narrowed self.now count }
    {
        let bound = half_bound(count);
        Limits {
            pixels: self.pixels,
            least: self.least.max(-bound),
            greatest: self.greatest.min(bound),
        }
    }
}

// The greatest value of a plane with so many pixels, as it is read from an image.
#[tactic(auto, unfolding(comp_tree::specs::Limits::half_bound))]
fn half_bound(count: u32) -> i64
    ensures { result ≡ pos (half_bound count) }
{
    if count <= 1 << 24 { 1 << 36 } else { 1 << 29 }
}
