//! Shapes of images, and connectivity.

ghost use Rattle.std.specs.Prelude.{◌≡◌, ◌*◌, ◌%◌, ◌^◌, ◌≤◌, ◌<◌, ◌↔◌, IsSome, IfSome};
ghost use Rattle.comp_tree.specs.Limits.{most_pixels, IsSizeWithin, IsWithinLimits, IsWithinUsualLimits};

// The most pixels of an image: 2^31 - 1.
const MOST_PIXELS: u32 = 2147483647;

/// The width and the height of an image in pixels: each from 1 to 65,535. Their product is at most 2^24, or, of a large image, 2^31 - 1.
#[derive(Clone, Copy, PartialEq, Eq, Debug)]
pub struct Shape {
    pub width: u32,
    pub height: u32,
    pub ghost within_limits: { IsWithinLimits width height },
}

impl Shape {
    /// The shape of these sides, or `None` where they are beyond the usual limits: 2^24 pixels.
    pub fn of(width: u32, height: u32) -> Option<Shape>
        ensures accepted { IsSome result ↔ IsWithinUsualLimits width height }
        ensures sides { IfSome result (λ shape. (shape.width ≡ width) × (shape.height ≡ height)) }
    {
        Shape::with_at_most(1 << 24, width, height)
    }

    /// The shape of a large image, or `None` where its sides are beyond the limits: 2^31 - 1 pixels.
    pub fn wide(width: u32, height: u32) -> Option<Shape>
        ensures accepted { IsSome result ↔ IsWithinLimits width height }
        ensures sides { IfSome result (λ shape. (shape.width ≡ width) × (shape.height ≡ height)) }
    {
        Shape::with_at_most(MOST_PIXELS, width, height)
    }

    // The shape of these sides, or `None` where one isn't from 1 to 65,535, or where there are more pixels than `most`.
    fn with_at_most(most: u32, width: u32, height: u32) -> Option<Shape>
        requires { most ≤ most_pixels }
        ensures accepted { IsSome result ↔ IsSizeWithin most width height }
        ensures sides { IfSome result (λ shape. (shape.width ≡ width) × (shape.height ≡ height)) }
    {
        if width == 0 || height == 0 || width > 65535 || height > 65535 {
            return None;
        }
        if width as u64 * height as u64 > most as u64 {
            return None;
        }
        Some(Shape { width, height })
    }

    /// The number of pixels, from 1 to 2^31 - 1.
    pub fn pixels(&self) -> u32
        ensures product { result ≡ self.now.width * self.now.height }
        ensures some { 0 < result }
        ensures few { result ≤ most_pixels }
    {
        self.width * self.height
    }

    /// How many pixels are in each of `parts` bands of whole rows: as many rows in each as there are parts for, and fewer
    /// in the last. 0 counts as 1.
    pub fn band_size(self, parts: u32) -> u32
        ensures some { 0 < result }
        ensures whole_rows { result % self.width ≡ 0 }
    {
        self.height.div_ceil(parts.max(1)) * self.width
    }
}

/// Which pixels are neighbours: the four that share a side, or also the four that share a corner.
#[derive(Clone, Copy, PartialEq, Eq, Debug)]
pub enum Connect {
    Four,
    Eight,
}
