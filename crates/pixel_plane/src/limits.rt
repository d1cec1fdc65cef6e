//! What an image may be: how many pixels it has at most, and which values they have.
ghost use Rattle.pixel_plane.specs.ValueRanges.{IsRangeOfValues};

/// The most pixels of an image, and the least and the greatest value of one. An image with more pixels is `ImageTooLarge`, and the first
/// pixel with another value is `PixelRange`. What a plane can hold bounds both: more than 2^31 - 1 pixels are too many in any case, and
/// where there are more than 2^24, values beyond 2^29 on either side of 0 are out of range in any case.
#[derive(Clone, Copy, Debug, PartialEq, Eq)]
pub struct Limits {
    pub pixels: u32,
    pub least: i64,
    pub greatest: i64,
    pub ghost range: { IsRangeOfValues least greatest },
}
