//! Why tiles can't be joined.

ghost use Rattle.std.specs.Prelude.{◌≡◌};
ghost use Rattle.tile_join.specs.declared.fault.JoinStop.TheVariants.{NoMemory};

/// What is amiss with tiles. They are counted from 0, as they are given.
#[derive(Clone, Copy, PartialEq, Eq, Debug)]
pub enum JoinFault {
    /// The tile is of an image of another shape, or it doesn't fit: its window or its core reaches out of the image, its map hasn't a
    /// number for each pixel, or a row has a number or a first pixel that there can't be.
    NotOfImage { tile: usize },
    /// The tile has a component that its window may not know whole.
    OpenComponent { tile: usize },
    /// The tile's core has a pixel of an earlier one.
    CoresOverlap { tile: usize },
    /// No core has the pixel.
    CoreGap { pixel: usize },
    /// Two rows have this pixel as their first one, so they are of different images.
    SamePixel { pixel: usize },
}

/// What came between: the tiles can't be joined, or memory was refused.
#[derive(Clone, Copy, PartialEq, Eq, Debug)]
pub enum JoinStop {
    Refused(JoinFault),
    NoMemory,
}
