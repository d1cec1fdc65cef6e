//! What a window tells of an image.

use comp_tree::Shape;
use source_pick::CatRow;
use tile_laws::Extent;

/// Some columns and rows of an image: where the first pixel stands, counted from 0, and how many there are.
#[derive(Clone, Copy, PartialEq, Eq, Debug)]
pub struct Frame {
    pub left: u32,
    pub top: u32,
    pub shape: Shape,
}

/// What detection in a window tells of an image: the sources whose first pixels lie in the tile's core.
#[derive(Drop)]
pub struct TileCatalogue {
    /// The shape of the image.
    pub whole: Shape,
    /// Where the window lies in it.
    pub window: Frame,
    /// The pixels for which the tile answers.
    pub core: Frame,
    /// Boxes of the image: they hold the components with a pixel in the core that the window may not know whole. A tile
    /// that has any can't be joined: it is to be made again, with a window around them.
    pub open: Vec<Extent>,
    /// The rows, in the image's columns and rows, with the numbers of the window's own map.
    pub rows: Vec<CatRow>,
    /// For each pixel of the window the number of its source there, and 0 where there is none.
    pub map: Vec<u32>,
}
