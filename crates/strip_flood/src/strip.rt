//! A strip of a plane as its flooding reads it.

ghost use Rattle.std.specs.Prelude.{◌^◌, ◌≡◌, ◌+◌, ◌-◌, ◌<◌, ◌≤◌, length, true, false, MatchOption};
ghost use Rattle.strip_flood.specs.Flood.{direction_count, cell, rank_of, IsOf, IsNeighbour, HasOffsets, IsInterior, HasCell, HasDirections, AreSides};
ghost use Rattle.strip_flood.specs.Strips.{ground_of, IsStrip};

use comp_tree::Connect;

/// Whole rows of a plane, each value by its place among the strip's distinct values.
#[derive(Drop)]
pub struct Strip {
    pub(crate) connect: Connect,
    pub(crate) width: u32,
    // The strip's first pixel.
    pub(crate) first: u32,
    // The rank of each pixel, from 0 for the least value. An undefined pixel has `NONE`.
    pub(crate) ranks: Vec<u32>,
    // The value of each rank.
    pub(crate) levels: Vec<i64>,
    // How far the pixel in each direction lies behind the first of the nine around and at a pixel.
    pub(crate) offsets: [u32; 8],
}

// The number of directions in which a pixel may have a neighbour.
pub(crate) fn directions(connect: Connect) -> u32
    ensures all { result ≡ direction_count connect }
    ensures few { result ≤ 8 }
{
    match connect {
        Connect::Four => 4,
        Connect::Eight => 8,
    }
}

// All directions, by a bit for each, the lowest for direction 0.
fn all_directions(connect: Connect) -> u32
    ensures { result ≡ 2 ^ direction_count connect - 1 }
{
    match connect {
        Connect::Four => 0b1111,
        Connect::Eight => 0b1111_1111,
    }
}

// The directions that lead to each side of a pixel, by a bit for each direction.
#[derive(Clone, Copy)]
struct Sides {
    above: u32,
    left: u32,
    right: u32,
    below: u32,
}

// The directions that lead to each side of a pixel.
fn sides_of(connect: Connect) -> Sides
    ensures { AreSides connect result.above result.left result.right result.below }
{
    match connect {
        Connect::Four => Sides {
            above: 0b0001,
            left: 0b0010,
            right: 0b0100,
            below: 0b1000,
        },
        Connect::Eight => Sides {
            above: 0b0000_0111,
            left: 0b0010_1001,
            right: 0b1001_0100,
            below: 0b1110_0000,
        },
    }
}

// The directions that lead over an edge: all of its side, if the pixel lies there.
fn over_edge(side: u32, is_there: bool) -> u32
    ensures edge { is_there ≡ true → result ≡ side }
    ensures inner { is_there ≡ false → result ≡ 0 }
{
    if is_there { side } else { 0 }
}

// How far the pixel in each direction lies behind the first of the nine around and at a pixel.
pub(crate) fn offsets(connect: Connect, width: u32) -> [u32; 8]
    requires { width ≤ 65535 }
    ensures { HasOffsets connect width result }
{
    let below = 2 * width;
    match connect {
        Connect::Four => [1, width, width + 2, below + 1, 0, 0, 0, 0],
        Connect::Eight => [0, 1, 2, width, width + 2, below, below + 1, below + 2],
    }
}

impl Strip {
    // The number of the strip's pixels.
    pub(crate) fn count(&self) -> u32
        requires { IsStrip self.now }
        ensures all { result ≡ length self.now.ranks.items }
    {
        self.ranks.len() as u32
    }

    // The rank of a pixel, if it is defined.
    pub(crate) fn rank(&self, p: u32) -> Option<u32>
        requires strip { IsStrip self.now }
        requires inside { IsOf (ground_of self.now) p }
        ensures { MatchOption result (length self.now.levels.items ≤ rank_of (ground_of self.now) p)
            (λ rank. (rank_of (ground_of self.now) p ≡ rank) × (rank < length self.now.levels.items)) }
    {
        let rank = self.ranks[(p - self.first) as usize];
        if (rank as usize) < self.levels.len() {
            Some(rank)
        } else {
            None
        }
    }

    // Whether all nine pixels around and at this one lie in the strip.
    #[inline]
    fn is_interior(&self, p: u32) -> bool
        requires strip { IsStrip self.now }
        requires inside { IsOf (ground_of self.now) p }
        ensures { result ≡ true → IsInterior self.now.width self.now.first (length self.now.ranks.items) p }
    {
        let place = p - self.first;
        if place <= self.width || place + self.width + 1 >= self.count() {
            return false;
        }
        let column = p % self.width;
        column > 0 && column + 1 < self.width
    }

    // The directions from a pixel at an edge that stay in the strip, by a bit for each.
    fn directions_at_edge(&self, p: u32) -> u32
        requires strip { IsStrip self.now }
        requires inside { IsOf (ground_of self.now) p }
        ensures { HasDirections self.now.connect self.now.width self.now.first (length self.now.ranks.items) p result }
    {
        let sides = sides_of(self.connect);
        let column = p % self.width;
        let above = over_edge(sides.above, p - self.first < self.width);
        let left = over_edge(sides.left, column == 0);
        let right = over_edge(sides.right, column + 1 == self.width);
        let below = over_edge(sides.below, p - self.first + self.width >= self.count());
        all_directions(self.connect) & !(above | left | right | below)
    }

    // The directions from a pixel that stay in the strip, by a bit for each. Most pixels are interior, and have all.
    #[inline]
    pub(crate) fn directions_inside(&self, p: u32) -> u32
        requires strip { IsStrip self.now }
        requires inside { IsOf (ground_of self.now) p }
        ensures { HasDirections self.now.connect self.now.width self.now.first (length self.now.ranks.items) p result }
    {
        if self.is_interior(p) {
            return all_directions(self.connect);
        }
        self.directions_at_edge(p)
    }

    // The pixel in direction `k`, which stays in the strip. The first of the nine around and at the pixel is `corner` in front.
    #[inline]
    pub(crate) fn neighbour(&self, p: u32, corner: u32, k: u32) -> u32
        requires strip { IsStrip self.now }
        requires corner { corner ≡ self.now.width + 1 }
        requires direction { k < direction_count self.now.connect }
        requires there { HasCell self.now.width self.now.first (length self.now.ranks.items) p (cell self.now.connect k) }
        ensures { IsNeighbour self.now.connect self.now.width self.now.first (length self.now.ranks.items) p k result }
    {
        p + self.offsets[k as usize] - corner
    }
}
