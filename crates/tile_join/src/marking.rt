//! Whether tiles can be those of an image: each fits it, and their cores cover it without overlapping.

ghost use Rattle.std.specs.Prelude.{◌≡◌, ◌+◌, ◌*◌, ◌<◌, ◌&&◌, ℕ, Bool, false, IsTrue, nat_le, pos, int_le, length, slice_index, MatchOption};
ghost use Rattle.std.specs.List.{list_all};
ghost use Rattle.comp_tree.specs.Windows.{IsInside, in_whole};
ghost use Rattle.tile_join.specs.declared.fault.JoinFault.TheVariants.{CoresOverlap};
ghost use Rattle.tile_join.specs.Tiles.{window_of, is_frame_of, fits_tile, fits_image, IsSoAt, HasJoinFault};
ghost use Rattle.tile_join.specs.Marks.{AreFitting, AreKnown, IsFrameMarked, HasMark, AreCoresMarked};

use crate::tiles::{Frame, TileCatalogue};
use comp_tree::Shape;
use source_pick::CatRow;

// The first tile that can't be one of an image of this shape.
pub(crate) fn first_unfit(whole: Shape, tiles: &[TileCatalogue]) -> Option<usize>
    ensures { MatchOption result (AreFitting whole tiles.now (length tiles.now))
        (λ i. AreFitting whole tiles.now i × IsSoAt tiles.now i (λ t. fits_image whole t ≡ false)) }
{
    for (i, tile) in tiles.iter().enumerate() {
        if !fits_image(whole, tile) {
            return Some(i);
        }
    }
    None
}

// Whether a tile can be one of an image of this shape.
#[tactic(auto, unfolding(crate::specs::Tiles::fits_image))]
fn fits_image(whole: Shape, tile: &TileCatalogue) -> bool
    ensures { result ≡ fits_image whole tile.now }
{
    tile.whole.width == whole.width
        && tile.whole.height == whole.height
        && is_frame_of(whole, &tile.window)
        && is_frame_of(whole, &tile.core)
        && tile.map.len() == tile.window.shape.pixels() as usize
        && are_rows_of(whole, tile)
}

// Whether a frame lies in an image of this shape.
#[tactic(auto, unfolding(crate::specs::Tiles::is_frame_of))]
fn is_frame_of(whole: Shape, frame: &Frame) -> bool
    ensures { result ≡ is_frame_of whole frame.now }
{
    reaches(frame.left, frame.shape.width, whole.width)
        && reaches(frame.top, frame.shape.height, whole.height)
}

// Along one side: so many pixels from this one on are no more than there are.
fn reaches(from: u32, count: u32, side: u32) -> bool
    ensures { result ≡ nat_le (from + count) side }
{
    from as u64 + count as u64 <= side as u64
}

fn are_rows_of(whole: Shape, tile: &TileCatalogue) -> bool
    ensures { result ≡ list_all (fits_tile whole tile.now) tile.now.rows.items }
{
    tile.rows.iter().all(|row| fits_tile(whole, tile, row))
}

// Whether the row's number can stand in the tile's map, and its first pixel is one of the image.
#[tactic(auto, unfolding(crate::specs::Tiles::fits_tile))]
fn fits_tile(whole: Shape, tile: &TileCatalogue, row: &CatRow) -> bool
    ensures { result ≡ fits_tile whole tile.now row.now }
{
    is_one_of(&row.number, tile.map.len() as u64)
        && is_one_of(&row.xfirst, whole.width as u64)
        && is_one_of(&row.yfirst, whole.height as u64)
}

// Whether a number is one from 1 to `last`.
fn is_one_of(number: &i64, last: u64) -> bool
    ensures { result ≡ (int_le (pos 1) number.now && int_le number.now (pos last)) }
{
    1 <= *number && *number as u64 <= last
}

// The first tile that has something open.
pub(crate) fn first_open(tiles: &[TileCatalogue]) -> Option<usize>
    ensures { MatchOption result (AreKnown tiles.now (length tiles.now))
        (λ i. AreKnown tiles.now i × IsSoAt tiles.now i (λ t. 0 < length t.open.items)) }
{
    for (i, tile) in tiles.iter().enumerate() {
        if !tile.open.is_empty() {
            return Some(i);
        }
    }
    None
}

// Marks the pixels of the cores, of which none is marked, and tells the first tile whose core has a pixel of an earlier one.
pub(crate) fn first_overlap(
    whole: Shape,
    tiles: &[TileCatalogue],
    marks: &mut [u32],
) -> Option<usize>
    requires fit { AreFitting whole tiles.now (length tiles.now) }
    requires one_each { length marks.old ≡ whole.width * whole.height }
    requires blank { (p : ℕ) → slice_index marks.old p ≡ 0 }
    ensures { MatchOption result (AreCoresMarked whole.width tiles.now (length tiles.now) marks.new)
        (λ tile. HasJoinFault whole tiles.now (CoresOverlap tile)) }
{
    for (i, tile) in tiles.iter().enumerate() {
        if !mark_core(whole, &tile.core, marks) {
            return Some(i);
        }
    }
    None
}

// Marks the pixels of a core; `false` where one was marked before.
fn mark_core(whole: Shape, core: &Frame, marks: &mut [u32]) -> bool
    requires inside { IsInside whole (window_of core.now) }
    requires one_each { length marks.old ≡ whole.width * whole.height }
    ensures marked { IsTrue result → IsFrameMarked whole.width core.now marks.old marks.new }
    ensures met { result ≡ false → HasMark whole.width core.now marks.old }
{
    for q in 0..core.shape.pixels() {
        let p = in_whole(whole, core, q) as usize;
        if marks[p] != 0 {
            return false;
        }
        marks[p] = 1;
    }
    true
}

// The number that pixel `q` of a frame has in an image of shape `whole`.
pub(crate) fn in_whole(whole: Shape, frame: &Frame, q: u32) -> u32
    requires inside { IsInside whole (window_of frame.now) }
    requires below { q < frame.now.shape.width * frame.now.shape.height }
    ensures place { result ≡ in_whole whole.width (window_of frame.now) q }
    ensures within { result < whole.width * whole.height }
{
    let row = q / frame.shape.width + frame.top;
    let column = q % frame.shape.width + frame.left;
    row * whole.width + column
}

// The first pixel that isn't marked.
pub(crate) fn first_gap(marks: &[u32]) -> Option<usize>
    ensures { MatchOption result ((p : ℕ) → p < length marks.now → 0 < slice_index marks.now p)
        (λ p. (p < length marks.now) × (slice_index marks.now p ≡ 0)) }
{
    for (p, mark) in marks.iter().enumerate() {
        if *mark == 0 {
            return Some(p);
        }
    }
    None
}
