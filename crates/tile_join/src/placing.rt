//! The rows of all tiles in the order of their first pixels.

ghost use Rattle.std.specs.Prelude.{◌≡◌, ◌+◌, ◌*◌, ◌<◌, ◌≤◌, ◌++◌, ℕ, IfOk, OnOk, MatchOption, length, map, slice_get, Some};
ghost use Rattle.std.specs.List.Sorted.{IsPermutation, IsNonDecreasingBy};
ghost use Rattle.tile_laws.specs.Pieces.{first_pixel, numbered_rows};
ghost use Rattle.tile_join.specs.declared.placing.PlacedRow.{PlacedRow as Placed};
ghost use Rattle.tile_join.specs.Tiles.{rows_of_tiles};
ghost use Rattle.tile_join.specs.Marks.{AreFitting};
ghost use Rattle.tile_join.specs.Places.{HasFirstIn, HaveFirstsIn, placed_row, rows_of_placed, AreFirstsRising, IsFirstTwice};

use crate::tiles::TileCatalogue;
use comp_tree::Shape;
use costs::OutOfMemory;
use source_pick::CatRow;
use std::alloc::{AllocError, Global};

// A row with the pixel of the image that is its first one.
#[derive(Clone, Copy)]
pub(crate) struct PlacedRow {
    pub first: u32,
    pub row: CatRow,
}

// The rows of all tiles in the order of their first pixels.
pub(crate) fn sorted_rows(
    alloc: Global,
    whole: Shape,
    tiles: &[TileCatalogue],
) -> Result<Vec<PlacedRow>, OutOfMemory>
    requires fit { AreFitting whole tiles.now (length tiles.now) }
    ensures same { IfOk result (λ placed. IsPermutation (map (placed_row whole.width) (rows_of_tiles tiles.now)) placed.items) }
    ensures sorted { IfOk result (λ placed. IsNonDecreasingBy (λ (s : Placed). s.first) placed.items) }
{
    let mut placed = placed_rows(alloc, whole, tiles)?;
    placed.sort_unstable_by_key(|row| row.first);
    Ok(placed)
}

// The rows of all tiles, one tile behind the other, each with its first pixel.
fn placed_rows(
    alloc: Global,
    whole: Shape,
    tiles: &[TileCatalogue],
) -> Result<Vec<PlacedRow>, OutOfMemory>
    requires fit { AreFitting whole tiles.now (length tiles.now) }
    ensures { IfOk result (λ placed. placed.items ≡ map (placed_row whole.width) (rows_of_tiles tiles.now)) }
{
    let mut placed = Vec::new(alloc);
    for tile in tiles {
        place_rows(whole, &tile.rows, &mut placed)?;
    }
    Ok(placed)
}

// Puts a tile's rows behind those before them.
fn place_rows(whole: Shape, rows: &[CatRow], placed: &mut Vec<PlacedRow>) -> Result<(), AllocError>
    requires firsts { HaveFirstsIn whole rows.now }
    ensures { OnOk result (placed.new.items ≡ placed.old.items ++ map (placed_row whole.width) rows.now) }
{
    for row in rows {
        let first = first_pixel(whole, row);
        placed.push(PlacedRow { first, row: *row })?;
    }
    Ok(())
}

// The first pixel of a row, in an image of this shape.
pub(crate) fn first_pixel(whole: Shape, row: &CatRow) -> u32
    requires first { HasFirstIn whole row.now }
    ensures place { result ≡ first_pixel whole.width row.now }
    ensures within { result < whole.width * whole.height }
{
    (row.yfirst - 1) as u32 * whole.width + (row.xfirst - 1) as u32
}

// A pixel that two rows have as their first one, of rows in the order of these.
pub(crate) fn first_clash(placed: &[PlacedRow]) -> Option<usize>
    requires sorted { IsNonDecreasingBy (λ (s : Placed). s.first) placed.now }
    ensures { MatchOption result (AreFirstsRising placed.now) (IsFirstTwice placed.now) }
{
    for i in 1..placed.len() {
        if placed[i - 1].first == placed[i].first {
            return Some(placed[i].first as usize);
        }
    }
    None
}

// The rows, numbered from 1.
pub(crate) fn numbered(alloc: Global, placed: &[PlacedRow]) -> Result<Vec<CatRow>, OutOfMemory>
    ensures { IfOk result (λ rows. rows.items ≡ numbered_rows (rows_of_placed placed.now)) }
{
    let mut rows = Vec::with_capacity(alloc, placed.len())?;
    for (i, one) in placed.iter().enumerate() {
        let mut row = one.row;
        row.number = i as i64 + 1;
        rows.push(row)?;
    }
    Ok(rows)
}
