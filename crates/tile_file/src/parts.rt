//! The HDUs of a tile, taken off the front of bytes.

ghost use Rattle.std.specs.Prelude.{◌≡◌, ◌≤◌, ◌<◌, ◌^◌, ◌++◌, ℕ, List, IsTrue, IfOk, IfSome, IfNone, ◌↔◌};
ghost use Rattle.std.specs.List.{All};
ghost use Rattle.comp_tree.specs.declared.shape.Shape.{Shape};
ghost use Rattle.fits_write.specs.Hdus.{map_hdu};
ghost use Rattle.source_pick.specs.declared.catalogue.CatRow.{CatRow};
ghost use Rattle.tile_laws.specs.declared.extents.Extent.{Extent};
ghost use Rattle.tile_join.specs.declared.tiles.Frame.{Frame};
ghost use Rattle.tile_file.specs.TileFiles.{boxes_hdu, rows_hdu, AreTileBoxes, AreTileNumbers, AreTileRows};

use crate::boxes::box_columns;
use crate::frames::{TileBoxes, tile_boxes};
use crate::rows::rows_of;
use comp_tree::Shape;
use costs::OutOfMemory;
use fits_back::laws::{maps_are_told_apart, tables_are_told_apart};
use fits_back::{split_map, split_table};
use fits_write::catalogue_columns;
use source_pick::CatRow;
use std::alloc::Global;

// The greatest number of a map that is written.
const GREATEST: u32 = 2147483647;

/// The boxes of a tile, and the bytes behind their table.
#[derive(Drop)]
pub(crate) struct BoxesAhead<'a> {
    pub boxes: TileBoxes,
    pub rest: &'a [u8],
}

/// The table of boxes at the front of the bytes, if there is one.
pub(crate) fn split_boxes(
    alloc: Global,
    bytes: &[u8],
) -> Result<Option<BoxesAhead<'_>>, OutOfMemory>
    ensures bytes { IfOk result (λ found. IfSome found (λ ahead.
        bytes.now ≡ boxes_hdu ahead.boxes.whole ahead.boxes.window ahead.boxes.core ahead.boxes.open.items ++ ahead.rest.now)) }
    ensures fit { IfOk result (λ found. IfSome found (λ ahead.
        AreTileBoxes ahead.boxes.whole ahead.boxes.window ahead.boxes.core ahead.boxes.open.items)) }
    ensures none { IfOk result (λ found. IfNone found ((whole : Shape) (window core : Frame) (boxes : List Extent) (rest : List ℕ)
        → AreTileBoxes whole window core boxes → bytes.now ≡ boxes_hdu whole window core boxes ++ rest → ⊥)) }
{
    tables_are_told_apart();
    let Some(table) = split_table(alloc, bytes, b"TILE", &box_columns())? else {
        return Ok(None);
    };
    match tile_boxes(alloc, &table.cells)? {
        Some(boxes) => Ok(Some(BoxesAhead {
            boxes,
            rest: table.rest,
        })),
        None => Ok(None),
    }
}

/// The numbers of a window's pixels, and the bytes behind their map.
#[derive(Drop)]
pub(crate) struct NumbersAhead<'a> {
    pub numbers: Vec<u32>,
    pub rest: &'a [u8],
}

// Whether all fit a map. Any of them fits 32 bits.
fn are_small(numbers: &[u32]) -> bool
    ensures small { IsTrue result ↔ All (λ n. n ≤ 2147483647) numbers.now }
    ensures words { All (λ n. n < 2 ^ 32) numbers.now }
{
    numbers.iter().all(|number| *number <= GREATEST)
}

/// The map of a window of this shape at the front of the bytes, if there is one.
pub(crate) fn split_numbers(
    alloc: Global,
    bytes: &[u8],
    shape: Shape,
) -> Result<Option<NumbersAhead<'_>>, OutOfMemory>
    ensures bytes { IfOk result (λ found. IfSome found (λ ahead. bytes.now ≡ map_hdu shape ahead.numbers.items ++ ahead.rest.now)) }
    ensures fit { IfOk result (λ found. IfSome found (λ ahead. AreTileNumbers shape ahead.numbers.items)) }
    ensures none { IfOk result (λ found. IfNone found ((numbers : List ℕ) (rest : List ℕ)
        → AreTileNumbers shape numbers → bytes.now ≡ map_hdu shape numbers ++ rest → ⊥)) }
{
    maps_are_told_apart();
    let Some(map) = split_map(alloc, bytes, shape)? else {
        return Ok(None);
    };
    if !are_small(&map.numbers) {
        return Ok(None);
    }
    Ok(Some(NumbersAhead {
        numbers: map.numbers,
        rest: map.rest,
    }))
}

/// The rows of a tile, and the bytes behind their table.
#[derive(Drop)]
pub(crate) struct RowsAhead<'a> {
    pub rows: Vec<CatRow>,
    pub rest: &'a [u8],
}

/// The table of rows at the front of the bytes, if there is one.
pub(crate) fn split_rows(alloc: Global, bytes: &[u8]) -> Result<Option<RowsAhead<'_>>, OutOfMemory>
    ensures bytes { IfOk result (λ found. IfSome found (λ ahead. bytes.now ≡ rows_hdu ahead.rows.items ++ ahead.rest.now)) }
    ensures fit { IfOk result (λ found. IfSome found (λ ahead. AreTileRows ahead.rows.items)) }
    ensures none { IfOk result (λ found. IfNone found ((rows : List CatRow) (rest : List ℕ)
        → AreTileRows rows → bytes.now ≡ rows_hdu rows ++ rest → ⊥)) }
{
    tables_are_told_apart();
    let Some(table) = split_table(alloc, bytes, b"SOURCES", &catalogue_columns())? else {
        return Ok(None);
    };
    let rows = rows_of(alloc, &table.cells)?;
    Ok(Some(RowsAhead {
        rows,
        rest: table.rest,
    }))
}
