//! Tiles from the bytes of files.

ghost use Rattle.std.specs.Prelude.{◌≡◌, ◌++◌, ℕ, List, IfOk, IfSome, IfNone};
ghost use Rattle.std.specs.List.{All};
ghost use Rattle.tile_join.specs.declared.tiles.TileCatalogue.{TileCatalogue};
ghost use Rattle.tile_file.specs.TileFiles.{tile_bytes, bytes_of_tiles, IsTileFile};

use crate::frames::TileBoxes;
use crate::laws::tiles_are_told_apart;
use crate::parts::{split_boxes, split_numbers, split_rows};
use costs::OutOfMemory;
use fits_back::laws::{maps_are_told_apart, tables_are_told_apart};
use fits_back::split_primary;
use std::alloc::Global;
use tile_join::TileCatalogue;

/// A tile, and the bytes behind its file.
#[derive(Drop)]
pub struct TileAhead<'a> {
    pub tile: TileCatalogue,
    pub rest: &'a [u8],
}

/// The tile at the front of the bytes, or `None` where no tile's file stands there as [`put_file`](crate::put_file) writes it. The one error is that
/// memory was refused; for what a header announces and isn't there none is taken.
pub fn split_tile(alloc: Global, bytes: &[u8]) -> Result<Option<TileAhead<'_>>, OutOfMemory>
    ensures bytes { IfOk result (λ found. IfSome found (λ ahead. bytes.now ≡ tile_bytes ahead.tile ++ ahead.rest.now)) }
    ensures fit { IfOk result (λ found. IfSome found (λ ahead. IsTileFile ahead.tile)) }
    ensures none { IfOk result (λ found. IfNone found ((tile : TileCatalogue) (rest : List ℕ) → IsTileFile tile
        → bytes.now ≡ tile_bytes tile ++ rest → ⊥)) }
{
    tables_are_told_apart();
    maps_are_told_apart();
    let Some(behind) = split_primary(bytes) else {
        return Ok(None);
    };
    let Some(front) = split_boxes(alloc, behind)? else {
        return Ok(None);
    };
    let TileBoxes {
        whole,
        window,
        core,
        open,
    } = front.boxes;
    let Some(middle) = split_numbers(alloc, front.rest, window.shape)? else {
        return Ok(None);
    };
    let Some(back) = split_rows(alloc, middle.rest)? else {
        return Ok(None);
    };
    let tile = TileCatalogue {
        whole,
        window,
        core,
        open,
        rows: back.rows,
        map: middle.numbers,
    };
    Ok(Some(TileAhead {
        tile,
        rest: back.rest,
    }))
}

/// The tiles of a file in which they stand one behind the other, or `None` where anything else stands there too.
pub fn split_tiles(alloc: Global, bytes: &[u8]) -> Result<Option<Vec<TileCatalogue>>, OutOfMemory>
    ensures bytes { IfOk result (λ found. IfSome found (λ tiles. bytes.now ≡ bytes_of_tiles tiles.items)) }
    ensures fit { IfOk result (λ found. IfSome found (λ tiles. All IsTileFile tiles.items)) }
    ensures none { IfOk result (λ found. IfNone found ((tiles : List TileCatalogue) → All IsTileFile tiles
        → bytes.now ≡ bytes_of_tiles tiles → ⊥)) }
{
    tiles_are_told_apart();
    let mut tiles = Vec::new(alloc);
    let mut rest = bytes;
    while !rest.is_empty() {
        let Some(ahead) = split_tile(alloc, rest)? else {
            return Ok(None);
        };
        tiles.push(ahead.tile)?;
        rest = ahead.rest;
    }
    Ok(Some(tiles))
}
