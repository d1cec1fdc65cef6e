//! What the bytes of tiles give together.
ghost use Rattle.std.specs.Prelude.{◌≡◌, ◌<◌, List, IfOk, IfErr, IfSome, IfNone, length};
ghost use Rattle.std.specs.List.{All};
ghost use Rattle.comp_tree.specs.Raster.{Raster, IsPlane};
ghost use Rattle.tree_products.specs.Catalogues.{hdus, IsDetection, detected_hdus};
ghost use Rattle.tile_laws.specs.Pieces.{DetectionChoice, searched};
ghost use Rattle.tile_join.specs.declared.tiles.TileCatalogue.{TileCatalogue as Tile};
ghost use Rattle.tile_join.specs.Made.{AreTilesMade};
ghost use Rattle.tile_file.specs.TileFiles.{bytes_of_tiles, IsTileFile};
ghost use Rattle.join_top.specs.Joinings.{AreTilesIn, IsJoinedOutput};
ghost use Rattle.join_top.specs.Making.{IsWholeOf, IsJoinedDetection, IsStopOfTiles, IsMakeStopOf};

use crate::ends::JoinRefusal;
use comp_tree::Shape;
use costs::OutOfMemory;
use std::alloc::Global;
use tile_file::laws::tiles_are_told_apart;
use tile_file::{row_cells, split_tiles};
use tile_join::{JoinStop, TileCatalogue, join};
use tree_products::Detection;

// Why nothing was made.
#[derive(Clone, Copy, PartialEq, Eq, Debug)]
pub(crate) enum MakeStop {
    Refused(JoinRefusal),
    NoMemory,
}

// The map and the catalogue of the image whose tiles' files these bytes are.
pub(crate) fn make_joined(alloc: Global, bytes: Vec<u8>) -> Result<Detection, MakeStop>
    ensures output { IfOk result (λ found. IsJoinedOutput bytes.items (hdus found.shape found.map.items found.cells.items)) }
    ensures image { IfOk result (λ found. (d : DetectionChoice) (r : Raster) (tiles : List Tile) → IsPlane r
        → AreTilesIn bytes.items r.shape tiles → AreTilesMade d r tiles
        → hdus found.shape found.map.items found.cells.items ≡ detected_hdus (searched d r) d.connect d.choice) }
    ensures writable { IfOk result (λ found. IsDetection found.shape found.map.items found.cells.items) }
    ensures refused { IfErr result (IsMakeStopOf bytes.items) }
{
    tiles_are_told_apart();
    let tiles = match tiles_of(alloc, bytes) {
        Ok(Some(tiles)) => tiles,
        Ok(None) => return Err(MakeStop::Refused(JoinRefusal::NotTiles)),
        Err(_) => return Err(MakeStop::NoMemory),
    };
    if tiles.is_empty() {
        return Err(MakeStop::Refused(JoinRefusal::NotTiles));
    }
    join_tiles(alloc, whole_of(&tiles), &tiles)
}

// The tiles whose files these bytes are. The bytes are gone when this returns, so that they take no memory beside the map of the whole.
fn tiles_of(alloc: Global, bytes: Vec<u8>) -> Result<Option<Vec<TileCatalogue>>, OutOfMemory>
    ensures bytes { IfOk result (λ found. IfSome found (λ tiles. bytes.items ≡ bytes_of_tiles tiles.items)) }
    ensures fit { IfOk result (λ found. IfSome found (λ tiles. All IsTileFile tiles.items)) }
    ensures none { IfOk result (λ found. IfNone found ((tiles : List Tile) → All IsTileFile tiles
        → bytes.items ≡ bytes_of_tiles tiles → ⊥)) }
{
    split_tiles(alloc, &bytes)
}

// The shape of the image that the first tile says.
fn whole_of(tiles: &[TileCatalogue]) -> Shape
    requires some { 0 < length tiles.now }
    ensures { IsWholeOf tiles.now result }
{
    tiles[0].whole
}

// The map and the catalogue of the image of these tiles.
fn join_tiles(alloc: Global, whole: Shape, tiles: &[TileCatalogue]) -> Result<Detection, MakeStop>
    requires files { All IsTileFile tiles.now }
    ensures shape { IfOk result (λ found. found.shape ≡ whole) }
    ensures joined { IfOk result (λ found. IsJoinedDetection whole tiles.now found.map.items found.cells.items) }
    ensures stop { IfErr result (IsStopOfTiles whole tiles.now) }
{
    let joined = match join(alloc, whole, tiles) {
        Ok(joined) => joined,
        Err(JoinStop::Refused(fault)) => {
            return Err(MakeStop::Refused(JoinRefusal::Unjoinable(fault)));
        }
        Err(JoinStop::NoMemory) => return Err(MakeStop::NoMemory),
    };
    match row_cells(alloc, &joined.rows) {
        Ok(cells) => Ok(Detection {
            shape: whole,
            map: joined.map,
            cells,
        }),
        Err(_) => Err(MakeStop::NoMemory),
    }
}
