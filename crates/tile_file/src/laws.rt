//! What the bytes of tiles tell. Each law is the contract of a function that does nothing, and speaks of the definitions alone.

ghost use Rattle.tile_file.specs.Laws.{TilesAreToldApart, TileFilesAreToldApart};

use fits_back::laws::{maps_are_told_apart, tables_are_told_apart};

/// Tiles with the same bytes tell the same, whatever stands behind them, and so do all tiles of files with the same bytes.
pub fn tiles_are_told_apart()
    ensures one { TilesAreToldApart }
    ensures all { TileFilesAreToldApart }
{
    tables_are_told_apart();
    maps_are_told_apart();
}
