//! The laws of tiles, as contracts of functions that do nothing but name the laws from which they follow.

ghost use Rattle.tile_join.specs.Laws.{JoinedTilesAreTheWhole, KnownRowsAreFinal};

use mesh_background::laws::residual_is_a_plane;
use tile_laws::laws::pieces_give_the_catalogue;

/// Tiles of one image that can be joined give its catalogue and its map.
pub fn joined_tiles_are_the_whole()
    ensures { JoinedTilesAreTheWhole }
{
    residual_is_a_plane();
    pieces_give_the_catalogue();
}

/// A row of one tile whose first pixel lies in none of its open boxes is final.
pub fn known_rows_are_final()
    ensures { KnownRowsAreFinal }
{
    pieces_give_the_catalogue();
}
