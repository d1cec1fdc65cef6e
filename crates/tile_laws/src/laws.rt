//! The law of an image in pieces. Each part is the contract of a function that does nothing but name the laws from
//! which it follows, and speaks of the definitions alone.

ghost use Rattle.tile_laws.specs.Laws.{
  PiecesGiveTheCatalogue,
  PiecesGiveTheMap,
  PiecesGiveTheMeasures,
  PiecesCanBeMerged,
  RowsAreOnePieces,
  FlatBoxesAreSure,
  BoxesAreSureWithNumber,
  BoxesAreSureWithoutMesh,
  OwnMedianFindsTheSame,
  NoMeshDetectsInTheImage,
  PiecesGiveThePlanesCatalogue,
};
ghost use Rattle.tile_laws.specs.Final.{PartsOfCoresAreAnswered, UnopenedPixelsAreAnswered, OwnRowsAreFinal, OwnMeasuresAreFinal};
ghost use Rattle.tile_laws.specs.Knowing.{BoxesTellTheCore, KnownCoresAreAnswered};
ghost use Rattle.tile_laws.specs.Opening.{WholeTestIsExact, MeetingTestIsExact, WithinTestIsExact, SettledTestIsExact};

use comp_tree::laws::sure_components_are_the_same;
use mesh_background::laws::{no_mesh_leaves_the_plane, residual_is_a_plane, residual_is_seen};
use source_pick::laws::{sources_are_disjoint, sources_are_listed, sources_of_tiles};

/// Where the cores of an image's pieces cover it, and each piece answers for its core, the catalogue of the image is
/// that of the pieces: of each the rows whose first pixels lie in its core, moved to the image, in the order of these
/// pixels, and numbered. A pixel has the number of such a row in the image's segmentation map exactly where a piece's
/// own map gives it this row. In a second image, seen through the same windows, a source has the measure that the piece
/// gives it. Where no two cores share a pixel the rows can be put together so, and each is one row of one piece.
///
/// What one piece that answers for its core tells of it is final, whatever the other pieces are: its rows, their measures, and
/// their backs where the base is at least the threshold. A piece
/// with open components answers for the pixels of its core that lie in none of their boxes.
pub fn pieces_give_the_catalogue()
    ensures catalogue { PiecesGiveTheCatalogue }
    ensures map { PiecesGiveTheMap }
    ensures measures { PiecesGiveTheMeasures }
    ensures merged { PiecesCanBeMerged }
    ensures one_piece { RowsAreOnePieces }
    ensures parts { PartsOfCoresAreAnswered }
    ensures unopened { UnopenedPixelsAreAnswered }
    ensures own_rows { OwnRowsAreFinal }
    ensures own_measures { OwnMeasuresAreFinal }
{
    residual_is_a_plane();
    no_mesh_leaves_the_plane();
    residual_is_seen();
    sure_components_are_the_same();
    sources_are_listed();
    sources_are_disjoint();
    sources_of_tiles();
}

/// Which boxes are sure: with a flat background, and where a number is given for cells without a value, those in the
/// clear box, and without a mesh those in the window.
pub fn boxes_are_sure()
    ensures flat { FlatBoxesAreSure }
    ensures number { BoxesAreSureWithNumber }
    ensures without { BoxesAreSureWithoutMesh }
{}

/// Where that number is the image's own median, detection finds what it finds without.
#[tactic(auto, using(crate::proofs::Boxes::own_median_finds_the_same))]
pub fn own_median_finds_the_same()
    ensures { OwnMedianFindsTheSame }
{}

/// Without a mesh detection works on the image itself, and its catalogue is that of its windows.
pub fn pieces_give_the_planes_catalogue()
    ensures image { NoMeshDetectsInTheImage }
    ensures catalogue { PiecesGiveThePlanesCatalogue }
{
    no_mesh_leaves_the_plane();
    pieces_give_the_catalogue();
}

/// A window knows its core where the boxes of its nodes are settled, and answers for it then.
pub fn boxes_tell_the_core()
    ensures told { BoxesTellTheCore }
    ensures answered { KnownCoresAreAnswered }
{}

/// What the tests say by which [`open_boxes`](crate::open_boxes) is defined.
pub fn box_tests_are_exact()
    ensures whole { WholeTestIsExact }
    ensures meeting { MeetingTestIsExact }
    ensures within { WithinTestIsExact }
    ensures settled { SettledTestIsExact }
{}
