//! The laws of the lower median, of the cells, of the interpolation and of the residual. Each part is the contract of a
//! function that does nothing, and speaks of the definitions alone.

ghost use Rattle.mesh_background.specs.Windows.{BackgroundIsSeen, ResidualIsSeen, ResidualIsShown, ClearIsToldFromTheWindow};
ghost use Rattle.mesh_background.specs.Laws.{LowerMedianIsTheOne, SomeMemberIsLowerMedian, CellsAreSquares, PixelsLieBetweenCentres, LevelIsWeighed, WeightsComeToAll, LevelsStayBetween, NoMeshLeavesThePlane, ResidualIsPlane, ResidualIsInRange, OwnMedianIsNone};

/// A list that isn't empty has exactly one lower median.
pub fn each_list_has_one_lower_median()
    ensures one { LowerMedianIsTheOne }
    ensures some { SomeMemberIsLowerMedian }
{}

/// A cell is a square of the mesh: two pixels lie in one cell exactly where their columns, and their rows, have one
/// quotient by its size.
#[tactic(auto, using(crate::proofs::Extents::cells_are_squares))]
pub fn cells_are_squares()
    ensures { CellsAreSquares }
{}

/// A pixel's centre lies from the centre of one cell up to that of the next one, however far the grid goes.
pub fn pixels_lie_between_centres()
    ensures { PixelsLieBetweenCentres }
{}

/// A level is the weighted mean of the numbers of the four cells around its pixel, rounded down: each number counts by
/// the product of the pixel's distances, across and down, from the centre of the cell on the other side.
pub fn level_is_a_weighted_mean()
    ensures quotient { LevelIsWeighed }
    ensures weights { WeightsComeToAll }
{}

/// A level lies between the least and the greatest number of the grid: the interpolation makes no new extremes.
pub fn levels_stay_between()
    ensures { LevelsStayBetween }
{}

/// Without a mesh the residual is the plane itself.
#[tactic(auto, using(crate::proofs::Residuals::no_mesh))]
pub fn no_mesh_leaves_the_plane()
    ensures { NoMeshLeavesThePlane }
{}

/// The residual of a plane is a plane: it has one value for each pixel, and these are within the range of pixels where
/// those of the plane, and a number that is given for empty cells, are within half of it.
pub fn residual_is_a_plane()
    ensures one_each { ResidualIsPlane }
    ensures in_range { ResidualIsInRange }
{}

/// To give the image's own median for the cells without a defined pixel is to give no number for them.
#[tactic(auto, using(crate::proofs::Residuals::own_median))]
pub fn own_median_is_no_number()
    ensures { OwnMedianIsNone }
{}

/// Where a window's corner stands on the mesh, and the cells on which a pixel's background depends lie whole in the
/// window, and have defined pixels unless a number is given for the others, the background and the residual are the same in the window. So its residual shows
/// that of the whole there, and which pixels these are can be told from the window.
pub fn residual_is_seen()
    ensures background { BackgroundIsSeen }
    ensures residual { ResidualIsSeen }
    ensures shown { ResidualIsShown }
    ensures told { ClearIsToldFromTheWindow }
{}
