//! Where a tile lies.

ghost use Rattle.std.specs.Prelude.{◌≡◌, ◌+◌, ◌≤◌, ◌&&◌, nat_le};
ghost use Rattle.tile_laws.specs.Clear.{window_box};
ghost use Rattle.tile_laws.specs.Extents.{extent_box};
ghost use Rattle.tile_join.specs.Tiles.{window_of};
ghost use Rattle.tile_make.specs.Placed.{is_tile_place, begins_cells as begins, lies_along as along};

use comp_tree::Shape;
use tile_join::Frame;
use tile_laws::{Extent, Interval};

/// Where a window lies in an image of shape `whole`: its first pixel stands in column `left` of row `top`. It is to answer for the pixels of the core.
#[derive(Clone, Copy, PartialEq, Eq, Debug)]
pub struct TilePlace {
    pub whole: Shape,
    pub left: u32,
    pub top: u32,
    pub core: Frame,
}

/// Whether the core lies in the window of this shape, this in the image, and the window's corner on the mesh.
#[tactic(auto, unfolding(crate::specs::Placed::is_tile_place))]
pub fn is_placed(place: &TilePlace, shape: Shape, mesh: u32) -> bool
    ensures { result ≡ is_tile_place place.now shape mesh }
{
    is_on_mesh(place, mesh) && lies_in_image(place, shape)
}

fn is_on_mesh(place: &TilePlace, mesh: u32) -> bool
    ensures { result ≡ (begins mesh place.now.left && begins mesh place.now.top) }
{
    begins_cells(mesh, place.left) && begins_cells(mesh, place.top)
}

fn lies_in_image(place: &TilePlace, shape: Shape) -> bool
    ensures { result ≡ (along place.now.left shape.width place.now.core.left place.now.core.shape.width place.now.whole.width
        && along place.now.top shape.height place.now.core.top place.now.core.shape.height place.now.whole.height) }
{
    let core = &place.core;
    lies_along(
        place.left,
        shape.width,
        core.left,
        core.shape.width,
        place.whole.width,
    ) && lies_along(
        place.top,
        shape.height,
        core.top,
        core.shape.height,
        place.whole.height,
    )
}

// Whether a column or a row begins cells.
#[tactic(auto, unfolding(crate::specs::Placed::begins_cells))]
fn begins_cells(mesh: u32, corner: u32) -> bool
    ensures { result ≡ begins mesh corner }
{
    mesh == 0 || corner % mesh == 0
}

// The same along one side.
#[tactic(auto, unfolding(crate::specs::Placed::lies_along))]
fn lies_along(from: u32, count: u32, core_from: u32, core_count: u32, side: u32) -> bool
    ensures { result ≡ along from count core_from core_count side }
{
    from <= core_from && reach_in_order(core_from, core_count, from, count, side)
}

// Whether one stretch ends no later than the other, and this one with the side.
fn reach_in_order(first: u32, first_count: u32, second: u32, count: u32, side: u32) -> bool
    ensures { result ≡ (nat_le (first + first_count) (second + count) && nat_le (second + count) side) }
{
    let end = second as u64 + count as u64;
    first as u64 + first_count as u64 <= end && end <= side as u64
}

// The box of a frame.
pub(crate) fn extent_of(frame: &Frame) -> Extent
    requires columns { frame.now.left + frame.now.shape.width ≤ 65535 }
    requires rows { frame.now.top + frame.now.shape.height ≤ 65535 }
    ensures { extent_box result ≡ window_box (window_of frame.now) }
{
    Extent {
        columns: Interval {
            from: frame.left,
            to: frame.left + frame.shape.width,
        },
        rows: Interval {
            from: frame.top,
            to: frame.top + frame.shape.height,
        },
    }
}
