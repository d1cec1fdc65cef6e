//! The box of an image in which a window's background is the image's own.

ghost use Rattle.std.specs.Prelude.{◌≡◌, ◌+◌, ◌≤◌, ◌<◌, ◌*◌, None, IfOk, IfSome, IsTrue, length};
ghost use Rattle.std.specs.List.{list_all};
ghost use Rattle.comp_tree.specs.Windows.{IsInside};
ghost use Rattle.mesh_background.specs.Mesh.{cell_count, cells_along, mesh_cell_of};
ghost use Rattle.orders.specs.Words.{HasLimits};
ghost use Rattle.tile_laws.specs.Clear.{clear_box};
ghost use Rattle.tile_laws.specs.Extents.{extent_box};
ghost use Rattle.tile_make.specs.Placed.{window_of_place};
ghost use Rattle.tile_make.specs.TileOf.{has_full_mesh as is_full, sure_extent_of};
ghost use Rattle.tile_make.specs.Told.{AreMarkedCells, HasNoEmptyCell, IsSureExtent};

use crate::placing::TilePlace;
use comp_tree::{Plane, Shape};
use costs::OutOfMemory;
use orders::Order;
use std::alloc::Global;
use tile_laws::{Extent, clear_extent};

// The box, or `None` where the background can't be known: it is smooth, a cell of the window has no pixel with a value, and no number is given
// for such cells. It is that of the whole image.
pub(crate) fn sure_extent(
    alloc: Global,
    image: &Plane,
    order: &Order,
    empty: Option<i64>,
    place: &TilePlace,
) -> Result<Option<Extent>, OutOfMemory>
    requires limits { HasLimits order.now }
    requires inside { IsInside place.now.whole (window_of_place place.now image.now.shape) }
    ensures exact { IfOk result (λ found. found ≡ sure_extent_of empty order.now.flat order.now.mesh place.now image.now) }
    ensures known { IfOk result (λ found. IfSome found (λ sure. IsSureExtent empty order.now.flat order.now.mesh image.now place.now sure)) }
{
    match empty {
        Some(_) => Ok(Some(clear_part(image, order, place))),
        None => extent_of_full_cells(alloc, image, order, place),
    }
}

// The box in which the background depends on cells that lie whole in the window.
fn clear_part(image: &Plane, order: &Order, place: &TilePlace) -> Extent
    requires limits { HasLimits order.now }
    requires inside { IsInside place.now.whole (window_of_place place.now image.now.shape) }
    ensures { extent_box result ≡ clear_box order.now.flat order.now.mesh place.now.whole (window_of_place place.now image.now.shape) }
{
    clear_extent(
        order.flat,
        order.mesh,
        place.whole,
        place.left,
        place.top,
        image.shape(),
    )
}

// The same, where no number is given.
fn extent_of_full_cells(
    alloc: Global,
    image: &Plane,
    order: &Order,
    place: &TilePlace,
) -> Result<Option<Extent>, OutOfMemory>
    requires limits { HasLimits order.now }
    requires inside { IsInside place.now.whole (window_of_place place.now image.now.shape) }
    ensures exact { IfOk result (λ found. found ≡ sure_extent_of None order.now.flat order.now.mesh place.now image.now) }
    ensures known { IfOk result (λ found. IfSome found (λ sure. IsSureExtent None order.now.flat order.now.mesh image.now place.now sure)) }
{
    if !order.flat && order.mesh > 0 && !has_full_mesh(alloc, image, order.mesh)? {
        return Ok(None);
    }
    Ok(Some(clear_part(image, order, place)))
}

// Whether each cell of the mesh has a pixel with a value.
fn has_full_mesh(alloc: Global, image: &Plane, mesh: u32) -> Result<bool, OutOfMemory>
    requires some { 0 < mesh }
    requires few { mesh ≤ 65535 }
    ensures exact { IfOk result (λ full. full ≡ is_full image.now mesh) }
    ensures full { IfOk result (λ full. IsTrue full → HasNoEmptyCell image.now mesh) }
{
    let cells = cells_of(image.shape(), mesh);
    let mut found = vec![in alloc; false; cells as usize]?;
    mark_cells(image, mesh, &mut found);
    Ok(are_all_marked(&found))
}

fn are_all_marked(found: &[bool]) -> bool
    ensures { result ≡ list_all (λ marked. marked) found.now }
{
    found.iter().all(|has_pixel| *has_pixel)
}

// Marks the cells that have pixels with values.
fn mark_cells(image: &Plane, mesh: u32, found: &mut [bool])
    requires some { 0 < mesh }
    requires few { mesh ≤ 65535 }
    requires one_each { length found.old ≡ cell_count mesh image.now.shape }
    requires unmarked { AreMarkedCells image.now mesh 0 found.old }
    ensures one_each { length found.new ≡ cell_count mesh image.now.shape }
    ensures marked { AreMarkedCells image.now mesh (length image.now.values) found.new }
{
    for p in 0..image.shape().pixels() {
        mark_cell(image, mesh, p, found);
    }
}

// Marks the cell of a pixel, if this has a value.
fn mark_cell(image: &Plane, mesh: u32, p: u32, found: &mut [bool])
    requires some { 0 < mesh }
    requires few { mesh ≤ 65535 }
    requires below { p < length image.now.values }
    requires one_each { length found.old ≡ cell_count mesh image.now.shape }
    requires marked { AreMarkedCells image.now mesh p found.old }
    ensures { AreMarkedCells image.now mesh (p + 1) found.new }
{
    if image.get(p).is_some() {
        found[cell_of(image.shape(), mesh, p) as usize] = true;
    }
}

// The cell of a pixel.
fn cell_of(shape: Shape, mesh: u32, p: u32) -> u32
    requires some { 0 < mesh }
    requires few { mesh ≤ 65535 }
    requires below { p < shape.width * shape.height }
    ensures cell { result ≡ mesh_cell_of mesh shape.width p }
    ensures within { result < cell_count mesh shape }
{
    p / shape.width / mesh * cells_over(mesh, shape.width) + p % shape.width / mesh
}

// How many cells the mesh has: at most as many as there are pixels.
fn cells_of(shape: Shape, mesh: u32) -> u32
    requires some { 0 < mesh }
    requires few { mesh ≤ 65535 }
    ensures { result ≡ cell_count mesh shape }
{
    cells_over(mesh, shape.width) * cells_over(mesh, shape.height)
}

// How many cells cover a side of so many pixels.
fn cells_over(mesh: u32, side: u32) -> u32
    requires some { 0 < mesh }
    requires few { mesh ≤ 65535 }
    requires side { side ≤ 65535 }
    ensures { result ≡ cells_along mesh side }
{
    (side + (mesh - 1)) / mesh
}
