//! The rows of a tile.

ghost use Rattle.std.specs.List.{All};
ghost use Rattle.std.specs.Prelude.{◌≡◌, ◌+◌, ◌<◌, ◌≤◌, ◌&&◌, ◌-◌, ◌++◌, ◌∷◌, [], IfOk, OnOk, filter, length, map, nat_le, nat_lt, pos, ◌≤ℤ◌, unsigned_abs};
ghost use Rattle.comp_tree.specs.declared.shape.Shape.{Shape as Sides};
ghost use Rattle.comp_tree.specs.Windows.{IsInside};
ghost use Rattle.comp_tree.specs.declared.shape.Connect.{Connect};
ghost use Rattle.comp_tree.specs.Raster.{Raster};
ghost use Rattle.comp_tree.specs.Components.{tree_of};
ghost use Rattle.node_sums.specs.Sums.{sums_of, AreSumsOfNode, AreSumsOfNodes};
ghost use Rattle.node_sums.specs.DisjointNodes.{AreDisjointNodes};
ghost use Rattle.source_pick.specs.Catalogue.{catalogue_of, catalogue_row, moved_row, FitsColumns};
ghost use Rattle.tile_laws.specs.Pieces.{first_pixel};
ghost use Rattle.tile_join.specs.Tiles.{is_in_frame};
ghost use Rattle.tile_join.specs.Tiles.{IsWritableRow};
ghost use Rattle.tile_make.specs.Placed.{window_of_place};
ghost use Rattle.tile_make.specs.TileOf.{own_of};
ghost use Rattle.tile_make.specs.Told.{FirstStandsIn};

use crate::placing::TilePlace;
use comp_tree::Tree;
use costs::OutOfMemory;
use node_sums::Sums;
use source_pick::{CatRow, row};
use std::alloc::{AllocError, Global};
use tile_join::Frame;

// The rows of the picked nodes, by the sums of each, numbered from 1 and moved to the image: those whose first pixels lie in the core.
pub(crate) fn own_rows(
    alloc: Global,
    tree: &Tree,
    sums: &[Sums],
    picked: &[u32],
    place: &TilePlace,
) -> Result<Vec<CatRow>, OutOfMemory>
    requires sums { AreSumsOfNodes tree.now picked.now sums.now }
    requires disjoint { AreDisjointNodes tree.now picked.now }
    requires inside { IsInside place.now.whole (window_of_place place.now tree.now.shape) }
    ensures exact { IfOk result (λ rows. (plane : Raster) (connect : Connect) → tree.now ≡ tree_of plane connect
        → sums.now ≡ map (sums_of plane connect) picked.now
        → rows.items ≡ own_of place.now tree.now.shape (catalogue_of plane connect picked.now)) }
    ensures fit { IfOk result (λ rows. All IsWritableRow rows.items) }
    ensures few { IfOk result (λ rows. length rows.items ≤ 2147483647) }
{
    let mut rows = Vec::new(alloc);
    for (i, node) in picked.iter().enumerate() {
        let row = row_in_image(tree, &sums[i], i as u32 + 1, *node, place);
        keep_own(place, row, &mut rows)?;
    }
    Ok(rows)
}

// Puts a row of the image behind the others, if its first pixel lies in the core.
fn keep_own(place: &TilePlace, row: CatRow, rows: &mut Vec<CatRow>) -> Result<(), AllocError>
    requires stands { FirstStandsIn place.now.whole row }
    requires fits { IsWritableRow row }
    ensures fit { All IsWritableRow rows.old.items → All IsWritableRow rows.new.items }
    ensures few { length rows.new.items ≤ length rows.old.items + 1 }
    ensures exact { OnOk result (rows.new.items ≡ rows.old.items ++ filter
        (λ x. is_in_frame place.now.whole.width place.now.core (first_pixel place.now.whole.width x)) (row ∷ [])) }
{
    if is_own(place, &row) {
        rows.push(row)?;
    }
    Ok(())
}

// The row of a node, as one of the image.
fn row_in_image(tree: &Tree, sums: &Sums, number: u32, node: u32, place: &TilePlace) -> CatRow
    requires sums { AreSumsOfNode tree.now node sums.now }
    requires node { node < length tree.now.rows }
    requires from_one { 1 ≤ number }
    requires few { number ≤ 2147483647 }
    requires inside { IsInside place.now.whole (window_of_place place.now tree.now.shape) }
    ensures exact { (plane : Raster) (connect : Connect) → tree.now ≡ tree_of plane connect
        → sums.now ≡ sums_of plane connect node
        → result ≡ moved_row (window_of_place place.now tree.now.shape) (catalogue_row plane connect number node) }
    ensures stands { FirstStandsIn place.now.whole result }
    ensures fits { IsWritableRow result }
{
    in_image(place, &row(tree, sums, number, node))
}

// A row of the window, as one of the image.
fn in_image(place: &TilePlace, row: &CatRow) -> CatRow
    requires fits { FitsColumns row.now }
    requires left { place.now.left ≤ 65535 }
    requires top { place.now.top ≤ 65535 }
    ensures { (shape : Sides) → result ≡ moved_row (window_of_place place.now shape) row.now }
{
    let left = place.left as i64;
    let top = place.top as i64;
    CatRow {
        xmin: row.xmin + left,
        xmax: row.xmax + left,
        ymin: row.ymin + top,
        ymax: row.ymax + top,
        xfirst: row.xfirst + left,
        yfirst: row.yfirst + top,
        xcen: row.xcen + 1000 * left,
        ycen: row.ycen + 1000 * top,
        ..*row
    }
}

// Whether the first pixel of a row of the image lies in the core.
fn is_own(place: &TilePlace, row: &CatRow) -> bool
    requires stands { FirstStandsIn place.now.whole row.now }
    ensures { result ≡ is_in_frame place.now.whole.width place.now.core (first_pixel place.now.whole.width row.now) }
{
    let whole = place.whole;
    let first = from_zero(row.yfirst, whole.height) * whole.width
        + from_zero(row.xfirst, whole.width);
    holds(&place.core, whole.width, first)
}

// A column, or a row, that is counted from 1 up to the number of all, counted from 0.
fn from_zero(number: i64, side: u32) -> u32
    requires low { pos 1 ≤ℤ number }
    requires high { number ≤ℤ pos side }
    ensures same { result ≡ unsigned_abs number - 1 }
    ensures below { result < side }
{
    (number - 1) as u32
}

// Whether pixel `p` of an image with so many columns lies in the frame.
#[tactic(auto, unfolding(comp_tree::specs::Windows::is_in_box))]
fn holds(frame: &Frame, width: u32, p: u32) -> bool
    requires some { 0 < width }
    ensures { result ≡ is_in_frame width frame.now p }
{
    holds_along(frame.left, frame.shape.width, p % width)
        && holds_along(frame.top, frame.shape.height, p / width)
}

// Along one side: `x` is one of so many from this one on.
fn holds_along(from: u32, count: u32, x: u32) -> bool
    ensures { result ≡ (nat_le from x && nat_lt x (from + count)) }
{
    from <= x && (x as u64) < from as u64 + count as u64
}
