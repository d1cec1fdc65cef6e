//! The boxes of a tile: the image, the window, the core and the open boxes.

ghost use Rattle.std.specs.Prelude.{◌≡◌, ◌+◌, ◌≤◌, ◌*◌, ◌++◌, ℕ, ℤ, List, IsTrue, IfSome, IfNone, IfOk, OnOk, length};
ghost use Rattle.std.specs.List.{All, flat_map};
ghost use Rattle.comp_tree.specs.declared.shape.Shape.{Shape};
ghost use Rattle.tile_laws.specs.declared.extents.Extent.{Extent};
ghost use Rattle.tile_join.specs.declared.tiles.Frame.{Frame};
ghost use Rattle.tile_join.specs.Tiles.{is_frame_of};
ghost use Rattle.tile_file.specs.TileFiles.{box_cells, image_extent, frame_extent, tile_extents, HasEndsWithin, AreTileBoxes};

use crate::boxes::{add_box, split_box};
use comp_tree::Shape;
use costs::OutOfMemory;
use std::alloc::Global;
use tile_join::{Frame, TileCatalogue};
use tile_laws::{Extent, Interval};

// An image as a box of itself.
fn image_extent(whole: Shape) -> Extent
    ensures { result ≡ image_extent whole }
{
    Extent {
        columns: Interval {
            from: 0,
            to: whole.width,
        },
        rows: Interval {
            from: 0,
            to: whole.height,
        },
    }
}

// A frame as a box.
#[tactic(auto, unfolding(tile_join::specs::Tiles::is_frame_of))]
fn frame_extent(whole: Shape, frame: &Frame) -> Extent
    requires { IsTrue (is_frame_of whole frame.now) }
    ensures { result ≡ frame_extent frame.now }
{
    let Frame { left, top, shape } = *frame;
    Extent {
        columns: Interval {
            from: left,
            to: left + shape.width,
        },
        rows: Interval {
            from: top,
            to: top + shape.height,
        },
    }
}

/// The cells of a tile's boxes.
pub(crate) fn tile_cells(alloc: Global, tile: &TileCatalogue) -> Result<Vec<i64>, OutOfMemory>
    requires window { IsTrue (is_frame_of tile.now.whole tile.now.window) }
    requires core { IsTrue (is_frame_of tile.now.whole tile.now.core) }
    ensures { IfOk result (λ cells. cells.items ≡ flat_map box_cells (tile_extents tile.now.whole tile.now.window tile.now.core tile.now.open.items)) }
{
    let mut cells = Vec::new(alloc);
    add_box(&mut cells, &image_extent(tile.whole))?;
    add_box(&mut cells, &frame_extent(tile.whole, &tile.window))?;
    add_box(&mut cells, &frame_extent(tile.whole, &tile.core))?;
    add_boxes(&mut cells, &tile.open)?;
    Ok(cells)
}

// Puts the cells of boxes behind those before them.
fn add_boxes(cells: &mut Vec<i64>, boxes: &[Extent]) -> Result<(), OutOfMemory>
    ensures { OnOk result (cells.new.items ≡ cells.old.items ++ flat_map box_cells boxes.now) }
{
    for extent in boxes {
        add_box(cells, extent)?;
    }
    Ok(())
}

// The image that is this box of itself.
fn image_of(found: &Extent) -> Option<Shape>
    ensures some { IfSome result (λ whole. found.now ≡ image_extent whole) }
    ensures none { IfNone result ((whole : Shape) → found.now ≡ image_extent whole → ⊥) }
{
    if found.columns.from != 0 || found.rows.from != 0 {
        return None;
    }
    Shape::wide(found.columns.to, found.rows.to)
}

// The frame of an image that is this box.
fn frame_of(found: &Extent, whole: Shape) -> Option<Frame>
    ensures some { IfSome result (λ frame. (found.now ≡ frame_extent frame) × IsTrue (is_frame_of whole frame)) }
    ensures none { IfNone result ((frame : Frame) → IsTrue (is_frame_of whole frame) → found.now ≡ frame_extent frame → ⊥) }
{
    let Extent { columns, rows } = *found;
    if columns.to < columns.from || rows.to < rows.from {
        return None;
    }
    if columns.to > whole.width || rows.to > whole.height {
        return None;
    }
    match Shape::wide(columns.to - columns.from, rows.to - rows.from) {
        Some(shape) => Some(Frame {
            left: columns.from,
            top: rows.from,
            shape,
        }),
        None => None,
    }
}

/// The boxes of a tile.
#[derive(Drop)]
pub(crate) struct TileBoxes {
    pub whole: Shape,
    pub window: Frame,
    pub core: Frame,
    pub open: Vec<Extent>,
}

// An image, and the cells behind it.
#[derive(Clone, Copy)]
struct ImageAhead<'a> {
    whole: Shape,
    rest: &'a [i64],
}

fn split_image(cells: &[i64]) -> Option<ImageAhead<'_>>
    ensures some { IfSome result (λ ahead. cells.now ≡ box_cells (image_extent ahead.whole) ++ ahead.rest.now) }
    ensures none { IfNone result ((whole : Shape) (rest : List ℤ) → cells.now ≡ box_cells (image_extent whole) ++ rest → ⊥) }
{
    let Some(ahead) = split_box(cells) else {
        return None;
    };
    match image_of(&ahead.found) {
        Some(whole) => Some(ImageAhead {
            whole,
            rest: ahead.rest,
        }),
        None => None,
    }
}

// A frame, and the cells behind it.
#[derive(Clone, Copy)]
struct FrameAhead<'a> {
    frame: Frame,
    rest: &'a [i64],
}

fn split_frame(cells: &[i64], whole: Shape) -> Option<FrameAhead<'_>>
    ensures some { IfSome result (λ ahead. (cells.now ≡ box_cells (frame_extent ahead.frame) ++ ahead.rest.now) × IsTrue (is_frame_of whole ahead.frame)) }
    ensures none { IfNone result ((frame : Frame) (rest : List ℤ) → IsTrue (is_frame_of whole frame)
        → cells.now ≡ box_cells (frame_extent frame) ++ rest → ⊥) }
{
    let Some(ahead) = split_box(cells) else {
        return None;
    };
    match frame_of(&ahead.found, whole) {
        Some(frame) => Some(FrameAhead {
            frame,
            rest: ahead.rest,
        }),
        None => None,
    }
}

// The boxes with these cells.
fn boxes_of(alloc: Global, cells: &[i64]) -> Result<Option<Vec<Extent>>, OutOfMemory>
    ensures some { IfOk result (λ found. IfSome found (λ boxes. (cells.now ≡ flat_map box_cells boxes.items) × All HasEndsWithin boxes.items)) }
    ensures none { IfOk result (λ found. IfNone found ((boxes : List Extent) → All HasEndsWithin boxes → cells.now ≡ flat_map box_cells boxes → ⊥)) }
{
    let mut boxes = Vec::new(alloc);
    let mut rest = cells;
    while !rest.is_empty() {
        let Some(ahead) = split_box(rest) else {
            return Ok(None);
        };
        boxes.push(ahead.found)?;
        rest = ahead.rest;
    }
    Ok(Some(boxes))
}

/// The boxes of a tile with these cells.
pub(crate) fn tile_boxes(alloc: Global, cells: &[i64]) -> Result<Option<TileBoxes>, OutOfMemory>
    requires { length cells.now ≤ 4 * 2147483647 }
    ensures some { IfOk result (λ found. IfSome found (λ tile. (cells.now ≡ flat_map box_cells (tile_extents tile.whole tile.window tile.core tile.open.items))
        × AreTileBoxes tile.whole tile.window tile.core tile.open.items)) }
    ensures none { IfOk result (λ found. IfNone found ((whole : Shape) (window core : Frame) (boxes : List Extent) → AreTileBoxes whole window core boxes
        → cells.now ≡ flat_map box_cells (tile_extents whole window core boxes) → ⊥)) }
{
    let Some(image) = split_image(cells) else {
        return Ok(None);
    };
    let Some(window) = split_frame(image.rest, image.whole) else {
        return Ok(None);
    };
    let Some(core) = split_frame(window.rest, image.whole) else {
        return Ok(None);
    };
    let Some(open) = boxes_of(alloc, core.rest)? else {
        return Ok(None);
    };
    Ok(Some(TileBoxes {
        whole: image.whole,
        window: window.frame,
        core: core.frame,
        open,
    }))
}
