//! Tiles of an image of one row.

ghost use Rattle.std.specs.Prelude.{◌^◌, IfOk, IfSome};
ghost use Rattle.comp_tree.specs.Limits.{IsWithin};
ghost use Rattle.comp_tree.specs.Raster.{HasValuesInHalfRange};

use super::*;
use comp_tree::{Plane, Shape};
use orders::{Order, read_order};
use source_pick::Choice;
use std::alloc::Global;
use std::test::Fail;
use std::thread::Threads;
use strip_crew::OpenGate;
use tile_join::{Frame, TileCatalogue};

const CHOICE: Choice = Choice {
    threshold: 3,
    min_area: 1,
    min_flux: 0,
    contrast: 0,
};

// Stands for a pixel without a value.
const U: i64 = 99;

// An image of one row, of these small values.
fn row_of(alloc: Global, values: &[i64]) -> Result<Plane, Fail>
    ensures { IfOk result (λ plane. HasValuesInHalfRange plane.values) }
{
    let Ok(width) = u32::try_from(values.len()) else {
        return Err(Fail::from("a width"));
    };
    let shape = Shape::of(width, 1).ok_or("a shape")?;
    let mut pixels = Vec::new(alloc);
    for value in values {
        let pixel = pixel_of(*value)?;
        pixels.push(pixel)?;
    }
    match Plane::of(alloc, shape, &pixels)? {
        Some(plane) => Ok(plane),
        None => Err(Fail::from("a plane of these values")),
    }
}

// A pixel of a small value, or of none.
fn pixel_of(value: i64) -> Result<Option<i64>, Fail>
    ensures { IfOk result (λ pixel. IfSome pixel (λ v. IsWithin (2 ^ 29) v)) }
{
    if value == U {
        return Ok(None);
    }
    if value < -U || value > U {
        return Err(Fail::from("a small value"));
    }
    Ok(Some(value))
}

// So many columns of the first row, from this one on.
fn columns(left: u32, count: u32) -> Result<Frame, Fail> {
    let shape = Shape::of(count, 1).ok_or("a shape")?;
    Ok(Frame {
        left,
        top: 0,
        shape,
    })
}

// What the window whose first pixel stands in column `left` of an image of eight tells for these columns.
fn tile_at<R: Threads + Sync>(
    rt: &R,
    alloc: Global,
    left: u32,
    values: &[i64],
    core: Frame,
) -> Result<Result<TileCatalogue, TileStop>, Fail> {
    tile_by(rt, alloc, left, values, core, &["tree"], None)
}

// The same with this order, and this number of the mesh's cells without a value.
fn tile_by<R: Threads + Sync>(
    rt: &R,
    alloc: Global,
    left: u32,
    values: &[i64],
    core: Frame,
    words: &[&str],
    empty: Option<i64>,
) -> Result<Result<TileCatalogue, TileStop>, Fail>
    requires { IfSome empty (λ v. IsWithin (2 ^ 29) v) }
{
    let place = TilePlace {
        whole: Shape::of(8, 1).ok_or("a shape")?,
        left,
        top: 0,
        core,
    };
    let image = row_of(alloc, values)?;
    let Ok(order) = read_order(words) else {
        return Err(Fail::from("an order"));
    };
    Ok(make_tile(rt, alloc, image, &order, empty, &CHOICE, &place, &OpenGate))
}

// Of the image 0 5 0 0 5 5 0 5, the columns from 2 on.
#[test]
fn a_window_tells_its_core(rt: HostRuntime) -> Result<(), Fail> {
    let tile = tile_at(&rt, rt.alloc(), 2, &[0, 0, 5, 5, 0, 5], columns(4, 4)?)?;
    let Ok(tile) = tile else {
        return Err(Fail::from("a tile"));
    };
    assert!(rt; tile.open.is_empty());
    assert_eq!(rt; tile.map.as_slice(), [0, 0, 1, 1, 0, 2].as_slice());
    let firsts = tile.rows.iter().map(|row| row.xfirst);
    assert!(rt; firsts.eq([5, 8]));
    Ok(())
}

// Its first pixel belongs to a component that may go on beyond the window.
#[test]
fn a_component_at_the_windows_edge_is_open(rt: HostRuntime) -> Result<(), Fail> {
    let tile = tile_at(&rt, rt.alloc(), 5, &[5, 0, 5], columns(5, 3)?)?;
    let Ok(tile) = tile else {
        return Err(Fail::from("a tile"));
    };
    assert!(rt; !tile.open.is_empty());
    Ok(())
}

// The background is smooth, and each pixel a cell: one of them has no value. That of its neighbours is 0 with a 0 there.
#[test]
fn an_empty_cell_is_known_by_its_number(rt: HostRuntime) -> Result<(), Fail> {
    let values = [0, 5, 0, U, 0, 9, 0, 0];
    let words = ["tree", "--mesh", "1"];
    let tile = tile_by(&rt, rt.alloc(), 0, &values, columns(0, 8)?, &words, None)?;
    let Ok(tile) = tile else {
        return Err(Fail::from("a tile"));
    };
    assert!(rt; !tile.open.is_empty());
    let tile = tile_by(&rt, rt.alloc(), 0, &values, columns(0, 8)?, &words, Some(0))?;
    let Ok(tile) = tile else {
        return Err(Fail::from("a tile"));
    };
    assert!(rt; tile.open.is_empty());
    assert_eq!(rt; tile.map.as_slice(), [0, 1, 0, 0, 0, 2, 0, 0].as_slice());
    Ok(())
}

#[test]
fn a_core_reaches_out_of_its_window(rt: HostRuntime) -> Result<(), Fail> {
    let tile = tile_at(&rt, rt.alloc(), 5, &[5, 0, 5], columns(4, 3)?)?;
    assert!(rt; matches!(tile, Err(TileStop::Misplaced)));
    Ok(())
}

// Of the second row of an image, in which there are stars in columns 4 and 7, counted from 0: what a window of the columns
// from 2 on tells for those from 3 to 6.
#[test]
fn a_row_is_moved_to_the_image(rt: HostRuntime) -> Result<(), Fail> {
    let alloc = rt.alloc();
    let core = Frame {
        left: 3,
        top: 1,
        shape: Shape::of(4, 1).ok_or("a shape")?,
    };
    let place = TilePlace {
        whole: Shape::of(8, 2).ok_or("a shape")?,
        left: 2,
        top: 1,
        core,
    };
    let image = row_of(alloc, &[0, 0, 5, 0, 0, 5])?;
    let Ok(order) = read_order(&["tree"]) else {
        return Err(Fail::from("an order"));
    };
    let Ok(tile) = make_tile(&rt, alloc, image, &order, None, &CHOICE, &place, &OpenGate) else {
        return Err(Fail::from("a tile"));
    };
    let centres = tile.rows.iter().map(|row| (row.xcen, row.ycen));
    assert!(rt; centres.eq([(5000, 2000)]));
    Ok(())
}

// The background is smooth, and each pixel a cell: in the window's first column it depends on a pixel that the window doesn't
// show.
#[test]
fn a_core_with_the_windows_first_column_is_open(rt: HostRuntime) -> Result<(), Fail> {
    let words = ["tree", "--mesh", "1"];
    let tile = tile_by(
        &rt,
        rt.alloc(),
        2,
        &[1, 2, 1, 2, 1, 2],
        columns(2, 4)?,
        &words,
        None,
    )?;
    let Ok(tile) = tile else {
        return Err(Fail::from("a tile"));
    };
    assert!(rt; !tile.open.is_empty());
    Ok(())
}
