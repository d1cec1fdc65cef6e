//! Tiles that are joined, and tiles that can't be.

use super::*;
use comp_tree::Shape;
use source_pick::CatRow;
use std::alloc::Global;
use std::test::Fail;
use tile_laws::{Extent, Interval};

// A row of this number with its one pixel in column `x` of the first row, counted from 1.
fn row_at(number: i64, x: i64) -> CatRow {
    CatRow {
        number,
        level: 5,
        base: 1,
        area: 1,
        flux: 4,
        peak: 5,
        xmin: x,
        xmax: x,
        ymin: 1,
        ymax: 1,
        xfirst: x,
        yfirst: 1,
        xcen: x.wrapping_mul(1000),
        ycen: 1000,
        xvar: 0,
        yvar: 0,
        xycov: 0,
    }
}

// So many columns of the first row, from this one on.
fn columns(left: u32, count: u32) -> Result<Frame, Fail> {
    let shape = Shape::of(count, 1).ok_or("a shape")?;
    Ok(Frame {
        left,
        top: 0,
        shape,
    })
}

// A tile of an image of one row: the window, the core, the rows and the numbers of the window's pixels.
fn tile_of(
    alloc: Global,
    whole: Shape,
    window: Frame,
    core: Frame,
    rows: &[CatRow],
    map: &[u32],
) -> Result<TileCatalogue, Fail> {
    let mut own_rows = Vec::new(alloc);
    own_rows.extend_from_slice(rows)?;
    let mut own_map = Vec::new(alloc);
    own_map.extend_from_slice(map)?;
    Ok(TileCatalogue {
        whole,
        window,
        core,
        open: Vec::new(alloc),
        rows: own_rows,
        map: own_map,
    })
}

// The image 0 5 0 0 5 5 0 5 in two windows, the second one first. Its sources have the first pixels 1, 4 and 7; the second
// window sees the columns from 2 on and answers for those from 5 on, and the first one answers for the others.
#[test]
fn two_windows_are_joined(rt: HostRuntime) -> Result<(), Fail> {
    let alloc = rt.alloc();
    let whole = Shape::of(8, 1).ok_or("a shape")?;
    let right = tile_of(
        alloc,
        whole,
        columns(2, 6)?,
        columns(5, 3)?,
        &[row_at(2, 8)],
        &[0, 0, 1, 1, 0, 2],
    )?;
    let left = tile_of(
        alloc,
        whole,
        columns(0, 7)?,
        columns(0, 5)?,
        &[row_at(1, 2), row_at(2, 5)],
        &[0, 1, 0, 0, 2, 2, 0],
    )?;
    let mut tiles = Vec::new(alloc);
    tiles.push(right)?;
    tiles.push(left)?;
    let Ok(joined) = join(alloc, whole, &tiles) else {
        return Err("joined".into());
    };
    assert_eq!(rt;
        joined.rows.as_slice(),
        [row_at(1, 2), row_at(2, 5), row_at(3, 8)].as_slice()
    );
    assert_eq!(rt; joined.map.as_slice(), [0, 1, 0, 0, 2, 2, 0, 3].as_slice());
    Ok(())
}

// A row of this number with its one pixel in column `x` of row `y`, counted from 1.
fn row_in(number: i64, x: i64, y: i64) -> CatRow {
    CatRow {
        ymin: y,
        ymax: y,
        yfirst: y,
        ycen: y.wrapping_mul(1000),
        ..row_at(number, x)
    }
}

// So many columns and rows, from the first pixel of this row on.
fn row_of(top: u32, width: u32, height: u32) -> Result<Frame, Fail> {
    let shape = Shape::of(width, height).ok_or("a shape")?;
    Ok(Frame {
        left: 0,
        top,
        shape,
    })
}

// Two columns and two rows, each row the core of a tile that sees both. The sources have the pixels 1 and 2, and the second
// tile names pixel 1 too: the number there is the first tile's.
#[test]
fn two_rows_are_joined(rt: HostRuntime) -> Result<(), Fail> {
    let alloc = rt.alloc();
    let whole = Shape::of(2, 2).ok_or("a shape")?;
    let all = row_of(0, 2, 2)?;
    let upper = tile_of(
        alloc,
        whole,
        all,
        row_of(0, 2, 1)?,
        &[row_in(1, 2, 1)],
        &[0, 1, 0, 0],
    )?;
    let lower = tile_of(
        alloc,
        whole,
        all,
        row_of(1, 2, 1)?,
        &[row_in(1, 1, 2)],
        &[0, 1, 1, 0],
    )?;
    let mut tiles = Vec::new(alloc);
    tiles.push(upper)?;
    tiles.push(lower)?;
    let Ok(joined) = join(alloc, whole, &tiles) else {
        return Err("joined".into());
    };
    assert_eq!(rt;
        joined.rows.as_slice(),
        [row_in(1, 2, 1), row_in(2, 1, 2)].as_slice()
    );
    assert_eq!(rt; joined.map.as_slice(), [0, 1, 2, 0].as_slice());
    Ok(())
}

// What is amiss with a tile alone, of an image of two columns; the pixel 9 where nothing is.
fn fault_of(alloc: Global, tile: TileCatalogue) -> Result<JoinFault, Fail> {
    let whole = Shape::of(2, 1).ok_or("a shape")?;
    let mut tiles = Vec::new(alloc);
    tiles.push(tile)?;
    match join(alloc, whole, &tiles) {
        Ok(_) => Ok(JoinFault::CoreGap { pixel: 9 }),
        Err(JoinStop::Refused(fault)) => Ok(fault),
        Err(JoinStop::NoMemory) => Err("memory".into()),
    }
}

// The window reaches out of the image; something is open; the core lacks a pixel; two rows have one first pixel.
#[test]
fn faults_are_told(rt: HostRuntime) -> Result<(), Fail> {
    let alloc = rt.alloc();
    let whole = Shape::of(2, 1).ok_or("a shape")?;
    let all = columns(0, 2)?;
    let rows = [row_at(1, 2), row_at(2, 2)];
    let out = tile_of(alloc, whole, columns(1, 2)?, all, &[], &[0, 0])?;
    assert_eq!(rt; fault_of(alloc, out)?, JoinFault::NotOfImage { tile: 0 });
    let mut open = tile_of(alloc, whole, all, all, &[], &[0, 0])?;
    open.open.push(Extent {
        columns: Interval { from: 0, to: 1 },
        rows: Interval { from: 0, to: 1 },
    })?;
    assert_eq!(rt;
        fault_of(alloc, open)?,
        JoinFault::OpenComponent { tile: 0 }
    );
    let gap = tile_of(alloc, whole, all, columns(0, 1)?, &[], &[0, 0])?;
    assert_eq!(rt; fault_of(alloc, gap)?, JoinFault::CoreGap { pixel: 1 });
    let twice = tile_of(alloc, whole, all, all, &rows, &[0, 1])?;
    assert_eq!(rt; fault_of(alloc, twice)?, JoinFault::SamePixel { pixel: 1 });
    Ok(())
}
