//! Boxes and components of a window, and the sources of two windows.

ghost use Rattle.std.specs.Prelude.{◌≡◌};
ghost use Rattle.comp_tree.specs.Windows.{IsInside};
ghost use Rattle.node_sums.specs.Outlines.{AreOutlinesOfTree};
ghost use Rattle.source_sheet.specs.Laid.{window_at};

use super::*;
use comp_tree::{Connect, Plane, Shape, Tree, plain_tree};
use node_sums::{Outline, outlines};
use source_pick::{CatRow, Choice, pick, row};
use std::alloc::Global;
use std::test::Fail;

// The columns from `left` up to `right` of the first row.
fn first_row(left: u32, right: u32) -> Extent
    ensures from { result.columns.from ≡ left }
    ensures to { result.columns.to ≡ right }
    ensures top { result.rows.from ≡ 0 }
    ensures bottom { result.rows.to ≡ 1 }
{
    Extent {
        columns: Interval {
            from: left,
            to: right,
        },
        rows: Interval { from: 0, to: 1 },
    }
}

#[test]
fn boxes_of_a_window(rt: HostRuntime) -> Result<(), Fail> {
    let whole = Shape::of(1000, 400).ok_or("a shape")?;
    let window = Shape::of(512, 256).ok_or("a shape")?;
    assert_eq!(rt; (whole.width, whole.height), (1000, 400));
    assert_eq!(rt; (window.width, window.height), (512, 256));
    // columns 128 to 640 and rows 0 to 256: a smooth background wants a cell and a half, but for the image's own edge
    let smooth = clear_extent(false, 64, whole, 128, 0, window);
    assert_eq!(rt; smooth.columns, Interval { from: 224, to: 544 });
    assert_eq!(rt; smooth.rows, Interval { from: 0, to: 160 });
    let flat = clear_extent(true, 64, whole, 128, 0, window);
    assert_eq!(rt; flat.columns, Interval { from: 128, to: 640 });
    let without = clear_extent(false, 0, whole, 488, 144, window);
    assert_eq!(rt;
        without.columns,
        Interval {
            from: 488,
            to: 1000
        }
    );
    // the last cell of the window is cut at column 612, and its last row is the image's
    let cut = clear_extent(true, 100, whole, 100, 144, window);
    assert_eq!(rt; cut.columns, Interval { from: 100, to: 600 });
    assert_eq!(rt; cut.rows, Interval { from: 144, to: 400 });
    Ok(())
}

#[test]
fn components_of_a_window(rt: HostRuntime) -> Result<(), Fail> {
    let whole = Shape::of(6, 1).ok_or("a shape")?;
    let window = Shape::of(4, 1).ok_or("a shape")?;
    assert_eq!(rt; (whole.width, whole.height), (6, 1));
    assert_eq!(rt; (window.width, window.height), (4, 1));
    let seen = clear_extent(false, 0, whole, 2, 0, window);
    assert!(rt; lies_deep(&first_row(4, 5), &seen, whole));
    assert!(rt; lies_deep(&first_row(3, 6), &seen, whole));
    assert!(rt; !lies_deep(&first_row(2, 4), &seen, whole));
    Ok(())
}

// The catalogue's row of source `number` of a plane of one row, which has six sources at most.
fn row_of(alloc: Global, width: u32, values: &[i64], number: u32) -> Result<CatRow, Fail> {
    let shape = Shape::of(width, 1).ok_or("a shape")?;
    let plane = plane_of(alloc, shape, values)?;
    let choice = Choice {
        threshold: 2,
        min_area: 1,
        min_flux: 0,
        contrast: 5,
    };
    let tree = plain_tree(alloc, &plane, Connect::Four)?;
    let picked = pick(alloc, &plane, &tree, &choice)?;
    let count = picked.nodes.len().min(picked.sums.len());
    if number == 0 || number > 6 || number as usize > count {
        return Err(Fail::from("no such source"));
    }
    let n = picked.nodes[number as usize - 1];
    if n as usize >= tree.rows().len() {
        return Err(Fail::from("no such node"));
    }
    Ok(row(&tree, &picked.sums[number as usize - 1], number, n))
}

// A plane of these values, of which 0 stands for an undefined pixel.
fn plane_of(alloc: Global, shape: Shape, values: &[i64]) -> Result<Plane, Fail> {
    let mut pixels = Vec::new(alloc);
    for value in values {
        pixels.push(if *value == 0 { None } else { Some(*value) })?;
    }
    Ok(Plane::of(alloc, shape, &pixels)?.ok_or("a plane of these values")?)
}

// One star in column 1 and one in column 4, counted from 0; the windows have columns 0 to 3, and 2 to 5.
#[test]
fn sources_of_two_windows(rt: HostRuntime) -> Result<(), Fail> {
    let whole = [1, 6, 1, 1, 5, 1];
    let left = row_of(rt.alloc(), 6, &whole, 1)?;
    assert_eq!(rt;
        (left.level, left.xmin, left.xfirst, left.xcen),
        (6, 2, 2, 2000)
    );
    assert_eq!(rt; row_of(rt.alloc(), 4, &whole[..4], 1)?, left);
    let right = row_of(rt.alloc(), 6, &whole, 2)?;
    assert_eq!(rt;
        (right.level, right.xmin, right.xfirst, right.xcen),
        (5, 5, 5, 5000)
    );
    // the same row, two columns further left, and with the number that it has in its window
    let seen = CatRow {
        number: 1,
        xmin: 3,
        xmax: 3,
        xfirst: 3,
        xcen: 3000,
        ..right
    };
    assert_eq!(rt; row_of(rt.alloc(), 4, &whole[2..], 1)?, seen);
    Ok(())
}

// How many boxes a window leaves open, for a core of the first row from column `left` on; 9 where memory was refused.
fn open_count(
    alloc: Global,
    tree: &Tree,
    found: &[Outline],
    place: &WindowPlace,
    left: u32,
    seen: &Extent,
) -> usize
    requires outlines { AreOutlinesOfTree tree.now found.now }
    requires inside { IsInside place.now.whole (window_at place.now.left place.now.top tree.now.shape) }
{
    let choice = Choice {
        threshold: 2,
        min_area: 1,
        min_flux: 0,
        contrast: 5,
    };
    match open_boxes(
        alloc,
        tree,
        found,
        &choice,
        place,
        &first_row(left, 6),
        seen,
    ) {
        Ok(boxes) => boxes.len(),
        Err(_) => 9,
    }
}

// Columns 2 to 5 of six. The star in column 5 ends at the image's edge; that in columns 2 and 3 may go on in column 1.
#[test]
fn open_nodes_of_a_window(rt: HostRuntime) -> Result<(), Fail> {
    let whole = Shape::of(6, 1).ok_or("a shape")?;
    let window = Shape::of(4, 1).ok_or("a shape")?;
    assert_eq!(rt; (whole.width, whole.height), (6, 1));
    assert_eq!(rt; (window.width, window.height), (4, 1));
    let plane = plane_of(rt.alloc(), window, &[5, 6, 1, 7])?;
    let tree = plain_tree(rt.alloc(), &plane, Connect::Four)?;
    let found = outlines(rt.alloc(), &plane, &tree)?;
    let place = WindowPlace {
        left: 2,
        top: 0,
        whole,
    };
    let shape = tree.shape();
    assert_eq!(rt; (shape.width, shape.height), (4, 1));
    let seen = clear_extent(false, 0, whole, 2, 0, window);
    // the star in columns 2 and 3 is open, once, though its brighter pixel is a node too
    assert_eq!(rt; open_count(rt.alloc(), &tree, &found, &place, 3, &seen), 1);
    assert_eq!(rt; open_count(rt.alloc(), &tree, &found, &place, 4, &seen), 0);
    Ok(())
}
