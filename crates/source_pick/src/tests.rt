//! Small planes with their sources, maps and rows, and what is left of a sky.

ghost use Rattle.std.specs.Prelude.{◌<◌, ◌≤◌, ◌^◌, length};
ghost use Rattle.node_sums.specs.Sums.{AreSumsOfNode, AreSumsOfNodes};
ghost use Rattle.node_sums.specs.DisjointNodes.{AreDisjointNodes};

use super::*;
use comp_tree::{Connect, Plane, Shape, Tree, plain_tree};
use fits_write::CELLS_IN_ROW;
use node_sums::Sums;
use std::alloc::Global;
use std::process::Abort;
use std::test::Fail;
use std::thread::Threads;

#[derive(Drop)]
struct Case<'a> {
    width: u32,
    height: u32,
    // 0 stands for an undefined pixel
    values: &'a [i64],
    threshold: i64,
    contrast: u32,
    // the nodes of the sources, the number of each pixel, and the row of each source
    nodes: &'a [u32],
    map: &'a [u32],
    rows: &'a [[i64; CELLS_IN_ROW]],
}

// A plane of these values, of which 0 stands for an undefined pixel.
fn plane_of(alloc: Global, width: u32, height: u32, values: &[i64]) -> Result<Plane, Fail> {
    let shape = Shape::of(width, height).ok_or("a shape")?;
    let mut pixels = Vec::new(alloc);
    for value in values {
        pixels.push(if *value == 0 { None } else { Some(*value) })?;
    }
    Ok(Plane::of(alloc, shape, &pixels)?.ok_or("a plane of these values")?)
}

// The numbers of a source's row.
fn numbers_of(tree: &Tree, sums: &Sums, number: u32, n: u32) -> [i64; CELLS_IN_ROW]
    requires sums { AreSumsOfNode tree.now n sums.now }
    requires node { n < length tree.now.rows }
    requires from_one { 1 ≤ number }
    requires few { number ≤ 2147483647 }
{
    cells(&row(tree, sums, number, n))
}

// Looks at the sources of a case, the map and the rows.
fn try_case<R: Threads + Sync + Abort>(
    rt: &R,
    alloc: Global,
    parts: u32,
    case: &Case,
) -> Result<(), Fail> {
    let plane = plane_of(alloc, case.width, case.height, case.values)?;
    let tree = plain_tree(alloc, &plane, Connect::Four)?;
    assert!(rt; case.contrast <= 1000);
    let choice = Choice {
        threshold: case.threshold,
        min_area: 1,
        min_flux: 0,
        contrast: case.contrast,
    };
    let picked = pick(alloc, &plane, &tree, &choice)?;
    assert_eq!(rt; picked.nodes.as_slice(), case.nodes);
    try_rows(rt, &tree, &picked.sums, &picked.nodes, case.rows);
    try_maps(rt, alloc, parts, &tree, &picked.nodes, case.map)
}

// Looks at the map, made in one piece and in parts.
fn try_maps<R: Threads + Sync + Abort>(
    rt: &R,
    alloc: Global,
    parts: u32,
    tree: &Tree,
    picked: &[u32],
    wanted: &[u32],
) -> Result<(), Fail>
    requires { AreDisjointNodes tree.now picked.now }
{
    let map = segment(alloc, tree, picked)?;
    assert_eq!(rt; map.as_slice(), wanted);
    let in_parts = segment_in_parts(rt, alloc, tree, picked, parts)?;
    assert_eq!(rt; in_parts.as_slice(), wanted);
    Ok(())
}

// Looks at the rows of the sources.
fn try_rows<R: Abort>(
    rt: &R,
    tree: &Tree,
    sums: &[Sums],
    picked: &[u32],
    rows: &[[i64; CELLS_IN_ROW]],
)
    requires { AreSumsOfNodes tree.now picked.now sums.now }
{
    let count = picked.len();
    assert_eq!(rt; count, rows.len());
    assert!(rt; count < 9);
    for i in 0..count {
        let n = picked[i];
        assert!(rt; (n as usize) < tree.rows().len());
        let row = numbers_of(tree, &sums[i], i as u32 + 1, n);
        assert_eq!(rt; row, rows[i], "row {i}");
    }
}

// Two parts with 400 and 300 thousandths of the whole flux.
#[test]
fn two_parts_of_300_thousandths(rt: HostRuntime) -> Result<(), Fail> {
    let case = Case {
        width: 5,
        height: 1,
        values: &[1, 6, 2, 5, 1],
        threshold: 2,
        contrast: 300,
        nodes: &[3, 2],
        map: &[0, 1, 0, 2, 0],
        rows: &[
            [1, 6, 2, 1, 4, 6, 2, 2, 1, 1, 2, 1, 2000, 1000, 0, 0, 0],
            [2, 5, 2, 1, 3, 5, 4, 4, 1, 1, 4, 1, 4000, 1000, 0, 0, 0],
        ],
    };
    try_case(&rt, rt.alloc(), 0, &case)
}

#[test]
fn a_part_below_its_contrast(rt: HostRuntime) -> Result<(), Fail> {
    let case = Case {
        width: 5,
        height: 1,
        values: &[1, 6, 2, 5, 1],
        threshold: 2,
        contrast: 301,
        nodes: &[1],
        map: &[0, 1, 1, 1, 0],
        rows: &[[1, 2, 1, 3, 10, 6, 2, 4, 1, 1, 2, 1, 2900, 1000, 666, 0, 0]],
    };
    try_case(&rt, rt.alloc(), 1, &case)
}

#[test]
fn contrast_of_the_whole(rt: HostRuntime) -> Result<(), Fail> {
    let case = Case {
        width: 5,
        height: 1,
        values: &[1, 6, 2, 5, 1],
        threshold: 2,
        contrast: 1000,
        nodes: &[1],
        map: &[0, 1, 1, 1, 0],
        rows: &[[1, 2, 1, 3, 10, 6, 2, 4, 1, 1, 2, 1, 2900, 1000, 666, 0, 0]],
    };
    try_case(&rt, rt.alloc(), 2, &case)
}

// A split, and an entry by itself: numbers follow the least pixels, and not the nodes.
#[test]
fn numbers_follow_the_least_pixels(rt: HostRuntime) -> Result<(), Fail> {
    let case = Case {
        width: 3,
        height: 2,
        values: &[61, 233, 156, 237, 12, 219],
        threshold: 128,
        contrast: 5,
        nodes: &[4, 5, 3],
        map: &[0, 1, 0, 2, 0, 3],
        rows: &[
            [
                1, 233, 156, 1, 77, 233, 2, 2, 1, 1, 2, 1, 2000, 1000, 0, 0, 0,
            ],
            [
                2, 237, 61, 1, 176, 237, 1, 1, 2, 2, 1, 2, 1000, 2000, 0, 0, 0,
            ],
            [
                3, 219, 156, 1, 63, 219, 3, 3, 2, 2, 3, 2, 3000, 2000, 0, 0, 0,
            ],
        ],
    };
    try_case(&rt, rt.alloc(), 0, &case)
}

// The least pixel of the split is in neither part.
#[test]
fn least_pixel_in_neither_part(rt: HostRuntime) -> Result<(), Fail> {
    let case = Case {
        width: 4,
        height: 1,
        values: &[2, 6, 2, 5],
        threshold: 2,
        contrast: 300,
        nodes: &[2, 1],
        map: &[0, 1, 0, 2],
        rows: &[
            [1, 6, 2, 1, 4, 6, 2, 2, 1, 1, 2, 1, 2000, 1000, 0, 0, 0],
            [2, 5, 2, 1, 3, 5, 4, 4, 1, 1, 4, 1, 4000, 1000, 0, 0, 0],
        ],
    };
    try_case(&rt, rt.alloc(), 1, &case)
}

// Two parts that are strong beside what lies around them, and too weak beside the whole.
#[test]
fn parts_too_weak_beside_the_whole(rt: HostRuntime) -> Result<(), Fail> {
    let case = Case {
        width: 5,
        height: 1,
        values: &[90, 2, 6, 3, 5],
        threshold: 2,
        contrast: 200,
        nodes: &[0],
        map: &[1, 1, 1, 1, 1],
        rows: &[[1, 2, 2, 5, 96, 90, 1, 5, 1, 1, 1, 1, 1239, 1000, 2000, 0, 0]],
    };
    try_case(&rt, rt.alloc(), 2, &case)
}

// A flat root has no flux; its covariance is negative, and not a whole number of thousandths.
#[test]
fn flat_root_without_flux(rt: HostRuntime) -> Result<(), Fail> {
    let case = Case {
        width: 2,
        height: 2,
        values: &[5, 5, 5, 0],
        threshold: 5,
        contrast: 0,
        nodes: &[0],
        map: &[1, 1, 1, 0],
        rows: &[[
            1, 5, 5, 3, 0, 5, 1, 2, 1, 2, 1, 1, 1333, 1333, 222, 222, -112,
        ]],
    };
    try_case(&rt, rt.alloc(), 0, &case)
}

// A plane, and in the next test its window from the second column and row on: the source and its neighbours lie in
// it, so its row is the same but for the places, which are moved by one, and the centre by 1000.
#[test]
fn source_of_a_plane(rt: HostRuntime) -> Result<(), Fail> {
    let case = Case {
        width: 4,
        height: 4,
        values: &[2, 2, 2, 2, 2, 2, 2, 2, 2, 2, 7, 9, 2, 2, 6, 2],
        threshold: 5,
        contrast: 1000,
        nodes: &[1],
        map: &[0, 0, 0, 0, 0, 0, 0, 0, 0, 0, 1, 1, 0, 0, 1, 0],
        rows: &[[
            1, 6, 2, 3, 16, 9, 3, 4, 3, 4, 3, 3, 3437, 3250, 222, 222, -112,
        ]],
    };
    try_case(&rt, rt.alloc(), 1, &case)
}

#[test]
fn source_of_its_window(rt: HostRuntime) -> Result<(), Fail> {
    let case = Case {
        width: 3,
        height: 3,
        values: &[2, 2, 2, 2, 7, 9, 2, 6, 2],
        threshold: 5,
        contrast: 1000,
        nodes: &[1],
        map: &[0, 0, 0, 0, 1, 1, 0, 1, 0],
        rows: &[[
            1, 6, 2, 3, 16, 9, 2, 3, 2, 3, 2, 2, 2437, 2250, 222, 222, -112,
        ]],
    };
    try_case(&rt, rt.alloc(), 2, &case)
}

// A plane with two groups of high pixels, and in the next test a sheet that has both with all that is beside them, the
// second one first: the rows are the same but for the places, which are moved, and the numbers.
#[test]
fn sources_of_two_groups(rt: HostRuntime) -> Result<(), Fail> {
    let case = Case {
        width: 8,
        height: 1,
        values: &[2, 7, 2, 2, 2, 2, 9, 8],
        threshold: 5,
        contrast: 1000,
        nodes: &[1, 2],
        map: &[0, 1, 0, 0, 0, 0, 2, 2],
        rows: &[
            [1, 7, 2, 1, 5, 7, 2, 2, 1, 1, 2, 1, 2000, 1000, 0, 0, 0],
            [2, 8, 2, 2, 13, 9, 7, 8, 1, 1, 7, 1, 7461, 1000, 250, 0, 0],
        ],
    };
    try_case(&rt, rt.alloc(), 1, &case)
}

#[test]
fn sources_of_their_sheet(rt: HostRuntime) -> Result<(), Fail> {
    let case = Case {
        width: 7,
        height: 1,
        values: &[2, 9, 8, 0, 2, 7, 2],
        threshold: 5,
        contrast: 1000,
        nodes: &[3, 2],
        map: &[0, 1, 1, 0, 0, 2, 0],
        rows: &[
            [1, 8, 2, 2, 13, 9, 2, 3, 1, 1, 2, 1, 2461, 1000, 250, 0, 0],
            [2, 7, 2, 1, 5, 7, 6, 6, 1, 1, 6, 1, 6000, 1000, 0, 0, 0],
        ],
    };
    try_case(&rt, rt.alloc(), 2, &case)
}

#[derive(Drop)]
struct Sky<'a> {
    connect: Connect,
    threshold: i64,
    parts: u32,
    // of a plane of 5 by 4 pixels: 0 stands for an undefined one
    left: &'a [i64],
}

#[rattlefmt::skip]
const SKY: [i64; 20] = [1, 2, 3, 0, 5, 2, 0, 9, 4, 5, 3, 4, 5, 6, 5, 0, 2, 3, 4, 8];

// Looks at what is left of the sky.
fn try_sky<R: Threads + Sync + Abort>(rt: &R, alloc: Global, sky: &Sky) -> Result<(), Fail> {
    let mut plane = plane_of(alloc, 5, 4, &SKY)?;
    let beside = near(rt, alloc, &plane, sky.connect, sky.threshold, sky.parts)?;
    try_left(rt, &beside, sky.left);
    clear_far(rt, alloc, &mut plane, sky.connect, sky.threshold, sky.parts)?;
    try_left(rt, &plane, sky.left);
    Ok(())
}

fn try_left<R: Abort>(rt: &R, plane: &Plane, left: &[i64]) {
    for (p, value) in left.iter().enumerate() {
        assert!(rt; p < plane.shape().pixels() as usize);
        assert_eq!(rt; plane.get(p as u32).unwrap_or(0), *value, "pixel {p}");
    }
}

// No parts are one.
#[test]
fn sky_in_no_parts(rt: HostRuntime) -> Result<(), Fail> {
    let sky = Sky {
        connect: Connect::Four,
        threshold: 8,
        parts: 0,
        left: &[0, 0, 3, 0, 0, 0, 0, 9, 4, 0, 0, 0, 5, 0, 5, 0, 0, 0, 4, 8],
    };
    try_sky(&rt, rt.alloc(), &sky)
}

#[test]
fn diagonal_neighbours_are_left(rt: HostRuntime) -> Result<(), Fail> {
    let sky = Sky {
        connect: Connect::Eight,
        threshold: 8,
        parts: 3,
        left: &[0, 2, 3, 0, 0, 0, 0, 9, 4, 0, 0, 4, 5, 6, 5, 0, 0, 0, 4, 8],
    };
    try_sky(&rt, rt.alloc(), &sky)
}

// There are more parts than rows.
#[test]
fn all_is_left_above_a_low_threshold(rt: HostRuntime) -> Result<(), Fail> {
    let sky = Sky {
        connect: Connect::Four,
        threshold: 1,
        parts: 9,
        left: &SKY,
    };
    try_sky(&rt, rt.alloc(), &sky)
}

#[test]
fn nothing_is_left_below_a_high_threshold(rt: HostRuntime) -> Result<(), Fail> {
    let sky = Sky {
        connect: Connect::Eight,
        threshold: 10,
        parts: 2,
        left: &[0; 20],
    };
    try_sky(&rt, rt.alloc(), &sky)
}
