//! Small planes with their nodes measured in a second one, and a row with its further columns.

ghost use Rattle.std.specs.Prelude.{◌≡◌, IfOk};

use super::*;
use comp_tree::{Connect, Plane, Shape, plain_tree};
use fits_write::CELLS_IN_ROW;
use source_pick::{CatRow, Choice, cells, pick, row};
use std::alloc::Global;
use std::test::Fail;

// 99 stands for an undefined pixel
type Row = [i64; 5];

#[derive(Drop)]
struct Case<'a> {
    pixels: Row,
    values: Row,
    // each node's measure and back
    nodes: &'a [(Measure, i64)],
}

fn measure(seen: u32, missing: u32, v: i64, low: i64, peak: i64) -> Measure {
    Measure {
        seen,
        missing,
        v,
        low,
        peak,
    }
}

// A plane of these values, of which 99 stands for an undefined pixel.
#[tactic(auto, unfolding(comp_tree::specs::Raster::raster_of))]
fn plane_of(alloc: Global, shape: Shape, values: &[i64]) -> Result<Plane, Fail>
    ensures { IfOk result (λ plane. plane.shape ≡ shape) }
{
    let mut pixels = Vec::new(alloc);
    for value in values {
        pixels.push(if *value == 99 { None } else { Some(*value) })?;
    }
    match Plane::of(alloc, shape, &pixels)? {
        Some(plane) => Ok(plane),
        None => Err(Fail::from("a plane of these values")),
    }
}

#[test]
fn nodes_are_measured(rt: HostRuntime) -> Result<(), Fail> {
    let cases = [
        Case {
            pixels: [1, 6, 2, 5, 1],
            values: [10, 20, 99, 40, 7],
            nodes: &[
                (measure(4, 1, 77, 7, 40), 0),
                (measure(2, 1, 60, 20, 40), 8500),
                (measure(1, 0, 40, 40, 40), 20000),
                (measure(1, 0, 20, 20, 20), 40000),
            ],
        },
        Case {
            pixels: [10, 20, 99, 40, 7],
            values: [1, 6, 2, 5, 1],
            nodes: &[
                (measure(2, 0, 6, 1, 5), 0),
                (measure(2, 0, 7, 1, 6), 0),
                (measure(1, 0, 6, 6, 6), 1000),
                (measure(1, 0, 5, 5, 5), 1000),
            ],
        },
        Case {
            pixels: [1, 1, 1, 9, 1],
            values: [-1, 0, 0, 99, 0],
            nodes: &[
                (measure(4, 1, -1, -1, 0), 0),
                (measure(0, 1, 0, 0, 0), -250),
            ],
        },
        // no pixel is seen
        Case {
            pixels: [1, 1, 1, 9, 1],
            values: [99; 5],
            nodes: &[(measure(0, 5, 0, 0, 0), 0), (measure(0, 1, 0, 0, 0), 0)],
        },
    ];
    let shape = Shape::of(5, 1).ok_or("a shape")?;
    for (number, case) in cases.iter().enumerate() {
        let plane = plane_of(rt.alloc(), shape, &case.pixels)?;
        let values = plane_of(rt.alloc(), shape, &case.values)?;
        let tree = plain_tree(rt.alloc(), &plane, Connect::Four)?;
        assert!(rt; plane.shape() == shape);
        let found = measures(rt.alloc(), &values, &tree)?;
        let count = tree.rows().len();
        assert_eq!(rt; count, case.nodes.len(), "case {number}");
        assert!(rt; count < 9);
        for n in 0..count {
            assert!(rt; n < found.len());
            assert_eq!(rt;
                (found[n], back(&tree, &found, n as u32)),
                case.nodes[n],
                "node {n} of case {number}"
            );
        }
    }
    Ok(())
}

// The row of the only node of a plane of one pixel.
fn only_row(alloc: Global) -> Result<CatRow, Fail> {
    let shape = Shape::of(1, 1).ok_or("a shape")?;
    let plane = Plane::of(alloc, shape, &[Some(7)])?.ok_or("a plane")?;
    let tree = plain_tree(alloc, &plane, Connect::Four)?;
    let choice = Choice {
        threshold: 7,
        min_area: 1,
        min_flux: 0,
        contrast: 5,
    };
    let picked = pick(alloc, &plane, &tree, &choice)?;
    if picked.nodes.is_empty() || picked.sums.is_empty() {
        return Err(Fail::from("no source"));
    }
    Ok(row(&tree, &picked.sums[0], 1, picked.nodes[0]))
}

#[test]
fn a_row_gets_seven_columns(rt: HostRuntime) -> Result<(), Fail> {
    let row = only_row(rt.alloc())?;
    let measure = Measure {
        seen: 3,
        missing: 1,
        v: -1,
        low: -3,
        peak: 2,
    };
    let found = measured_cells(&row, &measure, 8500);
    assert_eq!(rt; &found[..CELLS_IN_ROW], cells(&row).as_slice());
    assert_eq!(rt;
        &found[CELLS_IN_ROW..],
        [3, 1, -1, -3, 2, -334, 8500].as_slice()
    );
    Ok(())
}
