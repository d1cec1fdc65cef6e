//! Sources of small planes, measured in others.
ghost use Rattle.std.specs.Prelude.{◌≡◌, IfOk, IfSome};
ghost use Rattle.comp_tree.specs.Raster.{HasValuesInHalfRange};
ghost use Rattle.orders.specs.Words.{HasLimits};
ghost use Rattle.tree_products.specs.SmallValues.{IsSmall};

use crate::measuring::{measure_sources, put_measured};
use comp_tree::{Connect, Plane, Shape};
use costs::OutOfMemory;
use dev_io::MemSink;
use orders::{Job, Order};
use source_pick::Choice;
use std::alloc::Global;
use std::process::Abort;
use std::thread::Threads;
use strip_crew::OpenGate;

// 99 stands for an undefined pixel
type Row = [i64; 5];

#[derive(Clone, Copy, Drop)]
struct Case<'a> {
    pixels: Row,
    values: Row,
    map: &'a [u32],
    cells: &'a [i64],
    // how many bytes are written
    size: usize,
}

const CHOICE: Choice = Choice {
    threshold: 2,
    min_area: 1,
    min_flux: 0,
    contrast: 301,
};

const ORDER: Order = Order {
    job: Job::Detect { choice: CHOICE },
    hdu: 0,
    connect: Connect::Four,
    strips: 1,
    workers: 1,
    mesh: 0,
    flat: false,
};

fn pixel_of(value: i64) -> Option<i64>
    ensures { IfSome result IsSmall }
{
    if value > -99 && value < 99 {
        Some(value)
    } else {
        None
    }
}

// A plane of this shape with these pixels.
fn plane_of(alloc: Global, shape: Shape, row: Row) -> Result<Option<Plane>, OutOfMemory>
    ensures { IfOk result (λ made. IfSome made (λ plane. (plane.shape ≡ shape) ×
        HasValuesInHalfRange plane.values)) }
{
    let pixels = [
        pixel_of(row[0]),
        pixel_of(row[1]),
        pixel_of(row[2]),
        pixel_of(row[3]),
        pixel_of(row[4]),
    ];
    Plane::of(alloc, shape, &pixels)
}

fn compare<R: Threads + Sync + Abort>(rt: &R, alloc: Global, order: Order, case: Case)
    requires { HasLimits order }
{
    let shape = Shape::of(5, 1).expect(rt, "a shape");
    let image = plane_of(alloc, shape, case.pixels).expect(rt, "memory");
    let image = image.expect(rt, "a plane");
    let values = plane_of(alloc, shape, case.values).expect(rt, "memory");
    let values = values.expect(rt, "a plane");
    let found = measure_sources(rt, alloc, image, values, order, CHOICE, &OpenGate);
    let found = found.expect(rt, "memory");
    assert!(rt; found.shape == shape);
    assert_eq!(rt; found.map.as_slice(), case.map);
    assert_eq!(rt; found.cells.as_slice(), case.cells);
    let room = vec![in alloc; 0; 17_280].expect(rt, "memory");
    let mut output = MemSink::new(room, &[], 0);
    assert!(rt; put_measured(&mut output, &found).is_ok());
    assert_eq!(rt; output.bytes().len(), case.size);
}

#[test]
fn sources_are_measured(rt: HostRuntime) {
    let cases = [
        Case {
            pixels: [1, 6, 2, 5, 1],
            values: [10, 20, 99, 40, 7],
            map: &[0, 1, 1, 1, 0],
            cells: &[
                1, 2, 1, 3, 10, 6, 2, 4, 1, 1, 2, 1, 2900, 1000, 666, 0, 0, 2, 1, 60, 20, 40,
                30_000, 8500,
            ],
            size: 17_280,
        },
        Case {
            pixels: [10, 20, 99, 40, 7],
            values: [1, 6, 2, 5, 1],
            map: &[1, 1, 0, 2, 2],
            cells: &[
                1, 10, 10, 2, 10, 20, 1, 2, 1, 1, 1, 1, 2000, 1000, 250, 0, 0, 2, 0, 7, 1, 6, 3500,
                0, 2, 7, 7, 2, 33, 40, 4, 5, 1, 1, 4, 1, 4000, 1000, 250, 0, 0, 2, 0, 6, 1, 5,
                3000, 0,
            ],
            size: 17_280,
        },
    ];
    for case in cases {
        compare(&rt, rt.alloc(), ORDER, case);
    }
}

// The pixels around a source reach farther than its neighbours, and no farther than its parent. A catalogue without rows ends with its header.
#[test]
fn sources_without_values_and_no_source(rt: HostRuntime) {
    let cases = [
        Case {
            pixels: [1, 1, 1, 9, 1],
            values: [-1, 0, 0, 99, 0],
            map: &[0, 0, 0, 1, 0],
            cells: &[
                1, 9, 1, 1, 8, 9, 4, 4, 1, 1, 4, 1, 4000, 1000, 0, 0, 0, 0, 1, 0, 0, 0, 0, -250,
            ],
            size: 17_280,
        },
        Case {
            pixels: [0, 1, 1, 9, 99],
            values: [50, 7, 9, 3, 2],
            map: &[0, 0, 0, 1, 0],
            cells: &[
                1, 9, 1, 1, 8, 9, 4, 4, 1, 1, 4, 1, 4000, 1000, 0, 0, 0, 1, 0, 3, 3, 3, 3000, 8000,
            ],
            size: 17_280,
        },
        Case {
            pixels: [1, 1, 1, 1, 1],
            values: [1, 6, 2, 5, 1],
            map: &[0, 0, 0, 0, 0],
            cells: &[],
            size: 14_400,
        },
    ];
    for case in cases {
        compare(&rt, rt.alloc(), ORDER, case);
    }
}

// The residuals are -1 4 0 3 -1 and 0 10 - 30 -3: each plane is less its lower median.
#[test]
fn both_planes_lose_their_background(rt: HostRuntime) {
    let order = Order {
        mesh: 5,
        flat: true,
        ..ORDER
    };
    let case = Case {
        pixels: [1, 6, 2, 5, 1],
        values: [10, 20, 99, 40, 7],
        map: &[0, 1, 0, 2, 0],
        cells: &[
            1, 4, 0, 1, 4, 4, 2, 2, 1, 1, 2, 1, 2000, 1000, 0, 0, 0, 1, 0, 10, 10, 10, 10_000,
            30_000, 2, 3, 0, 1, 3, 3, 4, 4, 1, 1, 4, 1, 4000, 1000, 0, 0, 0, 1, 0, 30, 30, 30,
            30_000, 10_000,
        ],
        size: 17_280,
    };
    compare(&rt, rt.alloc(), order, case);
}
