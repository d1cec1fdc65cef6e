//! Small planes and what each rule leaves of them.

ghost use Rattle.std.specs.Prelude.{◌≤◌};

use super::*;
use comp_tree::{Connect, Plane, Shape, plain_tree};
use costs::OutOfMemory;
use node_sums::outlines;
use std::alloc::Global;
use std::test::Fail;

#[derive(Drop)]
struct Case<'a> {
    width: u32,
    height: u32,
    // 99 stands for an undefined pixel
    values: &'a [i64],
    rule: Rule,
    criterion: Criterion,
    filtered: &'a [i64],
}

// A plane of these values, of which 99 stands for an undefined pixel.
fn plane_of(alloc: Global, shape: Shape, values: &[i64]) -> Result<Plane, Fail> {
    let mut pixels = Vec::new(alloc);
    for value in values {
        pixels.push(if *value == 99 { None } else { Some(*value) })?;
    }
    Ok(Plane::of(alloc, shape, &pixels)?.ok_or("a plane of these values")?)
}

// What is left of this plane by its tree with four neighbours.
fn filtered(
    alloc: Global,
    plane: &Plane,
    rule: Rule,
    criterion: &Criterion,
) -> Result<Plane, OutOfMemory>
    requires { criterion.now.min_fill ≤ 1000 }
{
    let tree = plain_tree(alloc, plane, Connect::Four)?;
    let outlines = outlines(alloc, plane, &tree)?;
    filter(alloc, plane, &tree, outlines, rule, criterion)
}

// No node is refused for its area, flux or fill.
fn anything() -> Criterion {
    Criterion {
        min_area: 0,
        max_area: 1 << 24,
        min_flux: i64::MIN,
        min_fill: 0,
    }
}

#[test]
fn small_planes(rt: HostRuntime) -> Result<(), Fail> {
    let two_pixels = Criterion {
        min_area: 2,
        max_area: 2,
        min_flux: i64::MIN,
        min_fill: 0,
    };
    let three_quarters = Criterion {
        min_fill: 750,
        ..anything()
    };
    let more = Criterion {
        min_fill: 751,
        ..anything()
    };
    let one_pixel = Criterion {
        max_area: 1,
        ..anything()
    };
    let flux_of_four = Criterion {
        min_flux: 4,
        ..anything()
    };
    let cases = [
        Case {
            width: 5,
            height: 1,
            values: &[0, 1, 3, 2, 0],
            rule: Rule::Min,
            criterion: two_pixels,
            filtered: &[0, 0, 0, 0, 0],
        },
        Case {
            width: 5,
            height: 1,
            values: &[0, 1, 3, 2, 0],
            rule: Rule::Max,
            criterion: two_pixels,
            filtered: &[0, 1, 2, 2, 0],
        },
        Case {
            width: 5,
            height: 1,
            values: &[0, 1, 3, 2, 0],
            rule: Rule::Direct,
            criterion: two_pixels,
            filtered: &[0, 0, 2, 2, 0],
        },
        Case {
            width: 5,
            height: 1,
            values: &[0, 1, 3, 2, 0],
            rule: Rule::Subtractive,
            criterion: two_pixels,
            filtered: &[0, 0, 1, 1, 0],
        },
        Case {
            width: 2,
            height: 2,
            values: &[1, 1, 1, 0],
            rule: Rule::Direct,
            criterion: three_quarters,
            filtered: &[1, 1, 1, 0],
        },
        Case {
            width: 2,
            height: 2,
            values: &[1, 1, 1, 0],
            rule: Rule::Direct,
            criterion: more,
            filtered: &[0, 0, 0, 0],
        },
        // two roots, and an undefined pixel between them
        Case {
            width: 4,
            height: 1,
            values: &[-3, 5, 99, 7],
            rule: Rule::Min,
            criterion: two_pixels,
            filtered: &[-3, -3, 99, 7],
        },
        // a kept node keeps all nodes that contain it, and not its parent alone
        Case {
            width: 4,
            height: 1,
            values: &[0, 1, 2, 3],
            rule: Rule::Max,
            criterion: one_pixel,
            filtered: &[0, 1, 2, 3],
        },
        // two peaks with flux 4 and 3
        Case {
            width: 5,
            height: 1,
            values: &[1, 6, 2, 5, 1],
            rule: Rule::Direct,
            criterion: flux_of_four,
            filtered: &[1, 6, 2, 2, 1],
        },
    ];
    for (number, case) in cases.iter().enumerate() {
        let shape = Shape::of(case.width, case.height).ok_or("a shape")?;
        let plane = plane_of(rt.alloc(), shape, case.values)?;
        assert!(rt; case.criterion.min_fill <= 1000);
        let left = filtered(rt.alloc(), &plane, case.rule, &case.criterion)?;
        let count = left.shape().pixels();
        assert_eq!(rt; count as usize, case.filtered.len(), "case {number}");
        for p in 0..count {
            assert_eq!(rt;
                left.get(p).unwrap_or(99),
                case.filtered[p as usize],
                "pixel {p} of case {number}"
            );
        }
    }
    Ok(())
}
