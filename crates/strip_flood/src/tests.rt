//! Small strips: the last pixel of at least some value on the walk from a pixel.
ghost use Rattle.std.specs.Prelude.{◌≡◌, ◌<◌, false};
ghost use Rattle.strip_flood.specs.Jobs.{SuitsStrip};

use crate::StripJob;
use crate::by_order::rank_by_order;
use crate::levels::Ranking;
use comp_tree::{Connect, NONE, Plane, Shape};
use costs::Steps;
use std::alloc::Global;
use std::marker::Brand;
use std::process::Abort;
use std::sync::ledger::{Blank, Ledger};
use std::test::Fail;

#[derive(Drop)]
struct Case<'a> {
    width: u32,
    height: u32,
    connect: Connect,
    first_row: u32,
    end_row: u32,
    values: &'a [Option<i64>],
    // a pixel, a value, and the last pixel of at least this value on the walk from that pixel
    lasts: &'a [(u32, i64, u32)],
}

// The last pixel of at least this value on the walk from a pixel.
fn last(rt: &impl Abort, plane: &Plane, first: u32, links: &[u32], pixel: u32, value: i64) -> u32 {
    let mut at = pixel;
    for _ in 0..links.len() {
        assert!(rt; first <= at && ((at - first) as usize) < links.len());
        let next = links[(at - first) as usize];
        if next >= plane.shape().pixels() || !plane.is_at_least(value, next) {
            return at;
        }
        at = next;
    }
    NONE
}

// A plane of these values.
fn plane_of(alloc: Global, width: u32, height: u32, values: &[Option<i64>]) -> Result<Plane, Fail> {
    let Some(shape) = Shape::of(width, height) else {
        return Err(Fail::from("a shape"));
    };
    let Some(plane) = Plane::of(alloc, shape, values)? else {
        return Err(Fail::from("a plane"));
    };
    Ok(plane)
}

// A flooded job still has the rows of its case.
fn try_job(rt: &impl Abort, job: &StripJob, case: &Case) {
    assert!(rt; job.is_flooded());
    assert_eq!(rt; job.first_row(), case.first_row);
    assert_eq!(rt; job.end_row(), case.end_row);
}

// Floods a job of the rows of a case.
fn flood_job<A: Ledger, B: Ledger>(
    rt: &impl Abort,
    job: &mut StripJob,
    plane: &Plane,
    case: &Case,
    queued: &mut Steps<A>,
    looked: &mut Steps<B>,
)
    requires fit { SuitsStrip job.old plane.now }
    requires unflooded { job.old.flooded ≡ false }
{
    assert!(rt; !job.is_flooded());
    job.flood(plane, queued, looked);
    try_job(rt, job, case);
}

// The links of a job, which are as many as it shows.
fn links_of(rt: &impl Abort, job: StripJob) -> Vec<u32> {
    let count = job.parents().len();
    let links = job.into_parents();
    assert_eq!(rt; links.len(), count);
    links
}

// The walks from these pixels end at the last pixels that are wanted.
fn try_lasts(rt: &impl Abort, plane: &Plane, first: u32, links: &[u32], lasts: &[(u32, i64, u32)]) {
    for (pixel, value, wanted) in lasts {
        assert_eq!(rt; last(rt, plane, first, links, *pixel, *value), *wanted);
    }
}

// Floods the rows of a case, and tries its walks.
fn try_rows<A: Ledger, B: Ledger>(
    rt: &impl Abort,
    alloc: Global,
    plane: &Plane,
    case: &Case,
    queued: &mut Steps<A>,
    looked: &mut Steps<B>,
) -> Result<(), Fail> {
    assert!(rt; case.first_row < case.end_row && case.end_row <= plane.shape().height);
    assert!(rt; plane.shape().pixels() <= 1 << 24);
    let first = case.first_row * plane.shape().width;
    let mut job = StripJob::prepare(alloc, plane, case.connect, case.first_row, case.end_row)?;
    flood_job(rt, &mut job, plane, case, queued, looked);
    let links = links_of(rt, job);
    try_lasts(rt, plane, first, &links, case.lasts);
    Ok(())
}

// Tries one case on a plane of its own.
fn try_case<A: Ledger, B: Ledger>(
    rt: &impl Abort,
    alloc: Global,
    case: &Case,
    queued: &mut Steps<A>,
    looked: &mut Steps<B>,
) -> Result<(), Fail> {
    let plane = plane_of(alloc, case.width, case.height, case.values)?;
    try_rows(rt, alloc, &plane, case, queued, looked)
}

// Tries one case after the other.
fn try_each<A: Ledger, B: Ledger>(
    rt: &impl Abort,
    alloc: Global,
    cases: &[Case],
    queued: &mut Steps<A>,
    looked: &mut Steps<B>,
) -> Result<(), Fail> {
    for case in cases {
        try_case(rt, alloc, case, queued, looked)?;
    }
    Ok(())
}

// Tries the cases, with counts that begin at 0.
fn try_cases<A: Ledger, B: Ledger>(
    rt: &impl Abort,
    alloc: Global,
    first: Blank,
    second: Blank,
    cases: &[Case],
) -> Result<(), Fail>
    requires first_name { first.name ≡ A.name }
    requires first_parts { first.parts ≡ A.parts }
    requires first_some { 0 < first.parts }
    requires second_name { second.name ≡ B.name }
    requires second_parts { second.parts ≡ B.parts }
    requires second_some { 0 < second.parts }
{
    let mut queued = Steps::<A>::start(first);
    let mut looked = Steps::<B>::start(second);
    try_each(rt, alloc, cases, &mut queued, &mut looked)
}

#[test]
fn a_strip_of_one_row(rt: HostRuntime) -> Result<(), Fail> {
    let case = Case {
        width: 3,
        height: 2,
        connect: Connect::Four,
        first_row: 1,
        end_row: 2,
        values: &[Some(1), Some(5), Some(1), Some(7), Some(1), Some(1)],
        lasts: &[(3, 1, 4), (4, 1, 4), (5, 1, 4)],
    };
    try_cases::<Brand, Brand>(&rt, rt.alloc(), Blank::new(1), Blank::new(1), &[case])
}

#[test]
fn small_images(rt: HostRuntime) -> Result<(), Fail> {
    let cases = [
        Case {
            width: 4,
            height: 3,
            connect: Connect::Four,
            first_row: 0,
            end_row: 3,
            values: &[
                Some(6),
                Some(6),
                Some(6),
                Some(6),
                Some(6),
                Some(6),
                Some(6),
                Some(6),
                Some(6),
                Some(6),
                Some(6),
                Some(6),
            ],
            lasts: &[(5, 6, 0), (11, 6, 0)],
        },
        Case {
            width: 5,
            height: 5,
            connect: Connect::Four,
            first_row: 0,
            end_row: 5,
            values: &[
                Some(3),
                Some(3),
                Some(3),
                Some(3),
                Some(3),
                Some(0),
                Some(0),
                Some(0),
                Some(0),
                Some(3),
                Some(3),
                Some(3),
                Some(3),
                Some(0),
                Some(3),
                Some(3),
                Some(0),
                Some(0),
                Some(0),
                Some(3),
                Some(3),
                Some(3),
                Some(3),
                Some(3),
                Some(3),
            ],
            lasts: &[(12, 3, 0), (12, 0, 5), (18, 0, 5)],
        },
        Case {
            width: 5,
            height: 5,
            connect: Connect::Four,
            first_row: 1,
            end_row: 5,
            values: &[
                Some(3),
                Some(3),
                Some(3),
                Some(3),
                Some(3),
                Some(0),
                Some(0),
                Some(0),
                Some(0),
                Some(3),
                Some(3),
                Some(3),
                Some(3),
                Some(0),
                Some(3),
                Some(3),
                Some(0),
                Some(0),
                Some(0),
                Some(3),
                Some(3),
                Some(3),
                Some(3),
                Some(3),
                Some(3),
            ],
            lasts: &[(12, 3, 9), (20, 0, 5)],
        },
        Case {
            width: 5,
            height: 3,
            connect: Connect::Four,
            first_row: 0,
            end_row: 3,
            values: &[
                Some(4),
                Some(0),
                Some(5),
                Some(0),
                Some(6),
                Some(4),
                Some(0),
                Some(5),
                Some(0),
                Some(6),
                Some(2),
                Some(2),
                Some(2),
                Some(2),
                Some(2),
            ],
            lasts: &[(5, 4, 0), (9, 6, 4), (4, 1, 10), (14, 2, 10), (7, 0, 1)],
        },
        Case {
            width: 5,
            height: 3,
            connect: Connect::Four,
            first_row: 0,
            end_row: 2,
            values: &[
                Some(4),
                Some(0),
                Some(5),
                Some(0),
                Some(6),
                Some(4),
                Some(0),
                Some(5),
                Some(0),
                Some(6),
                Some(2),
                Some(2),
                Some(2),
                Some(2),
                Some(2),
            ],
            lasts: &[(5, 1, 0), (9, 1, 4), (9, 0, 1)],
        },
        Case {
            width: 3,
            height: 3,
            connect: Connect::Eight,
            first_row: 0,
            end_row: 3,
            values: &[
                Some(9),
                None,
                Some(9),
                None,
                Some(3),
                None,
                Some(9),
                None,
                Some(9),
            ],
            lasts: &[(8, 9, 8), (8, 3, 4), (0, 1, 4)],
        },
        Case {
            width: 3,
            height: 3,
            connect: Connect::Four,
            first_row: 0,
            end_row: 3,
            values: &[
                Some(7),
                None,
                Some(7),
                None,
                Some(3),
                None,
                Some(7),
                None,
                Some(7),
            ],
            lasts: &[(8, 3, 8), (0, 0, 0)],
        },
        Case {
            width: 3,
            height: 3,
            connect: Connect::Four,
            first_row: 0,
            end_row: 3,
            values: &[
                Some(5),
                Some(0),
                Some(6),
                Some(5),
                Some(2),
                Some(6),
                Some(3),
                Some(3),
                Some(3),
            ],
            lasts: &[(3, 5, 0), (5, 3, 6), (2, 2, 4), (8, 1, 4), (4, 0, 1)],
        },
    ];
    try_cases::<Brand, Brand>(&rt, rt.alloc(), Blank::new(1), Blank::new(1), &cases)
}

#[test]
fn values_far_apart(rt: HostRuntime) -> Result<(), Fail> {
    let cases = [
        // the widest span of which a table is made, and the least of which none is
        Case {
            width: 2,
            height: 2,
            connect: Connect::Four,
            first_row: 0,
            end_row: 2,
            values: &[Some(0), Some(7), Some(3), Some(7)],
            lasts: &[(3, 7, 1), (3, 3, 2), (3, 0, 0), (2, 3, 2)],
        },
        Case {
            width: 2,
            height: 2,
            connect: Connect::Four,
            first_row: 0,
            end_row: 2,
            values: &[Some(0), Some(8), Some(3), Some(8)],
            lasts: &[(3, 8, 1), (3, 3, 2), (3, 0, 0), (2, 3, 2)],
        },
        Case {
            width: 3,
            height: 3,
            connect: Connect::Eight,
            first_row: 1,
            end_row: 3,
            values: &[
                Some(1),
                Some(2),
                Some(3),
                Some(9_000_000_000),
                None,
                Some(40),
                Some(40),
                Some(9_000_000_000),
                Some(5),
            ],
            lasts: &[(7, 41, 3), (7, 40, 5), (3, 6, 5), (5, 5, 8)],
        },
        // no value at all
        Case {
            width: 2,
            height: 1,
            connect: Connect::Four,
            first_row: 0,
            end_row: 1,
            values: &[None, None],
            lasts: &[(0, 0, 0), (1, 0, 1)],
        },
    ];
    try_cases::<Brand, Brand>(&rt, rt.alloc(), Blank::new(1), Blank::new(1), &cases)
}

// The values of four rows of five pixels, by a bit for each.
fn values_of(rows: &[u8; 4]) -> [Option<i64>; 20] {
    let mut values = [None; 20];
    for p in 0..20 {
        if rows[p / 5] >> (4 - p % 5) & 1 == 1 {
            values[p] = Some(1);
        }
    }
    values
}

// Small components, each of which comes apart, or is joined with another, where the pixels at some edge, or those at none, look in
// one direction too few or too many.
// Each has the connectivity, the rows, and some pixels with the last ones on the walks from them.
const IMAGES: &[(Connect, [u8; 4], &[(u32, i64, u32)])] = &[
    (
        Connect::Four,
        [0b01011, 0b01001, 0b01111, 0b00000],
        &[(3, 1, 1)],
    ),
    (
        Connect::Eight,
        [0b10110, 0b10001, 0b00101, 0b11001],
        &[(5, 1, 0), (14, 1, 2), (15, 1, 12)],
    ),
    (
        Connect::Eight,
        [0b01010, 0b10001, 0b10001, 0b01110],
        &[(3, 1, 1)],
    ),
    (
        Connect::Eight,
        [0b01001, 0b10010, 0b10000, 0b00000],
        &[(8, 1, 4)],
    ),
    (
        Connect::Eight,
        [0b00010, 0b10001, 0b10110, 0b01000],
        &[(5, 1, 3)],
    ),
    (
        Connect::Eight,
        [0b00000, 0b00000, 0b00000, 0b11000],
        &[(16, 1, 15)],
    ),
    (
        Connect::Eight,
        [0b10110, 0b10001, 0b01001, 0b00110],
        &[(2, 1, 0)],
    ),
    (
        Connect::Eight,
        [0b00001, 0b01001, 0b10001, 0b01110],
        &[(6, 1, 4)],
    ),
];

// The image of these rows has these last pixels.
fn try_image(
    rt: &impl Abort,
    alloc: Global,
    connect: Connect,
    rows: &[u8; 4],
    lasts: &[(u32, i64, u32)],
) -> Result<(), Fail> {
    let case = Case {
        width: 5,
        height: 4,
        connect,
        first_row: 0,
        end_row: 4,
        values: &values_of(rows),
        lasts,
    };
    try_cases::<Brand, Brand>(rt, alloc, Blank::new(1), Blank::new(1), &[case])
}

#[test]
fn looks_in_each_direction(rt: HostRuntime) -> Result<(), Fail> {
    for (connect, rows, lasts) in IMAGES {
        try_image(&rt, rt.alloc(), *connect, rows, lasts)?;
    }
    Ok(())
}

// These are the levels and the ranks that were found.
fn try_found(rt: &impl Abort, found: &Ranking, levels: &[i64], ranks: &[u32]) {
    assert_eq!(rt; &found.levels[..], levels);
    assert_eq!(rt; &found.ranks[..], ranks);
}

// Sorting gives the pixels from `first` up to `end` these levels and ranks.
fn try_sorting(
    rt: &impl Abort,
    alloc: Global,
    plane: &Plane,
    first: u32,
    end: u32,
    levels: &[i64],
    ranks: &[u32],
) -> Result<(), Fail> {
    assert!(rt; first <= end && end <= plane.shape().pixels());
    assert!(rt; end <= 1 << 24);
    let found = rank_by_order(alloc, plane, first, end)?;
    try_found(rt, &found, levels, ranks);
    Ok(())
}

const LEAST: i64 = -(1 << 37);

const MOST: i64 = 1 << 37;

// All pixels but the first, and an undefined one alone.
fn try_parts(rt: &impl Abort, alloc: Global, plane: &Plane) -> Result<(), Fail> {
    assert_eq!(rt; plane.shape().pixels(), 8);
    let ranks = [3, NONE, 1, 0, 3, 2, 1];
    try_sorting(rt, alloc, plane, 1, 8, &[LEAST, -1, 0, MOST], &ranks)?;
    try_sorting(rt, alloc, plane, 2, 3, &[], &[NONE])
}

#[test]
fn ranks_by_sorting(rt: HostRuntime) -> Result<(), Fail> {
    let values = [
        Some(7),
        Some(MOST),
        None,
        Some(-1),
        Some(LEAST),
        Some(MOST),
        Some(0),
        Some(-1),
    ];
    let plane = plane_of(rt.alloc(), 4, 2, &values)?;
    try_parts(&rt, rt.alloc(), &plane)
}
