//! Trees by strips beside the plain way, one worker alone, two at once, and two halves joined at once.

ghost use Rattle.std.specs.Prelude.{◌≡◌, ◌+◌, ◌<◌, ◌≤◌, length, replicate};
ghost use Rattle.std.specs.List.{range_with_len};
ghost use Rattle.tree_join.specs.Cuts.{IsCut};

use crate::component::least_strips;
use crate::prepare::prepare_all;
use crate::{
    ClaimTable, Gate, Key, OpenGate, component_tree, even_cut, flood_all, join_group, worker,
};
use atomic_table::Refused;
use comp_tree::{Connect, NONE, Plane, Shape, is_forest, plain_tree};
use costs::OutOfMemory;
use std::alloc::Global;
use std::process::Abort;
use std::snapshot::Snapshot;
use std::sync::atomic::Ordering::SeqCst;
use std::sync::atomic::{AtomicBool, AtomicU64};
use std::test::Fail;
use std::thread::Threads;

const TURNS: u32 = 100_000_000;

// An even cut has these first rows.
fn try_even<R: Abort>(
    rt: &R,
    alloc: Global,
    height: u32,
    strips: u32,
    rows: &[u32],
) -> Result<(), Fail>
    requires height { (0 < height) × (height ≤ 65535) }
    requires strips { (0 < strips) × (strips ≤ 65535) }
{
    assert_eq!(rt; even_cut(alloc, height, strips)?.as_slice(), rows);
    Ok(())
}

#[test]
fn even_cuts_round_down(rt: HostRuntime) -> Result<(), Fail> {
    try_even(&rt, rt.alloc(), 3, 2, &[0, 1])?;
    try_even(&rt, rt.alloc(), 5, 3, &[0, 1, 3])?;
    try_even(&rt, rt.alloc(), 3, 9, &[0, 1, 2])
}

// Whether a plane of this size is cut into so many strips at least.
fn has_least_strips(width: u32, height: u32, strips: u32) -> bool {
    match Shape::wide(width, height) {
        Some(shape) => least_strips(shape) == strips,
        None => false,
    }
}

// In 65,535 columns up to 256 rows have no more than 2^24 pixels.
#[test]
fn strips_of_large_planes_are_short(rt: HostRuntime) {
    assert!(rt; has_least_strips(65535, 256, 1));
    assert!(rt; has_least_strips(65535, 257, 2));
    assert!(rt; has_least_strips(65535, 32768, 128));
    assert!(rt; has_least_strips(4096, 4096, 1));
}

// The width of each plane, and its pixels row by row: digits are values, and a point is an undefined pixel.
const PLANES: [(u32, &[u8]); 20] = [
    (1, b"0"),
    (2, b".."),
    (5, b"12321"),
    (5, b"32123"),
    (1, b"31323"),
    (2, b"9009"),
    (2, b"5..5"),
    (3, b"151711"),
    (3, b"506526333"),
    (3, b"5.55.55.5"),
    (3, b"111191111"),
    (4, b"1111111111111111"),
    (4, b"1212212112122121"),
    (4, b"12341234.2341234"),
    (5, b"9999990009909099000999999"),
    (5, b"1111155551511151555111111"),
    (5, b"9090990909909099090999999"),
    (5, b"9.9.9.9.9.9.9.9.9.9.9.9.9"),
    (5, b"3333321112212122111233333"),
    (5, b"0123.1234.2345.3456.45678"),
];

fn plane_of(alloc: Global, width: u32, digits: &[u8]) -> Result<Plane, Fail> {
    let height = digits.len().min(25) as u32 / width.max(1);
    let shape = Shape::of(width, height).ok_or("a shape")?;
    let mut values = Vec::new(alloc);
    for digit in digits {
        values.push(if *digit == b'.' {
            None
        } else {
            Some(i64::from(*digit))
        })?;
    }
    Ok(Plane::of(alloc, shape, &values)?.ok_or("a plane")?)
}

// Whether the tree by so many strips and workers is the plain one.
fn has_plain_tree<R: Threads + Sync>(
    rt: &R,
    alloc: Global,
    plane: &Plane,
    connect: Connect,
    strips: u32,
    workers: u32,
) -> Result<bool, OutOfMemory>
    requires strips { (0 < strips) × (strips ≤ 65535) }
    requires workers { (0 < workers) × (workers ≤ 64) }
{
    let plain = plain_tree(alloc, plane, connect)?;
    let tree = component_tree(rt, alloc, plane, connect, strips, workers, &OpenGate)?;
    Ok(tree.rows() == plain.rows() && tree.node_of() == plain.node_of())
}

// Whether that is so for one worker, for fewer strips than workers and for more.
fn has_plain_trees<R: Threads + Sync>(
    rt: &R,
    alloc: Global,
    plane: &Plane,
    connect: Connect,
) -> Result<bool, OutOfMemory> {
    Ok(
        has_plain_tree(rt, alloc, plane, connect, 1, 1)?
            && has_plain_tree(rt, alloc, plane, connect, 2, 3)?
            && has_plain_tree(rt, alloc, plane, connect, 3, 1)?
            && has_plain_tree(rt, alloc, plane, connect, 9, 2)?,
    )
}

#[test]
fn every_cut_has_the_plain_tree(rt: HostRuntime) -> Result<(), Fail> {
    let alloc = rt.alloc();
    for (width, digits) in PLANES {
        let plane = plane_of(alloc, width, digits)?;
        for connect in [Connect::Four, Connect::Eight] {
            assert!(rt; has_plain_trees(&rt, alloc, &plane, connect)?);
        }
    }
    Ok(())
}

// A plane of 3 x 3 pixels: two hills on a plateau of their own, with a hollow between them.
fn two_hills(alloc: Global) -> Result<Plane, Fail> {
    plane_of(alloc, 3, b"506526333")
}

// What the claims of a table count to, where one worker makes them all.
fn claims_of_one_worker<R: Threads + Sync>(
    rt: &R,
    alloc: Global,
    plane: &Plane,
    cut: &[u32],
) -> Result<u64, Fail>
    requires { IsCut plane.now.shape.height cut.now }
{
    if plane.shape().pixels() > 1 << 24 {
        return Err("a large plane".into());
    }
    let jobs = prepare_all(rt, alloc, plane, Connect::Four, cut, 1)?;
    let mut rows = Vec::new(alloc);
    rows.extend_from_slice(cut)?;
    let key = Key {
        plane: Snapshot::of(plane),
        connect: Connect::Four,
        cut: rows,
        workers: 1,
    };
    let (table, seat) = match ClaimTable::new(alloc, &[0, 0], jobs, &key) {
        Ok(made) => made,
        Err(Refused { slots: _ }) => return Err("memory".into()),
    };
    worker(&table, seat, plane, &OpenGate);
    Ok(table.shared.peek(0))
}

#[test]
fn a_worker_claims_once_past_the_end(rt: HostRuntime) -> Result<(), Fail> {
    let plane = two_hills(rt.alloc())?;
    let cut = even_cut(rt.alloc(), plane.shape().height, 3)?;
    let claims = claims_of_one_worker(&rt, rt.alloc(), &plane, &cut)?;
    assert_eq!(rt; claims, 4);
    Ok(())
}

// Two numbers that wait for each other at the gate, but not forever.
#[derive(Drop)]
struct Meeting {
    one: u32,
    other: u32,
    first: AtomicBool,
    second: AtomicBool,
    first_saw: AtomicBool,
    second_saw: AtomicBool,
}

impl Meeting {
    fn of(one: u32, other: u32) -> Meeting {
        Meeting {
            one,
            other,
            first: AtomicBool::new(false),
            second: AtomicBool::new(false),
            first_saw: AtomicBool::new(false),
            second_saw: AtomicBool::new(false),
        }
    }

    fn met(&self) -> bool {
        self.first_saw.load(SeqCst) && self.second_saw.load(SeqCst)
    }
}

fn meet(mine: &AtomicBool, other: &AtomicBool, saw: &AtomicBool) {
    mine.store(true, SeqCst);
    for _ in 0..TURNS {
        if other.load(SeqCst) {
            saw.store(true, SeqCst);
            return;
        }
    }
}

impl Gate for Meeting {
    fn enter(&self, number: u32) {
        if number == self.one {
            meet(&self.first, &self.second, &self.first_saw);
        } else if number == self.other {
            meet(&self.second, &self.first, &self.second_saw);
        }
    }
}

// Floods the plane of 2 x 2 pixels in two strips, by two workers.
fn flood_blank<R: Threads + Sync, G: Gate>(rt: &R, alloc: Global, gate: &G) -> Result<(), Fail> {
    let plane = plane_of(alloc, 2, b"....")?;
    component_tree(rt, alloc, &plane, Connect::Four, 2, 2, gate)?;
    Ok(())
}

#[test]
fn two_workers_are_in_two_strips_at_once(rt: HostRuntime) -> Result<(), Fail> {
    let gate = Meeting::of(0, 1);
    flood_blank(&rt, rt.alloc(), &gate)?;
    assert!(rt; gate.met());
    Ok(())
}

// Counts the strips that come to the gate.
#[derive(Drop)]
struct Counter {
    entered: AtomicU64,
}

impl Counter {
    fn at_none() -> Counter {
        Counter {
            entered: AtomicU64::new(0),
        }
    }
}

impl Gate for Counter {
    fn enter(&self, _strip: u32) {
        self.entered.fetch_add(1, SeqCst);
    }
}

// How many of three strips come to the gate: all, where all memory was there, and else none.
fn wanted_strips(flooded: bool) -> u64 {
    if flooded { 3 } else { 0 }
}

// Whether the plane of two hills was flooded in three strips.
fn flood_hills<R: Threads + Sync, G: Gate>(rt: &R, alloc: Global, gate: &G) -> Result<bool, Fail> {
    let plane = two_hills(alloc)?;
    if plane.shape().pixels() > 1 << 24 {
        return Err("a large plane".into());
    }
    let cut = even_cut(alloc, plane.shape().height, 3)?;
    Ok(flood_all(rt, alloc, &plane, Connect::Four, &cut, 2, gate).is_ok())
}

// `tests/growths.py` runs this with each growth of memory refused in turn.
#[test]
fn no_strip_comes_to_the_gate_where_memory_is_refused(rt: HostRuntime) -> Result<(), Fail> {
    let gate = Counter::at_none();
    let flooded = flood_hills(&rt, rt.alloc(), &gate)?;
    assert_eq!(rt; gate.entered.load(SeqCst), wanted_strips(flooded));
    Ok(())
}

// Joins strips of one pixel each, which have no links yet.
fn join_pixels<R: Threads + Sync + Abort, J: Gate>(
    rt: &R,
    plane: &Plane,
    rows: &[u32],
    links: &mut [u32],
    skips: &mut [u32],
    forks: u32,
    joins: &J,
)
    requires rows { rows.now ≡ range_with_len 1 (length rows.now) }
    requires links { links.old ≡ replicate (length rows.now + 1) 4294967295 }
{
    let shape = plane.shape();
    assert!(rt; shape.width == 1);
    assert!(rt; shape.height as usize == links.len());
    assert!(rt; is_forest(plane, 0, links));
    join_group(
        rt,
        links,
        skips,
        plane,
        Connect::Four,
        0,
        rows,
        forks,
        joins,
    );
}

fn join_column<R: Threads + Sync + Abort, J: Gate>(
    rt: &R,
    alloc: Global,
    column: &[u8],
    rows: &[u32],
    links: &mut [u32],
    skips: &mut [u32],
    forks: u32,
    joins: &J,
) -> Result<(), Fail>
    requires rows { rows.now ≡ range_with_len 1 (length rows.now) }
    requires links { links.old ≡ replicate (length rows.now + 1) 4294967295 }
{
    let plane = plane_of(alloc, 1, column)?;
    join_pixels(rt, &plane, rows, links, skips, forks, joins);
    Ok(())
}

#[test]
fn two_halves_are_joined_at_once(rt: HostRuntime) -> Result<(), Fail> {
    let gate = Meeting::of(1, 3);
    let mut links = [NONE; 4];
    join_column(
        &rt,
        rt.alloc(),
        b"0123",
        &[1, 2, 3],
        &mut links,
        &mut [0; 4],
        1,
        &gate,
    )?;
    assert_eq!(rt; links, [NONE, 0, 1, 2]);
    assert!(rt; gate.met());
    Ok(())
}

#[test]
fn without_forks_all_rows_are_joined(rt: HostRuntime) -> Result<(), Fail> {
    let mut links = [NONE; 4];
    join_column(
        &rt,
        rt.alloc(),
        b"0123",
        &[1, 2, 3],
        &mut links,
        &mut [0; 4],
        0,
        &OpenGate,
    )?;
    assert_eq!(rt; links, [NONE, 0, 1, 2]);
    Ok(())
}

// The links of a column of three pixels, joined with so many places for skips, each of which held pixel 0 before.
fn links_over_old_skips<R: Threads + Sync + Abort>(
    rt: &R,
    alloc: Global,
    places: usize,
) -> Result<[u32; 3], Fail> {
    let mut links = [NONE; 3];
    let mut skips = [0; 5];
    join_column(
        rt,
        alloc,
        b"539",
        &[1, 2],
        &mut links,
        &mut skips[..places.min(5)],
        0,
        &OpenGate,
    )?;
    Ok(links)
}

#[test]
fn links_are_the_same_whatever_the_skips_were(rt: HostRuntime) -> Result<(), Fail> {
    for places in 0..6 {
        assert_eq!(rt;
            links_over_old_skips(&rt, rt.alloc(), places)?,
            [1, NONE, 1]
        );
    }
    Ok(())
}

// Counts the rows that are at the gate at one time, and notes when there are more than two.
#[derive(Drop)]
struct Crowd {
    inside: AtomicU64,
    more_than_two: AtomicBool,
}

impl Crowd {
    fn of_none() -> Crowd {
        Crowd {
            inside: AtomicU64::new(0),
            more_than_two: AtomicBool::new(false),
        }
    }
}

impl Gate for Crowd {
    fn enter(&self, _row: u32) {
        if self.inside.fetch_add(1, SeqCst) >= 2 {
            self.more_than_two.store(true, SeqCst);
        }
        for _ in 0..TURNS / 100 {
            self.inside.load(SeqCst);
        }
        self.inside.fetch_sub(1, SeqCst);
    }
}

#[test]
fn one_fork_makes_two_groups(rt: HostRuntime) -> Result<(), Fail> {
    let gate = Crowd::of_none();
    let mut links = [NONE; 8];
    join_column(
        &rt,
        rt.alloc(),
        b"01234567",
        &[1, 2, 3, 4, 5, 6, 7],
        &mut links,
        &mut [0; 8],
        1,
        &gate,
    )?;
    assert_eq!(rt; links, [NONE, 0, 1, 2, 3, 4, 5, 6]);
    assert!(rt; !gate.more_than_two.load(SeqCst));
    Ok(())
}
