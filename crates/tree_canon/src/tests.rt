//! Trees of small planes from forests that are given by hand. `canon` takes only a forest that stands for the adjacencies, so
//! each forest is first compared, link by link, with the tree that `plain_tree` makes.

ghost use Rattle.std.specs.Prelude.{◌≡◌, ◌<◌, length, IsTrue};
ghost use Rattle.comp_tree.specs.Components.{tree_of};
ghost use Rattle.tree_canon.specs.Fitting.{IsFit, AreFit};

use crate::bands::find_in_bands;
use crate::canon;
use comp_tree::{Connect, Forest, NONE, Plane, Shape, Tree, plain_tree};
use costs::OutOfMemory;
use std::alloc::Global;
use std::process::Abort;
use std::test::Fail;
use std::thread::Threads;

// Whether the link of a pixel leads to a smaller pixel of its node, or from the node's representative to the parent.
fn is_fit(plane: &Plane, connect: Connect, tree: &Tree, links: &[u32], p: u32) -> bool
    requires tree { tree.now ≡ tree_of plane.now connect }
    requires one_each { length links.now ≡ length plane.now.values }
    requires pixel { p < length plane.now.values }
    ensures { IsTrue result → IsFit plane.now connect links.now p }
{
    let shape = plane.shape();
    let node = tree.node_of()[p as usize];
    let link = links[p as usize];
    if node == NONE {
        return link == NONE;
    }
    let row = tree.rows()[node as usize];
    if link == NONE {
        return row.rep == p && row.parent == NONE;
    }
    if link >= shape.pixels() {
        return false;
    }
    let up = tree.node_of()[link as usize];
    if up == NONE {
        return false;
    }
    if up == node {
        return link < p;
    }
    row.rep == p && up == row.parent
}

fn are_fit(plane: &Plane, connect: Connect, tree: &Tree, links: &[u32]) -> bool
    requires tree { tree.now ≡ tree_of plane.now connect }
    requires one_each { length links.now ≡ length plane.now.values }
    ensures { IsTrue result → AreFit plane.now connect links.now (length plane.now.values) }
{
    for p in 0..plane.shape().pixels() {
        if !is_fit(plane, connect, tree, links, p) {
            return false;
        }
    }
    true
}

// The canonical pixels, found in bands of `size` pixels, and the tree by `canon` in `parts` bands at most, where the links fit.
fn found_from<R: Threads + Sync>(
    rt: &R,
    alloc: Global,
    plane: &Plane,
    connect: Connect,
    links: &[u32],
    size: usize,
    parts: u32,
) -> Result<Option<(Vec<u32>, Tree)>, OutOfMemory>
    requires { 0 < size }
{
    let tree = plain_tree(alloc, plane, connect)?;
    let shape = plane.shape();
    if links.len() != shape.pixels() as usize || !are_fit(plane, connect, &tree, links) {
        return Ok(None);
    }
    let mut parents = Vec::new(alloc);
    parents.extend_from_slice(links)?;
    let forest = Forest::of(parents);
    let pixels = find_in_bands(rt, alloc, plane, forest.parents(), size)?;
    let found = canon(rt, alloc, plane, &forest, parts)?;
    Ok(Some((pixels, found)))
}

#[derive(Drop)]
struct Case<'a> {
    width: u32,
    height: u32,
    connect: Connect,
    values: &'a [Option<i64>],
    links: &'a [u32],
    nodes: &'a [u32],
    rows: &'a [(i64, u32, u32)],
    node_of: &'a [u32],
}

#[test]
fn trees_from_links(rt: HostRuntime) {
    let cases = [
        Case {
            width: 3,
            height: 3,
            connect: Connect::Four,
            values: &[
                Some(5),
                Some(0),
                Some(6),
                Some(5),
                Some(2),
                Some(6),
                Some(3),
                Some(3),
                Some(3),
            ],
            links: &[8, NONE, 8, 0, 1, 2, 4, 6, 7],
            nodes: &[0, 1, 2, 4, 6],
            rows: &[(0, 1, NONE), (2, 4, 0), (3, 6, 1), (5, 0, 2), (6, 2, 2)],
            node_of: &[3, 0, 4, 3, 1, 4, 2, 2, 2],
        },
        Case {
            width: 3,
            height: 3,
            connect: Connect::Eight,
            values: &[
                Some(5),
                Some(0),
                Some(6),
                Some(5),
                Some(2),
                Some(6),
                Some(3),
                Some(3),
                Some(3),
            ],
            links: &[8, NONE, 8, 0, 1, 2, 4, 6, 7],
            nodes: &[0, 1, 2, 4, 6],
            rows: &[(0, 1, NONE), (2, 4, 0), (3, 6, 1), (5, 0, 2), (6, 2, 2)],
            node_of: &[3, 0, 4, 3, 1, 4, 2, 2, 2],
        },
        Case {
            width: 3,
            height: 2,
            connect: Connect::Four,
            values: &[Some(1), Some(5), Some(1), Some(7), Some(1), Some(1)],
            links: &[NONE, 0, 0, 2, 2, 4],
            nodes: &[0, 1, 3],
            rows: &[(1, 0, NONE), (5, 1, 0), (7, 3, 0)],
            node_of: &[0, 1, 0, 2, 0, 0],
        },
        Case {
            width: 3,
            height: 2,
            connect: Connect::Eight,
            values: &[Some(1), Some(5), Some(1), Some(7), Some(1), Some(1)],
            links: &[NONE, 0, 0, 1, 2, 4],
            nodes: &[0, 1, 3],
            rows: &[(1, 0, NONE), (5, 1, 0), (7, 3, 1)],
            node_of: &[0, 1, 0, 2, 0, 0],
        },
        Case {
            width: 3,
            height: 1,
            connect: Connect::Four,
            values: &[Some(5), None, Some(5)],
            links: &[NONE, NONE, NONE],
            nodes: &[0, 2],
            rows: &[(5, 0, NONE), (5, 2, NONE)],
            node_of: &[0, NONE, 1],
        },
        // levels that lie far apart
        Case {
            width: 3,
            height: 2,
            connect: Connect::Four,
            values: &[Some(90), Some(2), Some(90), Some(7), Some(2), Some(40)],
            links: &[3, NONE, 5, 1, 1, 1],
            nodes: &[0, 1, 2, 3, 5],
            rows: &[(2, 1, NONE), (7, 3, 0), (40, 5, 0), (90, 0, 1), (90, 2, 2)],
            node_of: &[3, 0, 4, 1, 0, 2],
        },
        Case {
            width: 2,
            height: 1,
            connect: Connect::Eight,
            values: &[None, None],
            links: &[NONE, NONE],
            nodes: &[],
            rows: &[],
            node_of: &[NONE, NONE],
        },
    ];
    for (number, case) in cases.iter().enumerate() {
        for size in 1..=4 {
            compare(&rt, rt.alloc(), number, case, size, size as u32);
        }
    }
}

// The canonical pixels in bands of `size` pixels, and the tree in `parts`, are those that are wanted.
fn compare<R: Threads + Sync + Abort>(
    rt: &R,
    alloc: Global,
    number: usize,
    case: &Case,
    size: usize,
    parts: u32,
)
    requires { 0 < size }
{
    let shape = Shape::of(case.width, case.height).expect(rt, "a shape");
    let plane = Plane::of(alloc, shape, case.values)
        .expect(rt, "memory")
        .expect(rt, "a plane");
    let found = found_from(rt, alloc, &plane, case.connect, case.links, size, parts);
    let (pixels, tree) = found.expect(rt, "memory").expect(rt, "links that fit");
    assert!(rt;
        pixels.as_slice() == case.nodes,
        "case {number}, bands of {size}"
    );
    assert_eq!(rt; tree.rows().len(), case.rows.len(), "case {number}");
    assert!(rt; tree.node_of() == case.node_of, "case {number}");
    for (row, wanted) in tree.rows().iter().zip(case.rows.iter()) {
        assert_eq!(rt; (row.level, row.rep, row.parent), *wanted, "case {number}");
    }
}

// A list of so many numbers, all `NONE` but for those at these places.
fn numbers_at(
    alloc: Global,
    count: usize,
    given: &[(usize, u32)],
) -> Result<Vec<u32>, OutOfMemory> {
    let mut numbers = vec![in alloc; NONE; count]?;
    for (place, number) in given {
        if *place < numbers.len() {
            numbers[*place] = *number;
        }
    }
    Ok(numbers)
}

// A list of so many pixels, of which those at these places have a value.
fn values_at(
    alloc: Global,
    count: usize,
    given: &[(usize, i64)],
) -> Result<Vec<Option<i64>>, OutOfMemory> {
    let mut values = vec![in alloc; None; count]?;
    for (place, value) in given {
        if *place < values.len() {
            values[*place] = Some(*value);
        }
    }
    Ok(values)
}

// A plane of three bands, each of 65,536 pixels but the last, which has three pixels fewer. One node has the last pixel of the first
// band and the first one of the second, and another the first one of the third.
#[test]
fn a_large_plane_has_three_bands(rt: HostRuntime) -> Result<(), Fail> {
    let alloc = rt.alloc();
    let values = values_at(
        alloc,
        196_605,
        &[(10, 5), (65_535, 7), (65_536, 7), (131_072, 5)],
    )?;
    let links = numbers_at(alloc, 196_605, &[(65_536, 65_535)])?;
    let node_of = numbers_at(
        alloc,
        196_605,
        &[(10, 0), (65_535, 2), (65_536, 2), (131_072, 1)],
    )?;
    let case = Case {
        width: 65_535,
        height: 3,
        connect: Connect::Four,
        values: &values,
        links: &links,
        nodes: &[10, 65_535, 131_072],
        rows: &[(5, 10, NONE), (5, 131_072, NONE), (7, 65_535, NONE)],
        node_of: &node_of,
    };
    compare(&rt, alloc, 0, &case, 100_000, 3);
    Ok(())
}
