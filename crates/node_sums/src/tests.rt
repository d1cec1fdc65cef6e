//! Small planes with their nodes, areas, sums and fluxes.

ghost use Rattle.std.specs.Prelude.{◌<◌, length};
ghost use Rattle.node_sums.specs.Outlines.{AreOutlinesOfTree};
ghost use Rattle.node_sums.specs.Sums.{IsTreeOfPlane};

use super::*;
use comp_tree::{Connect, Plane, Shape, Tree, plain_tree};
use std::alloc::Global;
use std::test::Fail;

#[derive(Drop)]
struct Case<'a> {
    width: u32,
    height: u32,
    connect: Connect,
    // 99 stands for an undefined pixel
    values: &'a [i64],
    // the level, the base and the flux of each node
    nodes: &'a [(i64, i64, i64)],
    areas: &'a [u32],
    // a node and its sums
    node: u32,
    sums: Sums,
}

// A plane of these values, of which 99 stands for an undefined pixel.
fn plane_of(alloc: Global, shape: Shape, values: &[i64]) -> Result<Plane, Fail> {
    let mut pixels = Vec::new(alloc);
    for value in values {
        pixels.push(if *value == 99 { None } else { Some(*value) })?;
    }
    Ok(Plane::of(alloc, shape, &pixels)?.ok_or("a plane of these values")?)
}

// The level, the base and the flux of a node.
fn measures(tree: &Tree, outlines: &[Outline], n: u32) -> (i64, i64, i64)
    requires node { n < length tree.now.rows }
    requires outlines { AreOutlinesOfTree tree.now outlines.now }
{
    (
        tree.rows()[n as usize].level,
        base(tree, n),
        flux_by_outlines(tree, outlines, n),
    )
}

// The sums of a node, and its flux by them.
fn sums_of_one(alloc: Global, plane: &Plane, tree: &Tree, n: u32) -> Result<(Sums, i64), Fail>
    requires tree { IsTreeOfPlane plane.now tree.now }
    requires node { n < length tree.now.rows }
{
    plane.shape();
    let found = sums_of_nodes(alloc, plane, tree, &[n])?;
    let sums = found[0];
    Ok((sums, flux(tree, &sums, n)))
}

#[test]
fn sums_and_fluxes_of_small_planes(rt: HostRuntime) -> Result<(), Fail> {
    let cases = [
        Case {
            width: 5,
            height: 1,
            connect: Connect::Four,
            values: &[1, 6, 2, 5, 1],
            nodes: &[(1, 1, 10), (2, 1, 10), (5, 2, 3), (6, 2, 4)],
            areas: &[5, 3, 1, 1],
            node: 1,
            sums: Sums {
                area: 3,
                r: 13,
                x: 9,
                y: 3,
                xx: 29,
                xy: 9,
                yy: 3,
                rx: 38,
                ry: 13,
                xmin: 2,
                xmax: 4,
                ymin: 1,
                ymax: 1,
                first: 1,
                peak: 6,
            },
        },
        Case {
            width: 2,
            height: 2,
            connect: Connect::Eight,
            values: &[3, -1, 99, 4],
            nodes: &[(-1, -1, 9), (3, -1, 9), (4, 3, 1)],
            areas: &[3, 2, 1],
            node: 0,
            sums: Sums {
                area: 3,
                r: 6,
                x: 5,
                y: 4,
                xx: 9,
                xy: 7,
                yy: 6,
                rx: 9,
                ry: 10,
                xmin: 1,
                xmax: 2,
                ymin: 1,
                ymax: 2,
                first: 0,
                peak: 4,
            },
        },
        // a root alone
        Case {
            width: 2,
            height: 1,
            connect: Connect::Four,
            values: &[5, 5],
            nodes: &[(5, 5, 0)],
            areas: &[2],
            node: 0,
            sums: Sums {
                area: 2,
                r: 10,
                x: 3,
                y: 2,
                xx: 5,
                xy: 3,
                yy: 2,
                rx: 15,
                ry: 10,
                xmin: 1,
                xmax: 2,
                ymin: 1,
                ymax: 1,
                first: 0,
                peak: 5,
            },
        },
    ];
    for (number, case) in cases.iter().enumerate() {
        let shape = Shape::of(case.width, case.height).ok_or("a shape")?;
        let plane = plane_of(rt.alloc(), shape, case.values)?;
        let tree = plain_tree(rt.alloc(), &plane, case.connect)?;
        let found = outlines(rt.alloc(), &plane, &tree)?;
        let areas = areas(rt.alloc(), &plane, &tree)?;
        let count = tree.rows().len();
        assert_eq!(rt; count, case.nodes.len(), "case {number}");
        assert!(rt; count < 9);
        for n in 0..count {
            let found = measures(&tree, &found, n as u32);
            assert_eq!(rt; found, case.nodes[n], "node {n} of case {number}");
        }
        assert!(rt; case.node < tree.node_count());
        let one = sums_of_one(rt.alloc(), &plane, &tree, case.node)?;
        assert!(rt; one.0 == case.sums, "sums of case {number}");
        assert!(rt;
            one.1 == case.nodes[case.node as usize].2,
            "flux of case {number}"
        );
        assert!(rt; areas.as_slice() == case.areas, "areas of case {number}");
    }
    Ok(())
}

#[test]
fn outlines_of_a_small_plane(rt: HostRuntime) -> Result<(), Fail> {
    let shape = Shape::of(2, 2).ok_or("a shape")?;
    let plane = plane_of(rt.alloc(), shape, &[3, -1, 99, 4])?;
    let tree = plain_tree(rt.alloc(), &plane, Connect::Eight)?;
    let found = outlines(rt.alloc(), &plane, &tree)?;
    let expected = [
        Outline {
            area: 3,
            r: 6,
            xmin: 1,
            xmax: 2,
            ymin: 1,
            ymax: 2,
        },
        Outline {
            area: 2,
            r: 7,
            xmin: 1,
            xmax: 2,
            ymin: 1,
            ymax: 2,
        },
        Outline {
            area: 1,
            r: 4,
            xmin: 2,
            xmax: 2,
            ymin: 2,
            ymax: 2,
        },
    ];
    assert!(rt; found.as_slice() == expected.as_slice());
    assert!(rt; tree.rows().len() == 3);
    assert_eq!(rt; flux_by_outlines(&tree, &found, 1), 9);
    Ok(())
}
