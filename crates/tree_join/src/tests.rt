ghost use Rattle.std.specs.Prelude.{◌≡◌, ◌<◌, length};
ghost use Rattle.comp_tree.specs.Forest.{IsLink};
ghost use Rattle.tree_join.specs.Skips.{AreTrueSkips};

use super::*;
use crate::links::Links;
use crate::walk::{Rows, link_past};
use comp_tree::{NONE, Shape, Tree, is_forest, plain_tree};
use std::marker::Brand;
use std::sync::ledger::Blank;

#[derive(Drop)]
struct Case<'a> {
    width: u32,
    height: u32,
    connect: Connect,
    values: &'a [Option<i64>],
    // the links of the strips, before they are joined
    links: &'a [u32],
    // the rows that are joined with the rows above them
    rows: &'a [u32],
}

fn join_by<L: Ledger, M: Ledger>(
    one: Blank,
    other: Blank,
    parents: &mut [u32],
    skips: &mut [u32],
    plane: &Plane,
    connect: Connect,
    rows: &[u32],
) -> bool
    requires one { (one.name ≡ L.name) × (one.parts ≡ L.parts) × (0 < one.parts) }
    requires other { (other.name ≡ M.name) × (other.parts ≡ M.parts) × (0 < other.parts) }
    requires skips { AreTrueSkips plane.now.values 0 (length parents.old) (IsLink 0 parents.old) skips.old }
{
    let mut moves = Steps::<L>::start(one);
    let mut reads = Steps::<M>::start(other);
    let shape = plane.shape();
    for row in rows {
        let row = *row;
        if parents.len() != shape.pixels() as usize || !is_forest(plane, 0, parents) {
            return false;
        }
        if row == 0 || row >= shape.height {
            return false;
        }
        join_row(
            parents, skips, plane, connect, 0, row, &mut moves, &mut reads,
        );
    }
    true
}

// Joins these rows, if the links are a forest. No skip is known before, and the list then holds those that are left.
fn join(
    parents: &mut [u32],
    skips: &mut [u32],
    plane: &Plane,
    connect: Connect,
    rows: &[u32],
) -> bool {
    skips.fill(NONE);
    join_by::<Brand, Brand>(
        Blank::new(1),
        Blank::new(1),
        parents,
        skips,
        plane,
        connect,
        rows,
    )
}

// The last pixel of at least this value on the walk from `p` along the links.
fn last_of(values: &[Option<i64>], parents: &[u32], value: i64, p: u32) -> u32 {
    let mut last = p;
    for _ in 0..parents.len() {
        let link = parents.get(last as usize).copied().unwrap_or(NONE);
        if let Some(Some(there)) = values.get(link as usize) {
            if *there >= value {
                last = link;
            }
        }
    }
    last
}

// Whether the links give `p` the node that the tree gives it: its last ancestor at the node's level represents the node, and
// the link of this ancestor leads to the node's parent.
fn has_its_node(values: &[Option<i64>], parents: &[u32], tree: &Tree, p: u32) -> bool {
    let node = tree.node_of().get(p as usize).copied().unwrap_or(NONE);
    let Some(row) = tree.rows().get(node as usize) else {
        return parents.get(p as usize).copied() == Some(NONE);
    };
    let link = parents.get(row.rep as usize).copied().unwrap_or(NONE);
    let parent = tree.node_of().get(link as usize).copied().unwrap_or(NONE);
    last_of(values, parents, row.level, p) == row.rep && parent == row.parent
}

#[test]
fn joined_strips_have_the_plain_tree(rt: HostRuntime) {
    let cases = [
        Case {
            width: 1,
            height: 3,
            connect: Connect::Four,
            values: &[Some(1), Some(2), Some(1)],
            links: &[NONE, NONE, NONE],
            rows: &[1, 2],
        },
        Case {
            width: 1,
            height: 3,
            connect: Connect::Four,
            values: &[Some(5), None, Some(5)],
            links: &[NONE, NONE, NONE],
            rows: &[1, 2],
        },
        Case {
            width: 2,
            height: 2,
            connect: Connect::Four,
            values: &[Some(9), Some(0), Some(0), Some(9)],
            links: &[1, NONE, NONE, 2],
            rows: &[1],
        },
        Case {
            width: 2,
            height: 2,
            connect: Connect::Eight,
            values: &[Some(9), Some(0), Some(0), Some(9)],
            links: &[1, NONE, NONE, 2],
            rows: &[1],
        },
        Case {
            width: 3,
            height: 2,
            connect: Connect::Four,
            values: &[Some(1), Some(5), Some(1), Some(7), Some(1), Some(1)],
            links: &[NONE, 2, 0, 4, NONE, 4],
            rows: &[1],
        },
        Case {
            width: 3,
            height: 2,
            connect: Connect::Eight,
            values: &[Some(1), Some(5), Some(1), Some(7), Some(1), Some(1)],
            links: &[NONE, 2, 0, 4, NONE, 4],
            rows: &[1],
        },
        Case {
            width: 3,
            height: 3,
            connect: Connect::Four,
            values: &[
                Some(5),
                Some(0),
                Some(6),
                Some(5),
                Some(2),
                Some(6),
                Some(3),
                Some(3),
                Some(3),
            ],
            links: &[1, NONE, 1, 4, NONE, 4, NONE, 6, 7],
            rows: &[1, 2],
        },
        Case {
            width: 3,
            height: 3,
            connect: Connect::Eight,
            values: &[
                Some(5),
                Some(0),
                Some(6),
                Some(5),
                Some(2),
                Some(6),
                Some(3),
                Some(3),
                Some(3),
            ],
            links: &[1, NONE, 1, 4, NONE, 4, NONE, 6, 7],
            rows: &[2, 1],
        },
        // two strips, of two rows and of one
        Case {
            width: 3,
            height: 3,
            connect: Connect::Four,
            values: &[
                Some(5),
                Some(0),
                Some(6),
                Some(5),
                Some(2),
                Some(6),
                Some(3),
                Some(3),
                Some(3),
            ],
            links: &[4, NONE, 4, 0, 1, 2, NONE, 6, 7],
            rows: &[2],
        },
        // a plateau on both sides of the boundary
        Case {
            width: 3,
            height: 2,
            connect: Connect::Four,
            values: &[Some(6), Some(6), Some(6), Some(6), Some(6), Some(6)],
            links: &[NONE, 0, 1, NONE, 3, 4],
            rows: &[1],
        },
        // one that is joined on both sides of an undefined pixel
        Case {
            width: 3,
            height: 2,
            connect: Connect::Four,
            values: &[Some(4), None, Some(4), Some(4), Some(4), Some(5)],
            links: &[NONE, NONE, NONE, NONE, 3, 4],
            rows: &[1],
        },
        // and one that touches at corners alone
        Case {
            width: 3,
            height: 2,
            connect: Connect::Eight,
            values: &[Some(7), None, Some(7), None, Some(7), None],
            links: &[NONE, NONE, NONE, NONE, NONE, NONE],
            rows: &[1],
        },
    ];
    for (number, case) in cases.iter().enumerate() {
        let shape = Shape::of(case.width, case.height).expect(&rt, "a shape");
        let plane = Plane::of(rt.alloc(), shape, case.values)
            .expect(&rt, "memory")
            .expect(&rt, "a plane");
        let mut parents = case.links.to_vec(rt.alloc()).expect(&rt, "memory");
        // the larger planes have more pixels than there are places for skips
        let mut skips = [NONE; 6];
        let joined = join(&mut parents, &mut skips, &plane, case.connect, case.rows);
        assert!(rt; joined, "case {number}");
        let tree = plain_tree(rt.alloc(), &plane, case.connect).expect(&rt, "memory");
        for p in 0..shape.pixels() {
            let same = has_its_node(case.values, &parents, &tree, p);
            assert!(rt; same, "case {number}, pixel {p}");
        }
    }
}

// Two strips of two rows. Pixel 1 is hung under 2, and then 3, the link of 2, is joined with 0.
#[test]
fn a_walk_goes_on_at_a_link_between_its_pixels(rt: HostRuntime) {
    let shape = Shape::of(1, 4).expect(&rt, "a shape");
    let plane = Plane::of(rt.alloc(), shape, &[Some(1), Some(5), Some(4), Some(3)])
        .expect(&rt, "memory")
        .expect(&rt, "a plane");
    let mut parents = [NONE, 0, 3, NONE];
    assert!(rt; join(&mut parents, &mut [NONE; 4], &plane, Connect::Four, &[2]));
    assert_eq!(rt; parents, [NONE, 2, 3, 0]);
}

fn skip_by<M: Ledger>(blank: Blank, skips: &Skips<'_>, place: usize) -> Option<u32>
    requires blank { (blank.name ≡ M.name) × (blank.parts ≡ M.parts) × (0 < blank.parts) }
{
    let mut reads = Steps::<M>::start(blank);
    skips.told(place, &mut reads)
}

// The skip that is told at this place.
fn skip_from(skips: &Skips<'_>, place: usize) -> Option<u32> {
    skip_by::<Brand>(Blank::new(1), skips, place)
}

#[test]
fn a_skip_is_told_where_it_was_noted(rt: HostRuntime) {
    let mut places = [NONE, 7, NONE];
    let mut skips = Skips::over(&mut places);
    skips.note(2, 5);
    skips.note(3, 6);
    assert_eq!(rt; skip_from(&skips, 0), None);
    assert_eq!(rt; skip_from(&skips, 1), Some(7));
    assert_eq!(rt; skip_from(&skips, 2), Some(5));
    assert_eq!(rt; skip_from(&skips, 3), None);
}

// The upper row rises to the right. The walk from pixel 3 leaves the skips from 3 to 1 and from 2 to 0. The one from pixel 4
// goes to 3 by its link, to 1 by the skip and on to 0, and leaves the skips from 4 to 1 and from 3 to 0.
#[test]
fn walks_leave_skips_and_take_them(rt: HostRuntime) {
    let values = [
        Some(5),
        Some(6),
        Some(7),
        Some(8),
        Some(9),
        None,
        None,
        None,
        Some(1),
        Some(2),
    ];
    let mut links = [NONE, 0, 1, 2, 3, NONE, NONE, NONE, NONE, 8];
    let shape = Shape::of(5, 2).expect(&rt, "a shape");
    let plane = Plane::of(rt.alloc(), shape, &values)
        .expect(&rt, "memory")
        .expect(&rt, "a plane");
    let mut skips = [NONE; 5];
    assert!(rt; join(&mut links, &mut skips, &plane, Connect::Four, &[1]));
    assert_eq!(rt; skips, [NONE, NONE, 0, 0, 1]);
}

// Two rows that rise to the right. The walks from the first 36 pixels leave skips to pixel 0. For those from pixel 36 on, whose
// lower pixels have higher values, these lead too low.
#[test]
fn walks_skip_no_further_than_they_may(rt: HostRuntime) {
    let mut values = [Some(0); 82];
    let mut links = [NONE; 82];
    for x in 0..41 {
        values[x] = Some(50 + x as i64);
        values[41 + x] = Some(if x < 36 { 1 + x as i64 } else { 30 + x as i64 });
        if x > 0 {
            links[x] = x as u32 - 1;
            links[41 + x] = 40 + x as u32;
        }
    }
    let shape = Shape::of(41, 2).expect(&rt, "a shape");
    let plane = Plane::of(rt.alloc(), shape, &values)
        .expect(&rt, "memory")
        .expect(&rt, "a plane");
    assert!(rt; join(&mut links, &mut [NONE; 82], &plane, Connect::Four, &[1]));
    let tree = plain_tree(rt.alloc(), &plane, Connect::Four).expect(&rt, "memory");
    for p in 0..shape.pixels() {
        let same = has_its_node(&values, &links, &tree, p);
        assert!(rt; same, "pixel {p}");
    }
}

fn link_by<M: Ledger>(blank: Blank, parents: &mut [u32], plane: &Plane, p: u32) -> Option<u32>
    requires blank { (blank.name ≡ M.name) × (blank.parts ≡ M.parts) × (0 < blank.parts) }
{
    let mut reads = Steps::<M>::start(blank);
    let shape = plane.shape();
    if parents.len() != shape.pixels() as usize || !is_forest(plane, 0, parents) {
        return None;
    }
    if p >= shape.pixels() || !plane.is_defined(p) {
        return None;
    }
    let mut links = Links::over(parents);
    let rows = Rows { plane, first: 0 };
    link_past(&mut links, &rows, p, &mut reads)
}

// Links `p` past its link, if the links are a forest and `p` is defined.
fn link_from(parents: &mut [u32], plane: &Plane, p: u32) -> Option<u32> {
    link_by::<Brand>(Blank::new(1), parents, plane, p)
}

#[test]
fn pixels_are_linked_past_links_within_one_value(rt: HostRuntime) {
    // the values, the links before, the pixel, its link then, and the links after
    let cases: [(&[Option<i64>], &[u32], u32, Option<u32>, &[u32]); 4] = [
        (
            &[Some(4), Some(4), Some(5)],
            &[NONE, 0, 1],
            2,
            Some(0),
            &[NONE, 0, 0],
        ),
        (
            &[Some(1), Some(2), Some(3)],
            &[NONE, 0, 1],
            2,
            Some(1),
            &[NONE, 0, 1],
        ),
        (
            &[Some(1), Some(2), Some(3)],
            &[NONE, 0, 1],
            1,
            Some(0),
            &[NONE, 0, 1],
        ),
        (
            &[Some(3), None, Some(3)],
            &[NONE, NONE, NONE],
            2,
            None,
            &[NONE, NONE, NONE],
        ),
    ];
    for (number, (values, links, p, link, wanted)) in cases.iter().enumerate() {
        let shape = Shape::of(values.len() as u32, 1).expect(&rt, "a shape");
        let plane = Plane::of(rt.alloc(), shape, values)
            .expect(&rt, "memory")
            .expect(&rt, "a plane");
        let mut parents = links.to_vec(rt.alloc()).expect(&rt, "memory");
        assert_eq!(rt; link_from(&mut parents, &plane, *p), *link, "case {number}");
        assert!(rt; parents.as_slice() == *wanted, "case {number}");
    }
}
