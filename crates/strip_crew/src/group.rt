//! Joins the strips of a group at their boundaries, halves of the group at once.

ghost use Rattle.std.specs.Prelude.{◌≡◌, ℕ, ◌+◌, ◌*◌, ◌<◌, ◌≤◌, List, length};
ghost use Rattle.std.specs.Thread.{IsSync};
ghost use Rattle.comp_tree.specs.Joined.{Or, Has};
ghost use Rattle.comp_tree.specs.Forest.{IsForest, IsLink, StandsFor, JoinSame};
ghost use Rattle.tree_join.specs.Boundary.{row_start, IsBoundary};
ghost use Rattle.strip_crew.specs.Boundaries.{AreRows, AreApart, IsRowsPair};
ghost use Rattle.strip_crew.specs.Halves.{IsGroupOf, IsJoinedGroupOf, AreGroupSkips, AreSkipsOfGroup};

use crate::gate::Gate;
use comp_tree::{Connect, NONE, Plane};
use costs::Steps;
use std::marker::Brand;
use std::sync::ledger::{Blank, Ledger};
use std::thread::{Threads, join_mut};
use tree_join::join_row;

// Joins the links at the boundary above `row`, and counts in two new counters.
fn join_boundary_by<L: Ledger, M: Ledger>(
    moves: Blank,
    reads: Blank,
    parents: &mut [u32],
    skips: &mut [u32],
    plane: &Plane,
    connect: Connect,
    first_row: u32,
    row: u32,
)
    requires moves { (moves.name ≡ L.name) × (moves.parts ≡ L.parts) × (0 < moves.parts) }
    requires reads { (reads.name ≡ M.name) × (reads.parts ≡ M.parts) × (0 < reads.parts) }
    requires rows { row_start plane.now first_row + length parents.old ≤ length plane.now.values }
    requires below { first_row < row }
    requires inside { row_start plane.now (row + 1)
        ≤ row_start plane.now first_row + length parents.old }
    requires forest { IsForest plane.now.values (row_start plane.now first_row) parents.old }
    requires skips { AreGroupSkips plane.now first_row parents.old skips.old }
    ensures forest { IsForest plane.now.values (row_start plane.now first_row) parents.new }
    ensures joined { JoinSame plane.now.values (row_start plane.now first_row) (length parents.old)
        (IsLink (row_start plane.now first_row) parents.new)
        (Or (IsLink (row_start plane.now first_row) parents.old)
        (IsBoundary plane.now.values plane.now.shape.width connect row)) }
    ensures skips { AreGroupSkips plane.now first_row parents.new skips.new }
    ensures same_places { length skips.new ≡ length skips.old }
{
    let mut moves = Steps::<L>::start(moves);
    let mut reads = Steps::<M>::start(reads);
    join_row(
        parents, skips, plane, connect, first_row, row, &mut moves, &mut reads,
    );
}

// Joins the links of a group at the boundary above `row`.
fn join_boundary(group: &Group<'_>, parents: &mut [u32], skips: &mut [u32], row: u32)
    requires rows { row_start group.now.plane.now group.now.first_row + length parents.old
        ≤ length group.now.plane.now.values }
    requires below { group.now.first_row < row }
    requires inside { row_start group.now.plane.now (row + 1)
        ≤ row_start group.now.plane.now group.now.first_row + length parents.old }
    requires forest { IsForest group.now.plane.now.values
        (row_start group.now.plane.now group.now.first_row) parents.old }
    requires skips { AreSkipsOfGroup group.now parents.old skips.old }
    ensures forest { IsForest group.now.plane.now.values
        (row_start group.now.plane.now group.now.first_row) parents.new }
    ensures joined { JoinSame group.now.plane.now.values
        (row_start group.now.plane.now group.now.first_row) (length parents.old)
        (IsLink (row_start group.now.plane.now group.now.first_row) parents.new)
        (Or (IsLink (row_start group.now.plane.now group.now.first_row) parents.old)
        (IsBoundary group.now.plane.now.values group.now.plane.now.shape.width group.now.connect row)) }
    ensures skips { AreSkipsOfGroup group.now parents.new skips.new }
    ensures same_places { length skips.new ≡ length skips.old }
{
    join_boundary_by::<Brand, Brand>(
        Blank::new(1),
        Blank::new(1),
        parents,
        skips,
        group.plane,
        group.connect,
        group.first_row,
        row,
    );
}

// How many pixels there are from the start of `first_row` up to the start of `row`.
fn pixels_between(plane: &Plane, first_row: u32, row: u32) -> usize
    requires rows { first_row ≤ row }
    requires inside { row_start plane.now row ≤ length plane.now.values }
    ensures { row_start plane.now first_row + result ≡ row * plane.now.shape.width }
{
    let width = plane.shape().width;
    (row * width - first_row * width) as usize
}

// The forks for the two halves of a group with these rows: none where a half has no row, for which a thread is not worth while.
fn forks_of_halves(rows: &[u32], forks: u32) -> u32 {
    if rows.len() < 3 { 0 } else { forks }
}

// A group of strips that lie one below the other: the rows from `first_row` on, the first rows of its strips but the first, and
// how often it may be divided into halves that are joined at once.
#[derive(Drop)]
struct Group<'a> {
    plane: &'a Plane,
    connect: Connect,
    first_row: u32,
    rows: &'a [u32],
    forks: u32,
}

// Joins the strips of a group, and leaves skips that are true of its links, whatever they were before. Links and skips come
// last, so that a closure reads all else before it lends them.
#[cycle(halves)]
fn join_strips<R: Threads + Sync, J: Gate>(
    rt: &R,
    joins: &J,
    group: &Group<'_>,
    parents: &mut [u32],
    skips: &mut [u32],
)
    requires { IsGroupOf group.now parents.old }
    ensures joined { IsJoinedGroupOf group.now parents.old parents.new }
    ensures skips { AreSkipsOfGroup group.now parents.new skips.new }
    ensures same_places { length skips.new ≡ length skips.old }
{
    let rows = group.rows;
    if rows.is_empty() {
        skips.fill(NONE);
        return;
    }
    let middle = rows.len() / 2;
    let row = rows[middle];
    let forks = forks_of_halves(rows, group.forks);
    let first = Group {
        plane: group.plane,
        connect: group.connect,
        first_row: group.first_row,
        rows: &rows[..middle],
        forks: forks.saturating_sub(1),
    };
    let second = Group {
        plane: group.plane,
        connect: group.connect,
        first_row: row,
        rows: &rows[middle + 1..],
        forks: forks.saturating_sub(1),
    };
    let pixels = pixels_between(group.plane, group.first_row, row);
    let places = pixels.min(skips.len());
    let (above, below) = parents.split_at_mut(pixels);
    let (skips_above, skips_below) = skips.split_at_mut(places);
    join_halves(
        rt,
        joins,
        forks > 0,
        &first,
        &second,
        above,
        below,
        skips_above,
        skips_below,
    );
    joins.enter(row);
    join_boundary(group, parents, skips, row);
}

// Joins the strips of two neighbouring groups, one after the other or both at once. A function of its own, so that what the
// closures require is what it is given.
#[cycle(halves)]
fn join_halves<R: Threads + Sync, J: Gate>(
    rt: &R,
    joins: &J,
    at_once: bool,
    first: &Group<'_>,
    second: &Group<'_>,
    above: &mut [u32],
    below: &mut [u32],
    skips_above: &mut [u32],
    skips_below: &mut [u32],
)
    requires above { IsGroupOf first.now above.old }
    requires below { IsGroupOf second.now below.old }
    ensures above { IsJoinedGroupOf first.now above.old above.new }
    ensures below { IsJoinedGroupOf second.now below.old below.new }
    ensures skips_above { AreSkipsOfGroup first.now above.new skips_above.new }
    ensures skips_below { AreSkipsOfGroup second.now below.new skips_below.new }
    ensures same_places { (length skips_above.new ≡ length skips_above.old)
        × (length skips_below.new ≡ length skips_below.old) }
{
    if !at_once {
        join_strips(rt, joins, first, above, skips_above);
        join_strips(rt, joins, second, below, skips_below);
        return;
    }
    let mut join_above = ||
        requires { IsSync R.row × IsSync J.row × IsGroupOf first.now above.now }
        ensures { IsJoinedGroupOf first.entry.now above.entry.now above.exit.now
            × AreSkipsOfGroup first.entry.now above.exit.now skips_above.exit.now
            × (length skips_above.exit.now ≡ length skips_above.entry.now) }
    { join_strips(rt, joins, first, above, skips_above) };
    let mut join_below = ||
        requires { IsSync R.row × IsSync J.row × IsGroupOf second.now below.now }
        ensures { IsJoinedGroupOf second.entry.now below.entry.now below.exit.now
            × AreSkipsOfGroup second.entry.now below.exit.now skips_below.exit.now
            × (length skips_below.exit.now ≡ length skips_below.entry.now) }
    { join_strips(rt, joins, second, below, skips_below) };
    join_mut(rt, &mut join_above, &mut join_below);
}

/// Joins the strips of a group of rows at their boundaries: the adjacencies between each row of `rows` and the row above
/// it, with `Connect::Eight` the diagonal ones too. `rows` has the first rows of the group's strips but the first strip's.
///
/// `parents` holds the links of the pixels from the start of `first_row` on, as in `join_row`. The middle row divides the
/// group: both halves are joined first, each with its own part of the links, and then the middle row by `join_row`, after
/// the gate was told of it. Where `forks` is above 0 and each half has a row, both halves are joined at once, in two threads
/// where one more can be made, each with one fork fewer; else one after the other. It takes no memory.
///
/// `skips` lends `join_row` its places: one for each pixel is enough. Fewer do too, and what they hold before makes no
/// difference.
pub fn join_group<R: Threads + Sync, J: Gate>(
    rt: &R,
    parents: &mut [u32],
    skips: &mut [u32],
    plane: &Plane,
    connect: Connect,
    first_row: u32,
    rows: &[u32],
    forks: u32,
    joins: &J,
)
    requires fits { row_start plane.now first_row + length parents.old ≤ length plane.now.values }
    requires rows { AreRows plane.now.shape.width first_row (length parents.old) rows.now }
    requires forest { IsForest plane.now.values (row_start plane.now first_row) parents.old }
    requires apart { AreApart plane.now.shape.width
        (row_start plane.now first_row) parents.old rows.now }
    ensures forest { IsForest plane.now.values (row_start plane.now first_row) parents.new }
    ensures joined { JoinSame plane.now.values (row_start plane.now first_row) (length parents.old)
        (IsLink (row_start plane.now first_row) parents.new)
        (Or (IsLink (row_start plane.now first_row) parents.old)
        (IsRowsPair plane.now.values plane.now.shape.width connect rows.now)) }
    ensures stands { (E : List (ℕ × ℕ))
        → StandsFor plane.now.values (row_start plane.now first_row) parents.old (Has E)
        → StandsFor plane.now.values (row_start plane.now first_row) parents.new
        (Or (Has E) (IsRowsPair plane.now.values plane.now.shape.width connect rows.now)) }
    ensures same_places { length skips.new ≡ length skips.old }
{
    // for its clauses alone: how many pixels a plane has
    let _shape = plane.shape();
    let group = Group {
        plane,
        connect,
        first_row,
        rows,
        forks,
    };
    join_strips(rt, joins, &group, parents, skips);
}
