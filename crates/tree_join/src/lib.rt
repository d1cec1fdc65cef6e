//! Joins the links of two neighbouring rows, so that the trees of neighbouring strips become one (Wilkinson et al. 2008).
//!
//! The pixels of an adjacency are joined by walking up from both at once, as two sorted lists are merged (`walk`): the later
//! of the two pixels at hand climbs to its last ancestor that is not earlier than the other one, and is hung under that, and
//! the walk goes on with what is left to join. No walk is longer than the number of defined pixels.
//!
//! The moves hang pixels of one value under each other, one after the other, so ways through one value would grow along a
//! boundary and from strip to strip. So each step of a climb halves such a way, as in a union-find (Tarjan and van Leeuwen
//! 1984).
//!
//! In images of many values a climb passes thousands of pixels, most of which earlier walks met too. So it skips over them
//! where it can (`skips`), and leaves at each pixel that it passes the skip to the pixel two steps on, as where the ways of a
//! union-find are split. The caller lends a list for the skips.
//!
//! For one adjacency the reads of links and skips are at most four for each defined pixel. A step of a climb has at most three
//! and goes to an earlier pixel. Where a climb ends there are three, and one more at the move, which leaves the pixel behind.
//! Links and skips lie behind types whose only reading methods count (`links`, `skips`), so no line reads them uncounted.
#![tactic(auto)]

ghost use Rattle.std.specs.Prelude.{◌^◌, ◌≡◌, ℕ, ◌+◌, ◌*◌, ◌<◌, ◌≤◌, length, List};
ghost use Rattle.comp_tree.specs.Limits.{most_pixels};
ghost use Rattle.comp_tree.specs.Joined.{Or, Has};
ghost use Rattle.comp_tree.specs.Counts.{count_defined};
ghost use Rattle.comp_tree.specs.Forest.{StandsFor, IsForest, IsLink, JoinSame, LiesInStretch};
ghost use Rattle.tree_join.specs.Moves.{IsSpan, span_size};
ghost use Rattle.tree_join.specs.Skips.{AreTrueSkips};
ghost use Rattle.tree_join.specs.Walks.{HaveTrueSkips};
ghost use Rattle.tree_join.specs.Boundary.{row_start, IsBoundary, boundary_size};
ghost use Rattle.tree_join.specs.Columns.{first_column, end_column};

pub mod laws;
mod links;
mod skips;
#[cfg(test)]
mod tests;
mod walk;

use comp_tree::{Connect, Plane};
use costs::Steps;
use links::Links;
use skips::Skips;
use std::sync::ledger::Ledger;
use walk::{Rows, join_pair};

// Joins `p` with each pixel from `low` up to `high`, where both are defined.
fn join_span<L: Ledger, M: Ledger>(
    links: &mut Links<'_>,
    rows: &Rows<'_>,
    skips: &mut Skips<'_>,
    low: u32,
    high: u32,
    p: u32,
    moves: &mut Steps<L>,
    reads: &mut Steps<M>,
)
    requires ready { HaveTrueSkips rows.now.plane.now.values rows.now.first links.old.places.now skips.old.places.now }
    requires low { rows.now.first ≤ low }
    requires span { low ≤ high }
    requires high { high ≤ rows.now.first + length links.old.places.now }
    requires p_in { LiesInStretch rows.now.first (length links.old.places.now) p }
    ensures same_reference { links.new.places.ghost_name ≡ links.old.places.ghost_name }
    ensures same_length { length links.new.places.now ≡ length links.old.places.now }
    ensures same_list { skips.new.places.ghost_name ≡ skips.old.places.ghost_name }
    ensures same_places { length skips.new.places.now ≡ length skips.old.places.now }
    ensures ready { HaveTrueSkips rows.now.plane.now.values rows.now.first links.new.places.now skips.new.places.now }
    ensures joined { JoinSame rows.now.plane.now.values rows.now.first (length links.old.places.now)
        (IsLink rows.now.first links.new.places.now)
        (Or (IsLink rows.now.first links.old.places.now) (IsSpan rows.now.plane.now.values low high p)) }
    ensures cost { moves.new ≤ moves.old
        + span_size rows.now.plane.now.values low high p
        * count_defined rows.now.plane.now.values rows.now.first (length links.old.places.now) }
    ensures each { moves.new + reads.old ≤ moves.old + reads.new }
    ensures reads { reads.new ≤ reads.old
        + span_size rows.now.plane.now.values low high p
        * (4 * count_defined rows.now.plane.now.values rows.now.first (length links.old.places.now)) }
{
    if rows.plane.get(p).is_none() {
        return;
    }
    for u in low..high {
        if rows.plane.get(u).is_some() {
            join_pair(links, rows, skips, u, p, moves, reads);
        }
    }
}

// The columns from and up to which a pixel of column `x` has neighbours in the next row.
fn columns(connect: Connect, width: u32, x: u32) -> (u32, u32)
    requires inside { x < width }
    requires small { width ≤ most_pixels }
    ensures first { result.0 ≡ first_column connect x }
    ensures end { result.1 ≡ end_column connect width x }
{
    match connect {
        Connect::Four => (x, x + 1),
        Connect::Eight => (x.saturating_sub(1), (x + 2).min(width)),
    }
}

// `join_row` in a plane of this width.
fn join_rows<L: Ledger, M: Ledger>(
    links: &mut Links<'_>,
    skips: &mut Skips<'_>,
    plane: &Plane,
    width: u32,
    connect: Connect,
    first_row: u32,
    row: u32,
    moves: &mut Steps<L>,
    reads: &mut Steps<M>,
)
    requires width { 0 < width }
    requires rows { first_row * width + length links.old.places.now ≤ length plane.now.values }
    requires small { length plane.now.values ≤ most_pixels }
    requires below { first_row < row }
    requires inside { (row + 1) * width ≤ first_row * width + length links.old.places.now }
    requires forest { IsForest plane.now.values (first_row * width) links.old.places.now }
    requires skips { AreTrueSkips plane.now.values (first_row * width) (length links.old.places.now)
        (IsLink (first_row * width) links.old.places.now) skips.old.places.now }
    ensures same_reference { links.new.places.ghost_name ≡ links.old.places.ghost_name }
    ensures same_length { length links.new.places.now ≡ length links.old.places.now }
    ensures same_list { skips.new.places.ghost_name ≡ skips.old.places.ghost_name }
    ensures same_places { length skips.new.places.now ≡ length skips.old.places.now }
    ensures forest { IsForest plane.now.values (first_row * width) links.new.places.now }
    ensures skips { AreTrueSkips plane.now.values (first_row * width) (length links.old.places.now)
        (IsLink (first_row * width) links.new.places.now) skips.new.places.now }
    ensures joined { JoinSame plane.now.values (first_row * width) (length links.old.places.now)
        (IsLink (first_row * width) links.new.places.now)
        (Or (IsLink (first_row * width) links.old.places.now) (IsBoundary plane.now.values width connect row)) }
    ensures stands { (E : List (ℕ × ℕ))
        → StandsFor plane.now.values (first_row * width) links.old.places.now (Has E)
        → StandsFor plane.now.values (first_row * width) links.new.places.now
        (Or (Has E) (IsBoundary plane.now.values width connect row)) }
    ensures cost { moves.new ≤ moves.old
        + boundary_size plane.now.values width connect row
        * count_defined plane.now.values (first_row * width) (length links.old.places.now) }
    ensures each { moves.new + reads.old ≤ moves.old + reads.new }
    ensures reads { reads.new ≤ reads.old
        + boundary_size plane.now.values width connect row
        * (4 * count_defined plane.now.values (first_row * width) (length links.old.places.now)) }
{
    let rows = Rows {
        plane,
        first: first_row * width,
    };
    let start = row * width;
    let above = start - width;
    for x in 0..width {
        let (low, high) = columns(connect, width, x);
        join_span(
            links,
            &rows,
            skips,
            above + low,
            above + high,
            start + x,
            moves,
            reads,
        );
    }
}

/// Joins the links at the boundary between the rows `row - 1` and `row`: the adjacencies between the two, with
/// `Connect::Eight` the diagonal ones too.
///
/// `parents` holds the links of the pixels of some rows from the start of `first_row` on: pixel p stands at place
/// `p - first_row * width`. What they joined before stays joined, whether these rows were just flooded or have been
/// joined with others, so boundaries can be joined in any order.
///
/// `skips` is of any length. It has a place for each of these pixels as far as it is long: `NONE`, or a pixel that the links
/// join with it at each level up to that pixel's value. Where none is known yet, fill it with `NONE`. What is joined stays
/// joined, so the skips that are left are true for the next boundary too.
///
/// `moves` counts each move of each walk, and `reads` each link that is read, also where a way is shortened, and each skip
/// that is asked for. It takes no memory.
pub fn join_row<L: Ledger, M: Ledger>(
    parents: &mut [u32],
    skips: &mut [u32],
    plane: &Plane,
    connect: Connect,
    first_row: u32,
    row: u32,
    moves: &mut Steps<L>,
    reads: &mut Steps<M>,
)
    requires rows { row_start plane.now first_row + length parents.old ≤ length plane.now.values }
    requires below { first_row < row }
    requires inside { row_start plane.now (row + 1)
        ≤ row_start plane.now first_row + length parents.old }
    requires forest { IsForest plane.now.values (row_start plane.now first_row) parents.old }
    requires skips { AreTrueSkips plane.now.values (row_start plane.now first_row) (length parents.old)
        (IsLink (row_start plane.now first_row) parents.old) skips.old }
    ensures forest { IsForest plane.now.values (row_start plane.now first_row) parents.new }
    ensures skips { AreTrueSkips plane.now.values (row_start plane.now first_row) (length parents.old)
        (IsLink (row_start plane.now first_row) parents.new) skips.new }
    ensures same_places { length skips.new ≡ length skips.old }
    ensures joined { JoinSame plane.now.values (row_start plane.now first_row) (length parents.old)
        (IsLink (row_start plane.now first_row) parents.new)
        (Or (IsLink (row_start plane.now first_row) parents.old)
        (IsBoundary plane.now.values plane.now.shape.width connect row)) }
    ensures stands { (E : List (ℕ × ℕ))
        → StandsFor plane.now.values (row_start plane.now first_row) parents.old (Has E)
        → StandsFor plane.now.values (row_start plane.now first_row) parents.new
        (Or (Has E) (IsBoundary plane.now.values plane.now.shape.width connect row)) }
    ensures cost { moves.new ≤ moves.old
        + boundary_size plane.now.values plane.now.shape.width connect row
        * count_defined plane.now.values (row_start plane.now first_row) (length parents.old) }
    ensures each { moves.new + reads.old ≤ moves.old + reads.new }
    ensures reads { reads.new ≤ reads.old
        + boundary_size plane.now.values plane.now.shape.width connect row
        * (4 * count_defined plane.now.values
        (row_start plane.now first_row)
        (length parents.old)) }
{
    let shape = plane.shape();
    let mut links = Links::over(parents);
    let mut skips = Skips::over(skips);
    join_rows(
        &mut links,
        &mut skips,
        plane,
        shape.width,
        connect,
        first_row,
        row,
        moves,
        reads,
    );
}
