//! The walk of one adjacency, up from both its pixels.

ghost use Rattle.std.specs.Prelude.{◌≡◌, ℕ, ◌+◌, ◌*◌, ◌<◌, ◌≤◌, length, MatchOption, IfSome};
ghost use Rattle.comp_tree.specs.Joined.{Or, Only};
ghost use Rattle.comp_tree.specs.Counts.{count_defined};
ghost use Rattle.comp_tree.specs.EarlierCounts.{earlier_count};
ghost use Rattle.comp_tree.specs.Forest.{no_node, ComesEarlier, IsForest, IsLink, JoinSame, link_of};
ghost use Rattle.tree_join.specs.Skips.{IsPixel, IsSkip};
ghost use Rattle.tree_join.specs.Moves.{IsEnded, IsMoved, IsLastAbove, IsSpent};
ghost use Rattle.tree_join.specs.Walks.{AreLinks, AreLike, HaveTrueSkips, IsLaterPair, IsWalk, IsUp};

use crate::links::Links;
use crate::skips::Skips;
use comp_tree::{NONE, Plane};
use costs::Steps;
use std::sync::ledger::Ledger;

// The rows whose links are at hand: those of this plane from the pixel `first` on.
#[derive(Drop)]
pub(crate) struct Rows<'a> {
    pub(crate) plane: &'a Plane,
    pub(crate) first: u32,
}

// The link of `p`, if it has one. Where it leads to a pixel that is linked within its own value, `p` is first linked past
// that: straight to that pixel's link. The two pixels lie in the same threshold sets, so nothing comes apart.
pub(crate) fn link_past<M: Ledger>(
    links: &mut Links<'_>,
    rows: &Rows<'_>,
    p: u32,
    reads: &mut Steps<M>,
) -> Option<u32>
    requires links { AreLinks rows.now.plane.now.values rows.now.first links.old.places.now }
    requires p_in { IsPixel rows.now.plane.now.values rows.now.first (length links.old.places.now) p }
    ensures same_reference { links.new.places.ghost_name ≡ links.old.places.ghost_name }
    ensures same_length { length links.new.places.now ≡ length links.old.places.now }
    ensures like { AreLike rows.now.plane.now.values rows.now.first links.old.places.now links.new.places.now }
    ensures link { MatchOption result
        (link_of rows.now.first links.new.places.now p ≡ no_node)
        (λ next. link_of rows.now.first links.new.places.now p ≡ next) }
    ensures skip { IfSome result (λ next. IsSkip rows.now.plane.now.values rows.now.first (length links.old.places.now)
        (IsLink rows.now.first links.old.places.now) p next) }
    ensures earlier { IfSome result (λ next. ComesEarlier rows.now.plane.now.values next p) }
    ensures more { reads.old + 1 ≤ reads.new }
    ensures reads { reads.new ≤ reads.old + 2 }
{
    let place = (p - rows.first) as usize;
    let link = links.read(place, reads);
    if link == NONE {
        return None;
    }
    let next = links.read((link - rows.first) as usize, reads);
    if next == NONE || !rows.plane.is_at_least(rows.plane.level(link), next) {
        return Some(link);
    }
    links.write(place, next);
    Some(next)
}

// The skip from `at`, if one is known that leads to an earlier pixel, and to one of a higher value than `b`: then the links
// alone join what it leads to, though `at` and `b` are still to be joined. The links are named for this alone.
fn skip_up<M: Ledger>(
    _links: &Links<'_>,
    rows: &Rows<'_>,
    skips: &Skips<'_>,
    at: u32,
    b: u32,
    reads: &mut Steps<M>,
) -> Option<u32>
    requires walk { IsWalk rows.now.plane.now.values rows.now.first _links.now.places.now skips.now.places.now at b }
    ensures up { IfSome result (λ next. IsUp rows.now.plane.now.values rows.now.first _links.now.places.now at b next) }
    ensures read { reads.new ≡ reads.old + 1 }
{
    let Some(there) = skips.told((at - rows.first) as usize, reads) else {
        return None;
    };
    if !rows.plane.is_earlier(there, at) || rows.plane.is_at_least(rows.plane.level(there), b) {
        return None;
    }
    Some(there)
}

// The link of `at`, once it is linked past it where it can be, unless it is earlier than `b`.
fn link_up<M: Ledger>(
    links: &mut Links<'_>,
    rows: &Rows<'_>,
    at: u32,
    b: u32,
    reads: &mut Steps<M>,
) -> Option<u32>
    requires links { AreLinks rows.now.plane.now.values rows.now.first links.old.places.now }
    requires pair { IsLaterPair rows.now.plane.now.values rows.now.first (length links.old.places.now) at b }
    ensures same_reference { links.new.places.ghost_name ≡ links.old.places.ghost_name }
    ensures same_length { length links.new.places.now ≡ length links.old.places.now }
    ensures like { AreLike rows.now.plane.now.values rows.now.first links.old.places.now links.new.places.now }
    ensures up { MatchOption result
        (IsLastAbove rows.now.plane.now.values rows.now.first links.new.places.now at b)
        (λ next. IsUp rows.now.plane.now.values rows.now.first links.old.places.now at b next) }
    ensures more { reads.old + 1 ≤ reads.new }
    ensures reads { reads.new ≤ reads.old + 2 }
{
    let Some(link) = link_past(links, rows, at, reads) else {
        return None;
    };
    if rows.plane.is_earlier(link, b) {
        return None;
    }
    Some(link)
}

// The next pixel up from `at` that is not earlier than `b`: the one that a skip leads to, else its link.
fn next_up<M: Ledger>(
    links: &mut Links<'_>,
    rows: &Rows<'_>,
    skips: &Skips<'_>,
    at: u32,
    b: u32,
    reads: &mut Steps<M>,
) -> Option<u32>
    requires walk { IsWalk rows.now.plane.now.values rows.now.first links.old.places.now skips.now.places.now at b }
    ensures same_reference { links.new.places.ghost_name ≡ links.old.places.ghost_name }
    ensures same_length { length links.new.places.now ≡ length links.old.places.now }
    ensures like { AreLike rows.now.plane.now.values rows.now.first links.old.places.now links.new.places.now }
    ensures up { MatchOption result
        (IsLastAbove rows.now.plane.now.values rows.now.first links.new.places.now at b)
        (λ next. IsUp rows.now.plane.now.values rows.now.first links.old.places.now at b next) }
    ensures more { reads.old + 1 ≤ reads.new }
    ensures reads { reads.new ≤ reads.old + 3 }
{
    if let Some(there) = skip_up(links, rows, skips, at, b, reads) {
        return Some(there);
    }
    link_up(links, rows, at, b, reads)
}

// Climbs from `p` to the last pixel that is not earlier than `b`. The pair that is still to be joined climbs too. Each pixel
// that the climb passes gets the skip to the pixel two steps on, so that the next climb takes about half as many.
fn climb<L: Ledger, M: Ledger>(
    links: &mut Links<'_>,
    rows: &Rows<'_>,
    skips: &mut Skips<'_>,
    p: u32,
    b: u32,
    moves: &mut Steps<L>,
    reads: &mut Steps<M>,
) -> u32
    requires walk { IsWalk rows.now.plane.now.values rows.now.first links.old.places.now skips.old.places.now p b }
    ensures same_reference { links.new.places.ghost_name ≡ links.old.places.ghost_name }
    ensures same_length { length links.new.places.now ≡ length links.old.places.now }
    ensures same_list { skips.new.places.ghost_name ≡ skips.old.places.ghost_name }
    ensures same_places { length skips.new.places.now ≡ length skips.old.places.now }
    ensures like { AreLike rows.now.plane.now.values rows.now.first links.old.places.now links.new.places.now }
    ensures skip { IsSkip rows.now.plane.now.values rows.now.first (length links.old.places.now)
        (IsLink rows.now.first links.old.places.now) p result }
    ensures last { IsLastAbove rows.now.plane.now.values rows.now.first links.new.places.now result b }
    ensures walk { IsWalk rows.now.plane.now.values rows.now.first links.new.places.now skips.new.places.now result b }
    ensures later { moves.old ≤ moves.new }
    ensures cost { moves.new + earlier_count rows.now.plane.now.values rows.now.first (length links.old.places.now) result
        ≤ moves.old + earlier_count rows.now.plane.now.values rows.now.first (length links.old.places.now) p }
    ensures each { moves.new + reads.old ≤ moves.old + reads.new }
    ensures reads { reads.new + 3 * earlier_count rows.now.plane.now.values rows.now.first (length links.old.places.now) result
        ≤ reads.old + 3 * earlier_count rows.now.plane.now.values rows.now.first (length links.old.places.now) p + 3 }
{
    let mut before = p;
    let mut at = p;
    while let Some(next) = next_up(links, rows, skips, at, b, reads) {
        moves.tick();
        if before != at {
            skips.note((before - rows.first) as usize, next);
        }
        before = at;
        at = next;
    }
    at
}

// Hangs `a` under the earlier pixel `b`, where its link is earlier still, or none. So `b` and that link are left to join.
fn hang<M: Ledger>(
    links: &mut Links<'_>,
    rows: &Rows<'_>,
    a: u32,
    b: u32,
    reads: &mut Steps<M>,
) -> Option<(u32, u32)>
    requires links { AreLinks rows.now.plane.now.values rows.now.first links.old.places.now }
    requires pair { IsLaterPair rows.now.plane.now.values rows.now.first (length links.old.places.now) a b }
    requires order { ComesEarlier rows.now.plane.now.values b a }
    requires last { IsLastAbove rows.now.plane.now.values rows.now.first links.old.places.now a b }
    ensures same_reference { links.new.places.ghost_name ≡ links.old.places.ghost_name }
    ensures same_length { length links.new.places.now ≡ length links.old.places.now }
    ensures forest { IsForest rows.now.plane.now.values rows.now.first links.new.places.now }
    ensures moved { MatchOption result
        (IsEnded rows.now.plane.now.values rows.now.first links.old.places.now links.new.places.now a b)
        (λ rest. IsMoved rows.now.plane.now.values rows.now.first links.old.places.now links.new.places.now a b rest) }
    ensures pair { IfSome result (λ rest.
        IsLaterPair rows.now.plane.now.values rows.now.first (length links.old.places.now) rest.0 rest.1) }
    ensures read { reads.new ≡ reads.old + 1 }
{
    let place = (a - rows.first) as usize;
    let link = links.read(place, reads);
    links.write(place, b);
    if link == NONE {
        return None;
    }
    Some((b, link))
}

// One turn of a walk, where `a` is not earlier than `b`: the climb of `a`, and its move. It gives the two pixels that are left
// to join, if any, the later one first.
fn turn<L: Ledger, M: Ledger>(
    links: &mut Links<'_>,
    rows: &Rows<'_>,
    skips: &mut Skips<'_>,
    a: u32,
    b: u32,
    moves: &mut Steps<L>,
    reads: &mut Steps<M>,
) -> Option<(u32, u32)>
    requires walk { IsWalk rows.now.plane.now.values rows.now.first links.old.places.now skips.old.places.now a b }
    ensures same_reference { links.new.places.ghost_name ≡ links.old.places.ghost_name }
    ensures same_length { length links.new.places.now ≡ length links.old.places.now }
    ensures same_list { skips.new.places.ghost_name ≡ skips.old.places.ghost_name }
    ensures same_places { length skips.new.places.now ≡ length skips.old.places.now }
    ensures moved { MatchOption result
        (IsEnded rows.now.plane.now.values rows.now.first links.old.places.now links.new.places.now a b)
        (λ rest. IsMoved rows.now.plane.now.values rows.now.first links.old.places.now links.new.places.now a b rest) }
    ensures walk { MatchOption result
        (HaveTrueSkips rows.now.plane.now.values rows.now.first links.new.places.now skips.new.places.now)
        (λ rest. IsWalk rows.now.plane.now.values rows.now.first links.new.places.now skips.new.places.now rest.0 rest.1) }
    ensures cost { IsSpent rows.now.plane.now.values rows.now.first (length links.old.places.now) a b 1 moves.old moves.new result }
    ensures each { moves.new + reads.old ≤ moves.old + reads.new }
    ensures reads { IsSpent rows.now.plane.now.values rows.now.first (length links.old.places.now) a b 4 reads.old reads.new result }
{
    let last = climb(links, rows, skips, a, b, moves, reads);
    if last == b {
        return None;
    }
    moves.tick();
    hang(links, rows, last, b, reads)
}

// `join_pair`, where `p` is not earlier than `q`. Between two turns one pair is still to be joined: together with it the
// links always join what they joined before and `p` with `q`.
fn join_later<L: Ledger, M: Ledger>(
    links: &mut Links<'_>,
    rows: &Rows<'_>,
    skips: &mut Skips<'_>,
    p: u32,
    q: u32,
    moves: &mut Steps<L>,
    reads: &mut Steps<M>,
)
    requires ready { HaveTrueSkips rows.now.plane.now.values rows.now.first links.old.places.now skips.old.places.now }
    requires pair { IsLaterPair rows.now.plane.now.values rows.now.first (length links.old.places.now) p q }
    ensures same_reference { links.new.places.ghost_name ≡ links.old.places.ghost_name }
    ensures same_length { length links.new.places.now ≡ length links.old.places.now }
    ensures same_list { skips.new.places.ghost_name ≡ skips.old.places.ghost_name }
    ensures same_places { length skips.new.places.now ≡ length skips.old.places.now }
    ensures ready { HaveTrueSkips rows.now.plane.now.values rows.now.first links.new.places.now skips.new.places.now }
    ensures joined { JoinSame rows.now.plane.now.values rows.now.first (length links.old.places.now)
        (IsLink rows.now.first links.new.places.now)
        (Or (IsLink rows.now.first links.old.places.now) (Only p q)) }
    ensures cost { moves.new ≤ moves.old + count_defined rows.now.plane.now.values rows.now.first (length links.old.places.now) }
    ensures each { moves.new + reads.old ≤ moves.old + reads.new }
    ensures reads { reads.new ≤ reads.old + 4 * count_defined rows.now.plane.now.values rows.now.first (length links.old.places.now) }
{
    let mut a = p;
    let mut b = q;
    while let Some((one, other)) = turn(links, rows, skips, a, b, moves, reads) {
        a = one;
        b = other;
    }
}

// Joins the pair of `p` and `q`.
pub(crate) fn join_pair<L: Ledger, M: Ledger>(
    links: &mut Links<'_>,
    rows: &Rows<'_>,
    skips: &mut Skips<'_>,
    p: u32,
    q: u32,
    moves: &mut Steps<L>,
    reads: &mut Steps<M>,
)
    requires ready { HaveTrueSkips rows.now.plane.now.values rows.now.first links.old.places.now skips.old.places.now }
    requires p_in { IsPixel rows.now.plane.now.values rows.now.first (length links.old.places.now) p }
    requires q_in { IsPixel rows.now.plane.now.values rows.now.first (length links.old.places.now) q }
    ensures same_reference { links.new.places.ghost_name ≡ links.old.places.ghost_name }
    ensures same_length { length links.new.places.now ≡ length links.old.places.now }
    ensures same_list { skips.new.places.ghost_name ≡ skips.old.places.ghost_name }
    ensures same_places { length skips.new.places.now ≡ length skips.old.places.now }
    ensures ready { HaveTrueSkips rows.now.plane.now.values rows.now.first links.new.places.now skips.new.places.now }
    ensures joined { JoinSame rows.now.plane.now.values rows.now.first (length links.old.places.now)
        (IsLink rows.now.first links.new.places.now)
        (Or (IsLink rows.now.first links.old.places.now) (Only p q)) }
    ensures cost { moves.new ≤ moves.old + count_defined rows.now.plane.now.values rows.now.first (length links.old.places.now) }
    ensures each { moves.new + reads.old ≤ moves.old + reads.new }
    ensures reads { reads.new ≤ reads.old + 4 * count_defined rows.now.plane.now.values rows.now.first (length links.old.places.now) }
{
    if rows.plane.is_earlier(p, q) {
        join_later(links, rows, skips, q, p, moves, reads);
    } else {
        join_later(links, rows, skips, p, q, moves, reads);
    }
}
