//! The rule of the table of claims, and what each kind of step at it does.
//!
//! Word 0 counts the claims, and word 1 the strips that were given back. There are five kinds of step and no other: a
//! claim of a strip, a claim past the end, a give-back, a split of a seat, and a join of two seats.

ghost use Rattle.strip_crew.specs.Claims.{RuleHolds, opening_view, run_of, claim_step, give_step, split_left, split_right, joined_view, spent_view};

use crate::view::View;
use atomic_table::{Join, Play, Seat, Split, Table, TableRule};
use comp_tree::{Connect, Plane};
use std::alloc::Global;
use std::snapshot::Snapshot;
use strip_flood::StripJob;

/// The fixed data of a run: its plane, which contracts alone see, the connectivity, the first row of each strip, and
/// the number of workers.
#[derive(Drop)]
pub struct Key {
    pub plane: Snapshot<Plane>,
    pub connect: Connect,
    pub cut: Vec<u32>,
    pub workers: u32,
}

/// The rule: each strip below word 0 is in the list of one seat, once, and a strip that was given back is home and
/// flooded. Together with this it keeps a history, a list of the machine's events that leads from its start to these
/// words and views.
#[derive(Clone, Copy, Drop)]
pub struct ClaimRule;

impl TableRule<StripJob, View, Key> for ClaimRule {
    ghost holds = { λ key. RuleHolds (run_of key) };

    ghost first = { λ key. opening_view (run_of key) };
}

/// The table of a run, with the job of each strip in a slot of its own.
pub type ClaimTable = Table<StripJob, View, Key, ClaimRule, Global>;

/// The right to claim strips at a table.
pub type ClaimSeat = Seat<StripJob, View>;

/// The step that claims a strip and takes its slot out, or that lies past the end and takes none.
pub struct Claim;

impl Play<StripJob, View> for Claim {
    ghost then = { claim_step };
}

/// The step that gives the strip in hand back, and puts its slot home.
pub struct Give;

impl Play<StripJob, View> for Give {
    ghost then = { give_step };
}

/// The step that makes a seat for one more worker out of a seat that has claimed nothing.
pub struct Recruit;

impl Split<View> for Recruit {
    ghost left = { split_left };

    ghost right = { split_right };
}

/// The step that joins the seat of a worker that ended into another seat.
pub struct Dismiss;

impl Join<View> for Dismiss {
    ghost both = { joined_view };

    ghost spent = { spent_view };
}
