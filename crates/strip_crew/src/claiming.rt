//! One worker: it claims strips, floods them and gives them back.

ghost use Rattle.std.specs.Prelude.{◌≡◌, ℕ, ◌<◌, ◌≤◌, [], Some, false, true};
ghost use Rattle.atomic_table.specs.Table.{rest};
ghost use Rattle.strip_flood.specs.Jobs.{SuitsStrip};
ghost use Rattle.strip_crew.specs.Run.{strips};
ghost use Rattle.strip_crew.specs.Counting.{fresh, after_pass, after_give_back};
ghost use Rattle.strip_crew.specs.Claims.{view, TakesStrip, HasEnded, IsRunOver};
ghost use Rattle.strip_crew.specs.Workers.{MayClaim, HoldsSlot, IsFloodedFrom, IsStripJob};

use crate::gate::Gate;
use crate::rule::{Claim, ClaimSeat, ClaimTable, Give};
use comp_tree::Plane;
use costs::Steps;
use std::marker::Brand;
use std::sync::ledger::{Blank, Ledger};
use strip_flood::StripJob;

// One claim, of a strip or past the end.
fn claim(table: &ClaimTable, seat: &mut ClaimSeat) -> u64
    requires table { seat.old.table_id ≡ table.now.shared.table_id }
    requires words { table.now.shared.table_id.words ≡ 2 }
    requires may { MayClaim seat.old.me.0 }
    ensures same { (seat.new.table_id ≡ seat.old.table_id) × (seat.new.id ≡ seat.old.id) }
    ensures slots { table.now.shared.table_id.slots ≡ strips seat.old.me.0.of }
    ensures few { strips seat.old.me.0.of ≤ 65535 }
    ensures strip { result < strips seat.old.me.0.of → TakesStrip seat.old.me result seat.new.me }
    ensures end { strips seat.old.me.0.of ≤ result →
        seat.new.me ≡ (view (after_pass seat.old.me.0.claim) seat.old.me.0.of, seat.old.me.1) }
{
    table.shared.fetch_add::<Claim>(seat, 0, 1)
}

// Floods a job, and changes nothing of it but its links.
fn flood_job<A: Ledger, B: Ledger>(
    job: &mut StripJob,
    plane: &Plane,
    queued: &mut Steps<A>,
    looked: &mut Steps<B>,
)
    requires fit { SuitsStrip job.old plane.now }
    requires unflooded { job.old.flooded ≡ false }
    ensures { IsFloodedFrom job.old job.new }
{
    job.flood(plane, queued, looked);
}

// Floods the job of the slot that the seat holds, in place, and counts in new counters.
fn flood_by<A: Ledger, B: Ledger>(
    queued: Blank,
    looked: Blank,
    table: &ClaimTable,
    seat: &mut ClaimSeat,
    strip: usize,
    plane: &Plane,
)
    requires queued { (queued.name ≡ A.name) × (queued.parts ≡ A.parts) × (0 < queued.parts) }
    requires looked { (looked.name ≡ B.name) × (looked.parts ≡ B.parts) × (0 < looked.parts) }
    requires table { seat.old.table_id ≡ table.now.shared.table_id }
    requires plane { IsRunOver seat.old.me.0.of plane.now }
    requires held { HoldsSlot seat.old.me strip (IsStripJob seat.old.me.0.of.plan strip false) }
    ensures same { (seat.new.table_id ≡ seat.old.table_id)
        × (seat.new.id ≡ seat.old.id)
        × (seat.new.me.0 ≡ seat.old.me.0) }
    ensures flooded { HoldsSlot seat.new.me strip (IsStripJob seat.old.me.0.of.plan strip true) }
{
    let mut queued = Steps::<A>::start(queued);
    let mut looked = Steps::<B>::start(looked);
    flood_job(
        seat.slot_mut(&table.shared, strip),
        plane,
        &mut queued,
        &mut looked,
    );
}

// Floods the job of the slot that the seat holds, in place.
fn flood(table: &ClaimTable, seat: &mut ClaimSeat, strip: usize, plane: &Plane)
    requires table { seat.old.table_id ≡ table.now.shared.table_id }
    requires plane { IsRunOver seat.old.me.0.of plane.now }
    requires held { HoldsSlot seat.old.me strip (IsStripJob seat.old.me.0.of.plan strip false) }
    ensures same { (seat.new.table_id ≡ seat.old.table_id)
        × (seat.new.id ≡ seat.old.id)
        × (seat.new.me.0 ≡ seat.old.me.0) }
    ensures flooded { HoldsSlot seat.new.me strip (IsStripJob seat.old.me.0.of.plan strip true) }
{
    flood_by::<Brand, Brand>(Blank::new(1), Blank::new(1), table, seat, strip, plane);
}

// Gives the strip in hand back.
fn give(table: &ClaimTable, seat: &mut ClaimSeat, _strip: usize)
    requires table { seat.old.table_id ≡ table.now.shared.table_id }
    requires words { table.now.shared.table_id.words ≡ 2 }
    requires open { seat.old.me.0.claim.joined ≡ false }
    requires hand { seat.old.me.0.claim.hand ≡ Some _strip }
    requires held { HoldsSlot seat.old.me _strip (IsStripJob seat.old.me.0.of.plan _strip true) }
    ensures same { (seat.new.table_id ≡ seat.old.table_id) × (seat.new.id ≡ seat.old.id) }
    ensures given { seat.new.me ≡ (view (after_give_back seat.old.me.0.claim) seat.old.me.0.of, []) }
{
    table.shared.fetch_add::<Give>(seat, 1, 1);
}

/// Claims strips at the table, floods each in its slot and gives it back, until a claim lies past the end.
///
/// Before it floods a strip it enters the gate with the strip's number. A claim and a give-back are one `fetch_add`
/// each, and neither is ever tried again, so it waits for nobody. It takes no memory. The seat is a new one, which
/// owes one claim past the end; the seat that comes back has made it, and its list is of strips that were each given
/// back flooded (`laws::each_listed_strip_is_flooded`).
pub fn worker<G: Gate>(table: &ClaimTable, seat: ClaimSeat, plane: &Plane, gate: &G) -> ClaimSeat
    requires table { seat.table_id ≡ table.now.shared.table_id }
    requires words { table.now.shared.table_id.words ≡ 2 }
    requires plane { IsRunOver seat.me.0.of plane.now }
    requires fresh { seat.me ≡ (view (fresh 1) seat.me.0.of, []) }
    ensures same { (result.table_id ≡ seat.table_id) × (result.id ≡ seat.id) }
    ensures ended { HasEnded seat.me.0.of result.me }
{
    let mut seat = seat;
    let count = table.slot_count();
    loop {
        let strip = claim(table, &mut seat) as usize;
        if strip >= count {
            return seat;
        }
        gate.enter(strip as u32);
        flood(table, &mut seat, strip, plane);
        give(table, &mut seat, strip);
    }
}
