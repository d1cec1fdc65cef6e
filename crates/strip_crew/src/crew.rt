//! A crew of workers that floods all strips of a plane.

ghost use Rattle.std.specs.Prelude.{◌≡◌, ◌≢◌, ℕ, ◌+◌, ◌-◌, ◌*◌, ◌++◌, ◌<◌, ◌≤◌, List, [], ◌∷◌, All, IfOk, IsSomeAnd, length, vec_len, vec_capacity, false};
ghost use Rattle.std.specs.Mem.Slots.{slots_items, slots_len, IsFull};
ghost use Rattle.comp_tree.specs.Grid.{IsAdjacency};
ghost use Rattle.tree_join.specs.Cuts.{IsCut};
ghost use Rattle.comp_tree.specs.Forest.{IsForest, StandsFor};
ghost use Rattle.strip_crew.specs.Copied.{AreCopied};
ghost use Rattle.strip_crew.specs.Run.{HasShortStrips, IsSized, plan_of, run_with, strips};
ghost use Rattle.strip_crew.specs.Counting.{fresh};
ghost use Rattle.strip_crew.specs.Claims.{view, run_of, opening_view, AreReady, IsRunOver};
ghost use Rattle.strip_crew.specs.Workers.{AreFlooded, IsRecruit, IsVeteran, HasPast, HasSettled};

use crate::claiming::worker;
use crate::cut::join_cut;
use crate::gate::Gate;
use crate::prepare::prepare_all;
use crate::rule::{ClaimSeat, ClaimTable, Dismiss, Key, Recruit};
use atomic_table::{Closed, Refused};
use comp_tree::{Connect, Forest, NONE, Plane};
use costs::OutOfMemory;
use std::alloc::Global;
use std::snapshot::Snapshot;
use std::thread;
use std::thread::Threads;
use strip_flood::StripJob;

// A seat for each worker, out of the first one, in places that have room.
fn recruit(
    table: &ClaimTable,
    seat: ClaimSeat,
    workers: u32,
    places: Vec<Option<ClaimSeat>>,
) -> Vec<Option<ClaimSeat>>
    requires table { seat.table_id ≡ table.now.shared.table_id }
    requires words { table.now.shared.table_id.words ≡ 2 }
    requires first { seat.me ≡ (view (fresh workers) (run_of table.now.shared.key), []) }
    requires workers { 0 < workers }
    requires empty { vec_len places ≡ 0 }
    requires room { workers ≤ vec_capacity places }
    ensures count { vec_len result ≡ workers }
    ensures each { All (IsRecruit table.now.shared.table_id (run_of table.now.shared.key)) result.items }
{
    let mut seat = seat;
    let mut places = places;
    for _ in 1..workers {
        let next = table.shared.split_seat::<Recruit>(&mut seat);
        places.push_reserved(Some(next));
    }
    places.push_reserved(Some(seat));
    places
}

// Runs the worker whose seat lies in this place, and puts the seat back.
fn work<G: Gate>(table: &ClaimTable, place: &mut Option<ClaimSeat>, plane: &Plane, gate: &G)
    requires words { table.now.shared.table_id.words ≡ 2 }
    requires plane { IsRunOver (run_of table.now.shared.key) plane.now }
    requires recruit { IsRecruit table.now.shared.table_id (run_of table.now.shared.key) place.old }
    ensures { IsVeteran table.now.shared.table_id (run_of table.now.shared.key) place.new }
{
    if let Some(seat) = place.take() {
        *place = Some(worker(table, seat, plane, gate));
    }
}

// Runs all workers, each in a thread of its own where one can be made.
fn run_workers<R: Threads + Sync, G: Gate>(
    rt: &R,
    table: &ClaimTable,
    places: &mut [Option<ClaimSeat>],
    workers: u32,
    plane: &Plane,
    gate: &G,
)
    requires workers { 0 < workers }
    requires words { table.now.shared.table_id.words ≡ 2 }
    requires plane { IsRunOver (run_of table.now.shared.key) plane.now }
    requires recruits { All (IsRecruit table.now.shared.table_id (run_of table.now.shared.key)) places.old }
    ensures { All (IsVeteran table.now.shared.table_id (run_of table.now.shared.key)) places.new }
{
    thread::for_each_mut(
        rt,
        places,
        workers as usize,
        &|_, place: &mut Option<ClaimSeat>|
            requires { (table.now.shared.table_id.words ≡ 2)
                × IsRunOver (run_of table.now.shared.key) plane.now
                × IsRecruit table.now.shared.table_id (run_of table.now.shared.key) place.now }
            ensures { IsVeteran table.entry.now.shared.table_id (run_of table.entry.now.shared.key) place.exit.now }
        { work(table, place, plane, gate) },
    );
}

// Joins the seats of all workers into one.
fn dismiss(table: &ClaimTable, places: Vec<Option<ClaimSeat>>) -> Option<ClaimSeat>
    requires words { table.now.shared.table_id.words ≡ 2 }
    requires some { 0 < vec_len places }
    requires each { All (IsVeteran table.now.shared.table_id (run_of table.now.shared.key)) places.items }
    ensures { IsSomeAnd result (HasPast table.now.shared.table_id (vec_len places)) }
{
    let mut places = places;
    let mut last = places.pop()??;
    while let Some(place) = places.pop() {
        let seat = place?;
        table.shared.join_seat::<Dismiss>(&mut last, seat);
    }
    Some(last)
}

// Closes the table, once the seats of all workers are one.
fn close_crew(table: ClaimTable, last: ClaimSeat) -> Closed<StripJob, Global>
    requires last { HasPast table.shared.table_id (run_of table.shared.key).workers last }
    ensures full { IsFull result.slots }
    ensures settled { HasSettled (run_of table.shared.key) (slots_items result.words) (slots_items result.slots) }
    ensures count { slots_len result.slots ≡ table.shared.table_id.slots }
{
    table.close_with(last)
}

// Puts links behind others, where there is room.
fn append_links(links: &mut Vec<u32>, more: &[u32])
    requires { vec_len links.old + length more.now ≤ vec_capacity links.old }
    ensures items { links.new.items ≡ links.old.items ++ more.now }
    ensures room { vec_capacity links.old ≤ vec_capacity links.new }
{
    let Ok(()) = links.extend_from_slice(more) else {
        unreachable!()
    };
}

// Copies the links of all jobs, in order.
fn copy_links(
    closed: Closed<StripJob, Global>,
    links: Vec<u32>,
    plane: &Plane,
    connect: Connect,
    cut: &[u32],
) -> Vec<u32>
    requires full { IsFull closed.slots }
    requires cut { IsCut plane.now.shape.height cut.now }
    requires jobs { AreFlooded (plan_of plane.now connect cut.now) (slots_items closed.slots) }
    requires empty { links.items ≡ [] }
    requires room { length plane.now.values ≤ vec_capacity links }
    ensures { AreCopied (plan_of plane.now connect cut.now) (length cut.now) result.items }
{
    let mut closed = closed;
    let mut links = links;
    // for its clauses alone: how many pixels a plane has
    let _shape = plane.shape();
    for i in 0..closed.slot_count() {
        let job = closed.take(i);
        append_links(&mut links, job.parents());
    }
    closed.free();
    links
}

// Room for the links of all strips. One strip needs none: its links stay where its flooding wrote them.
fn room_for_links(alloc: Global, plane: &Plane, cut: &[u32]) -> Result<Vec<u32>, OutOfMemory>
    ensures empty { IfOk result (λ links. links.items ≡ []) }
    ensures room { IfOk result (λ links. length cut.now ≢ 1 → length plane.now.values ≤ vec_capacity links) }
{
    if cut.len() == 1 {
        return Ok(Vec::new(alloc));
    }
    Ok(Vec::with_capacity(alloc, plane.shape().pixels() as usize)?)
}

fn only_links(
    closed: Closed<StripJob, Global>,
    plane: &Plane,
    connect: Connect,
    cut: &[u32],
) -> Vec<u32>
    requires full { IsFull closed.slots }
    requires cut { IsCut plane.now.shape.height cut.now }
    requires jobs { AreFlooded (plan_of plane.now connect cut.now) (slots_items closed.slots) }
    requires one { length cut.now ≡ 1 }
    ensures { AreCopied (plan_of plane.now connect cut.now) (length cut.now) result.items }
{
    let mut closed = closed;
    // for its clauses alone: how many pixels a plane has
    let _shape = plane.shape();
    let job = closed.take(0);
    closed.free();
    job.into_parents()
}

// The links of all jobs, in order: copied where there is room for them, but for one strip, whose job gives them away.
fn gather_links(
    closed: Closed<StripJob, Global>,
    room: Vec<u32>,
    plane: &Plane,
    connect: Connect,
    cut: &[u32],
) -> Vec<u32>
    requires full { IsFull closed.slots }
    requires cut { IsCut plane.now.shape.height cut.now }
    requires jobs { AreFlooded (plan_of plane.now connect cut.now) (slots_items closed.slots) }
    requires empty { room.items ≡ [] }
    requires room { length cut.now ≢ 1 → length plane.now.values ≤ vec_capacity room }
    ensures { AreCopied (plan_of plane.now connect cut.now) (length cut.now) result.items }
{
    if cut.len() == 1 {
        return only_links(closed, plane, connect, cut);
    }
    copy_links(closed, room, plane, connect, cut)
}

// The fixed data of a run, with a copy of the cut.
fn key_of(
    alloc: Global,
    plane: &Plane,
    connect: Connect,
    cut: &[u32],
    workers: u32,
) -> Result<Key, OutOfMemory>
    ensures { IfOk result (λ key. run_of key ≡ run_with plane.now connect cut.now workers) }
{
    let mut rows = Vec::with_capacity(alloc, cut.len())?;
    append_links(&mut rows, cut);
    Ok(Key {
        plane: Snapshot::of(plane),
        connect,
        cut: rows,
        workers,
    })
}

// The table of a run, with the jobs in its slots, and its first seat.
fn open_table(
    alloc: Global,
    jobs: Vec<StripJob>,
    key: &Key,
) -> Result<(ClaimTable, ClaimSeat), OutOfMemory>
    requires sized { IsSized (strips (run_of key.now)) key.now.workers }
    requires ready { AreReady (run_of key.now).plan 0 (strips (run_of key.now)) jobs.items }
    ensures words { IfOk result (λ made. made.0.shared.table_id.words ≡ 2) }
    ensures table { IfOk result (λ made. made.1.table_id ≡ made.0.shared.table_id) }
    ensures run { IfOk result (λ made. run_of made.0.shared.key ≡ run_of key.now) }
    ensures first { IfOk result
        (λ made. made.1.me ≡ (opening_view (run_of made.0.shared.key), [])) }
{
    match ClaimTable::new(alloc, &[0, 0], jobs, key) {
        Ok(made) => Ok(made),
        Err(Refused { slots: _ }) => Err(OutOfMemory),
    }
}

// Floods all strips at the table by as many workers as its run has, and closes it.
fn run_crew<R: Threads + Sync, G: Gate>(
    rt: &R,
    table: ClaimTable,
    seat: ClaimSeat,
    places: Vec<Option<ClaimSeat>>,
    workers: u32,
    plane: &Plane,
    gate: &G,
) -> Closed<StripJob, Global>
    requires table { seat.table_id ≡ table.shared.table_id }
    requires words { table.shared.table_id.words ≡ 2 }
    requires first { seat.me ≡ (opening_view (run_of table.shared.key), []) }
    requires workers { (run_of table.shared.key).workers ≡ workers }
    requires some { 0 < workers }
    requires plane { IsRunOver (run_of table.shared.key) plane.now }
    requires empty { vec_len places ≡ 0 }
    requires room { workers ≤ vec_capacity places }
    ensures full { IsFull result.slots }
    ensures jobs { AreFlooded (run_of table.shared.key).plan (slots_items result.slots) }
{
    let mut places = recruit(&table, seat, workers, places);
    run_workers(rt, &table, &mut places, workers, plane, gate);
    let Some(last) = dismiss(&table, places) else {
        unreachable!()
    };
    close_crew(table, last)
}

// The links of all strips, one after the other, each flooded by one of the workers.
fn flood_strips<R: Threads + Sync, G: Gate>(
    rt: &R,
    alloc: Global,
    plane: &Plane,
    connect: Connect,
    cut: &[u32],
    workers: u32,
    gate: &G,
) -> Result<Vec<u32>, OutOfMemory>
    requires cut { IsCut plane.now.shape.height cut.now }
    requires short { HasShortStrips plane.now.shape.width plane.now.shape.height cut.now }
    requires some { 0 < workers }
    requires most { workers ≤ 64 }
    ensures { IfOk result
        (λ links. AreCopied (plan_of plane.now connect cut.now) (length cut.now) links.items) }
{
    let jobs = prepare_all(rt, alloc, plane, connect, cut, workers)?;
    let room = room_for_links(alloc, plane, cut)?;
    let places = Vec::with_capacity(alloc, workers as usize)?;
    let key = key_of(alloc, plane, connect, cut, workers)?;
    let (table, seat) = open_table(alloc, jobs, &key)?;
    let closed = run_crew(rt, table, seat, places, workers, plane, gate);
    Ok(gather_links(closed, room, plane, connect, cut))
}

// A place for the skip of each pixel. One strip needs none: nothing is joined.
fn room_for_skips(alloc: Global, plane: &Plane, cut: &[u32]) -> Result<Vec<u32>, OutOfMemory>
    ensures { IfOk result (λ skips. length cut.now ≢ 1 → length skips.items ≡ length plane.now.values) }
{
    if cut.len() == 1 {
        return Ok(Vec::new(alloc));
    }
    Ok(vec![in alloc; NONE; plane.shape().pixels() as usize]?)
}

/// Floods the plane in strips and joins them: a forest of the plane that stands for all its adjacencies, whatever the
/// cut, the number of workers and the schedule.
///
/// `cut` has the first row of each strip: it begins with 0 and rises, up to a row of the plane (`even_cut` gives such
/// a one). In a plane of more than 2^24 pixels no strip has more than that. There are from 1 to 64 workers, each in a
/// thread of its own where one can be made; else they run one after another. All memory is taken before the first of them
/// starts: a place for the skip of each pixel where there are several strips, the jobs of the strips (prepared in parallel),
/// the table of claims, a place for each worker's seat, and the links, which one strip's job has already. Once all strips are
/// flooded, `join_group` joins them with 6 forks, so up to 64 groups of strips at once, whatever the number of workers.
pub fn flood_all<R: Threads + Sync, G: Gate>(
    rt: &R,
    alloc: Global,
    plane: &Plane,
    connect: Connect,
    cut: &[u32],
    workers: u32,
    gate: &G,
) -> Result<Forest, OutOfMemory>
    requires cut { IsCut plane.now.shape.height cut.now }
    requires short { HasShortStrips plane.now.shape.width plane.now.shape.height cut.now }
    requires some { 0 < workers }
    requires most { workers ≤ 64 }
    ensures count { IfOk result (λ forest. length forest ≡ length plane.now.values) }
    ensures forest { IfOk result (λ forest. IsForest plane.now.values 0 forest) }
    ensures stands { IfOk result (λ forest. StandsFor plane.now.values 0 forest
        (IsAdjacency plane.now.values plane.now.shape.width connect)) }
{
    let mut skips = room_for_skips(alloc, plane, cut)?;
    let mut links = flood_strips(rt, alloc, plane, connect, cut, workers, gate)?;
    join_cut(rt, &mut links, &mut skips, plane, connect, cut);
    Ok(Forest::of(links))
}
