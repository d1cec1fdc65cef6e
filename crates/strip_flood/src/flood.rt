//! The flooding of a strip.
//!
//! It goes on from the front of the highest rank that has queued pixels. That pixel looks at one neighbour after the other. A
//! neighbour that was not seen is queued, and where it is higher, the flooding goes on from it. A pixel that looked in all
//! directions is finished: it leaves the queue and is linked. Of the finished pixels of a rank that has queued ones, the
//! earliest is kept, and the others are linked to it. When the rank runs empty, its kept pixel is linked to the front of the next
//! rank. Only then is the queue asked for its highest rank: else the pixel to go on from is known.

ghost use Rattle.std.specs.Prelude.{◌^◌, ◌≡◌, ◌≢◌, ℕ, ◌+◌, ◌-◌, ◌<◌, ◌≤◌, length, IfOk, IfSome, MatchOption, slice_set, slice_index, [], true, false};
ghost use Rattle.comp_tree.specs.Forest.{no_node, IsForest};
ghost use Rattle.level_queue.specs.Queue.{list_at, IsEmpty};
ghost use Rattle.strip_flood.specs.Flood.{direction_count, rank_of, IsOf, IsNeighbour, IsFair, IsBusyBut, work, seen_count, looks};
ghost use Rattle.strip_flood.specs.Strips.{ground_of, state_of, values_of, cursor_at, IsStrip, IsBetweenTurns, IsCurrent, IsTurned, IsLooking, IsCurrentWhile, IsLook, IsStepOf, IsFresh, StandsForStrip, defined_in, adjacencies_in};

use crate::filled::filled;
use crate::strip::{Strip, directions};
use comp_tree::NONE;
use costs::{OutOfMemory, Steps};
use level_queue::LevelQueue;
use std::alloc::Global;
use std::sync::ledger::Ledger;

// The cursor of a finished pixel.
const FINISHED: u8 = 10;

/// What the flooding of a strip changes.
#[derive(Drop)]
pub struct Flood {
    // The pixels that were seen and are not finished, each by its place in the strip.
    pub(crate) queue: LevelQueue,
    // For each pixel 0 until it is seen, then the number of its next direction and 1, and `FINISHED` in the end.
    pub(crate) cursors: Vec<u8>,
    // For each rank that has queued pixels, the earliest of its finished ones, or `NONE`.
    pub(crate) earliest: Vec<u32>,
    pub(crate) links: Vec<u32>,
}

// The pixel that the flooding is at, the front of the highest rank.
#[derive(Clone, Copy)]
struct Current {
    rank: u32,
    pixel: u32,
}

impl Flood {
    // The memory for a strip of so many pixels and ranks. No other call takes any.
    pub(crate) fn new(alloc: Global, count: u32, ranks: u32) -> Result<Flood, OutOfMemory>
        requires count { count ≤ 2 ^ 24 }
        requires ranks { ranks ≤ 2 ^ 24 }
        ensures fresh { IfOk result (λ flood. IsFresh count ranks flood) }
    {
        let links = filled(alloc, NONE, count as usize)?;
        let earliest = filled(alloc, NONE, ranks as usize)?;
        let cursors = vec![in alloc; 0u8; count as usize]?;
        let queue = LevelQueue::new(alloc, count, ranks)?;
        Ok(Flood {
            queue,
            cursors,
            earliest,
            links,
        })
    }

    // Looks at the neighbour `n`, to which the cursor leads, and queues it where it is defined and was not seen. It tells where
    // the flooding goes on, if that is not the current pixel.
    #[inline]
    fn see<A: Ledger, B: Ledger>(
        &mut self,
        strip: &Strip,
        at: Current,
        cursor: u8,
        n: u32,
        queued: &mut Steps<A>,
        looked: &mut Steps<B>,
    ) -> Option<Current>
        requires strip { IsStrip strip.now }
        requires looking { IsLooking strip.now self.old at.pixel cursor }
        requires front { IsCurrentWhile strip.now self.old at.pixel cursor at.rank at.pixel }
        requires first { 0 < cursor }
        requires last { cursor ≤ direction_count strip.now.connect }
        requires next { IsNeighbour strip.now.connect strip.now.width strip.now.first
            (length strip.now.ranks.items) at.pixel (cursor - 1) n }
        ensures look { IsLook strip.now self.old self.new at.pixel cursor queued.old queued.new looked.old looked.new }
        ensures next { MatchOption result (IsCurrentWhile strip.now self.new at.pixel (cursor + 1) at.rank at.pixel)
            (λ c. IsCurrentWhile strip.now self.new at.pixel (cursor + 1) c.rank c.pixel) }
    {
        let there = (n - strip.first) as usize;
        // most neighbours were seen, and of those no rank is read
        if self.cursors[there] > 0 {
            looked.tick();
            return None;
        }
        let Some(rank) = strip.rank(n) else {
            return None;
        };
        looked.tick();
        self.queue.push(rank, n - strip.first, queued);
        self.cursors[there] = 1;
        if rank <= at.rank {
            return None;
        }
        Some(Current { rank, pixel: n })
    }

    // Looks in all directions that are left and stay in the strip, up to the first that leads to a higher pixel. It tells where
    // the flooding goes on, if that is not the current pixel.
    fn look_around<A: Ledger, B: Ledger>(
        &mut self,
        strip: &Strip,
        at: Current,
        queued: &mut Steps<A>,
        looked: &mut Steps<B>,
    ) -> Option<Current>
        requires strip { IsStrip strip.now }
        requires between { IsBetweenTurns strip.now self.old }
        requires front { IsCurrent strip.now self.old at.rank at.pixel }
        ensures between { IsBetweenTurns strip.now self.new }
        ensures step { IsStepOf strip.now self.old self.new queued.old queued.new looked.old looked.new }
        ensures work { IfSome result (λ c. work self.new.cursors.items < work self.old.cursors.items) }
        ensures next { MatchOption result (IsTurned strip.now self.new at.rank at.pixel)
            (λ c. IsCurrent strip.now self.new c.rank c.pixel) }
    {
        let inside = strip.directions_inside(at.pixel);
        let count = directions(strip.connect);
        // a local, so that it isn't read again at each look
        let corner = strip.width + 1;
        let here = (at.pixel - strip.first) as usize;
        let mut k = u32::from(self.cursors[here] - 1);
        while k < count {
            if inside >> k & 1 == 1 {
                let n = strip.neighbour(at.pixel, corner, k);
                let cursor = k as u8 + 1;
                if let Some(higher) = self.see(strip, at, cursor, n, queued, looked) {
                    self.cursors[here] = cursor + 1;
                    return Some(higher);
                }
            }
            k += 1;
        }
        self.cursors[here] = k as u8 + 1;
        None
    }

    // Takes out the current pixel, which has no direction left. It is linked to the kept pixel of its rank, or kept in its place.
    fn retire(&mut self, strip: &Strip, at: Current)
        requires strip { IsStrip strip.now }
        requires between { IsBetweenTurns strip.now self.old }
        requires turned { IsTurned strip.now self.old at.rank at.pixel }
        ensures items { self.new.queue.items ≡ self.old.queue.items }
        ensures fair { IsFair (ground_of strip.now) (state_of self.new) }
        ensures busy { IsBusyBut (ground_of strip.now) (state_of self.new) at.rank }
        ensures kept { slice_index self.new.earliest.items at.rank ≢ no_node }
        ensures above { (t : ℕ) → at.rank < t → list_at self.new.queue.lists t ≡ [] }
        ensures cursors { self.new.cursors.items ≡ slice_set self.old.cursors.items (at.pixel - strip.now.first) 10 }
    {
        let place = (at.pixel - strip.first) as usize;
        let _ = self.queue.pop_front(at.rank);
        self.cursors[place] = FINISHED;
        let kept = self.earliest[at.rank as usize];
        if kept == NONE {
            self.earliest[at.rank as usize] = at.pixel;
            return;
        }
        if kept < at.pixel {
            self.links[place] = kept;
            return;
        }
        self.links[(kept - strip.first) as usize] = at.pixel;
        self.earliest[at.rank as usize] = at.pixel;
    }

    // Closes a rank that ran empty: its kept pixel is linked to the front of the highest rank, where the flooding goes on, if there
    // is one.
    fn close(&mut self, strip: &Strip, rank: u32) -> Option<Current>
        requires strip { IsStrip strip.now }
        requires items { self.old.queue.items ≡ length strip.now.ranks.items }
        requires fair { IsFair (ground_of strip.now) (state_of self.old) }
        requires busy { IsBusyBut (ground_of strip.now) (state_of self.old) rank }
        requires low { rank < length strip.now.levels.items }
        requires kept { slice_index self.old.earliest.items rank ≢ no_node }
        requires empty { list_at self.old.queue.lists rank ≡ [] }
        requires above { (t : ℕ) → rank < t → list_at self.old.queue.lists t ≡ [] }
        ensures between { IsBetweenTurns strip.now self.new }
        ensures cursors { self.new.cursors ≡ self.old.cursors }
        ensures next { MatchOption result (IsEmpty self.new.queue.lists) (λ c. IsCurrent strip.now self.new c.rank c.pixel) }
    {
        let kept = self.earliest[rank as usize];
        let Some(next) = self.queue.highest() else {
            self.earliest[rank as usize] = NONE;
            return None;
        };
        let Some(item) = self.queue.front(next) else {
            unreachable!()
        };
        let pixel = strip.first + item;
        self.links[(kept - strip.first) as usize] = pixel;
        self.earliest[rank as usize] = NONE;
        Some(Current { rank: next, pixel })
    }

    // Takes out the current pixel, which has no direction left, and closes its rank where it was the last. It tells where the
    // flooding goes on, if a pixel is queued.
    fn finish(&mut self, strip: &Strip, at: Current) -> Option<Current>
        requires strip { IsStrip strip.now }
        requires between { IsBetweenTurns strip.now self.old }
        requires turned { IsTurned strip.now self.old at.rank at.pixel }
        ensures between { IsBetweenTurns strip.now self.new }
        ensures cursors { self.new.cursors.items ≡ slice_set self.old.cursors.items (at.pixel - strip.now.first) 10 }
        ensures next { MatchOption result (IsEmpty self.new.queue.lists) (λ c. IsCurrent strip.now self.new c.rank c.pixel) }
    {
        self.retire(strip, at);
        if let Some(item) = self.queue.front(at.rank) {
            return Some(Current {
                rank: at.rank,
                pixel: strip.first + item,
            });
        }
        self.close(strip, at.rank)
    }

    // One turn of the flooding, from the current pixel. It tells where the flooding goes on, if a pixel is queued.
    fn turn<A: Ledger, B: Ledger>(
        &mut self,
        strip: &Strip,
        at: Current,
        queued: &mut Steps<A>,
        looked: &mut Steps<B>,
    ) -> Option<Current>
        requires strip { IsStrip strip.now }
        requires between { IsBetweenTurns strip.now self.old }
        requires front { IsCurrent strip.now self.old at.rank at.pixel }
        ensures between { IsBetweenTurns strip.now self.new }
        ensures step { IsStepOf strip.now self.old self.new queued.old queued.new looked.old looked.new }
        ensures work { work self.new.cursors.items < work self.old.cursors.items }
        ensures next { MatchOption result (IsEmpty self.new.queue.lists) (λ c. IsCurrent strip.now self.new c.rank c.pixel) }
    {
        if let Some(higher) = self.look_around(strip, at, queued, looked) {
            return Some(higher);
        }
        self.finish(strip, at)
    }

    // Goes on from the current pixel until no pixel is queued.
    fn drain<A: Ledger, B: Ledger>(
        &mut self,
        strip: &Strip,
        start: Current,
        queued: &mut Steps<A>,
        looked: &mut Steps<B>,
    )
        requires strip { IsStrip strip.now }
        requires between { IsBetweenTurns strip.now self.old }
        requires front { IsCurrent strip.now self.old start.rank start.pixel }
        ensures between { IsBetweenTurns strip.now self.new }
        ensures step { IsStepOf strip.now self.old self.new queued.old queued.new looked.old looked.new }
        ensures ended { IsEmpty self.new.queue.lists }
    {
        let mut next = Some(start);
        while let Some(at) = next {
            next = self.turn(strip, at, queued, looked);
        }
    }

    // Floods the component of the pixel `p`, if it is defined and was not seen.
    fn flood_from<A: Ledger, B: Ledger>(
        &mut self,
        strip: &Strip,
        p: u32,
        queued: &mut Steps<A>,
        looked: &mut Steps<B>,
    )
        requires strip { IsStrip strip.now }
        requires between { IsBetweenTurns strip.now self.old }
        requires inside { IsOf (ground_of strip.now) p }
        requires empty { IsEmpty self.old.queue.lists }
        ensures between { IsBetweenTurns strip.now self.new }
        ensures step { IsStepOf strip.now self.old self.new queued.old queued.new looked.old looked.new }
        ensures ended { IsEmpty self.new.queue.lists }
        ensures seen { rank_of (ground_of strip.now) p < length strip.now.levels.items →
            0 < cursor_at strip.now self.new p }
    {
        let Some(rank) = strip.rank(p) else {
            return;
        };
        let place = (p - strip.first) as usize;
        if self.cursors[place] > 0 {
            return;
        }
        self.queue.push(rank, p - strip.first, queued);
        self.cursors[place] = 1;
        self.drain(strip, Current { rank, pixel: p }, queued, looked);
    }

    // Floods the strip: the links then stand for its adjacencies.
    pub(crate) fn run<A: Ledger, B: Ledger>(
        &mut self,
        strip: &Strip,
        queued: &mut Steps<A>,
        looked: &mut Steps<B>,
    )
        requires strip { IsStrip strip.now }
        requires between { IsBetweenTurns strip.now self.old }
        requires empty { IsEmpty self.old.queue.lists }
        requires unseen { seen_count self.old.cursors.items ≡ 0 }
        requires unlooked { looks (ground_of strip.now) self.old.cursors.items ≡ 0 }
        ensures links { length self.new.links.items ≡ length strip.now.ranks.items }
        ensures forest { IsForest (values_of strip.now) strip.now.first self.new.links.items }
        ensures stands { StandsForStrip strip.now self.new.links.items }
        ensures queued { queued.new ≡ queued.old + defined_in strip.now }
        ensures looked { looked.new ≡ looked.old + adjacencies_in strip.now }
    {
        let end = strip.first + strip.count();
        for p in strip.first..end {
            self.flood_from(strip, p, queued, looked);
        }
    }
}
