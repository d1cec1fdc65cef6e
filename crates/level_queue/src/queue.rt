//! The queue: a list for each rank, whose items are linked in one array of links.
ghost use Rattle.std.specs.Prelude.{◌≡◌, ℕ, ◌+◌, ◌^◌, ◌<◌, ◌≤◌, [], ◌∷◌, ◌++◌, length, drop, slice_get, IfOk, MatchOption};
ghost use Rattle.level_queue.specs.Queue.{list_at, with_list, empty_queue, IsQueued, IsEmpty, IsHighestRank, IsFront, StandsOnce};

use crate::rank_set::RankSet;
use crate::raw_array::RawArray;
use costs::{OutOfMemory, Steps};
use std::alloc::Global;
use std::marker::{Model, Send, Sync};
use std::sync::ledger::Ledger;

/// The first and the last item of a list that isn't empty. They lie together, so that a look at a rank touches one cache line.
#[derive(Clone, Copy)]
pub struct Ends {
    first: u32,
    last: u32,
}

/// A hierarchical queue (Salembier, Oliveras and Garrido 1998): the items are the numbers below a bound, and each rank has a
/// first-in-first-out list of them. An item stands in one list at most. The queue may be moved to another thread, and shared.
#[derive(Drop)]
pub struct LevelQueue {
    // the item after each one in its list: none at the last item of a list, and none at an item that isn't queued
    next: RawArray<u32>,
    // of each rank in use
    ends: RawArray<Ends>,
    used: RankSet,
}

impl Model for LevelQueue {
    ghost use Rattle.level_queue.specs.Queue.{Queue};

    ghost Value = { Queue };

    ghost use Rattle.level_queue.specs.Links.{queue_of, Holds};

    ghost view = { λ q. queue_of q.next q.ends };

    ghost invariant = { λ q. Holds q.next q.ends q.used };
}

impl LevelQueue {
    /// A queue for the items and the ranks below these numbers, 0 allowed, with empty lists. It takes 4 bytes an item and 8 bytes
    /// a rank, which aren't cleared, and a bit a rank. No other call takes memory.
    pub fn new(alloc: Global, items: u32, ranks: u32) -> Result<LevelQueue, OutOfMemory>
        requires items { items ≤ 2 ^ 24 }
        requires ranks { ranks ≤ 2 ^ 24 }
        ensures { IfOk result (λ queue. queue ≡ empty_queue items ranks) }
    {
        let next = RawArray::new(alloc, items as usize)?;
        let ends = RawArray::new(alloc, ranks as usize)?;
        let used = RankSet::new(alloc, ranks as usize)?;
        Ok(LevelQueue { next, ends, used })
    }

    /// Appends the item to the end of the rank's list, and counts one step.
    #[inline]
    pub fn push<L: Ledger>(&mut self, rank: u32, item: u32, queued: &mut Steps<L>)
        requires rank { rank < length self.old.lists }
        requires item { item < self.old.items }
        requires free { ¬ IsQueued self.old item }
        ensures appended { self.new
            ≡ with_list self.old rank (list_at self.old.lists rank ++ item ∷ []) }
        ensures ticked { queued.new ≡ queued.old + 1 }
    {
        queued.tick();
        self.append(rank, item);
    }

    fn append(&mut self, rank: u32, item: u32)
        requires rank { rank < length self.old.lists }
        requires item { item < self.old.items }
        requires free { ¬ IsQueued self.old item }
        ensures { self.new ≡ with_list self.old rank (list_at self.old.lists rank ++ item ∷ []) }
    {
        let at = rank as usize;
        if self.used.contains(at) {
            let ends = self.ends.get(at);
            self.next.write(ends.last as usize, item);
            self.ends.write(at, Ends { last: item, ..ends });
        } else {
            self.used.insert(at);
            let ends = Ends {
                first: item,
                last: item,
            };
            self.ends.write(at, ends);
        }
    }

    /// The greatest rank whose list isn't empty. It reads four words, however many ranks there are.
    #[inline]
    pub fn highest(&self) -> Option<u32>
        ensures { MatchOption result (IsEmpty self.now.lists) (IsHighestRank self.now.lists) }
    {
        match self.used.greatest() {
            Some(rank) => Some(rank as u32),
            None => None,
        }
    }

    /// The first item of the rank's list: the one that has waited longest.
    #[inline]
    pub fn front(&self, rank: u32) -> Option<u32>
        requires { rank < length self.now.lists }
        ensures first { MatchOption result
            (list_at self.now.lists rank ≡ [])
            (IsFront self.now.lists rank) }
        ensures once { StandsOnce self.now }
    {
        let at = rank as usize;
        if self.used.contains(at) {
            Some(self.ends.get(at).first)
        } else {
            None
        }
    }

    /// Takes the first item out of the rank's list.
    #[inline]
    pub fn pop_front(&mut self, rank: u32) -> Option<u32>
        requires { rank < length self.old.lists }
        ensures first { result ≡ slice_get (list_at self.old.lists rank) 0 }
        ensures rest { self.new ≡ with_list self.old rank (drop 1 (list_at self.old.lists rank)) }
        ensures once { StandsOnce self.old }
    {
        let at = rank as usize;
        if !self.used.contains(at) {
            return None;
        }
        let ends = self.ends.take(at);
        if ends.first == ends.last {
            self.used.remove(at);
        } else {
            let first = self.next.take(ends.first as usize);
            self.ends.write(at, Ends { first, ..ends });
        }
        Some(ends.first)
    }
}

// What may be moved to another thread, and shared with it. That the queue is so is proved here, where its arrays are known.
trait CrossesThreads: Send + Sync {}

impl CrossesThreads for LevelQueue {}
