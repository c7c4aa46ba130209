//! Dropping what is not live any more, a part of the map at a time.

ghost use Rattle.std.specs.Prelude.{◌≡◌, ◌<◌, ◌≤◌, ◌+◌, ◌-◌, ◌⊎◌, ◌↔◌, ℕ, List, [], true, false, length, vec_capacity, IsTrue, OnOk, OnErr};
ghost use Rattle.std.specs.List.{list_any};
ghost use Rattle.fleet_observe.specs.Members.{Has};
ghost use Rattle.fleet_observe.specs.Observation.{ObservationData, expires};
ghost use Rattle.fleet_cache.specs.Cached.{IsCovered};
ghost use Rattle.fleet_cache.specs.Cut.{is_hidden};
ghost use Rattle.fleet_cache.specs.declared.words.TheConstants.{MOST_WORDS};
ghost use Rattle.fleet_cache.specs.steps.Held.{IsHeld};
ghost use Rattle.fleet_cache.specs.steps.Keyed.{IsOfKey};
ghost use Rattle.fleet_cache.specs.steps.Reclaimed.{IsReclaimed, AllLive, IsLiveFront, StaysIn, IsPassed, IsPassedAt, StopsAfter};
ghost use Rattle.fleet_cache.specs.steps.Rounds.{count, is_ahead};

use crate::cut::Cut;
use crate::held::Held;
use crate::item::Item;
use crate::lookup::cut_at;
use crate::slot::Slot;
use crate::store::Key;
use crate::words::{MOST_WORDS, SHORT_WORDS};
use fleet_observe::{Moment, Observation};
use std::alloc::{AllocError, Allocator};

// Lets through: another number, which no clause has. In a cache of more than 2^20 fronts a purge then
// looks at more or fewer of them. No test has so many.
/// A purge looks at one in this many fronts, and at `LEAST` at least.
const SHARE: usize = 256;

// Lets through: another number, which no clause has: a purge then looks at more or fewer fronts. A test
// that compares a cache with a plain map (layers/reclaims.rt) fails where it is 4095 or 4097.
/// How many fronts a purge looks at at least, if there are as many.
const LEAST: usize = 4096;

/// Where reclaiming stopped: the words of the key of the front that it looked at last, which is of a
/// short name where they are `SHORT_WORDS`, or no words at the start. Short names come first.
#[derive(Drop)]
pub(crate) struct Cursor<A: Allocator> {
    key: Key<A>,
}

impl<A: Allocator> Cursor<A> {
    /// At the start, without room for a key. This allocates nothing.
    pub(crate) fn new(alloc: A) -> Cursor<A>
        ensures start { result.key.items ≡ [] }
    {
        Cursor {
            key: Vec::new(alloc),
        }
    }

    /// Makes room for any key, before the map takes an observation in that it does not hold. It
    /// allocates once at most; `Err` where that fails. It stays where it is.
    pub(crate) fn make_room(
        &mut self,
        held: &Held<A>,
        observation: &Observation<A>,
    ) -> Result<(), AllocError>
        ensures room { OnOk result (¬ IsCovered held.now observation.now
            → MOST_WORDS ≤ vec_capacity self.new.key) }
        ensures stays { self.new.key.items ≡ self.old.key.items }
        ensures memory { OnErr result (¬ IsCovered held.now observation.now) }
        ensures own { OnErr result (IsHeld held.now) }
    {
        if self.key.capacity() >= MOST_WORDS || held.covers(observation) {
            return Ok(());
        }
        self.key.reserve_exact(MOST_WORDS)
    }

    /// Goes back to the start.
    pub(crate) fn rewind(&mut self)
        ensures start { self.new.key.items ≡ [] }
    {
        self.key.clear();
    }

    /// Whether it is at the start.
    pub(crate) fn is_at_start(&self) -> bool
        ensures start { IsTrue result ↔ (self.now.key.items ≡ []) }
    {
        self.key.is_empty()
    }

    /// The words of the key of the front that it is at.
    pub(crate) fn key(&self) -> &Key<A>
        ensures { result.now ≡ self.now.key }
    {
        &self.key
    }

    // Lets through: a body that stops at each name, and returns a greater number in `left`. The place
    // is then looked up anew for each name, which costs time alone: callers count the looks down
    // themselves.
    /// Goes on over at most `left` fronts, those of short names first, up to the first that holds
    /// anything to drop, or back to the start where there are no more. What a flush withdraws counts
    /// with `flushes` alone. It allocates nothing: without room for the key it goes back to the start
    /// too. With room for any key, each front that it looked at held some observation, and nothing
    /// that it passed over is to drop, or ends before `soonest`.
    pub(crate) fn pass(&mut self, held: &Held<A>, now: Moment, left: usize, flushes: bool) -> Passed
        ensures passed { MOST_WORDS ≤ vec_capacity self.old.key
            → IsPassed (StaysIn held.now now flushes result.soonest) held.now
            self.old.key.items self.new.key.items }
        ensures stopped { MOST_WORDS ≤ vec_capacity self.old.key → result.is_stale ≡ false
            → IsPassedAt (StaysIn held.now now flushes result.soonest) held.now
            self.new.key.items }
        ensures stops { StopsAfter held.now self.old.key.items self.new.key.items }
        ensures looked { MOST_WORDS ≤ vec_capacity self.old.key
            → (self.new.key.items ≡ []) ⊎ (count (is_ahead self.new.key.items) held.now + left
            ≤ count (is_ahead self.old.key.items) held.now + result.left) }
        ensures room { vec_capacity self.old.key ≤ vec_capacity self.new.key }
    {
        let mut passed = Passed {
            left,
            soonest: u64::MAX,
            is_stale: false,
        };
        if self.key.len() <= SHORT_WORDS {
            for (key, front) in held.short_behind(&self.key) {
                if passed.look(held, front, now, flushes) {
                    if !self.stop_at(&key.words()) {
                        passed.left = 0;
                    }
                    return passed;
                }
            }
            self.key.clear();
        }
        for (key, front) in held.long_behind(&self.key) {
            if passed.look(held, front, now, flushes) {
                if !self.stop_at(key) {
                    passed.left = 0;
                }
                return passed;
            }
        }
        self.key.clear();
        passed.left = 0;
        passed
    }

    /// Stops at the key with these words. Returns whether there is room for it.
    fn stop_at(&mut self, words: &[u64]) -> bool
        ensures at { result ≡ true → self.new.key.items ≡ words.now }
        ensures start { result ≡ false → self.new.key.items ≡ [] }
        ensures full { result ≡ false → vec_capacity self.old.key < length words.now }
        ensures room { vec_capacity self.old.key ≤ vec_capacity self.new.key }
    {
        self.key.clear();
        words.len() <= self.key.capacity() && self.key.extend_from_slice(words).is_ok()
    }
}

/// What a cursor passed over.
#[derive(Drop)]
pub(crate) struct Passed {
    /// How many of the fronts are left to be looked at.
    pub left: usize,
    /// Nothing that was passed over ends before this moment.
    pub soonest: u64,
    /// Whether the front that was looked at last holds anything to drop.
    pub is_stale: bool,
}

impl Passed {
    /// Looks at one more front. Returns whether to stop at it: it holds anything to drop, or is the
    /// last one to be looked at.
    fn look<A: Allocator>(
        &mut self,
        held: &Held<A>,
        front: &Slot<A>,
        now: Moment,
        flushes: bool,
    ) -> bool
        requires { (words : List ℕ) × IsOfKey held.now words front.now }
        ensures left { self.new.left ≡ self.old.left - 1 }
        ensures soonest { self.new.soonest ≤ self.old.soonest }
        ensures stays { self.new.is_stale ≡ false → (o : ObservationData) → Has front.now o
            → StaysIn held.now now flushes self.new.soonest o }
        ensures goes_on { result ≡ false → self.new.is_stale ≡ false }
    {
        self.left = self.left.saturating_sub(1);
        self.is_stale = is_stale(held, front, now, flushes);
        if self.is_stale {
            return true;
        }
        self.soonest = self.soonest.min(front.soonest());
        self.left == 0
    }
}

// Lets through: a body that answers `true` for any front. The front is then looked up, and nothing of
// it is dropped: that costs time alone.
/// Whether a front of a cache holds anything that has ended at the moment, or with `flushes` anything
/// that is not live. None of its items is looked at without `flushes`, or where no flush was noted.
fn is_stale<A: Allocator>(held: &Held<A>, front: &Slot<A>, now: Moment, flushes: bool) -> bool
    requires { (words : List ℕ) × IsOfKey held.now words front.now }
    ensures unended { result ≡ false → (o : ObservationData) → Has front.now o
        → now < expires o }
    ensures live { result ≡ false → flushes ≡ true → IsLiveFront now held.now front.now }
{
    if front.soonest() <= now.value() {
        return true;
    }
    if !flushes {
        return false;
    }
    if !held.may_flush_any() {
        return false;
    }
    let Some(first) = front.items().first() else {
        return false;
    };
    let cut = cut_at(held, first.observation().name().octets(), now);
    hides_any(&cut, front.items())
}

/// Whether a cut hides any of these items.
fn hides_any<A: Allocator>(cut: &Cut, items: &[Item<A>]) -> bool
    ensures { result ≡ list_any (is_hidden cut.now) items.now }
{
    items.iter().any(|item| cut.hides(item.observation()))
}

// Lets through: a body that looks at fewer names, or at none: clauses say that a purge drops nothing
// that is live, not how far it goes. What has ended then stays in memory. `purges_go_round` counts the
// memory that purges give back, and `purges_leave_what_is_live_in_memory` looks for each observation
// after each purge (tested body `purge_ends_at_the_first_stale_front`).
/// Drops what is not live at the moment, in a part of the fronts: those after the cursor, which goes on
/// with them, and back to the start after the last one. A front of which nothing is left is dropped
/// too. So of up to 2^20 fronts what has ended is gone n / 4096 + 2 purges later at most, where n counts
/// the fronts that there were and that came meanwhile; of more, a round takes some 256 purges.
pub(crate) fn reclaim<A: Allocator>(held: &mut Held<A>, cursor: &mut Cursor<A>, now: Moment)
    ensures reclaimed { IsReclaimed now held.old held.new }
    ensures own { IsHeld held.old }
    ensures own_new { IsHeld held.new }
{
    let mut left = (held.len() / SHARE).max(LEAST);
    while left > 0 {
        let passed = cursor.pass(held, now, left, true);
        if passed.is_stale {
            trim(held, &cursor.key, now);
        }
        left = passed.left.min(left - 1);
    }
}

/// Drops, of the front of a name, what is not live at the moment.
pub(crate) fn trim<A: Allocator>(held: &mut Held<A>, key: &Key<A>, now: Moment)
    ensures own { IsHeld held.new }
    ensures reclaimed { IsReclaimed now held.old held.new }
    ensures live { AllLive key.now.items now held.old held.new }
{
    let Some(front) = held.front(key) else {
        return;
    };
    let Some(first) = front.items().first() else {
        return;
    };
    let cut = cut_at(held, first.observation().name().octets(), now);
    held.trim(key, &cut);
}
