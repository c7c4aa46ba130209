//! Dropping what has ended, after what is taken in: so the memory follows what has not ended, at
//! any rate.

ghost use Rattle.std.specs.Prelude.{◌≡◌, ◌<◌, ◌≤◌, ◌+◌, ◌-◌, ◌*◌, ◌⊎◌, ℕ, [], vec_capacity, min, IfOk, OnOk, OnErr};
ghost use Rattle.fleet_observe.specs.Observation.{Observations};
ghost use Rattle.fleet_cache.specs.Cached.{IsCovered};
ghost use Rattle.fleet_cache.specs.Live.{lasts};
ghost use Rattle.fleet_cache.specs.declared.words.TheConstants.{MOST_WORDS};
ghost use Rattle.fleet_cache.specs.steps.Held.{IsHeld, IsTaken};
ghost use Rattle.fleet_cache.specs.steps.Reclaimed.{IsReclaimed};
ghost use Rattle.fleet_cache.specs.steps.Rounds.{count, is_ahead, HasSoonest, HasGone, IsRound, IsBounded, LeavesFew, KeepsBounds};

use crate::held::Held;
use crate::reclaim::{Cursor, trim};
use fleet_observe::{Moment, Observation};
use std::alloc::{AllocError, Allocator};

/// How many fronts are to be looked at for each observation that was kept. The clauses of `Round::note`
/// and `Round::go_on` have it and `BATCH` as numbers, and those of `memory_follows` and `memory_falls`
/// follow from both. With three looks the bound would be some 3 n in place of 2 n; with two there would
/// be none, since as many could come in during a round as were there before it.
const PACE: usize = 4;

/// How many fronts are looked at a time: to find the place where the round stands is dear beside a
/// look.
const BATCH: usize = 32;

// Lets through: earlier moments in `soonest` and `soonest_passed` than the first end. Takes then look
// at fronts of which nothing has ended, which costs time alone.
/// Where takes are in the fronts, which they go over round after round: some fronts for each
/// observation that was kept.
#[derive(Drop)]
pub(crate) struct Round<A: Allocator> {
    /// Where the round stands.
    cursor: Cursor<A>,
    /// How many fronts are to be looked at.
    owed: usize,
    /// Nothing in memory ends before this moment: up to it no front is looked at.
    soonest: u64,
    /// Nothing that this round came to ends before this moment.
    soonest_passed: u64,
}

impl<A: Allocator> Round<A> {
    /// Of no fronts, without room for a key. This allocates nothing.
    pub(crate) fn new(alloc: A) -> Round<A>
        ensures unended { HasSoonest result.soonest result.soonest_passed result.cursor.key.items [] }
        ensures start { result.cursor.key.items ≡ [] }
        ensures owes { result.owed ≡ 0 }
    {
        Round {
            cursor: Cursor::new(alloc),
            owed: 0,
            soonest: u64::MAX,
            soonest_passed: u64::MAX,
        }
    }

    /// Begins anew, where no fronts are left.
    pub(crate) fn clear(&mut self)
        ensures unended { HasSoonest self.new.soonest self.new.soonest_passed self.new.cursor.key.items [] }
        ensures start { self.new.cursor.key.items ≡ [] }
        ensures owes { self.new.owed ≡ 0 }
    {
        self.cursor.rewind();
        self.owed = 0;
        self.soonest = u64::MAX;
        self.soonest_passed = u64::MAX;
    }

    /// Notes an observation that was kept: when it ends, and that looks at some fronts are owed for it.
    fn note(&mut self, end: u64)
        ensures owed { self.new.owed ≤ self.old.owed + 4 }
        ensures paid { self.old.owed < 32 → self.new.owed ≡ self.old.owed + 4 }
        ensures soonest { self.new.soonest ≡ min self.old.soonest end }
        ensures passed { self.new.soonest_passed ≡ min self.old.soonest_passed end }
        ensures cursor { self.new.cursor ≡ self.old.cursor }
    {
        self.owed = self.owed.saturating_add(PACE);
        self.soonest = self.soonest.min(end);
        self.soonest_passed = self.soonest_passed.min(end);
    }

    /// Where `BATCH` fronts are owed, goes on over them, or up to the last one, and drops what is not
    /// live at the floor of those in which anything has ended. Where nothing in memory can have ended
    /// by the floor, none is looked at, and none is owed any more.
    ///
    /// What a flush withdrew is left to purges and to its own end. To ask for it would read the items of
    /// each front, and go up its name, as long as any flush is noted: then a peer with one flush and one
    /// name of many observations could make each take go over all of them.
    fn go_on(&mut self, held: &mut Held<A>, floor: Moment)
        requires room { MOST_WORDS ≤ vec_capacity self.old.cursor.key }
        requires unended { HasSoonest self.old.soonest self.old.soonest_passed self.old.cursor.key.items
            held.old }
        ensures reclaimed { IsReclaimed floor held.old held.new }
        ensures unended { HasSoonest self.new.soonest self.new.soonest_passed self.new.cursor.key.items
            held.new }
        ensures bounded { (most begun : ℕ) → 3 * most + 34 ≤ 2 * begun
            → IsRound most begun floor held.old self.old.cursor.key.items self.old.owed
            → self.old.owed ≤ 35 → count (lasts floor) held.new ≤ most
            → IsBounded most begun floor held.new self.new.cursor.key.items self.new.owed
            × LeavesFew most begun self.old.cursor.key.items held.new self.new.cursor.key.items }
    {
        if self.owed < BATCH {
            return;
        }
        let mut left = self.owed;
        self.owed = 0;
        if floor.value() < self.soonest {
            return;
        }
        while left > 0 {
            left = self.step(held, floor, left);
            if self.cursor.is_at_start() {
                self.soonest = self.soonest_passed;
                self.soonest_passed = u64::MAX;
                return;
            }
        }
    }

    /// Goes on over at most `left` fronts, up to the first in which anything has ended, of which it
    /// drops what is not live at the floor, or back to the start. Returns how many are left to be
    /// looked at.
    fn step(&mut self, held: &mut Held<A>, floor: Moment, left: usize) -> usize
        requires room { MOST_WORDS ≤ vec_capacity self.old.cursor.key }
        ensures gone { HasGone floor held.old held.new self.old.cursor.key.items
            self.new.cursor.key.items self.new.soonest_passed }
        ensures looked { (self.new.cursor.key.items ≡ [])
            ⊎ (count (is_ahead self.new.cursor.key.items) held.old + left
            ≤ count (is_ahead self.old.cursor.key.items) held.old + result) }
        ensures less { result ≤ left - 1 }
        ensures owed { self.new.owed ≡ self.old.owed }
        ensures soonest { self.new.soonest ≡ self.old.soonest }
        ensures passed { self.new.soonest_passed ≤ self.old.soonest_passed }
        ensures room { MOST_WORDS ≤ vec_capacity self.new.cursor.key }
    {
        let passed = self.cursor.pass(held, floor, left, false);
        self.soonest_passed = self.soonest_passed.min(passed.soonest);
        if passed.is_stale {
            trim(held, self.cursor.key(), floor);
            let next = floor.value().saturating_add(1);
            self.soonest_passed = self.soonest_passed.min(next);
        }
        passed.left.min(left.saturating_sub(1))
    }
}

/// Takes an observation into memory. `false` where it is there or dominated. After one that was kept
/// the round goes on. `Err` where an allocation fails; nothing changes.
///
/// While at no time more than `most` observations in memory have not ended, there are at most twice as
/// many in memory, and 33; and a round that ends leaves at most `most`, a third of what there was when
/// it began, and eleven.
pub(crate) fn take_in<A: Allocator + Copy>(
    held: &mut Held<A>,
    round: &mut Round<A>,
    alloc: A,
    floor: Moment,
    observation: Observation<A>,
) -> Result<bool, AllocError>
    requires unended { HasSoonest round.old.soonest round.old.soonest_passed round.old.cursor.key.items
        held.old }
    ensures own { IsHeld held.old }
    ensures taken { IfOk result (λ kept. (items : Observations)
        × IsTaken held.old items observation kept × IsReclaimed floor items held.new) }
    ensures unended { HasSoonest round.new.soonest round.new.soonest_passed round.new.cursor.key.items
        held.new }
    ensures bounded { OnOk result (KeepsBounds
        (record {
          floor = floor;
          items = held.old;
          at = round.old.cursor.key.items;
          owed = round.old.owed;
        })
        (record {
          floor = floor;
          items = held.new;
          at = round.new.cursor.key.items;
          owed = round.new.owed;
        })) }
    ensures memory { OnErr result (¬ IsCovered held.old observation) }
    ensures err { OnErr result (held.new ≡ held.old) }
    ensures stands { OnErr result (round.new.cursor.key.items ≡ round.old.cursor.key.items) }
    ensures owed { OnErr result (round.new.owed ≡ round.old.owed) }
{
    round.cursor.make_room(held, &observation)?;
    let end = observation.expires();
    let kept = held.take(alloc, observation)?;
    if kept {
        round.note(end);
        round.go_on(held, floor);
    }
    Ok(kept)
}
