//! What a cache has in memory, and the floor at which it is taken in and dropped.

ghost use Rattle.std.specs.Prelude.{◌≡◌, ◌≤◌, IfOk, OnOk, OnErr};
ghost use Rattle.fleet_observe.specs.Observation.{Observations};
ghost use Rattle.fleet_cache.specs.Cached.{IsCovered};
ghost use Rattle.fleet_cache.specs.steps.Held.{IsHeld, IsTaken};
ghost use Rattle.fleet_cache.specs.steps.Reclaimed.{IsReclaimed};
ghost use Rattle.fleet_cache.specs.steps.Rounds.{new_memory, KeepsBounds, IsPurged};

use crate::held::Held;
use crate::reclaim::{Cursor, reclaim};
use crate::round::{Round, take_in};
use fleet_observe::{Moment, Observation};
use std::alloc::{AllocError, Allocator};
use std::marker::Model;

/// The observations in memory, and the moment up to which they were purged. What has ended by it
/// leaves the memory a part at a time: purges stand at the cursor, and takes where the round does.
#[derive(Drop)]
pub(crate) struct Memory<A: Allocator> {
    floor: Moment,
    held: Held<A>,
    cursor: Cursor<A>,
    round: Round<A>,
}

impl<A: Allocator> Model for Memory<A> {
    ghost use Rattle.fleet_cache.specs.steps.Rounds.{MemoryData, HasSoonest};

    ghost Value = { MemoryData };

    ghost view = { λ m. record {
      floor = m.floor;
      items = m.held;
      at = m.round.cursor.key.items;
      owed = m.round.owed;
    } };

    ghost invariant = { λ m. HasSoonest m.round.soonest m.round.soonest_passed
        m.round.cursor.key.items m.held };
}

impl<A: Allocator> Memory<A> {
    /// Of no observations, at floor 0. This allocates nothing.
    pub(crate) fn new(alloc: A) -> Memory<A>
    where
        A: Copy,
        ensures { result ≡ new_memory }
    {
        Memory {
            floor: Moment::new(0).unwrap(),
            held: Held::new(alloc),
            cursor: Cursor::new(alloc),
            round: Round::new(alloc),
        }
    }

    /// The moment up to which it was purged.
    pub(crate) fn floor(&self) -> Moment
        ensures { result ≡ self.now.floor }
    {
        self.floor
    }

    /// What is in it.
    pub(crate) fn held(&self) -> &Held<A>
        ensures { result.now ≡ self.now.items }
    {
        &self.held
    }

    /// Takes an observation in. `false` where it is there or dominated. After one that was kept the
    /// round goes on at the floor. `Err` where an allocation fails; nothing changes.
    ///
    /// While at no time more than `most` observations in memory have not ended, there are at most twice
    /// as many in memory, and 33.
    pub(crate) fn take(&mut self, alloc: A, observation: Observation<A>) -> Result<bool, AllocError>
    where
        A: Copy,
        ensures own { IsHeld self.old.items }
        ensures taken { IfOk result (λ kept. (items : Observations)
            × IsTaken self.old.items items observation kept
            × IsReclaimed self.old.floor items self.new.items) }
        ensures floor { self.new.floor ≡ self.old.floor }
        ensures bounded { OnOk result (KeepsBounds self.old self.new) }
        ensures memory { OnErr result (¬ IsCovered self.old.items observation) }
        ensures err { OnErr result (self.new ≡ self.old) }
    {
        self.cursor.make_room(&self.held, &observation)?;
        take_in(
            &mut self.held,
            &mut self.round,
            alloc,
            self.floor,
            observation,
        )
    }

    /// Raises the floor to a later moment, and drops what is not live at it, in a part of the fronts.
    pub(crate) fn purge(&mut self, now: Moment)
        requires { self.old.floor ≤ now }
        ensures own { IsHeld self.old.items }
        ensures floor { self.new.floor ≡ now }
        ensures purged { IsPurged self.old self.new }
    {
        self.floor = now;
        reclaim(&mut self.held, &mut self.cursor, now);
    }

    /// Drops all observations, and sets the floor back to 0. This allocates nothing.
    pub(crate) fn clear(&mut self)
        ensures { self.new ≡ new_memory }
    {
        self.floor = Moment::new(0).unwrap();
        self.held.clear();
        self.cursor.rewind();
        self.round.clear();
    }
}
