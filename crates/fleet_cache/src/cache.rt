//! The cache of a site.

ghost use Rattle.std.specs.Prelude.{◌≡◌, ◌^◌, ◌<◌, ◌≤◌, max, true, false, [], ◌∷◌, ◌++◌, ◌↔◌, length, take, IsTrue, IfOk, IfErr, OnOk, OnErr};
ghost use Rattle.fleet_name.specs.Types.{Labels};
ghost use Rattle.fleet_name.specs.Name.{wire, IsWire};
ghost use Rattle.fleet_observe.specs.Lent.{IsLent};
ghost use Rattle.fleet_observe.specs.Members.{Has};
ghost use Rattle.fleet_observe.specs.Observation.{IsObservation, ObservationData, Observations};
ghost use Rattle.fleet_cache.specs.Cached.{IsCached, IsPast, IsNeedless, IsNeededAt, IsSameSet};
ghost use Rattle.fleet_cache.specs.Answer.{answer_of};
ghost use Rattle.fleet_cache.specs.Shown.{AllSome};
ghost use Rattle.fleet_cache.specs.AnswerData.{answer_data, chain_of};
ghost use Rattle.fleet_cache.specs.Kinds.{HasKinds};

use crate::answer::{Answer, follow};
use crate::items::Items;
use crate::lent::has_lent;
use crate::lookup::{is_past, is_past_lent};
use crate::memory::Memory;
use fleet_observe::{LentObservation, Moment, Observation};
use fleet_wire::{LentQuestion, Question};
use std::alloc::{AllocError, Allocator, Global};
use std::marker::Model;
use thiserror::Error;

/// An allocation failed for an observation. Those before it were taken, and the floor is as it was.
#[derive(Clone, Copy, Debug, PartialEq, Eq, Error)]
#[error("out of memory after {taken} observations")]
pub struct Stopped {
    /// The number of observations that were taken: exactly the first ones, in their order.
    pub taken: usize,
}

/// What a site holds: the undominated observations of a set that are live at a floor.
///
/// Those of a name lie in one front, by kind, then type, then the preferred first. The fronts lie in
/// maps by the octets of the names, eight octets to a word: one map for short names, one for the
/// others.
///
/// What is in memory may have ended by the floor, or be withdrawn by a flush that is held. A purge that
/// raises the floor drops some of it, and so does each observation that is kept. Public contracts
/// speak of what is held, and not of this: the contracts of `Memory` and the laws `memory_follows`
/// and `memory_falls` do.
///
/// `most` counts the observations that were given to the maps since these were empty, kept or not. No
/// more are held, so they can be counted: at the greatest number, which no machine reaches, nothing
/// more is taken. The allocator is kept beside the maps, for keys and fronts: a map lends its own to
/// nobody.
#[derive(Drop)]
pub struct Cache<A: Allocator = Global> {
    most: usize,
    memory: Memory<A>,
    alloc: A,
}

impl<A: Allocator> Model for Cache<A> {
    ghost use Rattle.std.specs.Prelude.{length, ◌≤◌};
    ghost use Rattle.fleet_cache.specs.Live.{live_of};
    ghost use Rattle.fleet_cache.specs.Cached.{CacheData};

    ghost Value = { CacheData };

    ghost view = { λ c. record {
      floor = c.memory.floor;
      items = live_of c.memory.items c.memory.floor;
    } };

    ghost invariant = { λ c. length c.memory.items ≤ c.most };
}

impl<A: Allocator> Cache<A> {
    /// The cache of no observations: no items, at floor 0. This allocates nothing.
    pub fn new(alloc: A) -> Cache<A>
    where
        A: Copy,
        ensures held { result ≡ record { floor = 0; items = [] } }
        ensures cached { IsCached [] result.floor result.items }
    {
        Cache {
            most: 0,
            memory: Memory::new(alloc),
            alloc,
        }
    }

    // Lets through: any allocator that the cache holds, since it has no clause. Each is a copy of that
    // which `new` was given.
    /// The allocator that the cache was made with.
    pub fn allocator(&self) -> &A {
        &self.alloc
    }

    /// Takes an observation in: the cache is then that of the set with this one. The answer is `false`
    /// exactly where the observation had ended at the floor, is withdrawn by a flush, was there already
    /// or is dominated: then nothing changes. Else what it dominates goes. A flush withdraws what lies
    /// at its name or below and is stamped no later than the flush, whether that came before it or comes
    /// after; this is hidden at once, and leaves the memory later. After an observation that is kept,
    /// some of what has ended by the floor leaves the memory too.
    ///
    /// Memory is allocated only for an observation that is to be held. `Err` where the allocation
    /// fails, and nothing changes.
    pub fn take(&mut self, observation: Observation<A>) -> Result<bool, AllocError>
    where
        A: Copy,
        ensures taken { (s : Observations) → IsCached s self.old.floor self.old.items
            → OnOk result (IsCached (observation ∷ s) self.new.floor self.new.items) }
        ensures kept { IfOk result (λ kept.
            (kept ≡ false) ↔ IsNeedless self.old.floor self.old.items observation) }
        ensures floor { self.new.floor ≡ self.old.floor }
        ensures memory { OnErr result (¬ IsNeedless self.old.floor self.old.items observation) }
        ensures err { OnErr result (self.new ≡ self.old) }
    {
        if self.is_past(&observation) {
            return Ok(false);
        }
        if self.most == usize::MAX {
            return self.take_uncounted(&observation);
        }
        let kept = self.memory.take(self.alloc, observation)?;
        self.most += 1;
        Ok(kept)
    }

    /// Takes a list of observations in, one after another, as `take` does: the cache is then that of
    /// the set with the list. Memory is allocated only for those that are to be held. `Err` says how
    /// many were taken before an allocation failed: the cache is then that of the set with exactly
    /// these first ones.
    pub fn take_list(&mut self, observations: Vec<Observation<A>, A>) -> Result<(), Stopped>
    where
        A: Copy,
        ensures taken { (s : Observations) → IsCached s self.old.floor self.old.items
            → OnOk result (IsCached (observations.items ++ s) self.new.floor self.new.items) }
        ensures stopped { (s : Observations) → IsCached s self.old.floor self.old.items
            → IfErr result (λ e.
            IsCached (take e.taken observations.items ++ s) self.new.floor self.new.items) }
        ensures within { IfErr result (λ e. e.taken < length observations.items) }
        ensures memory { IfErr result (λ e.
            IsNeededAt self.new.floor self.new.items observations.items e.taken) }
        ensures floor { self.new.floor ≡ self.old.floor }
    {
        let mut taken = 0;
        for observation in observations {
            if self.take(observation).is_err() {
                return Err(Stopped { taken });
            }
            taken += 1;
        }
        Ok(())
    }

    /// Whether what is lent, if it is a lawful observation, had ended at the floor or is withdrawn by a
    /// flush, so that it need not be taken in. Nothing is allocated.
    pub fn is_past_lent(&self, lent: &LentObservation<'_>) -> bool
        requires { IsWire lent.now.name.now }
        ensures past { (o : ObservationData) → IsLent lent.now o → IsObservation o
            → IsTrue result ↔ IsPast self.now.floor self.now.items o }
        ensures taken { (o : ObservationData) (s : Observations) → IsLent lent.now o
            → IsObservation o → IsTrue result → IsCached s self.now.floor self.now.items
            → IsCached (o ∷ s) self.now.floor self.now.items }
    {
        is_past_lent(self.memory.held(), lent, self.memory.floor())
    }

    /// Whether what is lent is in memory, so that it need not be taken in. It is `true` for each item,
    /// and for what has ended at the floor or is withdrawn and has not left the memory. It is compared
    /// in place, and nothing is allocated.
    pub fn holds(&self, lent: &LentObservation<'_>) -> bool
        requires { IsWire lent.now.name.now }
        ensures needless { (o : ObservationData) → IsLent lent.now o → IsTrue result
            → IsNeedless self.now.floor self.now.items o }
        ensures taken { (o : ObservationData) (s : Observations) → IsLent lent.now o → IsTrue result
            → IsCached s self.now.floor self.now.items
            → IsCached (o ∷ s) self.now.floor self.now.items }
        ensures items { (o : ObservationData) → IsLent lent.now o → Has self.now.items o
            → IsTrue result }
    {
        has_lent(self.memory.held().at(lent.name), lent)
    }

    /// Takes copies of the other cache's items in, in their order, and then purges to its floor: it is
    /// then the cache of both sets, at the later floor. Only items that are to be held are allocated
    /// for. `Err` says how many were taken before an allocation failed: exactly the first ones, and the
    /// floor is as it was.
    pub fn merge(&mut self, other: &Cache<A>) -> Result<(), Stopped>
    where
        A: Copy,
        ensures both { (s u : Observations) → IsCached s self.old.floor self.old.items
            → IsCached u other.now.floor other.now.items
            → OnOk result (IsCached (u ++ s) self.new.floor self.new.items) }
        ensures floor { OnOk result (self.new.floor ≡ max self.old.floor other.now.floor) }
        ensures stopped { (s : Observations) → IsCached s self.old.floor self.old.items
            → IfErr result (λ e.
            IsCached (take e.taken other.now.items ++ s) self.new.floor self.new.items) }
        ensures within { IfErr result (λ e. e.taken < length other.now.items) }
        ensures memory { IfErr result (λ e.
            IsNeededAt self.new.floor self.new.items other.now.items e.taken) }
        ensures floor_stopped { OnErr result (self.new.floor ≡ self.old.floor) }
    {
        let mut items = other.items();
        let mut taken = 0;
        while let Some(item) = items.next() {
            if self.take_copy(item).is_err() {
                return Err(Stopped { taken });
            }
            taken += 1;
        }
        self.purge(other.floor());
        Ok(())
    }

    /// Raises the floor to the moment, if that is later: the cache is then that of the same set at this
    /// floor. What has ended by then is not held any more. A part of what has ended or is withdrawn
    /// leaves the memory at once, the rest at later purges and takes. Each purge that raises the floor
    /// looks at up to 4096 fronts, or at the 256th part of them where that is more. It goes on where
    /// the last one ended, and ends at the last front.
    ///
    /// A purge takes no memory. It may ask for smaller room in place of greater one, and keeps what it
    /// has where there is none.
    pub fn purge(&mut self, now: Moment)
        ensures purged { (s : Observations) → IsCached s self.old.floor self.old.items
            → IsCached s self.new.floor self.new.items }
        ensures floor { self.new.floor ≡ max self.old.floor now }
    {
        if now.value() <= self.memory.floor().value() {
            return;
        }
        self.memory.purge(now);
    }

    /// Drops all items and sets the floor back to 0: the cache is then as a new one. This allocates
    /// nothing. It frees all at once, so it takes longer the more there is.
    pub fn clear(&mut self)
        ensures held { self.new ≡ record { floor = 0; items = [] } }
        ensures cached { IsCached [] self.new.floor self.new.items }
    {
        self.most = 0;
        self.memory.clear();
    }

    /// The floor: the moment up to which the cache was purged, by `purge` or `merge`. What has ended by
    /// then is not held.
    pub fn floor(&self) -> Moment
        ensures { result ≡ self.now.floor }
    {
        self.memory.floor()
    }

    /// Whether both caches have the same floor and the same items. Caches of equal sets have the same
    /// items at the same floor.
    pub fn same(&self, other: &Cache<A>) -> bool
        ensures same { IsTrue result ↔ (self.now ≡ other.now) }
        ensures alike { (s t : Observations) → IsCached s self.now.floor self.now.items
            → IsCached t other.now.floor other.now.items → IsSameSet s t
            → self.now.floor ≡ other.now.floor → IsTrue result }
    {
        self.floor() == other.floor() && same_items(self.items(), other.items())
    }

    /// The number of items, which a `usize` always has. It counts them one by one, and passes over what
    /// is not live and still in memory.
    pub fn len(&self) -> usize
        ensures { result ≡ length self.now.items }
    {
        count(self.items())
    }

    /// Whether there are no items. It passes over what is not live before the first one.
    pub fn is_empty(&self) -> bool
        ensures { IsTrue result ↔ (self.now.items ≡ []) }
    {
        self.items().next().is_none()
    }

    /// The items, by key (the octets of the name, the kind, the type), and the preferred first within a
    /// key. None of them is dominated.
    pub fn items(&self) -> Items<'_, A>
        ensures items { result ≡ self.now.items }
        ensures own { IsCached self.now.items self.now.floor self.now.items }
        ensures countable { length self.now.items < 2 ^ 64 }
    {
        // What the proof needs to know of the count.
        prove!(self.most <= usize::MAX);
        Items::new(self.memory.held(), self.memory.floor())
    }

    /// The answer to a question at a moment, or at the floor where the moment is before it: that of the
    /// definition over the whole set. The most preferred observation that is live then and relevant
    /// decides. An alias (CNAME, RFC 1034 3.6.2) is followed where another type is asked for, at most 8
    /// of them. Links and set have records, and the SOA of a denial says what the answer says. Records
    /// of two observations are never merged (RFC 2181 5.4). The question's class is not looked at.
    ///
    /// The answer borrows from the cache, so nothing is taken or purged while it is in use, and nothing
    /// is allocated.
    pub fn answer<B: Allocator>(&self, question: &Question<B>, now: Moment) -> Answer<'_, A>
        ensures filled { AllSome (chain_of result) }
        ensures kinds { HasKinds (answer_data result) }
        ensures answer { (s : Observations) → IsCached s self.now.floor self.now.items
            → answer_data result
            ≡ answer_of s (max self.now.floor now) question.now.name question.now.rtype }
    {
        self.answer_at(question.name.octets(), question.rtype, now)
    }

    /// The answer to a question that borrows its name, as `answer` gives it.
    pub fn answer_lent(&self, question: &LentQuestion<'_>, now: Moment) -> Answer<'_, A>
        ensures filled { AllSome (chain_of result) }
        ensures kinds { HasKinds (answer_data result) }
        ensures answer { (s : Observations) → IsCached s self.now.floor self.now.items
            → answer_data result
            ≡ answer_of s (max self.now.floor now) question.now.name question.now.rtype }
    {
        self.answer_at(question.name(), question.rtype(), now)
    }

    /// The answer to a question for a type of a name, given by its octets in full.
    fn answer_at(&self, name: &[u8], rtype: u16, now: Moment) -> Answer<'_, A>
        requires { IsWire name.now }
        ensures filled { AllSome (chain_of result) }
        ensures kinds { HasKinds (answer_data result) }
        ensures answer { (s : Observations) → IsCached s self.now.floor self.now.items
            → (n : Labels) → name.now ≡ wire n
            → answer_data result ≡ answer_of s (max self.now.floor now) n rtype }
    {
        let at = self.memory.floor().later(now);
        follow(self.memory.held(), name, rtype, at)
    }

    /// `take` of a copy, which is made only where the observation is to be held.
    fn take_copy(&mut self, observation: &Observation<A>) -> Result<bool, AllocError>
    where
        A: Copy,
        ensures taken { (s : Observations) → IsCached s self.old.floor self.old.items
            → OnOk result (IsCached (observation.now ∷ s) self.new.floor self.new.items) }
        ensures kept { IfOk result (λ kept.
            (kept ≡ false) ↔ IsNeedless self.old.floor self.old.items observation.now) }
        ensures floor { self.new.floor ≡ self.old.floor }
        ensures memory { OnErr result (¬ IsNeedless self.old.floor self.old.items observation.now) }
        ensures err { OnErr result (self.new ≡ self.old) }
    {
        if !self.needs(observation) {
            return Ok(false);
        }
        self.take(observation.try_clone()?)
    }

    /// `take` at the greatest count, where nothing more is held: `Err` for an observation that
    /// would be held.
    fn take_uncounted(&self, observation: &Observation<A>) -> Result<bool, AllocError>
        ensures needless { IfOk result (λ kept.
            (kept ≡ false) × IsNeedless self.now.floor self.now.items observation.now) }
        ensures memory { OnErr result (¬ IsNeedless self.now.floor self.now.items observation.now) }
    {
        if self.needs(observation) {
            return Err(AllocError);
        }
        Ok(false)
    }

    /// Whether an observation is to be held.
    fn needs(&self, observation: &Observation<A>) -> bool
        ensures needless { (result ≡ false)
            ↔ IsNeedless self.now.floor self.now.items observation.now }
        ensures lawful { IsObservation observation.now }
    {
        !self.is_past(observation) && !self.memory.held().covers(observation)
    }

    /// Whether an observation had ended at the floor, or is withdrawn by a flush.
    fn is_past(&self, observation: &Observation<A>) -> bool
        ensures past { IsTrue result ↔ IsPast self.now.floor self.now.items observation.now }
        ensures lawful { IsObservation observation.now }
    {
        is_past(self.memory.held(), observation, self.memory.floor())
    }
}

/// Whether both give the same items.
fn same_items<A: Allocator>(mut ours: Items<'_, A>, mut theirs: Items<'_, A>) -> bool
    ensures { IsTrue result ↔ (ours.entry ≡ theirs.entry) }
{
    while let Some(item) = ours.next() {
        let Some(other) = theirs.next() else {
            return false;
        };
        if item.cmp(other).is_ne() {
            return false;
        }
    }
    theirs.next().is_none()
}

/// The number of items that are left.
fn count<A: Allocator>(mut items: Items<'_, A>) -> usize
    requires { length items < 2 ^ 64 }
    ensures { result ≡ length items.entry }
{
    let mut count = 0;
    while items.next().is_some() {
        count += 1;
    }
    count
}
