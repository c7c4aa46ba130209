//! Two maps from names to fronts: one for short names, one for the others.

ghost use Rattle.std.specs.Prelude.{◌≡◌, [], ◌<◌, ◌↔◌, IsTrue, IfOk, OnErr, MatchOption};
ghost use Rattle.std.specs.List.{AllByRecursion};
ghost use Rattle.fleet_name.specs.Name.{IsWire};
ghost use Rattle.fleet_cache.specs.Cached.{IsCovered};
ghost use Rattle.fleet_cache.specs.steps.Held.{IsHeld, IsTaken};
ghost use Rattle.fleet_cache.specs.steps.Keyed.{HasNoKey, IsOfKey};
ghost use Rattle.fleet_cache.specs.steps.Listed.{ListsFronts, IsShortAfter, IsLongAfter};
ghost use Rattle.fleet_cache.specs.steps.Merged.{merged};
ghost use Rattle.fleet_cache.specs.steps.Packed.{octet_words, short_words};
ghost use Rattle.fleet_cache.specs.steps.Reclaimed.{IsTrimmed, IsCleared};
ghost use Rattle.fleet_cache.specs.steps.Slots.{concat};

use crate::cut::Cut;
use crate::item::Item;
use crate::short::{Short, drop_hidden as drop_hidden_short, store as store_short};
use crate::slot::Slot;
use crate::store::{Key, Long, covers_in, drop_hidden, store};
use crate::words::{ShortKey, pack, short_key};
use fleet_observe::Observation;
use std::alloc::{AllocError, Allocator};
use std::collections::BTreeMap;
use std::collections::btree_map::{Range, Values};
use std::marker::Model;
use std::ops::Bound;

/// The fronts of a cache, by the names of their items; short names have a map of their own, whose
/// keys are compared in place. It stands for the items of both maps, those of the lesser name first.
#[derive(Drop)]
pub(crate) struct Fronts<A: Allocator> {
    short: Short<A>,
    long: Long<A>,
}

impl<A: Allocator> Model for Fronts<A> {
    ghost use Rattle.std.specs.Prelude.{List};
    ghost use Rattle.fleet_observe.specs.Observation.{ObservationData};
    ghost use Rattle.fleet_cache.specs.steps.Merged.{merged};
    ghost use Rattle.fleet_cache.specs.steps.Packed.{short_words, AreLong};
    ghost use Rattle.fleet_cache.specs.steps.Slots.{items_of, IsLaid};

    ghost Value = { List ObservationData };

    ghost view = { λ f. merged (items_of f.short.entries) (items_of f.long.entries) };

    ghost invariant = { λ f. IsLaid short_words f.short.entries
        × IsLaid (λ k. k.items) f.long.entries
        × AreLong (items_of f.long.entries) };
}

impl<A: Allocator> Fronts<A> {
    /// Without fronts. This allocates nothing.
    pub(crate) fn new(alloc: A) -> Fronts<A>
    where
        A: Copy,
        ensures { result ≡ [] }
    {
        Fronts {
            short: BTreeMap::new(alloc),
            long: BTreeMap::new(alloc),
        }
    }

    /// The front of a name, by its octets.
    pub(crate) fn at(&self, name: &[u8]) -> Option<&Slot<A>>
        requires { IsWire name.now }
        ensures found { MatchOption result (HasNoKey self.now (octet_words name.now))
            (λ f. IsOfKey self.now (octet_words name.now) f.now) }
        ensures bytes { AllByRecursion (λ x. x < 256) name.now }
    {
        if let Some(key) = short_key(name) {
            return self.short.get(&key);
        }
        let words = pack(name);
        self.long.get(words.as_slice())
    }

    /// The front of a name, by the words of its key.
    pub(crate) fn front(&self, words: &[u64]) -> Option<&Slot<A>>
        ensures { MatchOption result (HasNoKey self.now words.now)
            (λ f. IsOfKey self.now words.now f.now) }
    {
        if let Some(key) = ShortKey::of_words(words) {
            return self.short.get(&key);
        }
        self.long.get(words)
    }

    /// Whether an observation is there, or is dominated.
    pub(crate) fn covers(&self, observation: &Observation<A>) -> bool
        ensures { IsTrue result ↔ IsCovered self.now observation.now }
    {
        let Some(front) = self.at(observation.name().octets()) else {
            return false;
        };
        covers_in(front.items(), observation)
    }

    /// Takes an observation into the front of its name. `false` where it is there or dominated.
    /// `Err` where an allocation fails; nothing changes.
    pub(crate) fn store(
        &mut self,
        alloc: A,
        observation: Observation<A>,
    ) -> Result<bool, AllocError>
    where
        A: Copy,
        requires { IsHeld self.old }
        ensures taken { IfOk result (IsTaken self.old self.new observation) }
        ensures memory { OnErr result (¬ IsCovered self.old observation) }
        ensures err { OnErr result (self.new ≡ self.old) }
    {
        if let Some(key) = short_key(observation.name().octets()) {
            return store_short(&mut self.short, alloc, key, observation);
        }
        store(&mut self.long, alloc, observation)
    }

    /// Drops what a cut hides of the front of a name, by the words of its key, and the front where
    /// nothing is left of it.
    pub(crate) fn trim(&mut self, words: &[u64], cut: &Cut)
        requires { IsHeld self.old }
        ensures held { IsHeld self.new }
        ensures trimmed { IsTrimmed words.now cut.now self.old self.new }
        ensures cleared { IsCleared words.now cut.now self.new }
    {
        if let Some(key) = ShortKey::of_words(words) {
            return drop_hidden_short(&mut self.short, &key, cut);
        }
        drop_hidden(&mut self.long, words, cut);
    }

    /// Drops all fronts.
    pub(crate) fn clear(&mut self)
        ensures { self.new ≡ [] }
    {
        self.short.clear();
        self.long.clear();
    }

    // Lets through: another number. A purge, which alone asks, through `Held::len`, then looks at more
    // or fewer fronts. The test `purges_go_round` sees a number well over 2^20; no test sees another
    // one, since none has so many fronts.
    /// The number of fronts.
    pub(crate) fn len(&self) -> usize {
        self.short.len().saturating_add(self.long.len())
    }

    /// The fronts of each map, one after another.
    pub(crate) fn both(&self) -> Both<'_, A>
        ensures { merged (concat result.short) (concat result.long) ≡ self.now }
    {
        Both {
            short: self.short.values(),
            long: self.long.values(),
        }
    }

    /// The fronts of short names after the key with these words, each with its own key, one after
    /// another; all of them where no short name has so many words.
    pub(crate) fn short_behind(&self, words: &[u64]) -> Range<'_, ShortKey, Slot<A>>
        ensures { ListsFronts short_words self.now (IsShortAfter words.now) result }
    {
        let Some(key) = ShortKey::of_words(words) else {
            return self.short.range(..);
        };
        self.short.range((Bound::Excluded(key), Bound::Unbounded))
    }

    /// The fronts of other names after this key, each with its own key, one after another.
    pub(crate) fn long_behind(&self, key: &Key<A>) -> Range<'_, Key<A>, Slot<A>>
        ensures { ListsFronts (λ k. k.items) self.now (IsLongAfter key.now.items) result }
    {
        self.long.range((Bound::Excluded(key), Bound::Unbounded))
    }
}

/// The fronts of each of the two maps.
#[derive(Drop)]
pub(crate) struct Both<'a, A: Allocator> {
    /// Of short names.
    pub short: Values<'a, ShortKey, Slot<A>>,
    /// Of the others.
    pub long: Values<'a, Key<A>, Slot<A>>,
}
