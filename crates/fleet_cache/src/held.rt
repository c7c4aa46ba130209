//! What a cache holds in memory.

ghost use Rattle.std.specs.Prelude.{◌≡◌, List, [], ◌↔◌, false, length, IsTrue, IfOk, OnErr, MatchOption};
ghost use Rattle.fleet_name.specs.Types.{Labels};
ghost use Rattle.fleet_name.specs.Name.{wire, IsWire};
ghost use Rattle.fleet_observe.specs.declared.observation.kind.Kind.{Kind};
ghost use Rattle.fleet_observe.specs.declared.observation.kind.Kind.TheVariants.{NameError, Flush};
ghost use Rattle.fleet_cache.specs.declared.noted.TheConstants.{LENGTHS};
ghost use Rattle.fleet_cache.specs.Cached.{IsCovered};
ghost use Rattle.fleet_cache.specs.steps.Held.{IsHeld, IsTaken};
ghost use Rattle.fleet_cache.specs.steps.Keyed.{HasNoKey, IsOfKey, IsOfName};
ghost use Rattle.fleet_cache.specs.steps.Listed.{ListsFronts, IsShortAfter, IsLongAfter};
ghost use Rattle.fleet_cache.specs.steps.Noted.{HasNone, HasNoneShorter};
ghost use Rattle.fleet_cache.specs.steps.Packed.{short_words};
ghost use Rattle.fleet_cache.specs.steps.Reclaimed.{IsTrimmed, IsCleared};
ghost use Rattle.fleet_cache.specs.steps.Merged.{merged};
ghost use Rattle.fleet_cache.specs.steps.Slots.{concat};

use crate::cut::Cut;
use crate::fronts::{Both, Fronts};
use crate::item::Item;
use crate::noted::Noted;
use crate::slot::Slot;
use crate::store::Key;
use crate::words::ShortKey;
use fleet_observe::{Kind, Observation};
use std::alloc::{AllocError, Allocator};
use std::collections::btree_map::Range;
use std::marker::Model;

/// The observations that a cache holds in memory: those of a name in one front, by kind, then type,
/// then the preferred first, and the fronts in maps by the octets of the names. None dominates
/// another. `denied` says at which lengths of names there may be a name error, `flushed` at which a
/// flush.
#[derive(Drop)]
pub(crate) struct Held<A: Allocator> {
    fronts: Fronts<A>,
    denied: Noted,
    flushed: Noted,
}

impl<A: Allocator> Model for Held<A> {
    ghost use Rattle.std.specs.Prelude.{List};
    ghost use Rattle.fleet_observe.specs.Observation.{ObservationData};
    ghost use Rattle.fleet_observe.specs.declared.observation.kind.Kind.TheVariants.{NameError, Flush};
    ghost use Rattle.fleet_cache.specs.steps.Held.{IsHeld};
    ghost use Rattle.fleet_cache.specs.steps.Noted.{AreNoted};

    ghost Value = { List ObservationData };

    ghost view = { λ h. h.fronts };

    ghost invariant = { λ h. IsHeld h.fronts
        × AreNoted NameError h.denied h.fronts
        × AreNoted Flush h.flushed h.fronts };
}

impl<A: Allocator> Held<A> {
    /// Without observations. This allocates nothing.
    pub(crate) fn new(alloc: A) -> Held<A>
    where
        A: Copy,
        ensures { result ≡ [] }
    {
        Held {
            fronts: Fronts::new(alloc),
            denied: Noted::new(),
            flushed: Noted::new(),
        }
    }

    /// Takes an observation into the front of its name. `false` where it is there or dominated.
    /// `Err` where an allocation fails; the observations are then as before, and the length of the
    /// name may stay noted.
    pub(crate) fn take(&mut self, alloc: A, observation: Observation<A>) -> Result<bool, AllocError>
    where
        A: Copy,
        ensures own { IsHeld self.old }
        ensures taken { IfOk result (IsTaken self.old self.new observation) }
        ensures memory { OnErr result (¬ IsCovered self.old observation) }
        ensures err { OnErr result (self.new ≡ self.old) }
    {
        self.denied.note(Kind::NameError, &observation);
        self.flushed.note(Kind::Flush, &observation);
        self.fronts.store(alloc, observation)
    }

    // What may go without a change of the rest, if a cache is ever to hold less: all of a name at once,
    // but for its flushes that last. Dominance stays within a key, so what is left is the cache of the
    // set without that name. One item alone may not go, since what it dominated is gone already; nor
    // may a flush that lasts, since what it withdrew at its name and below is gone. What is noted of
    // the name's length may stay: it may say too much.
    /// Drops what a cut hides of the front of a name, and the front where nothing is left of it.
    pub(crate) fn trim(&mut self, key: &Key<A>, cut: &Cut)
        ensures own { IsHeld self.new }
        ensures trimmed { IsTrimmed key.now.items cut.now self.old self.new }
        ensures cleared { IsCleared key.now.items cut.now self.new }
    {
        self.fronts.trim(key, cut);
    }

    /// Drops all observations.
    pub(crate) fn clear(&mut self)
        ensures { self.new ≡ [] }
    {
        self.fronts.clear();
        self.denied = Noted::new();
        self.flushed = Noted::new();
    }

    /// Whether an observation is there, or is dominated.
    pub(crate) fn covers(&self, observation: &Observation<A>) -> bool
        ensures covered { IsTrue result ↔ IsCovered self.now observation.now }
        ensures own { IsHeld self.now }
    {
        self.fronts.covers(observation)
    }

    /// The front of a name, by the words of its key.
    pub(crate) fn front(&self, words: &[u64]) -> Option<&Slot<A>>
        ensures found { MatchOption result (HasNoKey self.now words.now)
            (λ f. IsOfKey self.now words.now f.now) }
        ensures own { IsHeld self.now }
    {
        self.fronts.front(words)
    }

    /// The items of a name, by its octets.
    pub(crate) fn at(&self, name: &[u8]) -> &[Item<A>]
        requires { IsWire name.now }
        ensures of_name { (n : Labels) (kind : Kind) → name.now ≡ wire n
            → IsOfName kind self.now n result.now }
        ensures own { IsHeld self.now }
    {
        let Some(front) = self.fronts.at(name) else {
            return &[];
        };
        front.items()
    }

    /// The items of a name, by its octets, where there may be one among them that decides for the
    /// names below it too: a name error or a flush.
    pub(crate) fn heads(&self, name: &[u8]) -> &[Item<A>]
        requires { IsWire name.now }
        ensures denials { (n : Labels) → name.now ≡ wire n
            → IsOfName NameError self.now n result.now }
        ensures flushes { (n : Labels) → name.now ≡ wire n
            → IsOfName Flush self.now n result.now }
    {
        if self.may_deny(name) {
            return self.at(name);
        }
        if self.may_flush(name) {
            return self.at(name);
        }
        &[]
    }

    /// The fronts of short names and those of the others, one after another.
    pub(crate) fn both(&self) -> Both<'_, A>
        ensures items { merged (concat result.short) (concat result.long) ≡ self.now }
        ensures own { IsHeld self.now }
    {
        self.fronts.both()
    }

    /// The fronts of short names after the key with these words, each with its own key, one after
    /// another; all of them where no short name has so many words.
    pub(crate) fn short_behind(&self, words: &[u64]) -> Range<'_, ShortKey, Slot<A>>
        ensures { ListsFronts short_words self.now (IsShortAfter words.now) result }
    {
        self.fronts.short_behind(words)
    }

    /// The fronts of other names after this key, each with its own key, one after another.
    pub(crate) fn long_behind(&self, key: &Key<A>) -> Range<'_, Key<A>, Slot<A>>
        ensures { ListsFronts (λ k. k.items) self.now (IsLongAfter key.now.items) result }
    {
        self.fronts.long_behind(key)
    }

    // Lets through: another number, with what `Fronts::len` says of it.
    /// The number of fronts.
    pub(crate) fn len(&self) -> usize
        ensures own { IsHeld self.now }
    {
        self.fronts.len()
    }

    // Lets through: a body that answers `true` where nothing is noted. A name is then looked up in
    // vain, which costs time; no answer changes.
    /// Whether a name error may be held of a name of as many octets.
    pub(crate) fn may_deny(&self, name: &[u8]) -> bool
        requires { IsWire name.now }
        ensures { result ≡ false → HasNone NameError (length name.now) self.now }
    {
        self.denied.has_length_of(name)
    }

    /// Whether a flush may be held of a name of as many octets.
    pub(crate) fn may_flush(&self, name: &[u8]) -> bool
        requires { IsWire name.now }
        ensures none { result ≡ false → HasNone Flush (length name.now) self.now }
        ensures own { IsHeld self.now }
    {
        self.flushed.has_length_of(name)
    }

    // Lets through: a body that answers `true` where no flush is noted. A purge then reads items that
    // it could pass over, which costs time alone.
    /// Whether a flush may be held of any name.
    pub(crate) fn may_flush_any(&self) -> bool
        ensures none { result ≡ false → HasNoneShorter Flush LENGTHS self.now }
        ensures own { IsHeld self.now }
    {
        self.flushed.has_any()
    }

    /// Whether a name error may be held of a name of fewer octets.
    pub(crate) fn may_deny_above(&self, name: &[u8]) -> bool
        ensures none { result ≡ false → HasNoneShorter NameError (length name.now) self.now }
        ensures own { IsHeld self.now }
    {
        self.denied.has_shorter_than(name)
    }

    /// Whether a flush may be held of a name of fewer octets.
    pub(crate) fn may_flush_above(&self, name: &[u8]) -> bool
        ensures none { result ≡ false → HasNoneShorter Flush (length name.now) self.now }
        ensures own { IsHeld self.now }
    {
        self.flushed.has_shorter_than(name)
    }
}
