//! A map from names that are not short to fronts.

ghost use Rattle.std.specs.Prelude.{◌≡◌, ◌≤◌, ◌<◌, ◌*◌, [], ◌∷◌, length, OnErr, IfOk};
ghost use Rattle.fleet_name.specs.Name.{wire};
ghost use Rattle.fleet_cache.specs.declared.words.TheConstants.{SHORT_WORDS, WORD_OCTETS};
ghost use Rattle.fleet_cache.specs.Front.{IsFront};
ghost use Rattle.fleet_cache.specs.Dominates.{dominates};
ghost use Rattle.fleet_cache.specs.steps.Row.{row};
ghost use Rattle.fleet_cache.specs.Cached.{is_covered, IsCovered};
ghost use Rattle.fleet_cache.specs.steps.Packed.{words_of, IsPackable};
ghost use Rattle.fleet_cache.specs.steps.Slots.{items_of, IsLaid, IsPut};
ghost use Rattle.fleet_cache.specs.steps.Reclaimed.{IsTrimmed, IsCleared};

use crate::cut::Cut;
use crate::item::Item;
use crate::slot::Slot;
use crate::words::{MOST_WORDS, pack};
use arrayvec::ArrayVec;
use fleet_observe::Observation;
use std::alloc::{AllocError, Allocator};
use std::collections::BTreeMap;

/// A key: the words of a name's octets.
pub(crate) type Key<A> = Vec<u64, A>;

/// The fronts of names that are not short.
pub(crate) type Long<A> = BTreeMap<Key<A>, Slot<A>, A>;

/// The words of the key of an observation's name, on the stack.
fn words_of_observation<A: Allocator>(observation: &Observation<A>) -> ArrayVec<u64, MOST_WORDS>
    requires { WORD_OCTETS * SHORT_WORDS < length (wire observation.now.name) }
    ensures words { result.items ≡ words_of observation.now }
    ensures packable { IsPackable observation.now.name }
{
    pack(observation.name().octets())
}

/// Whether an observation is one of these items, or one of them dominates it.
pub(crate) fn covers_in<A: Allocator>(items: &[Item<A>], observation: &Observation<A>) -> bool
    ensures { result ≡ is_covered items.now observation.now }
{
    items.iter().any(|held| held.covers(observation))
}

/// Takes an observation into the front of its name. `false` where it is there or dominated. `Err`
/// where an allocation fails; nothing changes.
pub(crate) fn store<A: Allocator + Copy>(
    fronts: &mut Long<A>,
    alloc: A,
    observation: Observation<A>,
) -> Result<bool, AllocError>
    requires laid { IsLaid (λ k. k.items) fronts.old.entries }
    requires long { WORD_OCTETS * SHORT_WORDS < length (wire observation.name) }
    ensures put { IfOk result (IsPut (λ k. k.items) fronts.old.entries fronts.new.entries
        observation) }
    ensures memory { OnErr result (¬ IsCovered (items_of fronts.old.entries) observation) }
    ensures err { OnErr result (fronts.new.entries ≡ fronts.old.entries) }
{
    let words = words_of_observation(&observation);
    if let Some(front) = fronts.get_mut(words.as_slice()) {
        return front.take(Item::new(observation));
    }
    let key = Vec::from_slice(alloc, words.as_slice())?;
    let front = front_of(alloc, observation)?;
    fronts.insert(key, front)?;
    Ok(true)
}

/// Drops what a cut hides of the front of a name, and the front where nothing is left of it.
pub(crate) fn drop_hidden<A: Allocator>(fronts: &mut Long<A>, words: &[u64], cut: &Cut)
    requires { IsLaid (λ k. k.items) fronts.old.entries }
    ensures laid { IsLaid (λ k. k.items) fronts.new.entries }
    ensures trimmed { IsTrimmed words.now cut.now (items_of fronts.old.entries)
        (items_of fronts.new.entries) }
    ensures cleared { IsCleared words.now cut.now (items_of fronts.new.entries) }
{
    let Some(front) = fronts.get_mut(words) else {
        return;
    };
    front.drop_hidden(cut);
    if front.items().is_empty() {
        fronts.remove(words);
    }
}

/// The front of one observation, for a name that has none yet. It is made before it goes into its map,
/// so no empty front stays there. `Err` where an allocation fails.
pub(crate) fn front_of<A: Allocator>(
    alloc: A,
    observation: Observation<A>,
) -> Result<Slot<A>, AllocError>
    ensures front { IfOk result (IsFront row dominates (observation ∷ [])) }
    ensures size { IfOk result (λ front. length front ≤ 1) }
{
    let mut front = Slot::new(alloc);
    front.take(Item::new(observation))?;
    Ok(front)
}
