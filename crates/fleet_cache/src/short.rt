//! A map from short names to fronts.

ghost use Rattle.std.specs.Prelude.{◌≡◌, OnErr, IfOk};
ghost use Rattle.fleet_cache.specs.Cached.{IsCovered};
ghost use Rattle.fleet_cache.specs.steps.Packed.{words_of, short_words, IsPackable};
ghost use Rattle.fleet_cache.specs.steps.Slots.{items_of, IsLaid, IsPut};
ghost use Rattle.fleet_cache.specs.steps.Reclaimed.{IsTrimmed, IsCleared};

use crate::cut::Cut;
use crate::item::Item;
use crate::slot::Slot;
use crate::store::front_of;
use crate::words::ShortKey;
use fleet_observe::Observation;
use std::alloc::{AllocError, Allocator};
use std::collections::BTreeMap;

/// The fronts of short names.
pub(crate) type Short<A> = BTreeMap<ShortKey, Slot<A>, A>;

/// Takes an observation into the front of its name, which has this key. `false` where it is there or
/// dominated. `Err` where an allocation fails; nothing changes.
pub(crate) fn store<A: Allocator + Copy>(
    fronts: &mut Short<A>,
    alloc: A,
    key: ShortKey,
    observation: Observation<A>,
) -> Result<bool, AllocError>
    requires laid { IsLaid short_words fronts.old.entries }
    requires of_name { short_words key ≡ words_of observation }
    requires packable { IsPackable observation.name }
    ensures put { IfOk result (IsPut short_words fronts.old.entries fronts.new.entries
        observation) }
    ensures memory { OnErr result (¬ IsCovered (items_of fronts.old.entries) observation) }
    ensures err { OnErr result (fronts.new.entries ≡ fronts.old.entries) }
{
    if let Some(front) = fronts.get_mut(&key) {
        return front.take(Item::new(observation));
    }
    let front = front_of(alloc, observation)?;
    fronts.insert(key, front)?;
    Ok(true)
}

/// Drops what a cut hides of the front of a name, and the front where nothing is left of it.
pub(crate) fn drop_hidden<A: Allocator>(fronts: &mut Short<A>, key: &ShortKey, cut: &Cut)
    requires { IsLaid short_words fronts.old.entries }
    ensures laid { IsLaid short_words fronts.new.entries }
    ensures trimmed { IsTrimmed (short_words key.now) cut.now (items_of fronts.old.entries)
        (items_of fronts.new.entries) }
    ensures cleared { IsCleared (short_words key.now) cut.now (items_of fronts.new.entries) }
{
    let Some(front) = fronts.get_mut(key) else {
        return;
    };
    front.drop_hidden(cut);
    if front.items().is_empty() {
        fronts.remove(key);
    }
}
