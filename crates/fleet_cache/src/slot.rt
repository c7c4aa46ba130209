//! The front of a name in its map.

ghost use Rattle.std.specs.Prelude.{◌≡◌, ◌≤◌, ◌+◌, List, [], ◌∷◌, ◌↔◌, false, length, IfOk, OnOk, OnErr};
ghost use Rattle.fleet_observe.specs.Observation.{Observations};
ghost use Rattle.fleet_cache.specs.Cut.{is_hidden};
ghost use Rattle.fleet_cache.specs.Dominates.{dominates};
ghost use Rattle.fleet_cache.specs.Front.{IsFront, without_hidden};
ghost use Rattle.fleet_cache.specs.Cached.{IsCovered};
ghost use Rattle.fleet_cache.specs.steps.Row.{row};
ghost use Rattle.fleet_cache.specs.steps.Soonest.{NoneSooner};

use crate::cut::Cut;
use crate::item::Item;
use fleet_front::Front;
use std::alloc::{AllocError, Allocator};
use std::marker::Model;

/// The front of a name. None of its items ends before `soonest`, which lies in the map itself: who
/// looks for what has ended reads the items of a name only where there can be any. A name of very many
/// types has a long front, and what is taken in and asked there goes over all of it.
#[derive(Drop)]
pub(crate) struct Slot<A: Allocator> {
    front: Front<Item<A>, A>,
    soonest: u64,
}

impl<A: Allocator> Model for Slot<A> {
    ghost use Rattle.std.specs.Prelude.{List};
    ghost use Rattle.fleet_observe.specs.Observation.{ObservationData};
    ghost use Rattle.fleet_cache.specs.steps.Soonest.{NoneSooner};

    ghost Value = { List ObservationData };

    ghost view = { λ s. s.front };

    ghost invariant = { λ s. NoneSooner s.soonest s.front };
}

impl<A: Allocator> Slot<A> {
    /// Without items. This allocates nothing.
    pub(crate) fn new(alloc: A) -> Slot<A>
        ensures { result ≡ [] }
    {
        Slot {
            front: Front::new(alloc),
            soonest: u64::MAX,
        }
    }

    /// The items, in the order of their front.
    pub(crate) fn items(&self) -> &[Item<A>]
        ensures items { result.now ≡ self.now }
        ensures front { IsFront row dominates self.now self.now }
    {
        self.front.items()
    }

    // Lets through: a body that returns an earlier moment, as `soonest_of` may. Purges and takes then
    // read the items of a name, or look its front up, where nothing has ended: that costs time alone.
    /// A moment before which none of the items ends: the one at which the first of them does.
    pub(crate) fn soonest(&self) -> u64
        ensures { NoneSooner result self.now }
    {
        self.soonest
    }

    /// Takes an item in, as `Front::take` does.
    pub(crate) fn take(&mut self, item: Item<A>) -> Result<bool, AllocError>
        ensures taken { (s : Observations) → IsFront row dominates s self.old
            → OnOk result (IsFront row dominates (item ∷ s) self.new) }
        ensures kept { IfOk result (λ kept. (kept ≡ false) ↔ IsCovered self.old item) }
        ensures size { length self.new ≤ length self.old + 1 }
        ensures memory { OnErr result (¬ IsCovered self.old item) }
        ensures err { OnErr result (self.new ≡ self.old) }
    {
        let kept = self.front.take(item)?;
        if kept {
            self.soonest = soonest_of(self.front.items());
        }
        Ok(kept)
    }

    /// Drops what a cut hides.
    pub(crate) fn drop_hidden(&mut self, cut: &Cut)
        ensures items { self.new ≡ without_hidden is_hidden cut.now self.old }
    {
        self.front.drop_hidden(cut);
        self.soonest = soonest_of(self.front.items());
    }
}

/// The moment at which the first of some items ends, or the greatest number where there is none.
fn soonest_of<A: Allocator>(items: &[Item<A>]) -> u64
    ensures { NoneSooner result items.now }
{
    let mut soonest = u64::MAX;
    for item in items {
        soonest = soonest.min(item.observation().expires());
    }
    soonest
}
