//! Looking for what is lent among items.

ghost use Rattle.std.specs.Prelude.{◌≡◌, ◌↔◌, IsTrue};
ghost use Rattle.fleet_observe.specs.Members.{Has};
ghost use Rattle.fleet_observe.specs.Lent.{IsLent};
ghost use Rattle.fleet_observe.specs.Observation.{ObservationData};
ghost use Rattle.fleet_cache.specs.Front.{IsDescending};
ghost use Rattle.fleet_cache.specs.steps.Row.{row, lent_row as row_beside, AreApart};

use crate::item::Item;
use fleet_observe::{LentObservation, Observation};
use std::alloc::Allocator;
use std::cmp::Ordering;

/// How an observation compares with what is lent, in the order of a front up to the stamp: by kind,
/// then type, the least first, then rank and stamp, the greatest first. What is greater comes first.
fn lent_row<A: Allocator>(observation: &Observation<A>, lent: &LentObservation<'_>) -> Ordering
    ensures { result ≡ row_beside observation.now lent.now }
{
    let kinds = lent.kind.number().cmp(&observation.kind().number());
    if kinds.is_ne() {
        return kinds;
    }
    let types = lent.rtype.cmp(&observation.rtype());
    if types.is_ne() {
        return types;
    }
    let ranks = observation.rank().cmp(&lent.rank);
    if ranks.is_ne() {
        return ranks;
    }
    observation.stamp().value().cmp(&lent.stamp.value())
}

/// Whether one of the items of a front is what is lent. They are in order, and no two are of one
/// kind, type, rank and stamp: of two such the one that ends later would dominate the other. So it
/// is the first that does not come before, which is searched by halves.
pub(crate) fn has_lent<A: Allocator>(items: &[Item<A>], lent: &LentObservation<'_>) -> bool
    requires in_rows { IsDescending row items.now }
    requires apart { AreApart items.now }
    ensures { IsTrue result
        ↔ ((o : ObservationData) × Has items.now o × IsLent lent.now o) }
{
    let before = items.partition_point(|item| lent_row(item.observation(), lent).is_gt());
    match items.get(before) {
        Some(item) => item.observation().equals(lent),
        None => false,
    }
}
