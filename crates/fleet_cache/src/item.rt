//! Observations as ranked values of a front.

ghost use Rattle.std.specs.Prelude.{◌≡◌, ◌||◌};
ghost use Rattle.std.specs.Ordering.{is_eq};
ghost use Rattle.fleet_observe.specs.Preference.{preference};
ghost use Rattle.fleet_cache.specs.Dominates.{dominates as over, is_same_key};
ghost use Rattle.fleet_cache.specs.steps.Row.{row as row_of};

use crate::cut::Cut;
use fleet_front::Ranked;
use fleet_observe::Observation;
use std::alloc::{Allocator, Global};
use std::cmp::Ordering;
use std::marker::Model;

/// An observation as the front of its name ranks it: by kind, then type, then preference, and hidden
/// by a cut, from the moment at which it ends, or by a flush that is not stamped before it.
#[derive(Drop)]
pub struct Item<A: Allocator = Global> {
    observation: Observation<A>,
}

impl<A: Allocator> Model for Item<A> {
    ghost use Rattle.fleet_observe.specs.Observation.{ObservationData};

    ghost Value = { ObservationData };

    ghost view = { λ i. i.observation };
}

impl<A: Allocator> Item<A> {
    /// The item of an observation.
    pub fn new(observation: Observation<A>) -> Item<A>
        ensures { result ≡ observation }
    {
        Item { observation }
    }

    /// The observation of the item.
    pub fn observation(&self) -> &Observation<A>
        ensures { result.now ≡ self.now }
    {
        &self.observation
    }

    /// Whether it is this observation, or dominates it.
    pub(crate) fn covers(&self, other: &Observation<A>) -> bool
        ensures { result ≡ (is_eq (preference self.now other.now) || over self.now other.now) }
    {
        self.observation.cmp(other).is_eq() || is_over(&self.observation, other)
    }
}

/// Whether an observation dominates another one; what is cheap to ask comes first.
fn is_over<A: Allocator>(one: &Observation<A>, other: &Observation<A>) -> bool
    ensures { result ≡ over one.now other.now }
{
    if one.expires() < other.expires() || one.stamp().value() < other.stamp().value() {
        return false;
    }
    if !one.cmp(other).is_gt() {
        return false;
    }
    has_key_of(one, other)
}

/// Whether an observation has the name, the kind and the type of another one.
fn has_key_of<A: Allocator>(one: &Observation<A>, other: &Observation<A>) -> bool
    ensures { result ≡ is_same_key one.now other.now }
{
    if one.kind().number() != other.kind().number() {
        return false;
    }
    if one.rtype() != other.rtype() {
        return false;
    }
    one.name().cmp(other.name()).is_eq()
}

/// How the places of two observations of a name compare: by kind, then type, the least first, then
/// the preferred first.
fn row<A: Allocator>(one: &Observation<A>, other: &Observation<A>) -> Ordering
    ensures { result ≡ row_of one.now other.now }
{
    let kinds = other.kind().number().cmp(&one.kind().number());
    if kinds.is_ne() {
        return kinds;
    }
    let types = other.rtype().cmp(&one.rtype());
    if types.is_ne() {
        return types;
    }
    one.cmp(other)
}

impl<A: Allocator> Ranked for Item<A> {
    type Cut = Cut;

    ghost use Rattle.fleet_cache.specs.steps.Row.{row};
    ghost use Rattle.fleet_cache.specs.Dominates.{dominates as is_over};
    ghost use Rattle.fleet_cache.specs.Cut.{is_hidden};
    ghost use Rattle.fleet_cache.specs.steps.Orders.{cut_laws};

    ghost order = { row };

    ghost dominates = { is_over };

    ghost hidden = { is_hidden };

    fn order(&self, other: &Self) -> Ordering {
        row(&self.observation, &other.observation)
    }

    fn dominates(&self, other: &Self) -> bool {
        is_over(&self.observation, &other.observation)
    }

    fn hidden(&self, cut: &Cut) -> bool {
        cut.hides(&self.observation)
    }

    ghost laws = { cut_laws };
}
