//! The order of observations: the greater is preferred.

ghost use Rattle.std.specs.Prelude.{◌≡◌, ℕ, ◌++◌};
ghost use Rattle.fleet_observe.specs.Body.{positive_body, octets_with_length};
ghost use Rattle.std.specs.Ordering.{ordering_then};
ghost use Rattle.std.specs.Cmp.{IsTotalOrder};
ghost use Rattle.std.specs.declared.cmp.Ordering.TheVariants.{Equal};
ghost use Rattle.fleet_observe.specs.Observation.{ObservationData};
ghost use Rattle.fleet_observe.specs.Preference.{octets_cmp, name_cmp, preference};

use crate::observation::Observation;
use fleet_name::Octets;
use std::alloc::Allocator;
use std::cmp::Ordering;

/// How octets compare after their length: the shorter come first.
fn sized_order(octets: &[u8], others: &[u8]) -> Ordering
    ensures { result ≡ octets_cmp (octets_with_length octets.now) (octets_with_length others.now) }
{
    octets.len().cmp(&others.len()).then(octets.cmp(others))
}

/// How the bodies of two lists of RDATAs compare.
fn rdatas_order<A: Allocator>(rdatas: &[Octets<A>], others: &[Octets<A>]) -> Ordering
    ensures { result ≡ octets_cmp (positive_body rdatas.now) (positive_body others.now) }
{
    let counts = rdatas.len().cmp(&others.len());
    if counts.is_ne() {
        return counts;
    }
    for (i, rdata) in rdatas.iter().enumerate() {
        let order = sized_order(rdata.as_slice(), others[i].as_slice());
        if order.is_ne() {
            return order;
        }
    }
    Ordering::Equal
}

/// How the bodies of two observations of one kind compare, octet by octet.
fn body_order<A: Allocator>(observation: &Observation<A>, other: &Observation<A>) -> Ordering
    requires { observation.now.kind ≡ other.now.kind }
    ensures { result ≡ octets_cmp observation.now.body other.now.body }
{
    let (Some(soa), Some(other_soa)) = (observation.soa(), other.soa()) else {
        return rdatas_order(observation.rdatas(), other.rdatas());
    };
    soa.0.cmp(other_soa.0).then(sized_order(soa.1, other_soa.1))
}

/// How the names of two observations of one kind compare, and then the bodies.
fn octets_order<A: Allocator>(observation: &Observation<A>, other: &Observation<A>) -> Ordering
    requires { observation.now.kind ≡ other.now.kind }
    ensures { result
        ≡ ordering_then (name_cmp observation.now.name other.now.name)
        (octets_cmp observation.now.body other.now.body) }
{
    let names = observation.name().cmp(other.name());
    if names.is_ne() {
        return names;
    }
    body_order(observation, other)
}

impl<A: Allocator> PartialEq for Observation<A> {
    ghost use Rattle.std.specs.Ordering.{eq_by_cmp};
    ghost use Rattle.std.specs.Cmp.{partial_equiv_from_equiv};
    ghost use Rattle.std.proofs.lemmas.Cmp.{eq_by_cmp_equiv};
    ghost use Rattle.fleet_observe.specs.Preference.{preference, preference_total};

    ghost eq = { eq_by_cmp preference };

    ghost laws = { partial_equiv_from_equiv (eq_by_cmp_equiv preference_total) };

    fn eq(&self, other: &Self) -> bool {
        self.cmp(other).is_eq()
    }
}

impl<A: Allocator> Eq for Observation<A> {
    ghost use Rattle.std.proofs.lemmas.Cmp.{eq_by_cmp_equiv};
    ghost use Rattle.fleet_observe.specs.Preference.{preference_total};

    ghost laws = { eq_by_cmp_equiv preference_total };
}

impl<A: Allocator> Ord for Observation<A> {
    ghost use Rattle.std.proofs.Common.{refl};
    ghost use Rattle.fleet_observe.specs.Preference.{preference, preference_total};

    ghost cmp = { preference };

    ghost total = { preference_total };

    ghost matches_partial_cmp = { λ _ _. refl };

    ghost matches_eq = { λ _ _. refl };

    fn cmp(&self, other: &Self) -> Ordering {
        let order = self
            .rank()
            .cmp(&other.rank())
            .then(self.stamp().cmp(&other.stamp()))
            .then(self.expires().cmp(&other.expires()))
            .then(self.kind().number().cmp(&other.kind().number()))
            .then(self.rtype().cmp(&other.rtype()));
        if order.is_ne() {
            return order;
        }
        octets_order(self, other)
    }
}

impl<A: Allocator> PartialOrd for Observation<A> {
    ghost use Rattle.std.specs.Cmp.{partial_order_from_total};
    ghost use Rattle.std.specs.Ordering.{as_partial_cmp};
    ghost use Rattle.fleet_observe.specs.Preference.{preference, preference_total};

    ghost partial_cmp = { as_partial_cmp preference };

    ghost laws = { partial_order_from_total preference_total };

    fn partial_cmp(&self, other: &Self) -> Option<Ordering> {
        Some(self.cmp(other))
    }
}

/// The laws of the preference: it is a total order, and equal only on equal observations. This does
/// nothing when run.
pub fn preference_laws()
    ensures total { IsTotalOrder preference }
    ensures exact { (x y : ObservationData) → preference x y ≡ Equal → x ≡ y }
{}
