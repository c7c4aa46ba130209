//! What an observation is: its parts, their lawful values, its body and its order.

ghost use Rattle.std.specs.Prelude.{◌≡◌, ◌≢◌, ℕ, ◌+◌, ◌≤◌, [], ◌++◌, ◌↔◌, length, IsTrue, MatchOption, MatchResult, IfOk, OnOk, IfSome};
ghost use Rattle.fleet_observe.specs.Body.{positive_body, negative_body, AreRdatas, IsDenial};
ghost use Rattle.fleet_observe.specs.Observation.{expires as end_of, flush_at, IsNegativeKind, IsObservation};
ghost use Rattle.fleet_observe.specs.Lent.{IsLent};
ghost use Rattle.fleet_observe.specs.Checks.{denied_kind, denied_type, MakesPositive, IsPositiveFault, MakesNegative, IsNegativeFault};
ghost use Rattle.fleet_observe.specs.declared.bounds.TheConstants.{LONGEST_BODY};
ghost use Rattle.fleet_observe.specs.declared.observation.kind.Kind.TheVariants.{Positive};

pub(crate) mod body;
pub(crate) mod fault;
pub(crate) mod kind;
pub(crate) mod lent;
pub(crate) mod moment;
pub(crate) mod order;
pub(crate) mod soa;
pub(crate) mod values;

use crate::bounds::{LATEST, LONGEST_DENIAL, LONGEST_LIFE};
use crate::observation::body::Body;
use crate::observation::fault::ObservationFault;
use crate::observation::kind::Kind;
use crate::observation::lent::{LentObservation, is_body};
use crate::observation::moment::Moment;
use crate::observation::soa::Soa;
use crate::observation::values::{
    are_rdatas, is_data_type, is_denial, is_denial_rank, is_denied_type, is_life, is_rank,
};
use crate::rank::ANSWER;
use fleet_name::{Name, Octets};
use std::alloc::{AllocError, Allocator, Global};
use std::marker::Model;

/// What was observed of a name at a moment. Contracts see it as `ObservationData`.
#[derive(Drop)]
pub struct Observation<A: Allocator = Global> {
    kind: Kind,
    name: Name<A>,
    rtype: u16,
    rank: u8,
    stamp: Moment,
    life: u32,
    body: Body<A>,
}

impl<A: Allocator> Model for Observation<A> {
    ghost use Rattle.fleet_observe.specs.Observation.{ObservationData, IsObservation};
    ghost use Rattle.fleet_observe.specs.BodyParts.{observation_data, IsBodyOf};

    ghost Value = { ObservationData };

    ghost view = { λ o. observation_data o.kind o.name o.rtype o.rank o.stamp o.life o.body };

    ghost invariant = { λ o. IsObservation
        (observation_data o.kind o.name o.rtype o.rank o.stamp o.life o.body)
        × IsBodyOf o.kind o.name o.rtype o.body };
}

impl<A: Allocator> Observation<A> {
    /// Makes a positive observation: the RDATAs that a name has of a type.
    ///
    /// It is made exactly where its values pass the checks, and the error is the first that fails.
    /// The rank is 1, 2 or 3, the life 1 to `LONGEST_LIFE` seconds, and the type one that data can
    /// have. The RDATAs are in strictly ascending order, as octets, a proper prefix first; there is
    /// at least one, and of an alias one alone. Each is plain for its type, and their body has at
    /// most `LONGEST_BODY` octets. The errors come in the order of `ObservationFault`; the arguments
    /// are then dropped. This allocates nothing.
    pub fn positive(
        name: Name<A>,
        rtype: u16,
        rank: u8,
        stamp: Moment,
        life: u32,
        rdatas: Vec<Octets<A>, A>,
    ) -> Result<Observation<A>, ObservationFault>
        ensures value { IfOk result (λ o. o ≡ record {
          kind = Positive;
          name = name;
          rtype = rtype;
          body = positive_body rdatas.items;
          rank = rank;
          stamp = stamp;
          life = life;
        }) }
        ensures checks { MatchResult result
            (λ _. MakesPositive rtype rank life rdatas.items)
            (IsPositiveFault rtype rank life rdatas.items) }
    {
        if !is_rank(rank) {
            return Err(ObservationFault::BadRank);
        }
        if !is_life(LONGEST_LIFE, life) {
            return Err(ObservationFault::BadLife);
        }
        if !is_data_type(rtype) {
            return Err(ObservationFault::BadKind);
        }
        if !are_rdatas(rtype, &rdatas) {
            return Err(ObservationFault::BadBody);
        }
        // What the proof needs to know of the name and the moment.
        prove!(!name.octets().is_empty());
        prove!(stamp.value() <= LATEST);
        Ok(Observation {
            kind: Kind::Positive,
            name,
            rtype,
            rank,
            stamp,
            life,
            body: Body::Records(rdatas),
        })
    }

    /// Makes a denial on the word of an SOA: a name has no data of a type, or, for `None`, there is
    /// no such name (RFC 2308 2).
    ///
    /// It is made exactly where its values pass the checks, and the error is the first that fails.
    /// The rank is 1 or 3, the life 1 to `LONGEST_DENIAL` seconds (RFC 2308 5), and the type, if
    /// any, one that data can have. The SOA's owner is the name or an ancestor, and its RDATA is
    /// plain. Its TTL is not kept. The errors come in the order of `ObservationFault`; the arguments
    /// are then dropped. This allocates nothing.
    pub fn negative(
        name: Name<A>,
        rtype: Option<u16>,
        rank: u8,
        stamp: Moment,
        life: u32,
        soa: Soa<A>,
    ) -> Result<Observation<A>, ObservationFault>
        ensures value { IfOk result (λ o. o ≡ record {
          kind = denied_kind rtype;
          name = name;
          rtype = denied_type rtype;
          body = negative_body soa.owner soa.rdata;
          rank = rank;
          stamp = stamp;
          life = life;
        }) }
        ensures checks { MatchResult result
            (λ _. MakesNegative name rtype rank life soa.owner soa.rdata)
            (IsNegativeFault name rtype rank life soa.owner soa.rdata) }
    {
        if !is_denial_rank(rank) {
            return Err(ObservationFault::BadRank);
        }
        if !is_life(LONGEST_DENIAL, life) {
            return Err(ObservationFault::BadLife);
        }
        if !is_denied_type(rtype) {
            return Err(ObservationFault::BadKind);
        }
        let Soa { owner, rdata, .. } = soa;
        if !is_denial(&name, &owner, rdata.as_slice()) {
            return Err(ObservationFault::BadBody);
        }
        // What the proof needs to know of the name and the moment.
        prove!(!name.octets().is_empty());
        prove!(stamp.value() <= LATEST);
        Ok(Observation {
            kind: kind_of_denial(rtype),
            name,
            rtype: rtype.unwrap_or(0),
            rank,
            stamp,
            life,
            body: Body::Authority(owner, rdata),
        })
    }

    /// Makes a flush: what was observed of a name, and of those below it, up to a moment is
    /// withdrawn. It has the greatest rank and the longest life, so that nothing that it withdraws
    /// outlives it, and an empty body. This allocates nothing.
    pub fn flush(name: Name<A>, stamp: Moment) -> Observation<A>
        ensures { result ≡ flush_at name stamp }
    {
        // What the proof needs to know of the name and the moment.
        prove!(!name.octets().is_empty());
        prove!(stamp.value() <= LATEST);
        Observation {
            kind: Kind::Flush,
            name,
            rtype: 0,
            rank: ANSWER,
            stamp,
            life: LONGEST_LIFE,
            body: Body::Nothing,
        }
    }

    /// The name that was observed.
    pub fn name(&self) -> &Name<A>
        ensures value { result.now ≡ self.now.name }
        ensures lawful { IsObservation self.now }
    {
        &self.name
    }

    /// What the observation says of the name.
    pub fn kind(&self) -> Kind
        ensures value { result ≡ self.now.kind }
        ensures lawful { IsObservation self.now }
    {
        self.kind
    }

    /// The type of the data that exist or do not; 0 for a name error and a flush.
    pub fn rtype(&self) -> u16
        ensures value { result ≡ self.now.rtype }
        ensures lawful { IsObservation self.now }
    {
        self.rtype
    }

    /// How far the observation is trusted: 1 to 3, and 3 the most (after RFC 2181 5.4.1).
    pub fn rank(&self) -> u8
        ensures value { result ≡ self.now.rank }
        ensures lawful { IsObservation self.now }
    {
        self.rank
    }

    /// The moment at which it was observed.
    pub fn stamp(&self) -> Moment
        ensures value { result ≡ self.now.stamp }
        ensures lawful { IsObservation self.now }
    {
        self.stamp
    }

    /// For how long the observation holds from its stamp on, in seconds: 1 to `LONGEST_LIFE`.
    pub fn life(&self) -> u32
        ensures value { result ≡ self.now.life }
        ensures lawful { IsObservation self.now }
    {
        self.life
    }

    /// The moment at which the observation ends, in seconds: its stamp plus its life. It may be
    /// later than `LATEST`.
    pub fn expires(&self) -> u64
        ensures value { result ≡ end_of self.now }
        ensures lawful { IsObservation self.now }
    {
        self.life as u64 + self.stamp.value()
    }

    /// The RDATAs of a positive observation, ascending; empty for the other kinds.
    pub fn rdatas(&self) -> &[Octets<A>]
        ensures body { self.now.kind ≡ Positive → self.now.body ≡ positive_body result.now }
        ensures rdatas { self.now.kind ≡ Positive → AreRdatas self.now.rtype result.now }
        ensures none { self.now.kind ≢ Positive → result.now ≡ [] }
        ensures lawful { IsObservation self.now }
    {
        match &self.body {
            Body::Records(rdatas) => rdatas,
            Body::Authority(..) => &[],
            Body::Nothing => &[],
        }
    }

    /// The owner and the RDATA of the SOA that a negative observation rests on; `None` for the
    /// other kinds.
    pub fn soa(&self) -> Option<(&Name<A>, &[u8])>
        ensures cases { MatchOption result (¬ IsNegativeKind self.now.kind)
            (λ p. IsNegativeKind self.now.kind) }
        ensures body { IfSome result (λ p. self.now.body ≡ negative_body p.0.now p.1.now) }
        ensures denial { IfSome result (λ p. IsDenial self.now.name p.0.now p.1.now) }
        ensures lawful { IsObservation self.now }
    {
        match &self.body {
            Body::Records(_) => None,
            Body::Authority(owner, rdata) => Some((owner, rdata.as_slice())),
            Body::Nothing => None,
        }
    }

    /// How many octets the body has, at most `LONGEST_BODY`.
    pub fn body_len(&self) -> usize
        ensures value { result ≡ length self.now.body }
        ensures bounded { result ≤ LONGEST_BODY }
    {
        self.body.len()
    }

    /// Appends the octets of the body, those of `write_body`. `Err` where an allocation fails;
    /// `octets` may then hold anything.
    pub fn append_body<B: Allocator>(&self, octets: &mut Vec<u8, B>) -> Result<(), AllocError>
        ensures { OnOk result (octets.new.items ≡ octets.old.items ++ self.now.body) }
    {
        self.body.push_to(octets)
    }

    /// The octets of the body. A positive observation has its RDATAs: their count, then each after
    /// its length. A negative one has the SOA: its owner in full, then its RDATA after its length.
    /// A flush has none. Counts and lengths have two octets, the high one first. `Err` where an
    /// allocation fails.
    pub fn write_body<B: Allocator>(&self, alloc: B) -> Result<Vec<u8, B>, AllocError>
        ensures { IfOk result (λ v. v.items ≡ self.now.body) }
    {
        let mut octets = Vec::with_capacity(alloc, self.body.len())?;
        self.append_body(&mut octets)?;
        Ok(octets)
    }

    /// Whether the observation is the one that is lent: with these values, and with these octets of
    /// its name and of its body. What differs soonest is compared first, and the body last, octet
    /// by octet. This allocates nothing.
    pub fn equals(&self, lent: &LentObservation<'_>) -> bool
        ensures equal { IsTrue result ↔ IsLent lent.now self.now }
        ensures lawful { IsObservation self.now }
    {
        if self.stamp != lent.stamp || self.life != lent.life || self.rank != lent.rank {
            return false;
        }
        if self.kind != lent.kind || self.rtype != lent.rtype {
            return false;
        }
        if self.name.octets() != lent.name {
            return false;
        }
        is_body(&self.body, lent.body)
    }

    /// A copy of the observation. `Err` where an allocation fails.
    pub fn try_clone(&self) -> Result<Observation<A>, AllocError>
    where
        A: Copy,
        ensures { IfOk result (λ o. o ≡ self.now) }
    {
        let name = self.name.try_clone()?;
        let body = self.body.try_clone()?;
        Ok(Observation {
            kind: self.kind,
            name,
            rtype: self.rtype,
            rank: self.rank,
            stamp: self.stamp,
            life: self.life,
            body,
        })
    }
}

/// The kind of a denial: `NoData` of a type, `NameError` without one.
fn kind_of_denial(rtype: Option<u16>) -> Kind
    ensures { result ≡ denied_kind rtype }
{
    match rtype {
        None => Kind::NameError,
        Some(_) => Kind::NoData,
    }
}
