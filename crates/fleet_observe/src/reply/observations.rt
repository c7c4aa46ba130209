//! The observations of a digest.

ghost use Rattle.std.specs.Prelude.{◌≡◌, ◌≢◌, ◌↔◌, ℕ, ◌≤◌, ◌++◌, List, [], IfOk, IfErr, OnOk, IsTrue, Option, Some};
ghost use Rattle.fleet_name.specs.Name.{labels_of};
ghost use Rattle.fleet_observe.specs.Members.{Has};
ghost use Rattle.fleet_observe.specs.Body.{HaveShortBody};
ghost use Rattle.fleet_observe.specs.Observation.{IsRank, IsDenialRank, AreObservations};
ghost use Rattle.fleet_observe.specs.Checks.{IsDeniedType, denied_kind, denied_type};
ghost use Rattle.fleet_observe.specs.RrSet.{RrSetData, SpellsName};
ghost use Rattle.fleet_observe.specs.Digest.{end_data, denied_by, first_or, IsLawfulSet, IsLawfulLink, IsLawfulSoa, IsLawful};
ghost use Rattle.fleet_observe.specs.Observations.{positive_observations, denial_observations, answer_rank, denial_rank, link_observations, end_observations, ns_observations, reply_observations};

use crate::bounds::LATEST;
use crate::observation::Observation;
use crate::observation::moment::Moment;
use crate::observation::soa::Soa;
use crate::observation::values::are_short;
use crate::rank::{ANSWER, AUTHORITY, OTHER};
use crate::reply::ending::End;
use crate::reply::names::name_of;
use crate::reply::rrset::RrSet;
use crate::reply::summary::Digest;
use fleet_name::{Name, Octets};
use std::alloc::{AllocError, Allocator};

/// Copies of the RDATAs. `Err` where an allocation fails.
fn copies<A: Allocator + Copy>(
    alloc: A,
    rdatas: &[Octets<A>],
) -> Result<Vec<Octets<A>, A>, AllocError>
    ensures { IfOk result (λ v. v.items ≡ rdatas.now) }
{
    let mut all = Vec::with_capacity(alloc, rdatas.len())?;
    for rdata in rdatas {
        all.push(rdata.try_clone()?)?;
    }
    Ok(all)
}

/// Whether an RRset is observed: its TTL is not zero and its body not too long.
fn is_observed<A: Allocator>(set: &RrSet<A>) -> bool
    ensures { IsTrue result
        ↔ ((1 ≤ set.now.ttl) × HaveShortBody set.now.rdatas) }
{
    if set.ttl == 0 {
        return false;
    }
    are_short(set.rdatas.as_slice())
}

/// Adds the observation of an RRset, unless its TTL is zero or its body too long.
fn put_set<A: Allocator + Copy>(
    set: &RrSet<A>,
    rank: u8,
    stamp: Moment,
    out: &mut Vec<Observation<A>, A>,
) -> Result<(), AllocError>
    requires lawful { IsLawfulSet set.now }
    requires ranked { IsRank rank }
    ensures added { OnOk result (out.new.items
        ≡ out.old.items ++ positive_observations set.now rank stamp) }
    ensures memory { IfErr result
        (λ _. positive_observations set.now rank stamp ≢ []) }
{
    if !is_observed(set) {
        return Ok(());
    }
    let rdatas = copies(*out.allocator(), set.rdatas.as_slice())?;
    let name = set.name.try_clone()?;
    let made = Observation::positive(name, set.rtype, rank, stamp, set.ttl, rdatas);
    let Ok(observation) = made else {
        unreachable!()
    };
    out.push(observation)?;
    Ok(())
}

/// Adds the observation of a denial, unless the SOA's TTL is zero.
fn put_denial<A: Allocator + Copy>(
    denied: &[u8],
    rtype: Option<u16>,
    rank: u8,
    stamp: Moment,
    soa: &Soa<A>,
    out: &mut Vec<Observation<A>, A>,
) -> Result<(), AllocError>
    requires spelled { SpellsName denied.now }
    requires typed { IsDeniedType rtype }
    requires ranked { IsDenialRank rank }
    requires lawful { IsLawfulSoa (labels_of denied.now) soa.now }
    ensures added { OnOk result (out.new.items
        ≡ out.old.items
        ++ denial_observations (denied_kind rtype) (labels_of denied.now) (denied_type rtype) rank
        stamp
        (Some soa.now)) }
    ensures memory { IfErr result
        (λ _. denial_observations (denied_kind rtype) (labels_of denied.now)
        (denied_type rtype) rank stamp (Some soa.now) ≢ []) }
{
    if soa.ttl == 0 {
        return Ok(());
    }
    let name = name_of(*out.allocator(), denied)?;
    let copy = Soa {
        owner: soa.owner.try_clone()?,
        ttl: soa.ttl,
        rdata: soa.rdata.try_clone()?,
    };
    let made = Observation::negative(name, rtype, rank, stamp, soa.ttl, copy);
    let Ok(observation) = made else {
        unreachable!()
    };
    out.push(observation)?;
    Ok(())
}

/// The rank of an RRset of the answer section: `ANSWER` where the question's name owns it and AA is
/// set, else `OTHER`.
fn rank_of<A: Allocator>(aa: bool, name: &Name<A>, owner: &Name<A>) -> u8
    ensures rank { result ≡ answer_rank aa name.now owner.now }
    ensures ranked { IsRank result }
{
    if aa && owner.octets() == name.octets() {
        ANSWER
    } else {
        OTHER
    }
}

/// The rank of a denial: `ANSWER` where AA is set and the walk has no link, else `OTHER`.
fn rank_of_denial<A: Allocator>(aa: bool, chain: &[RrSet<A>]) -> u8
    ensures rank { result ≡ denial_rank aa chain.now }
    ensures ranked { IsDenialRank result }
{
    match chain {
        [] => { if aa { ANSWER } else { OTHER } }
        [_, ..] => OTHER,
    }
}

/// The first of the RDATAs, or else these octets.
fn first_of<'a, A: Allocator>(octets: &'a [u8], rdatas: &'a [Octets<A>]) -> &'a [u8]
    ensures { result.now ≡ first_or octets.now rdatas.now }
{
    match rdatas {
        [] => octets,
        [first, ..] => first.as_slice(),
    }
}

/// The name where the walk ended, in full.
fn denied_at<'a, A: Allocator>(name: &'a Name<A>, chain: &'a [RrSet<A>]) -> &'a [u8]
    requires { (x : RrSetData) → Has chain.now x → IsLawfulLink x }
    ensures name { labels_of result.now ≡ denied_by name.now chain.now }
    ensures spelled { SpellsName result.now }
{
    let mut at = name.octets();
    for link in chain {
        at = first_of(at, link.rdatas.as_slice());
    }
    at
}

/// Adds the observations of the links.
fn put_links<A: Allocator + Copy>(
    digest: &Digest<A>,
    stamp: Moment,
    out: &mut Vec<Observation<A>, A>,
) -> Result<(), AllocError>
    ensures added { OnOk result (out.new.items
        ≡ out.old.items ++ link_observations digest.now.aa digest.now.name stamp digest.now.chain) }
    ensures memory { IfErr result (λ _.
        link_observations digest.now.aa digest.now.name stamp digest.now.chain ≢ []) }
{
    let name = digest.name();
    let aa = digest.aa();
    for link in digest.chain() {
        let rank = rank_of(aa, name, &link.name);
        put_set(link, rank, stamp, out)?;
    }
    Ok(())
}

/// Adds the observation of the end.
fn put_end<A: Allocator + Copy>(
    digest: &Digest<A>,
    stamp: Moment,
    out: &mut Vec<Observation<A>, A>,
) -> Result<(), AllocError>
    ensures added { OnOk result (out.new.items
        ≡ out.old.items ++ end_observations digest.now stamp digest.now.end) }
    ensures memory { IfErr result (λ _. end_observations digest.now stamp digest.now.end ≢ []) }
{
    let name = digest.name();
    let aa = digest.aa();
    let denied = denied_at(name, digest.chain());
    let rank = rank_of_denial(aa, digest.chain());
    let rtype = digest.rtype();
    match digest.end() {
        End::Records(set) => put_set(set, rank_of(aa, name, &set.name), stamp, out),
        End::NoData(None) => Ok(()),
        End::NoData(Some(soa)) => put_denial(denied, Some(rtype), rank, stamp, soa, out),
        End::NxDomain(None) => Ok(()),
        End::NxDomain(Some(soa)) => put_denial(denied, None, rank, stamp, soa, out),
        End::Code(_) => Ok(()),
        End::Truncated => Ok(()),
    }
}

/// Adds the observations of the NS RRsets.
fn put_ns<A: Allocator + Copy>(
    digest: &Digest<A>,
    stamp: Moment,
    out: &mut Vec<Observation<A>, A>,
) -> Result<(), AllocError>
    ensures added { OnOk result (out.new.items
        ≡ out.old.items ++ ns_observations stamp digest.now.ns) }
    ensures memory { IfErr result (λ _. ns_observations stamp digest.now.ns ≢ []) }
    ensures lawful { IsLawful digest.now }
{
    for set in digest.ns() {
        put_set(set, AUTHORITY, stamp, out)?;
    }
    Ok(())
}

/// The observations of a reply at a moment, each once, in this order: the links, the records or the
/// denial with its SOA, the NS RRsets. Left out are those with a TTL of zero, RRsets whose body has
/// more than `LONGEST_BODY` octets, and a denial without SOA. Where there are none, this allocates
/// nothing. `Err` where an allocation fails.
pub fn observations<A: Allocator + Copy>(
    alloc: A,
    digest: &Digest<A>,
    stamp: Moment,
) -> Result<Vec<Observation<A>, A>, AllocError>
    ensures observed { IfOk result (λ os. os.items ≡ reply_observations digest.now stamp) }
    ensures memory { IfErr result (λ _. reply_observations digest.now stamp ≢ []) }
    ensures lawful { IfOk result (λ os. AreObservations os.items) }
{
    let mut out = Vec::new(alloc);
    put_links(digest, stamp, &mut out)?;
    put_end(digest, stamp, &mut out)?;
    put_ns(digest, stamp, &mut out)?;
    prove!(stamp.value() <= LATEST);
    Ok(out)
}
