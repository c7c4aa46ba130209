//! Tests of the values of an observation.

ghost use Rattle.std.specs.Prelude.{◌≡◌, ◌≢◌, ◌<◌, ◌↔◌, [], IsTrue, IsFalse};
ghost use Rattle.fleet_observe.specs.Members.{IsAscending};
ghost use Rattle.fleet_observe.specs.Body.{AreAllPlain, HaveShortBody, AreRdatas, IsDenial};
ghost use Rattle.fleet_observe.specs.Observation.{IsRank, IsDenialRank, IsLife, IsDataType};
ghost use Rattle.fleet_observe.specs.Checks.{IsDeniedType, IsRankOf, IsLifeOf, IsTypeOf, IsCountOf};

use crate::bounds::{LONGEST_BODY, LONGEST_DENIAL, LONGEST_LIFE};
use crate::observation::kind::Kind;
use crate::rank::{ANSWER, OTHER};
use fleet_name::{Name, Octets};
use fleet_wire::plain_rdata;
use fleet_wire::rtype::{CNAME, SOA};
use std::alloc::Allocator;

/// Whether it is a rank: 1, 2 or 3.
pub(crate) fn is_rank(rank: u8) -> bool
    ensures { IsTrue result ↔ IsRank rank }
{
    (OTHER..=ANSWER).contains(&rank)
}

/// Whether a denial can have the rank: 1 or 3.
pub(crate) fn is_denial_rank(rank: u8) -> bool
    ensures { IsTrue result ↔ IsDenialRank rank }
{
    rank == OTHER || rank == ANSWER
}

/// Whether it is a life of 1 to `most` seconds.
pub(crate) fn is_life(most: u32, life: u32) -> bool
    ensures { IsTrue result ↔ IsLife most life }
{
    (1..=most).contains(&life)
}

/// Whether data can have the type: not 0, not 41 (OPT), and not one of 128 to 255 (RFC 6895 3.1).
pub fn is_data_type(rtype: u16) -> bool
    ensures { IsTrue result ↔ IsDataType rtype }
{
    !matches!(rtype, 0 | 41 | 128..=255)
}

/// Whether each is greater than the one before it, as octets.
fn are_ascending<A: Allocator>(rdatas: &[Octets<A>]) -> bool
    ensures { IsTrue result ↔ IsAscending rdatas.now }
{
    for i in 1..rdatas.len() {
        if rdatas[i - 1].as_slice().cmp(rdatas[i].as_slice()).is_ge() {
            return false;
        }
    }
    true
}

/// Whether each has its type's shape, with names in full and in lower case.
fn are_plain<A: Allocator>(rtype: u16, rdatas: &[Octets<A>]) -> bool
    ensures { IsTrue result ↔ AreAllPlain rtype rdatas.now }
{
    for rdata in rdatas {
        if !plain_rdata(rtype, rdata.as_slice()) {
            return false;
        }
    }
    true
}

/// Whether their body has at most `LONGEST_BODY` octets.
pub(crate) fn are_short<A: Allocator>(rdatas: &[Octets<A>]) -> bool
    ensures { IsTrue result ↔ HaveShortBody rdatas.now }
{
    let mut room = LONGEST_BODY - 2;
    for rdata in rdatas {
        let size = rdata.as_slice().len();
        if room < 2 || room - 2 < size {
            return false;
        }
        room -= 2 + size;
    }
    true
}

/// Whether an observation of the kind can have the rank: 1, 2 or 3 where it is positive, 1 or 3
/// where it is a denial, 3 where it is a flush.
pub fn is_rank_of(kind: Kind, rank: u8) -> bool
    ensures { IsTrue result ↔ IsRankOf kind rank }
{
    match kind {
        Kind::Positive => is_rank(rank),
        Kind::NoData => is_denial_rank(rank),
        Kind::NameError => is_denial_rank(rank),
        Kind::Flush => rank == ANSWER,
    }
}

/// Whether an observation of the kind can have the life, in seconds: at least one, and no more
/// than `LONGEST_LIFE`, of a denial than `LONGEST_DENIAL`; of a flush just `LONGEST_LIFE`.
pub fn is_life_of(kind: Kind, life: u32) -> bool
    ensures { IsTrue result ↔ IsLifeOf kind life }
{
    match kind {
        Kind::Positive => is_life(LONGEST_LIFE, life),
        Kind::NoData => is_life(LONGEST_DENIAL, life),
        Kind::NameError => is_life(LONGEST_DENIAL, life),
        Kind::Flush => life == LONGEST_LIFE,
    }
}

/// Whether an observation of the kind can have the type: 0 where it is a name error or a flush,
/// else one that data can have.
pub fn is_type_of(kind: Kind, rtype: u16) -> bool
    ensures { IsTrue result ↔ IsTypeOf kind rtype }
{
    match kind {
        Kind::Positive => is_data_type(rtype),
        Kind::NoData => is_data_type(rtype),
        Kind::NameError => rtype == 0,
        Kind::Flush => rtype == 0,
    }
}

/// Whether a positive observation of the type can have `count` RDATAs: at least one, and of an
/// alias (CNAME) one alone (RFC 2181 10.1).
pub fn is_count_of(rtype: u16, count: usize) -> bool
    ensures { IsTrue result ↔ IsCountOf rtype count }
{
    if count == 0 {
        return false;
    }
    rtype != CNAME || count == 1
}

/// Whether an observation of the type can hold these RDATAs: each test of `BadBody`.
pub(crate) fn are_rdatas<A: Allocator>(rtype: u16, rdatas: &[Octets<A>]) -> bool
    ensures { IsTrue result ↔ AreRdatas rtype rdatas.now }
{
    if !is_count_of(rtype, rdatas.len()) {
        return false;
    }
    are_short(rdatas) && are_ascending(rdatas) && are_plain(rtype, rdatas)
}

/// Whether a denial can be of this type; `None` is a name error.
pub(crate) fn is_denied_type(rtype: Option<u16>) -> bool
    ensures { IsTrue result ↔ IsDeniedType rtype }
{
    match rtype {
        None => true,
        Some(rtype) => is_data_type(rtype),
    }
}

/// Whether an SOA with this owner and RDATA can deny the name: the owner is the name or an
/// ancestor, and the RDATA has the shape of an SOA.
pub(crate) fn is_denial<A: Allocator>(name: &Name<A>, owner: &Name<A>, rdata: &[u8]) -> bool
    ensures { IsTrue result ↔ IsDenial name.now owner.now rdata.now }
{
    // What the proof needs to know of the owner.
    prove!(!owner.octets().is_empty());
    if !name.is_under(owner) {
        return false;
    }
    plain_rdata(SOA, rdata)
}
