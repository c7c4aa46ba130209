//! The SOA of a denial (RFC 2308 3, 5).

ghost use Rattle.std.specs.Prelude.{◌≡◌, ℕ, ◌≤◌, List, length, IfOk, IfErr, MatchOption};
ghost use Rattle.fleet_wire.specs.Record.{RecordData};
ghost use Rattle.fleet_observe.specs.Members.{Has};
ghost use Rattle.fleet_observe.specs.steps.Following.{ArePlainRecords};
ghost use Rattle.fleet_observe.specs.DigestOf.{IsSoaRecord, IsFirstSoa, IsSoa, HasSoa, minimum_of};

use crate::bounds::LONGEST_DENIAL;
use crate::observation::soa::Soa;
use crate::reply::rrset::bounded_ttl;
use fleet_name::Name;
use fleet_wire::Record;
use fleet_wire::class::IN;
use fleet_wire::rtype::SOA;
use std::alloc::{AllocError, Allocator};

/// The first SOA of a section.
fn first_soa<A: Allocator>(authority: &[Record<A>]) -> Option<&Record<A>>
    ensures { MatchOption result ((r : RecordData) → Has authority.now r → ¬ IsSoaRecord r)
        (λ r. IsFirstSoa authority.now r.now) }
{
    for record in authority {
        if record.class == IN && record.rtype == SOA {
            return Some(record);
        }
    }
    None
}

/// MINIMUM, the last number of an SOA's RDATA (RFC 1035 3.3.13).
fn minimum(rdata: &[u8]) -> u32
    requires { 4 ≤ length rdata.now }
    ensures { result ≡ minimum_of rdata.now }
{
    let at = rdata.len() - 4;
    u32::from_be_bytes([rdata[at], rdata[at + 1], rdata[at + 2], rdata[at + 3]])
}

/// The SOA that counts for a denied name: the first of the section, where its owner is the name or
/// an ancestor. Its TTL is the least of its own, MINIMUM and `LONGEST_DENIAL` (RFC 2308 5). `Err`
/// where an allocation fails.
pub(crate) fn soa_for<A: Allocator + Copy>(
    alloc: A,
    authority: &[Record<A>],
    denied: &Name<A>,
) -> Result<Option<Soa<A>>, AllocError>
    requires { ArePlainRecords authority.now }
    ensures soa { IfOk result (λ o. IsSoa authority.now denied.now o) }
    ensures memory { IfErr result (λ _. HasSoa authority.now denied.now) }
{
    let Some(record) = first_soa(authority) else {
        return Ok(None);
    };
    if !denied.is_under(&record.name) {
        return Ok(None);
    }
    let own = bounded_ttl(record.ttl);
    let least = bounded_ttl(minimum(record.rdata.as_slice()));
    Ok(Some(Soa {
        owner: record.name.try_clone()?,
        ttl: own.min(least).min(LONGEST_DENIAL),
        rdata: record.rdata.try_clone()?,
    }))
}
