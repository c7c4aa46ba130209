//! The NS RRsets that a reply is an authority for.

ghost use Rattle.std.specs.Prelude.{◌≡◌, ℕ, List, IfOk, IfErr, IsTrue, ◌↔◌};
ghost use Rattle.fleet_wire.specs.Message.{IsRead};
ghost use Rattle.fleet_observe.specs.Members.{Has};
ghost use Rattle.fleet_observe.specs.DigestOf.{IsNs, HasNs, owners_of, AreNsSets, HasAuthority, IsAuthority};

use crate::reply::rrset::{RrSet, rrset_at};
use fleet_name::Name;
use fleet_wire::class::IN;
use fleet_wire::rcode::NO_ERROR;
use fleet_wire::rtype::NS;
use fleet_wire::{Header, Message, Record};
use std::alloc::{AllocError, Allocator};

/// Whether the record is an NS record at the name or an ancestor of it.
fn is_ns<A: Allocator>(candidate: &Record<A>, name: &Name<A>) -> bool
    ensures { IsTrue result ↔ IsNs name.now candidate.now }
{
    if candidate.class != IN {
        return false;
    }
    if candidate.rtype != NS {
        return false;
    }
    name.is_under(&candidate.name)
}

/// Whether one of the RRsets has this owner.
fn owns<A: Allocator>(sets: &[RrSet<A>], owner: &Name<A>) -> bool
    ensures { IsTrue result ↔ Has (owners_of sets.now) owner.now }
{
    for set in sets {
        if set.name.same(owner) {
            return true;
        }
    }
    false
}

/// The NS RRsets at the name and its ancestors, in order of first appearance.
fn ns_sets<A: Allocator + Copy>(
    alloc: A,
    authority: &[Record<A>],
    name: &Name<A>,
) -> Result<Vec<RrSet<A>, A>, AllocError>
    ensures sets { IfOk result (λ v. AreNsSets name.now authority.now v.items) }
    ensures memory { IfErr result (λ _. HasNs name.now authority.now) }
{
    let mut sets = Vec::new(alloc);
    for record in authority {
        if is_ns(record, name) && !owns(&sets, &record.name) {
            let set = rrset_at(alloc, authority, &record.name, NS)?;
            sets.push(set)?;
        }
    }
    Ok(sets)
}

/// The NS RRsets that the reply is an authority for.
pub(crate) fn authority_sets<A: Allocator + Copy>(
    alloc: A,
    message: &Message<A>,
) -> Result<Vec<RrSet<A>, A>, AllocError>
    ensures sets { IfOk result (λ v. IsAuthority message.now v.items) }
    ensures memory { IfErr result (λ _.
        HasAuthority message.now × HasNs message.now.question.name message.now.authority) }
{
    let header = message.header();
    if header.tc || !header.aa || header.rcode != NO_ERROR {
        return Ok(Vec::new(alloc));
    }
    ns_sets(alloc, message.authority(), &message.question().name)
}
