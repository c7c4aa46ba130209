//! Replies made of a digest.

ghost use Rattle.std.specs.Prelude.{◌≡◌, ℕ, ◌<◌, IfOk, OnOk};
ghost use Rattle.fleet_wire.specs.Outline.{octets_of_outline};
ghost use Rattle.fleet_observe.specs.Digest.{end_data};
ghost use Rattle.fleet_observe.specs.Relay.{code_of, is_cut, soa_lines, relay_outline, with_authority_lines, with_end};

use crate::observation::soa::Soa;
use crate::reply::ending::End;
use crate::reply::lent_rrset::add_rrset;
use crate::reply::summary::Digest;
use fleet_wire::rcode::{NAME_ERROR, NO_ERROR};
use fleet_wire::rtype::SOA;
use fleet_wire::{Outline, Question, write_reply};
use std::alloc::{AllocError, Allocator};

/// The RCODE of an end.
fn code_of_end<A: Allocator>(end: &End<A>) -> u8
    ensures { result ≡ code_of (end_data end.now) }
{
    match end {
        End::Records(_) => NO_ERROR,
        End::NoData(_) => NO_ERROR,
        End::NxDomain(_) => NAME_ERROR,
        End::Code(code) => *code,
        End::Truncated => NO_ERROR,
    }
}

/// Whether a reply with this end is cut off.
fn is_cut_off<A: Allocator>(end: &End<A>) -> bool
    ensures { result ≡ is_cut (end_data end.now) }
{
    match end {
        End::Records(_) => false,
        End::NoData(_) => false,
        End::NxDomain(_) => false,
        End::Code(_) => false,
        End::Truncated => true,
    }
}

/// Adds an SOA, if there is one, to the authority section.
fn put_soa<'a, A: Allocator + Copy>(
    outline: &mut Outline<'a, A>,
    soa: &'a Option<Soa<A>>,
) -> Result<(), AllocError>
    ensures { OnOk result (outline.new
        ≡ with_authority_lines outline.old (soa_lines soa.entry.now)) }
{
    match soa {
        None => Ok(()),
        Some(soa) => outline.authority(&soa.owner, SOA, soa.ttl, soa.rdata.as_slice()),
    }
}

/// Adds the records of an end.
fn put_end<'a, A: Allocator + Copy>(
    outline: &mut Outline<'a, A>,
    end: &'a End<A>,
) -> Result<(), AllocError>
    ensures { OnOk result (outline.new ≡ with_end outline.old (end_data end.entry.now)) }
{
    match end {
        End::Records(set) => add_rrset(outline, set.lend()),
        End::NoData(soa) => put_soa(outline, soa),
        End::NxDomain(soa) => put_soa(outline, soa),
        End::Code(_) => Ok(()),
        End::Truncated => Ok(()),
    }
}

/// The outline of the reply that `relay` writes.
fn outline_of<'a, A: Allocator + Copy>(
    alloc: A,
    digest: &'a Digest<A>,
    question: &'a Question<A>,
    id: u16,
    rd: bool,
) -> Result<Outline<'a, A>, AllocError>
    ensures { IfOk result (λ o. o
        ≡ relay_outline digest.entry.now question.entry.now id rd) }
{
    let end = digest.end();
    let rcode = code_of_end(end);
    let tc = is_cut_off(end);
    let mut outline = Outline::new(alloc, id, 0, rd, rcode, tc, Some(question));
    for link in digest.chain() {
        add_rrset(&mut outline, link.lend())?;
    }
    put_end(&mut outline, end)?;
    Ok(outline)
}

/// The reply to a client with this question, identifier and RD, made of the digest: the question in
/// its own spelling, the links, and then the records, or the SOA of a denial in the authority
/// section (RFC 1035 4.1). TTLs are the digest's. For an RCODE other than 0 and 3 it has that code
/// and the question alone; for a reply that was cut off RCODE 0, TC and the question. Where all of
/// it would have more than 512 octets, it is header and question with TC. `Err` where an allocation
/// fails.
pub fn relay<A: Allocator + Copy>(
    alloc: A,
    digest: &Digest<A>,
    question: &Question<A>,
    id: u16,
    rd: bool,
) -> Result<Vec<u8, A>, AllocError>
    ensures { IfOk result (λ v.
        v.items ≡ octets_of_outline (relay_outline digest.now question.now id rd)) }
{
    let outline = outline_of(alloc, digest, question, id, rd)?;
    write_reply(alloc, &outline)
}
