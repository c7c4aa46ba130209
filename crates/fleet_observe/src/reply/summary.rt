//! The digest of a reply.

ghost use Rattle.std.specs.Prelude.{◌≡◌, ℕ, ◌⊎◌, List, [], IfOk};
ghost use Rattle.fleet_name.specs.Name.{labels_of};
ghost use Rattle.fleet_wire.specs.Message.{IsRead};
ghost use Rattle.fleet_observe.specs.RrSet.{SpellsName};
ghost use Rattle.fleet_observe.specs.Walk.{HasWalk, Ends};
ghost use Rattle.fleet_observe.specs.steps.Following.{ArePlainRecords, IsFollowed};
ghost use Rattle.fleet_observe.specs.Digest.{end_data, IsLawful};
ghost use Rattle.fleet_observe.specs.DigestOf.{IsServed, IsDigest, IsEnd, EndsAs, AsksWalk, IsWalkable};

use crate::reply::authority::authority_sets;
use crate::reply::denial::soa_for;
use crate::reply::ending::End;
use crate::reply::names::name_of;
use crate::reply::rrset::{RrSet, rrset_at};
use crate::reply::walk::{Hop, found_at, hop_at};
use fleet_name::Name;
use fleet_wire::rcode::NO_ERROR;
use fleet_wire::rtype::CNAME;
use fleet_wire::{Message, Record};
use std::alloc::{AllocError, Allocator, Global};
use std::marker::Model;

/// What a reply means: the links of the walk from the question's name along aliases, how it ends,
/// and the NS RRsets that it is an authority for. `digest` alone makes one. It has at most
/// `MOST_LINKS` links, its RRsets are lawful, and the SOA of a denial is owned by the denied name
/// or an ancestor of it.
#[derive(Drop)]
pub struct Digest<A: Allocator = Global> {
    name: Name<A>,
    rtype: u16,
    aa: bool,
    chain: Vec<RrSet<A>, A>,
    end: End<A>,
    ns: Vec<RrSet<A>, A>,
}

impl<A: Allocator> Model for Digest<A> {
    ghost use Rattle.fleet_observe.specs.Digest.{DigestData, end_data, IsLawful};

    ghost Value = { DigestData };

    ghost view = { λ d. record {
      name = d.name;
      rtype = d.rtype;
      aa = d.aa;
      chain = d.chain.items;
      end = end_data d.end;
      ns = d.ns.items;
    } };

    ghost invariant = { λ d. IsLawful (record {
      name = d.name;
      rtype = d.rtype;
      aa = d.aa;
      chain = d.chain.items;
      end = end_data d.end;
      ns = d.ns.items;
    }) };
}

impl<A: Allocator> Digest<A> {
    /// The name of the question.
    pub fn name(&self) -> &Name<A>
        ensures name { result.now ≡ self.now.name }
        ensures lawful { IsLawful self.now }
    {
        &self.name
    }

    /// The type of the question.
    pub fn rtype(&self) -> u16
        ensures rtype { result ≡ self.now.rtype }
        ensures lawful { IsLawful self.now }
    {
        self.rtype
    }

    /// Whether the reply had AA set.
    pub fn aa(&self) -> bool
        ensures aa { result ≡ self.now.aa }
        ensures lawful { IsLawful self.now }
    {
        self.aa
    }

    /// The links of the walk, in order: at most `MOST_LINKS` CNAME RRsets of one RDATA each.
    pub fn chain(&self) -> &[RrSet<A>]
        ensures chain { result.now ≡ self.now.chain }
        ensures lawful { IsLawful self.now }
    {
        &self.chain
    }

    /// How the reply ends.
    pub fn end(&self) -> &End<A>
        ensures end { end_data result.now ≡ self.now.end }
        ensures lawful { IsLawful self.now }
    {
        &self.end
    }

    /// The NS RRsets of the authority section that the reply is an authority for, in order of first
    /// appearance.
    pub fn ns(&self) -> &[RrSet<A>]
        ensures ns { result.now ≡ self.now.ns }
        ensures lawful { IsLawful self.now }
    {
        &self.ns
    }
}

/// The links of a walk, and the name where it ends, in full.
struct Followed<'a, A: Allocator> {
    chain: Vec<RrSet<A>, A>,
    at: &'a [u8],
}

/// Follows the walk.
fn follow<'a, A: Allocator + Copy>(
    alloc: A,
    answer: &'a [Record<A>],
    name: &'a [u8],
    rtype: u16,
) -> Result<Followed<'a, A>, AllocError>
    requires spelled { SpellsName name.now }
    requires plain { ArePlainRecords answer.now }
    requires walk { HasWalk answer.now rtype (labels_of name.now) }
    ensures { IfOk result (IsFollowed answer.now rtype (labels_of name.now)) }
{
    let mut chain = Vec::new(alloc);
    let mut at = name;
    while let Hop::Alias(alias) = hop_at(answer, at, rtype) {
        let link = rrset_at(alloc, answer, &alias.name, CNAME)?;
        chain.push(link)?;
        at = alias.rdata.as_slice();
    }
    Ok(Followed { chain, at })
}

/// How a walk ends.
fn end_of<A: Allocator + Copy>(
    alloc: A,
    message: &Message<A>,
    at: &[u8],
) -> Result<End<A>, AllocError>
    requires spelled { SpellsName at.now }
    requires read { IsRead message.now }
    requires ends { Ends message.now.answer message.now.question.rtype (labels_of at.now) }
    requires asks { AsksWalk message.now }
    ensures { IfOk result (λ e. IsEnd message.now (labels_of at.now) (end_data e)) }
{
    let answer = message.answer();
    let rtype = message.question().rtype;
    if let Some(record) = found_at(answer, at, rtype) {
        let records = rrset_at(alloc, answer, &record.name, rtype)?;
        return Ok(End::Records(records));
    }
    let denied = name_of(alloc, at)?;
    let soa = soa_for(alloc, message.authority(), &denied)?;
    if message.header().rcode == NO_ERROR {
        return Ok(End::NoData(soa));
    }
    Ok(End::NxDomain(soa))
}

/// The digest of a reply that asks for no walk. It is made of a copy of the question's name, so
/// this allocates nothing.
pub(crate) fn digest_without_walk<A: Allocator + Copy>(
    alloc: A,
    message: &Message<A>,
    name: Name<A>,
    end: End<A>,
) -> Digest<A>
    requires served { IsServed message.now }
    requires named { name ≡ message.now.question.name }
    requires ends_as { EndsAs message.now [] (end_data end) }
    requires idle { ¬ AsksWalk message.now }
    ensures { IsDigest message.now result }
{
    Digest {
        name,
        rtype: message.question().rtype,
        aa: message.header().aa,
        chain: Vec::new(alloc),
        end,
        ns: Vec::new(alloc),
    }
}

/// The digest of a reply with a walk. `Err` where an allocation fails.
pub(crate) fn digest_along_walk<A: Allocator + Copy>(
    alloc: A,
    message: &Message<A>,
) -> Result<Digest<A>, AllocError>
    requires served { IsServed message.now }
    requires asks { AsksWalk message.now }
    requires walk { IsWalkable message.now }
    ensures { IfOk result (IsDigest message.now) }
{
    let question = message.question();
    let name = question.name.octets();
    let rtype = question.rtype;
    let Followed { chain, at } = follow(alloc, message.answer(), name, rtype)?;
    let end = end_of(alloc, message, at)?;
    let ns = authority_sets(alloc, message)?;
    Ok(Digest {
        name: question.name.try_clone()?,
        rtype,
        aa: message.header().aa,
        chain,
        end,
        ns,
    })
}
