//! RRsets (RFC 2181 5).

ghost use Rattle.std.specs.Prelude.{◌≡◌, ◌≤◌, ◌⊎◌, ◌↔◌, length, IfOk, OnOk, IsTrue};
ghost use Rattle.fleet_name.specs.Types.{OctetList};
ghost use Rattle.fleet_name.specs.Name.{labels_of};
ghost use Rattle.fleet_observe.specs.Members.{Has, IsAscending};
ghost use Rattle.fleet_observe.specs.RrSet.{SpellsName, IsOfRrSet, IsTtl, IsRrSet, read_ttl, rrset_of_lent, count_below, HasSet};

use crate::bounds::LONGEST_LIFE;
use crate::items::Items;
use crate::observation::values::is_data_type;
use crate::reply::lent_rrset::LentRrSet;
use fleet_name::{Name, Octets};
use fleet_wire::Record;
use fleet_wire::class::IN;
use std::alloc::{AllocError, Allocator, Global};
use std::marker::Model;

/// An RRset of the class IN: the records of one owner and type, equal ones suppressed (RFC 2181 5).
#[derive(Drop)]
pub struct RrSet<A: Allocator = Global> {
    /// The owner of the records.
    pub name: Name<A>,
    /// The type of the records.
    pub rtype: u16,
    /// The least of their TTLs, in seconds, at most `LONGEST_LIFE` (RFC 2181 5.2, 8).
    pub ttl: u32,
    /// Their RDATAs, ascending as octets, each once.
    pub rdatas: Items<Octets<A>, A>,
}

impl<A: Allocator> Model for RrSet<A> {
    ghost use Rattle.fleet_observe.specs.RrSet.{RrSetData};

    ghost Value = { RrSetData };

    ghost view = { λ x. record {
      name = x.name;
      rtype = x.rtype;
      ttl = x.ttl;
      rdatas = x.rdatas;
    } };
}

impl<A: Allocator> RrSet<A> {
    /// The records of the RRset, lent, as a reply has them.
    pub fn lend(&self) -> LentRrSet<A>
        ensures { rrset_of_lent result ≡ self.now }
    {
        LentRrSet {
            name: &self.name,
            rtype: self.rtype,
            ttl: self.ttl,
            rdatas: self.rdatas.as_slice(),
        }
    }
}

/// Whether the record is of the class IN and of the RRset at this name, in full, and type.
pub(crate) fn is_of_rrset<A: Allocator>(candidate: &Record<A>, name: &[u8], rtype: u16) -> bool
    requires { SpellsName name.now }
    ensures { IsTrue result ↔ IsOfRrSet (labels_of name.now) rtype candidate.now }
{
    if candidate.class != IN {
        return false;
    }
    if candidate.rtype != rtype {
        return false;
    }
    if !is_data_type(rtype) {
        return false;
    }
    candidate.name.octets() == name
}

/// A TTL as it is read: zero with its top bit set (RFC 2181 8), and at most `LONGEST_LIFE`.
pub(crate) fn bounded_ttl(ttl: u32) -> u32
    ensures { result ≡ read_ttl ttl }
{
    if ttl >= 0x8000_0000 {
        0
    } else {
        ttl.min(LONGEST_LIFE)
    }
}

/// The least TTL of the RRset's records, in seconds (RFC 2181 5.2).
fn least_ttl<A: Allocator>(section: &[Record<A>], name: &[u8], rtype: u16) -> u32
    requires spelled { SpellsName name.now }
    requires some { HasSet section.now (labels_of name.now) rtype }
    ensures { IsTtl section.now (labels_of name.now) rtype result }
{
    let mut least = LONGEST_LIFE;
    for record in section {
        if is_of_rrset(record, name, rtype) {
            least = bounded_ttl(record.ttl).min(least);
        }
    }
    least
}

/// Whether these octets are among the RDATAs.
fn holds<A: Allocator>(rdatas: &[Octets<A>], rdata: &[u8]) -> bool
    ensures { IsTrue result ↔ Has rdatas.now rdata.now }
{
    for held in rdatas {
        if held.as_slice() == rdata {
            return true;
        }
    }
    false
}

/// The index at which an RDATA is inserted: how many at the beginning are less.
fn insertion_index<A: Allocator>(rdatas: &[Octets<A>], rdata: &[u8]) -> usize
    ensures count { result ≡ count_below rdata.now rdatas.now }
    ensures within { result ≤ length rdatas.now }
{
    let mut at = 0;
    while at < rdatas.len() && rdatas[at].as_slice().cmp(rdata).is_lt() {
        at += 1;
    }
    at
}

/// Inserts an RDATA at its place, unless it is there already. `Err` where an allocation fails.
fn add<A: Allocator + Copy>(rdatas: &mut Vec<Octets<A>, A>, rdata: &[u8]) -> Result<(), AllocError>
    requires { IsAscending rdatas.old.items }
    ensures ascending { OnOk result (IsAscending rdatas.new.items) }
    ensures members { OnOk result ((d : OctetList)
        → Has rdatas.new.items d ↔ (Has rdatas.old.items d ⊎ (rdata.now ≡ d))) }
{
    if holds(rdatas, rdata) {
        return Ok(());
    }
    let at = insertion_index(rdatas, rdata);
    rdatas.insert(at, Octets::copy_of(*rdatas.allocator(), rdata)?)?;
    Ok(())
}

/// The RRset of a section at this name and type, which has a record there. `Err` where an
/// allocation fails.
pub(crate) fn rrset_at<A: Allocator + Copy>(
    alloc: A,
    section: &[Record<A>],
    owner: &Name<A>,
    rtype: u16,
) -> Result<RrSet<A>, AllocError>
    requires { HasSet section.now owner.now rtype }
    ensures { IfOk result (λ x. IsRrSet section.now owner.now rtype x) }
{
    let name = owner.octets();
    let mut rdatas = Vec::new(alloc);
    for record in section {
        if is_of_rrset(record, name, rtype) {
            add(&mut rdatas, record.rdata.as_slice())?;
        }
    }
    Ok(RrSet {
        name: owner.try_clone()?,
        rtype,
        ttl: least_ttl(section, name, rtype),
        rdatas: Items::new(rdatas),
    })
}
