//! Entries: an observation each.

ghost use Rattle.std.specs.Prelude.{◌≡◌, ◌++◌, IfOk, MatchResult};
ghost use Rattle.fleet_name.specs.Types.{Labels};
ghost use Rattle.fleet_name.specs.Name.{wire, IsName, IsWire};
ghost use Rattle.fleet_observe.specs.Body.{positive_body, negative_body};
ghost use Rattle.fleet_observe.specs.Lent.{IsLent};
ghost use Rattle.fleet_observe.specs.Observation.{ObservationData};
ghost use Rattle.fleet_observe.specs.declared.observation.kind.Kind.TheVariants.{Positive, Flush};
ghost use Rattle.fleet_observe.specs.Checks.{denied_kind, denied_type};
ghost use Rattle.fleet_gossip.specs.Entry.{entry_octets, IsKindIn};
ghost use Rattle.fleet_gossip.specs.Faults.{EntryFails};
ghost use Rattle.fleet_gossip.specs.steps.Reading.{IsRdatasBody, IsSoaBody};
ghost use Rattle.fleet_gossip.specs.steps.EntryOf.{IsEntryOf};

use crate::body::{read_body, read_sized};
use crate::fault::FrameFault;
use crate::head::{Head, read_head, read_type};
use crate::name::read_name;
use crate::reader::Reader;
use fleet_name::{Name, Octets};
use fleet_observe::{Kind, LentObservation, Observation, Soa};
use std::alloc::{AllocError, Allocator};

/// A lawful entry that was read. Its name and its body are borrowed from the frame.
#[derive(Clone, Copy)]
pub(crate) struct FrameEntry<'a> {
    pub head: Head,
    /// The name, in full and in lower case.
    pub name: &'a [u8],
    pub rtype: u16,
    /// The octets of the body.
    pub body: &'a [u8],
}

/// Reads an entry of the version. This allocates nothing. `Err` is its first fault.
pub(crate) fn read_entry<'a>(
    reader: &mut Reader<'a>,
    version: u8,
) -> Result<FrameEntry<'a>, FrameFault>
    ensures { MatchResult result
        (λ entry. (o : ObservationData) × IsEntryOf entry o × IsKindIn version o.kind
        × (reader.old ≡ entry_octets o ++ reader.new))
        (EntryFails version reader.old) }
{
    let head = read_head(reader, version)?;
    let name = read_name(reader, FrameFault::BadName)?;
    let rtype = read_type(reader, head.kind)?;
    let body = read_body(reader, head.kind, name, rtype)?;
    Ok(FrameEntry {
        head,
        name,
        rtype,
        body,
    })
}

/// The name that octets are in full. `Err` where its allocation fails.
fn copy_name<A: Allocator>(alloc: A, octets: &[u8]) -> Result<Name<A>, AllocError>
    requires { IsWire octets.now }
    ensures { IfOk result (λ name.
        (n : Labels) → IsName n → octets.now ≡ wire n → name ≡ n) }
{
    let name = Name::copy_of(alloc, octets)?;
    // What the proof needs to know of the name.
    prove!(!name.octets().is_empty());
    Ok(name)
}

/// Copies of the RDATAs of a positive body. `Err` where an allocation fails.
fn copy_rdatas<A: Allocator + Copy>(alloc: A, body: &[u8]) -> Result<Vec<Octets<A>, A>, AllocError>
    requires { IsRdatasBody body.now }
    ensures { IfOk result (λ rdatas. body.now ≡ positive_body rdatas.items) }
{
    let mut reader = Reader::new(body);
    let Ok(count) = reader.read_u16() else {
        unreachable!()
    };
    let mut rdatas = Vec::with_capacity(alloc, usize::from(count))?;
    for _ in 0..count {
        let Ok(rdata) = read_sized(&mut reader) else {
            unreachable!()
        };
        rdatas.push(Octets::copy_of(alloc, rdata)?)?;
    }
    Ok(rdatas)
}

/// A copy of the SOA of a denial's body, which has no TTL: it is 0. `Err` where an allocation
/// fails.
fn copy_soa<A: Allocator + Copy>(alloc: A, body: &[u8]) -> Result<Soa<A>, AllocError>
    requires { IsSoaBody body.now }
    ensures { IfOk result (λ soa.
        IsName soa.owner × (body.now ≡ negative_body soa.owner soa.rdata)) }
{
    let mut reader = Reader::new(body);
    let Ok(owner) = read_name(&mut reader, FrameFault::BadBody) else {
        unreachable!()
    };
    let Ok(rdata) = read_sized(&mut reader) else {
        unreachable!()
    };
    let owner = copy_name(alloc, owner)?;
    let rdata = Octets::copy_of(alloc, rdata)?;
    Ok(Soa {
        owner,
        ttl: 0,
        rdata,
    })
}

impl FrameEntry<'_> {
    /// The observation of a positive entry.
    fn to_records<A: Allocator + Copy>(&self, alloc: A) -> Result<Observation<A>, AllocError>
        requires entry { (o : ObservationData) × IsEntryOf self.now o }
        requires kind { self.now.head.kind ≡ Positive }
        ensures { IfOk result (λ made. (o : ObservationData) → IsEntryOf self.now o → made ≡ o) }
    {
        let name = copy_name(alloc, self.name)?;
        let rdatas = copy_rdatas(alloc, self.body)?;
        let head = self.head;
        let Ok(observation) = Observation::positive(
            name, self.rtype, head.rank, head.stamp, head.life, rdatas,
        ) else {
            unreachable!()
        };
        Ok(observation)
    }

    /// The observation of a negative entry, of a type or of none.
    fn to_denial<A: Allocator + Copy>(
        &self,
        alloc: A,
        rtype: Option<u16>,
    ) -> Result<Observation<A>, AllocError>
        requires entry { (o : ObservationData) × IsEntryOf self.now o }
        requires kind { self.now.head.kind ≡ denied_kind rtype }
        requires rtype { self.now.rtype ≡ denied_type rtype }
        ensures { IfOk result (λ made. (o : ObservationData) → IsEntryOf self.now o → made ≡ o) }
    {
        let name = copy_name(alloc, self.name)?;
        let soa = copy_soa(alloc, self.body)?;
        let head = self.head;
        let Ok(observation) = Observation::negative(
            name, rtype, head.rank, head.stamp, head.life, soa,
        ) else {
            unreachable!()
        };
        Ok(observation)
    }

    /// The observation of a flush.
    fn to_flush<A: Allocator>(&self, alloc: A) -> Result<Observation<A>, AllocError>
        requires entry { (o : ObservationData) × IsEntryOf self.now o }
        requires kind { self.now.head.kind ≡ Flush }
        ensures { IfOk result (λ made. (o : ObservationData) → IsEntryOf self.now o → made ≡ o) }
    {
        let name = copy_name(alloc, self.name)?;
        Ok(Observation::flush(name, self.head.stamp))
    }

    /// The observation of the entry, with what it borrows.
    pub fn lent(&self) -> LentObservation<'_>
        ensures { (o : ObservationData) → IsEntryOf self.now o → IsLent result o }
    {
        LentObservation {
            kind: self.head.kind,
            name: self.name,
            rtype: self.rtype,
            rank: self.head.rank,
            stamp: self.head.stamp,
            life: self.head.life,
            body: self.body,
        }
    }

    /// The observation of the entry. `Err` where an allocation fails. The constructors check the values
    /// once more, so that they have no condition which only this caller could meet.
    pub fn to_observation<A: Allocator + Copy>(
        &self,
        alloc: A,
    ) -> Result<Observation<A>, AllocError>
        requires { (o : ObservationData) × IsEntryOf self.now o }
        ensures { IfOk result (λ made. (o : ObservationData) → IsEntryOf self.now o → made ≡ o) }
    {
        match self.head.kind {
            Kind::Positive => self.to_records(alloc),
            Kind::NoData => self.to_denial(alloc, Some(self.rtype)),
            Kind::NameError => self.to_denial(alloc, None),
            Kind::Flush => self.to_flush(alloc),
        }
    }
}
