//! The bodies of observations, and their octets.

ghost use Rattle.std.specs.Prelude.{◌≡◌, ◌<◌, ◌≤◌, ◌++◌, length, IfOk, OnOk};
ghost use Rattle.fleet_wire.specs.Number.{u16_octets};
ghost use Rattle.fleet_observe.specs.Body.{positive_body, octets_with_length, HaveShortBody};
ghost use Rattle.fleet_observe.specs.declared.bounds.TheConstants.{LONGEST_BODY};

use fleet_name::{Name, Octets};
use std::alloc::{AllocError, Allocator};

/// The body of an observation, by its parts.
#[derive(Drop)]
pub(crate) enum Body<A: Allocator> {
    /// The RDATAs of a positive observation, ascending.
    Records(Vec<Octets<A>, A>),
    /// The SOA of a negative one: its owner and its RDATA.
    Authority(Name<A>, Octets<A>),
    /// The empty body of a flush.
    Nothing,
}

impl<A: Allocator> Body<A> {
    ghost use Rattle.fleet_observe.specs.BodyParts.{body_octets, AreSameParts};

    /// How many octets it has.
    pub(crate) fn len(&self) -> usize
        requires { length (body_octets self.now) ≤ LONGEST_BODY }
        ensures { result ≡ length (body_octets self.now) }
    {
        match self {
            Body::Records(rdatas) => rdatas_len(rdatas),
            Body::Authority(owner, rdata) => owner.octets().len() + 2 + rdata.as_slice().len(),
            Body::Nothing => 0,
        }
    }

    /// Appends its octets. `Err` where an allocation fails; some may then have been appended.
    pub(crate) fn push_to<B: Allocator>(&self, octets: &mut Vec<u8, B>) -> Result<(), AllocError>
        requires { length (body_octets self.now) ≤ LONGEST_BODY }
        ensures { OnOk result (octets.new.items ≡ octets.old.items ++ body_octets self.now) }
    {
        match self {
            Body::Records(rdatas) => push_rdatas(octets, rdatas),
            Body::Authority(owner, rdata) => {
                octets.extend_from_slice(owner.octets())?;
                push_sized(octets, rdata.as_slice())
            }
            Body::Nothing => Ok(()),
        }
    }

    /// A copy of the body. `Err` where an allocation fails.
    pub(crate) fn try_clone(&self) -> Result<Body<A>, AllocError>
    where
        A: Copy,
        ensures { IfOk result (AreSameParts self.now) }
    {
        match self {
            Body::Records(rdatas) => {
                let copies = copy_of(rdatas)?;
                Ok(Body::Records(copies))
            }
            Body::Authority(owner, rdata) => {
                let owner = owner.try_clone()?;
                let rdata = rdata.try_clone()?;
                Ok(Body::Authority(owner, rdata))
            }
            Body::Nothing => Ok(Body::Nothing),
        }
    }
}

/// How many octets the body of these RDATAs has.
fn rdatas_len<A: Allocator>(rdatas: &[Octets<A>]) -> usize
    requires { HaveShortBody rdatas.now }
    ensures { result ≡ length (positive_body rdatas.now) }
{
    let mut len = 2;
    for rdata in rdatas {
        len += 2 + rdata.as_slice().len();
    }
    len
}

/// Appends a number of two octets, the high one first.
fn push_u16<B: Allocator>(octets: &mut Vec<u8, B>, number: usize) -> Result<(), AllocError>
    requires { number < 65536 }
    ensures { OnOk result (octets.new.items ≡ octets.old.items ++ u16_octets number) }
{
    octets.extend_from_slice(&(number as u16).to_be_bytes())
}

/// Appends octets after their length in two octets.
fn push_sized<B: Allocator>(octets: &mut Vec<u8, B>, part: &[u8]) -> Result<(), AllocError>
    requires { length part.now < 65536 }
    ensures { OnOk result (octets.new.items ≡ octets.old.items ++ octets_with_length part.now) }
{
    push_u16(octets, part.len())?;
    octets.extend_from_slice(part)
}

/// Appends the body of these RDATAs: their count, then each after its length.
fn push_rdatas<A: Allocator, B: Allocator>(
    octets: &mut Vec<u8, B>,
    rdatas: &[Octets<A>],
) -> Result<(), AllocError>
    requires { HaveShortBody rdatas.now }
    ensures { OnOk result (octets.new.items ≡ octets.old.items ++ positive_body rdatas.now) }
{
    push_u16(octets, rdatas.len())?;
    for rdata in rdatas {
        push_sized(octets, rdata.as_slice())?;
    }
    Ok(())
}

/// A copy of RDATAs. `Err` where an allocation fails.
fn copy_of<A: Allocator + Copy>(rdatas: &Vec<Octets<A>, A>) -> Result<Vec<Octets<A>, A>, AllocError>
    ensures { IfOk result (λ v. v.items ≡ rdatas.now.items) }
{
    let mut copies = Vec::with_capacity(*rdatas.allocator(), rdatas.len())?;
    for rdata in rdatas {
        copies.push(rdata.try_clone()?)?;
    }
    Ok(copies)
}
