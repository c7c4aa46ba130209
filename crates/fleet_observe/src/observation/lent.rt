//! Observations that are lent, and how octets compare with what is held.

ghost use Rattle.std.specs.Prelude.{◌≡◌, ◌≢◌, ◌<◌, ◌≤◌, ◌++◌, ◌↔◌, length, IsTrue, MatchOption};
ghost use Rattle.fleet_name.specs.Types.{OctetList};
ghost use Rattle.fleet_wire.specs.Number.{u16_octets};
ghost use Rattle.fleet_observe.specs.Body.{positive_body, negative_body, octets_with_length, HaveShortBody};
ghost use Rattle.fleet_observe.specs.BodyParts.{body_octets};
ghost use Rattle.fleet_observe.specs.declared.bounds.TheConstants.{LONGEST_BODY};

use crate::observation::body::Body;
use crate::observation::kind::Kind;
use crate::observation::moment::Moment;
use fleet_name::{Name, Octets};
use std::alloc::Allocator;

/// An observation whose name and body are borrowed octets, as those of an entry of a frame. Its
/// values may be any.
#[derive(Clone, Copy)]
pub struct LentObservation<'a> {
    /// What it says of the name.
    pub kind: Kind,
    /// The name, in full and in lower case.
    pub name: &'a [u8],
    /// The type of the data that exist or do not.
    pub rtype: u16,
    /// How far it is trusted.
    pub rank: u8,
    /// The moment at which it was observed.
    pub stamp: Moment,
    /// For how long it holds from its stamp on, in seconds.
    pub life: u32,
    /// The octets of the body, as `Observation::write_body` has them.
    pub body: &'a [u8],
}

/// The octets after a part, where they begin with it.
fn behind<'a>(octets: &'a [u8], part: &[u8]) -> Option<&'a [u8]>
    ensures { MatchOption result ((rest : OctetList) → octets.now ≢ part.now ++ rest)
        (λ rest. octets.now ≡ part.now ++ rest.now) }
{
    octets.strip_prefix(part)
}

/// The octets after a number of two octets, where they begin with it.
fn behind_u16(octets: &[u8], number: usize) -> Option<&[u8]>
    requires { number < 65536 }
    ensures { MatchOption result ((rest : OctetList) → octets.now ≢ u16_octets number ++ rest)
        (λ rest. octets.now ≡ u16_octets number ++ rest.now) }
{
    behind(octets, &(number as u16).to_be_bytes())
}

/// The octets after a part with its length before it, where they begin with both.
fn behind_sized<'a>(octets: &'a [u8], part: &[u8]) -> Option<&'a [u8]>
    requires { length part.now < 65536 }
    ensures { MatchOption result
        ((rest : OctetList) → octets.now ≢ octets_with_length part.now ++ rest)
        (λ rest. octets.now ≡ octets_with_length part.now ++ rest.now) }
{
    let Some(rest) = behind_u16(octets, part.len()) else {
        return None;
    };
    behind(rest, part)
}

/// Whether octets are the body of these RDATAs.
fn is_positive_body<A: Allocator>(rdatas: &[Octets<A>], octets: &[u8]) -> bool
    requires { HaveShortBody rdatas.now }
    ensures { IsTrue result ↔ (octets.now ≡ positive_body rdatas.now) }
{
    let Some(mut rest) = behind_u16(octets, rdatas.len()) else {
        return false;
    };
    for rdata in rdatas {
        let Some(next) = behind_sized(rest, rdata.as_slice()) else {
            return false;
        };
        rest = next;
    }
    rest.is_empty()
}

/// Whether octets are the body of a denial by this SOA.
fn is_negative_body<A: Allocator>(owner: &Name<A>, rdata: &[u8], octets: &[u8]) -> bool
    requires { length rdata.now < 65536 }
    ensures { IsTrue result ↔ (octets.now ≡ negative_body owner.now rdata.now) }
{
    let Some(rest) = behind(octets, owner.octets()) else {
        return false;
    };
    let Some(left) = behind_sized(rest, rdata) else {
        return false;
    };
    left.is_empty()
}

/// Whether octets are those of a body.
pub(crate) fn is_body<A: Allocator>(body: &Body<A>, octets: &[u8]) -> bool
    requires { length (body_octets body.now) ≤ LONGEST_BODY }
    ensures { IsTrue result ↔ (octets.now ≡ body_octets body.now) }
{
    match body {
        Body::Records(rdatas) => is_positive_body(rdatas, octets),
        Body::Authority(owner, rdata) => is_negative_body(owner, rdata.as_slice(), octets),
        Body::Nothing => octets.is_empty(),
    }
}
