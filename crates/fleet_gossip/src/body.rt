//! Reading the body of an entry. Nothing here allocates.

ghost use Rattle.std.specs.Prelude.{◌≡◌, ◌≤◌, List, ◌++◌, ◌∷◌, [], ◌↔◌, length, IsTrue, MatchOption, MatchResult};
ghost use Rattle.fleet_name.specs.Types.{Labels, OctetList};
ghost use Rattle.fleet_name.specs.Name.{wire, IsName, IsWire};
ghost use Rattle.fleet_observe.specs.Body.{octets_with_length, positive_body, IsPositiveBody, IsNegativeBody};
ghost use Rattle.fleet_observe.specs.declared.bounds.TheConstants.{LONGEST_BODY};
ghost use Rattle.fleet_gossip.specs.Entry.{AreFirstRdatas, AreBodyOctets};
ghost use Rattle.fleet_gossip.specs.Faults.{SizedFails, RdatasFail, PositiveFails, NegativeFails, BodyFails};
ghost use Rattle.fleet_gossip.specs.steps.Reading.{AnyRdata, ComesAfterLast, HasLast, IsPart, IsSizeOf, AreFirstOf, IsOwnerOf};

use crate::fault::FrameFault;
use crate::name::{is_under, read_name};
use crate::reader::Reader;
use fleet_observe::bounds::LONGEST_BODY;
use fleet_observe::{Kind, is_count_of};
use fleet_wire::plain_rdata;
use fleet_wire::rtype::SOA;

/// RDATA after its length of two octets; `Truncated` where the octets end before.
pub(crate) fn read_sized<'a>(reader: &mut Reader<'a>) -> Result<&'a [u8], FrameFault>
    ensures { MatchResult result (λ r. reader.old ≡ octets_with_length r.now ++ reader.new)
        (SizedFails AnyRdata reader.old) }
{
    let size = reader.read_u16()?;
    reader.take(usize::from(size))
}

/// Whether the RDATA is greater than the last one, if there is one.
fn is_above(last: Option<&[u8]>, rdata: &[u8]) -> bool
    ensures { (before : List OctetList)
        → MatchOption last.entry (before ≡ []) (λ r. HasLast before r.now)
        → (IsTrue result ↔ ComesAfterLast before rdata.now) }
{
    match last {
        None => true,
        Some(last) => last.cmp(rdata).is_lt(),
    }
}

/// Whether the RDATA may follow others, whose last one is `last` and whose body has `size` octets.
fn is_next(rtype: u16, last: Option<&[u8]>, size: usize, rdata: &[u8]) -> bool
    requires { size ≤ LONGEST_BODY }
    ensures { (before : List OctetList)
        → MatchOption last.entry (before ≡ []) (λ r. HasLast before r.now)
        → AreFirstRdatas rtype before → size ≡ length (positive_body before)
        → (IsTrue result ↔ AreFirstRdatas rtype (before ++ rdata.now ∷ [])) }
{
    if rdata.len() > LONGEST_BODY || size + 2 + rdata.len() > LONGEST_BODY {
        return false;
    }
    if !is_above(last, rdata) {
        return false;
    }
    plain_rdata(rtype, rdata)
}

/// Reads `count` RDATAs of a type, and returns how many octets their body has.
fn read_rdatas(reader: &mut Reader<'_>, rtype: u16, count: u16) -> Result<usize, FrameFault>
    ensures { MatchResult result (λ size. AreFirstOf rtype count reader.old size reader.new)
        (RdatasFail rtype count reader.old) }
{
    let mut last = None;
    let mut size = 2;
    for _ in 0..count {
        let rdata = read_sized(reader)?;
        if !is_next(rtype, last, size, rdata) {
            return Err(FrameFault::BadBody);
        }
        size += 2 + rdata.len();
        last = Some(rdata);
    }
    Ok(size)
}

/// The size of the positive body at the front, in octets.
fn positive_size(octets: &[u8], rtype: u16) -> Result<usize, FrameFault>
    ensures { MatchResult result (λ size. IsSizeOf (IsPositiveBody rtype) octets.now size)
        (PositiveFails rtype octets.now) }
{
    let mut reader = Reader::new(octets);
    let count = reader.read_u16()?;
    if !is_count_of(rtype, usize::from(count)) {
        return Err(FrameFault::BadBody);
    }
    read_rdatas(&mut reader, rtype, count)
}

/// Reads the owner of the SOA of a denial of the name; `BadBody` where it is neither the name nor
/// an ancestor of it.
fn read_owner<'a>(reader: &mut Reader<'a>, name: &[u8]) -> Result<&'a [u8], FrameFault>
    requires { IsWire name.now }
    ensures { (n : Labels) → IsName n → name.now ≡ wire n
        → MatchResult result (λ r. IsPart (IsOwnerOf n) reader.old r.now reader.new)
        (NegativeFails n reader.old) }
{
    let owner = read_name(reader, FrameFault::BadBody)?;
    if !is_under(name, owner) {
        return Err(FrameFault::BadBody);
    }
    Ok(owner)
}

/// The size of the body at the front, of a denial of the name, in octets.
fn negative_size(octets: &[u8], name: &[u8]) -> Result<usize, FrameFault>
    requires { IsWire name.now }
    ensures { (n : Labels) → IsName n → name.now ≡ wire n
        → MatchResult result (λ size. IsSizeOf (IsNegativeBody n) octets.now size)
        (NegativeFails n octets.now) }
{
    let mut reader = Reader::new(octets);
    let owner = read_owner(&mut reader, name)?;
    let rdata = read_sized(&mut reader)?;
    if !plain_rdata(SOA, rdata) {
        return Err(FrameFault::BadBody);
    }
    Ok(owner.len() + 2 + rdata.len())
}

/// The size of the body at the front, of an entry of this kind, name and type, in octets.
fn body_size(octets: &[u8], kind: Kind, name: &[u8], rtype: u16) -> Result<usize, FrameFault>
    requires { IsWire name.now }
    ensures { (n : Labels) → IsName n → name.now ≡ wire n
        → MatchResult result (λ size. IsSizeOf (AreBodyOctets kind n rtype) octets.now size)
        (BodyFails kind n rtype octets.now) }
{
    match kind {
        Kind::Positive => positive_size(octets, rtype),
        Kind::NoData => negative_size(octets, name),
        Kind::NameError => negative_size(octets, name),
        Kind::Flush => Ok(0),
    }
}

/// Reads the body of an entry of this kind, name and type.
pub(crate) fn read_body<'a>(
    reader: &mut Reader<'a>,
    kind: Kind,
    name: &[u8],
    rtype: u16,
) -> Result<&'a [u8], FrameFault>
    requires { IsWire name.now }
    ensures { (n : Labels) → IsName n → name.now ≡ wire n
        → MatchResult result (λ r. IsPart (AreBodyOctets kind n rtype) reader.old r.now reader.new)
        (BodyFails kind n rtype reader.old) }
{
    let size = body_size(reader.rest(), kind, name, rtype)?;
    reader.take(size)
}
