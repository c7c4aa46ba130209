//! What RDATA holds (RFC 1035 3.3, RFC 2782).

ghost use Rattle.std.specs.Prelude.{◌≡◌, ◌+◌, ◌<◌, ◌≤◌, ◌++◌, length, take, drop, Some, None, IfOk, IfErr, IfSome, MatchOption, MatchResult};
ghost use Rattle.fleet_name.specs.Types.{Labels, OctetList};
ghost use Rattle.fleet_name.specs.Name.{lower, wire};
ghost use Rattle.fleet_name.specs.declared.bounds.TheConstants.{LONGEST_NAME};
ghost use Rattle.fleet_wire.specs.NameAt.{ReadsName};
ghost use Rattle.fleet_wire.specs.Fault.{NameFails};
ghost use Rattle.fleet_wire.specs.Shape.{shape_of, room_of, PartsAt, PartsFail, ShapeAt, ShapeFails};
ghost use Rattle.fleet_wire.specs.declared.fault.ReadFault.TheVariants.{Truncated};
ghost use Rattle.fleet_wire.specs.declared.bounds.TheConstants.{LONGEST_MESSAGE};

use crate::fault::ReadFault;
use crate::name_reader::{name_end, spelling_at};
use crate::rtype::{CNAME, MB, MD, MF, MG, MINFO, MR, MX, NS, PTR, SOA, SRV};
use arrayvec::ArrayVec;
use fleet_name::Octets;
use fleet_name::bounds::LONGEST_NAME;
use std::alloc::{AllocError, Allocator};

/// A part of RDATA.
#[derive(Clone, Copy, Debug, PartialEq, Eq)]
pub(crate) enum Part {
    /// A number of octets that are no name.
    Plain(usize),
    /// A name, which may be compressed in a message.
    Name,
}

// Lets through: a greater number, which costs room on the stack alone. No test has the number. The
// clause `room` of `parts_of` asks for at least this one.
/// The most octets that RDATA with names has with each name in full: an SOA's, of two names and
/// five numbers (RFC 1035 3.3.13).
pub(crate) const LONGEST_RDATA: usize = 2 * LONGEST_NAME + 20;

/// RDATA as it was read, before it is allocated.
pub(crate) type Rdata = ArrayVec<u8, LONGEST_RDATA>;

/// The parts of a type's RDATA, if it has names.
pub(crate) fn parts_of(rtype: u16) -> Option<&'static [Part]>
    ensures parts { MatchOption result (shape_of rtype ≡ None) (λ s. shape_of rtype ≡ Some s.now) }
    ensures room { IfSome result (λ s. room_of s.now ≤ LONGEST_RDATA) }
{
    match rtype {
        NS | MD | MF | CNAME | MB | MG | MR | PTR => Some(&[Part::Name]),
        SOA => Some(&[Part::Name, Part::Name, Part::Plain(20)]),
        MINFO => Some(&[Part::Name, Part::Name]),
        MX => Some(&[Part::Plain(2), Part::Name]),
        SRV => Some(&[Part::Plain(6), Part::Name]),
        _ => None,
    }
}

/// The `count` octets at a place; `Truncated` where the message ends before.
fn octets_at(message: &[u8], at: usize, count: usize) -> Result<&[u8], ReadFault>
    requires { at ≤ length message.now }
    ensures { MatchResult result
        (λ s. (at + count ≤ length message.now) × (s.now ≡ take count (drop at message.now)))
        (λ f. (length message.now < at + count) × (f ≡ Truncated)) }
{
    let rest = &message[at..];
    if rest.len() < count {
        return Err(ReadFault::Truncated);
    }
    Ok(&rest[..count])
}

/// Adds octets as they are.
fn append_octets(out: &mut Rdata, octets: &[u8])
    requires room { length out.old.items + length octets.now ≤ LONGEST_RDATA }
    ensures { out.new.items ≡ out.old.items ++ octets.now }
{
    let _ = out.try_extend_from_slice(octets);
}

/// Adds octets in lower case.
fn append_lower(out: &mut Rdata, octets: &[u8])
    requires room { length out.old.items + length octets.now ≤ LONGEST_RDATA }
    ensures { out.new.items ≡ out.old.items ++ lower octets.now }
{
    for octet in octets {
        out.push(octet.to_ascii_lowercase());
    }
}

/// Adds the name at a place, in full and in lower case, and returns where it ends.
fn append_name(out: &mut Rdata, message: &[u8], at: usize) -> Result<usize, ReadFault>
    requires room { length out.old.items + LONGEST_NAME ≤ LONGEST_RDATA }
    ensures found { IfOk result (λ past. (n : Labels) × ReadsName message.now at n past
        × (out.new.items ≡ out.old.items ++ wire n)) }
    ensures room { length out.new.items ≤ length out.old.items + LONGEST_NAME }
    ensures fault { IfErr result (λ f. NameFails message.now at f) }
{
    let spelled = spelling_at(message, at)?;
    append_lower(out, spelled.octets.as_slice());
    Ok(spelled.end)
}

/// The parts at a place, with each name in full and in lower case, and where they end.
fn parts_at(message: &[u8], parts: &[Part], offset: usize) -> Result<(Rdata, usize), ReadFault>
    requires within { offset ≤ length message.now }
    requires room { room_of parts.now ≤ LONGEST_RDATA }
    ensures found { IfOk result (λ r. PartsAt message.now parts.now offset r.0.items r.1) }
    ensures fault { IfErr result (λ f. PartsFail message.now parts.now offset f) }
{
    let mut octets = ArrayVec::new();
    let mut at = offset;
    for part in parts {
        match part {
            Part::Plain(count) => {
                append_octets(&mut octets, octets_at(message, at, *count)?);
                at += *count;
            }
            Part::Name => at = append_name(&mut octets, message, at)?,
        }
    }
    Ok((octets, at))
}

/// RDATA of a type, `count` octets at a place, with each name in full and in lower case, in one
/// allocation. The caller has read it once. `Err` where its allocation fails.
pub(crate) fn rdata_of<A: Allocator>(
    alloc: A,
    message: &[u8],
    at: usize,
    count: usize,
    rtype: u16,
) -> Result<Octets<A>, AllocError>
    requires within { at + count ≤ length message.now }
    requires short { length message.now ≤ LONGEST_MESSAGE }
    requires found { (octets : OctetList) × ShapeAt message.now at count (shape_of rtype) octets }
    ensures { IfOk result (λ r. ShapeAt message.now at count (shape_of rtype) r) }
{
    let Some(parts) = parts_of(rtype) else {
        return Octets::copy_of(alloc, &message[at..at + count]);
    };
    let Ok((octets, _)) = parts_at(message, parts, at) else {
        unreachable!()
    };
    Octets::copy_of(alloc, octets.as_slice())
}

/// Where the parts at a place end. What they hold is read and not kept.
fn parts_end(message: &[u8], parts: &[Part], offset: usize) -> Result<usize, ReadFault>
    requires within { offset ≤ length message.now }
    ensures found { IfOk result (λ e.
        (octets : OctetList) × PartsAt message.now parts.now offset octets e) }
    ensures fault { IfErr result (λ f. PartsFail message.now parts.now offset f) }
{
    let mut at = offset;
    for part in parts {
        match part {
            Part::Plain(count) => {
                if message.len() - at < *count {
                    return Err(ReadFault::Truncated);
                }
                at += *count;
            }
            Part::Name => at = name_end(message, at)?,
        }
    }
    Ok(at)
}

/// That RDATA of a type, `count` octets at a place, has no fault: one of its parts, or `BadRdata`
/// where they end at another octet.
pub(crate) fn rdata_passes(
    message: &[u8],
    at: usize,
    count: usize,
    rtype: u16,
) -> Result<(), ReadFault>
    requires within { at + count ≤ length message.now }
    requires short { length message.now ≤ LONGEST_MESSAGE }
    ensures found { IfOk result (λ _.
        (octets : OctetList) × ShapeAt message.now at count (shape_of rtype) octets) }
    ensures fault { IfErr result (λ f. ShapeFails message.now at count (shape_of rtype) f) }
{
    let Some(parts) = parts_of(rtype) else {
        return Ok(());
    };
    if parts_end(message, parts, at)? != at + count {
        return Err(ReadFault::BadRdata);
    }
    Ok(())
}
