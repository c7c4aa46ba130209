//! Reading entries that were checked before: where a field ends is looked for, and what it holds is not
//! checked again. Nothing here allocates.

ghost use Rattle.std.specs.Prelude.{◌≡◌, ◌++◌, ℕ};
ghost use Rattle.fleet_name.specs.Types.{Labels, OctetList};
ghost use Rattle.fleet_wire.specs.Types.{RType};
ghost use Rattle.fleet_observe.specs.Body.{IsPositiveBody, IsNegativeBody};
ghost use Rattle.fleet_observe.specs.Observation.{ObservationData};
ghost use Rattle.fleet_gossip.specs.Entry.{entry_octets, AreBodyOctets, IsIn, IsKindIn};
ghost use Rattle.fleet_gossip.specs.steps.Reading.{IsPart, IsSizeOf};
ghost use Rattle.fleet_gossip.specs.steps.EntryOf.{IsEntryOf};

use crate::body::read_sized;
use crate::entry::FrameEntry;
use crate::fault::FrameFault;
use crate::head::{read_head, read_type};
use crate::name::read_name;
use crate::reader::Reader;
use fleet_observe::Kind;

/// The size of the positive body at the front, in octets.
fn known_positive_size(octets: &[u8]) -> usize
    requires { (rtype : RType) × (size : ℕ) × IsSizeOf (IsPositiveBody rtype) octets.now size }
    ensures { (rtype : RType) (size : ℕ) → IsSizeOf (IsPositiveBody rtype) octets.now size
        → IsSizeOf (IsPositiveBody rtype) octets.now result }
{
    let mut reader = Reader::new(octets);
    let Ok(count) = reader.read_u16() else {
        unreachable!()
    };
    for _ in 0..count {
        let Ok(_) = read_sized(&mut reader) else {
            unreachable!()
        };
    }
    octets.len() - reader.rest().len()
}

/// The size of the body at the front, of a denial, in octets.
fn known_negative_size(octets: &[u8]) -> usize
    requires { (n : Labels) × (size : ℕ) × IsSizeOf (IsNegativeBody n) octets.now size }
    ensures { (n : Labels) (size : ℕ) → IsSizeOf (IsNegativeBody n) octets.now size
        → IsSizeOf (IsNegativeBody n) octets.now result }
{
    let mut reader = Reader::new(octets);
    let Ok(_) = read_name(&mut reader, FrameFault::BadBody) else {
        unreachable!()
    };
    let Ok(_) = read_sized(&mut reader) else {
        unreachable!()
    };
    octets.len() - reader.rest().len()
}

/// The size of the body at the front, of an entry of this kind, in octets.
fn known_body_size(octets: &[u8], kind: Kind) -> usize
    requires { (n : Labels) × (rtype : RType) × (size : ℕ)
        × IsSizeOf (AreBodyOctets kind n rtype) octets.now size }
    ensures { (n : Labels) (rtype : RType) (size : ℕ)
        → IsSizeOf (AreBodyOctets kind n rtype) octets.now size
        → IsSizeOf (AreBodyOctets kind n rtype) octets.now result }
{
    match kind {
        Kind::Positive => known_positive_size(octets),
        Kind::NoData => known_negative_size(octets),
        Kind::NameError => known_negative_size(octets),
        Kind::Flush => 0,
    }
}

/// Reads the body of an entry of this kind.
fn read_known_body<'a>(reader: &mut Reader<'a>, kind: Kind) -> &'a [u8]
    requires { (n : Labels) × (rtype : RType) × (size : ℕ)
        × IsSizeOf (AreBodyOctets kind n rtype) reader.old size }
    ensures { (n : Labels) (rtype : RType) (size : ℕ)
        → IsSizeOf (AreBodyOctets kind n rtype) reader.old size
        → IsPart (AreBodyOctets kind n rtype) reader.old result.now reader.new }
{
    let size = known_body_size(reader.rest(), kind);
    let Ok(body) = reader.take(size) else {
        unreachable!()
    };
    body
}

/// Reads an entry of the version where there is one: it is what `read_entry` reads. RDATAs are passed
/// over.
pub(crate) fn read_known_entry<'a>(reader: &mut Reader<'a>, version: u8) -> FrameEntry<'a>
    requires { (o : ObservationData) × (rest : OctetList) × IsIn version o
        × (reader.old ≡ entry_octets o ++ rest) }
    ensures { (o : ObservationData) × IsEntryOf result o × IsKindIn version o.kind
        × (reader.old ≡ entry_octets o ++ reader.new) }
{
    let Ok(head) = read_head(reader, version) else {
        unreachable!()
    };
    let Ok(name) = read_name(reader, FrameFault::BadName) else {
        unreachable!()
    };
    let Ok(rtype) = read_type(reader, head.kind) else {
        unreachable!()
    };
    let body = read_known_body(reader, head.kind);
    FrameEntry {
        head,
        name,
        rtype,
        body,
    }
}
