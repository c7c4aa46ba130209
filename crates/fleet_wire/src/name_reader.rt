//! Reading a name (RFC 1035 3.1, 4.1.4).

ghost use Rattle.std.specs.Prelude.{◌≡◌, ℕ, ◌+◌, ◌-◌, ◌<◌, ◌≤◌, ◌++◌, length, slice_index, IfOk, IfErr, MatchResult};
ghost use Rattle.fleet_name.specs.Types.{Labels};
ghost use Rattle.fleet_name.specs.Name.{label_octets, lower_all, labels_of, IsSpelling};
ghost use Rattle.fleet_name.specs.declared.bounds.TheConstants.{LONGEST_LABEL, LONGEST_NAME};
ghost use Rattle.fleet_wire.specs.NameAt.{NameAt, ReadsName};
ghost use Rattle.fleet_wire.specs.Fault.{FaultAt, NameFails};
ghost use Rattle.fleet_wire.specs.steps.NamePart.{IsNamePart};

use crate::fault::ReadFault;
use arrayvec::ArrayVec;
use fleet_name::Name;
use fleet_name::bounds::LONGEST_NAME;
use std::alloc::{AllocError, Allocator};

/// What is at a place of a message where a label may begin.
pub(crate) enum NamePart<'a> {
    /// The zero octet that ends a name.
    End,
    /// A label, its length octet left out.
    Label(&'a [u8]),
    /// A pointer to this place (RFC 1035 4.1.4).
    Pointer(usize),
}

/// A name as it was read.
#[derive(Drop)]
pub(crate) struct Spelled {
    /// The name in full, without pointers, in its own case.
    pub(crate) octets: ArrayVec<u8, LONGEST_NAME>,
    /// How many labels it has.
    pub(crate) labels: usize,
    /// Where it ends in the message.
    pub(crate) end: usize,
}

/// The part of a name at `at`, in a run of labels begun at `start`, where the name so far has `used`
/// octets in full.
pub(crate) fn name_part_at(
    message: &[u8],
    at: usize,
    start: usize,
    used: usize,
) -> Result<NamePart<'_>, ReadFault>
    requires { used ≤ LONGEST_NAME }
    ensures { MatchResult result (IsNamePart message.now at start used)
        (FaultAt message.now at start used) }
{
    if at >= message.len() {
        return Err(ReadFault::Truncated);
    }
    let first = message[at];
    if first == 0 {
        return Ok(NamePart::End);
    }
    if first < 64 {
        return label_at(message, at, first as usize, used);
    }
    if first < 192 {
        return Err(ReadFault::BadLabel);
    }
    if at + 1 >= message.len() {
        return Err(ReadFault::Truncated);
    }
    let target = (first as usize - 192) * 256 + message[at + 1] as usize;
    if target >= start {
        return Err(ReadFault::BadPointer);
    }
    Ok(NamePart::Pointer(target))
}

/// The label whose length octet, `count`, is at `at`. The name has `used` octets in full before it.
fn label_at(message: &[u8], at: usize, count: usize, used: usize) -> Result<NamePart<'_>, ReadFault>
    requires begins { at < length message.now }
    requires counted { slice_index message.now at ≡ count }
    requires some { 0 < count }
    requires short { count ≤ LONGEST_LABEL }
    requires used { used ≤ LONGEST_NAME }
    ensures { (s : ℕ)
        → MatchResult result (IsNamePart message.now at s used) (FaultAt message.now at s used) }
{
    if used + count + 1 > LONGEST_NAME {
        return Err(ReadFault::LongName);
    }
    let (_, rest) = message.split_at(at + 1);
    if rest.len() < count {
        return Err(ReadFault::Truncated);
    }
    let (octets, _) = rest.split_at(count);
    Ok(NamePart::Label(octets))
}

/// Adds a label with its length octet, in its own case.
fn append_label(octets: &mut ArrayVec<u8, LONGEST_NAME>, label: &[u8])
    requires short { length label.now ≤ LONGEST_LABEL }
    requires room { length octets.old.items + length label.now < LONGEST_NAME }
    ensures { octets.new.items ≡ octets.old.items ++ label_octets label.now }
{
    octets.push(label.len() as u8);
    let _ = octets.try_extend_from_slice(label);
}

/// The name at a place of a message, its pointers followed.
pub(crate) fn spelling_at(message: &[u8], offset: usize) -> Result<Spelled, ReadFault>
    ensures found { IfOk result (λ r.
        NameAt message.now offset offset (labels_of r.octets.items) r.end) }
    ensures spelled { IfOk result (λ r. IsSpelling r.octets.items) }
    ensures counted { IfOk result (λ r. r.labels ≡ length (labels_of r.octets.items)) }
    ensures fault { IfErr result (λ f. NameFails message.now offset f) }
{
    let mut octets = ArrayVec::new();
    let mut labels = 0;
    let mut at = offset;
    let mut start = offset;
    let mut end = None;
    loop {
        match name_part_at(message, at, start, octets.len() + 1)? {
            NamePart::End => {
                octets.push(0);
                return Ok(Spelled {
                    octets,
                    labels,
                    end: end.unwrap_or(at + 1),
                });
            }
            NamePart::Label(label) => {
                append_label(&mut octets, label);
                labels += 1;
                at += 1 + label.len();
            }
            NamePart::Pointer(target) => {
                end = Some(end.unwrap_or(at + 2));
                at = target;
                start = target;
            }
        }
    }
}

/// Where the name at a place of a message ends, its pointers followed. What it spells is read and not
/// kept.
pub(crate) fn name_end(message: &[u8], offset: usize) -> Result<usize, ReadFault>
    ensures found { IfOk result (λ e. (n : Labels) × ReadsName message.now offset n e) }
    ensures fault { IfErr result (λ f. NameFails message.now offset f) }
{
    let mut used = 1;
    let mut at = offset;
    let mut start = offset;
    let mut past = None;
    loop {
        match name_part_at(message, at, start, used)? {
            NamePart::End => return Ok(past.unwrap_or(at + 1)),
            NamePart::Label(label) => {
                used += 1 + label.len();
                at += 1 + label.len();
            }
            NamePart::Pointer(target) => {
                past = Some(past.unwrap_or(at + 2));
                at = target;
                start = target;
            }
        }
    }
}

/// The name in lower case, in one allocation. `Err` where it fails.
pub(crate) fn name_of<A: Allocator>(alloc: A, spelled: &Spelled) -> Result<Name<A>, AllocError>
    requires spelled { IsSpelling spelled.now.octets.items }
    requires counted { spelled.now.labels ≡ length (labels_of spelled.now.octets.items) }
    ensures { IfOk result (λ n. n ≡ lower_all (labels_of spelled.now.octets.items)) }
{
    let octets = Vec::from_slice(alloc, spelled.octets.as_slice())?;
    Ok(Name::from_spelled(octets, spelled.labels))
}
