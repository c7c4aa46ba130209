//! Names in an entry.

ghost use Rattle.std.specs.Prelude.{◌≡◌, ◌≤◌, ◌↔◌, length, IsTrue, MatchResult};
ghost use Rattle.fleet_name.specs.Types.{Labels};
ghost use Rattle.fleet_name.specs.Name.{wire, IsName, IsUnder, IsWire};
ghost use Rattle.fleet_name.specs.declared.bounds.TheConstants.{LONGEST_NAME};
ghost use Rattle.fleet_gossip.specs.Faults.{LabelFails, FrameNameFails};
ghost use Rattle.fleet_gossip.specs.steps.Reading.{IsLabelAt, IsPart, IsSizeOf};

use crate::fault::FrameFault;
use crate::reader::Reader;
use fleet_name::bounds::{LONGEST_LABEL, LONGEST_NAME};
use fleet_name::is_lower;

/// Reads the next label of a name whose labels so far have `used` octets, a final zero included.
/// The empty label is the end of the name.
fn read_label<'a>(
    reader: &mut Reader<'a>,
    used: usize,
    refusal: FrameFault,
) -> Result<&'a [u8], FrameFault>
    requires { used ≤ LONGEST_NAME }
    ensures { (before : Labels) → length (wire before) ≡ used
        → MatchResult result (λ r. IsLabelAt before reader.old r.now reader.new)
        (LabelFails refusal before reader.old) }
{
    let size = usize::from(reader.read_u8()?);
    if size == 0 {
        return Ok(&[]);
    }
    if size > LONGEST_LABEL || used + size + 1 > LONGEST_NAME {
        return Err(refusal);
    }
    let label = reader.take(size)?;
    if !is_lower(label) {
        return Err(refusal);
    }
    Ok(label)
}

/// The size of the name at the front, in octets.
fn name_size(octets: &[u8], refusal: FrameFault) -> Result<usize, FrameFault>
    ensures { MatchResult result (λ size. IsSizeOf IsWire octets.now size)
        (FrameNameFails refusal octets.now) }
{
    let mut reader = Reader::new(octets);
    let mut size = 1;
    loop {
        let label = read_label(&mut reader, size, refusal)?;
        if label.is_empty() {
            return Ok(size);
        }
        size += 1 + label.len();
    }
}

/// Reads a name, and returns its octets. Where a label or the name is too long, or has a capital
/// letter, the fault is `refusal`.
pub(crate) fn read_name<'a>(
    reader: &mut Reader<'a>,
    refusal: FrameFault,
) -> Result<&'a [u8], FrameFault>
    ensures { MatchResult result (λ r. IsPart IsWire reader.old r.now reader.new)
        (FrameNameFails refusal reader.old) }
{
    let size = name_size(reader.rest(), refusal)?;
    reader.take(size)
}

/// Whether the first name in full is the second one or below it.
pub(crate) fn is_under(name: &[u8], ancestor: &[u8]) -> bool
    requires name { IsWire name.now }
    requires ancestor { IsWire ancestor.now }
    ensures { (n a : Labels) → IsName n → IsName a → name.now ≡ wire n
        → ancestor.now ≡ wire a → (IsTrue result ↔ IsUnder n a) }
{
    let mut rest = name;
    while rest.len() > ancestor.len() {
        let (_, behind) = rest.split_at(usize::from(rest[0]) + 1);
        rest = behind;
    }
    rest == ancestor
}
