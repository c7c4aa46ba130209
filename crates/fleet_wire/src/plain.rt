//! Whether RDATA is plain: each name in full and in lower case.

ghost use Rattle.std.specs.Prelude.{◌≡◌, ◌++◌, ◌↔◌, IsTrue, MatchOption};
ghost use Rattle.fleet_name.specs.Types.{Label, Labels, OctetList};
ghost use Rattle.fleet_name.specs.Name.{wire, IsName};
ghost use Rattle.fleet_wire.specs.Shape.{ArePlain, IsPlain};

use crate::name_reader::{NamePart, name_part_at};
use crate::shape::{Part, parts_of};
use fleet_name::is_lower;

/// The octets after the name in full and in lower case that comes first. `None` where none does.
pub(crate) fn after_name(octets: &[u8]) -> Option<&[u8]>
    ensures { MatchOption result
        ((n : Labels) (others : OctetList) → IsName n → octets.now ≡ wire n ++ others → ⊥)
        (λ s. (n : Labels) × IsName n × (octets.now ≡ wire n ++ s.now)) }
{
    let mut at = 0;
    loop {
        match name_part_at(octets, at, 0, at + 1) {
            Ok(NamePart::End) => {
                let (_, rest) = octets.split_at(at + 1);
                return Some(rest);
            }
            Ok(NamePart::Label(label)) => {
                if !is_lower(label) {
                    return None;
                }
                at += 1 + label.len();
            }
            Ok(NamePart::Pointer(_)) => return None,
            Err(_) => return None,
        }
    }
}

/// Whether the octets are those of the parts, and no more.
fn are_plain(parts: &[Part], octets: &[u8]) -> bool
    ensures { IsTrue result ↔ ArePlain parts.now octets.now }
{
    let mut rest = octets;
    for part in parts {
        match part {
            Part::Plain(count) => {
                if rest.len() < *count {
                    return false;
                }
                let (_, others) = rest.split_at(*count);
                rest = others;
            }
            Part::Name => match after_name(rest) {
                None => return false,
                Some(others) => rest = others,
            },
        }
    }
    rest.is_empty()
}

/// Whether RDATA has the shape of its type, with each name in full and in lower case: it is plain
/// then. RDATA of a type without a shape is plain, whatever it holds.
pub fn plain_rdata(rtype: u16, rdata: &[u8]) -> bool
    ensures { IsTrue result ↔ IsPlain rtype rdata.now }
{
    match parts_of(rtype) {
        None => true,
        Some(parts) => are_plain(parts, rdata),
    }
}
