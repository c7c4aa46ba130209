//! Names whose octets a message has in one piece.

ghost use Rattle.std.specs.Prelude.{◌≡◌, length, IfOk, IfSome};
ghost use Rattle.fleet_name.specs.Types.{Labels};
ghost use Rattle.fleet_name.specs.Name.{labels_of, IsSpelling};
ghost use Rattle.fleet_wire.specs.Types.{Place};
ghost use Rattle.fleet_wire.specs.NameAt.{NameAt, ReadsName};

use crate::name_reader::{NamePart, name_of, name_part_at, spelling_at};
use fleet_name::Name;
use std::alloc::{AllocError, Allocator};

/// A name that a message has in one piece, lent.
#[derive(Drop)]
pub(crate) struct Piece<'a> {
    /// The name in full, in its own case.
    octets: &'a [u8],
    /// How many labels it has.
    labels: usize,
    /// Where it ends in the message: after the piece, or after a pointer to it.
    end: usize,
}

// Lets through: a body that returns `None` for any name. `name_at` then reads the name as one that
// lies in several pieces, which costs time alone. No test sees it.
/// The name at a place of a message where no pointer is on its way: labels in a row and a zero
/// octet. `None` where there is one, or no name.
fn run_at(message: &[u8], start: usize) -> Option<Piece<'_>>
    ensures found { IfSome result (λ r.
        NameAt message.now start start (labels_of r.octets.now) r.end) }
    ensures spelled { IfSome result (λ r. IsSpelling r.octets.now) }
    ensures counted { IfSome result (λ r. r.labels ≡ length (labels_of r.octets.now)) }
{
    let mut labels = 0;
    let mut at = start;
    loop {
        match name_part_at(message, at, start, at - start + 1) {
            Ok(NamePart::End) => {
                return Some(Piece {
                    octets: &message[start..at + 1],
                    labels,
                    end: at + 1,
                });
            }
            Ok(NamePart::Label(label)) => {
                labels += 1;
                at += 1 + label.len();
            }
            Ok(NamePart::Pointer(_)) => return None,
            Err(_) => return None,
        }
    }
}

// Lets through: a body that returns `None` for any name. `name_at` then reads the name as one that
// lies in several pieces, which costs time alone. No test sees it.
/// The name at a place of a message where its octets are in one piece, there or where a pointer
/// there leads (RFC 1035 4.1.4). `None` where they are in more, or there is no name.
fn piece_at(message: &[u8], offset: usize) -> Option<Piece<'_>>
    ensures found { IfSome result (λ r.
        NameAt message.now offset offset (labels_of r.octets.now) r.end) }
    ensures spelled { IfSome result (λ r. IsSpelling r.octets.now) }
    ensures counted { IfSome result (λ r. r.labels ≡ length (labels_of r.octets.now)) }
{
    match name_part_at(message, offset, offset, 1) {
        Ok(NamePart::Pointer(target)) => {
            let Piece { octets, labels, .. } = run_at(message, target)?;
            Some(Piece {
                octets,
                labels,
                end: offset + 2,
            })
        }
        Ok(NamePart::End) => run_at(message, offset),
        Ok(NamePart::Label(_)) => run_at(message, offset),
        Err(_) => None,
    }
}

/// The name at a place of a message, in lower case, and where it ends. The caller has read it once.
/// `Err` where its allocation fails.
pub(crate) fn name_at<A: Allocator>(
    alloc: A,
    message: &[u8],
    offset: usize,
) -> Result<(Name<A>, usize), AllocError>
    requires found { (n : Labels) × (e : Place) × ReadsName message.now offset n e }
    ensures { IfOk result (λ r. ReadsName message.now offset r.0 r.1) }
{
    if let Some(
        Piece {
            octets,
            labels,
            end,
        },
    ) = piece_at(message, offset)
    {
        let octets = Vec::from_slice(alloc, octets)?;
        return Ok((Name::from_spelled(octets, labels), end));
    }
    let Ok(spelled) = spelling_at(message, offset) else {
        unreachable!()
    };
    let name = name_of(alloc, &spelled)?;
    Ok((name, spelled.end))
}
