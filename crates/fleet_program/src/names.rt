//! Names and types as zones write them.

ghost use Rattle.std.specs.Prelude.{◌≡◌, ◌≢◌, ◌≤◌, ◌-◌, ◌++◌, ◌∷◌, [], true, IfOk, IfSome};
ghost use Rattle.fleet_name.specs.Name.{lower};
ghost use Rattle.fleet_program.specs.NameText.{SpellsOctet, SpellsName, Begins};

use arrayvec::ArrayVec;
use fleet_name::bounds::LONGEST_LABEL;
use fleet_name::{Name, NameFault};
use fleet_wire::rtype::{CNAME, MX, NS, PTR, SOA, SRV};
use std::alloc::{AllocError, Allocator};

/// The type of an address (RFC 1035 3.4.1).
pub const A: u16 = 1;

/// The types that have a word of their own here, besides `TYPE` and a number (RFC 3597 5).
const TYPES: [(&str, u16); 10] = [
    ("A", A),
    ("AAAA", 28),
    ("CNAME", CNAME),
    ("MX", MX),
    ("NS", NS),
    ("PTR", PTR),
    ("SOA", SOA),
    ("SRV", SRV),
    ("TXT", 16),
    ("CAA", 257),
];

/// The octet that a text begins with after a backslash, and the text after it: one that is no digit, or
/// the one whose number three decimal digits are.
fn escaped(text: &[u8]) -> Option<(u8, &[u8])>
    ensures { IfSome result (λ it. Begins (92 ∷ text.now) it.0 it.1.now) }
{
    match text {
        [a @ b'0'..=b'9', b @ b'0'..=b'9', c @ b'0'..=b'9', rest @ ..] => {
            let number = digit(*a) * 100 + digit(*b) * 10 + digit(*c);
            Some((u8::try_from(number).ok()?, rest))
        }
        [b'0'..=b'9', ..] => None,
        [octet, rest @ ..] => Some((*octet, rest)),
        [] => None,
    }
}

/// What a decimal digit counts.
fn digit(octet: u8) -> u16
    requires from { 48 ≤ octet }
    requires to { octet ≤ 57 }
    ensures { result ≡ octet - 48 }
{
    u16::from(octet - b'0')
}

/// The octet that a text begins with, and the text after it. `None` where it is no visible one of ASCII,
/// nor spelled by a backslash.
fn next_octet(text: &[u8]) -> Option<(u8, &[u8])>
    ensures { IfSome result (λ it. Begins text.now it.0 it.1.now) }
{
    match text {
        [b'\\', rest @ ..] => escaped(rest),
        [b'.', ..] => None,
        [octet @ 33..=126, rest @ ..] => Some((*octet, rest)),
        _ => None,
    }
}

/// Adds a label to a name; whether it is one, and the result a name. `Err` where an allocation fails.
fn push<B: Allocator>(name: &mut Name<B>, label: &[u8]) -> Result<bool, AllocError>
    ensures { IfOk result (λ is_name. is_name ≡ true → (label.now ≢ [])
        × (name.new ≡ name.old ++ lower label.now ∷ [])) }
{
    match name.push(label) {
        Ok(()) => Ok(true),
        Err(NameFault::OutOfMemory) => Err(AllocError),
        Err(_) => Ok(false),
    }
}

// Lets through: none where a text spells a name, as do `escaped`, `next_octet` and `push`. Cases of
// `tests/run` (`test_withdrawals`) see it.
/// The name that a text spells (RFC 1035 5.1): labels with dots between them, and with a dot at the end
/// or without; the root is a dot alone. `None` where it spells none.
pub fn name_in<B: Allocator + Copy>(alloc: B, text: &str) -> Result<Option<Name<B>>, AllocError>
    ensures { IfOk result (λ found. IfSome found (λ name. SpellsName text.now name)) }
{
    let mut name = Name::root(alloc)?;
    if text == "." {
        return Ok(Some(name));
    }
    let mut label: ArrayVec<u8, LONGEST_LABEL> = ArrayVec::new();
    let mut rest = text.as_bytes();
    while !rest.is_empty() {
        if rest[0] == b'.' {
            if !push(&mut name, label.as_slice())? {
                return Ok(None);
            }
            label.clear();
            rest = &rest[1..];
        } else {
            match next_octet(rest) {
                Some((octet, others)) if label.try_push(octet).is_ok() => rest = others,
                _ => return Ok(None),
            }
        }
    }
    let is_name = if label.is_empty() {
        name.labels() > 0
    } else {
        push(&mut name, label.as_slice())?
    };
    Ok(if is_name { Some(name) } else { None })
}

// Lets through: any type, and none, since neither it nor `is_of_records` has a clause. Cases of
// `tests/run` (`test_withdrawals`) see it.
/// The type that a word spells, in letters of either case, if records have it.
pub fn type_in(word: &str) -> Option<u16> {
    for (text, rtype) in &TYPES {
        if text.eq_ignore_ascii_case(word) {
            return Some(*rtype);
        }
    }
    let (head, number) = word.split_at_checked(4)?;
    if !head.eq_ignore_ascii_case("TYPE") {
        return None;
    }
    if !number.bytes().all(|octet| octet.is_ascii_digit()) {
        return None;
    }
    number.parse().ok().filter(|rtype| is_of_records(*rtype))
}

/// Whether records have a type: not 0, OPT, nor one of a question alone (RFC 6895 3.1).
fn is_of_records(rtype: u16) -> bool {
    !matches!(rtype, 0 | 41 | 128..=255)
}
