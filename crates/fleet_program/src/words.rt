//! The words of a line.

ghost use Rattle.std.specs.Prelude.{◌≡◌, ◌↔◌, ℕ, ◌≤◌, List, IsTrue, IsSome, IfSome, IfOk, MatchOption};
ghost use Rattle.std.specs.Char.{is_ascii_digit};
ghost use Rattle.std.specs.List.{AllPass};
ghost use Rattle.std.specs.Option.{SomeIff};
ghost use Rattle.fleet_name.specs.Types.{Labels, OctetList};
ghost use Rattle.hex.specs.Hex.{is_hex_digit};
ghost use Rattle.fleet_program.specs.Words.{IsNumber, number_of, IsPort, SpellsAddress, SpellsOctets, IsNameWord};
ghost use Rattle.fleet_program.specs.declared.words.TheConstants.{MOST_SITES, LARGEST_16_BITS};
ghost use Rattle.fleet_name.specs.Name.{lower, IsWire};
ghost use Rattle.fleet_observe.specs.declared.bounds.TheConstants.{LATEST};
ghost use Rattle.fleet_pending.specs.declared.addr.Addr.{Addr};

use fleet_name::bounds::LONGEST_NAME;
use fleet_name::{Name, Octets, suffix_in};
use fleet_observe::Moment;
use fleet_pending::Addr;
use std::alloc::{AllocError, Allocator};
use std::marker::Model;
use std::net::Ipv4Addr;

/// How many digits a number has at most: with 13 each moment can be spelled.
const MOST_DIGITS: usize = 13;

/// The largest number of 16 bits, as a port is one; contracts alone cite it.
const LARGEST_16_BITS: u16 = u16::MAX;

/// How many sites a script may have.
pub const MOST_SITES: usize = 9;

/// Whether each octet is a decimal digit.
fn are_digits(word: &[u8]) -> bool
    ensures { IsTrue result ↔ AllPass is_ascii_digit word.now }
{
    word.iter().all(u8::is_ascii_digit)
}

/// Whether each octet is a hexadecimal digit, of either case.
fn are_hex_digits(word: &[u8]) -> bool
    ensures { IsTrue result ↔ AllPass is_hex_digit word.now }
{
    word.iter().all(u8::is_ascii_hexdigit)
}

/// Reads a word as a whole number of 1 to 13 decimal digits.
pub fn number(word: &str) -> Option<usize>
    ensures { SomeIff result (IsNumber word.now) (number_of word.now) }
{
    if word.len() > MOST_DIGITS || !are_digits(word.as_bytes()) {
        return None;
    }
    word.parse().ok()
}

/// Reads a word as a moment: a number of seconds, at most 2^40.
pub fn moment(word: &str) -> Option<Moment>
    ensures { SomeIff result (IsNumber word.now × (number_of word.now ≤ LATEST))
        (number_of word.now) }
{
    Moment::new(number(word)? as u64)
}

/// How many sites there are: 1 to 9.
#[derive(Clone, Copy)]
pub struct SiteCount {
    /// The number.
    pub value: usize,
    ghost some: { 1 ≤ value },
    ghost few: { value ≤ MOST_SITES },
}

/// Reads a word as a number of sites: 1 to 9.
pub fn site_count(word: &str) -> Option<SiteCount>
    ensures valid { IsSome result
        ↔ (IsNumber word.now × (1 ≤ number_of word.now) × (number_of word.now ≤ MOST_SITES)) }
    ensures value { IfSome result (λ count. count.value ≡ number_of word.now) }
{
    match number(word)? {
        value @ 1..=MOST_SITES => Some(SiteCount { value }),
        _ => None,
    }
}

/// Reads a word as a number of 16 bits: 0 to 65535.
pub fn word_of_16_bits(word: &str) -> Option<u16>
    ensures { SomeIff result (IsNumber word.now × (number_of word.now ≤ LARGEST_16_BITS))
        (number_of word.now) }
{
    u16::try_from(number(word)?).ok()
}

/// Reads a word as a port: 1 to 65535, without leading zeros.
fn port_number(word: &str) -> Option<u16>
    ensures { SomeIff result (IsPort word.now) (number_of word.now) }
{
    if word.starts_with('0') {
        return None;
    }
    word_of_16_bits(word)
}

/// Reads a word as an address, as `127.0.0.1:5301`: four numbers of 0 to 255 and a port of 1 to 65535,
/// without leading zeros.
pub fn address(word: &str) -> Option<Addr>
    ensures { MatchOption result ((addr : Addr) → SpellsAddress word.now addr → ⊥)
        (λ addr. SpellsAddress word.now addr) }
{
    let (host, port) = word.split_once(':')?;
    let host: Ipv4Addr = host.parse().ok()?;
    let port = port_number(port)?;
    Some(Addr {
        host: host.to_bits(),
        port,
    })
}

/// Octets as a word spells them. Contracts see the octets.
#[derive(Drop)]
pub struct Hex<'a> {
    digits: &'a str,
}

impl<'a> Model for Hex<'a> {
    ghost use Rattle.std.specs.Prelude.{◌≡◌, ℕ, List, [], true, is_ok};
    ghost use Rattle.std.specs.Result.{result_unwrap_or};
    ghost use Rattle.hex.specs.Hex.{decode_of};

    ghost Value = { List ℕ };

    ghost view = { λ h. result_unwrap_or (decode_of h.digits.now) [] };

    ghost invariant = { λ h. is_ok (decode_of h.digits.now) ≡ true };
}

impl<'a> Hex<'a> {
    /// Reads a word as octets: an even number of hexadecimal digits of either case, or `-` for no
    /// octets.
    pub fn new(word: &'a str) -> Option<Hex<'a>>
        ensures { MatchOption result ((octets : OctetList) → SpellsOctets word.entry.now octets → ⊥)
            (λ octets. SpellsOctets word.entry.now octets) }
    {
        if word == "-" {
            return Some(Hex { digits: "" });
        }
        if word.is_empty() || word.len() % 2 != 0 {
            return None;
        }
        if !are_hex_digits(word.as_bytes()) {
            return None;
        }
        Some(Hex { digits: word })
    }

    /// Whether the octets are one name in full, its letters in either case, and nothing after it. It
    /// allocates nothing.
    fn spells_name(&self) -> bool
        ensures { IsTrue result ↔ IsWire (lower self.now) }
    {
        let size = self.digits.len() / 2;
        if size > LONGEST_NAME {
            return false;
        }
        let mut room = [0u8; LONGEST_NAME];
        let octets = &mut room[..size];
        if hex::decode_to_slice(self.digits, octets).is_err() {
            return false;
        }
        octets.make_ascii_lowercase();
        suffix_in(octets, 0).is_some()
    }

    /// The octets that a word spells.
    pub fn octets<A: Allocator>(&self, alloc: A) -> Result<Octets<A>, AllocError>
        ensures { IfOk result (λ octets. octets ≡ self.now) }
    {
        match hex::decode(alloc, self.digits) {
            Ok(octets) => Ok(Octets::new(octets)),
            Err(_) => Err(AllocError),
        }
    }
}

/// A name, as a word spells its octets in full, with letters of either case. Contracts see the name,
/// in lower case.
#[derive(Drop)]
pub struct NameWord<'a> {
    octets: Hex<'a>,
}

impl<'a> Model for NameWord<'a> {
    ghost use Rattle.std.specs.Prelude.{ℕ, List};
    ghost use Rattle.fleet_name.specs.Name.{lower, labels_of, IsWire};

    ghost Value = { List (List ℕ) };

    ghost view = { λ w. labels_of (lower w.octets) };

    ghost invariant = { λ w. IsWire (lower w.octets) };
}

impl<'a> NameWord<'a> {
    /// Reads octets as a name in full, with nothing after it.
    pub fn new(octets: Hex<'a>) -> Option<NameWord<'a>>
        ensures { MatchOption result ((name : Labels) → IsNameWord octets.entry name → ⊥)
            (λ name. IsNameWord octets.entry name) }
    {
        if !octets.spells_name() {
            return None;
        }
        Some(NameWord { octets })
    }

    /// The name that a word spells, in lower case.
    pub fn name<A: Allocator + Copy>(&self, alloc: A) -> Result<Name<A>, AllocError>
        ensures { IfOk result (λ name. name ≡ self.now) }
    {
        let mut octets = self.octets.octets(alloc)?.into_vec();
        octets.make_ascii_lowercase();
        Name::copy_of(alloc, &octets)
    }
}
