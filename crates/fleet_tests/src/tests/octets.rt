//! Octets by names or in digits.

use crate::tests::messages::MESSAGES;
use fleet_name::Octets;
use std::alloc::Allocator;
use std::process::Abort;

/// Adds the digits of a part of octets.
fn add_part<A: Allocator>(rt: &impl Abort, text: &mut String<A>, part: &str) {
    let part = match part {
        "example.com" => "076578616d706c6503636f6d00",
        "example.org" => "076578616d706c65036f726700",
        part => part,
    };
    let (digits, count) = part.split_once('*').unwrap_or((part, "1"));
    for _ in 0..count.parse::<u16>().expect(rt, "a number") {
        text.push_str(digits).expect(rt, "memory");
    }
}

/// The parts of the octets that have this name.
pub fn parts_of(name: &str) -> Option<&'static str> {
    for line in MESSAGES.lines() {
        if let Some(rest) = line.strip_prefix(name) {
            if let Some(parts) = rest.strip_prefix(":") {
                return Some(parts);
            }
        }
    }
    None
}

/// The octets of words, each of which is a name or a part.
pub fn octets<A: Allocator + Copy>(rt: &impl Abort, alloc: A, words: &str) -> Octets<A> {
    let mut digits = String::new(alloc);
    for word in words.split_whitespace() {
        for part in parts_of(word).unwrap_or(word).split_whitespace() {
            add_part(rt, &mut digits, part);
        }
    }
    Octets::new(hex::decode(alloc, digits.as_str()).expect(rt, "digits"))
}
