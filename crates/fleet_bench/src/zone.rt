//! The names of a made-up network, and the replies that their servers give.

use crate::message::{begin, pointer, push_record};
use crate::noise::mixed;
use std::alloc::AllocError;

/// A pointer to the question's name.
const QUESTION: u16 = 0xc00c;

const A: u16 = 1;

const CNAME: u16 = 5;

const SOA: u16 = 6;

const MX: u16 = 15;

const AAAA: u16 = 28;

const CONSONANTS: [u8; 20] = *b"bcdfghjklmnpqrstvwxz";

const VOWELS: [u8; 5] = *b"aeiou";

/// The labels of hosts.
const HOSTS: [&[u8]; 6] = [
    b"\x04mail",
    b"\x03api",
    b"\x03cdn",
    b"\x03img",
    b"\x06static",
    b"\x05login",
];

/// The last labels of names, with the root.
const ENDS: [&[u8]; 8] = [
    b"\x03net\x00",
    b"\x03org\x00",
    b"\x02de\x00",
    b"\x02co\x02uk\x00",
    b"\x02io\x00",
    b"\x03com\x00",
    b"\x03com\x00",
    b"\x03com\x00",
];

/// How long records may be kept, in seconds.
const TTLS: [u32; 5] = [60, 3_600, 86_400, 300, 300];

/// What the servers know of a name.
#[derive(Clone, Copy)]
enum Shape {
    /// So many addresses of four octets.
    Addresses(u8),
    /// So many addresses of sixteen octets.
    LongAddresses(u8),
    /// So many aliases, one after the other, and an address.
    Aliases(u8),
    /// Two mail servers.
    Mail,
    /// Nothing of the type that is asked for.
    NoData,
    /// That it does not exist.
    NoName,
}

/// Names by their numbers.
#[derive(Clone, Copy)]
pub struct Zone {
    /// What sets it apart from other networks.
    pub seed: u32,
    /// The most labels that a name has above the usual ones.
    pub depth: u32,
    /// The most aliases of a name, at most 8.
    pub chain: u32,
    /// How many domains of a hundred have names of more than 32 octets, and so have the servers of
    /// their aliases.
    pub long: u32,
}

/// The lower half of a word.
fn low_half(word: u64) -> u32 {
    (word % 4_294_967_296) as u32
}

/// Adds `count` syllables, which spell the number by its digits to the base 100.
fn push_syllables(message: &mut Vec<u8>, number: u64, count: u8) -> Result<(), AllocError> {
    let mut rest = number;
    for _ in 0..count {
        let consonant = CONSONANTS[(rest % 20) as usize];
        let vowel = VOWELS[(rest / 20 % 5) as usize];
        message.extend_from_slice(&[consonant, vowel])?;
        rest /= 100;
    }
    Ok(())
}

/// Adds the label of a domain: no two have the same.
fn push_domain_label(message: &mut Vec<u8>, domain: u32, word: u64) -> Result<(), AllocError> {
    let more = (word % 3) as u8;
    message.extend_from_slice(&[10 + 2 * more])?;
    push_syllables(message, u64::from(domain.wrapping_mul(0x9e37_79b1)), 5)?;
    push_syllables(message, word >> 8, more)
}

/// Adds labels of 19 octets or more in all: a domain has 15 at the least, so with them it has more
/// than 32.
fn push_long_labels(message: &mut Vec<u8>, word: u64) -> Result<(), AllocError> {
    for place in 0..((word >> 60) % 3) as u32 {
        let next = mixed(low_half(word), place);
        let count = 2 + (next % 5) as u8;
        message.extend_from_slice(&[2 * count])?;
        push_syllables(message, next >> 8, count)?;
    }
    message.extend_from_slice(&[18])?;
    push_syllables(message, word, 9)
}

/// Adds the name of a server of aliases, in 15 octets and two for each syllable.
fn push_edge(message: &mut Vec<u8>, word: u64, syllables: u8) -> Result<(), AllocError> {
    message.extend_from_slice(b"\x04edge")?;
    message.extend_from_slice(&[syllables.saturating_mul(2)])?;
    push_syllables(message, word, syllables)?;
    message.extend_from_slice(b"\x03cdn\x03net\x00")
}

impl Zone {
    fn shape(self, number: u32) -> Shape {
        let word = mixed(number, self.seed);
        let count = word >> 32;
        match word % 100 {
            0..55 => Shape::Addresses(1 + (count % 4) as u8),
            55..70 => Shape::LongAddresses(1 + (count % 2) as u8),
            70..82 => Shape::Aliases(1 + (count % u64::from(self.chain.clamp(1, 8))) as u8),
            82..86 => Shape::Mail,
            86..94 => Shape::NoData,
            _ => Shape::NoName,
        }
    }

    /// The type that is asked for.
    fn rtype(self, number: u32) -> u16 {
        match self.shape(number) {
            Shape::LongAddresses(_) => AAAA,
            Shape::Mail => MX,
            Shape::NoData => AAAA,
            _ => A,
        }
    }

    /// Adds the labels above the domain of a name.
    fn push_host(self, message: &mut Vec<u8>, number: u32) -> Result<(), AllocError> {
        let word = mixed(number, self.seed ^ 0x5555);
        if self.depth > 0 {
            for level in 0..(low_half(word) % self.depth) {
                message.extend_from_slice(&[
                    3,
                    b'd',
                    b'0' + (level / 10 % 10) as u8,
                    b'0' + (level % 10) as u8,
                ])?;
            }
        }
        match number % 3 {
            0 => message.extend_from_slice(b"\x03www"),
            1 => message.extend_from_slice(HOSTS[((word >> 40) % 6) as usize]),
            _ => Ok(()),
        }
    }

    /// Whether the names of a domain have more than 32 octets.
    fn is_long(self, domain: u32) -> bool {
        mixed(domain, self.seed ^ 0x9999) % 100 < u64::from(self.long)
    }

    /// Adds the name of a domain.
    fn push_domain(self, message: &mut Vec<u8>, domain: u32) -> Result<(), AllocError> {
        if self.is_long(domain) {
            push_long_labels(message, mixed(domain, self.seed ^ 0xcccc))?;
        }
        let word = mixed(domain, self.seed ^ 0xaaaa);
        push_domain_label(message, domain, word)?;
        message.extend_from_slice(ENDS[((word >> 16) % 8) as usize])
    }

    /// Adds the question for a name, and gives a pointer to its domain.
    fn push_question(self, message: &mut Vec<u8>, number: u32) -> Result<u16, AllocError> {
        self.push_host(message, number)?;
        let domain = pointer(message);
        self.push_domain(message, number / 3)?;
        let [high, low] = self.rtype(number).to_be_bytes();
        message.extend_from_slice(&[high, low, 0, 1])?;
        Ok(domain)
    }

    /// Writes the question for a name in the place of what was written before.
    pub fn question(self, message: &mut Vec<u8>, number: u32, id: u16) -> Result<(), AllocError> {
        begin(message, id, [1, 0], [0, 0])?;
        let _ = self.push_question(message, number)?;
        Ok(())
    }

    /// Adds `count` records of a name with octets that are all its own.
    fn push_addresses(
        self,
        message: &mut Vec<u8>,
        owner: u16,
        rtype: u16,
        number: u32,
        count: u8,
    ) -> Result<(), AllocError> {
        let ttl = TTLS[((mixed(number, self.seed) >> 16) % 5) as usize];
        for place in 0..count {
            let word = mixed(number, self.seed.wrapping_add(u32::from(place)) ^ 0x3333);
            if rtype == A {
                push_record(message, owner, rtype, ttl, 4)?;
                message.extend_from_slice(&(low_half(word) | 1).to_be_bytes())?;
            } else {
                push_record(message, owner, rtype, ttl, 16)?;
                message.extend_from_slice(b"\x20\x01\x0d\xb8\x00\x00\x00\x00")?;
                message.extend_from_slice(&word.to_be_bytes())?;
            }
        }
        Ok(())
    }

    /// Adds aliases, one after the other, and the address of the last.
    fn push_aliases(self, message: &mut Vec<u8>, number: u32, count: u8) -> Result<(), AllocError> {
        let mut owner = QUESTION;
        let syllables = if self.is_long(number / 3) { 9 } else { 4 };
        for place in 0..count {
            let word = mixed(number, self.seed.wrapping_add(u32::from(place)) ^ 0x7777);
            let ttl = TTLS[((word >> 32) % 5) as usize];
            push_record(message, owner, CNAME, ttl, 15 + 2 * u16::from(syllables))?;
            owner = pointer(message);
            push_edge(message, word, syllables)?;
        }
        self.push_addresses(message, owner, A, number, 1)
    }

    /// Adds the mail servers of a name.
    fn push_mail(self, message: &mut Vec<u8>, domain: u16) -> Result<(), AllocError> {
        for place in 1..3u8 {
            push_record(message, QUESTION, MX, 3_600, 9)?;
            message.extend_from_slice(&[0, 10 * place, 4, b'm', b'x', b'0', b'0' + place])?;
            message.extend_from_slice(&domain.to_be_bytes())?;
        }
        Ok(())
    }

    /// Adds the SOA of a domain.
    fn push_soa(self, message: &mut Vec<u8>, domain: u16, number: u32) -> Result<(), AllocError> {
        let [high, low] = domain.to_be_bytes();
        push_record(message, domain, SOA, 3_600, 39)?;
        message.extend_from_slice(b"\x03ns1")?;
        message.extend_from_slice(&[high, low])?;
        message.extend_from_slice(b"\x0ahostmaster")?;
        message.extend_from_slice(&[high, low])?;
        message.extend_from_slice(&(number / 3).to_be_bytes())?;
        message.extend_from_slice(b"\x00\x00\x1c\x20\x00\x00\x0e\x10\x00\x12\x75\x00")?;
        message.extend_from_slice(&TTLS[(number % 5) as usize].to_be_bytes())
    }

    /// Writes the reply to a question in the place of what was written before.
    pub fn reply(self, message: &mut Vec<u8>, number: u32, id: u16) -> Result<(), AllocError> {
        let shape = self.shape(number);
        let (answer, authority, code) = match shape {
            Shape::Addresses(count) => (count, 0, 0),
            Shape::LongAddresses(count) => (count, 0, 0),
            Shape::Aliases(count) => (count.saturating_add(1), 0, 0),
            Shape::Mail => (2, 0, 0),
            Shape::NoData => (0, 1, 0),
            Shape::NoName => (0, 1, 3),
        };
        begin(message, id, [0x81, 0x80 | code], [answer, authority])?;
        let domain = self.push_question(message, number)?;
        match shape {
            Shape::Addresses(count) => self.push_addresses(message, QUESTION, A, number, count),
            Shape::LongAddresses(count) => {
                self.push_addresses(message, QUESTION, AAAA, number, count)
            }
            Shape::Aliases(count) => self.push_aliases(message, number, count),
            Shape::Mail => self.push_mail(message, domain),
            _ => self.push_soa(message, domain, number),
        }
    }
}
