//! Observations as rows spell them.

use crate::tests::layers::rows::{Words, octets_of, push_octets};
use fleet_name::{Name, Octets};
use fleet_observe::{Moment, Observation, Soa};
use fleet_wire::{Question, read_query};
use linked_list_allocator::LocalHeap;
use std::alloc::{Allocator, Global};
use std::process::Abort;

/// The RDATA of the SOA of the denials: its names are the root, its minimum 300 seconds.
const SOA: &[u8; 22] = b"\0\0\0\0\0\x01\0\0\x0e\x10\0\0\x02\x58\0\x01\x51\x80\0\0\x01\x2c";

/// A moment.
pub(crate) fn moment_of(rt: &impl Abort, word: &str) -> Moment {
    let seconds = word.parse().expect(rt, "a number");
    Moment::new(seconds).expect(rt, "a moment")
}

/// The name of these labels, `.` for the root.
pub(crate) fn name_of<A: Allocator + Copy>(rt: &impl Abort, alloc: A, word: &str) -> Name<A> {
    let mut name = Name::root(alloc).expect(rt, "memory");
    for label in word.split_terminator('.') {
        if !label.is_empty() {
            name.push(label.as_bytes()).expect(rt, "a label");
        }
    }
    name
}

/// Adds a name, a type and a class.
fn add_question(rt: &impl Abort, octets: &mut Vec<u8>, name: &[u8], rtype: u16, class: u16) {
    octets.extend_from_slice(name).expect(rt, "memory");
    octets
        .extend_from_slice(&rtype.to_be_bytes())
        .expect(rt, "memory");
    octets
        .extend_from_slice(&class.to_be_bytes())
        .expect(rt, "memory");
}

/// The octets of a question for a type and a class at a name.
fn query_of(rt: &impl Abort, alloc: Global, word: &str, rtype: u16, class: u16) -> Vec<u8> {
    let name = name_of(rt, alloc, word);
    let mut message = octets_of(rt, alloc, "000701000001000000000000");
    add_question(rt, &mut message, name.octets(), rtype, class);
    message
}

/// A question for a type and a class at a name.
pub(crate) fn question_of(
    rt: &impl Abort,
    alloc: Global,
    word: &str,
    rtype: u16,
    class: u16,
) -> Question {
    let message = query_of(rt, alloc, word, rtype, class);
    let (_, question) = read_query(alloc, message.as_slice()).expect(rt, "a question");
    question
}

/// What a row says of an observation beside its name and body.
#[derive(Clone, Copy)]
struct Said {
    rtype: u16,
    rank: u8,
    stamp: Moment,
    life: u32,
}

/// Reads a type, a rank, a stamp and a life.
fn said_in(rt: &impl Abort, words: &mut Words<'_>) -> Said {
    let rtype = words.word().parse().expect(rt, "a number");
    let rank = words.word().parse().expect(rt, "a number");
    let stamp = moment_of(rt, words.word());
    let life = words.word().parse().expect(rt, "a number");
    Said {
        rtype,
        rank,
        stamp,
        life,
    }
}

/// One RDATA.
fn rdatas_of<A: Allocator + Copy>(rt: &impl Abort, alloc: A, octets: &[u8]) -> Vec<Octets<A>, A> {
    let rdata = Octets::copy_of(alloc, octets).expect(rt, "memory");
    let mut rdatas = Vec::new(alloc);
    rdatas.push(rdata).expect(rt, "memory");
    rdatas
}

/// An observation of one record: its name, type, rank, stamp, life and RDATA.
pub(crate) fn record_in<A: Allocator + Copy>(
    rt: &impl Abort,
    alloc: A,
    global: Global,
    words: &mut Words<'_>,
) -> Observation<A> {
    let word = words.word();
    let Said {
        rtype,
        rank,
        stamp,
        life,
    } = said_in(rt, words);
    let octets = words.octets(rt, global);
    let rdatas = rdatas_of(rt, alloc, octets.as_slice());
    let name = name_of(rt, alloc, word);
    Observation::positive(name, rtype, rank, stamp, life, rdatas).expect(rt, "an observation")
}

/// The SOA of an owner.
fn soa_of<A: Allocator + Copy>(
    rt: &impl Abort,
    alloc: A,
    word: &str,
    ttl: u32,
    octets: &[u8],
) -> Soa<A> {
    let rdata = Octets::copy_of(alloc, octets).expect(rt, "memory");
    let owner = name_of(rt, alloc, word);
    Soa { owner, ttl, rdata }
}

/// The SOA of an owner, its TTL and its RDATA; where these are not said, it lasts so long, and has
/// the RDATA of `SOA`.
fn soa_in<A: Allocator + Copy>(
    rt: &impl Abort,
    alloc: A,
    global: Global,
    words: &mut Words<'_>,
    life: u32,
) -> Soa<A> {
    let word = words.word();
    if words.is_empty() {
        return soa_of(rt, alloc, word, life, SOA);
    }
    let ttl = words.word().parse().expect(rt, "a number");
    let octets = words.octets(rt, global);
    soa_of(rt, alloc, word, ttl, octets.as_slice())
}

/// A denial: its name, type, 0 for that of the name, rank, stamp and life, and its SOA.
pub(crate) fn denial_in<A: Allocator + Copy>(
    rt: &impl Abort,
    alloc: A,
    global: Global,
    words: &mut Words<'_>,
) -> Observation<A> {
    let word = words.word();
    let Said {
        rtype,
        rank,
        stamp,
        life,
    } = said_in(rt, words);
    let denied = if rtype == 0 { None } else { Some(rtype) };
    let soa = soa_in(rt, alloc, global, words, life);
    let name = name_of(rt, alloc, word);
    Observation::negative(name, denied, rank, stamp, life, soa).expect(rt, "an observation")
}

/// A flush: its name and stamp.
pub(crate) fn flush_in<A: Allocator + Copy>(
    rt: &impl Abort,
    alloc: A,
    words: &mut Words<'_>,
) -> Observation<A> {
    let name = name_of(rt, alloc, words.word());
    let stamp = moment_of(rt, words.word());
    Observation::flush(name, stamp)
}

/// Adds numbers, each after a space.
fn push_numbers(rt: &impl Abort, output: &mut String, numbers: &[u64]) {
    for number in numbers {
        write!(output, " {number}").expect(rt, "memory");
    }
}

/// Adds the text of a name.
pub(crate) fn push_name<A: Allocator>(
    rt: &impl Abort,
    global: Global,
    output: &mut String,
    name: &Name<A>,
) {
    let text = name.write_text(global).expect(rt, "memory");
    output.push_str(text.as_str()).expect(rt, "memory");
}

/// Adds an observation's kind and name.
fn push_kind<A: Allocator>(
    rt: &impl Abort,
    global: Global,
    output: &mut String,
    observation: &Observation<A>,
) {
    write!(output, "{:?} ", observation.kind()).expect(rt, "memory");
    push_name(rt, global, output, observation.name());
}

/// Adds an observation's body.
fn push_body<A: Allocator>(
    rt: &impl Abort,
    global: Global,
    output: &mut String,
    observation: &Observation<A>,
) {
    let body = observation.write_body(global).expect(rt, "memory");
    output.push_str(" ").expect(rt, "memory");
    push_octets(rt, output, body.as_slice());
}

/// Adds what an observation says: its kind, name, type, rank, stamp, life and body.
pub(crate) fn push_observation<A: Allocator>(
    rt: &impl Abort,
    global: Global,
    output: &mut String,
    observation: &Observation<A>,
) {
    let numbers = [
        u64::from(observation.rtype()),
        u64::from(observation.rank()),
        observation.stamp().value(),
        u64::from(observation.life()),
    ];
    push_kind(rt, global, output, observation);
    push_numbers(rt, output, numbers.as_slice());
    push_body(rt, global, output, observation);
    output.push_str(";").expect(rt, "memory");
}
