//! Events of a fleet, and questions to it, as rows of text, and what they give.
//!
//! A row is the kind of an event with its site and its moment, or `ask` with a site, a moment and a
//! question. What each row of these tests gives is tried from outside, by `tests/test_events.py`
//! and `tests/test_examples.py`; here two fleets are compared. Octets that lie, and forged replies,
//! are tried from outside too, by `tests/test_hostile.py` and `tests/test_forged.py`.

use crate::tests::octets::octets;
use crate::tests::sites::{addr, at, config, name_of, number};
use fleet_name::Octets;
use fleet_observe::Moment;
use fleet_pending::Addr;
use fleet_site::{Config, Looked, Packet};
use fleet_world::{Event, Stepped, World, WorldFault};
use std::alloc::{Allocator, Global};
use std::process::Abort;

/// Configurations of sites with two upstreams each, and with these peers.
pub fn configs<A: Allocator + Copy>(
    rt: &impl Abort,
    alloc: A,
    count: usize,
    peers: &[Addr],
) -> Vec<Config<A>, A> {
    let mut configs = Vec::new(alloc);
    for _ in 0..count {
        configs.push(config(rt, alloc, peers)).expect(rt, "memory");
    }
    configs
}

/// Sites with two upstreams each, and with these peers.
pub fn fleet<A: Allocator + Copy>(
    rt: &impl Abort,
    alloc: A,
    count: usize,
    peers: &[Addr],
) -> World<A> {
    World::new(alloc, configs(rt, alloc, count, peers)).expect(rt, "memory")
}

/// The number of 16 bits that is the first of words, and the others.
pub fn first_number<'a>(rt: &impl Abort, words: &'a str) -> (u16, &'a str) {
    let (word, rest) = words.split_once(' ').unwrap_or((words, ""));
    (number(rt, word), rest)
}

/// The number of a site or a frame that is the first of words, and the others.
pub fn first_place<'a>(rt: &impl Abort, words: &'a str) -> (usize, &'a str) {
    let (number, rest) = first_number(rt, words);
    (usize::from(number), rest)
}

/// A datagram comes to a site at a moment, from a port, with a word.
fn datagram<A: Allocator + Copy>(
    rt: &impl Abort,
    alloc: A,
    site: usize,
    now: Moment,
    words: &str,
) -> Event<A> {
    let (port, words) = first_number(rt, words);
    let (word, name) = first_number(rt, words);
    let bytes = octets(rt, alloc, name);
    Event::Datagram {
        site,
        now,
        from: addr(port),
        word,
        bytes,
    }
}

/// An event at a site at a moment.
fn timed_event<A: Allocator + Copy>(
    rt: &impl Abort,
    alloc: A,
    kind: &str,
    site: usize,
    words: &str,
) -> Event<A> {
    let (now, words) = first_number(rt, words);
    let now = at(rt, now);
    match kind {
        "datagram" => datagram(rt, alloc, site, now, words),
        "deliver" => Event::Deliver {
            site,
            now,
            frame: first_place(rt, words).0,
        },
        "tick" => Event::Tick { site, now },
        "frame" => Event::Frame {
            site,
            now,
            bytes: octets(rt, alloc, words),
        },
        "learn" => Event::Learn {
            site,
            now,
            bytes: octets(rt, alloc, words),
        },
        "flush" => Event::Flush {
            site,
            now,
            name: name_of(rt, alloc, words),
        },
        _ => panic!(rt; "unknown event"),
    }
}

/// The event of a line: its kind, its site, and for most kinds its moment.
fn event_of<A: Allocator + Copy>(rt: &impl Abort, alloc: A, line: &str) -> Event<A> {
    let (kind, words) = line.split_once(' ').expect(rt, "an event");
    let (site, words) = first_place(rt, words);
    match kind {
        "sweep" => Event::Sweep { site },
        "restart" => Event::Restart { site },
        "merge" => Event::Merge {
            into: site,
            from: first_place(rt, words).0,
        },
        kind => timed_event(rt, alloc, kind, site, words),
    }
}

/// A site, a moment and a question, of words.
pub fn asked_of<A: Allocator + Copy>(
    rt: &impl Abort,
    alloc: A,
    words: &str,
) -> (usize, Moment, Octets<A>) {
    let (site, words) = first_place(rt, words);
    let (now, name) = first_number(rt, words);
    (site, at(rt, now), octets(rt, alloc, name))
}

/// What a row gives.
#[derive(Drop)]
pub enum Done<A: Allocator = Global> {
    /// What an event did.
    Stepped(Stepped<A>),
    /// What is answered to a question.
    Looked(Looked<A>),
}

/// Does what a row says; its words are read with ample memory.
pub fn do_row<A: Allocator + Copy>(
    rt: &impl Abort,
    ample: A,
    world: &mut World<A>,
    row: &str,
) -> Result<Done<A>, WorldFault<A>> {
    if let Some(words) = row.strip_prefix("ask ") {
        let (site, now, question) = asked_of(rt, ample, words);
        return match world.ask(site, now, question.as_slice()) {
            Ok(looked) => Ok(Done::Looked(looked)),
            Err(fault) => Err(fault),
        };
    }
    let event = event_of(rt, ample, row);
    match world.step(&event) {
        Ok(stepped) => Ok(Done::Stepped(stepped)),
        Err(fault) => Err(fault),
    }
}

/// Whether packets are the same, in the same order.
fn same_packets<A: Allocator>(one: &[Packet<A>], other: &[Packet<A>]) -> bool {
    for (one, other) in one.iter().zip(other) {
        if one.to != other.to || one.bytes.as_slice() != other.bytes.as_slice() {
            return false;
        }
    }
    one.len() == other.len()
}

/// Whether two events did the same, but for the numbers of frames.
pub fn same_but_for_frames<A: Allocator>(one: &Stepped<A>, other: &Stepped<A>) -> bool {
    one.taken == other.taken
        && one.refused == other.refused
        && one.more == other.more
        && same_packets(one.packets.as_slice(), other.packets.as_slice())
}

/// Whether two events did the same.
pub fn same_stepped<A: Allocator>(one: &Stepped<A>, other: &Stepped<A>) -> bool {
    one.frames.as_slice() == other.frames.as_slice() && same_but_for_frames(one, other)
}

/// Whether two questions were answered alike.
pub fn same_looked<A: Allocator>(one: &Looked<A>, other: &Looked<A>) -> bool {
    match (one, other) {
        (Looked::Reply(one), Looked::Reply(other)) => one.as_slice() == other.as_slice(),
        (Looked::Miss, Looked::Miss) | (Looked::Dropped, Looked::Dropped) => true,
        _ => false,
    }
}

/// Whether two rows gave the same.
pub fn same_done<A: Allocator>(one: &Done<A>, other: &Done<A>) -> bool {
    match (one, other) {
        (Done::Stepped(one), Done::Stepped(other)) => same_stepped(one, other),
        (Done::Looked(one), Done::Looked(other)) => same_looked(one, other),
        _ => false,
    }
}

/// The rows of a text.
pub fn rows_of<'a>(rt: &impl Abort, alloc: Global, text: &'a str) -> Vec<&'a str> {
    let mut rows = Vec::new(alloc);
    for row in text.lines() {
        rows.push(row).expect(rt, "memory");
    }
    rows
}

/// The events of rows.
pub fn events_of<A: Allocator + Copy>(
    rt: &impl Abort,
    alloc: A,
    rows: &[&str],
) -> Vec<Event<A>, A> {
    let mut events = Vec::new(alloc);
    for row in rows {
        events.push(event_of(rt, alloc, row)).expect(rt, "memory");
    }
    events
}
