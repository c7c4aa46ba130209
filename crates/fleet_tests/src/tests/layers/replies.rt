//! What a reply says, what is relayed of it, and what is asked: each call where there is memory.
//!
//! The observations of replies, field by field, and the octets of relays are tried from outside, by
//! `tests/test_replies.py`: chains of aliases, denials, NS RRsets, and replies that are cut off or
//! have another code.

use crate::tests::layers::rows::octets_of;
use fleet_observe::{Digest, Moment, digest, observations, relay};
use fleet_wire::{read_query, read_reply, write_query};
use std::alloc::Global;
use std::process::Abort;

/// A query for what a question asks is read as it was written, in lower case.
fn check_query(rt: &impl Abort, alloc: Global, asked: &[u8]) {
    let (_, question) = read_query(alloc, asked).expect(rt, "a question");
    let copy = question.try_clone().expect(rt, "memory");
    let query = write_query(alloc, 0x1234, &copy).expect(rt, "a query");
    let wanted = octets_of(rt, alloc, "12340100000100000000000003'www'00001c0001");
    assert_eq!(rt; query.as_slice(), wanted.as_slice())
}

/// What a reply with two aliases and a denial says is three observations.
fn check_observations(rt: &impl Abort, alloc: Global, digest: &Digest) {
    let stamp = Moment::new(100).expect(rt, "a moment");
    let all = observations(alloc, digest, stamp).expect(rt, "observations");
    assert_eq!(rt; all.len(), 3)
}

/// It is relayed with both aliases and the SOA.
fn check_relay(rt: &impl Abort, alloc: Global, digest: &Digest, asked: &[u8]) {
    let (header, question) = read_query(alloc, asked).expect(rt, "a question");
    let relayed = relay(alloc, digest, &question, header.id, header.rd);
    let octets = relayed.expect(rt, "a reply");
    let again = read_reply(alloc, octets.as_slice()).expect(rt, "a reply");
    assert_eq!(rt; (again.answer().len(), again.authority().len()), (2, 1))
}

/// A reply is read, and what it says is told and relayed.
fn check_reply(rt: &impl Abort, alloc: Global, message: &[u8], asked: &[u8]) {
    let reply = read_reply(alloc, message).expect(rt, "a reply");
    let digest = digest(alloc, &reply).expect(rt, "a digest");
    check_observations(rt, alloc, &digest);
    check_relay(rt, alloc, &digest, asked)
}

/// Allocates: `fleet_wire`: `read_query`, `write_query`, `Question::try_clone`.
/// Allocates: `fleet_observe`: `digest`, `observations`, `relay`.
#[test]
fn replies_and_queries_are_read_and_written(rt: HostRuntime) {
    let alloc = rt.alloc();
    check_query(&rt, alloc, &octets_of(&rt, alloc, "<mixed-question>"));
    let reply = octets_of(&rt, alloc, "<aliases-reply>");
    check_reply(&rt, alloc, &reply, &octets_of(&rt, alloc, "<aliases>"));
}
