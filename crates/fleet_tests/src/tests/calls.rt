//! What each call of a site answers, where there is memory, that can find none.

use crate::tests::fleets::same_looked;
use crate::tests::octets::octets;
use crate::tests::sites::{addr, at, config, name_of};
use crate::tests::turns::is_sending;
use fleet_site::{Looked, Site};
use std::alloc::Global;
use std::process::Abort;

/// A question is asked at one upstream.
fn check_asked(rt: &impl Abort, alloc: Global, site: &mut Site) {
    let question = octets(rt, alloc, "question");
    let asked = site.datagram(at(rt, 100), addr(6001), question.as_slice(), 0x1234);
    assert!(rt; is_sending(rt, alloc, &asked.expect(rt, "an outcome"), 5301, "query"))
}

/// It is asked at the next one two seconds later.
fn check_retried(rt: &impl Abort, alloc: Global, site: &mut Site) {
    let asked = site.tick(at(rt, 102)).expect(rt, "an outcome");
    assert!(rt; is_sending(rt, alloc, &asked, 5302, "query"))
}

/// A reply is learnt.
fn check_learnt(rt: &impl Abort, alloc: Global, site: &mut Site) {
    let reply = octets(rt, alloc, "reply");
    let learnt = site.learn(at(rt, 100), reply.as_slice());
    assert_eq!(rt; learnt.expect(rt, "an outcome").taken, 1)
}

/// It answers, with a TTL that is ten less ten seconds later.
fn check_answered(rt: &impl Abort, alloc: Global, site: &mut Site) {
    let question = octets(rt, alloc, "question");
    let looked = site.ask(at(rt, 110), question.as_slice());
    let relayed = Looked::Reply(octets(rt, alloc, "relay-290"));
    assert!(rt; same_looked(&looked.expect(rt, "an answer"), &relayed))
}

/// A frame is taken.
fn check_taken(rt: &impl Abort, alloc: Global, site: &mut Site) {
    let frame = octets(rt, alloc, "frame-100");
    let taken = site.frame(at(rt, 110), frame.as_slice());
    assert_eq!(rt; taken.expect(rt, "an outcome").taken, 1)
}

/// A name is flushed.
fn check_flushed(rt: &impl Abort, alloc: Global, site: &mut Site) {
    let flushed = site.flush(at(rt, 120), &name_of(rt, alloc, "com"));
    assert_eq!(rt; flushed.expect(rt, "an outcome").taken, 1)
}

/// What a site holds goes out as one frame, and another site takes it in.
fn check_handed_on(rt: &impl Abort, site: &mut Site, other: &mut Site) {
    let frames = site.sweep().expect(rt, "frames");
    assert_eq!(rt; frames.as_slice().len(), 1);
    assert_eq!(rt; other.merge(site).expect(rt, "a count"), 1)
}

/// Each call of a site, one after the other.
fn check_calls(rt: &impl Abort, alloc: Global, site: &mut Site, other: &mut Site) {
    check_asked(rt, alloc, site);
    check_retried(rt, alloc, site);
    site.restart();
    check_learnt(rt, alloc, site);
    check_answered(rt, alloc, site);
    check_taken(rt, alloc, site);
    check_flushed(rt, alloc, site);
    check_handed_on(rt, site, other)
}

/// Allocates: `fleet_site`: `Site::datagram`, `Site::tick`, `Site::frame`, `Site::learn`,
/// `Site::ask`, `Site::flush`, `Site::sweep`, `Site::merge`.
#[test]
fn each_call_answers(rt: HostRuntime) {
    let mut site = Site::new(rt.alloc(), config(&rt, rt.alloc(), &[]));
    let mut other = Site::new(rt.alloc(), config(&rt, rt.alloc(), &[]));
    check_calls(&rt, rt.alloc(), &mut site, &mut other)
}
