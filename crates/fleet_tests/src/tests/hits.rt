//! A hit at a site that has no memory left: it takes none where the buffer has room. No clause asks
//! for that.
//!
//! A server gives each datagram to its site by `datagram_into`, in which plain questions have a way of
//! their own. The datagrams of a script go by `datagram`, which has no such way: those of the worked
//! examples, of random scripts, and of the lists of `tests/test_events.py`, which have hits of each kind
//! of answer, and misses, with one who joins and with a full table. Clause `follows` asks the same of
//! both calls. `datagram_into` is tried from outside over sockets, by `tests/test_serving.py` and
//! `tests/random_sockets`.

use crate::tests::heaps::rest_of;
use crate::tests::octets::octets;
use crate::tests::sites::{addr, at};
use fleet_site::{Config, Handled, Site};
use fleet_wire::bounds::LONGEST_MESSAGE;
use linked_list_allocator::LocalHeap;
use std::alloc::Global;
use std::process::Abort;

/// A site over a heap.
fn heap_site<'a>(rt: &impl Abort, heap: &'a LocalHeap) -> Site<&'a LocalHeap> {
    let upstreams = Vec::from_slice(heap, &[addr(5301)]).expect(rt, "memory");
    let config = Config::new(upstreams, Vec::new(heap)).expect(rt, "a configuration");
    Site::new(heap, config)
}

/// The site learns the reply at 100.
fn learn(rt: &impl Abort, global: Global, site: &mut Site<&LocalHeap>) {
    let reply = octets(rt, global, "reply");
    let learnt = site.learn(at(rt, 100), reply.as_slice());
    let _ = learnt.expect(rt, "an outcome");
}

/// A hit goes into a buffer that has room.
fn check_hit<'a>(
    rt: &impl Abort,
    global: Global,
    site: &mut Site<&'a LocalHeap>,
    out: &mut Vec<u8, &'a LocalHeap>,
) {
    let asked = octets(rt, global, "question");
    let handled = site.datagram_into(at(rt, 110), addr(6001), asked.as_slice(), 0, out);
    assert!(rt; matches!(&handled.expect(rt, "an outcome"), Handled::Reply));
    assert_eq!(rt; out.as_slice(), octets(rt, global, "relay-290").as_slice())
}

/// A question of this name finds no memory for an answer in this buffer.
fn check_short<'a>(
    rt: &impl Abort,
    global: Global,
    site: &mut Site<&'a LocalHeap>,
    name: &str,
    out: &mut Vec<u8, &'a LocalHeap>,
) {
    let asked = octets(rt, global, name);
    let handled = site.datagram_into(at(rt, 110), addr(6001), asked.as_slice(), 0, out);
    assert!(rt; handled.is_err())
}

/// No memory is found for an answer beside the site.
fn check_unanswered(rt: &impl Abort, global: Global, site: &mut Site<&LocalHeap>) {
    let asked = octets(rt, global, "question");
    let handled = site.datagram(at(rt, 110), addr(6001), asked.as_slice(), 0);
    assert!(rt; handled.is_err())
}

/// A hit goes into a buffer that has room, and not into one that has none; nor can it then be answered
/// in another way. A miss finds no memory.
fn check_full<'a>(
    rt: &impl Abort,
    global: Global,
    heap: &'a LocalHeap,
    site: &mut Site<&'a LocalHeap>,
    out: &mut Vec<u8, &'a LocalHeap>,
) {
    check_hit(rt, global, site, out);
    check_short(rt, global, site, "question", &mut Vec::new(heap));
    check_unanswered(rt, global, site);
    check_short(rt, global, site, "asked", out)
}

/// A site learns the reply, and then nothing is left of its heap.
fn check_heap<'a>(
    rt: &impl Abort,
    global: Global,
    heap: &'a LocalHeap,
    site: &mut Site<&'a LocalHeap>,
) {
    learn(rt, global, site);
    let mut out = Vec::with_capacity(heap, LONGEST_MESSAGE).expect(rt, "memory");
    let rest = rest_of(rt, global, heap);
    assert!(rt; !rest.is_empty());
    check_full(rt, global, heap, site, &mut out)
}

/// The same, of a site over this heap.
fn check_site(rt: &impl Abort, global: Global, heap: &LocalHeap) {
    let mut site = heap_site(rt, heap);
    check_heap(rt, global, heap, &mut site)
}

/// Allocates: `fleet_site`: `Site::datagram_into`.
#[test]
fn a_hit_takes_no_memory(rt: HostRuntime) {
    let heap = LocalHeap::new(rt.alloc(), 1 << 14).expect(&rt, "memory");
    check_site(&rt, rt.alloc(), &heap)
}
