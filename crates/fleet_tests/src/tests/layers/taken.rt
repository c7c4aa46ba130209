//! Frames that are taken into a cache, where there is memory and where none is left, and
//! observations that are lent. Each fault of a frame, in its first entry and in a second one, each
//! prefix and each octet changed are tried from outside, by `tests/test_frames.py`; and what caches
//! hold after frames went between them, by `tests/test_caches.py`.

use crate::tests::heaps::rest_of;
use crate::tests::layers::observations::moment_of;
use crate::tests::layers::rows::octets_of;
use fleet_cache::Cache;
use fleet_gossip::{FrameFault, TakeFault, decode, encode, pack, sweep, take_frame};
use fleet_observe::{LentObservation, Observation};
use linked_list_allocator::LocalHeap;
use std::alloc::Global;
use std::process::Abort;

/// The frame of one observation: 192.0.2.1 at example.com., rank 3, stamp 100, life 300.
const ONE: &str = "<frame-100>";

/// Two entries of example.com.: 192.0.2.1, then 192.0.2.2.
const TWO: &str =
    "@00020303{00*7}640000012c07'example'03'com'00000100010004c00002010303{00*7}640000012c07\
    'example'03'com'00000100010004c0000202";

/// An entry of example.com., then no name b.example., on the word of the SOA of example.
const DENIED: &str =
    "@00020303{00*7}640000012c07'example'03'com'00000100010004c00002010103{00*7}640000012c01\
    'b'07'example'00000007'example'00001600000000000100000e1000000258000151800000012c";

/// The frame of three observations of 4,000 octets each.
const LARGE: &str = "@00030303{00*7}640000012c01'a'00001000010fa0{00*4000}\
    0303{00*7}640000012c01'b'00001000010fa0{00*4000}\
    0303{00*7}640000012c01'c'00001000010fa0{00*4000}";

/// The same after small ones of two other names.
const BEHIND: &str = "@00050303{00*7}640000012c01'm'0000010001000400000000\
    0303{00*7}640000012c01'n'0000010001000400000000\
    0303{00*7}640000012c01'a'00001000010fa0{00*4000}\
    0303{00*7}640000012c01'b'00001000010fa0{00*4000}\
    0303{00*7}640000012c01'c'00001000010fa0{00*4000}";

/// Takes the frame of a word.
fn take<'a>(
    rt: &impl Abort,
    global: Global,
    heap: &'a LocalHeap,
    cache: &mut Cache<&'a LocalHeap>,
    word: &str,
) -> Result<usize, TakeFault> {
    let octets = octets_of(rt, global, word);
    take_frame(heap, cache, octets.as_slice())
}

/// What is held is taken again where nothing is left of the heap, and of a frame with something else
/// nothing is taken.
fn check_full<'a>(
    rt: &impl Abort,
    global: Global,
    heap: &'a LocalHeap,
    cache: &mut Cache<&'a LocalHeap>,
) {
    let rest = rest_of(rt, global, heap);
    assert!(rt; !rest.is_empty());
    assert_eq!(rt; take(rt, global, heap, cache, DENIED), Ok(2));
    assert_eq!(rt;
        take(rt, global, heap, cache, TWO),
        Err(TakeFault::OutOfMemory { taken: 0 })
    );
    assert_eq!(rt; cache.len(), 2);
}

/// The same, of a cache over this heap. The second entry of `TWO` then dominates the first one.
fn check_heap(rt: &impl Abort, global: Global, heap: &LocalHeap) {
    let mut cache = Cache::new(heap);
    assert_eq!(rt; take(rt, global, heap, &mut cache, DENIED), Ok(2));
    check_full(rt, global, heap, &mut cache);
    assert_eq!(rt;
        take(rt, global, heap, &mut cache, "@0001"),
        Err(TakeFault::Refused(FrameFault::Truncated))
    );
    assert_eq!(rt; take(rt, global, heap, &mut cache, "@0000"), Ok(0));
    assert_eq!(rt; take(rt, global, heap, &mut cache, TWO), Ok(2));
    assert_eq!(rt; cache.len(), 2);
    assert_eq!(rt; take(rt, global, heap, &mut cache, ONE), Ok(1));
    assert_eq!(rt; cache.len(), 2);
}

/// Allocates: `fleet_gossip`: `take_frame`.
#[test]
fn what_is_held_is_taken_without_memory(rt: HostRuntime) {
    let heap = LocalHeap::new(rt.alloc(), 1 << 14).expect(&rt, "memory");
    check_heap(&rt, rt.alloc(), &heap)
}

/// A cache takes the large ones, and then both them and the small ones.
fn check_behind<'a>(
    rt: &impl Abort,
    global: Global,
    heap: &'a LocalHeap,
    cache: &mut Cache<&'a LocalHeap>,
) {
    assert_eq!(rt; take(rt, global, heap, cache, LARGE), Ok(3));
    assert_eq!(rt; take(rt, global, heap, cache, BEHIND), Ok(5));
    assert_eq!(rt; cache.len(), 5);
}

#[test]
fn what_is_held_is_looked_for_behind_what_is_not(rt: HostRuntime) {
    // With three of them held there is room for a copy of one, and not for copies of all.
    let heap = LocalHeap::new(rt.alloc(), 22_000).expect(&rt, "memory");
    let mut cache = Cache::new(&heap);
    check_behind(&rt, rt.alloc(), &heap, &mut cache);
}

/// Whether an observation is what it lends, and a cache of it alone holds this; and that neither is so
/// where one value is another.
fn check_lent(rt: &impl Abort, alloc: Global, observation: &Observation) {
    let body = observation.write_body(alloc).expect(rt, "memory");
    let mut cache = Cache::new(alloc);
    cache
        .take(observation.try_clone().expect(rt, "memory"))
        .expect(rt, "memory");
    let lent = LentObservation {
        kind: observation.kind(),
        name: observation.name().octets(),
        rtype: observation.rtype(),
        rank: observation.rank(),
        stamp: observation.stamp(),
        life: observation.life(),
        body: body.as_slice(),
    };
    let other = LentObservation {
        stamp: moment_of(rt, "101"),
        ..lent
    };
    assert!(rt; observation.equals(&lent) && cache.holds(&lent));
    assert!(rt; !observation.equals(&other) && !cache.holds(&other));
}

#[test]
fn what_is_lent_is_compared_in_place(rt: HostRuntime) {
    let frame = octets_of(&rt, rt.alloc(), DENIED);
    for observation in &decode(rt.alloc(), frame.as_slice()).expect(&rt, "a frame") {
        check_lent(&rt, rt.alloc(), observation);
    }
}

/// A frame is written as it was read.
fn check_written(rt: &impl Abort, alloc: Global, frame: &[u8]) {
    let all = decode(alloc, frame).expect(rt, "a frame");
    let written = encode(alloc, &all).expect(rt, "a frame");
    assert!(rt; written.as_slice() == frame)
}

/// Observations that are too long for one frame are packed into two.
fn check_packed(rt: &impl Abort, alloc: Global, all: &[Observation]) {
    assert_eq!(rt; encode(alloc, all).err(), Some(FrameFault::TooLong));
    let frames = pack(alloc, all).expect(rt, "frames");
    assert_eq!(rt; frames.as_slice().len(), 2)
}

/// A cache that took them, each twice, sweeps one.
fn check_swept(rt: &impl Abort, alloc: Global, cache: &Cache) {
    let frames = sweep(alloc, cache).expect(rt, "frames");
    assert_eq!(rt; frames.as_slice().len(), 1)
}

/// Allocates: `fleet_gossip`: `encode`, `decode`, `pack`, `sweep`.
#[test]
fn what_is_too_long_for_a_frame_is_not_written(rt: HostRuntime) {
    let frame = octets_of(&rt, rt.alloc(), LARGE);
    check_written(&rt, rt.alloc(), &frame);
    let mut all = decode(rt.alloc(), &frame).expect(&rt, "a frame");
    for observation in decode(rt.alloc(), &frame).expect(&rt, "a frame") {
        all.push(observation).expect(&rt, "memory");
    }
    check_packed(&rt, rt.alloc(), &all);
    let mut cache = Cache::new(rt.alloc());
    cache.take_list(all).expect(&rt, "memory");
    check_swept(&rt, rt.alloc(), &cache)
}
