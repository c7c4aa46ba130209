//! What a cache holds of a frame where one allocation was refused: what it held before, where the
//! observations were still being made; else the first of them.

use crate::tests::octets::octets;
use crate::tests::refused::MANY;
use crate::tests::refusing::Refusing;
use fleet_cache::{Cache, Stopped};
use fleet_gossip::{FrameFault, TakeFault, decode, take_frame};
use std::alloc::{Allocator, Global};
use std::process::Abort;

/// How many observations the frame has: two aliases and a denial.
const COUNT: usize = 3;

/// The frame.
const FRAME: &str = "444702 0003 alias-entry target-entry denial-entry";

/// Decodes a frame whole, and then takes its observations.
fn take_decoded<A: Allocator + Copy>(
    alloc: A,
    cache: &mut Cache<A>,
    frame: &[u8],
) -> Result<usize, TakeFault> {
    let observations = match decode(alloc, frame) {
        Ok(observations) => observations,
        Err(FrameFault::OutOfMemory) => return Err(TakeFault::OutOfMemory { taken: 0 }),
        Err(fault) => return Err(TakeFault::Refused(fault)),
    };
    let count = observations.len();
    match cache.take_list(observations) {
        Ok(()) => Ok(count),
        Err(Stopped { taken }) => Err(TakeFault::OutOfMemory { taken }),
    }
}

/// A cache takes a frame, and another one takes it decoded; each has the allocator beside it. Both
/// end alike.
fn check_both<A: Allocator + Copy>(
    rt: &impl Abort,
    (alloc, cache): (A, &mut Cache<A>),
    (other, decoded): (A, &mut Cache<A>),
    frame: &[u8],
) {
    let taken = take_frame(alloc, cache, frame);
    assert_eq!(rt; taken, take_decoded(other, decoded, frame));
    assert!(rt; cache.same(decoded));
}

/// Takes a frame into a new cache, and into another one decoded, with a call refused, once for
/// each; says whether that call was made.
fn take_refused(rt: &impl Abort, alloc: Global, frame: &[u8], call: u64) -> bool {
    let refusing = Refusing::after(alloc, call);
    let other = Refusing::after(alloc, call);
    let mut cache = Cache::new(&refusing);
    let mut decoded = Cache::new(&other);
    check_both(rt, (&refusing, &mut cache), (&other, &mut decoded), frame);
    assert_eq!(rt; refusing.has_refused(), other.has_refused());
    refusing.has_refused()
}

#[test]
fn a_frame_is_made_before_it_is_taken(rt: HostRuntime) {
    let frame = octets(&rt, rt.alloc(), FRAME);
    for call in 1..MANY {
        if !take_refused(&rt, rt.alloc(), frame.as_slice(), call) {
            return;
        }
    }
    panic!(rt; "refused each time");
}

/// The frame of each entry alone, and after `:` that of the others.
const SPLIT: &str = "\
444702 0001 alias-entry : 444702 0002 target-entry denial-entry
444702 0001 target-entry : 444702 0002 alias-entry denial-entry
444702 0001 denial-entry : 444702 0002 alias-entry target-entry";

/// The frame, its entry at a place alone, and the others.
#[derive(Clone, Copy)]
struct Split<'a> {
    frame: &'a [u8],
    place: usize,
    alone: &'a [u8],
    others: &'a [u8],
}

/// Whether the observations of a frame can't be made where a call is refused.
fn is_unmade(alloc: Global, frame: &[u8], call: u64) -> bool {
    let refusing = Refusing::after(alloc, call);
    decode(&refusing, frame).is_err()
}

/// Takes the frame; says how many were taken before a call was refused, if one was.
fn take_short<A: Allocator + Copy>(
    rt: &impl Abort,
    alloc: A,
    cache: &mut Cache<A>,
    frame: &[u8],
) -> Option<usize> {
    match take_frame(alloc, cache, frame) {
        Ok(count) => {
            assert_eq!(rt; count, COUNT);
            None
        }
        Err(TakeFault::OutOfMemory { taken }) => Some(taken),
        Err(TakeFault::Refused(_)) => panic!(rt; "refused"),
    }
}

/// How many observations a cache holds that held the one at this place, after so many that were
/// taken; after the whole frame, if none was refused.
fn held_behind(place: usize, taken: Option<usize>) -> usize {
    let first = taken.unwrap_or(COUNT);
    if place < first {
        first
    } else {
        first.saturating_add(1)
    }
}

/// A cache takes as many observations of a frame as are said, with ample memory; it holds so many then.
fn take_all<A: Allocator + Copy>(
    rt: &impl Abort,
    alloc: A,
    cache: &mut Cache<A>,
    frame: &[u8],
    count: usize,
) {
    assert_eq!(rt; take_frame(alloc, cache, frame), Ok(count));
    assert_eq!(rt; cache.len(), count);
}

/// Takes a frame whose entry at this place is held, with a call refused, and then again; says how
/// many were taken before it was.
fn take_beside<A: Allocator + Copy>(
    rt: &impl Abort,
    refusing: &Refusing<Global>,
    alloc: A,
    split: Split<'_>,
    call: u64,
) -> Option<usize> {
    let mut cache = Cache::new(alloc);
    take_all(rt, alloc, &mut cache, split.alone, 1);
    refusing.refuse(call);
    let taken = take_short(rt, alloc, &mut cache, split.frame);
    assert_eq!(rt; taken.is_some(), refusing.has_refused());
    assert_eq!(rt; cache.len(), held_behind(split.place, taken));
    refusing.refuse(MANY);
    take_all(rt, alloc, &mut cache, split.frame, COUNT);
    taken
}

/// Does so with each call refused.
fn refuse_each(rt: &impl Abort, alloc: Global, refusing: &Refusing<Global>, split: Split<'_>) {
    for call in 1..MANY {
        let taken = take_beside(rt, refusing, refusing, split, call);
        if is_unmade(alloc, split.others, call) {
            assert_eq!(rt; taken, Some(0));
        }
        if taken.is_none() {
            return;
        }
    }
    panic!(rt; "refused each time");
}

/// The same, of a row of `SPLIT`, by an allocator of its own.
fn check_split(rt: &impl Abort, alloc: Global, place: usize, row: &str) {
    let (alone, others) = row.split_once(" : ").expect(rt, "the others");
    let frame = octets(rt, alloc, FRAME);
    let alone = octets(rt, alloc, alone);
    let others = octets(rt, alloc, others);
    let split = Split {
        frame: frame.as_slice(),
        place,
        alone: alone.as_slice(),
        others: others.as_slice(),
    };
    let refusing = Refusing::after(alloc, MANY);
    refuse_each(rt, alloc, &refusing, split)
}

#[test]
fn what_is_not_held_is_made_before_it_is_taken(rt: HostRuntime) {
    let mut place = 0usize;
    for row in SPLIT.lines() {
        check_split(&rt, rt.alloc(), place, row);
        place = place.saturating_add(1);
    }
}
