//! The memory that purges give back.

use crate::tests::layers::observations::{moment_of, record_in};
use crate::tests::layers::rows::Words;
use fleet_cache::Cache;
use linked_list_allocator::LocalHeap;
use std::alloc::Global;
use std::process::Abort;

/// A cache over a heap.
#[derive(Drop)]
struct Held<'a> {
    global: Global,
    heap: &'a LocalHeap,
    cache: Cache<&'a LocalHeap>,
}

/// Takes an address, from second 100 on, of the name of a number of four digits.
fn take(rt: &impl Abort, held: &mut Held<'_>, number: u16, life: u16) {
    let row = format!(in held.global; "{number} 1 3 100 {life} c0000201").expect(rt, "memory");
    let mut words = Words::new(row.as_str());
    let observation = record_in(rt, held.heap, held.global, &mut words);
    held.cache.take(observation).expect(rt, "memory");
}

/// Takes addresses of 5000 names. Every other one ends at 110, the rest at 400.
fn take_all(rt: &impl Abort, held: &mut Held<'_>) {
    for number in 1000..6000u16 {
        take(rt, held, number, if number % 2 == 0 { 10 } else { 300 });
    }
}

/// How much of the heap is in use after a purge.
fn used_after(rt: &impl Abort, held: &mut Held<'_>, moment: &str) -> usize {
    held.cache.purge(moment_of(rt, moment));
    held.heap.used()
}

/// How much of the heap is in use by an empty cache, which keeps the room for two keys, and by
/// 5000 fronts.
fn fill(rt: &impl Abort, held: &mut Held<'_>) -> [usize; 2] {
    take(rt, held, 1000, 5);
    let empty = used_after(rt, held, "105");
    take_all(rt, held);
    [empty, held.heap.used()]
}

/// How much of the heap is in use after each of four purges.
fn purge_all(rt: &impl Abort, held: &mut Held<'_>) -> [usize; 4] {
    let first = used_after(rt, held, "110");
    assert_eq!(rt; held.cache.len(), 2500);
    let second = used_after(rt, held, "111");
    let third = used_after(rt, held, "112");
    let last = used_after(rt, held, "400");
    assert!(rt; held.cache.is_empty());
    [first, second, third, last]
}

/// How much of the heap is in use: by an empty cache, by 5000 fronts, and after each of four purges.
fn go_round(rt: &impl Abort, global: Global, heap: &LocalHeap) -> ([usize; 2], [usize; 4]) {
    let cache = Cache::new(heap);
    let mut held = Held {
        global,
        heap,
        cache,
    };
    let before = fill(rt, &mut held);
    (before, purge_all(rt, &mut held))
}

/// A purge reclaims from 4096 fronts, so that the first one drops 2048 of the 2500 that ended, 81.92 of
/// 100; the next goes on after them to the end.
#[test]
fn purges_go_round(rt: HostRuntime) {
    let heap = LocalHeap::new(rt.alloc(), 1 << 23).expect(&rt, "memory");
    let ([empty, all], [first, second, third, last]) = go_round(&rt, rt.alloc(), &heap);
    let dropped = all.saturating_sub(first).saturating_mul(100);
    let ended = all.saturating_sub(second);
    assert!(rt; dropped > ended.saturating_mul(81) && dropped < ended.saturating_mul(83));
    assert_eq!(rt; third, second);
    assert!(rt; second > empty);
    assert_eq!(rt; last, empty);
    assert_eq!(rt; heap.used(), 0);
}
