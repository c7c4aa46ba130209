//! Calls of caches, a row each.

use crate::tests::layers::observations::{denial_in, flush_in, moment_of, record_in};
use crate::tests::layers::rows::{Row, Words, check_output, is_row, read_row};
use fleet_cache::Cache;
use fleet_observe::Observation;
use linked_list_allocator::LocalHeap;
use std::alloc::Global;
use std::mem::swap;
use std::process::Abort;

/// Two caches over one heap, the one at hand first, and how much of it was in use at some time.
#[derive(Drop)]
pub(crate) struct Caches<'a> {
    global: Global,
    heap: &'a LocalHeap,
    mark: usize,
    ours: Cache<&'a LocalHeap>,
    theirs: Cache<&'a LocalHeap>,
}

/// Whether the cache takes a record.
fn take_record(
    rt: &impl Abort,
    caches: &mut Caches<'_>,
    mut words: Words<'_>,
    output: &mut String,
) {
    let observation = record_in(rt, caches.heap, caches.global, &mut words);
    let is_new = caches.ours.take(observation).expect(rt, "memory");
    write!(output, "{is_new}").expect(rt, "memory");
}

/// Whether the cache takes a denial.
fn take_denial(
    rt: &impl Abort,
    caches: &mut Caches<'_>,
    mut words: Words<'_>,
    output: &mut String,
) {
    let observation = denial_in(rt, caches.heap, caches.global, &mut words);
    let is_new = caches.ours.take(observation).expect(rt, "memory");
    write!(output, "{is_new}").expect(rt, "memory");
}

/// Whether the cache takes a flush.
fn take_flush(rt: &impl Abort, caches: &mut Caches<'_>, mut words: Words<'_>, output: &mut String) {
    let flush = flush_in(rt, caches.heap, &mut words);
    let is_new = caches.ours.take(flush).expect(rt, "memory");
    write!(output, "{is_new}").expect(rt, "memory");
}

/// The records of words, one after the other.
fn records_in<'a>(
    rt: &impl Abort,
    heap: &'a LocalHeap,
    global: Global,
    mut words: Words<'_>,
) -> Vec<Observation<&'a LocalHeap>, &'a LocalHeap> {
    let mut list = Vec::new(heap);
    for _ in 0..u16::MAX {
        if words.is_empty() {
            return list;
        }
        list.push(record_in(rt, heap, global, &mut words))
            .expect(rt, "memory");
    }
    panic!(rt; "too many records")
}

/// How many records the cache takes at once.
fn take_records(rt: &impl Abort, caches: &mut Caches<'_>, words: Words<'_>, output: &mut String) {
    let list = records_in(rt, caches.heap, caches.global, words);
    let count = list.len();
    caches.ours.take_list(list).expect(rt, "memory");
    write!(output, "{count}").expect(rt, "memory");
}

/// Adds the rank and the life of each item.
fn push_items(rt: &impl Abort, output: &mut String, cache: &Cache<&LocalHeap>) {
    for item in cache.items() {
        let (rank, life) = (item.rank(), item.life());
        write!(output, " {rank}/{life}").expect(rt, "memory");
    }
}

/// How many items the cache holds, and of each the rank and the life.
fn show_items(rt: &impl Abort, caches: &Caches<'_>, output: &mut String) {
    let count = caches.ours.len();
    write!(output, "{count}").expect(rt, "memory");
    output
        .push_str(if caches.ours.is_empty() { " empty" } else { "" })
        .expect(rt, "memory");
    push_items(rt, output, &caches.ours);
}

/// What is left at once after a purge.
fn purge(rt: &impl Abort, caches: &mut Caches<'_>, mut words: Words<'_>, output: &mut String) {
    let moment = moment_of(rt, words.word());
    caches.ours.purge(moment);
    show_items(rt, caches, output);
}

/// How much of the heap is in use: whether any is, or how that compares with the time before.
fn show_used(rt: &impl Abort, caches: &mut Caches<'_>, call: &str, output: &mut String) {
    let used = caches.heap.used();
    if call == "mark" {
        caches.mark = used;
        output
            .push_str(if used == 0 { "nothing" } else { "something" })
            .expect(rt, "memory");
        return;
    }
    let order = used.cmp(&caches.mark);
    write!(output, "{order:?}").expect(rt, "memory");
}

/// What the other cache holds, which is at hand from now on.
fn show_other(rt: &impl Abort, caches: &mut Caches<'_>, output: &mut String) {
    swap(&mut caches.ours, &mut caches.theirs);
    show_items(rt, caches, output);
}

/// What the cache holds that has taken in all that the other one holds.
fn show_merged(rt: &impl Abort, caches: &mut Caches<'_>, output: &mut String) {
    caches.ours.merge(&caches.theirs).expect(rt, "memory");
    show_items(rt, caches, output);
}

/// Makes a call, and writes its output.
fn show_result(
    rt: &impl Abort,
    caches: &mut Caches<'_>,
    call: &str,
    words: Words<'_>,
    output: &mut String,
) {
    match call {
        "take" => take_record(rt, caches, words, output),
        "deny" => take_denial(rt, caches, words, output),
        "flush" => take_flush(rt, caches, words, output),
        "list" => take_records(rt, caches, words, output),
        "purge" => purge(rt, caches, words, output),
        "items" => show_items(rt, caches, output),
        "mark" | "used" => show_used(rt, caches, call, output),
        "other" => show_other(rt, caches, output),
        "merge" => show_merged(rt, caches, output),
        _ => panic!(rt; "no such call"),
    }
}

/// Checks one call.
fn check_call(rt: &impl Abort, caches: &mut Caches<'_>, row: &str) {
    let Row {
        call,
        words,
        wanted,
    } = read_row(rt, row);
    let mut output = String::new(caches.global);
    show_result(rt, caches, call, words, &mut output);
    check_output(rt, caches.global, row, wanted, output.as_str());
}

/// Checks calls.
fn check_rows(rt: &impl Abort, caches: &mut Caches<'_>, rows: &str) {
    for row in rows.lines() {
        if is_row(row) {
            check_call(rt, caches, row);
        }
    }
}

/// Checks calls of two new caches.
pub(crate) fn check_calls(rt: &impl Abort, global: Global, rows: &str) {
    let heap = LocalHeap::new(global, 1 << 20).expect(rt, "memory");
    let mut caches = Caches {
        global,
        heap: &heap,
        mark: 0,
        ours: Cache::new(&heap),
        theirs: Cache::new(&heap),
    };
    check_rows(rt, &mut caches, rows);
}
