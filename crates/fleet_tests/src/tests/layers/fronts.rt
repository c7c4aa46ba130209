//! A front of observations of one key, some of which a cut hides or another one dominates.

use crate::tests::layers::observations::{moment_of, record_in};
use crate::tests::layers::rows::{Row, Words, check_output, is_row, read_row};
use fleet_cache::{Cut, Item};
use fleet_front::Front;
use std::alloc::Global;
use std::process::Abort;

/// Adds the rank of an observation, if there is one.
fn push_rank(rt: &impl Abort, output: &mut String, item: Option<&Item>) {
    let Some(item) = item else {
        output.push_str("none").expect(rt, "memory");
        return;
    };
    let rank = item.observation().rank();
    write!(output, "{rank} ").expect(rt, "memory");
}

/// Adds the ranks of a front's observations.
fn push_ranks(rt: &impl Abort, output: &mut String, front: &Front<Item>) {
    for item in front.items() {
        push_rank(rt, output, Some(item));
    }
}

/// Makes a call, and writes its output.
fn show_result(
    rt: &impl Abort,
    alloc: Global,
    front: &mut Front<Item>,
    call: &str,
    mut words: Words<'_>,
    output: &mut String,
) {
    match call {
        "take" => {
            let item = Item::new(record_in(rt, alloc, alloc, &mut words));
            let is_new = front.take(item).expect(rt, "memory");
            write!(output, "{is_new}").expect(rt, "memory")
        }
        "first" => push_rank(
            rt,
            output,
            front.first_shown(&Cut::at(moment_of(rt, words.word()))),
        ),
        "drop" => {
            front.drop_hidden(&Cut::at(moment_of(rt, words.word())));
            push_ranks(rt, output, front)
        }
        "ranks" => push_ranks(rt, output, front),
        _ => panic!(rt; "no such call"),
    }
}

/// Checks one call.
fn check_call(rt: &impl Abort, alloc: Global, front: &mut Front<Item>, row: &str) {
    let Row {
        call,
        words,
        wanted,
    } = read_row(rt, row);
    let mut output = String::new(alloc);
    show_result(rt, alloc, front, call, words, &mut output);
    check_output(rt, alloc, row, wanted, output.as_str().trim_end());
}

/// Checks calls of a new front.
fn check_calls(rt: &impl Abort, alloc: Global, rows: &str) {
    let mut front = Front::new(alloc);
    for row in rows.lines() {
        if is_row(row) {
            check_call(rt, alloc, &mut front, row);
        }
    }
}

/// Allocates: `fleet_front`: `Front::take`.
#[test]
fn a_front_has_both_of_which_neither_dominates(rt: HostRuntime) {
    let preferred_first = "
take example.com 1 3 100 300 c0000201 => true
take example.com 1 1 200 300 c0000202 => true
take example.com 1 1 200 300 c0000202 => false
take example.com 1 3 100 300 c0000201 => false
ranks => 3 1
first 399 => 3
first 400 => 1
first 499 => 1
first 500 => none
drop 400 => 1";
    check_calls(&rt, rt.alloc(), preferred_first);
    let preferred_last = "
take example.com 1 1 200 300 c0000202 => true
take example.com 1 3 100 300 c0000201 => true
take example.com 1 3 100 300 c0000201 => false
take example.com 1 1 200 300 c0000202 => false
ranks => 3 1
first 399 => 3
first 400 => 1
first 499 => 1
first 500 => none
drop 400 => 1";
    check_calls(&rt, rt.alloc(), preferred_last);
}
