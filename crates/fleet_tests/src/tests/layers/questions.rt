//! Open questions: rows of calls with their answers.
//!
//! A question is spelled by its name and its class, and is for type 1 (A). One who asks is at
//! 127.0.0.1, and is spelled by a port and an identifier. A 257th question and a 33rd waiter are
//! tried from outside (`tests/test_bounds.py`, `tests/cases/events_sites.txt`).

use crate::tests::layers::observations::{moment_of, push_name, question_of};
use crate::tests::layers::rows::{Row, Words, check_output, is_row, read_row};
use fleet_observe::Moment;
use fleet_pending::{Addr, Asked, Due, Entry, Pending, PendingFault, Waiter, Waiters};
use fleet_wire::Question;
use std::alloc::Global;
use std::process::Abort;

/// Reads a question.
fn question_in(rt: &impl Abort, alloc: Global, words: &mut Words<'_>) -> Question {
    let name = words.word();
    let class = words.word().parse().expect(rt, "a number");
    question_of(rt, alloc, name, 1, class)
}

/// Adds how a question is asked, or why not.
fn push_asked(rt: &impl Abort, output: &mut String, asked: Result<Asked, PendingFault>) {
    match asked {
        Ok(Asked::Send { upstream, id }) => write!(output, "send {upstream} {id}").expect(
            rt, "memory",
        ),
        Ok(Asked::Joined) => output.push_str("joined").expect(rt, "memory"),
        Ok(Asked::Again) => output.push_str("again").expect(rt, "memory"),
        Err(fault) => write!(output, "{fault:?}").expect(rt, "memory"),
    }
}

/// Who asks, when, and where the search for an identifier begins: the question, the port and the
/// identifier of its asker, the moment, and a word.
fn asker(rt: &impl Abort, alloc: Global, mut words: Words<'_>) -> (Waiter, Moment, u16) {
    let question = question_in(rt, alloc, &mut words);
    let port = words.word().parse().expect(rt, "a number");
    let id = words.word().parse().expect(rt, "a number");
    let moment = moment_of(rt, words.word());
    let word = words.word().parse().expect(rt, "a number");
    let from = Addr {
        host: 0x7f00_0001,
        port,
    };
    (Waiter { from, id, question }, moment, word)
}

/// How a question is asked.
fn ask(
    rt: &impl Abort,
    alloc: Global,
    table: &mut Pending,
    words: Words<'_>,
) -> Result<Asked, PendingFault> {
    let (waiter, moment, word) = asker(rt, alloc, words);
    match table.ask(waiter, moment, word) {
        Ok(asked) => Ok(asked),
        Err(unasked) => Err(unasked.fault),
    }
}

/// How a question is asked that is new and has room, under the identifier of its query.
fn open(
    rt: &impl Abort,
    alloc: Global,
    table: &mut Pending,
    words: Words<'_>,
) -> Result<Asked, PendingFault> {
    let (waiter, moment, word) = asker(rt, alloc, words);
    let id = table
        .query_id(&waiter.question, word)
        .expect(rt, "a new question");
    match table.open(waiter, moment, id) {
        Ok(asked) => Ok(asked),
        Err(unasked) => Err(unasked.fault),
    }
}

/// The identifier of the query that asking would send: the question, and a word.
fn show_query_id(
    rt: &impl Abort,
    alloc: Global,
    table: &Pending,
    mut words: Words<'_>,
    output: &mut String,
) {
    let question = question_in(rt, alloc, &mut words);
    let word = words.word().parse().expect(rt, "a number");
    match table.query_id(&question, word) {
        Some(id) => write!(output, "{id}").expect(rt, "memory"),
        None => output.push_str("none").expect(rt, "memory"),
    }
}

/// Whether an entry waits for this reply: its upstream, identifier and question.
fn show_found(
    rt: &impl Abort,
    alloc: Global,
    table: &Pending,
    mut words: Words<'_>,
    output: &mut String,
) {
    let upstream = words.word().parse().expect(rt, "a number");
    let id = words.word().parse().expect(rt, "a number");
    let question = question_in(rt, alloc, &mut words);
    let is_found = table.find(upstream, id, &question).is_some();
    write!(output, "{is_found}").expect(rt, "memory");
}

/// Adds the port and the identifier of each who waits.
fn push_waiters(rt: &impl Abort, output: &mut String, waiters: &Waiters) {
    for waiter in waiters.as_slice() {
        let (port, id) = (waiter.from.port, waiter.id);
        write!(output, "{port}/{id};").expect(rt, "memory");
    }
}

/// Who waited for the reply with an identifier.
fn settle(rt: &impl Abort, table: &mut Pending, mut words: Words<'_>, output: &mut String) {
    match table.settle(words.word().parse().expect(rt, "a number")) {
        Some(entry) => push_waiters(rt, output, &entry.waiters),
        None => output.push_str("none").expect(rt, "memory"),
    }
}

/// Adds a retry.
fn push_retry(
    rt: &impl Abort,
    alloc: Global,
    output: &mut String,
    upstream: u8,
    id: u16,
    entry: &Entry,
) {
    write!(output, "retry {upstream} {id} ").expect(rt, "memory");
    push_name(rt, alloc, output, &entry.name);
}

/// What is due first at a moment.
fn show_due(
    rt: &impl Abort,
    alloc: Global,
    table: &Pending,
    mut words: Words<'_>,
    output: &mut String,
) {
    match table.due(moment_of(rt, words.word())) {
        Some(
            Due::Retry {
                upstream,
                id,
                entry,
            },
        ) => push_retry(rt, alloc, output, upstream, id, entry),
        Some(Due::Failed { id, .. }) => write!(output, "failed {id}").expect(rt, "memory"),
        None => output.push_str("none").expect(rt, "memory"),
    }
}

/// What is due first at a moment, of a table that looked ahead at it.
fn look_ahead(
    rt: &impl Abort,
    alloc: Global,
    table: &mut Pending,
    words: Words<'_>,
    output: &mut String,
) {
    let mut moment = words;
    table.look_ahead(moment_of(rt, moment.word()));
    show_due(rt, alloc, table, words, output);
}

/// Whether an entry goes on to its next upstream.
fn advance(rt: &impl Abort, table: &mut Pending, mut words: Words<'_>, output: &mut String) {
    let id = words.word().parse().expect(rt, "a number");
    let moment = moment_of(rt, words.word());
    let is_next = table.advance(id, moment);
    write!(output, "{is_next}").expect(rt, "memory");
}

/// Whether there is an entry with an identifier.
fn show_entry(rt: &impl Abort, table: &Pending, mut words: Words<'_>, output: &mut String) {
    let is_there = table
        .entry(words.word().parse().expect(rt, "a number"))
        .is_some();
    write!(output, "{is_there}").expect(rt, "memory");
}

/// Makes a call, and writes its output.
fn show_result(
    rt: &impl Abort,
    alloc: Global,
    table: &mut Pending,
    call: &str,
    words: Words<'_>,
    output: &mut String,
) {
    match call {
        "ask" => push_asked(rt, output, ask(rt, alloc, table, words)),
        "open" => push_asked(rt, output, open(rt, alloc, table, words)),
        "query_id" => show_query_id(rt, alloc, table, words, output),
        "find" => show_found(rt, alloc, table, words, output),
        "settle" => settle(rt, table, words, output),
        "due" => show_due(rt, alloc, table, words, output),
        "look_ahead" => look_ahead(rt, alloc, table, words, output),
        "advance" => advance(rt, table, words, output),
        "entry" => show_entry(rt, table, words, output),
        _ => panic!(rt; "no such call"),
    }
}

/// Checks one call.
fn check_call(rt: &impl Abort, alloc: Global, table: &mut Pending, row: &str) {
    let Row {
        call,
        words,
        wanted,
    } = read_row(rt, row);
    let mut output = String::new(alloc);
    show_result(rt, alloc, table, call, words, &mut output);
    check_output(rt, alloc, row, wanted, output.as_str());
}

/// Checks calls of a table.
fn check_calls(rt: &impl Abort, alloc: Global, table: &mut Pending, rows: &str) {
    for row in rows.lines() {
        if is_row(row) {
            check_call(rt, alloc, table, row);
        }
    }
}

/// Allocates: `fleet_pending`: `Pending::ask`.
#[test]
fn each_waiter_is_answered_once(rt: HostRuntime) {
    let rows = "
ask 0000 1 6001 7 100 4660 => send 0 4660
ask 0000 1 6002 8 100 9 => joined
ask 0000 1 6001 7 100 4660 => again
ask 0000 1 6001 9 100 4660 => joined
find 1 4660 0000 1 => false
find 0 4661 0000 1 => false
find 0 4660 0001 1 => false
find 0 4660 0000 1 => true
settle 4660 => 6001/7;6002/8;6001/9;
find 0 4660 0000 1 => false
settle 4660 => none";
    let mut table = Pending::new(rt.alloc(), 2);
    check_calls(&rt, rt.alloc(), &mut table, rows);
}

#[test]
fn the_identifier_of_a_query_is_known_before_it_is_asked(rt: HostRuntime) {
    let rows = "
query_id 0000 1 4660 => 4660
ask 0000 1 6001 7 100 4660 => send 0 4660
query_id 0000 1 4660 => none
query_id 0000 3 9 => none
ask 0000 1 6002 8 100 9 => joined
query_id 0001 1 4660 => 4661
query_id 0001 1 9 => 9
ask 0001 1 6001 7 100 4660 => send 0 4661
query_id 0002 1 4660 => 4662
settle 4660 => 6001/7;6002/8;
query_id 0000 1 4660 => 4660";
    let mut table = Pending::new(rt.alloc(), 2);
    check_calls(&rt, rt.alloc(), &mut table, rows);
}

/// Allocates: `fleet_pending`: `Pending::open`.
#[test]
fn a_new_question_is_opened_under_the_identifier_of_its_query(rt: HostRuntime) {
    let rows = "
open 0000 1 6001 7 100 4660 => send 0 4660
ask 0000 1 6002 8 100 9 => joined
open 0001 1 6001 7 100 4660 => send 0 4661
settle 4660 => 6001/7;6002/8;
find 0 4661 0001 1 => true";
    let mut table = Pending::new(rt.alloc(), 2);
    check_calls(&rt, rt.alloc(), &mut table, rows);
}

#[test]
fn a_question_of_another_class_waits(rt: HostRuntime) {
    let rows = "
ask 0000 3 6001 7 100 1 => send 0 1
ask 0000 1 6002 7 100 1 => joined
find 0 1 0000 1 => true
find 0 1 0000 3 => false
due 102 => failed 1";
    let mut table = Pending::new(rt.alloc(), 1);
    check_calls(&rt, rt.alloc(), &mut table, rows);
}

/// Each look ahead comes after the deadline that the table knew as its first one, at it, or before
/// it.
#[test]
fn looking_ahead_changes_nothing(rt: HostRuntime) {
    let rows = "
look_ahead 100 => none
ask 0001 1 6001 7 100 1 => send 0 1
ask 0002 1 6001 8 101 2 => send 0 2
look_ahead 101 => none
look_ahead 102 => retry 1 1 0001.
advance 1 102 => true
advance 1 102 => false
entry 1 => true
due 102 => none
look_ahead 102 => none
due 103 => retry 1 2 0002.
settle 2 => 6001/8;
look_ahead 103 => none
due 104 => failed 1
look_ahead 104 => failed 1
settle 1 => 6001/7;
entry 1 => false
look_ahead 200 => none
ask 0003 1 6001 9 50 3 => send 0 3
due 51 => none
due 52 => retry 1 3 0003.";
    let mut table = Pending::new(rt.alloc(), 2);
    check_calls(&rt, rt.alloc(), &mut table, rows);
}

/// Those who wait for a question, by their identifiers.
fn waiters_of(rt: &impl Abort, alloc: Global, ids: &[u16]) -> Waiters {
    let mut items = Vec::new(alloc);
    for id in ids {
        let from = Addr { host: 1, port: 53 };
        let question = question_of(rt, alloc, "0000", 1, 1);
        items
            .push(Waiter {
                from,
                id: *id,
                question,
            })
            .expect(rt, "memory");
    }
    Waiters::new(items)
}

#[test]
fn waiters_keep_their_order(rt: HostRuntime) {
    let waiters = waiters_of(&rt, rt.alloc(), &[9, 7, 8]);
    let mut output = String::new(rt.alloc());
    push_waiters(&rt, &mut output, &waiters);
    assert_eq!(rt; output.as_str(), "53/9;53/7;53/8;");
}
