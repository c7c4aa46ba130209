//! Tables of calls on names, messages and replies, and their output.

use crate::tests::layers::captures::{show_rdata, show_rewritten};
use crate::tests::layers::in_place::show_in_place;
use crate::tests::layers::made::{show_denial, show_flush, show_records};
use crate::tests::layers::names::{
    show_ancestor, show_lower, show_name, show_octets, show_pair, show_pushes, show_suffix,
    show_under,
};
use crate::tests::layers::rows::{Row, Words, check_output, is_row, read_row};
use std::alloc::Global;
use std::process::Abort;

/// Makes a call with these words, and writes its output.
fn show_result(rt: &impl Abort, alloc: Global, call: &str, words: Words<'_>, output: &mut String) {
    match call {
        "name" => show_name(rt, alloc, words, output),
        "pair" => show_pair(rt, alloc, words, output),
        "under" => show_under(rt, alloc, words, output),
        "pushes" => show_pushes(rt, alloc, words, output),
        "octets" => show_octets(rt, alloc, words, output),
        "ancestor" => show_ancestor(rt, alloc, words, output),
        "suffix" => show_suffix(rt, alloc, words, output),
        "lower" => show_lower(rt, alloc, words, output),
        "place" => show_in_place(rt, alloc, words, output),
        "reply" => show_rewritten(rt, alloc, words, output),
        "rdata" => show_rdata(rt, alloc, words, output),
        "records" => show_records(rt, alloc, words, output),
        "denial" => show_denial(rt, alloc, words, output),
        "flush" => show_flush(rt, alloc, words, output),
        _ => panic!(rt; "no such call"),
    }
}

/// Checks one row.
fn check_row(rt: &impl Abort, alloc: Global, row: &str) {
    let Row {
        call,
        words,
        wanted,
    } = read_row(rt, row);
    let mut output = String::new(alloc);
    show_result(rt, alloc, call, words, &mut output);
    check_output(rt, alloc, row, wanted, output.as_str());
}

/// How many rows a table has.
pub(crate) fn rows_of(rows: &str) -> usize {
    rows.lines().filter(|row| is_row(row)).count()
}

/// Checks each row of a table.
pub(crate) fn check_rows(rt: &impl Abort, alloc: Global, rows: &str) {
    for row in rows.lines() {
        if is_row(row) {
            check_row(rt, alloc, row);
        }
    }
}
