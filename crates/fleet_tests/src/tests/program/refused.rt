//! Scripts with one allocation refused: each ends with `out of memory` at the line that met it,
//! exactly where one was refused, and has printed what the lines before it print.

use super::scripts::SCRIPTS;
use crate::tests::refused::MANY;
use crate::tests::refusing::Refusing;
use fleet_program::{LineFault, ScriptFault, run_script};
use std::alloc::Global;
use std::process::Abort;

/// Adds digits as often as is said after them.
fn push_repeated(rt: &impl Abort, text: &mut String, repeated: &str) {
    let (digits, count) = repeated.split_once('*').expect(rt, "a count");
    for _ in 0..count.parse::<u16>().expect(rt, "a number") {
        text.push_str(digits).expect(rt, "memory");
    }
}

/// A script with each repetition in it written out.
fn spelled(rt: &impl Abort, alloc: Global, script: &str) -> String {
    let mut text = String::new(alloc);
    for piece in script.split('{') {
        match piece.split_once('}') {
            Some((repeated, rest)) => {
                push_repeated(rt, &mut text, repeated);
                text.push_str(rest).expect(rt, "memory");
            }
            None => text.push_str(piece).expect(rt, "memory"),
        }
    }
    text
}

/// The lines of a script before the one with this number, which counts from 1.
fn before_line<'a>(rt: &impl Abort, script: &'a str, number: u64) -> &'a str {
    let mut end = 0usize;
    let mut next = 1u64;
    for line in script.split_inclusive('\n') {
        if next < number {
            end = end.saturating_add(line.len());
        }
        next = next.saturating_add(1);
    }
    script.get(..end).expect(rt, "a line")
}

/// A script that ran out of memory at a line printed what the lines before it print.
fn check_printed(rt: &impl Abort, alloc: Global, script: &str, fault: ScriptFault, printed: &[u8]) {
    assert!(rt; matches!(fault.what, LineFault::OutOfMemory));
    let before = before_line(rt, script, fault.line);
    let mut wanted = Vec::new(alloc);
    assert!(rt; run_script(alloc, &mut before.as_bytes(), &mut wanted).is_ok());
    assert_eq!(rt; printed, wanted.as_slice());
}

/// Runs a script with a call refused, and says whether that call was made.
fn run_refused(rt: &impl Abort, alloc: Global, script: &str, call: u64) -> bool {
    let refusing = Refusing::after(alloc, call);
    let mut printed = Vec::new(alloc);
    let ended = run_script(&refusing, &mut script.as_bytes(), &mut printed);
    assert_eq!(rt; ended.is_err(), refusing.has_refused());
    match ended {
        Ok(()) => false,
        Err(fault) => {
            check_printed(rt, alloc, script, fault, &printed);
            true
        }
    }
}

/// Runs a script with each call refused in turn, until one is not made.
fn refuse_each(rt: &impl Abort, alloc: Global, script: &str) {
    for call in 1..MANY {
        if !run_refused(rt, alloc, script, call) {
            return;
        }
    }
    panic!(rt; "refused each time");
}

#[test]
fn a_script_ends_where_a_call_is_refused(rt: HostRuntime) {
    for script in SCRIPTS.split("\n\n") {
        let text = spelled(&rt, rt.alloc(), script);
        refuse_each(&rt, rt.alloc(), text.as_str());
    }
}
