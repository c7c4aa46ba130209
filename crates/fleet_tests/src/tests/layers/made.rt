//! Observations that are made, written and copied.

use crate::tests::layers::observations::{denial_in, flush_in, push_observation, record_in};
use crate::tests::layers::rows::Words;
use crate::tests::layers::tables::check_rows;
use fleet_observe::Observation;
use std::alloc::Global;
use std::process::Abort;

/// Adds what a copy of an observation says, and whether it is equal.
fn push_copy(rt: &impl Abort, alloc: Global, output: &mut String, made: &Observation) {
    let copy = made.try_clone().expect(rt, "memory");
    push_observation(rt, alloc, output, &copy);
    output
        .push_str(if copy == *made { "equal" } else { "another" })
        .expect(rt, "memory");
}

/// A copy of an observation of one record: its name, type, rank, stamp, life and RDATA.
pub(crate) fn show_records(
    rt: &impl Abort,
    alloc: Global,
    mut words: Words<'_>,
    output: &mut String,
) {
    push_copy(rt, alloc, output, &record_in(rt, alloc, alloc, &mut words));
}

/// A copy of a flush: its name and stamp.
pub(crate) fn show_flush(
    rt: &impl Abort,
    alloc: Global,
    mut words: Words<'_>,
    output: &mut String,
) {
    push_copy(rt, alloc, output, &flush_in(rt, alloc, &mut words));
}

/// A copy of a denial: its name, type or 0, rank, stamp, life, and the owner, TTL and RDATA of its
/// SOA.
pub(crate) fn show_denial(
    rt: &impl Abort,
    alloc: Global,
    mut words: Words<'_>,
    output: &mut String,
) {
    push_copy(rt, alloc, output, &denial_in(rt, alloc, alloc, &mut words));
}

/// Allocates: `fleet_observe`: `Observation::write_body`, `Observation::try_clone`.
#[test]
fn writes_and_copies_an_address(rt: HostRuntime) {
    let rows = "
records example.com 1 3 100 300 c0000201 => \
    Positive example.com. 1 3 100 300 00010004c0000201;equal";
    check_rows(&rt, rt.alloc(), rows);
}

#[test]
fn writes_and_copies_a_denial(rt: HostRuntime) {
    let rows = "
denial b.example 0 1 100 300 example 3600 02'ns'07'example'0000\
    0000000100000e1000000258000151800000012c => \
    NameError b.example. 0 1 100 300 07'example'00002102'ns'07'example'0000\
    0000000100000e1000000258000151800000012c;equal";
    check_rows(&rt, rt.alloc(), rows);
}

#[test]
fn makes_and_copies_a_flush(rt: HostRuntime) {
    let rows = "
flush com 120 => Flush com. 0 3 120 86400 -;equal
flush . 0 => Flush . 0 3 0 86400 -;equal";
    check_rows(&rt, rt.alloc(), rows);
}
