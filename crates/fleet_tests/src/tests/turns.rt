//! Runs of a server over a port in memory. Where a call of the port fails, the port's record has
//! that call all the same, as far as there is memory for the note: no clause asks for that.

ghost use Rattle.rand_core.specs.Steps.{stream_of, steps_u32};

use crate::tests::octets::octets;
use crate::tests::sites::{addr, at, config, number};
use fleet_name::Octets;
use fleet_pending::Addr;
use fleet_site::{ListClock, MemoryPort, Note, Outcome, Port, Report, Site, serve};
use rand_core::utils::NextWord;
use rand_core::{Rng, utils};
use std::alloc::{Allocator, Global};
use std::marker::Model;
use std::process::Abort;

/// Gives one word, again and again.
#[derive(Drop)]
pub struct OneWord(pub u32);

impl NextWord<u32> for OneWord {
    ghost step = { λ s. (s.0, s) };

    fn next_word(&mut self) -> u32 {
        self.0
    }
}

impl Rng for OneWord {
    ghost stream = { stream_of (steps_u32 (λ s. (s.0, s))) };

    fn next_u32(&mut self) -> u32 {
        self.next_word()
    }

    fn next_u64(&mut self) -> u64 {
        utils::next_u64_via_u32(self)
    }

    fn fill_bytes(&mut self, dst: &mut [u8]) {
        utils::fill_bytes_via_u32(self, dst)
    }
}

/// Whether one packet goes out: to this port, with the octets of this name.
pub fn is_sending<A: Allocator + Copy>(
    rt: &impl Abort,
    ample: A,
    outcome: &Outcome<A>,
    port: u16,
    name: &str,
) -> bool {
    let wanted = octets(rt, ample, name);
    match outcome.packets.as_slice() {
        [packet] => packet.to == addr(port) && packet.bytes.as_slice() == wanted.as_slice(),
        _ => false,
    }
}

/// A clock that gives these moments.
pub fn clock<A: Allocator>(rt: &impl Abort, alloc: A, seconds: &[u16]) -> ListClock<A> {
    let mut moments = Vec::new(alloc);
    for second in seconds {
        moments.push(at(rt, *second)).expect(rt, "memory");
    }
    ListClock::new(moments)
}

/// A port at which a question arrives, and which fails at one call; its record is kept in `alloc`.
pub fn port<A: Allocator + Copy>(
    rt: &impl Abort,
    alloc: A,
    ample: A,
    fail_at: Option<u64>,
) -> MemoryPort<A> {
    let mut arrivals = Vec::new(ample);
    arrivals
        .push(Some((addr(6001), octets(rt, ample, "question"))))
        .expect(rt, "memory");
    MemoryPort::new(alloc, arrivals, fail_at)
}

/// Compares a report with its counts: turns, datagrams received, packets sent, packets lost,
/// receives that failed, refusals, and steps that ran out of memory.
fn check_report(rt: &impl Abort, alloc: Global, report: Report, counts: &str) {
    let Report {
        turns,
        received,
        sent,
        lost,
        faults,
        refused,
        short,
    } = report;
    let output = format!(in alloc;
        "{turns} {received} {sent} {lost} {faults} {refused} {short}"
    ).expect(rt, "memory");
    assert_eq!(rt; output.as_str(), counts);
}

/// Whether a datagram has this other address, and these octets: a port and a name, as words.
fn is_moved<A: Allocator + Copy>(
    rt: &impl Abort,
    alloc: A,
    other: Addr,
    bytes: &Octets<A>,
    words: &str,
) -> bool {
    let (port, name) = words.split_once(' ').expect(rt, "a name");
    other == addr(number(rt, port)) && bytes.as_slice() == octets(rt, alloc, name).as_slice()
}

/// Whether a call of a port ended as words say: how, and of a datagram the port of its other
/// address, and its octets by name.
pub fn has_ended<A: Allocator + Copy>(
    rt: &impl Abort,
    alloc: A,
    note: &Note<A>,
    words: &str,
) -> bool {
    let (end, moved) = words.split_once(' ').unwrap_or((words, ""));
    match note {
        Note::Received(_, from, bytes) => {
            end == "received" && is_moved(rt, alloc, *from, bytes, moved)
        }
        Note::NoDatagram(_) => end == "nothing",
        Note::Fault(_) => end == "fault",
        Note::Sent(to, bytes) => end == "sent" && is_moved(rt, alloc, *to, bytes, moved),
        Note::Lost(to, bytes) => end == "lost" && is_moved(rt, alloc, *to, bytes, moved),
    }
}

/// Compares the first six calls of a port, and how they ended.
fn check_notes(rt: &impl Abort, alloc: Global, port: &MemoryPort, wanted: &str) {
    let notes = port.notes().expect(rt, "a record");
    let mut count = 0usize;
    for words in wanted.split(", ") {
        let note = notes.get(count).expect(rt, "a call");
        assert!(rt; has_ended(rt, alloc, note, words), "{words}");
        count = count.saturating_add(1);
    }
    assert_eq!(rt; count, notes.len().min(6));
}

/// The call that fails, 0 for none, and how many turns there are in which a question goes to each
/// upstream; the counts of their report; and the record of the port.
const FAILURES: &str = "\
0 3 => 3 1 3 0 0 0 0 : received 6001 question, sent 5301 query, nothing, sent 5302 query, nothing, sent 6001 failure
0 300 => 300 1 3 0 0 0 0 : received 6001 question, sent 5301 query, nothing, sent 5302 query, nothing, sent 6001 failure
1 3 => 3 1 2 0 1 0 0 : fault, received 6001 question, sent 5301 query, nothing, sent 5302 query
2 3 => 3 1 2 1 0 0 0 : received 6001 question, lost 5301 query, nothing, sent 5302 query, nothing, sent 6001 failure
3 3 => 3 1 3 0 1 0 0 : received 6001 question, sent 5301 query, fault, sent 5302 query, nothing, sent 6001 failure
4 3 => 3 1 2 1 0 0 0 : received 6001 question, sent 5301 query, nothing, lost 5302 query, nothing, sent 6001 failure
5 3 => 3 1 3 0 1 0 0 : received 6001 question, sent 5301 query, nothing, sent 5302 query, fault, sent 6001 failure
6 3 => 3 1 2 1 0 0 0 : received 6001 question, sent 5301 query, nothing, sent 5302 query, nothing, lost 6001 failure
7 3 => 3 1 3 0 0 0 0 : received 6001 question, sent 5301 query, nothing, sent 5302 query, nothing, sent 6001 failure
";

/// Serves turns at a port: from the moment 100 on, two seconds each, without sweeps, of a site that has
/// two upstreams.
fn serve_turns(rt: &impl Abort, alloc: Global, port: &mut MemoryPort, turns: u16) -> Report {
    let mut site = Site::new(alloc, config(rt, alloc, &[]));
    let mut clock = clock(rt, alloc, &[100, 102, 104]);
    let mut words = OneWord(0xabcd_1234);
    serve(port, &mut clock, &mut words, &mut site, u32::from(turns), 0)
}

/// Compares the report of turns where a call of their port fails, and the record.
fn check_turns(rt: &impl Abort, alloc: Global, port: &mut MemoryPort, turns: u16, row: &str) {
    let (counts, notes) = row.split_once(" : ").expect(rt, "a record");
    let report = serve_turns(rt, alloc, port, turns);
    let failed = report.lost.saturating_add(report.faults);
    assert_eq!(rt; port.failures(), failed, "{counts}");
    check_report(rt, alloc, report, counts);
    check_notes(rt, alloc, port, notes)
}

/// The same, of a row.
fn check_failure(rt: &impl Abort, alloc: Global, row: &str) {
    let (asked, row) = row.split_once(" => ").expect(rt, "counts");
    let (fail_at, turns) = asked.split_once(' ').expect(rt, "turns");
    let mut port = port(rt, alloc, alloc, Some(u64::from(number(rt, fail_at))));
    check_turns(rt, alloc, &mut port, number(rt, turns), row)
}

/// Allocates: `fleet_site`: `serve`. It counts a step that runs out of memory as short.
#[test]
fn a_call_that_fails_is_lost_or_a_fault(rt: HostRuntime) {
    for row in FAILURES.lines() {
        check_failure(&rt, rt.alloc(), row);
    }
}

/// A site takes the observation of a frame.
fn take(rt: &impl Abort, alloc: Global, site: &mut Site) {
    let frame = octets(rt, alloc, "frame-100");
    let outcome = site.frame(at(rt, 100), frame.as_slice());
    assert_eq!(rt; outcome.expect(rt, "an outcome").taken, 1);
}

/// Serves turns of a site with a sweep every 30 seconds.
fn check_sweeps(rt: &impl Abort, alloc: Global, port: &mut MemoryPort, site: &mut Site) {
    let mut clock = clock(rt, alloc, &[100, 129, 130, 159]);
    let mut words = OneWord(0xabcd_1234);
    let report = serve(port, &mut clock, &mut words, site, 4, 30);
    check_report(rt, alloc, report, "4 0 2 0 0 0 0");
    let notes = "nothing, nothing, nothing, sent 5401 frame-100, sent 5402 frame-100, nothing";
    check_notes(rt, alloc, port, notes)
}

/// Turns of a site that holds an observation.
#[test]
fn sweeps_go_to_each_peer_in_their_time(rt: HostRuntime) {
    let mut port = MemoryPort::new(rt.alloc(), Vec::new(rt.alloc()), None);
    let peers = [addr(5401), addr(5402)];
    let mut site = Site::new(rt.alloc(), config(&rt, rt.alloc(), &peers));
    take(&rt, rt.alloc(), &mut site);
    check_sweeps(&rt, rt.alloc(), &mut port, &mut site)
}
