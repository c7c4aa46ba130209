//! A server with one allocation refused: it counts one step as short, or one call of the port as
//! lost or as a fault, and serves on.

use crate::tests::octets::octets;
use crate::tests::refused::MANY;
use crate::tests::refusing::Refusing;
use crate::tests::sites::{addr, at, config};
use crate::tests::turns::{OneWord, clock, has_ended, is_sending, port};
use fleet_site::{MemoryPort, Note, Port, Report, Site, serve};
use std::alloc::{Allocator, Global};
use std::process::Abort;

/// What is sent, in order.
const SENT: &str = "sent 5301 query, sent 5302 query, sent 6001 failure";

/// What three turns may count where the datagram came in.
fn report_of(sent: u64, lost: u64, faults: u64, short: u64) -> Report {
    Report {
        turns: 3,
        received: 1,
        sent,
        lost,
        faults,
        refused: 0,
        short,
    }
}

/// Checks that a port sent the first of `SENT`, this number of them.
fn check_sent<A: Allocator + Copy>(rt: &impl Abort, ample: A, notes: &[Note<A>], count: u64) {
    let mut wanted = SENT.split(", ");
    let mut sent = 0u64;
    for note in notes {
        if matches!(note, Note::Sent(_, _)) {
            assert!(rt; has_ended(rt, ample, note, wanted.next().unwrap_or("")));
            sent = sent.saturating_add(1);
        }
    }
    assert_eq!(rt; sent, count);
}

/// Checks that a site holds nothing after its turns, and its clock.
fn check_site<A: Allocator + Copy>(rt: &impl Abort, site: &Site<A>) {
    assert!(rt; site.cache().is_empty());
    assert_eq!(rt; site.cache().floor(), site.clock());
    assert_eq!(rt; site.clock().value(), 104);
}

/// Checks that a report has one failure, or none; and what a port counted, and noted if it still has
/// its record.
fn check_turns<A: Allocator + Copy>(
    rt: &impl Abort,
    ample: A,
    port: &MemoryPort<A>,
    report: &Report,
) {
    let failed = report.lost.saturating_add(report.faults);
    let refused = failed.saturating_add(report.short);
    let wanted = u64::from(*report != report_of(3, 0, 0, 0));
    assert_eq!(rt; refused, wanted, "{report:?}");
    assert_eq!(rt; port.failures(), failed);
    assert_eq!(rt; port.notes().is_none(), failed > 0);
    if let Some(notes) = port.notes() {
        check_sent(rt, ample, notes, report.sent);
    }
}

/// Checks what a site has due after its turns: where a query went out and its failure did not, that
/// failure at 106, and else nothing.
fn check_due<A: Allocator + Copy>(rt: &impl Abort, ample: A, site: &mut Site<A>, sent: u64) {
    let outcome = site.tick(at(rt, 106)).expect(rt, "memory");
    assert!(rt; !outcome.more);
    if sent == 2 {
        assert!(rt; is_sending(rt, ample, &outcome, 6001, "failure"));
    } else {
        assert!(rt; outcome.packets.as_slice().is_empty());
    }
}

/// Checks that the question is as new to a site.
fn check_new<A: Allocator + Copy>(rt: &impl Abort, ample: A, site: &mut Site<A>) {
    let question = octets(rt, ample, "question");
    let outcome = site
        .datagram(at(rt, 106), addr(6001), question.as_slice(), 0x1234)
        .expect(rt, "memory");
    assert!(rt; is_sending(rt, ample, &outcome, 5301, "query"));
}

/// Serves three turns of a site at a port, and says what was counted.
fn serve_site<A: Allocator + Copy>(
    rt: &impl Abort,
    ample: A,
    port: &mut MemoryPort<A>,
    site: &mut Site<A>,
) -> Report {
    let mut clock = clock(rt, ample, &[100, 102, 104]);
    let mut words = OneWord(0xabcd_1234);
    let report = serve(port, &mut clock, &mut words, site, 3, 0);
    check_turns(rt, ample, port, &report);
    check_site(rt, site);
    if report.short > 0 {
        check_due(rt, ample, site, report.sent);
        check_new(rt, ample, site);
    }
    report
}

/// The same, of a new site.
fn serve_new_site<A: Allocator + Copy>(
    rt: &impl Abort,
    ample: A,
    alloc: A,
    port: &mut MemoryPort<A>,
) -> Report {
    let mut site = Site::new(alloc, config(rt, ample, &[]));
    serve_site(rt, ample, port, &mut site)
}

/// The same, at a new port.
fn serve_new_port<A: Allocator + Copy>(rt: &impl Abort, ample: A, alloc: A) -> Report {
    let mut port = port(rt, alloc, ample, None);
    serve_new_site(rt, ample, alloc, &mut port)
}

/// The same with a call refused; says what was counted, and whether there was such a call. Nothing
/// is counted of the buffer for replies, which is done without.
fn serve_refused(rt: &impl Abort, alloc: Global, call: u64) -> (Report, bool) {
    let ample = Refusing::after(alloc, 0);
    let refusing = Refusing::after(alloc, call);
    let report = serve_new_port(rt, &ample, &refusing);
    (report, refusing.has_refused())
}

#[test]
fn a_server_counts_what_found_no_memory(rt: HostRuntime) {
    // A step is refused (the question, or a tick), a send is not noted, or a receive is not: that
    // of the question, which then comes a turn later, or another.
    let short_reports = [
        report_of(0, 0, 0, 1),
        report_of(2, 0, 0, 1),
        report_of(2, 1, 0, 0),
        report_of(2, 0, 1, 0),
        report_of(3, 0, 1, 0),
    ];
    let mut met = [false; 5];
    let mut without_buffer = false;
    for call in 1..MANY {
        let (report, has_refused) = serve_refused(&rt, rt.alloc(), call);
        if !has_refused {
            assert_eq!(rt; report, report_of(3, 0, 0, 0));
            assert_eq!(rt; met, [true; 5]);
            assert!(rt; without_buffer);
            return;
        }
        if report == report_of(3, 0, 0, 0) {
            assert!(rt; !without_buffer);
            without_buffer = true;
            continue;
        }
        assert!(rt; short_reports.contains(&report), "{report:?}");
        for (short, met) in short_reports.iter().zip(&mut met) {
            *met = *met || *short == report;
        }
    }
    panic!(rt; "refused each time");
}
