//! A site that is watched while it serves: lines of what went through its port.

ghost use Rattle.std.specs.Prelude.{◌≡◌, [], IfSome, None};
ghost use Rattle.fleet_program.specs.Counting.{IsCountOf};
ghost use Rattle.fleet_program.specs.steps.Tallying.{IsTurnOf, counted_in, none_counted};

use crate::tally::Tally;
use fleet_pending::Addr;
use fleet_site::{CallLog, Drops, PortFault, Queued, Unnoted};
use std::io;
use std::time::{self, Duration};

/// Lines that could not be written.
#[derive(Clone, Copy)]
struct Unwritten {
    /// How many there are.
    lines: u64,
    /// Whether the last line is one. A part of it may stand there.
    is_last: bool,
}

impl Unwritten {
    // Lets through: any number, and any answer to whether the last line is one. The tested body
    // `unwritten_lines_are_not_counted` counts none; a case of `tests/run` (`test_reports`) sees both.
    /// Notes whether a line was written.
    fn note(&mut self, is_written: bool) {
        if !is_written {
            self.lines = self.lines.saturating_add(1);
        }
        self.is_last = !is_written;
    }
}

/// A log that counts what goes through a port, and prints a line of its counts whenever some time has
/// passed. Lines that could not be written are counted in the next, which begins with a line feed.
#[derive(Drop)]
pub struct Watch<'a, C: time::Clock, O: Print, L: CallLog + Drop> {
    log: L,
    tally: Tally,
    clock: &'a C,
    out: &'a O,
    every: Duration,
    due: Option<Duration>,
    datagrams: u8,
    unwritten: Unwritten,
    pub ghost counted: { ∥ IsCountOf tally.upstreams.items tally.peers.items (L.noted log)
        tally.counts ∥₁ },
    ghost kept: { ∥ IsTurnOf tally.upstreams.items tally.peers.items (L.noted log)
        tally.turn ∥₁ },
}

impl<'a, C: time::Clock, O: Print, L: CallLog + Drop> Watch<'a, C, O, L> {
    // Lets through: another time than it is given. Sessions of `tests/run` see it.
    /// Watches a port through which nothing went yet, for a log that was told nothing. The first line
    /// is due after some time, and each other one as long after the one before.
    pub fn new(
        log: L,
        tally: Tally,
        clock: &'a C,
        out: &'a O,
        every: Duration,
    ) -> Watch<'a, C, O, L>
        requires log { IfSome (L.noted log) (λ calls. calls ≡ []) }
        requires tally { counted_in tally ≡ none_counted }
        ensures log { result.log ≡ log }
    {
        let due = clock.monotonic().ok().map(|now| now.saturating_add(every));
        Watch {
            log,
            tally,
            clock,
            out,
            every,
            due,
            datagrams: 0,
            unwritten: Unwritten {
                lines: 0,
                is_last: false,
            },
        }
    }

    // Lets through: any text. The tested bodies `line_exchanges_what_is_dropped` and
    // `line_follows_a_part_of_one` are such; cases of `tests/run` (`test_reports`) see them, the keys, and
    // most of the counts.
    /// Prints a line of what was counted so far, and of what waits in the port.
    pub fn print(&self, queued: Queued) -> io::Result<()> {
        let counts = self.tally.counts();
        let Unwritten { lines, is_last } = self.unwritten;
        let start = if is_last { "\n" } else { "" };
        let Queued {
            messages,
            frames,
            leaving,
            dropped,
            unpaced,
        } = queued;
        let (messages_dropped, frames_dropped) = (dropped.messages, dropped.frames);
        println!(self.out;
            "{start}{counts} messages-waiting {messages} messages-dropped {messages_dropped} frames-waiting {frames} frames-dropped {frames_dropped} frames-leaving {leaving} unpaced {unpaced} unwritten {lines}"
        )
    }

    // Lets through: no look, or one at each datagram. The tested body `no_look_at_datagrams` looks only
    // where none came; a case of `tests/run` (`test_reports`) sees it.
    /// Looks at the clock once a receive ended, if it gave no datagram, or each 256th one. Prints a line
    /// where one is due.
    fn look(&mut self, got: Result<Option<(Addr, usize)>, PortFault>, queued: Queued)
        ensures { self.new ≡ record self.old {
          due = self.new.due;
          unwritten = self.new.unwritten;
        } }
    {
        if !is_datagram(got) || self.datagrams == u8::MAX {
            let Queued {
                messages,
                frames,
                leaving,
                dropped,
                unpaced,
            } = queued;
            self.print_if_due(messages, frames, leaving, dropped, unpaced);
        }
    }

    // Lets through: any time of a line, and none. The tested body `lines_come_at_once` prints one at each
    // look; a case of `tests/run` (`test_reports`) sees it.
    /// Prints a line where one is due. Where the clock can't be read, none is. What waits comes as
    /// numbers, so that a hit does not read them.
    fn print_if_due(
        &mut self,
        messages: usize,
        frames: usize,
        leaving: usize,
        dropped: Drops,
        unpaced: u64,
    )
        ensures { self.new ≡ record self.old {
          due = self.new.due;
          unwritten = self.new.unwritten;
        } }
    {
        let Ok(now) = self.clock.monotonic() else {
            return;
        };
        let due = self.due.unwrap_or(now);
        if now < due {
            return;
        }
        let next = due.saturating_add(self.every);
        self.due = Some(if next > now {
            next
        } else {
            now.saturating_add(self.every)
        });
        let queued = Queued {
            messages,
            frames,
            leaving,
            dropped,
            unpaced,
        };
        let is_written = self.print(queued).is_ok();
        self.unwritten.note(is_written);
    }
}

impl<'a, C: time::Clock, O: Print, L: CallLog + Drop> CallLog for Watch<'a, C, O, L> {
    /// It keeps the record that its log keeps.
    ghost noted = { λ w. L.noted w.log };

    fn note_receive(
        &mut self,
        got: Result<Option<(Addr, usize)>, PortFault>,
        buffer: &[u8],
        queued: Queued,
    ) {
        self.look(got, queued);
        self.log.note_receive(got, buffer, queued);
        self.tally.note_receive(got, buffer);
        if is_datagram(got) {
            self.datagrams = self.datagrams.wrapping_add(1);
        }
    }

    fn note_send(&mut self, sent: Result<(), PortFault>, to: Addr, bytes: &[u8]) {
        self.log.note_send(sent, to, bytes);
        self.tally.note_send(sent, to, bytes);
    }
}

/// The log of a server: it is silent, or watches. It is one type for both, so that the program has one
/// `serve`, into which the way of a hit is compiled as a whole.
#[derive(Drop)]
pub enum ServerLog<'a, C: time::Clock, O: Print> {
    /// It does nothing.
    Silent,
    /// It counts, and prints lines. Its log keeps no record, so `counted` says nothing by itself: it is
    /// proved of a watch over every log.
    Watched(Watch<'a, C, O, Unnoted>),
}

impl<'a, C: time::Clock, O: Print> ServerLog<'a, C, O> {
    /// Prints the last line, if it watches. It may be lost.
    pub fn print_last(&self, queued: Queued) {
        if let ServerLog::Watched(watch) = self {
            let _ = watch.print(queued);
        }
    }
}

// Lets through: telling its watch of no call. Cases of `tests/run` (`test_reports`) see it.
impl<'a, C: time::Clock, O: Print> CallLog for ServerLog<'a, C, O> {
    /// It keeps no record. So of the calls of a port with this log the clauses say nothing by
    /// themselves: they are proved of the same functions over every log.
    ghost noted = { λ _. None };

    fn note_receive(
        &mut self,
        got: Result<Option<(Addr, usize)>, PortFault>,
        buffer: &[u8],
        queued: Queued,
    ) {
        if let ServerLog::Watched(watch) = self {
            watch.note_receive(got, buffer, queued);
        }
    }

    fn note_send(&mut self, sent: Result<(), PortFault>, to: Addr, bytes: &[u8]) {
        // One outcome after the other, so that a silent server looks once.
        match sent {
            Ok(()) => {
                if let ServerLog::Watched(watch) = self {
                    watch.note_send(Ok(()), to, bytes);
                }
            }
            Err(fault) => {
                if let ServerLog::Watched(watch) = self {
                    watch.note_send(Err(fault), to, bytes);
                }
            }
        }
    }
}

// Lets through: any answer, which says only when the clock is looked at. Cases of `tests/run`
// (`test_reports`) see when lines come.
/// Whether a receive gave a datagram.
fn is_datagram(got: Result<Option<(Addr, usize)>, PortFault>) -> bool {
    matches!(got, Ok(Some(_)))
}
