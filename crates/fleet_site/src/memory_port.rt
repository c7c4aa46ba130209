//! A port over memory.

ghost use Rattle.std.specs.Prelude.{◌≡◌, ◌↔◌, ◌≤◌, ◌∷◌, [], IsTrue, true, false, None, Some, Ok, IfOk, IfSome, length, MatchOption, map};
ghost use Rattle.fleet_site.specs.server.PortRecord.{PacketSent, PacketLost, NotesAll, receive_of, send_of, failures_after, one_more};
ghost use Rattle.fleet_site.specs.server.MemoryPort.{call_of, record_of, Arrives, Gives, IsCall, NotesAlone, one_call_fewer};

use crate::port::{Port, PortFault};
use fleet_name::Octets;
use fleet_pending::Addr;
use std::alloc::{Allocator, Global};
use std::collections::VecDeque;

/// A call of a port, and how it ended. A receive has the number of octets that were asked for.
#[derive(Drop)]
pub enum Note<A: Allocator = Global> {
    /// A datagram was received into that many octets: its source, and its octets, cut to them.
    Received(usize, Addr, Octets<A>),
    /// No datagram came.
    NoDatagram(usize),
    /// A receive failed.
    Fault(usize),
    /// A packet was sent.
    Sent(Addr, Octets<A>),
    /// A packet was lost.
    Lost(Addr, Octets<A>),
}

/// A port over memory, for tests: it gives one arrival for each receive, and keeps a record of its
/// calls. A call whose note finds no memory fails, and uses up no arrival; from then on there is no
/// record, and later calls need no memory.
#[derive(Drop)]
pub struct MemoryPort<A: Allocator = Global> {
    alloc: A,
    arrivals: VecDeque<Option<(Addr, Octets<A>)>, A>,
    fails_in: Option<u64>,
    is_noting: bool,
    notes: Vec<Note<A>, A>,
    failed: u64,
}

impl<A: Allocator + Copy> MemoryPort<A> {
    /// Makes a port that gives these arrivals in order, `None` for no datagram, and then none. It fails
    /// at its call with the number `fail_at`, counted from 1, without using up an arrival, and at no
    /// other but where one can't be noted; 0 is none.
    pub fn new(
        alloc: A,
        arrivals: Vec<Option<(Addr, Octets<A>)>, A>,
        fail_at: Option<u64>,
    ) -> MemoryPort<A>
        ensures arrivals { result.arrivals.items ≡ arrivals.items }
        ensures fail_at { result.fails_in ≡ fail_at }
        ensures failed { result.failed ≡ 0 }
        ensures noted { record_of result ≡ Some [] }
    {
        MemoryPort {
            alloc,
            arrivals: VecDeque::from(arrivals),
            fails_in: fail_at,
            is_noting: true,
            notes: Vec::new(alloc),
            failed: 0,
        }
    }

    /// The record of a port, while it keeps one.
    pub fn notes(&self) -> Option<&[Note<A>]>
        ensures { MatchOption result (record_of self.now ≡ None)
            (λ notes. record_of self.now ≡ Some (map call_of notes.now)) }
    {
        if self.is_noting {
            Some(self.notes.as_slice())
        } else {
            None
        }
    }

    /// Counts down to the call that is to fail; whether this one is it.
    fn begin(&mut self) -> bool
        ensures fails { IsTrue result ↔ (self.old.fails_in ≡ Some 1) }
        ensures begun { self.new ≡ record self.old {
          fails_in = one_call_fewer self.old.fails_in;
        } }
    {
        let fails = self.fails_in == Some(1);
        self.fails_in = match self.fails_in {
            Some(left) if left > 1 => Some(left - 1),
            _ => None,
        };
        fails
    }

    /// Keeps a note, or keeps no record from now on.
    fn note(&mut self, note: Note<A>) -> bool
        ensures noted { NotesAll (record_of self.old) (call_of note ∷ []) (record_of self.new) }
        ensures rest { NotesAlone self.old self.new result }
    {
        if !self.is_noting {
            return true;
        }
        self.is_noting = self.notes.push(note).is_ok();
        self.is_noting
    }

    /// Keeps a note of what a receive gave.
    fn note_arrival(&mut self, got: Option<(Addr, usize)>, buffer: &[u8]) -> bool
        requires { IfSome got (λ p. p.1 ≤ length buffer.now) }
        ensures noted { NotesAll (record_of self.old)
            (receive_of (length buffer.now) (Ok got) buffer.now ∷ []) (record_of self.new) }
        ensures rest { NotesAlone self.old self.new result }
    {
        let asked = buffer.len();
        let note = match got {
            None => Note::NoDatagram(asked),
            Some((from, len)) => match Octets::copy_of(self.alloc, &buffer[..len]) {
                Ok(octets) => Note::Received(asked, from, octets),
                Err(_) => return self.fall_silent(),
            },
        };
        self.note(note)
    }

    /// Keeps a note of a packet that was sent, or was lost.
    fn note_send(&mut self, is_lost: bool, to: Addr, bytes: &[u8]) -> bool
        ensures sent { is_lost ≡ false → NotesAll (record_of self.old)
            (PacketSent (record { to = to; octets = bytes.now }) ∷ []) (record_of self.new) }
        ensures lost { is_lost ≡ true → NotesAll (record_of self.old)
            (PacketLost (record { to = to; octets = bytes.now }) ∷ []) (record_of self.new) }
        ensures rest { NotesAlone self.old self.new result }
    {
        match Octets::copy_of(self.alloc, bytes) {
            Ok(octets) if is_lost => self.note(Note::Lost(to, octets)),
            Ok(octets) => self.note(Note::Sent(to, octets)),
            Err(_) => self.fall_silent(),
        }
    }

    /// Keeps no record from now on; whether it kept none before.
    fn fall_silent(&mut self) -> bool
        ensures noted { record_of self.new ≡ None }
        ensures rest { NotesAlone self.old self.new result }
    {
        let was_noting = self.is_noting;
        self.is_noting = false;
        !was_noting
    }

    /// Counts a call that failed.
    fn fail(&mut self) -> PortFault
        ensures { self.new ≡ record self.old { failed = one_more self.old.failed } }
    {
        self.failed = self.failed.saturating_add(1);
        PortFault
    }

    /// Copies the arrival whose turn it is to the buffer.
    fn arrive(&self, buffer: &mut [u8]) -> Option<(Addr, usize)>
        ensures within { IfSome result (λ p. p.1 ≤ length buffer.old) }
        ensures arrives { Arrives (length buffer.old) self.now.arrivals.items result buffer.new }
    {
        match self.arrivals.front() {
            Some(Some((from, octets))) => {
                let octets = octets.as_slice();
                let len = octets.len().min(buffer.len());
                buffer[..len].copy_from_slice(&octets[..len]);
                Some((*from, len))
            }
            _ => None,
        }
    }
}

impl<A: Allocator + Copy> Port for MemoryPort<A> {
    ghost state = { λ p. record { noted = record_of p; failed = p.failed } };

    // Lets through: not noting a call that was to fail, so that there is no record any more; so may
    // `send`. The tested body `port_falls_silent_after_a_failure` does so; the test
    // `a_call_that_fails_is_lost_or_a_fault` sees it.
    fn recv(&mut self, buffer: &mut [u8]) -> Result<Option<(Addr, usize)>, PortFault>
        ensures within { IfOk result (λ got. IfSome got (λ p. p.1 ≤ length buffer.old)) }
        ensures noted { NotesAll (record_of self.old)
            (receive_of (length buffer.old) result buffer.new ∷ []) (record_of self.new) }
        ensures failed { self.new.failed ≡ failures_after result self.old.failed }
        ensures call { IsCall self.old self.new result }
        ensures gives { Gives (length buffer.old) self.old.arrivals.items result buffer.new
            self.new.arrivals.items }
    {
        if self.begin() {
            self.note(Note::Fault(buffer.len()));
            return Err(self.fail());
        }
        let got = self.arrive(buffer);
        if !self.note_arrival(got, buffer) {
            return Err(self.fail());
        }
        self.arrivals.pop_front();
        Ok(got)
    }

    fn send(&mut self, to: Addr, bytes: &[u8]) -> Result<(), PortFault>
        ensures noted { NotesAll (record_of self.old)
            (send_of result (record { to = to; octets = bytes.now }) ∷ []) (record_of self.new) }
        ensures failed { self.new.failed ≡ failures_after result self.old.failed }
        ensures call { IsCall self.old self.new result }
        ensures arrivals { self.new.arrivals.items ≡ self.old.arrivals.items }
    {
        let fails = self.begin();
        let noted = self.note_send(fails, to, bytes);
        if fails || !noted {
            return Err(self.fail());
        }
        Ok(())
    }

    fn failures(&self) -> u64 {
        self.failed
    }
}
