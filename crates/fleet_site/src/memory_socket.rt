//! A socket in memory.

ghost use Rattle.std.specs.Prelude.{◌≡◌, ◌≤◌, ◌∷◌, [], IfOk, IfSome, length, is_ok, true, false, Some, None, MatchOption, map};
ghost use Rattle.fleet_site.specs.socket.SocketRecord.{Called, HasNoted, Came, Sent, Unsent, Switched, ClockRead, Paused, arrival_of, departure_of, nanos_of};
ghost use Rattle.fleet_site.specs.socket.MemorySocket.{entry_of, record_of, state_of};

use crate::bursts::PAUSE;
use crate::port::PortFault;
use crate::socket::Socket;
use fleet_name::Octets;
use fleet_pending::Addr;
use std::alloc::{Allocator, Global};
use std::collections::VecDeque;
use std::time::Duration;

/// A call of a socket, and how it ended. A receive has whether it waited, and how many octets were
/// asked for.
#[derive(Drop)]
pub enum SocketNote<A: Allocator = Global> {
    /// A datagram came: its source, and its octets, cut to those asked for.
    Came(bool, usize, Addr, Octets<A>),
    /// No datagram came.
    NoneCame(bool, usize),
    /// A receive failed.
    Failed(bool, usize),
    /// A datagram was sent.
    Sent(Addr, Octets<A>),
    /// A datagram was refused.
    Unsent(Addr, Octets<A>),
    /// The clock was read.
    ClockRead(Option<Duration>),
    /// A pause passed.
    Paused,
    /// Receives were to wait from then on, or not to, and whether they do so.
    Switched(bool, bool),
}

/// A socket in memory, for tests: it gives one arrival for each receive, and keeps a record of its
/// calls, as long as there is memory for it. Its clock moves by pauses alone.
#[derive(Drop)]
pub struct MemorySocket<A: Allocator = Global> {
    alloc: A,
    arrivals: VecDeque<Option<(Addr, Octets<A>)>, A>,
    waits: bool,
    time: Duration,
    refused: Option<Addr>,
    is_noting: bool,
    notes: Vec<SocketNote<A>, A>,
}

impl<A: Allocator + Copy> MemorySocket<A> {
    /// Makes a socket that gives these arrivals in order, `None` for no datagram, and then none. It
    /// refuses what is sent to one address.
    pub fn new(
        alloc: A,
        arrivals: Vec<Option<(Addr, Octets<A>)>, A>,
        refused: Option<Addr>,
    ) -> MemorySocket<A>
        ensures arrivals { result.arrivals.items ≡ arrivals.items }
        ensures noted { record_of result ≡ Some [] }
    {
        MemorySocket {
            alloc,
            arrivals: VecDeque::from(arrivals),
            waits: true,
            time: Duration::ZERO,
            refused,
            is_noting: true,
            notes: Vec::new(alloc),
        }
    }

    /// The record of a socket, while it keeps one.
    pub fn notes(&self) -> Option<&[SocketNote<A>]>
        ensures { MatchOption result (record_of self.now ≡ None)
            (λ notes. record_of self.now ≡ Some (map entry_of notes.now)) }
    {
        if self.is_noting {
            Some(self.notes.as_slice())
        } else {
            None
        }
    }

    // Lets through: a socket that stops noting. The test `a_port_over_a_socket_works_in_bursts`, which
    // compares what a socket was asked, fails then.
    /// Keeps a note, or keeps no record from now on.
    fn note(&mut self, note: SocketNote<A>)
        ensures noted { HasNoted (record_of self.old) (entry_of note ∷ []) (record_of self.new) }
        ensures waits { self.new.waits ≡ self.old.waits }
    {
        if self.is_noting {
            self.is_noting = self.notes.push(note).is_ok();
        }
    }

    /// Keeps a note of a datagram that came.
    fn note_came(&mut self, asked: usize, from: Addr, octets: &[u8])
        ensures noted { HasNoted (record_of self.old)
            (Came self.old.waits asked from octets.now ∷ []) (record_of self.new) }
        ensures waits { self.new.waits ≡ self.old.waits }
    {
        match Octets::copy_of(self.alloc, octets) {
            Ok(octets) => self.note(SocketNote::Came(self.waits, asked, from, octets)),
            Err(_) => self.is_noting = false,
        }
    }

    /// Keeps a note of a datagram that was sent, or refused.
    fn note_send(&mut self, is_refused: bool, to: Addr, octets: &[u8])
        ensures sent { is_refused ≡ false → HasNoted (record_of self.old)
            (Sent (record { to = to; octets = octets.now }) ∷ []) (record_of self.new) }
        ensures refused { is_refused ≡ true → HasNoted (record_of self.old)
            (Unsent (record { to = to; octets = octets.now }) ∷ []) (record_of self.new) }
        ensures waits { self.new.waits ≡ self.old.waits }
    {
        match Octets::copy_of(self.alloc, octets) {
            Ok(octets) if is_refused => self.note(SocketNote::Unsent(to, octets)),
            Ok(octets) => self.note(SocketNote::Sent(to, octets)),
            Err(_) => self.is_noting = false,
        }
    }
}

impl<A: Allocator + Copy> Socket for MemorySocket<A> {
    ghost state = { λ s. state_of s };

    fn is_waiting(&self) -> bool {
        self.waits
    }

    fn set_waiting(&mut self, waits: bool) -> Result<(), PortFault> {
        self.note(SocketNote::Switched(waits, true));
        self.waits = waits;
        Ok(())
    }

    fn receive(&mut self, buffer: &mut [u8]) -> Result<Option<(Addr, usize)>, PortFault> {
        match self.arrivals.pop_front() {
            Some(Some((from, octets))) => {
                let len = octets.as_slice().len().min(buffer.len());
                buffer[..len].copy_from_slice(&octets.as_slice()[..len]);
                self.note_came(buffer.len(), from, &buffer[..len]);
                Ok(Some((from, len)))
            }
            _ => {
                self.note(SocketNote::NoneCame(self.waits, buffer.len()));
                Ok(None)
            }
        }
    }

    fn send(&mut self, to: Addr, bytes: &[u8]) -> Result<(), PortFault> {
        let is_refused = self.refused == Some(to);
        self.note_send(is_refused, to, bytes);
        if is_refused {
            return Err(PortFault);
        }
        Ok(())
    }

    fn time(&mut self) -> Option<Duration> {
        let time = self.time;
        self.note(SocketNote::ClockRead(Some(time)));
        Some(time)
    }

    fn pause(&mut self) {
        self.note(SocketNote::Paused);
        self.time = self.time.saturating_add(Duration::from_millis(PAUSE));
    }
}
