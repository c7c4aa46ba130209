//! The record that a port keeps of its calls.

ghost use Rattle.std.specs.Prelude.{◌≡◌, ◌≤◌, [], ◌∷◌, Option, Some, None, List, IfOk, IfSome, MatchOption, length, map};
ghost use Rattle.fleet_site.specs.server.PortRecord.{PortCall, NotesAll, receive_of, send_of};
ghost use Rattle.fleet_site.specs.server.MemoryPort.{call_of, record_of_notes};

use crate::memory_port::Note;
use crate::port::PortFault;
use crate::queued::Queued;
use fleet_name::Octets;
use fleet_pending::Addr;
use std::alloc::{Allocator, Global};

/// What is told each call of a port as it ends.
pub trait CallLog {
    /// The calls that it was told, while it keeps them all.
    ghost noted: { Self → Option (List PortCall) };

    /// Notes that a receive ended, into a buffer that now holds these octets, and left the port's
    /// queues so.
    fn note_receive(
        &mut self,
        got: Result<Option<(Addr, usize)>, PortFault>,
        buffer: &[u8],
        queued: Queued,
    )
        requires { IfOk got (λ got. IfSome got (λ p. p.1 ≤ length buffer.now)) }
        ensures { NotesAll (noted self.old) (receive_of (length buffer.now) got buffer.now ∷ [])
            (noted self.new) };

    /// Notes that a send ended.
    fn note_send(&mut self, sent: Result<(), PortFault>, to: Addr, bytes: &[u8])
        ensures { NotesAll (noted self.old)
            (send_of sent (record { to = to; octets = bytes.now }) ∷ []) (noted self.new) };
}

/// A log that keeps no record.
#[derive(Drop)]
pub struct Unnoted;

impl CallLog for Unnoted {
    ghost noted = { λ _. None };

    fn note_receive(
        &mut self,
        _got: Result<Option<(Addr, usize)>, PortFault>,
        _buffer: &[u8],
        _queued: Queued,
    ) {}

    fn note_send(&mut self, _sent: Result<(), PortFault>, _to: Addr, _bytes: &[u8]) {}
}

/// A record in memory, for tests, as long as there is memory for it.
#[derive(Drop)]
pub struct MemoryLog<A: Allocator = Global> {
    alloc: A,
    is_noting: bool,
    notes: Vec<Note<A>, A>,
}

impl<A: Allocator + Copy> MemoryLog<A> {
    /// Makes a log in which nothing is noted.
    pub fn new(alloc: A) -> MemoryLog<A>
        ensures { record_of_notes result.is_noting result.notes.items ≡ Some [] }
    {
        MemoryLog {
            alloc,
            is_noting: true,
            notes: Vec::new(alloc),
        }
    }

    /// The record of a log, while it keeps one.
    pub fn notes(&self) -> Option<&[Note<A>]>
        ensures { MatchOption result
            (record_of_notes self.now.is_noting self.now.notes.items ≡ None)
            (λ notes. record_of_notes self.now.is_noting self.now.notes.items
            ≡ Some (map call_of notes.now)) }
    {
        if self.is_noting {
            Some(self.notes.as_slice())
        } else {
            None
        }
    }

    // Lets through: a log that stops noting. Its port then keeps no record from there on, and the test
    // `a_port_over_a_socket_notes_its_calls`, which compares logs, fails.
    /// Keeps a note, or keeps no record from now on.
    fn note(&mut self, note: Note<A>)
        ensures { NotesAll (record_of_notes self.old.is_noting self.old.notes.items)
            (call_of note ∷ []) (record_of_notes self.new.is_noting self.new.notes.items) }
    {
        if self.is_noting {
            self.is_noting = self.notes.push(note).is_ok();
        }
    }
}

impl<A: Allocator + Copy> CallLog for MemoryLog<A> {
    ghost noted = { λ log. record_of_notes log.is_noting log.notes.items };

    fn note_receive(
        &mut self,
        got: Result<Option<(Addr, usize)>, PortFault>,
        buffer: &[u8],
        _queued: Queued,
    ) {
        let asked = buffer.len();
        match got {
            Err(_) => self.note(Note::Fault(asked)),
            Ok(None) => self.note(Note::NoDatagram(asked)),
            Ok(Some((from, len))) => match Octets::copy_of(self.alloc, &buffer[..len]) {
                Ok(octets) => self.note(Note::Received(asked, from, octets)),
                Err(_) => self.is_noting = false,
            },
        }
    }

    fn note_send(&mut self, sent: Result<(), PortFault>, to: Addr, bytes: &[u8]) {
        match Octets::copy_of(self.alloc, bytes) {
            Ok(octets) if sent.is_ok() => self.note(Note::Sent(to, octets)),
            Ok(octets) => self.note(Note::Lost(to, octets)),
            Err(_) => self.is_noting = false,
        }
    }
}
