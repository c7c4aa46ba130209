//! A port over a socket.

ghost use Rattle.std.specs.Prelude.{◌≡◌, ◌≤◌, [], ◌∷◌, IfOk, IfSome, length, Some};
ghost use Rattle.fleet_site.specs.server.PortRecord.{NotesAll, receive_of, send_of, failures_after};
ghost use Rattle.fleet_site.specs.socket.Bursts.{queued_in};
ghost use Rattle.fleet_site.specs.socket.Flow.{FlowsIfNoted};
ghost use Rattle.fleet_site.specs.socket.Parts.{data_of};

use crate::bursts::Bursts;
use crate::call_log::CallLog;
use crate::port::{Port, PortFault};
use crate::queued::{Drops, Queued};
use crate::socket::Socket;
use fleet_pending::Addr;
use std::alloc::{Allocator, Global};

/// A port over a socket, which takes in and sends in bursts, and tells a log each of its calls.
///
/// What both records say together, its ghost field `flows` says of every such port:
/// - A datagram that came is dropped only where others of its kind wait, frames or what is none, and
///   each is counted. All else that came was handed on or waits: once, unchanged but for the cut to the
///   buffer, and in order within its kind.
/// - Each receive hands on the first message that waits, and where none does the first frame. Where
///   nothing waits in the port, either way, it waits for one datagram, and no pause passes. Else no
///   receive of the socket waits, and a pause passes only while nothing that came waits. Where nothing
///   that came waits it listens, unless the system refuses a call. Each receive asks the socket for as
///   many octets as the port was asked for.
/// - Where something waits to be sent, a receive sends some of it, unless the burst has no room yet. It
///   goes out in its order, at most `BURST` between two pauses.
/// - A message is given to the socket in the call that sends it. A frame waits after those that wait,
///   or is given to the socket in that call too and counted; which of a sweep wait, `Window` says.
#[derive(Drop)]
pub struct BurstPort<S: Socket + Drop, L: CallLog + Drop, A: Allocator = Global> {
    bursts: Bursts<S, A>,
    log: L,
    pub ghost flows: { ∥ FlowsIfNoted (S.state bursts.socket).noted (L.noted log)
        (data_of (S.state bursts.socket) bursts) ∥₁ },
}

impl<S: Socket + Drop, L: CallLog + Drop, A: Allocator + Copy> BurstPort<S, L, A> {
    /// Makes a port over a socket of which nothing was asked yet, with a log that was told nothing; no
    /// call has failed. What comes from these peers and is longer than a message is a frame.
    pub fn new(socket: S, log: L, alloc: A, peers: Vec<Addr, A>) -> BurstPort<S, L, A>
        requires socket { IfSome (S.state socket).noted (λ calls. calls ≡ []) }
        requires log { IfSome (L.noted log) (λ calls. calls ≡ []) }
        ensures socket { result.bursts.socket ≡ socket }
        ensures log { result.log ≡ log }
        ensures peers { result.bursts.peers.items ≡ peers.items }
        ensures failed { result.bursts.failed ≡ 0 }
    {
        BurstPort {
            bursts: Bursts::new(socket, alloc, peers),
            log,
        }
    }

    /// The socket of a port.
    pub fn socket(&self) -> &S
        ensures { result.now ≡ self.now.bursts.socket }
    {
        self.bursts.socket()
    }

    /// The log of a port's calls.
    pub fn log(&self) -> &L
        ensures { result.now ≡ self.now.log }
    {
        &self.log
    }

    /// How many datagrams that came were dropped, since others of their kind waited and they found no
    /// room.
    pub fn dropped(&self) -> Drops
        ensures { result ≡ self.now.bursts.dropped }
    {
        self.bursts.dropped()
    }

    /// How many frames went out at once, since they found no room or no memory, or were left out so
    /// that others may wait.
    pub fn unpaced(&self) -> u64
        ensures { result ≡ self.now.bursts.unpaced }
    {
        self.bursts.unpaced()
    }

    /// How many datagrams wait in each queue of the port, and how many found no room.
    pub fn queued(&self) -> Queued
        ensures { result ≡ queued_in (data_of (S.state self.now.bursts.socket) self.now.bursts) }
    {
        self.bursts.queued()
    }

    /// Sends all that waits to be sent; what the system refuses is lost, and is counted as failed. No
    /// log is told of it.
    pub fn finish(&mut self)
        ensures sent { self.new.bursts.leaving.waiting ≡ [] }
        ensures log { self.new.log ≡ self.old.log }
    {
        self.bursts.finish();
    }
}

impl<S: Socket + Drop, L: CallLog + Drop, A: Allocator + Copy> Port for BurstPort<S, L, A> {
    /// It keeps the record that its log keeps.
    ghost state = { λ p. record { noted = L.noted p.log; failed = p.bursts.failed } };

    // Lets through: other numbers of its queues than the log is told. The tested body
    // `log_is_told_of_no_queue` tells of none; the test `a_log_is_told_what_waits` sees it.
    fn recv(&mut self, buffer: &mut [u8]) -> Result<Option<(Addr, usize)>, PortFault> {
        let got = self.bursts.recv(buffer);
        let queued = self.bursts.queued();
        self.log.note_receive(got, buffer, queued);
        got
    }

    fn send(&mut self, to: Addr, bytes: &[u8]) -> Result<(), PortFault> {
        let sent = self.bursts.send(to, bytes);
        self.log.note_send(sent, to, bytes);
        sent
    }

    fn failures(&self) -> u64 {
        self.bursts.failures()
    }
}
