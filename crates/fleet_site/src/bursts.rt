//! A port over a socket, which takes in and sends in bursts.

ghost use Rattle.std.specs.Prelude.{◌≡◌, ◌↔◌, ◌≤◌, ◌<◌, nat_le, [], ◌∷◌, IsTrue, true, false, IfOk, IfSome, length, take, Ok, None};
ghost use Rattle.fleet_site.specs.server.PortRecord.{failures_after, one_more};
ghost use Rattle.fleet_site.specs.socket.SocketRecord.{Called, Switched, ClockRead, Paused, arrival_of, departure_of, nanos_of};
ghost use Rattle.fleet_site.specs.socket.Window.{whole_window};
ghost use Rattle.fleet_site.specs.socket.Waiting.{is_frame, no_drops};
ghost use Rattle.fleet_site.specs.socket.Inbox.{HasRoom};
ghost use Rattle.fleet_site.specs.socket.Bursts.{IsIdle, queued_in, KeepsOrDrops, ReadsClock, Worked, HasWorked, Receives, SendsOrKeeps, SentSome, SentOn, Switches, TakesThenHandsOn, TookAll, WorksThenHandsOn, joined, turn_begun};
ghost use Rattle.std.specs.Duration.{as_nanos};
ghost use Rattle.fleet_site.specs.socket.Pace.{is_over as pace_is_over};
ghost use Rattle.fleet_site.specs.socket.Parts.{data_of};

use crate::inbox::Inbox;
use crate::outbox::Outbox;
use crate::port::PortFault;
use crate::queued::{Drops, Queued};
use crate::socket::Socket;
use fleet_pending::Addr;
use fleet_wire::bounds::LONGEST_MESSAGE;
use std::alloc::{Allocator, Global};
use std::time::Duration;

// Lets through: another number, since the clauses cite the constant by its name. The tested body
// `frames_leave_one_at_a_time` has 1; a case of `tests/run` (`test_bursts`) sees it.
/// How many datagrams a burst of a port has at most, so that a receiver can take them in.
pub const BURST: usize = 2;

// Lets through: another number, since the clauses cite the constant by its name. The tested body
// `pause_of_two_milliseconds` has 2; a case of `tests/run` (`test_bursts`) sees it.
/// How many milliseconds lie between two bursts of a port. To sleep between sends would stop the site
/// for the length of a sweep. The time-out of a receive is no pause either, since the system counts it
/// in ticks: one of a millisecond took eight.
pub const PAUSE: u64 = 1;

// Lets through: another number. A receive may look once, or without end while frames wait. The tested
// body `port_looks_once` has 1; a case of `tests/run` (`test_bounds_of_sessions`) sees it.
/// How many times a receive looks whether something came, while frames wait to be sent, with a pause
/// after each. They take as long as a receive of the program's socket waits (`WAIT`), which no check
/// says.
const MOST_LOOKS: u64 = 200;

// Lets through: another number, which shows as time and memory alone: no clause and no test has this
// one. With none at a time (`port_takes_one_at_a_time`) a case of `tests/run` (`test_bursts`) fails.
/// How many datagrams are taken in at a time.
const MOST_AT_ONCE: usize = 1024;

// Lets through: another number. The tested body `port_drops_without_end` has 5; the test
// `what_has_no_room_is_dropped` sees it.
/// How many messages are dropped at a time at most. With more there is less time for answers; where
/// only what has room is taken in, the system drops frames and questions alike (bench/hostile).
const MOST_DROPPED: u64 = 4;

/// A socket, and what waits either way: what came in after a frame, and frames that are to be sent.
#[derive(Drop)]
pub struct Bursts<S: Socket + Drop, A: Allocator = Global> {
    socket: S,
    peers: Vec<Addr, A>,
    arrived: Inbox<A>,
    leaving: Outbox<A>,
    began: Option<Duration>,
    sent: usize,
    dropped: Drops,
    unpaced: u64,
    failed: u64,
}

impl<S: Socket + Drop, A: Allocator + Copy> Bursts<S, A> {
    /// Makes a port over a socket in which nothing waits. Frames are what comes from these peers and is
    /// longer than a message.
    pub fn new(socket: S, alloc: A, peers: Vec<Addr, A>) -> Bursts<S, A>
        ensures idle { IsIdle (data_of (S.state result.socket) result) }
        ensures socket { result.socket ≡ socket }
        ensures peers { result.peers.items ≡ peers.items }
        ensures failed { result.failed ≡ 0 }
        ensures dropped { result.dropped ≡ no_drops }
        ensures burst { (result.began ≡ None) × (result.sent ≡ 0) }
        ensures window { (result.leaving.window ≡ whole_window) × (result.unpaced ≡ 0) }
    {
        Bursts {
            socket,
            peers,
            arrived: Inbox::new(alloc),
            leaving: Outbox::new(alloc),
            began: None,
            sent: 0,
            dropped: Drops::none(),
            unpaced: 0,
            failed: 0,
        }
    }

    /// The socket of a port.
    pub fn socket(&self) -> &S
        ensures { result.now ≡ self.now.socket }
    {
        &self.socket
    }

    /// Whether nothing waits in the port, either way.
    fn is_idle(&self) -> bool
        ensures { IsTrue result ↔ IsIdle (data_of (S.state self.now.socket) self.now) }
    {
        self.arrived.is_empty() && self.leaving.is_empty()
    }

    /// Whether a datagram waits as a frame: it is longer than a message, and comes from a peer.
    fn is_frame(&self, from: Addr, octets: &[u8]) -> bool
        ensures { result ≡ is_frame self.now.peers.items (from, octets.now) }
    {
        octets.len() > LONGEST_MESSAGE && self.peers.contains(&from)
    }

    /// Counts a call that failed.
    fn fail(&mut self) -> PortFault
        ensures { self.new ≡ record self.old { failed = one_more self.old.failed } }
    {
        self.failed = self.failed.saturating_add(1);
        PortFault
    }

    // Lets through: a switch that is not needed, at each call, which costs a call of the system.
    /// Has receives wait for a datagram, or not; whether it could.
    fn set_waiting(&mut self, waits: bool) -> bool
        ensures { Switches waits (data_of (S.state self.old.socket) self.old) result
            (data_of (S.state self.new.socket) self.new) }
    {
        if self.socket.is_waiting() == waits {
            return true;
        }
        self.socket.set_waiting(waits).is_ok()
    }

    /// Makes one receive of the socket, and counts it where it fails.
    fn receive(&mut self, buffer: &mut [u8]) -> Result<Option<(Addr, usize)>, PortFault>
        ensures within { IfOk result (λ got. IfSome got (λ p. p.1 ≤ length buffer.old)) }
        ensures called { Called (S.state self.old.socket) (S.state self.new.socket)
            (arrival_of (S.state self.old.socket).waits (length buffer.old) result buffer.new
            ∷ []) }
        ensures rest { self.new ≡ record self.old {
          socket = self.new.socket;
          failed = failures_after result self.old.failed;
        } }
    {
        match self.socket.receive(buffer) {
            Ok(got) => Ok(got),
            Err(_) => Err(self.fail()),
        }
    }

    /// Sends a datagram now, and counts it where it fails. While frames wait the socket does not block,
    /// so a send on it may find no room where it would have waited else.
    fn send_now(&mut self, to: Addr, bytes: &[u8]) -> Result<(), PortFault>
        ensures called { Called (S.state self.old.socket) (S.state self.new.socket)
            (departure_of result (record { to = to; octets = bytes.now }) ∷ []) }
        ensures rest { self.new ≡ record self.old {
          socket = self.new.socket;
          failed = failures_after result self.old.failed;
        } }
    {
        match self.socket.send(to, bytes) {
            Ok(()) => Ok(()),
            Err(_) => Err(self.fail()),
        }
    }

    /// Reads the clock: a new burst begins where the pause after the last one is over.
    fn read_clock(&mut self)
        ensures clock { ReadsClock (data_of (S.state self.old.socket) self.old)
            (data_of (S.state self.new.socket) self.new) }
        ensures failed { self.new.failed ≡ self.old.failed }
        ensures leaving { self.new.leaving ≡ self.old.leaving }
        ensures room { self.old.sent < BURST → self.new.sent < BURST }
    {
        match self.socket.time() {
            Some(now) => {
                if is_over(self.began, now) {
                    self.began = Some(now);
                    self.sent = 0;
                }
            }
            None => {}
        }
    }

    /// Whether the burst has no room.
    fn is_burst_full(&self) -> bool
        ensures { result ≡ nat_le BURST self.now.sent }
    {
        self.sent >= BURST
    }

    /// Lets a pause pass: a new burst begins.
    fn pause(&mut self)
        ensures worked { Worked (data_of (S.state self.old.socket) self.old)
            (data_of (S.state self.new.socket) self.new) (Paused ∷ []) }
        ensures arrived { self.new.arrived ≡ self.old.arrived }
        ensures dropped { self.new.dropped ≡ self.old.dropped }
        ensures sent { self.new.sent ≡ 0 }
        ensures leaving { self.new.leaving ≡ self.old.leaving }
        ensures failed { self.new.failed ≡ self.old.failed }
    {
        self.socket.pause();
        self.began = None;
        self.sent = 0;
    }

    /// Lets a pause pass where the burst has no room.
    fn pause_if_full(&mut self)
        ensures worked { HasWorked (data_of (S.state self.old.socket) self.old)
            (data_of (S.state self.new.socket) self.new) }
        ensures arrived { self.new.arrived ≡ self.old.arrived }
        ensures dropped { self.new.dropped ≡ self.old.dropped }
        ensures room { self.new.sent < BURST }
        ensures leaving { self.new.leaving ≡ self.old.leaving }
    {
        if self.is_burst_full() {
            self.pause();
        }
    }

    /// Sends the first one that waits to be sent, if there is one and the burst has room for it.
    fn send_next(&mut self) -> Result<bool, PortFault>
        ensures worked { SentSome (data_of (S.state self.old.socket) self.old)
            (data_of (S.state self.new.socket) self.new) }
        ensures arrived { self.new.arrived ≡ self.old.arrived }
        ensures dropped { self.new.dropped ≡ self.old.dropped }
        ensures failed { self.new.failed ≡ failures_after result self.old.failed }
        ensures shorter { self.old.sent < BURST → (self.old.leaving.waiting ≡ [] → ⊥)
            → length self.new.leaving.waiting < length self.old.leaving.waiting }
    {
        if self.is_burst_full() {
            return Ok(false);
        }
        let Some((to, octets)) = self.leaving.first() else {
            return Ok(false);
        };
        let sent = self.socket.send(to, octets);
        self.leaving.remove_first();
        self.sent += 1;
        match sent {
            Ok(()) => Ok(true),
            Err(_) => Err(self.fail()),
        }
    }

    /// Sends the first ones that wait to be sent, as many as the burst has room for.
    fn send_burst(&mut self) -> Result<(), PortFault>
        ensures worked { SentSome (data_of (S.state self.old.socket) self.old)
            (data_of (S.state self.new.socket) self.new) }
        ensures failed { self.new.failed ≡ failures_after result self.old.failed }
        ensures shorter { self.old.sent < BURST → (self.old.leaving.waiting ≡ [] → ⊥)
            → length self.new.leaving.waiting < length self.old.leaving.waiting }
    {
        match self.send_next() {
            Ok(true) => self.send_more(),
            Ok(false) => Ok(()),
            Err(fault) => Err(fault),
        }
    }

    /// Sends others after the first one of a burst.
    fn send_more(&mut self) -> Result<(), PortFault>
        ensures worked { SentSome (data_of (S.state self.old.socket) self.old)
            (data_of (S.state self.new.socket) self.new) }
        ensures failed { self.new.failed ≡ failures_after result self.old.failed }
    {
        for _ in 1..BURST {
            match self.send_next() {
                Ok(true) => {}
                Ok(false) => return Ok(()),
                Err(fault) => return Err(fault),
            }
        }
        Ok(())
    }

    /// Sends of what waits to be sent, where there is any and the pause is over.
    fn send_waiting(&mut self) -> Result<(), PortFault>
        ensures sent { SentOn (data_of (S.state self.old.socket) self.old)
            (data_of (S.state self.new.socket) self.new) }
        ensures failed { self.new.failed ≡ failures_after result self.old.failed }
        ensures shorter { self.old.sent < BURST → (self.old.leaving.waiting ≡ [] → ⊥)
            → length self.new.leaving.waiting < length self.old.leaving.waiting }
    {
        if self.leaving.is_empty() {
            return Ok(());
        }
        self.read_clock();
        self.send_burst()
    }

    /// Keeps a datagram that came, or drops and counts it where others of its kind wait; whether it is
    /// kept.
    fn keep(&mut self, from: Addr, octets: &[u8]) -> bool
        requires { HasRoom self.old.arrived (length octets.now) }
        ensures kept { KeepsOrDrops (from, octets.now) (data_of (S.state self.old.socket) self.old)
            (data_of (S.state self.new.socket) self.new) }
        ensures rest { self.new ≡ record self.old {
          arrived = self.new.arrived;
          dropped = self.new.dropped;
        } }
    {
        let is_frame = self.is_frame(from, octets);
        let is_kept = self.arrived.keep(is_frame, from, octets);
        if !is_kept {
            self.dropped.count(is_frame);
        }
        is_kept
    }

    // Lets through: one datagram at a time, and none while one waits; and dropping any where another of
    // its kind waits, as long as it is counted. The tested bodies are those of `MOST_AT_ONCE` and
    // `MOST_DROPPED`.
    /// Takes in what is there, without waiting. What finds no room is dropped, of messages a few at
    /// most, so that answers go on. `false` where there was no memory before the first receive.
    fn take_in(&mut self, buffer: &mut [u8]) -> Result<bool, PortFault>
        ensures took { TookAll (length buffer.old) (data_of (S.state self.old.socket) self.old)
            result (data_of (S.state self.new.socket) self.new) }
        ensures failed { self.new.failed ≡ failures_after result self.old.failed }
    {
        if !self.set_waiting(false) {
            return Ok(true);
        }
        let (mut has_looked, mut drops) = (false, 0u64);
        for _ in 0..MOST_AT_ONCE {
            if !self.arrived.make_room(buffer.len()) {
                return Ok(has_looked);
            }
            match self.receive(buffer) {
                Ok(Some((from, len))) => {
                    let is_kept = self.keep(from, &buffer[..len]);
                    if !is_kept && len <= LONGEST_MESSAGE {
                        drops = drops.saturating_add(1);
                    }
                }
                Ok(None) => return Ok(true),
                Err(fault) => return Err(fault),
            }
            has_looked = true;
            if drops >= MOST_DROPPED {
                return Ok(true);
            }
        }
        Ok(has_looked)
    }

    /// Takes in what is there, without waiting, and hands the next datagram on. Where nothing waits and
    /// there is no room to keep one, the next one that is there is handed on at once.
    fn take_next(&mut self, buffer: &mut [u8]) -> Result<Option<(Addr, usize)>, PortFault>
        ensures within { IfOk result (λ got. IfSome got (λ p. p.1 ≤ length buffer.old)) }
        ensures failed { self.new.failed ≡ failures_after result self.old.failed }
        ensures takes { TakesThenHandsOn (length buffer.old)
            (data_of (S.state self.old.socket) self.old) result buffer.new
            (data_of (S.state self.new.socket) self.new) }
    {
        match self.take_in(buffer) {
            Ok(true) => Ok(self.arrived.hand_on(buffer)),
            Ok(false) => match self.arrived.hand_on(buffer) {
                Some(got) => Ok(Some(got)),
                None => self.receive(buffer),
            },
            Err(fault) => Err(fault),
        }
    }

    /// Takes in what came after a datagram that is longer than a message, and hands the next datagram
    /// on. A question alone costs no further call of the system.
    fn receive_burst(
        &mut self,
        from: Addr,
        len: usize,
        buffer: &mut [u8],
    ) -> Result<Option<(Addr, usize)>, PortFault>
        requires idle { IsIdle (data_of (S.state self.old.socket) self.old) }
        requires len { len ≤ length buffer.old }
        ensures within { IfOk result (λ got. IfSome got (λ p. p.1 ≤ length buffer.old)) }
        ensures failed { self.new.failed ≡ failures_after result self.old.failed }
        ensures receives { TakesThenHandsOn (length buffer.old)
            (joined (from, take len buffer.old) (data_of (S.state self.old.socket) self.old))
            result buffer.new (data_of (S.state self.new.socket) self.new) }
    {
        if len <= LONGEST_MESSAGE {
            return Ok(Some((from, len)));
        }
        if !self.arrived.make_room(buffer.len()) {
            return Ok(Some((from, len)));
        }
        self.keep(from, &buffer[..len]);
        self.take_next(buffer)
    }

    /// Waits for a datagram, and takes in what came after it where it is longer than a message.
    fn wait(&mut self, buffer: &mut [u8]) -> Result<Option<(Addr, usize)>, PortFault>
        requires { IsIdle (data_of (S.state self.old.socket) self.old) }
        ensures within { IfOk result (λ got. IfSome got (λ p. p.1 ≤ length buffer.old)) }
        ensures failed { self.new.failed ≡ failures_after result self.old.failed }
        ensures receives { Receives (length buffer.old) (data_of (S.state self.old.socket) self.old)
            result buffer.new (data_of (S.state self.new.socket) self.new) }
    {
        self.set_waiting(true);
        match self.receive(buffer) {
            Ok(Some((from, len))) => self.receive_burst(from, len, buffer),
            Ok(None) => Ok(None),
            Err(fault) => Err(fault),
        }
    }

    // Lets through: looking once, or without end while frames wait, as `MOST_LOOKS` has it.
    /// Sends and takes in what there is, until a datagram can be handed on, all is sent or the time of
    /// a receive is over.
    fn work(&mut self, buffer: &mut [u8]) -> Result<Option<(Addr, usize)>, PortFault>
        ensures within { IfOk result (λ got. IfSome got (λ p. p.1 ≤ length buffer.old)) }
        ensures failed { self.new.failed ≡ failures_after result self.old.failed }
        ensures receives { WorksThenHandsOn (length buffer.old)
            (data_of (S.state self.old.socket) self.old) result buffer.new
            (data_of (S.state self.new.socket) self.new) }
        ensures progress { result ≡ Ok None → (self.new.leaving.waiting ≡ [] → ⊥)
            → length self.new.leaving.waiting < length self.old.leaving.waiting }
    {
        match self.send_waiting() {
            Ok(()) => {}
            Err(fault) => return Err(fault),
        }
        for _ in 0..MOST_LOOKS {
            match self.take_next(buffer) {
                Ok(Some(got)) => return Ok(Some(got)),
                Ok(None) => {}
                Err(fault) => return Err(fault),
            }
            if self.leaving.is_empty() {
                return Ok(None);
            }
            self.pause();
            match self.send_waiting() {
                Ok(()) => {}
                Err(fault) => return Err(fault),
            }
        }
        Ok(self.arrived.hand_on(buffer))
    }

    /// Begins a turn, and hands the next datagram on, messages first. Where nothing waits it waits for
    /// a datagram; while frames wait to be sent it sends of them too, and fails where the system
    /// refuses one: a frame is counted as sent when it begins to wait, so its failure can only be
    /// reported by a later receive.
    pub fn recv(&mut self, buffer: &mut [u8]) -> Result<Option<(Addr, usize)>, PortFault>
        ensures within { IfOk result (λ got. IfSome got (λ p. p.1 ≤ length buffer.old)) }
        ensures failed { self.new.failed ≡ failures_after result self.old.failed }
        ensures receives { Receives (length buffer.old)
            (turn_begun (data_of (S.state self.old.socket) self.old))
            result buffer.new (data_of (S.state self.new.socket) self.new) }
        ensures progress { result ≡ Ok None → (self.new.leaving.waiting ≡ [] → ⊥)
            → length self.new.leaving.waiting < length self.old.leaving.waiting }
    {
        self.leaving.begin_turn();
        if self.is_idle() {
            self.wait(buffer)
        } else {
            self.work(buffer)
        }
    }

    /// Sends a message at once. What is longer waits until the port receives, if it is due and finds
    /// room and memory; else it is sent at once too, and counted. `Err` where the system refuses what
    /// is sent at once.
    pub fn send(&mut self, to: Addr, bytes: &[u8]) -> Result<(), PortFault>
        ensures failed { self.new.failed ≡ failures_after result self.old.failed }
        ensures sends { SendsOrKeeps (record { to = to; octets = bytes.now })
            (data_of (S.state self.old.socket) self.old) result
            (data_of (S.state self.new.socket) self.new) }
    {
        if bytes.len() <= LONGEST_MESSAGE {
            return self.send_now(to, bytes);
        }
        if matches!(self.leaving.keep(to, bytes), Ok(true)) {
            return Ok(());
        }
        self.unpaced = self.unpaced.saturating_add(1);
        self.send_now(to, bytes)
    }

    /// How many datagrams were dropped that came.
    pub fn dropped(&self) -> Drops
        ensures { result ≡ self.now.dropped }
    {
        self.dropped
    }

    /// How many frames went out without waiting.
    pub fn unpaced(&self) -> u64
        ensures { result ≡ self.now.unpaced }
    {
        self.unpaced
    }

    /// How many datagrams wait in each queue of the port, and how many found no room.
    pub fn queued(&self) -> Queued
        ensures { result ≡ queued_in (data_of (S.state self.now.socket) self.now) }
    {
        Queued {
            messages: self.arrived.message_count(),
            frames: self.arrived.frame_count(),
            leaving: self.leaving.len(),
            dropped: self.dropped,
            unpaced: self.unpaced,
        }
    }

    /// How many calls of a port failed, receives and sends.
    pub fn failures(&self) -> u64
        ensures { result ≡ self.now.failed }
    {
        self.failed
    }

    /// Sends all that waits to be sent, with pauses between the bursts; what the system refuses is
    /// lost, and is counted as failed.
    pub fn finish(&mut self)
        ensures worked { HasWorked (data_of (S.state self.old.socket) self.old)
            (data_of (S.state self.new.socket) self.new) }
        ensures arrived { self.new.arrived ≡ self.old.arrived }
        ensures dropped { self.new.dropped ≡ self.old.dropped }
        ensures sent { self.new.leaving.waiting ≡ [] }
    {
        while !self.leaving.is_empty() {
            self.pause_if_full();
            let _ = self.send_next();
        }
    }
}

/// Whether a burst that began then is over.
fn is_over(began: Option<Duration>, now: Duration) -> bool
    ensures { result ≡ pace_is_over (nanos_of began) (as_nanos now) }
{
    match began {
        Some(began) => now.saturating_sub(began) >= Duration::from_millis(PAUSE),
        None => true,
    }
}
