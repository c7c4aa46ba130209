//! What came in and was not handed on yet.

ghost use Rattle.std.specs.Prelude.{◌≡◌, ◌≢◌, ◌↔◌, ◌≤◌, [], ◌∷◌, ◌++◌, true, false, min, length, take, IsTrue, IfSome};
ghost use Rattle.fleet_site.specs.socket.Inbox.{waiting_messages, waiting_frames, HasRoom, Keeps, TakesNext, HandsOnNext};
ghost use Rattle.fleet_site.specs.socket.Waiting.{at_most_one};

use crate::queue::Queue;
use fleet_name::Octets;
use fleet_pending::Addr;
use fleet_wire::bounds::LONGEST_MESSAGE;
use std::alloc::{Allocator, Global};

/// Datagrams that came in and were not handed on yet: messages, and frames. Where an allocation fails,
/// one of each kind may lie beside its queue, and so is not lost: then no other of its kind is kept
/// before there is memory for it.
#[derive(Drop)]
pub struct Inbox<A: Allocator = Global> {
    alloc: A,
    messages: Queue<A>,
    late_message: Option<(Addr, Octets<A>)>,
    frames: Queue<A>,
    late_frame: Option<(Addr, Octets<A>)>,
    spare: Vec<u8, A>,
}

impl<A: Allocator + Copy> Inbox<A> {
    /// Makes an inbox to which nothing came.
    pub fn new(alloc: A) -> Inbox<A>
        ensures messages { waiting_messages result ≡ [] }
        ensures frames { waiting_frames result ≡ [] }
    {
        Inbox {
            alloc,
            messages: Queue::new(alloc),
            late_message: None,
            frames: Queue::new(alloc),
            late_frame: None,
            spare: Vec::new(alloc),
        }
    }

    /// Whether all that came was handed on.
    pub fn is_empty(&self) -> bool
        ensures { IsTrue result
            ↔ ((waiting_messages self.now ≡ []) × (waiting_frames self.now ≡ [])) }
    {
        self.messages.is_empty()
            && self.frames.is_empty()
            && self.late_message.is_none()
            && self.late_frame.is_none()
    }

    /// How many messages wait.
    pub fn message_count(&self) -> usize
        ensures { result ≡ length (waiting_messages self.now) }
    {
        count_of(&self.messages, &self.late_message)
    }

    /// How many frames wait.
    pub fn frame_count(&self) -> usize
        ensures { result ≡ length (waiting_frames self.now) }
    {
        count_of(&self.frames, &self.late_frame)
    }

    // Lets through: leaving what lies beside its queue there, so that others of its kind are dropped
    // meanwhile. The tested bodies `late_message_stays_late` and `late_frame_stays_late` do so; the
    // test `drops_nothing_where_memory_fails` sees them.
    /// Has what lies beside the queues wait in its queue, if there is memory by now.
    fn settle(&mut self)
        ensures messages { waiting_messages self.new ≡ waiting_messages self.old }
        ensures frames { waiting_frames self.new ≡ waiting_frames self.old }
    {
        self.settle_message();
        self.settle_frame();
    }

    /// Has a message that lies beside its queue wait in it, if there is memory by now.
    fn settle_message(&mut self)
        ensures messages { waiting_messages self.new ≡ waiting_messages self.old }
        ensures frames { waiting_frames self.new ≡ waiting_frames self.old }
    {
        match self.late_message.take() {
            Some(late) => {
                if let Err(late) = self.messages.put(late) {
                    self.late_message = Some(late);
                }
            }
            None => {}
        }
    }

    /// Has a frame that lies beside its queue wait in it, if there is memory by now.
    fn settle_frame(&mut self)
        ensures messages { waiting_messages self.new ≡ waiting_messages self.old }
        ensures frames { waiting_frames self.new ≡ waiting_frames self.old }
    {
        match self.late_frame.take() {
            Some(late) => {
                if let Err(late) = self.frames.put(late) {
                    self.late_frame = Some(late);
                }
            }
            None => {}
        }
    }

    // Lets through: finding no memory, whatever there is. The port then keeps nothing: it hands on one
    // datagram a receive, and a frame before the messages that came after it.
    /// Whether there is room for a datagram of that many octets though its allocation fails: makes it
    /// where there is memory.
    pub fn make_room(&mut self, octets: usize) -> bool
        ensures room { result ≡ true → HasRoom self.new octets }
        ensures messages { waiting_messages self.new ≡ waiting_messages self.old }
        ensures frames { waiting_frames self.new ≡ waiting_frames self.old }
    {
        self.settle();
        if self.spare.len() >= octets {
            return true;
        }
        match vec![in self.alloc; 0u8; octets] {
            Ok(spare) => {
                self.spare = spare;
                true
            }
            Err(_) => false,
        }
    }

    /// A copy of octets in the spare room, which is used up.
    fn copy_to_spare(&mut self, octets: &[u8]) -> Octets<A>
        requires { length octets.now ≤ length self.old.spare.items }
        ensures copied { result ≡ octets.now }
        ensures rest { self.new ≡ record self.old { spare = self.new.spare } }
    {
        let mut spare = std::mem::replace(&mut self.spare, Vec::new(self.alloc));
        spare.truncate(octets.len());
        spare.copy_from_slice(octets);
        Octets::new(spare)
    }

    // Lets through: keeping a stranger's long datagram though messages wait, so that it takes a
    // message's place. The tested body `strangers_long_datagrams_wait_as_messages` does so; the test
    // `a_port_over_a_socket_works_in_bursts` sees it.
    /// Keeps a copy of a datagram, after those of its kind. `false` where others of its kind wait and
    /// it finds no room; nothing changes then. What is longer than a message, and no frame, is kept
    /// only where no message waits: a stranger's long datagrams take no place of what a site reads.
    pub fn keep(&mut self, is_frame: bool, from: Addr, octets: &[u8]) -> bool
        requires { HasRoom self.old (length octets.now) }
        ensures { Keeps self.old (from, octets.now) is_frame result self.new }
    {
        if is_frame {
            return self.keep_frame(from, octets);
        }
        if octets.len() > LONGEST_MESSAGE && !self.has_no_message() {
            return false;
        }
        self.keep_message(from, octets)
    }

    /// Whether no message waits.
    fn has_no_message(&self) -> bool
        ensures { IsTrue result ↔ (waiting_messages self.now ≡ []) }
    {
        self.messages.is_empty() && self.late_message.is_none()
    }

    /// Keeps a message, in its queue or where an allocation fails beside it.
    fn keep_message(&mut self, from: Addr, octets: &[u8]) -> bool
        requires { HasRoom self.old (length octets.now) }
        ensures { Keeps self.old (from, octets.now) false result self.new }
    {
        if self.late_message.is_some() {
            return false;
        }
        match self.messages.push(from, octets) {
            Ok(fits) => fits,
            Err(_) => {
                self.late_message = Some((from, self.copy_to_spare(octets)));
                true
            }
        }
    }

    /// Keeps a frame, in its queue or where an allocation fails beside it.
    fn keep_frame(&mut self, from: Addr, octets: &[u8]) -> bool
        requires { HasRoom self.old (length octets.now) }
        ensures { Keeps self.old (from, octets.now) true result self.new }
    {
        if self.late_frame.is_some() {
            return false;
        }
        match self.frames.push(from, octets) {
            Ok(fits) => fits,
            Err(_) => {
                self.late_frame = Some((from, self.copy_to_spare(octets)));
                true
            }
        }
    }

    /// Takes out the next datagram: the first of the messages, and where there is none the first frame.
    fn pop(&mut self) -> Option<(Addr, Octets<A>)>
        ensures { TakesNext self.old result self.new }
    {
        if let Some(next) = self.messages.pop() {
            return Some(next);
        }
        if let Some(next) = self.late_message.take() {
            return Some(next);
        }
        if let Some(next) = self.frames.pop() {
            return Some(next);
        }
        self.late_frame.take()
    }

    /// Hands the next datagram on, cut to the buffer: the first of the messages, and where there is
    /// none the first frame.
    pub fn hand_on(&mut self, buffer: &mut [u8]) -> Option<(Addr, usize)>
        ensures within { IfSome result (λ p. p.1 ≤ length buffer.old) }
        ensures handed { HandsOnNext (length buffer.old) self.old result buffer.new self.new }
    {
        match self.pop() {
            Some((from, octets)) => Some((from, copy_to(&octets, buffer))),
            None => None,
        }
    }
}

/// How many datagrams wait in a queue and beside it.
fn count_of<A: Allocator + Copy>(queue: &Queue<A>, late: &Option<(Addr, Octets<A>)>) -> usize
    ensures { result ≡ length (queue.now ++ at_most_one late.now) }
{
    match late {
        Some(_) => queue.len() + 1,
        None => queue.len(),
    }
}

/// Copies octets to a buffer, as many as it has room for, and gives their number.
fn copy_to<A: Allocator>(octets: &Octets<A>, buffer: &mut [u8]) -> usize
    ensures len { result ≡ min (length octets.now) (length buffer.old) }
    ensures copied { take (min (length octets.now) (length buffer.old)) buffer.new
        ≡ take (length buffer.old) octets.now }
    ensures room { length buffer.new ≡ length buffer.old }
{
    let octets = octets.as_slice();
    let len = octets.len().min(buffer.len());
    buffer[..len].copy_from_slice(&octets[..len]);
    len
}
