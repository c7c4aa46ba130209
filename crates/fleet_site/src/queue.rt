//! Datagrams that wait in a port.

ghost use Rattle.std.specs.Prelude.{◌≡◌, ◌≤◌, ◌↔◌, [], ◌∷◌, ◌++◌, IsTrue, IfOk, IfErr, OnErr, MatchOption, length, nat_le};
ghost use Rattle.fleet_site.specs.socket.Waiting.{Pushes};
ghost use Rattle.fleet_site.specs.declared.queue.TheConstants.{MOST_WAITING};

use fleet_name::Octets;
use fleet_pending::Addr;
use std::alloc::{AllocError, Allocator, Global};
use std::collections::VecDeque;
use std::marker::Model;

/// How many datagrams wait in a queue at most. They have less than 64 MiB where each has one octet more
/// than the longest frame.
pub const MOST_WAITING: usize = 4095;

/// Datagrams that wait in their order, each with the address that it came from or goes to.
#[derive(Drop)]
pub struct Queue<A: Allocator = Global> {
    alloc: A,
    waiting: VecDeque<(Addr, Octets<A>), A>,
}

impl<A: Allocator> Model for Queue<A> {
    ghost use Rattle.std.specs.Prelude.{ℕ, ◌≤◌, List, length};
    ghost use Rattle.fleet_pending.specs.declared.addr.Addr.{Addr};
    ghost use Rattle.fleet_site.specs.declared.queue.TheConstants.{MOST_WAITING};

    ghost Value = { List (Addr × List ℕ) };

    ghost view = { λ q. q.waiting.items };

    ghost invariant = { λ q. length q.waiting.items ≤ MOST_WAITING };
}

impl<A: Allocator + Copy> Queue<A> {
    /// Makes a queue in which nothing waits.
    pub fn new(alloc: A) -> Queue<A>
        ensures { result ≡ [] }
    {
        Queue {
            alloc,
            waiting: VecDeque::new(alloc),
        }
    }

    /// Whether nothing waits in a queue.
    pub fn is_empty(&self) -> bool
        ensures { IsTrue result ↔ (self.now ≡ []) }
    {
        self.waiting.is_empty()
    }

    /// How many datagrams wait.
    pub fn len(&self) -> usize
        ensures len { result ≡ length self.now }
        ensures few { result ≤ MOST_WAITING }
    {
        self.waiting.len()
    }

    /// Whether as many datagrams wait as may.
    fn is_full(&self) -> bool
        ensures { result ≡ nat_le MOST_WAITING (length self.now) }
    {
        self.waiting.len() >= MOST_WAITING
    }

    /// Puts a copy of a datagram after those that wait. `false` where the queue is full; nothing
    /// changes then, nor where an allocation fails.
    pub fn push(&mut self, addr: Addr, octets: &[u8]) -> Result<bool, AllocError>
        ensures pushed { IfOk result (λ fits. Pushes self.old (addr, octets.now) fits self.new) }
        ensures memory { OnErr result (self.new ≡ self.old) }
    {
        if self.is_full() {
            return Ok(false);
        }
        let octets = Octets::copy_of(self.alloc, octets)?;
        self.waiting.push_back((addr, octets))?;
        Ok(true)
    }

    /// Puts a datagram after those that wait. It comes back where the queue is full or an allocation
    /// fails; nothing changes then.
    pub fn put(&mut self, datagram: (Addr, Octets<A>)) -> Result<(), (Addr, Octets<A>)>
        ensures put { IfOk result (λ _. self.new ≡ self.old ++ datagram ∷ []) }
        ensures back { IfErr result (λ d. (d ≡ datagram) × (self.new ≡ self.old)) }
    {
        if self.is_full() {
            return Err(datagram);
        }
        match self.waiting.push_back(datagram) {
            Ok(()) => Ok(()),
            Err(failed) => Err(failed.value),
        }
    }

    /// Takes the first datagram out, if there is one.
    pub fn pop(&mut self) -> Option<(Addr, Octets<A>)>
        ensures { MatchOption result ((self.old ≡ []) × (self.new ≡ []))
            (λ d. self.old ≡ d ∷ self.new) }
    {
        self.waiting.pop_front()
    }
}
