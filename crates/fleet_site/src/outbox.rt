//! Frames that wait to be sent.

ghost use Rattle.std.specs.Prelude.{◌≡◌, ◌↔◌, ◌≤◌, ◌⊎◌, ◌+◌, [], ◌∷◌, ◌++◌, drop, IsTrue, true, false, Ok, OnErr, MatchOption};
ghost use Rattle.fleet_site.specs.socket.Outbox.{datagrams_of, KeepsOrPasses, Puts};
ghost use Rattle.fleet_site.specs.socket.Window.{whole_window, is_due, next_turn};

use crate::window::Window;
use arrayvec::ArrayVec;
use fleet_name::Octets;
use fleet_pending::Addr;
use std::alloc::{AllocError, Allocator, Global};
use std::collections::VecDeque;
use std::marker::Model;

/// How many frames wait to be sent at most, each once for all that it goes to. Their octets are less
/// than 64 MiB where each has as many as the longest frame.
pub const MOST_PLACES: usize = 4095;

/// To how many addresses a frame in one place goes at most besides the next: with that, to as many as a
/// site has peers (`MOST_PEERS`, 16). No definition and no check says so.
const MOST_OTHERS: usize = 15;

/// A frame that waits, and the addresses that it still goes to.
#[derive(Drop)]
struct Outgoing<A: Allocator = Global> {
    octets: Octets<A>,
    next: Addr,
    others: ArrayVec<Addr, MOST_OTHERS>,
}

impl<A: Allocator> Outgoing<A> {
    // Lets through: answering false, and so may `join` and `join_last`: a frame then waits in a place
    // for each peer. The tested body `frame_waits_for_each_peer` does so; the test
    // `a_frame_to_many_peers_waits_once` sees it.
    /// Whether a frame that waits has these octets.
    fn has(&self, octets: &[u8]) -> bool
        ensures { result ≡ true → self.now.octets ≡ octets.now }
    {
        self.octets.as_slice() == octets
    }

    /// Has a frame go to one address more, where it has these octets and room for it; whether it does.
    #[tactic(auto, using(crate::proofs::Outboxes::one_more_address))]
    fn join(&mut self, to: Addr, octets: &[u8]) -> bool
        ensures joined { result ≡ true
            → datagrams_of self.new ≡ datagrams_of self.old ++ (to, octets.now) ∷ [] }
        ensures apart { result ≡ false → self.new ≡ self.old }
    {
        self.has(octets) && self.others.try_push(to).is_ok()
    }

    /// Goes on to the next address of a frame; whether there is one.
    fn advance(&mut self) -> bool
        ensures more { result ≡ true
            → datagrams_of self.old ≡ (self.old.next, self.old.octets) ∷ datagrams_of self.new }
        ensures none { result ≡ false
            → datagrams_of self.old ≡ (self.old.next, self.old.octets) ∷ [] }
    {
        if self.others.is_empty() {
            return false;
        }
        self.next = self.others.remove(0);
        true
    }
}

/// Frames that wait to be sent, in their order. What goes to several addresses, one after the other,
/// waits once.
#[derive(Drop)]
pub struct Outbox<A: Allocator = Global> {
    alloc: A,
    frames: VecDeque<Outgoing<A>, A>,
    window: Window,
}

impl<A: Allocator> Model for Outbox<A> {
    ghost use Rattle.std.specs.Prelude.{◌≤◌, length};
    ghost use Rattle.fleet_site.specs.socket.Outbox.{OutboxData, all_datagrams};
    ghost use Rattle.fleet_site.specs.socket.Window.{IsNewIfNone};
    ghost use Rattle.fleet_site.specs.declared.outbox.TheConstants.{MOST_PLACES};

    ghost Value = { OutboxData };

    ghost view = { λ o. record {
      waiting = all_datagrams o.frames.items;
      places = length o.frames.items;
      window = o.window;
    } };

    ghost invariant = { λ o. (length o.frames.items ≤ MOST_PLACES) × IsNewIfNone o.window };
}

impl<A: Allocator + Copy> Outbox<A> {
    /// Makes an outbox in which nothing waits.
    pub fn new(alloc: A) -> Outbox<A>
        ensures { result ≡ record { waiting = []; places = 0; window = whole_window } }
    {
        Outbox {
            alloc,
            frames: VecDeque::new(alloc),
            window: Window::new(),
        }
    }

    /// Whether nothing waits to be sent.
    pub fn is_empty(&self) -> bool
        ensures { IsTrue result ↔ (self.now.waiting ≡ []) }
    {
        self.first().is_none()
    }

    /// How many frames wait to be sent, each once for all that it goes to.
    pub fn len(&self) -> usize
        ensures { result ≡ self.now.places }
    {
        self.frames.len()
    }

    /// Begins a turn, with the window of the next sweep where the last turn was one. After a turn in
    /// which no frame came, as that of a hit, the window is as it has to be.
    pub fn begin_turn(&mut self)
        ensures { self.new ≡ record self.old { window = next_turn self.old.window } }
    {
        if self.window.has_frames() {
            self.window = self.window.next_turn();
        }
    }

    /// Has a frame wait after those that wait: in the last place, where that has these octets, or in
    /// one of its own, where it is due and there is room. Whether it waits. An allocation that fails
    /// changes nothing that waits.
    pub fn keep(&mut self, to: Addr, octets: &[u8]) -> Result<bool, AllocError>
        ensures { KeepsOrPasses self.old (to, octets.now) result self.new }
    {
        let kept = self.put(to, octets);
        if matches!(kept, Ok(true)) {
            self.window = self.window.after_kept();
        } else {
            self.window = self.window.after_passed();
        }
        kept
    }

    /// Has a frame wait where it may, as `keep` does, and leaves the window as it is.
    fn put(&mut self, to: Addr, octets: &[u8]) -> Result<bool, AllocError>
        ensures { Puts self.old (to, octets.now) result self.new }
    {
        if self.join_last(to, octets) {
            return Ok(true);
        }
        self.push(to, octets)
    }

    // Lets through: finding no memory, whatever there is: no frame waits then, and each goes out at
    // once. The tested body `port_keeps_no_frame` does so; the test
    // `a_port_over_a_socket_works_in_bursts` sees it.
    /// Puts a frame after those that wait, if it is due and there is room. Nothing changes where it is
    /// not put there, nor where an allocation fails.
    fn push(&mut self, to: Addr, octets: &[u8]) -> Result<bool, AllocError>
        ensures pushed { result ≡ Ok true → self.new ≡ record {
          waiting = self.old.waiting ++ (to, octets.now) ∷ [];
          places = self.old.places + 1;
          window = self.old.window;
        } }
        ensures due { result ≡ Ok true → is_due self.old.window self.old.places ≡ true }
        ensures full { result ≡ Ok false → (is_due self.old.window self.old.places ≡ false)
            ⊎ (self.old.places ≡ MOST_PLACES) }
        ensures apart { result ≡ Ok false → self.new ≡ self.old }
        ensures memory { OnErr result (self.new ≡ self.old) }
    {
        if !self.window.is_due(self.frames.len()) {
            return Ok(false);
        }
        if self.frames.len() >= MOST_PLACES {
            return Ok(false);
        }
        self.frames.push_back(Outgoing {
            octets: Octets::copy_of(self.alloc, octets)?,
            next: to,
            others: ArrayVec::new(),
        })?;
        Ok(true)
    }

    /// Has the last frame go to one address more, where it has these octets and room for it; whether it
    /// does.
    #[tactic(auto, using(crate::proofs::Outboxes::last_joined))]
    fn join_last(&mut self, to: Addr, octets: &[u8]) -> bool
        ensures joined { result ≡ true
            → self.new ≡ record self.old { waiting = self.old.waiting ++ (to, octets.now) ∷ [] } }
        ensures apart { result ≡ false → self.new ≡ self.old }
    {
        match self.frames.back_mut() {
            Some(last) => last.join(to, octets),
            None => false,
        }
    }

    /// The first datagram that waits to be sent: its address, and its octets.
    pub fn first(&self) -> Option<(Addr, &[u8])>
        ensures { MatchOption result (self.now.waiting ≡ [])
            (λ d. self.now.waiting ≡ (d.0, d.1.now) ∷ drop 1 self.now.waiting) }
    {
        let frame = self.frames.front()?;
        Some((frame.next, frame.octets.as_slice()))
    }

    /// Takes out the first datagram that waits to be sent, if there is one.
    #[tactic(auto, using(crate::proofs::Outboxes::first_advanced, crate::proofs::Outboxes::first_out))]
    pub fn remove_first(&mut self)
        ensures waiting { self.new.waiting ≡ drop 1 self.old.waiting }
        ensures places { self.new.places ≤ self.old.places }
        ensures window { self.new.window ≡ self.old.window }
    {
        let Some(frame) = self.frames.front_mut() else {
            return;
        };
        if !frame.advance() {
            self.frames.pop_front();
        }
    }
}
