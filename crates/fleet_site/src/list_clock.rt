//! A clock over a list.

ghost use Rattle.std.specs.Prelude.{◌≡◌, ◌+◌, Some};
ghost use Rattle.fleet_site.specs.server.MemoryPort.{moment_of};

use crate::port::Clock;
use fleet_observe::Moment;
use std::alloc::{Allocator, Global};

/// A clock over a list, for tests: it gives the moments of the list in order, then the last one again,
/// or 0 where the list is empty.
#[derive(Drop)]
pub struct ListClock<A: Allocator = Global> {
    moments: Vec<Moment, A>,
    next: usize,
}

impl<A: Allocator> ListClock<A> {
    /// Makes a clock that gives these moments in order, then the last one again, and 0 where there is
    /// none.
    pub fn new(moments: Vec<Moment, A>) -> ListClock<A>
        ensures moments { result.moments ≡ moments }
        ensures next { result.next ≡ 0 }
    {
        ListClock { moments, next: 0 }
    }
}

impl<A: Allocator> Clock for ListClock<A> {
    ghost moments = { λ c. Some (λ k. moment_of c.moments.items (c.next + k)) };

    fn now(&mut self) -> Moment {
        let last = self.moments.len().saturating_sub(1);
        let at = self.next.min(last);
        if self.next < last {
            self.next += 1;
        }
        match self.moments.get(at) {
            Some(moment) => *moment,
            None => Moment::new(0).unwrap(),
        }
    }
}
