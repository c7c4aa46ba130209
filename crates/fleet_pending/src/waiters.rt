//! Waiters in order of joining.

ghost use Rattle.std.specs.Prelude.{◌↔◌, IsTrue};
ghost use Rattle.fleet_pending.specs.Waiter.{SameAsker, Waits};

use crate::waiter::Waiter;
use fleet_observe::Items;
use std::alloc::{Allocator, Global};

/// Waiters in order of joining.
pub type Waiters<A = Global> = Items<Waiter<A>, A>;

/// Whether one from the same address waits under the same id.
pub(crate) fn has_waiter<A: Allocator>(waiters: &Waiters<A>, waiter: &Waiter<A>) -> bool
    ensures { IsTrue result ↔ Waits waiter.now waiters.now }
{
    is_among(waiter, waiters.as_slice())
}

/// Whether the same asker is among these.
fn is_among<A: Allocator>(waiter: &Waiter<A>, waiters: &[Waiter<A>]) -> bool
    ensures { IsTrue result ↔ Waits waiter.now waiters.now }
{
    for other in waiters {
        if is_same_asker(other, waiter) {
            return true;
        }
    }
    false
}

// Lets through: a body that compares the two in the other order, which means the same.
/// Whether the two wait at the same address, under the same id.
fn is_same_asker<A: Allocator>(one: &Waiter<A>, other: &Waiter<A>) -> bool
    ensures { IsTrue result ↔ SameAsker one.now other.now }
{
    one.from == other.from && one.id == other.id
}
