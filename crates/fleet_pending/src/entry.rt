//! Open questions.

ghost use Rattle.std.specs.Prelude.{◌≡◌, IfErr, MatchResult};
ghost use Rattle.fleet_pending.specs.Asking.{Joins, ask_result, new_entry};

use crate::answer::{Asked, PendingFault, Unasked};
use crate::bounds::{MOST_WAITERS, TRY_SECONDS};
use crate::waiter::Waiter;
use crate::waiters::{Waiters, has_waiter};
use fleet_name::Name;
use fleet_observe::Moment;
use std::alloc::{Allocator, Global};
use std::marker::Model;

/// An open question: what it asks, whom, and who waits for the answer.
#[derive(Drop)]
pub struct Entry<A: Allocator = Global> {
    /// QNAME, in lower case.
    pub name: Name<A>,
    /// QTYPE.
    pub rtype: u16,
    /// The id of the query.
    pub id: u16,
    /// The index of the upstream that is asked now, from 0.
    pub upstream: u8,
    /// The moment at which its time is over, in seconds. It may be 2 later than `LATEST`.
    pub deadline: u64,
    /// Who waits, in order of joining: at least one.
    pub waiters: Waiters<A>,
}

impl<A: Allocator> Model for Entry<A> {
    ghost use Rattle.fleet_pending.specs.PendingData.{EntryData};

    ghost Value = { EntryData };

    ghost view = { λ e. record {
      name = e.name;
      rtype = e.rtype;
      id = e.id;
      upstream = e.upstream;
      deadline = e.deadline;
      waiters = e.waiters;
    } };
}

/// An entry with one waiter, which asks the first upstream from the moment on. `Err` hands the waiter
/// back where an allocation fails.
pub(crate) fn make_entry<A: Allocator + Copy>(
    alloc: A,
    waiter: Waiter<A>,
    now: Moment,
    id: u16,
) -> Result<Entry<A>, Waiter<A>>
    ensures { MatchResult result (λ e. e ≡ new_entry waiter now id) (λ w. w ≡ waiter) }
{
    let name = match waiter.question.name.try_clone() {
        Ok(name) => name,
        Err(_) => return Err(waiter),
    };
    let rtype = waiter.question.rtype;
    match Waiters::of_one(alloc, waiter) {
        Ok(waiters) => Ok(Entry {
            name,
            rtype,
            id,
            upstream: 0,
            deadline: now.value() + TRY_SECONDS,
            waiters,
        }),
        Err(failed) => Err(failed.value),
    }
}

/// What `ask` does where the question has an entry: the waiter is in it already, joins it, or is
/// given back.
pub(crate) fn join<A: Allocator>(
    entry: &mut Entry<A>,
    waiter: Waiter<A>,
) -> Result<Asked, Unasked<A>>
    ensures joins { Joins entry.old waiter (ask_result result) entry.new }
    ensures back { IfErr result (λ u. u.waiter ≡ waiter) }
{
    if has_waiter(&entry.waiters, &waiter) {
        return Ok(Asked::Again);
    }
    if entry.waiters.len() >= MOST_WAITERS {
        let fault = PendingFault::WaitersFull;
        return Err(Unasked { fault, waiter });
    }
    match entry.waiters.push(waiter) {
        Ok(()) => Ok(Asked::Joined),
        Err(failed) => Err(Unasked {
            fault: PendingFault::OutOfMemory,
            waiter: failed.value,
        }),
    }
}
