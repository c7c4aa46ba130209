//! What a site does as time passes.

ghost use Rattle.std.specs.Prelude.{Some, ◌≡◌, ◌<◌, ◌+◌, IsTrue, IfOk, IfErr, map};
ghost use Rattle.fleet_pending.specs.Due.{NoneDue, Dues, due_entry};
ghost use Rattle.fleet_pending.specs.PendingData.{IsEntryData};
ghost use Rattle.fleet_site.specs.steps.Carried.{SaysOrStops};
ghost use Rattle.fleet_site.specs.steps.Plan.{IsPlan, SaysMore};
ghost use Rattle.fleet_site.specs.Table.{IsTableOf, KeepsTable};
ghost use Rattle.fleet_site.specs.Tick.{Ticked, LeavesFewer, failure_to};

use crate::config::addr_of;
use crate::outcome::{Outcome, Packet, Packets, SiteFault};
use crate::query::entry_query;
use fleet_name::Octets;
use fleet_observe::Moment;
use fleet_pending::{
    Addr, Due, Entry, Pending, Waiter, serving_leaves_fewer_due, settling_gives_its_entry,
    waiters_stay,
};
use fleet_wire::rcode::SERVER_FAILURE;
use fleet_wire::{Outline, write_reply};
use std::alloc::{AllocError, Allocator};

/// All that the first due entry makes a site write, before its table changes.
#[derive(Drop)]
pub(crate) enum Plan<A: Allocator> {
    /// The entry with this id goes on to the next upstream.
    Retry(u16, Outcome<A>),
    /// The entry with this id is settled.
    Fail(u16, Outcome<A>),
}

/// The octets of the server failure for a waiter.
fn failure_octets<A: Allocator + Copy>(
    alloc: A,
    waiter: &Waiter<A>,
) -> Result<Octets<A>, AllocError>
    ensures { IfOk result (λ octets. octets ≡ (failure_to waiter.now).octets) }
{
    let outline = Outline::new(
        alloc,
        waiter.id,
        0,
        true,
        SERVER_FAILURE,
        false,
        Some(&waiter.question),
    );
    Ok(Octets::new(write_reply(alloc, &outline)?))
}

/// The packets for waiters where no upstream answered, in their order.
fn failure_packets<A: Allocator + Copy>(
    alloc: A,
    waiters: &[Waiter<A>],
) -> Result<Packets<A>, AllocError>
    ensures { IfOk result (λ ps. ps ≡ map failure_to waiters.now) }
{
    let mut packets = Vec::new(alloc);
    for waiter in waiters {
        let bytes = failure_octets(alloc, waiter)?;
        packets.push(Packet {
            to: waiter.from,
            bytes,
        })?;
    }
    Ok(Packets::new(packets))
}

/// What is written for the first due entry.
fn make_plan<A: Allocator + Copy>(
    pending: &Pending<A>,
    upstreams: &[Addr],
    now: Moment,
    due: Due<'_, A>,
) -> Result<Plan<A>, AllocError>
    requires table { IsTableOf upstreams.now pending.now }
    requires dues { Dues pending.now now (Some due) }
    requires is_open { IsEntryData (due_entry due) }
    ensures plan { IfOk result (λ p. IsPlan upstreams.now pending.now now p) }
    ensures memory { IfErr result (λ _. ¬ NoneDue pending.now.entries now) }
{
    let alloc = *pending.allocator();
    match due {
        Due::Retry {
            upstream,
            id,
            entry,
        } => {
            let octets = entry_query(alloc, id, entry)?;
            let to = addr_of(upstreams, upstream);
            let outcome = Outcome::with_packet(alloc, to, octets, None)?;
            Ok(Plan::Retry(id, outcome))
        }
        Due::Failed { id, entry } => {
            let packets = failure_packets(alloc, entry.waiters.as_slice())?;
            let outcome = Outcome::with_packets(alloc, packets, 0, None);
            Ok(Plan::Fail(id, outcome))
        }
    }
}

/// Serves the first due entry: its query goes to the next upstream, or after the last all waiters get a
/// server failure. An entry that was served is due later, or gone: else the ticks of a turn would not
/// end. Where none is due, the table looks ahead to its first deadline.
pub(crate) fn serve_due<A: Allocator + Copy>(
    pending: &mut Pending<A>,
    upstreams: &[Addr],
    now: Moment,
) -> Result<Outcome<A>, SiteFault>
    requires { IsTableOf upstreams.now pending.old }
    ensures ticked { SaysOrStops (Ticked upstreams.now pending.old now)
        (¬ NoneDue pending.old.entries now) pending.old result pending.new }
    ensures fewer { IfOk result (λ o. IsTrue o.more → LeavesFewer pending.old pending.new now) }
    ensures table { KeepsTable pending.old pending.new }
{
    waiters_stay();
    settling_gives_its_entry();
    serving_leaves_fewer_due();
    let Some(due) = pending.due(now) else {
        let idle = Outcome::without_packets(*pending.allocator(), 0, None);
        pending.look_ahead(now);
        return Ok(idle);
    };
    let plan = match make_plan(pending, upstreams, now, due) {
        Ok(plan) => plan,
        Err(_) => return Err(SiteFault::OutOfMemory { taken: 0 }),
    };
    match plan {
        Plan::Retry(id, outcome) => {
            let _ = pending.advance(id, now);
            Ok(and_more(pending, now, outcome))
        }
        Plan::Fail(id, outcome) => {
            let _ = pending.settle(id);
            Ok(and_more(pending, now, outcome))
        }
    }
}

/// The outcome, which says whether an entry is due.
fn and_more<A: Allocator>(pending: &Pending<A>, now: Moment, outcome: Outcome<A>) -> Outcome<A>
    ensures { SaysMore pending.now now outcome result }
{
    match pending.due(now) {
        Some(_) => with_more(outcome, true),
        None => with_more(outcome, false),
    }
}

/// The outcome, which says whether there is more.
fn with_more<A: Allocator>(mut outcome: Outcome<A>, more: bool) -> Outcome<A>
    ensures { result ≡ record outcome { more = more } }
{
    outcome.more = more;
    outcome
}
