//! What a site does with a reply from an upstream: it is relayed to those who wait for it.

ghost use Rattle.std.specs.Prelude.{◌≡◌, ◌<◌, IfOk, IfErr, map};
ghost use Rattle.fleet_observe.specs.Observation.{Observations};
ghost use Rattle.fleet_cache.specs.Cached.{IsCached};
ghost use Rattle.fleet_site.specs.steps.Carried.{DoesOrStops};
ghost use Rattle.fleet_site.specs.steps.Relayed.{IsRelayOf, IsMade, IsRelayFor, Unlearns};
ghost use Rattle.fleet_site.specs.reply.Reply.{IsAnswering, IsReplying, Replied, relay_to};
ghost use Rattle.fleet_site.specs.Table.{KeepsTable};

use crate::digested::{ReplyFault, digest_of, message_in, refuse};
use crate::outcome::{Frames, Outcome, Packet, Packets, Refusal, SiteFault};
use fleet_cache::Cache;
use fleet_gossip::pack;
use fleet_name::Octets;
use fleet_observe::{Digest, Moment, Observation, observations, relay};
use fleet_pending::{Entry, Pending, Waiter, settling_gives_its_entry, waiters_stay};
use fleet_wire::read_header;
use std::alloc::{AllocError, Allocator};

/// All that a reply makes a site write, before its cache or its table changes.
#[derive(Drop)]
pub(crate) struct Relay<A: Allocator> {
    /// The id of the entry that it is for.
    id: u16,
    /// One for each who waits, in order of joining.
    packets: Packets<A>,
    /// The observations, packed.
    frames: Frames<A>,
    /// The observations.
    observed: Vec<Observation<A>, A>,
}

/// The octets of the reply for a waiter.
fn relay_octets<A: Allocator + Copy>(
    alloc: A,
    digest: &Digest<A>,
    waiter: &Waiter<A>,
) -> Result<Octets<A>, AllocError>
    ensures { IfOk result (λ octets. octets ≡ (relay_to digest.now waiter.now).octets) }
{
    let octets = relay(alloc, digest, &waiter.question, waiter.id, true)?;
    Ok(Octets::new(octets))
}

/// The packets of the reply for waiters, in their order.
fn relay_packets<A: Allocator + Copy>(
    alloc: A,
    digest: &Digest<A>,
    waiters: &[Waiter<A>],
) -> Result<Packets<A>, AllocError>
    ensures { IfOk result (λ ps. ps ≡ map (relay_to digest.now) waiters.now) }
{
    let mut packets = Vec::new(alloc);
    for waiter in waiters {
        let bytes = relay_octets(alloc, digest, waiter)?;
        packets.push(Packet {
            to: waiter.from,
            bytes,
        })?;
    }
    Ok(Packets::new(packets))
}

/// All that is written where an entry is settled by a reply.
fn make_relay<A: Allocator + Copy>(
    alloc: A,
    digest: &Digest<A>,
    now: Moment,
    entry: &Entry<A>,
) -> Result<Relay<A>, AllocError>
    ensures { IfOk result (λ r. IsMade digest.now now entry.now r) }
{
    let packets = relay_packets(alloc, digest, entry.waiters.as_slice())?;
    let observed = observations(alloc, digest, now)?;
    let frames = Frames::new(pack(alloc, &observed)?);
    Ok(Relay {
        id: entry.id,
        packets,
        frames,
        observed,
    })
}

/// All that octets from an upstream make a site write.
fn relay_of<A: Allocator + Copy>(
    pending: &Pending<A>,
    upstream: u8,
    now: Moment,
    octets: &[u8],
) -> Result<Relay<A>, ReplyFault>
    ensures relayed { IfOk result (λ r. IsRelayOf pending.now now upstream octets.now r) }
    ensures refused { IfErr result (λ e. Unlearns (Replied pending.now now upstream octets.now)
        (IsReplying octets.now) pending.now e) }
{
    let header = match read_header(octets) {
        Some(header) => header,
        None => return Err(ReplyFault::Refused(Refusal::Dropped)),
    };
    if header.response {
        relay_of_reply(pending, upstream, now, octets)
    } else {
        Err(ReplyFault::Refused(Refusal::Dropped))
    }
}

/// All that a reply from an upstream makes a site write.
fn relay_of_reply<A: Allocator + Copy>(
    pending: &Pending<A>,
    upstream: u8,
    now: Moment,
    octets: &[u8],
) -> Result<Relay<A>, ReplyFault>
    requires { IsAnswering octets.now }
    ensures relayed { IfOk result (λ r. IsRelayOf pending.now now upstream octets.now r) }
    ensures refused { IfErr result (λ e. Unlearns (Replied pending.now now upstream octets.now)
        (IsReplying octets.now) pending.now e) }
{
    let alloc = *pending.allocator();
    let message = message_in(alloc, octets)?;
    let id = message.header().id;
    let question = message.question();
    let entry = match pending.find(upstream, id, question) {
        Some(entry) => entry,
        None => return Err(ReplyFault::Refused(Refusal::Unmatched)),
    };
    let digest = digest_of(alloc, &message)?;
    settling_gives_its_entry();
    match make_relay(alloc, &digest, now, entry) {
        Ok(relay) => Ok(relay),
        Err(_) => Err(ReplyFault::NoMemory),
    }
}

/// Does what a reply from an upstream calls for: it is relayed to every waiter of its entry in order of
/// joining, its observations go out and are taken, and the entry is settled.
pub(crate) fn take_reply<A: Allocator + Copy>(
    cache: &mut Cache<A>,
    pending: &mut Pending<A>,
    upstream: u8,
    now: Moment,
    octets: &[u8],
) -> Result<Outcome<A>, SiteFault>
    ensures replied { (s : Observations) → IsCached s cache.old.floor cache.old.items
        → DoesOrStops (Replied pending.old now upstream octets.now) (IsReplying octets.now)
        (record { taken = s; asking = pending.old }) result
        (record { cache = cache.new; asking = pending.new }) }
    ensures floor { cache.new.floor ≡ cache.old.floor }
    ensures table { KeepsTable pending.old pending.new }
{
    match relay_of(pending, upstream, now, octets) {
        Ok(relay) => settle_by(cache, pending, relay),
        Err(fault) => refuse(*cache.allocator(), fault),
    }
}

/// Takes the observations of a relay, and settles its entry.
fn settle_by<A: Allocator + Copy>(
    cache: &mut Cache<A>,
    pending: &mut Pending<A>,
    relay: Relay<A>,
) -> Result<Outcome<A>, SiteFault>
    ensures taken { (s : Observations) → IsCached s cache.old.floor cache.old.items
        → IsRelayFor relay s pending.old result cache.new pending.new }
    ensures floor { cache.new.floor ≡ cache.old.floor }
    ensures table { KeepsTable pending.old pending.new }
{
    let Relay {
        id,
        packets,
        frames,
        observed,
    } = relay;
    let taken = observed.len();
    match cache.take_list(observed) {
        Ok(()) => {
            let _ = pending.settle(id);
            waiters_stay();
            Ok(Outcome {
                packets,
                frames,
                taken,
                refused: None,
                more: false,
            })
        }
        Err(stopped) => Err(SiteFault::OutOfMemory {
            taken: stopped.taken,
        }),
    }
}
