//! What a site learns from a reply that it is handed.

ghost use Rattle.std.specs.Prelude.{◌≡◌, IfOk, IfErr};
ghost use Rattle.fleet_wire.specs.Message.{HasReply};
ghost use Rattle.fleet_observe.specs.Observation.{Observations};
ghost use Rattle.fleet_cache.specs.Cached.{IsCached};
ghost use Rattle.fleet_pending.specs.PendingData.{PendingData};
ghost use Rattle.fleet_site.specs.steps.Carried.{DoesOrStops, TakesOrStops};
ghost use Rattle.fleet_site.specs.steps.Relayed.{Unlearns};
ghost use Rattle.fleet_site.specs.reply.Learn.{Learnt};
ghost use Rattle.fleet_site.specs.SiteModel.{takes};

use crate::digested::{ReplyFault, digest_of, message_in, refuse};
use crate::outcome::{Outcome, SiteFault};
use fleet_cache::Cache;
use fleet_observe::{Moment, Observation, observations};
use std::alloc::Allocator;

/// The observations that a reply holds.
fn read_observations<A: Allocator + Copy>(
    alloc: A,
    now: Moment,
    octets: &[u8],
) -> Result<Vec<Observation<A>, A>, ReplyFault>
    ensures learnt { IfOk result (λ v.
        (o : PendingData) → Learnt o now octets.now (takes v.items o)) }
    ensures refused { IfErr result (λ e.
        (o : PendingData) → Unlearns (Learnt o now octets.now) (HasReply octets.now) o e) }
{
    let message = message_in(alloc, octets)?;
    let digest = digest_of(alloc, &message)?;
    match observations(alloc, &digest, now) {
        Ok(observed) => Ok(observed),
        Err(_) => Err(ReplyFault::NoMemory),
    }
}

/// Takes observations, and sends nothing.
fn take_all<A: Allocator + Copy>(
    cache: &mut Cache<A>,
    observations: Vec<Observation<A>, A>,
) -> Result<Outcome<A>, SiteFault>
    ensures taken { (s : Observations) → IsCached s cache.old.floor cache.old.items
        → TakesOrStops s observations.items result cache.new }
    ensures floor { cache.new.floor ≡ cache.old.floor }
{
    let alloc = *cache.allocator();
    let taken = observations.len();
    match cache.take_list(observations) {
        Ok(()) => Ok(Outcome::without_packets(alloc, taken, None)),
        Err(stopped) => Err(SiteFault::OutOfMemory {
            taken: stopped.taken,
        }),
    }
}

/// Takes the observations of a reply that is handed in.
pub(crate) fn learn_reply<A: Allocator + Copy>(
    cache: &mut Cache<A>,
    now: Moment,
    octets: &[u8],
) -> Result<Outcome<A>, SiteFault>
    ensures learnt { (o : PendingData) (s : Observations)
        → IsCached s cache.old.floor cache.old.items
        → DoesOrStops (Learnt o now octets.now) (HasReply octets.now)
        (record { taken = s; asking = o }) result
        (record { cache = cache.new; asking = o }) }
    ensures floor { cache.new.floor ≡ cache.old.floor }
{
    let alloc = *cache.allocator();
    match read_observations(alloc, now, octets) {
        Ok(observed) => take_all(cache, observed),
        Err(fault) => refuse(alloc, fault),
    }
}
