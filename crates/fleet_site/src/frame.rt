//! What a site does with a frame.

ghost use Rattle.std.specs.Prelude.{◌≡◌};
ghost use Rattle.fleet_observe.specs.Observation.{Observations};
ghost use Rattle.fleet_cache.specs.Cached.{IsCached};
ghost use Rattle.fleet_gossip.specs.Frame.{HasEntries};
ghost use Rattle.fleet_pending.specs.PendingData.{PendingData};
ghost use Rattle.fleet_site.specs.steps.Carried.{DoesOrStops};
ghost use Rattle.fleet_site.specs.gossip.Frame.{Framed};

use crate::outcome::{Outcome, Refusal, SiteFault};
use fleet_cache::Cache;
use fleet_gossip::TakeFault;
use std::alloc::Allocator;

/// Takes a frame's observations. For a frame of nothing but what is past or held nothing is allocated.
pub(crate) fn take_frame<A: Allocator + Copy>(
    cache: &mut Cache<A>,
    octets: &[u8],
) -> Result<Outcome<A>, SiteFault>
    ensures framed { (o : PendingData) (s : Observations)
        → IsCached s cache.old.floor cache.old.items
        → DoesOrStops (Framed o octets.now) (HasEntries octets.now)
        (record { taken = s; asking = o }) result
        (record { cache = cache.new; asking = o }) }
    ensures floor { cache.new.floor ≡ cache.old.floor }
{
    let alloc = *cache.allocator();
    match fleet_gossip::take_frame(alloc, cache, octets) {
        Ok(taken) => Ok(Outcome::without_packets(alloc, taken, None)),
        Err(stop) => match stop {
            TakeFault::Refused(fault) => {
                Ok(Outcome::without_packets(alloc, 0, Some(Refusal::Frame(fault))))
            }
            TakeFault::OutOfMemory { taken } => Err(SiteFault::OutOfMemory { taken }),
        },
    }
}
