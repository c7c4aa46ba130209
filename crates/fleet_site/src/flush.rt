//! What a site does with a name that is flushed.

ghost use Rattle.std.specs.Prelude.{◌≡◌};
ghost use Rattle.fleet_observe.specs.Observation.{Observations};
ghost use Rattle.fleet_cache.specs.Cached.{IsCached};
ghost use Rattle.fleet_pending.specs.PendingData.{PendingData};
ghost use Rattle.fleet_site.specs.steps.Carried.{DoesOrStops};
ghost use Rattle.fleet_site.specs.gossip.Flush.{Flushed};

use crate::outcome::{Frames, Outcome, Packets, SiteFault};
use fleet_cache::Cache;
use fleet_gossip::pack;
use fleet_name::Name;
use fleet_observe::{Moment, Observation};
use std::alloc::Allocator;

/// Takes the flush of a name as of a moment, and sends it as its frame, which is made first.
pub(crate) fn flush_name<A: Allocator + Copy>(
    cache: &mut Cache<A>,
    now: Moment,
    name: &Name<A>,
) -> Result<Outcome<A>, SiteFault>
    ensures flushed { (o : PendingData) (s : Observations)
        → IsCached s cache.old.floor cache.old.items
        → DoesOrStops (Flushed o name.now now) (Unit {0})
        (record { taken = s; asking = o }) result
        (record { cache = cache.new; asking = o }) }
    ensures floor { cache.new.floor ≡ cache.old.floor }
{
    let alloc = *cache.allocator();
    let name = name.try_clone()?;
    let mut observed = Vec::with_capacity(alloc, 1)?;
    observed.push_reserved(Observation::flush(name, now));
    let frames = Frames::new(pack(alloc, &observed)?);
    match cache.take_list(observed) {
        Ok(()) => Ok(Outcome {
            packets: Packets::new(Vec::new(alloc)),
            frames,
            taken: 1,
            refused: None,
            more: false,
        }),
        Err(stopped) => Err(SiteFault::OutOfMemory {
            taken: stopped.taken,
        }),
    }
}
