//! What calls at a site give, as what an event and a question give.

ghost use Rattle.std.specs.Prelude.{◌≡◌};
ghost use Rattle.fleet_site.specs.OutcomeData.{nothing};
ghost use Rattle.fleet_world.specs.steps.Happens.{FailsAs, LooksAs};

use crate::fault::WorldFault;
use fleet_name::Octets;
use fleet_site::{Frames, Looked, Outcome, Packets, SiteFault};
use std::alloc::Allocator;

/// Frames are sent, a number of observations was taken, and that is all.
pub(crate) fn outcome_of<A: Allocator + Copy>(frames: Vec<Octets<A>, A>, taken: usize) -> Outcome<A>
    ensures { result ≡ record nothing { frames = frames.items; taken = taken } }
{
    Outcome {
        packets: Packets::new(Vec::new(*frames.allocator())),
        frames: Frames::new(frames),
        taken,
        refused: None,
        more: false,
    }
}

/// A fault of a site, as one of a world.
pub(crate) fn fault_of<A: Allocator>(fault: SiteFault) -> WorldFault<A>
    ensures { FailsAs fault result }
{
    match fault {
        SiteFault::OutOfMemory { taken } => WorldFault::Memory { taken },
    }
}

/// What asking gave. It takes nothing: an allocation that failed found nothing taken.
pub(crate) fn as_looked<A: Allocator>(
    done: Result<Looked<A>, SiteFault>,
) -> Result<Looked<A>, WorldFault<A>>
    ensures { LooksAs done result }
{
    match done {
        Ok(looked) => Ok(looked),
        Err(_) => Err(WorldFault::Memory { taken: 0 }),
    }
}
