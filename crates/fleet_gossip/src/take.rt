//! Taking the observations of a frame into a cache.

ghost use Rattle.std.specs.Prelude.{◌≡◌, ◌∷◌, MatchResult, IfOk, OnErr, IsTrue};
ghost use Rattle.fleet_name.specs.Name.{IsWire};
ghost use Rattle.fleet_observe.specs.Lent.{IsLent};
ghost use Rattle.fleet_observe.specs.Observation.{IsObservation, ObservationData, Observations};
ghost use Rattle.fleet_cache.specs.Cached.{IsCached};
ghost use Rattle.fleet_gossip.specs.Taken.{Takes, TakesFrame, IsPassedOver, StopsAt};
ghost use Rattle.fleet_gossip.specs.steps.Reading.{AreEntryOctets};
ghost use Rattle.fleet_gossip.specs.steps.Taking.{AreMade, MakesEntries, HasUnheld, TakesFirstOf};

use crate::fault::FrameFault;
use crate::frame::{Entries, read_frame};
use crate::known::read_known_entry;
use crate::reader::Reader;
use fleet_cache::Cache;
use fleet_observe::{LentObservation, Observation};
use std::alloc::{AllocError, Allocator};
use thiserror::Error;

/// Why a frame was not taken whole.
#[derive(Clone, Copy, Debug, PartialEq, Eq, Error)]
pub enum TakeFault {
    /// It is refused, for the first fault as its octets are read in order. Nothing was taken.
    #[error("{0}")]
    Refused(FrameFault),
    /// An allocation failed: for the observations, before any was taken, or for one that the cache
    /// was to hold. Those before it were taken.
    #[error("out of memory after {taken} observations")]
    OutOfMemory {
        /// The number of observations that were taken: exactly the first ones, in their order.
        taken: usize,
    },
}

/// Whether what is lent need not be taken in: it had ended at the floor or is withdrawn by a flush,
/// so that it is not looked for, or is held.
fn is_passed_over<A: Allocator>(cache: &Cache<A>, lent: &LentObservation<'_>) -> bool
    requires { IsWire lent.now.name.now }
    ensures taken { (o : ObservationData) (s : Observations) → IsLent lent.now o → IsObservation o
        → IsTrue result → IsCached s cache.now.floor cache.now.items
        → IsCached (o ∷ s) cache.now.floor cache.now.items }
    ensures passed { (o : ObservationData) → IsLent lent.now o → IsObservation o
        → IsPassedOver cache.now o → IsTrue result }
{
    cache.is_past_lent(lent) || cache.holds(lent)
}

// Lets through: another number, which no clause and no test has. Where it is greater, more is copied
// after what is not held.
/// The most entries that are made unseen before the next one is looked at.
const MOST_UNSEEN: u16 = 63;

/// Which entries of a frame are looked at. Most frames are nearly all held, or nearly all new, as for
/// a site that comes late. So after each entry that is looked at and not passed over some are made
/// unseen: none, one, three, and so on up to `MOST_UNSEEN`, until one that is looked at is passed
/// over.
#[derive(Drop)]
struct Unseen {
    /// How many are made unseen after the next one that is looked at, if it is not passed over.
    run: u16,
    /// How many are made unseen before the next one is looked at.
    left: u16,
}

impl Unseen {
    /// The first entry is looked at.
    fn new() -> Unseen
        ensures { result.left ≡ 0 }
    {
        Unseen { run: 0, left: 0 }
    }

    // Lets through: a body that looks at each entry, which costs time alone. Or one that passes over
    // nothing more once an entry was not passed over: what is held is then copied, and a frame takes
    // more memory. The test `what_is_held_is_looked_for_behind_what_is_not` has no room for that
    // (tested body `stays_unseen_behind_what_is_not_held`).
    /// Whether the next entry is looked at and passed over.
    fn passes_over<A: Allocator>(&mut self, cache: &Cache<A>, lent: &LentObservation<'_>) -> bool
        requires { IsWire lent.now.name.now }
        ensures taken { (o : ObservationData) (s : Observations) → IsLent lent.now o
            → IsObservation o → IsTrue result → IsCached s cache.now.floor cache.now.items
            → IsCached (o ∷ s) cache.now.floor cache.now.items }
        ensures passed { (o : ObservationData) → IsLent lent.now o → IsObservation o
            → self.old.left ≡ 0 → IsPassedOver cache.now o → IsTrue result }
        ensures seen { IsTrue result → self.new.left ≡ 0 }
    {
        if self.left > 0 {
            self.left -= 1;
            return false;
        }
        let over = is_passed_over(cache, lent);
        self.left = if over { 0 } else { self.run };
        self.run = if over {
            0
        } else {
            self.run.min(MOST_UNSEEN / 2) * 2 + 1
        };
        over
    }
}

/// The observations of those lawful entries that a cache does not pass over, or that are made unseen,
/// each with the place of its entry, from 0 on. For the others nothing is allocated. `Err` where an
/// allocation fails.
fn to_made<A: Allocator + Copy>(
    alloc: A,
    cache: &Cache<A>,
    entries: &Entries<'_>,
) -> Result<Vec<(u16, Observation<A>), A>, AllocError>
    requires { AreEntryOctets entries.now.octets.now entries.now.version entries.now.count }
    ensures made { IfOk result (λ v. MakesEntries entries.now.octets.now entries.now.version
        entries.now.count cache.now v.items) }
    ensures memory { OnErr result (HasUnheld entries.now.octets.now entries.now.version
        entries.now.count cache.now) }
{
    let mut reader = Reader::new(entries.octets);
    let mut made = Vec::new(alloc);
    let mut unseen = Unseen::new();
    for place in 0..entries.count {
        let entry = read_known_entry(&mut reader, entries.version);
        if !unseen.passes_over(cache, &entry.lent()) {
            made.reserve(usize::from(entries.count - place))?;
            made.push((place, entry.to_observation(alloc)?))?;
        }
    }
    Ok(made)
}

/// Takes observations in, in their order. `Err` is the place of the first one that an allocation
/// failed for; those before it were taken.
fn take_made<A: Allocator + Copy>(
    cache: &mut Cache<A>,
    made: Vec<(u16, Observation<A>), A>,
) -> Result<(), u16>
    ensures taken { (list : Observations) → AreMade cache.old 0 list made.items
        → MatchResult result (λ _. Takes cache.old cache.new list)
        (TakesFirstOf list cache.old cache.new) }
    ensures floor { cache.new.floor ≡ cache.old.floor }
{
    for (place, observation) in made {
        if cache.take(observation).is_err() {
            return Err(place);
        }
    }
    Ok(())
}

// Lets through: a body that takes the first ones before all are made, so that they stay where memory
// fails for a later one. By its type `to_made` can't do so, since it only borrows the cache; the test
// `a_frame_is_made_before_it_is_taken` sees one that does.
/// Takes the observations of a frame into a cache, in their order, and says how many the frame has. The
/// cache is then that of the set with the frame's list.
///
/// All octets are checked first, as `decode` does; where they are no frame, nothing is taken, and the
/// fault is the first one. An observation that had ended at the floor or is withdrawn by a flush is
/// passed over, and so is one that the cache holds, which is compared in place: nothing is allocated
/// for those. After two in a row that are not passed over, the next ones are made unseen, whatever they
/// are, up to 63 before one is looked at again. So a frame with two such entries may ask for as much
/// memory as `decode` does.
///
/// All that are made are made before the first is taken, so that where memory fails for one of them,
/// the cache is as it was. Where it fails later, exactly the first ones were taken, as many as the
/// fault says, and the next one is still to be held. `OutOfMemory` comes only of a frame with an
/// observation that is neither past nor one of the cache's items: a frame of nothing else is taken
/// without memory.
pub fn take_frame<A: Allocator + Copy>(
    alloc: A,
    cache: &mut Cache<A>,
    octets: &[u8],
) -> Result<usize, TakeFault>
    ensures taken { MatchResult result (TakesFrame octets.now cache.old cache.new)
        (StopsAt octets.now cache.old cache.new) }
    ensures floor { cache.new.floor ≡ cache.old.floor }
{
    let entries = match read_frame(octets) {
        Ok(entries) => entries,
        Err(fault) => return Err(TakeFault::Refused(fault)),
    };
    let Ok(made) = to_made(alloc, cache, &entries) else {
        return Err(TakeFault::OutOfMemory { taken: 0 });
    };
    match take_made(cache, made) {
        Ok(()) => Ok(usize::from(entries.count)),
        Err(place) => Err(TakeFault::OutOfMemory {
            taken: usize::from(place),
        }),
    }
}
