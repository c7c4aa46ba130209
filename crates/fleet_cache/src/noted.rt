//! The lengths of names at which there may be a name error, or a flush.

ghost use Rattle.std.specs.Prelude.{◌≡◌, ◌≤◌, ◌<◌, false, [], ◌∷◌, get_or, length, nat_lt};
ghost use Rattle.fleet_name.specs.declared.bounds.TheConstants.{LONGEST_NAME};
ghost use Rattle.fleet_observe.specs.Observation.{IsObservation, Observations};
ghost use Rattle.fleet_observe.specs.declared.observation.kind.Kind.{Kind};
ghost use Rattle.fleet_cache.specs.declared.noted.TheConstants.{LENGTHS};
ghost use Rattle.fleet_cache.specs.steps.Noted.{AreNoted};

use fleet_name::bounds::LONGEST_NAME;
use fleet_observe::{Kind, Observation};
use std::alloc::Allocator;
use std::marker::Model;

// Lets through: a greater number, which costs memory alone: the table then has places that no name
// needs.
/// The number of lengths of names in full, in octets: 0 to `LONGEST_NAME` (RFC 1035 2.3.4).
const LENGTHS: usize = LONGEST_NAME + 1;

/// The lengths, in octets, of the names of all observations of a kind that came, kept or not. A name
/// whose length is not noted need not be looked up for one; nor do the names above it, where no shorter
/// length is noted. A length stays noted when its observations are gone, so it may say too much, and
/// never too little.
#[derive(Drop)]
pub(crate) struct Noted {
    /// Whether each length is noted.
    lengths: [bool; LENGTHS],
    /// At most the least length that is noted.
    least: usize,
}

impl Model for Noted {
    ghost use Rattle.fleet_cache.specs.steps.Noted.{NotedData};

    ghost Value = { NotedData };

    ghost view = { λ d. record { lengths = d.lengths; least = d.least } };
}

impl Noted {
    // Lets through: a body that has lengths noted from the start. Names of such a length are then
    // looked up in vain, which costs time; no answer changes.
    /// No length noted.
    pub(crate) fn new() -> Noted
        ensures { (kind : Kind) → AreNoted kind result [] }
    {
        Noted {
            lengths: [false; LENGTHS],
            least: LENGTHS,
        }
    }

    // Lets through: a body that notes more lengths than that of the observation, or a lesser `least`.
    // That costs look-ups in vain; no answer changes.
    /// Notes the length of an observation's name, if it is of the kind.
    pub(crate) fn note<A: Allocator>(&mut self, kind: Kind, observation: &Observation<A>)
        ensures noted { (items : Observations) → AreNoted kind self.old items
            → AreNoted kind self.new (observation.now ∷ items) }
        ensures lawful { IsObservation observation.now }
    {
        if observation.kind() == kind {
            let length = observation.name().octets().len();
            self.lengths[length] = true;
            self.least = self.least.min(length);
        }
    }

    /// Whether an observation of a name with as many octets as this one was noted.
    pub(crate) fn has_length_of(&self, name: &[u8]) -> bool
        requires { length name.now ≤ LONGEST_NAME }
        ensures { result ≡ get_or self.now.lengths (length name.now) false }
    {
        self.lengths[name.len()]
    }

    /// Whether any observation was noted.
    pub(crate) fn has_any(&self) -> bool
        ensures { result ≡ nat_lt self.now.least LENGTHS }
    {
        self.least < LENGTHS
    }

    /// Whether an observation of a name with fewer octets than this one was noted.
    pub(crate) fn has_shorter_than(&self, name: &[u8]) -> bool
        ensures { result ≡ nat_lt self.now.least (length name.now) }
    {
        self.least < name.len()
    }
}
