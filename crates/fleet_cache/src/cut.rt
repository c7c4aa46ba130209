//! What hides observations of a name. What a kind does to others is here and in `Item`, so that
//! `fleet_front` knows of no kinds.

ghost use Rattle.std.specs.Prelude.{◌≡◌, None, Some};
ghost use Rattle.fleet_observe.specs.Lent.{IsLent};
ghost use Rattle.fleet_observe.specs.Observation.{ObservationData};
ghost use Rattle.fleet_cache.specs.Cut.{is_flushed, is_hidden as is_hidden_by};

use fleet_observe::{Kind, LentObservation, Moment, Observation};
use std::alloc::Allocator;
use std::marker::Model;

/// What hides observations of a name: a moment by which they have ended, and the greatest stamp of
/// the flushes of the name and of those above it, if there are any.
#[derive(Drop)]
pub struct Cut {
    /// What ends by this moment is hidden.
    pub(crate) moment: Moment,
    /// What is stamped by this moment is hidden, but for flushes.
    pub(crate) flushed: Option<Moment>,
}

impl Model for Cut {
    ghost use Rattle.fleet_cache.specs.Cut.{CutData};

    ghost Value = { CutData };

    ghost view = { λ c. record { moment = c.moment; flushed = c.flushed } };
}

impl Cut {
    /// The cut that hides what has ended by a moment, and nothing else.
    pub fn at(now: Moment) -> Cut
        ensures { result ≡ record { moment = now; flushed = None } }
    {
        Cut {
            moment: now,
            flushed: None,
        }
    }

    /// Whether it hides an observation.
    pub(crate) fn hides<A: Allocator>(&self, observation: &Observation<A>) -> bool
        ensures { result ≡ is_hidden_by self.now observation.now }
    {
        is_withdrawn(self.flushed, observation) || observation.expires() <= self.moment.value()
    }

    /// Whether it hides what is lent.
    pub(crate) fn hides_lent(&self, lent: &LentObservation<'_>) -> bool
        ensures { (o : ObservationData) → IsLent lent.now o → result ≡ is_hidden_by self.now o }
    {
        let expires = u64::from(lent.life) + lent.stamp.value();
        is_stamped_by(self.flushed, lent.kind, lent.stamp) || expires <= self.moment.value()
    }
}

/// Whether an observation is no flush and its stamp is at most `flushed`; `false` where there is
/// none.
fn is_withdrawn<A: Allocator>(flushed: Option<Moment>, observation: &Observation<A>) -> bool
    ensures { result ≡ is_flushed flushed observation.now }
{
    is_stamped_by(flushed, observation.kind(), observation.stamp())
}

/// Whether a kind is no flush and the stamp is at most `flushed`; `false` where there is none.
fn is_stamped_by(flushed: Option<Moment>, kind: Kind, stamp: Moment) -> bool
    ensures { (o : ObservationData) → kind ≡ o.kind → stamp ≡ o.stamp
        → result ≡ is_flushed flushed o }
{
    let Some(last) = flushed else {
        return false;
    };
    match kind {
        Kind::Flush => false,
        _ => stamp.value() <= last.value(),
    }
}
