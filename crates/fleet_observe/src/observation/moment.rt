//! Moments in whole seconds.

ghost use Rattle.std.specs.Prelude.{◌≡◌, ◌≤◌, max};
ghost use Rattle.std.specs.Option.{SomeIff};
ghost use Rattle.fleet_observe.specs.declared.bounds.TheConstants.{LATEST};

use crate::bounds::LATEST;
use std::marker::Model;

/// A moment: a whole number of seconds, at most `LATEST`, since one that the caller chose.
#[derive(Clone, Copy, PartialEq, Eq, PartialOrd, Ord, Debug)]
pub struct Moment {
    seconds: u64,
}

impl Model for Moment {
    ghost use Rattle.std.specs.Prelude.{ℕ, ◌≤◌};
    ghost use Rattle.fleet_observe.specs.declared.bounds.TheConstants.{LATEST};

    ghost Value = { ℕ };

    ghost view = { λ m. m.seconds };

    ghost invariant = { λ m. m.seconds ≤ LATEST };

    ghost inverse = { λ n. record { seconds = n } };
}

impl Moment {
    /// The moment after this many seconds; `None` where they are more than `LATEST`.
    pub fn new(seconds: u64) -> Option<Moment>
        ensures { SomeIff result (seconds ≤ LATEST) seconds }
    {
        if seconds > LATEST {
            return None;
        }
        Some(Moment { seconds })
    }

    /// The seconds of the moment, at most `LATEST`.
    pub fn value(self) -> u64
        ensures value { result ≡ self }
        ensures bounded { result ≤ LATEST }
    {
        self.seconds
    }

    /// The later of this moment and the other.
    pub fn later(self, other: Moment) -> Moment
        ensures { result ≡ max self other }
    {
        if self.seconds < other.seconds {
            return other;
        }
        self
    }
}
