//! Kinds of observations.

ghost use Rattle.std.specs.Prelude.{◌≡◌};

/// What an observation says of its name.
#[derive(Clone, Copy, Debug, PartialEq, Eq)]
pub enum Kind {
    /// 1: there is no such name, nor any below it (RFC 8020 2).
    NameError = 1,
    /// 2: the name has no data of the type (RFC 2308 2.2).
    NoData = 2,
    /// 3: the name has these data of the type, whole as an RRset (RFC 2181 5).
    Positive = 3,
    /// 4: what was observed of the name, and of those below it, up to the moment is withdrawn.
    Flush = 4,
}

impl Kind {
    ghost use Rattle.fleet_observe.specs.Observation.{kind_number};

    /// The number of the kind in keys and frames.
    pub fn number(self) -> u8
        ensures { result ≡ kind_number self }
    {
        self as u8
    }
}
