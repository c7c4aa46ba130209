//! Why a frame is refused.

ghost use Rattle.std.specs.Prelude.{◌≡◌};
ghost use Rattle.fleet_gossip.specs.declared.fault.FrameFault.TheVariants.{OutOfMemory};

use std::alloc::{AllocError, AllocFailed};
use thiserror::Error;

/// Why a frame is refused. Where it has several faults, it is the first one as its octets are read
/// in order.
#[derive(Clone, Copy, Debug, PartialEq, Eq, Error)]
pub enum FrameFault {
    /// It doesn't begin with the octets 44 47 (hex).
    #[error("bad magic")]
    BadMagic,
    /// Its version is not 1 or 2.
    #[error("bad version")]
    BadVersion,
    /// It has more than `LONGEST_FRAME` octets. This comes before all other faults.
    #[error("too long")]
    TooLong,
    /// It ends within a field, or before its last entry.
    #[error("truncated")]
    Truncated,
    /// A kind that the version lacks (it has 1 to 3, version 2 also 4), or a type that the kind doesn't
    /// have: a name error and a flush have 0, the others have none of 0, 41 and 128 to 255
    /// (RFC 6895 3.1).
    #[error("bad kind")]
    BadKind,
    /// A rank other than 1, 2 or 3, 2 where the observation is a denial, or 1 or 2 where it is a
    /// flush.
    #[error("bad rank")]
    BadRank,
    /// A stamp of more than `LATEST` seconds.
    #[error("bad moment")]
    BadMoment,
    /// A life of 0 seconds, of more than `LONGEST_LIFE`, of more than `LONGEST_DENIAL` where the
    /// observation is a denial, or of less than `LONGEST_LIFE` where it is a flush.
    #[error("bad life")]
    BadLife,
    /// A label of more than `LONGEST_LABEL` octets, a name of more than `LONGEST_NAME` with its
    /// zero octet, or a capital letter in it (RFC 1035 2.3.4).
    #[error("bad name")]
    BadName,
    /// Positive: no RDATA, more than one of an alias (CNAME), a body of more than `LONGEST_BODY`
    /// octets, RDATA that is not of its type's shape with names in full and in lower case, or RDATA
    /// that is not greater than the one before it. Negative: an owner that is no name, or neither
    /// the observation's name nor an ancestor of it, or RDATA that is not of the shape of an SOA.
    #[error("bad body")]
    BadBody,
    /// There are octets after the last entry.
    #[error("octets behind the last entry")]
    Trailing,
    /// An allocation failed.
    #[error("out of memory")]
    OutOfMemory,
}

impl From<AllocError> for FrameFault {
    ghost from_gives = { λ _ e. e ≡ OutOfMemory };

    fn from(_error: AllocError) -> FrameFault {
        FrameFault::OutOfMemory
    }
}

impl<T: Drop> From<AllocFailed<T>> for FrameFault {
    ghost from_gives = { λ _ e. e ≡ OutOfMemory };

    fn from(_error: AllocFailed<T>) -> FrameFault {
        FrameFault::OutOfMemory
    }
}
