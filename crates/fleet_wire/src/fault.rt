//! Why a message can't be read.

ghost use Rattle.std.specs.Prelude.{◌≡◌};
ghost use Rattle.fleet_wire.specs.declared.fault.ReadFault.TheVariants.{OutOfMemory};

use std::alloc::{AllocError, AllocFailed};
use thiserror::Error;

/// Why a message can't be read: its first fault. Its length is checked first, then its octets in
/// their order.
#[derive(Clone, Copy, Debug, PartialEq, Eq, Error)]
pub enum ReadFault {
    /// It has under 12 octets, so no header (RFC 1035 4.1.1).
    #[error("too short")]
    TooShort,
    /// It has over 512 octets (RFC 1035 2.3.4).
    #[error("too long")]
    TooLong,
    /// It ends within a name, a question or a record (RFC 1035 4.1.2, 4.1.3).
    #[error("truncated")]
    Truncated,
    /// A length octet has the top bits 01 or 10 (RFC 1035 4.1.4).
    #[error("bad label")]
    BadLabel,
    /// A pointer doesn't lead to a place before the run of labels that holds it (RFC 1035 4.1.4).
    #[error("bad pointer")]
    BadPointer,
    /// A name in full would have more than 255 octets (RFC 1035 2.3.4).
    #[error("long name")]
    LongName,
    /// The parts of RDATA end at another octet than the RDATA (RFC 1035 3.3).
    #[error("bad RDATA")]
    BadRdata,
    /// QDCOUNT is not 1 (RFC 1035 4.1.1).
    #[error("not one question")]
    QuestionCount,
    /// An allocation failed.
    #[error("out of memory")]
    OutOfMemory,
}

impl From<AllocError> for ReadFault {
    ghost from_gives = { λ _ e. e ≡ OutOfMemory };

    fn from(_error: AllocError) -> ReadFault {
        ReadFault::OutOfMemory
    }
}

impl<T: Drop> From<AllocFailed<T>> for ReadFault {
    ghost from_gives = { λ _ e. e ≡ OutOfMemory };

    fn from(_error: AllocFailed<T>) -> ReadFault {
        ReadFault::OutOfMemory
    }
}
