//! Why a label can't be added to a name.

ghost use Rattle.std.specs.Prelude.{◌≡◌};
ghost use Rattle.fleet_name.specs.declared.fault.NameFault.TheVariants.{OutOfMemory};

use std::alloc::AllocError;
use thiserror::Error;

/// Why a label can't be added to a name. Where several reasons hold, it is the first one in this
/// order.
#[derive(Clone, Copy, Debug, PartialEq, Eq, Error)]
pub enum NameFault {
    /// The label has no octets.
    #[error("empty label")]
    EmptyLabel,
    /// The label has more than 63 octets (RFC 1035 2.3.4).
    #[error("long label")]
    LongLabel,
    /// The name in full, its zero octet included, would have more than 255 octets (RFC 1035 2.3.4).
    #[error("long name")]
    LongName,
    /// An allocation failed.
    #[error("out of memory")]
    OutOfMemory,
}

impl From<AllocError> for NameFault {
    ghost from_gives = { λ _ e. e ≡ OutOfMemory };

    fn from(_error: AllocError) -> NameFault {
        NameFault::OutOfMemory
    }
}
