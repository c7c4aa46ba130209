//! Why values make no observation.

use thiserror::Error;

/// Why values make no observation. Where several reasons hold, it is the first one in this order.
#[derive(Clone, Copy, Debug, PartialEq, Eq, Error)]
pub enum ObservationFault {
    /// The rank is not one of the kind: 1, 2 or 3 for a positive observation, 1 or 3 for a negative
    /// one.
    #[error("bad rank")]
    BadRank,
    /// The life is zero, or over `LONGEST_LIFE`, of a negative observation over `LONGEST_DENIAL`.
    #[error("bad life")]
    BadLife,
    /// No data can have the type: it is 0, 41 (OPT), or one of 128 to 255 (RFC 6895 3.1).
    #[error("bad kind")]
    BadKind,
    /// Positive: no RDATA, more than one of an alias (CNAME), RDATA that is not of its type's shape
    /// with names in full and in lower case, RDATAs out of ascending order, or a body over
    /// `LONGEST_BODY` octets. Negative: an owner that is neither the name nor an ancestor of it, or
    /// RDATA that is not of the shape of an SOA.
    #[error("bad body")]
    BadBody,
}
