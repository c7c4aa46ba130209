//! How a reply ends, and why one has no digest.

ghost use Rattle.std.specs.Prelude.{◌≡◌};
ghost use Rattle.fleet_observe.specs.declared.reply.ending.DigestFault.TheVariants.{OutOfMemory};

use crate::observation::soa::Soa;
use crate::reply::rrset::RrSet;
use std::alloc::{AllocError, Allocator, Global};
use thiserror::Error;

/// How a reply ends.
#[derive(Drop)]
pub enum End<A: Allocator = Global> {
    /// The RRset of the question's type where the walk ended.
    Records(RrSet<A>),
    /// RCODE 0, and neither such an RRset nor an alias: the name where the walk ended has no data of
    /// the type (RFC 2308 2.2), or the reply is a referral, which has no SOA. The SOA that counts,
    /// if any.
    NoData(Option<Soa<A>>),
    /// RCODE 3 and no such RRset: the name where the walk ended does not exist. The SOA that
    /// counts, if any.
    NxDomain(Option<Soa<A>>),
    /// An RCODE other than 0 and 3.
    Code(u8),
    /// The reply was cut off: TC was set.
    Truncated,
}

/// Why a message has no digest. Where several reasons hold, it is the first one in this order.
#[derive(Clone, Copy, Debug, PartialEq, Eq, Error)]
pub enum DigestFault {
    /// QR is clear, the Opcode is not 0, or the question has a class other than 1 or a type that no
    /// data can have (0, 41, 128 to 255).
    #[error("no reply")]
    NotReply,
    /// The aliases fork, loop, or have a ninth link.
    #[error("bad chain")]
    BadChain,
    /// An allocation failed.
    #[error("out of memory")]
    OutOfMemory,
}

impl From<AllocError> for DigestFault {
    ghost from_gives = { λ _ e. e ≡ OutOfMemory };

    fn from(_error: AllocError) -> DigestFault {
        DigestFault::OutOfMemory
    }
}
