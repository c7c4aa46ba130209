//! Replies that are read, and what they mean.

ghost use Rattle.std.specs.Prelude.{◌≡◌, IfOk, IfErr};
ghost use Rattle.fleet_wire.specs.Message.{IsReply};
ghost use Rattle.fleet_observe.specs.DigestOf.{IsDigest, IsSound};
ghost use Rattle.fleet_site.specs.steps.ReplyFault.{IsUnread, IsUndigested, SaysRefusal};

use crate::outcome::{Outcome, Refusal, SiteFault};
use fleet_observe::{Digest, DigestFault, digest, digest_or_fault};
use fleet_wire::{Message, ReadFault, read_reply};
use std::alloc::Allocator;

/// Why nothing is done with a reply.
#[derive(Clone, Copy, Debug, PartialEq, Eq)]
pub(crate) enum ReplyFault {
    /// It is refused.
    Refused(Refusal),
    /// There was no memory for it.
    NoMemory,
}

/// The reply that octets are.
pub(crate) fn message_in<A: Allocator + Copy>(
    alloc: A,
    octets: &[u8],
) -> Result<Message<A>, ReplyFault>
    ensures read { IfOk result (λ r. IsReply octets.now r) }
    ensures refused { IfErr result (λ e. IsUnread octets.now e) }
{
    match read_reply(alloc, octets) {
        Ok(message) => Ok(message),
        Err(fault) => {
            if fault == ReadFault::OutOfMemory {
                return Err(ReplyFault::NoMemory);
            }
            Err(ReplyFault::Refused(Refusal::Read(fault)))
        }
    }
}

/// What a reply means.
pub(crate) fn digest_of<A: Allocator + Copy>(
    alloc: A,
    message: &Message<A>,
) -> Result<Digest<A>, ReplyFault>
    ensures meaning { IfOk result (λ d. IsDigest message.now d) }
    ensures sound { IfOk result (λ _. IsSound message.now) }
    ensures refused { IfErr result (λ e. IsUndigested message.now e) }
{
    digest_or_fault();
    match digest(alloc, message) {
        Ok(digest) => Ok(digest),
        Err(fault) => match fault {
            DigestFault::NotReply => Err(ReplyFault::Refused(Refusal::Digest(fault))),
            DigestFault::BadChain => Err(ReplyFault::Refused(Refusal::Digest(fault))),
            DigestFault::OutOfMemory => Err(ReplyFault::NoMemory),
        },
    }
}

/// The outcome of a reply that is refused, or that there is no memory for.
pub(crate) fn refuse<A: Allocator + Copy>(
    alloc: A,
    fault: ReplyFault,
) -> Result<Outcome<A>, SiteFault>
    ensures { SaysRefusal fault result }
{
    match fault {
        ReplyFault::Refused(refusal) => Ok(Outcome::without_packets(alloc, 0, Some(refusal))),
        ReplyFault::NoMemory => Err(SiteFault::OutOfMemory { taken: 0 }),
    }
}
