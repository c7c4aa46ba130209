//! What a reply means: its digest, the observations that it makes, and how it is relayed.

ghost use Rattle.std.specs.Prelude.{◌↔◌, ℕ, IsTrue, MatchResult};
ghost use Rattle.fleet_wire.specs.declared.rcode.TheConstants.{NAME_ERROR, NO_ERROR};
ghost use Rattle.fleet_observe.specs.DigestOf.{IsServed, IsFault, IsDigest, IsWalkCode};

pub(crate) mod authority;
pub(crate) mod denial;
pub(crate) mod ending;
pub(crate) mod lent_rrset;
pub(crate) mod names;
pub(crate) mod observations;
pub(crate) mod relay;
pub(crate) mod rrset;
pub(crate) mod summary;
pub(crate) mod walk;

use crate::observation::values::is_data_type;
use crate::reply::ending::{DigestFault, End};
use crate::reply::summary::{Digest, digest_along_walk, digest_without_walk};
use crate::reply::walk::has_walk;
use fleet_wire::Message;
use fleet_wire::class::IN;
use fleet_wire::rcode::{NAME_ERROR, NO_ERROR};
use std::alloc::Allocator;

/// Whether the message is a reply to a question that is served.
fn is_served<A: Allocator>(message: &Message<A>) -> bool
    ensures { IsTrue result ↔ IsServed message.now }
{
    let header = message.header();
    if !header.response {
        return false;
    }
    if header.opcode != 0 {
        return false;
    }
    let question = message.question();
    if question.class != IN {
        return false;
    }
    is_data_type(question.rtype)
}

/// Whether the RCODE is 0 or 3, so that the walk decides what the reply means.
fn is_walk_code(rcode: u8) -> bool
    ensures { IsTrue result ↔ IsWalkCode rcode }
{
    if rcode == NO_ERROR {
        return true;
    }
    rcode == NAME_ERROR
}

// Lets through: a body that answers `OutOfMemory` for each reply that was cut off or has a code
// other than 0 and 3, since each digest copies the question's name. `tests/test_replies.py` sees
// that such replies are digested.
/// What a reply means (RFC 1034 3.6.2, RFC 2308 2): the walk from the question's name along aliases
/// in the answer section, how it ends, the SOA of a denial, and the NS RRsets that the reply is an
/// authority for.
///
/// # Errors
///
/// In this order: `NotReply` where it is no reply or one to a question that is not served;
/// `BadChain` where a walk is asked for (TC clear, RCODE 0 or 3) and there is none: aliases that
/// fork or loop, or a ninth link; `OutOfMemory` where an allocation fails and the reply has neither
/// of these faults. Each digest copies the question's name.
pub fn digest<A: Allocator + Copy>(alloc: A, message: &Message<A>) -> Result<Digest<A>, DigestFault>
    ensures { MatchResult result (IsDigest message.now) (IsFault message.now) }
{
    if !is_served(message) {
        return Err(DigestFault::NotReply);
    }
    let header = message.header();
    let question = message.question();
    if header.tc {
        let name = question.name.try_clone()?;
        return Ok(digest_without_walk(alloc, message, name, End::Truncated));
    }
    if !is_walk_code(header.rcode) {
        let name = question.name.try_clone()?;
        return Ok(digest_without_walk(alloc, message, name, End::Code(header.rcode)));
    }
    if !has_walk(message.answer(), question.name.octets(), question.rtype) {
        return Err(DigestFault::BadChain);
    }
    Ok(digest_along_walk(alloc, message)?)
}
