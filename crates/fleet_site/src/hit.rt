//! Plain questions: in full and in lower case, so that they are read in place.

ghost use Rattle.std.specs.Prelude.{◌≡◌, ◌≤◌, ◌↔◌, IsTrue, IfOk, OnErr};
ghost use Rattle.fleet_observe.specs.Observation.{Observations};
ghost use Rattle.fleet_cache.specs.Cached.{IsCached};
ghost use Rattle.fleet_site.specs.question.Decision.{IsAsking, IsStandardQuery};
ghost use Rattle.fleet_site.specs.steps.Plain.{DecidesPlain, IsPlainMiss};

use crate::decision::is_served;
use crate::writing::{is_miss, write_answer_into};
use fleet_cache::Cache;
use fleet_observe::Moment;
use fleet_wire::{Header, Question, one_query, read_plain_query};
use std::alloc::{AllocError, Allocator};

/// What is made of octets that may be a plain question.
#[derive(Drop)]
pub(crate) enum Plain<A: Allocator> {
    /// They are none, or one that is not served.
    Other,
    /// The cache answers it, and the buffer holds the reply.
    Hit,
    /// Nothing that is known answers the question.
    Miss(Header, Question<A>),
}

/// Whether a header is that of a standard query (RFC 1035 4.1.1): QR is clear and the Opcode is 0.
fn is_standard_query(header: Header) -> bool
    ensures { IsTrue result ↔ IsStandardQuery header }
{
    !header.response && header.opcode == 0
}

/// What is made of octets at a moment that is not before the cache's floor, if they are a question that
/// is spelled in full and in lower case. The reply of a hit is written in place of what `out` holds.
/// Where `out` has room for 512 octets and no section of the reply has more than four records, this
/// takes no memory; a miss takes a copy of the question.
pub(crate) fn decide_plain<A: Allocator + Copy>(
    cache: &Cache<A>,
    now: Moment,
    octets: &[u8],
    out: &mut Vec<u8, A>,
) -> Result<Plain<A>, AllocError>
    requires { cache.now.floor ≤ now }
    ensures decides { (s : Observations) → IsCached s cache.now.floor cache.now.items
        → IfOk result (λ p. DecidesPlain s now octets.now out.new.items p) }
    ensures miss { IfOk result (λ p. IsPlainMiss octets.now p) }
    ensures memory { OnErr result (IsAsking octets.now) }
{
    let Some((header, question)) = read_plain_query(octets) else {
        return Ok(Plain::Other);
    };
    if !is_standard_query(header) || !is_served(&question) {
        one_query();
        return Ok(Plain::Other);
    }
    let answer = cache.answer_lent(&question, now);
    if is_miss(&answer) {
        let copy = question.try_copy(*cache.allocator())?;
        return Ok(Plain::Miss(header, copy));
    }
    write_answer_into(out, header, question, &answer)?;
    Ok(Plain::Hit)
}
