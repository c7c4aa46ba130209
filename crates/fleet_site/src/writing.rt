//! Replies that are written: without records, and those of an answer.

ghost use Rattle.std.specs.Prelude.{◌≡◌, ◌≢◌, ◌<◌, ◌↔◌, IsTrue, IfOk, OnOk, Some, None};
ghost use Rattle.fleet_wire.specs.Outline.{octets_of_outline};
ghost use Rattle.fleet_cache.specs.Answer.{Missed};
ghost use Rattle.fleet_cache.specs.AnswerData.{answer_data};
ghost use Rattle.fleet_cache.specs.Kinds.{HasKinds, IsPositivePart, ArePositiveParts};
ghost use Rattle.fleet_cache.specs.Shown.{shown_parts};
ghost use Rattle.fleet_site.specs.question.AnswerRecords.{bare_outline, bare_octets, Writes};
ghost use Rattle.fleet_site.specs.steps.Writing.{answer_rcode, AddsRows, AddsChainRows, AddsSoaRow, AddsAnswer, IsNegativePart};

use fleet_cache::{Answer, Shown};
use fleet_name::Octets;
use fleet_observe::{LentRrSet, add_rrset};
use fleet_wire::rcode::{NAME_ERROR, NO_ERROR};
use fleet_wire::rtype::SOA;
use fleet_wire::{Header, LentQuestion, Outline, Question, write_reply, write_reply_into};
use std::alloc::{AllocError, Allocator};

/// Whether an answer says that nothing is known.
pub(crate) fn is_miss<A: Allocator>(answer: &Answer<'_, A>) -> bool
    ensures { IsTrue result ↔ (answer_data answer.now ≡ Missed) }
{
    matches!(answer, Answer::Miss)
}

/// The reply with an answer, in memory of its own.
pub(crate) fn reply_with_answer<A: Allocator + Copy>(
    alloc: A,
    header: Header,
    question: &Question<A>,
    answer: &Answer<'_, A>,
) -> Result<Octets<A>, AllocError>
    requires opcode { header.opcode < 16 }
    requires known { answer_data answer.now ≢ Missed }
    requires kinds { HasKinds (answer_data answer.now) }
    ensures { IfOk result (Writes header question.now (answer_data answer.now)) }
{
    let mut outline = begin(alloc, header, rcode_of(answer), Some(question.lend()));
    add_answer(&mut outline, answer)?;
    finish(alloc, &outline)
}

/// The reply with an answer, in place of what `out` holds.
pub(crate) fn write_answer_into<'a, A: Allocator + Copy>(
    out: &mut Vec<u8, A>,
    header: Header,
    question: LentQuestion<'a>,
    answer: &Answer<'a, A>,
) -> Result<(), AllocError>
    requires opcode { header.opcode < 16 }
    requires known { answer_data answer.now ≢ Missed }
    requires kinds { HasKinds (answer_data answer.now) }
    ensures { OnOk result (Writes header question.entry (answer_data answer.now) out.new.items) }
{
    let alloc = *out.allocator();
    let mut outline = begin(alloc, header, rcode_of(answer), Some(question));
    add_answer(&mut outline, answer)?;
    write_reply_into(out, &outline)
}

/// The RCODE of a reply with an answer.
fn rcode_of<A: Allocator>(answer: &Answer<'_, A>) -> u8
    ensures rcode { result ≡ answer_rcode (answer_data answer.now) }
    ensures short { result < 16 }
{
    match answer {
        Answer::Miss => NO_ERROR,
        Answer::Found { .. } => NO_ERROR,
        Answer::NoData { .. } => NO_ERROR,
        Answer::NxDomain { .. } => NAME_ERROR,
    }
}

/// Adds the records of an answer: its links, and the records or the SOA that they lead to.
fn add_answer<'a, 'b: 'a, A: Allocator + Copy>(
    outline: &mut Outline<'a, A>,
    answer: &Answer<'b, A>,
) -> Result<(), AllocError>
    requires { HasKinds (answer_data answer.now) }
    ensures { OnOk result (AddsAnswer (answer_data answer.now) outline.old outline.new) }
{
    match answer {
        Answer::Miss => Ok(()),
        Answer::Found { chain, set } => {
            add_chain(outline, chain.as_slice())?;
            add_set(outline, set)
        }
        Answer::NoData { chain, soa } => {
            add_chain(outline, chain.as_slice())?;
            add_denial(outline, soa)
        }
        Answer::NxDomain { chain, soa } => {
            add_chain(outline, chain.as_slice())?;
            add_denial(outline, soa)
        }
    }
}

/// Adds the records of the links.
fn add_chain<'a, A: Allocator + Copy>(
    outline: &mut Outline<'a, A>,
    chain: &[Option<Shown<'a, A>>],
) -> Result<(), AllocError>
    ensures { ArePositiveParts (shown_parts chain.now)
        → OnOk result (AddsChainRows (shown_parts chain.now) outline.old outline.new) }
{
    for link in chain {
        if let Some(part) = link {
            add_set(outline, part)?;
        }
    }
    Ok(())
}

/// Adds the records of a positive observation.
fn add_set<'a, A: Allocator + Copy>(
    outline: &mut Outline<'a, A>,
    part: &Shown<'a, A>,
) -> Result<(), AllocError>
    ensures { IsPositivePart part.now
        → OnOk result (AddsRows part.now outline.old outline.new) }
{
    let observation = part.observation;
    let lent = LentRrSet {
        name: observation.name(),
        rtype: observation.rtype(),
        ttl: part.ttl,
        rdatas: observation.rdatas(),
    };
    add_rrset(outline, lent)
}

/// Adds the SOA record of a negative observation.
fn add_denial<'a, A: Allocator + Copy>(
    outline: &mut Outline<'a, A>,
    part: &Shown<'a, A>,
) -> Result<(), AllocError>
    ensures { IsNegativePart part.now
        → OnOk result (AddsSoaRow part.now outline.old outline.new) }
{
    match part.observation.soa() {
        Some((owner, rdata)) => outline.authority(owner, SOA, part.ttl, rdata),
        None => Ok(()),
    }
}

/// A reply that has no records yet.
fn begin<'a, A: Allocator + Copy>(
    alloc: A,
    header: Header,
    rcode: u8,
    question: Option<LentQuestion<'a>>,
) -> Outline<'a, A>
    requires opcode { header.opcode < 16 }
    requires rcode { rcode < 16 }
    ensures { result ≡ bare_outline header rcode question.entry }
{
    Outline::of_lent(alloc, header, rcode, false, question)
}

/// The octets of a reply.
fn finish<A: Allocator + Copy>(alloc: A, outline: &Outline<A>) -> Result<Octets<A>, AllocError>
    ensures { IfOk result (λ octets. octets ≡ octets_of_outline outline.now) }
{
    let octets = write_reply(alloc, outline)?;
    Ok(Octets::new(octets))
}

/// A reply of a header alone.
pub(crate) fn bare_reply<A: Allocator + Copy>(
    alloc: A,
    header: Header,
    rcode: u8,
) -> Result<Octets<A>, AllocError>
    requires opcode { header.opcode < 16 }
    requires rcode { rcode < 16 }
    ensures { IfOk result (λ octets. octets ≡ bare_octets header rcode None) }
{
    let outline = begin(alloc, header, rcode, None);
    finish(alloc, &outline)
}

/// A reply of header and question.
pub(crate) fn reply_without<A: Allocator + Copy>(
    alloc: A,
    header: Header,
    rcode: u8,
    question: &Question<A>,
) -> Result<Octets<A>, AllocError>
    requires opcode { header.opcode < 16 }
    requires rcode { rcode < 16 }
    ensures { IfOk result (λ octets. octets ≡ bare_octets header rcode (Some question.now)) }
{
    let outline = begin(alloc, header, rcode, Some(question.lend()));
    finish(alloc, &outline)
}
