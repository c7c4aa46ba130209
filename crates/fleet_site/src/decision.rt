//! What is made of octets that are asked, before the table of open questions is looked at.

ghost use Rattle.std.specs.Prelude.{◌≡◌, ◌≤◌, ◌<◌, ◌↔◌, IsTrue, IfOk, IfErr};
ghost use Rattle.fleet_wire.specs.declared.class.TheConstants.{IN};
ghost use Rattle.fleet_observe.specs.Observation.{Observations};
ghost use Rattle.fleet_cache.specs.Cached.{IsCached};
ghost use Rattle.fleet_cache.specs.Kinds.{HasKinds};
ghost use Rattle.fleet_cache.specs.AnswerData.{answer_data};
ghost use Rattle.fleet_site.specs.steps.Carried.{IsAskable, IsAnswered, SaysUnread};
ghost use Rattle.fleet_site.specs.question.Decision.{IsAsking, decision_data, IsServedQuestion, DecidesAnswer, DecidesQuestion, Decides};

use crate::writing::{bare_reply, is_miss, reply_with_answer, reply_without};
use fleet_cache::{Answer, Cache};
use fleet_name::Octets;
use fleet_observe::{Moment, is_data_type};
use fleet_wire::class::IN;
use fleet_wire::rcode::{FORMAT_ERROR, NOT_IMPLEMENTED};
use fleet_wire::{Header, LentQuestion, Question, ReadFault, read_header, read_query};
use std::alloc::{AllocError, Allocator};

/// What is made of octets.
#[derive(Drop)]
pub(crate) enum Decision<A: Allocator> {
    /// They are no question.
    Dropped,
    /// This is the reply.
    Reply(Octets<A>),
    /// They can't be read, and this is the reply.
    Unread(Octets<A>, ReadFault),
    /// Nothing that is known answers the question.
    Miss(Header, Question<A>),
}

/// What is made of octets at a moment that is not before the cache's floor.
///
/// In this order: octets without a header and those of a reply are dropped, another Opcode is not
/// implemented (4), what cannot be read is a format error (1), a question of another class or of a
/// type that data cannot have is not implemented (4), and then the cache answers.
pub(crate) fn decide<A: Allocator + Copy>(
    cache: &Cache<A>,
    now: Moment,
    octets: &[u8],
) -> Result<Decision<A>, AllocError>
    requires { cache.now.floor ≤ now }
    ensures decides { (s : Observations) → IsCached s cache.now.floor cache.now.items
        → IfOk result (λ d. Decides s now octets.now (decision_data d)) }
    ensures askable { IfOk result (λ d. IsAskable d) }
    ensures answered { IfOk result (λ d. IsAnswered d → IsAsking octets.now) }
    ensures memory { IfErr result (λ _. IsAsking octets.now) }
{
    let alloc = *cache.allocator();
    let header = match read_header(octets) {
        Some(header) => header,
        None => return Ok(Decision::Dropped),
    };
    if header.response {
        return Ok(Decision::Dropped);
    }
    if header.opcode != 0 {
        let reply = bare_reply(alloc, header, NOT_IMPLEMENTED)?;
        return Ok(Decision::Reply(reply));
    }
    match read_query(alloc, octets) {
        Ok((_, question)) => decide_question(cache, now, header, question),
        Err(fault) => decide_unread(alloc, header, fault),
    }
}

/// What is made of octets that can't be read.
fn decide_unread<A: Allocator + Copy>(
    alloc: A,
    header: Header,
    fault: ReadFault,
) -> Result<Decision<A>, AllocError>
    requires { header.opcode < 16 }
    ensures unread { IfOk result (λ d. SaysUnread header fault (decision_data d)) }
    ensures askable { IfOk result (λ d. IsAskable d) }
{
    if fault == ReadFault::OutOfMemory {
        return Err(AllocError);
    }
    let reply = bare_reply(alloc, header, FORMAT_ERROR)?;
    Ok(Decision::Unread(reply, fault))
}

/// What is made of a question that was read.
fn decide_question<A: Allocator + Copy>(
    cache: &Cache<A>,
    now: Moment,
    header: Header,
    question: Question<A>,
) -> Result<Decision<A>, AllocError>
    requires opcode { header.opcode < 16 }
    requires reached { cache.now.floor ≤ now }
    ensures decides { (s : Observations) → IsCached s cache.now.floor cache.now.items
        → IfOk result (λ d. DecidesQuestion s now header question (decision_data d)) }
    ensures askable { IfOk result (λ d. IsAskable d) }
{
    let alloc = *cache.allocator();
    if !is_served(&question.lend()) {
        let reply = reply_without(alloc, header, NOT_IMPLEMENTED, &question)?;
        return Ok(Decision::Reply(reply));
    }
    let answer = cache.answer(&question, now);
    decide_answer(alloc, header, question, &answer)
}

/// Whether a question is answered: of class 1, and of a type that data can have.
pub(crate) fn is_served(question: &LentQuestion<'_>) -> bool
    ensures { IsTrue result ↔ IsServedQuestion question.now }
{
    question.class() == IN && is_data_type(question.rtype())
}

/// What is made of an answer.
fn decide_answer<A: Allocator + Copy>(
    alloc: A,
    header: Header,
    question: Question<A>,
    answer: &Answer<'_, A>,
) -> Result<Decision<A>, AllocError>
    requires opcode { header.opcode < 16 }
    requires served { question.class ≡ IN }
    requires kinds { HasKinds (answer_data answer.now) }
    ensures decides { IfOk result (λ d.
        DecidesAnswer header question (answer_data answer.now) (decision_data d)) }
    ensures askable { IfOk result (λ d. IsAskable d) }
{
    if is_miss(answer) {
        return Ok(Decision::Miss(header, question));
    }
    let reply = reply_with_answer(alloc, header, &question, answer)?;
    Ok(Decision::Reply(reply))
}
