//! Queries: the header and the question of a message (RFC 1035 4.1.1, 4.1.2).

ghost use Rattle.std.specs.Prelude.{◌≡◌, ℕ, ◌+◌, ◌++◌, length, IfOk, OnOk, IfErr, IfSome, IsTrue, is_some, MatchResult};
ghost use Rattle.fleet_name.specs.Fault.{OrMemory};
ghost use Rattle.fleet_name.specs.Name.{labels_of, IsSpelling};
ghost use Rattle.fleet_wire.specs.Question.{QuestionData, spelled_question_data, IsQuestion, QuestionFails};
ghost use Rattle.fleet_wire.specs.Message.{header_of, IsHeader, HasOneQuestion, HeaderFails, IsQuery, IsPlainQuery, QueryFails, HasQuery};
ghost use Rattle.fleet_wire.specs.Query.{query_head, query_octets, query_header, lowercase_question};
ghost use Rattle.fleet_wire.specs.declared.header.Header.{Header};
ghost use Rattle.fleet_wire.specs.declared.fault.ReadFault.TheVariants.{OutOfMemory};

use crate::bounds::LONGEST_MESSAGE;
use crate::fault::ReadFault;
use crate::header::{Header, header_at};
use crate::lent::LentQuestion;
use crate::name_reader::{Spelled, name_of, spelling_at};
use crate::number::{push_u16, read_u16};
use crate::plain::after_name;
use crate::question::Question;
use fleet_name::Octets;
use std::alloc::{AllocError, Allocator};

/// The header of a message of 12 to 512 octets with one question.
pub(crate) fn counted_header(message: &[u8]) -> Result<Header, ReadFault>
    ensures { MatchResult result (λ h. HasOneQuestion message.now × (h ≡ header_of message.now))
        (HeaderFails message.now) }
{
    if message.len() < 12 {
        return Err(ReadFault::TooShort);
    }
    if message.len() > LONGEST_MESSAGE {
        return Err(ReadFault::TooLong);
    }
    let header = header_at(message);
    if header.counts[0] != 1 {
        return Err(ReadFault::QuestionCount);
    }
    Ok(header)
}

/// A question as it was read, before its name is allocated.
#[derive(Drop)]
pub(crate) struct SpelledQuestion {
    pub(crate) name: Spelled,
    pub(crate) rtype: u16,
    pub(crate) class: u16,
    /// Where it ends in the message.
    pub(crate) end: usize,
}

/// The question at a place of a message.
pub(crate) fn question_at(message: &[u8], offset: usize) -> Result<SpelledQuestion, ReadFault>
    ensures found { IfOk result (λ q. IsQuestion message.now offset (spelled_question_data q)
        q.end) }
    ensures spelled { IfOk result (λ q. IsSpelling q.name.octets.items) }
    ensures counted { IfOk result (λ q. q.name.labels ≡ length (labels_of q.name.octets.items)) }
    ensures fault { IfErr result (λ f. QuestionFails message.now offset f) }
{
    let name = spelling_at(message, offset)?;
    let past = name.end;
    if message.len() - past < 4 {
        return Err(ReadFault::Truncated);
    }
    Ok(SpelledQuestion {
        name,
        rtype: read_u16(message, past),
        class: read_u16(message, past + 2),
        end: past + 4,
    })
}

/// The question with a name of its own. `Err` where an allocation fails.
pub(crate) fn question_of<A: Allocator + Copy>(
    alloc: A,
    spelled: &SpelledQuestion,
) -> Result<Question<A>, AllocError>
    requires spelled { IsSpelling spelled.now.name.octets.items }
    requires counted { spelled.now.name.labels ≡ length (labels_of spelled.now.name.octets.items) }
    ensures { IfOk result (λ q. q ≡ spelled_question_data spelled.now) }
{
    let name = name_of(alloc, &spelled.name)?;
    let octets = Octets::copy_of(alloc, spelled.name.octets.as_slice())?;
    Ok(Question {
        spelled: octets,
        name,
        rtype: spelled.rtype,
        class: spelled.class,
    })
}

/// Reads the header and the question of a message (RFC 1035 4.1.1, 4.1.2). What follows the
/// question is not looked at. What is read is a query, and no query is refused but with
/// `OutOfMemory`.
///
/// # Errors
///
/// The first of these: `TooShort` under 12 octets, `TooLong` over 512, `QuestionCount` where there
/// is not one question, then the fault of the question's name, and `Truncated` where its type or
/// class is cut off. `OutOfMemory` comes only where there is no other.
pub fn read_query<A: Allocator + Copy>(
    alloc: A,
    message: &[u8],
) -> Result<(Header, Question<A>), ReadFault>
    ensures found { IfOk result (λ r. (past : ℕ) × IsQuery message.now r.0 r.1 past) }
    ensures lawful { IfOk result (λ r. IsHeader r.0) }
    ensures fault { IfErr result (λ f. OrMemory OutOfMemory f (QueryFails message.now f)) }
    ensures only { (h : Header) (q : QuestionData) (past : ℕ) → IsQuery message.now h q past
        → IfErr result (λ f. f ≡ OutOfMemory) }
    ensures memory { IfErr result (λ f. f ≡ OutOfMemory → HasQuery message.now) }
{
    let header = counted_header(message)?;
    let spelled = question_at(message, 12)?;
    let question = question_of(alloc, &spelled)?;
    Ok((header, question))
}

/// Reads the header and the question of a message in place, where its name is in full and in lower
/// case: it has no pointer and no capital letter (RFC 1035 3.1, 4.1.4). This is `read_query`
/// without a copy: the question borrows its name from the message, and nothing is allocated. `None`
/// exactly where `read_query` returns a fault of the message, or the name is spelled in another
/// way. What follows the question is not looked at.
pub fn read_plain_query(message: &[u8]) -> Option<(Header, LentQuestion<'_>)>
    ensures found { IfSome result (λ r. IsPlainQuery message.now r.0 r.1) }
    ensures lawful { IfSome result (λ r. IsHeader r.0) }
    ensures only { (h : Header) (q : QuestionData) → IsPlainQuery message.now h q
        → IsTrue (is_some result) }
{
    let header = match counted_header(message) {
        Ok(header) => header,
        Err(_) => return None,
    };
    let (_, rest) = message.split_at(12);
    let others = after_name(rest)?;
    let is_cut = others.len() < 4;
    if is_cut {
        return None;
    }
    let (name, _) = rest.split_at(rest.len() - others.len());
    let question = LentQuestion {
        spelled: name,
        name,
        rtype: read_u16(others, 0),
        class: read_u16(others, 2),
    };
    Some((header, question))
}

/// Adds the header of a query: RD is set, no other flag, and QDCOUNT is 1.
fn push_query_head<A: Allocator>(out: &mut Vec<u8, A>, id: u16) -> Result<(), AllocError>
    ensures { OnOk result (out.new.items ≡ out.old.items ++ query_head id) }
{
    push_u16(out, id)?;
    push_u16(out, 0x0100)?;
    push_u16(out, 1)?;
    push_u16(out, 0)?;
    push_u16(out, 0)?;
    push_u16(out, 0)
}

/// The octets of a query to an upstream, with RD set and no other flag (RFC 1035 4.1.1), and with
/// the name in lower case. `read_query` reads them back. `Err` where an allocation fails.
pub fn write_query<A: Allocator, B: Allocator>(
    alloc: A,
    id: u16,
    question: &Question<B>,
) -> Result<Vec<u8, A>, AllocError>
    ensures octets { IfOk result (λ v. v.items ≡ query_octets id question.now) }
    // `read_query` reads it back.
    ensures reads_back { IfOk result (λ v.
        IsQuery v.items (query_header id) (lowercase_question question.now) (length v.items)) }
{
    let name = question.name.octets();
    let mut octets = Vec::with_capacity(alloc, 16 + name.len())?;
    push_query_head(&mut octets, id)?;
    octets.extend_from_slice(name)?;
    push_u16(&mut octets, question.rtype)?;
    push_u16(&mut octets, question.class)?;
    Ok(octets)
}
