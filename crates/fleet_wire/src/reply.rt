//! Reading a reply (RFC 1035 4.1).

ghost use Rattle.std.specs.Prelude.{◌≡◌, length, IfOk, IfErr};
ghost use Rattle.fleet_name.specs.Fault.{OrMemory};
ghost use Rattle.fleet_name.specs.Name.{labels_of, IsSpelling};
ghost use Rattle.fleet_wire.specs.Question.{spelled_question_data};
ghost use Rattle.fleet_wire.specs.Message.{IsQuery, MessageData, IsReply, HasReply, ReplyFails};
ghost use Rattle.fleet_wire.specs.declared.fault.ReadFault.TheVariants.{OutOfMemory};

use crate::fault::ReadFault;
use crate::header::Header;
use crate::message::Message;
use crate::query::{SpelledQuestion, counted_header, question_at, question_of};
use crate::record::{records_end, records_of};
use std::alloc::{AllocError, Allocator};

/// The header and the question of a reply. Its records are read too, and not kept, so each fault is
/// met before anything is allocated.
fn reply_head(message: &[u8]) -> Result<(Header, SpelledQuestion), ReadFault>
    ensures query { IfOk result (λ r. IsQuery message.now r.0 (spelled_question_data r.1) r.1.end) }
    ensures whole { IfOk result (λ _. HasReply message.now) }
    ensures spelled { IfOk result (λ r. IsSpelling r.1.name.octets.items) }
    ensures counted { IfOk result (λ r.
        r.1.name.labels ≡ length (labels_of r.1.name.octets.items)) }
    ensures fault { IfErr result (λ f. ReplyFails message.now f) }
{
    let header = counted_header(message)?;
    let question = question_at(message, 12)?;
    if header.tc {
        return Ok((header, question));
    }
    let middle = records_end(message, question.end, header.counts[1])?;
    records_end(message, middle, header.counts[2])?;
    Ok((header, question))
}

/// The reply of a message with this header and this question, whose records were read once.
fn message_of<A: Allocator + Copy>(
    alloc: A,
    message: &[u8],
    header: Header,
    spelled: &SpelledQuestion,
) -> Result<Message<A>, AllocError>
    requires query { IsQuery message.now header (spelled_question_data spelled.now)
        spelled.now.end }
    requires whole { HasReply message.now }
    requires spelled { IsSpelling spelled.now.name.octets.items }
    requires counted { spelled.now.name.labels ≡ length (labels_of spelled.now.name.octets.items) }
    ensures { IfOk result (λ r. IsReply message.now r) }
{
    let question = question_of(alloc, spelled)?;
    if header.tc {
        let answer = Vec::new(alloc);
        let authority = Vec::new(alloc);
        return Ok(Message::of_parts(header, question, answer, authority));
    }
    let (answer, middle) = records_of(alloc, message, spelled.end, header.counts[1])?;
    let (authority, _) = records_of(alloc, message, middle, header.counts[2])?;
    Ok(Message::of_parts(header, question, answer, authority))
}

/// Reads a reply: the header, the question, and the records of the answer and authority sections
/// (RFC 1035 4.1). With TC set both sections are empty. The additional section, and octets after
/// the last part, are not looked at. What is read is a reply in the grammar, and no such reply is
/// refused but with `OutOfMemory`.
///
/// # Errors
///
/// The first of these, in the order of the octets: those of `read_query`; then for each record the
/// fault of its name, `Truncated` where its ten fixed octets or its RDATA pass the end of the
/// message, the fault of a part of its RDATA, and `BadRdata` where the parts end at another octet
/// than it does. `OutOfMemory` comes only where there is no other.
pub fn read_reply<A: Allocator + Copy>(alloc: A, message: &[u8]) -> Result<Message<A>, ReadFault>
    ensures found { IfOk result (λ r. IsReply message.now r) }
    ensures fault { IfErr result (λ f. OrMemory OutOfMemory f (ReplyFails message.now f)) }
    ensures only { (r : MessageData) → IsReply message.now r → IfErr result (λ f. f ≡ OutOfMemory) }
    ensures memory { IfErr result (λ f. f ≡ OutOfMemory → HasReply message.now) }
{
    let (header, spelled) = reply_head(message)?;
    Ok(message_of(alloc, message, header, &spelled)?)
}
