//! Writing a reply (RFC 1035 4.1).

ghost use Rattle.std.specs.Prelude.{◌≡◌, ◌+◌, ◌<◌, ◌≤◌, ◌++◌, ◌∷◌, [], length, IfOk, OnOk, IfSome, MatchOption};
ghost use Rattle.fleet_name.specs.declared.bounds.TheConstants.{LONGEST_NAME};
ghost use Rattle.fleet_wire.specs.Number.{u16_octets, u32_octets};
ghost use Rattle.fleet_wire.specs.Question.{QuestionData};
ghost use Rattle.fleet_wire.specs.steps.LentRecord.{record_of_lent, records_of_lent};
ghost use Rattle.fleet_wire.specs.Message.{IsReply};
ghost use Rattle.fleet_wire.specs.Outline.{record_octets, question_octets_if_any, section_octets, whole_octets, cut_octets, header_octets, octets_of_outline, IsOutlineData, IsWhole, message_of_outline};
ghost use Rattle.fleet_wire.specs.declared.bounds.TheConstants.{LONGEST_MESSAGE};

use crate::bounds::LONGEST_MESSAGE;
use crate::class::IN;
use crate::lent::LentQuestion;
use crate::lent_record::LentRecord;
use crate::number::octets_of_u32;
use crate::outline::Outline;
use crate::section::Section;
use std::alloc::{AllocError, Allocator};

/// Adds a question in its own spelling, if there is one.
fn push_question<A: Allocator>(
    out: &mut Vec<u8, A>,
    question: &Option<LentQuestion>,
) -> Result<(), AllocError>
    ensures { OnOk result (out.new.items
        ≡ out.old.items ++ question_octets_if_any question.now) }
{
    match question {
        None => Ok(()),
        Some(asked) => {
            out.extend_from_slice(asked.spelled)?;
            push_type(out, asked.rtype, asked.class)
        }
    }
}

/// Adds a type and a class.
fn push_type<A: Allocator>(out: &mut Vec<u8, A>, rtype: u16, class: u16) -> Result<(), AllocError>
    ensures { OnOk result (out.new.items ≡ out.old.items ++ (u16_octets rtype ++ u16_octets class)) }
{
    let [type_high, type_low] = rtype.to_be_bytes();
    let [class_high, class_low] = class.to_be_bytes();
    out.extend_from_slice(&[type_high, type_low, class_high, class_low])
}

/// How many octets a question has: its name in full, which has `LONGEST_NAME` at most, and four.
fn question_size(question: &Option<LentQuestion>) -> usize
    ensures size { result ≡ length (question_octets_if_any question.now) }
    ensures short { result ≤ LONGEST_NAME + 4 }
{
    match question {
        None => 0,
        Some(asked) => asked.name_len() + 4,
    }
}

/// Adds the ten octets between the name and the RDATA: type, class, TTL and RDLENGTH.
fn push_fixed<A: Allocator>(
    out: &mut Vec<u8, A>,
    rtype: u16,
    class: u16,
    ttl: u32,
    count: u16,
) -> Result<(), AllocError>
    ensures { OnOk result (out.new.items
        ≡ out.old.items
        ++ (u16_octets rtype ++ (u16_octets class ++ (u32_octets ttl ++ u16_octets count)))) }
{
    let [t0, t1] = rtype.to_be_bytes();
    let [c0, c1] = class.to_be_bytes();
    let [s0, s1, s2, s3] = octets_of_u32(ttl);
    let [n0, n1] = count.to_be_bytes();
    out.extend_from_slice(&[t0, t1, c0, c1, s0, s1, s2, s3, n0, n1])
}

/// Adds a record.
fn push_record<A: Allocator>(out: &mut Vec<u8, A>, line: &LentRecord) -> Result<(), AllocError>
    requires { length line.now.rdata.now < 65536 }
    ensures { OnOk result (out.new.items
        ≡ out.old.items ++ record_octets (record_of_lent line.now)) }
{
    out.extend_from_slice(line.owner)?;
    let count = line.rdata.len() as u16;
    push_fixed(out, line.rtype, IN, line.ttl, count)?;
    out.extend_from_slice(line.rdata)
}

/// Adds the records of lines.
fn push_lines<A: Allocator>(out: &mut Vec<u8, A>, lines: &[LentRecord]) -> Result<(), AllocError>
    requires { length (section_octets (records_of_lent lines.now)) ≤ LONGEST_MESSAGE }
    ensures { OnOk result (out.new.items
        ≡ out.old.items ++ section_octets (records_of_lent lines.now)) }
{
    for line in lines {
        push_record(out, line)?;
    }
    Ok(())
}

/// Adds the records of a section.
fn push_section<A: Allocator, B: Allocator>(
    out: &mut Vec<u8, A>,
    section: &Section<B>,
) -> Result<(), AllocError>
    requires { length (section_octets section.now) ≤ LONGEST_MESSAGE }
    ensures { OnOk result (out.new.items ≡ out.old.items ++ section_octets section.now) }
{
    let (first, more) = section.parts();
    push_lines(out, first)?;
    push_lines(out, more)
}

/// How many octets of `room` are left after the lines' records. `None` where they do not fit.
fn room_after(lines: &[LentRecord], room: usize) -> Option<usize>
    ensures { MatchOption result (room < length (section_octets (records_of_lent lines.now)))
        (λ left. left + length (section_octets (records_of_lent lines.now)) ≡ room) }
{
    let mut left = room;
    for line in lines {
        let fixed = line.owner.len() + 10;
        if left < fixed {
            return None;
        }
        left -= fixed;
        let count = line.rdata.len();
        if left < count {
            return None;
        }
        left -= count;
    }
    Some(left)
}

/// How many octets of `room` are left after a section. `None` where it does not fit.
fn room_behind<A: Allocator>(section: &Section<A>, room: usize) -> Option<usize>
    ensures { MatchOption result (room < length (section_octets section.now))
        (λ left. left + length (section_octets section.now) ≡ room) }
{
    let (first, more) = section.parts();
    let left = room_after(first, room)?;
    room_after(more, left)
}

/// How many octets the reply has where it is written whole. `None` where these pass 512.
fn size_of<A: Allocator>(outline: &Outline<A>) -> Option<usize>
    ensures size { MatchOption result (LONGEST_MESSAGE < length (whole_octets outline.now))
        (λ size. size ≡ length (whole_octets outline.now)) }
    ensures short { IfSome result (λ size. size ≤ LONGEST_MESSAGE) }
    ensures lawful { IsOutlineData outline.now }
{
    let bare = 12 + question_size(&outline.question);
    let room = room_behind(&outline.answer, LONGEST_MESSAGE - bare)?;
    let left = room_behind(&outline.authority, room)?;
    Some(LONGEST_MESSAGE - left)
}

/// How many octets the reply has where it is cut off: header and question.
fn cut_size<A: Allocator>(outline: &Outline<A>) -> usize
    ensures { result ≡ length (cut_octets outline.now) }
{
    12 + question_size(&outline.question)
}

/// Adds the header of a reply, with these counts of records: QR and RA are set, AA is clear.
fn push_header<A: Allocator, B: Allocator>(
    out: &mut Vec<u8, A>,
    outline: &Outline<B>,
    tc: bool,
    answer: u16,
    authority: u16,
) -> Result<(), AllocError>
    ensures { OnOk result (out.new.items
        ≡ out.old.items ++ header_octets outline.now tc answer authority) }
{
    let [id_high, id_low] = outline.id.to_be_bytes();
    let cut = if tc { 2 } else { 0 };
    let wanted = if outline.rd { 1 } else { 0 };
    let flags = 128 + outline.opcode * 8 + cut + wanted;
    out.extend_from_slice(&[id_high, id_low, flags, 128 + outline.rcode])?;
    let questions = if outline.question.is_some() { 1 } else { 0 };
    push_counts(out, questions, answer, authority)
}

/// Adds the four counts of a header: no record is additional.
fn push_counts<A: Allocator>(
    out: &mut Vec<u8, A>,
    questions: u16,
    answer: u16,
    authority: u16,
) -> Result<(), AllocError>
    ensures { OnOk result (out.new.items ≡ out.old.items
        ++ (u16_octets questions ++ (u16_octets answer ++ (u16_octets authority ++ 0 ∷ 0 ∷ [])))) }
{
    let [q0, q1] = questions.to_be_bytes();
    let [a0, a1] = answer.to_be_bytes();
    let [n0, n1] = authority.to_be_bytes();
    out.extend_from_slice(&[q0, q1, a0, a1, n0, n1, 0, 0])
}

/// Adds all of a reply, which fits a message.
fn push_whole<A: Allocator, B: Allocator>(
    out: &mut Vec<u8, A>,
    outline: &Outline<B>,
) -> Result<(), AllocError>
    requires { length (whole_octets outline.now) ≤ LONGEST_MESSAGE }
    ensures { OnOk result (out.new.items ≡ out.old.items ++ whole_octets outline.now) }
{
    let answers = outline.answer.len() as u16;
    let authorities = outline.authority.len() as u16;
    push_header(out, outline, outline.tc, answers, authorities)?;
    push_question(out, &outline.question)?;
    push_section(out, &outline.answer)?;
    push_section(out, &outline.authority)?;
    Ok(())
}

/// Adds header and question alone, with TC set.
fn push_cut<A: Allocator, B: Allocator>(
    out: &mut Vec<u8, A>,
    outline: &Outline<B>,
) -> Result<(), AllocError>
    ensures { OnOk result (out.new.items ≡ out.old.items ++ cut_octets outline.now) }
{
    push_header(out, outline, true, 0, 0)?;
    push_question(out, &outline.question)
}

/// The octets of a reply (RFC 1035 4.1): header, question and records, every name in full. QR and
/// RA are set, AA is clear. Where all of it passes 512 octets: header and question alone, with TC
/// set. `read_reply` reads back what is whole, with a question, TC clear and plain RDATA. One
/// allocation of exactly these octets; `Err` where it fails.
pub fn write_reply<A: Allocator, B: Allocator>(
    alloc: A,
    outline: &Outline<B>,
) -> Result<Vec<u8, A>, AllocError>
    ensures octets { IfOk result (λ v. v.items ≡ octets_of_outline outline.now) }
    // Where it has a question, plain RDATA, TC clear, and fits a message, `read_reply` reads it
    // back.
    ensures reads_back { IfOk result (λ v.
        (q : QuestionData) → IsWhole outline.now q
        → IsReply v.items (message_of_outline outline.now q)) }
{
    let Some(size) = size_of(outline) else {
        let mut octets = Vec::with_capacity(alloc, cut_size(outline))?;
        push_cut(&mut octets, outline)?;
        return Ok(octets);
    };
    let mut octets = Vec::with_capacity(alloc, size)?;
    push_whole(&mut octets, outline)?;
    Ok(octets)
}

// Lets through: a body that asks for more room than a reply needs, since the clause says nothing of
// memory. The tested body `reply_reserves_513_octets` does so, and the test `a_hit_takes_no_memory`
// sees it.
/// Writes the octets of `write_reply` in place of what `out` holds. Where `out` has room for 512
/// octets, this allocates nothing. `Err` where an allocation fails; `out` may then hold anything.
pub fn write_reply_into<A: Allocator, B: Allocator>(
    out: &mut Vec<u8, A>,
    outline: &Outline<B>,
) -> Result<(), AllocError>
    ensures octets { OnOk result (out.new.items ≡ octets_of_outline outline.now) }
{
    out.truncate(0);
    match size_of(outline) {
        Some(_) => push_whole(out, outline),
        None => push_cut(out, outline),
    }
}
