//! Replies that are to be written.

ghost use Rattle.std.specs.Prelude.{◌≡◌, ◌<◌, [], Some, None, OnOk, OnErr, MatchOption};
ghost use Rattle.fleet_wire.specs.Outline.{line, with_answer, with_authority};

use crate::header::Header;
use crate::lent::LentQuestion;
use crate::question::Question;
use crate::section::{Section, line_of};
use fleet_name::Name;
use std::alloc::{AllocError, Allocator, Global};
use std::marker::Model;

/// A reply that is to be written: header fields, a question if any, and lines of the answer and
/// authority sections. A line is a record of the class IN. The outline borrows its question and its
/// lines. The first four lines of a section allocate nothing.
#[derive(Drop)]
pub struct Outline<'a, A: Allocator = Global> {
    pub(crate) id: u16,
    pub(crate) opcode: u8,
    pub(crate) rd: bool,
    pub(crate) rcode: u8,
    pub(crate) tc: bool,
    pub(crate) question: Option<LentQuestion<'a>>,
    pub(crate) answer: Section<'a, A>,
    pub(crate) authority: Section<'a, A>,
}

impl<'a, A: Allocator> Model for Outline<'a, A> {
    ghost use Rattle.fleet_wire.specs.Outline.{OutlineData, outline_data, IsOutlineData};

    ghost Value = { OutlineData };

    ghost view = { λ o.
        outline_data o.id o.opcode o.rd o.rcode o.tc o.question o.answer o.authority };

    ghost invariant = { λ o. IsOutlineData
        (outline_data o.id o.opcode o.rd o.rcode o.tc o.question o.answer o.authority) };
}

impl<'a, A: Allocator + Copy> Outline<'a, A> {
    /// An outline of these header fields and this question, without lines. Its opcode and RCODE are
    /// at most 15 (RFC 1035 4.1.1). This allocates nothing.
    pub fn new(
        alloc: A,
        id: u16,
        opcode: u8,
        rd: bool,
        rcode: u8,
        tc: bool,
        question: Option<&'a Question<A>>,
    ) -> Outline<'a, A>
        requires opcode { opcode < 16 }
        requires rcode { rcode < 16 }
        ensures header { (result.id ≡ id) × (result.opcode ≡ opcode) × (result.rd ≡ rd)
            × (result.rcode ≡ rcode) × (result.tc ≡ tc) }
        ensures question { MatchOption question.entry (result.question ≡ None)
            (λ q. result.question ≡ Some q.now) }
        ensures empty { (result.answer ≡ []) × (result.authority ≡ []) }
    {
        let lent = match question {
            None => None,
            Some(asked) => Some(asked.lend()),
        };
        Outline {
            id,
            opcode,
            rd,
            rcode,
            tc,
            question: lent,
            answer: Section::new(alloc),
            authority: Section::new(alloc),
        }
    }

    /// An outline of the reply to a query with this header: it has the query's ID, Opcode and RD. Its
    /// question, if any, borrows its name. All else is as for `new`.
    pub fn of_lent(
        alloc: A,
        header: Header,
        rcode: u8,
        tc: bool,
        question: Option<LentQuestion<'a>>,
    ) -> Outline<'a, A>
        requires opcode { header.opcode < 16 }
        requires rcode { rcode < 16 }
        ensures header { (result.id ≡ header.id) × (result.opcode ≡ header.opcode)
            × (result.rd ≡ header.rd) × (result.rcode ≡ rcode) × (result.tc ≡ tc) }
        ensures question { result.question ≡ question.entry }
        ensures empty { (result.answer ≡ []) × (result.authority ≡ []) }
    {
        Outline {
            id: header.id,
            opcode: header.opcode,
            rd: header.rd,
            rcode,
            tc,
            question,
            answer: Section::new(alloc),
            authority: Section::new(alloc),
        }
    }

    /// Adds a line at the end of the answer section: its owner, its type, its TTL in seconds and
    /// its RDATA with every name in full. `Err` where an allocation fails; the outline is then as
    /// it was.
    pub fn answer(
        &mut self,
        name: &'a Name<A>,
        rtype: u16,
        ttl: u32,
        rdata: &'a [u8],
    ) -> Result<(), AllocError>
        ensures ok { OnOk result (self.new
            ≡ with_answer self.old (line name.entry.now rtype ttl rdata.entry.now)) }
        ensures err { OnErr result (self.new ≡ self.old) }
    {
        self.answer.push(line_of(name, rtype, ttl, rdata))
    }

    /// Adds a line at the end of the authority section: its owner, its type, its TTL in seconds and
    /// its RDATA with every name in full. `Err` where an allocation fails; the outline is then as
    /// it was.
    pub fn authority(
        &mut self,
        name: &'a Name<A>,
        rtype: u16,
        ttl: u32,
        rdata: &'a [u8],
    ) -> Result<(), AllocError>
        ensures ok { OnOk result (self.new
            ≡ with_authority self.old (line name.entry.now rtype ttl rdata.entry.now)) }
        ensures err { OnErr result (self.new ≡ self.old) }
    {
        self.authority.push(line_of(name, rtype, ttl, rdata))
    }
}
