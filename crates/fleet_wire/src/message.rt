//! Replies that were read.

ghost use Rattle.std.specs.Prelude.{◌≡◌};
ghost use Rattle.fleet_wire.specs.Message.{IsRead, message_data};

use crate::header::Header;
use crate::question::Question;
use crate::record::Record;
use std::alloc::{Allocator, Global};
use std::marker::Model;

/// A reply that was read: its header, its question, and the records of its answer and authority
/// sections (RFC 1035 4.1). `read_reply` alone makes one. Header and question are lawful, the RDATA
/// of each record is plain, and both sections are empty where the reply was cut off.
#[derive(Drop)]
pub struct Message<A: Allocator = Global> {
    header: Header,
    question: Question<A>,
    answer: Vec<Record<A>, A>,
    authority: Vec<Record<A>, A>,
}

impl<A: Allocator> Model for Message<A> {
    ghost use Rattle.fleet_wire.specs.Message.{MessageData, IsRead, message_data};

    ghost Value = { MessageData };

    ghost view = { λ m. message_data m.header m.question m.answer.items m.authority.items };

    ghost invariant = { λ m. IsRead
        (message_data m.header m.question m.answer.items m.authority.items) };
}

impl<A: Allocator> Message<A> {
    /// A reply made of its parts.
    pub(crate) fn of_parts(
        header: Header,
        question: Question<A>,
        answer: Vec<Record<A>, A>,
        authority: Vec<Record<A>, A>,
    ) -> Message<A>
        requires { IsRead (message_data header question answer.items authority.items) }
        ensures { result ≡ message_data header question answer.items authority.items }
    {
        Message {
            header,
            question,
            answer,
            authority,
        }
    }

    /// The header, with the counts that the message has.
    pub fn header(&self) -> Header
        ensures header { result ≡ self.now.header }
        ensures read { IsRead self.now }
    {
        self.header
    }

    /// The question of the reply (RFC 1035 4.1.2).
    pub fn question(&self) -> &Question<A>
        ensures question { result.now ≡ self.now.question }
        ensures read { IsRead self.now }
    {
        &self.question
    }

    /// The records of the answer section, in order; none where TC is set.
    pub fn answer(&self) -> &[Record<A>]
        ensures answer { result.now ≡ self.now.answer }
        ensures read { IsRead self.now }
    {
        &self.answer
    }

    /// The records of the authority section, in order; none where TC is set.
    pub fn authority(&self) -> &[Record<A>]
        ensures authority { result.now ≡ self.now.authority }
        ensures read { IsRead self.now }
    {
        &self.authority
    }
}
