//! Questions that borrow their name.

ghost use Rattle.std.specs.Prelude.{◌≡◌, None, List, ℕ, ◌++◌, ◌+◌, ◌≤◌, length, IfOk, IfSome, MatchOption};
ghost use Rattle.fleet_name.specs.Name.{wire, labels_of, IsName};
ghost use Rattle.fleet_name.specs.declared.bounds.TheConstants.{LONGEST_NAME};
ghost use Rattle.fleet_wire.specs.Number.{u16_at};
ghost use Rattle.fleet_wire.specs.Question.{QuestionData, IsQuestionData};

use crate::question::Question;
use fleet_name::{Name, Octets};
use std::alloc::{AllocError, Allocator};
use std::marker::Model;

/// A question (RFC 1035 4.1.2) that borrows its name from a message or a `Question`.
#[derive(Drop)]
pub struct LentQuestion<'a> {
    /// The name in full, in its own case.
    pub(crate) spelled: &'a [u8],
    /// The name in full, in lower case.
    pub(crate) name: &'a [u8],
    /// QTYPE.
    pub(crate) rtype: u16,
    /// QCLASS.
    pub(crate) class: u16,
}

impl<'a> Model for LentQuestion<'a> {
    ghost use Rattle.std.specs.Prelude.{◌≡◌};
    ghost use Rattle.fleet_name.specs.Name.{wire, labels_of};
    ghost use Rattle.fleet_wire.specs.Question.{QuestionData, lent_data, IsLent};

    ghost Value = { QuestionData };

    ghost view = { λ q. lent_data q.spelled.now q.name.now q.rtype q.class };

    ghost invariant = { λ q. IsLent q.spelled.now q.name.now };
}

impl<'a> LentQuestion<'a> {
    /// The name in full, in lower case (RFC 1035 3.1).
    pub fn name(&self) -> &'a [u8]
        ensures octets { result.now ≡ wire self.now.name }
        ensures named { IsName self.now.name }
    {
        self.name
    }

    /// The type that is asked for, QTYPE (RFC 1035 4.1.2).
    pub fn rtype(&self) -> u16
        ensures { result ≡ self.now.rtype }
    {
        self.rtype
    }

    /// The class that is asked for, QCLASS (RFC 1035 4.1.2).
    pub fn class(&self) -> u16
        ensures { result ≡ self.now.class }
    {
        self.class
    }

    /// A copy of the question in memory of its own, or `Err` where there is no memory for it.
    pub fn try_copy<A: Allocator + Copy>(&self, alloc: A) -> Result<Question<A>, AllocError>
        ensures { IfOk result (λ q. q ≡ self.now) }
    {
        let spelling = Octets::copy_of(alloc, self.spelled)?;
        let name = Name::copy_of(alloc, self.name)?;
        Ok(Question {
            spelled: spelling,
            name,
            rtype: self.rtype,
            class: self.class,
        })
    }

    /// How many octets the name has in full, 255 at most (RFC 1035 2.3.4).
    pub(crate) fn name_len(&self) -> usize
        ensures spelled { result ≡ length self.now.spelled }
        ensures short { result ≤ LONGEST_NAME }
    {
        self.spelled.len()
    }
}

impl<A: Allocator> Question<A> {
    /// The same question, lent: its name is borrowed from this one.
    pub fn lend(&self) -> LentQuestion<'_>
        ensures { result ≡ self.now }
    {
        let spelled = self.spelled.as_slice();
        let name = self.name.octets();
        LentQuestion {
            spelled,
            name,
            rtype: self.rtype,
            class: self.class,
        }
    }
}
