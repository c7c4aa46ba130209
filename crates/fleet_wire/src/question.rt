//! Questions (RFC 1035 4.1.2).

use fleet_name::{Name, Octets};
use std::alloc::{AllocError, Allocator, Global};
use std::marker::Model;

/// A question of a message (RFC 1035 4.1.2).
#[derive(Drop)]
pub struct Question<A: Allocator = Global> {
    /// The name in full, without pointers, in its own case.
    pub spelled: Octets<A>,
    /// The name, in lower case.
    pub name: Name<A>,
    /// QTYPE.
    pub rtype: u16,
    /// QCLASS.
    pub class: u16,
}

impl<A: Allocator> Model for Question<A> {
    ghost use Rattle.std.specs.Prelude.{◌≡◌};
    ghost use Rattle.fleet_name.specs.Name.{lower, wire};
    ghost use Rattle.fleet_wire.specs.Question.{QuestionData};

    ghost Value = { QuestionData };

    ghost view = { λ q. record {
      spelled = q.spelled;
      name = q.name;
      rtype = q.rtype;
      class = q.class;
    } };

    // The spelling is the name's, whatever the case of its letters.
    ghost invariant = { λ q. lower q.spelled ≡ wire q.name };
}

impl<A: Allocator> Question<A> {
    ghost use Rattle.std.specs.Prelude.{◌≡◌, IfOk};

    /// A copy of the question. `Err` where an allocation fails.
    pub fn try_clone(&self) -> Result<Question<A>, AllocError>
    where
        A: Copy,
        ensures { IfOk result (λ q. q ≡ self.now) }
    {
        let spelled = self.spelled.try_clone()?;
        let name = self.name.try_clone()?;
        Ok(Question {
            spelled,
            name,
            rtype: self.rtype,
            class: self.class,
        })
    }
}
