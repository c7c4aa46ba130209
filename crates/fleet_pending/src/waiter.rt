//! Who waits for an answer.

use crate::addr::Addr;
use fleet_wire::Question;
use std::alloc::{Allocator, Global};
use std::marker::Model;

/// A client that waits for the answer to a question.
#[derive(Drop)]
pub struct Waiter<A: Allocator = Global> {
    /// The client's address: the source of the question, and the destination of its answer.
    pub from: Addr,
    /// The id of the question's message.
    pub id: u16,
    /// The question, in its own spelling.
    pub question: Question<A>,
}

impl<A: Allocator> Model for Waiter<A> {
    ghost use Rattle.fleet_pending.specs.Waiter.{WaiterData};

    ghost Value = { WaiterData };

    ghost view = { λ w. record { from = w.from; id = w.id; question = w.question } };
}
