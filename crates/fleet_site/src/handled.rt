//! What handling a datagram gives, where a reply may be in a buffer.

use crate::outcome::Outcome;
use std::alloc::{Allocator, Global};

/// What a site gives for a datagram.
#[derive(Drop)]
pub enum Handled<A: Allocator = Global> {
    /// The buffer holds the octets of one packet, which goes to who asked; nothing else is given.
    Reply,
    /// This outcome, whatever the buffer holds.
    Outcome(Outcome<A>),
}
