//! The results of the table's calls.

use crate::entry::Entry;
use crate::waiter::Waiter;
use std::alloc::{Allocator, Global};
use thiserror::Error;

/// What `Pending::ask` did.
#[derive(Clone, Copy, Debug, PartialEq, Eq)]
pub enum Asked {
    /// The same asker waits for the same question already; the new waiter is dropped.
    Again,
    /// The waiter waits with others for the same question.
    Joined,
    /// The question is new: a query with this id is to be sent to the upstream at this index.
    Send {
        /// The index of the upstream, from 0.
        upstream: u8,
        /// The id of the query.
        id: u16,
    },
}

/// Why a waiter was not taken.
#[derive(Clone, Copy, Debug, PartialEq, Eq, Error)]
pub enum PendingFault {
    /// The question is new, and 256 are open.
    #[error("full")]
    Full,
    /// 32 others wait for the question.
    #[error("waiters full")]
    WaitersFull,
    /// An allocation failed.
    #[error("out of memory")]
    OutOfMemory,
}

/// A waiter that was not taken, with the reason.
#[derive(Drop)]
pub struct Unasked<A: Allocator = Global> {
    /// Why it was not taken.
    pub fault: PendingFault,
    /// The waiter.
    pub waiter: Waiter<A>,
}

/// What is to be done for an entry whose time is over.
#[derive(Drop)]
pub enum Due<'a, A: Allocator = Global> {
    /// The query is to be sent again, to the next upstream.
    Retry {
        /// The index of the next upstream, from 0.
        upstream: u8,
        /// The id of the query, as before.
        id: u16,
        /// The entry.
        entry: &'a Entry<A>,
    },
    /// No upstream is left: each waiter is to get an answer that says so.
    Failed {
        /// The id of the entry.
        id: u16,
        /// The entry.
        entry: &'a Entry<A>,
    },
}
