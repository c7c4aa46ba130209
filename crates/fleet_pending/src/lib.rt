//! Questions that wait for an upstream.
//!
//! At most 256 questions are open, and each has at most 32 waiters. Only `ask` and `open` allocate, and
//! only for a new entry or a new waiter.
//!
//! Which upstream is asked, and when, is a rule of this table: a site sends where it says. A question
//! goes to the first upstream. Where two seconds pass without a reply it goes to the next one, under
//! the same id, and to each upstream once. Two seconds after the last query it has failed.
#![tactic(auto)]

mod addr;
mod answer;
pub mod bounds;
mod entry;
mod laws;
mod pending;
mod search;
mod waiter;
mod waiters;

pub use addr::Addr;
pub use answer::{Asked, Due, PendingFault, Unasked};
pub use entry::Entry;
pub use laws::{
    asking_uses_query_id, refusals_are_exact, serving_leaves_fewer_due, settling_gives_its_entry,
    waiters_kept, waiters_stay,
};
pub use pending::Pending;
pub use waiter::Waiter;
pub use waiters::Waiters;
