//! Octets on the heap, with a model.

ghost use Rattle.std.specs.Prelude.{◌≡◌, IfOk};

use std::alloc::{AllocError, Allocator, Global};
use std::marker::Model;

/// Octets on the heap, such as RDATA. Contracts see them as their list.
#[derive(Drop)]
pub struct Octets<A: Allocator = Global> {
    items: Vec<u8, A>,
}

impl<A: Allocator> Model for Octets<A> {
    ghost use Rattle.std.specs.Prelude.{ℕ, List};

    ghost Value = { List ℕ };

    ghost view = { λ o. o.items.items };
}

impl<A: Allocator> Octets<A> {
    /// The octets of a vector, which is kept: nothing is allocated.
    pub fn new(items: Vec<u8, A>) -> Octets<A>
        ensures { result ≡ items.items }
    {
        Octets { items }
    }

    /// A copy of the octets, in one allocation of exactly their number. `Err` where it fails.
    pub fn copy_of(alloc: A, octets: &[u8]) -> Result<Octets<A>, AllocError>
        ensures { IfOk result (λ o. o ≡ octets.now) }
    {
        let items = Vec::from_slice(alloc, octets)?;
        Ok(Octets { items })
    }

    /// The octets, lent.
    pub fn as_slice(&self) -> &[u8]
        ensures { result.now ≡ self.now }
    {
        &self.items
    }

    /// The vector that holds the octets.
    pub fn into_vec(self) -> Vec<u8, A>
        ensures { result.items ≡ self }
    {
        self.items
    }

    /// A copy in the same allocator, in one allocation of exactly its octets. `Err` where it fails.
    pub fn try_clone(&self) -> Result<Octets<A>, AllocError>
    where
        A: Copy,
        ensures { IfOk result (λ o. o ≡ self.now) }
    {
        Octets::copy_of(*self.items.allocator(), &self.items)
    }
}
