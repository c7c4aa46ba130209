//! Lists of items that are owned.

ghost use Rattle.std.specs.Prelude.{◌≡◌, ◌++◌, ◌∷◌, [], IfErr, MatchResult, OnErr, OnOk, length};

use std::alloc::{AllocFailed, Allocator, Global};
use std::marker::Model;

/// Items in order, seen by contracts as the list of what they are.
#[derive(Drop)]
pub struct Items<T, A: Allocator = Global> {
    items: Vec<T, A>,
}

impl<T, A: Allocator> Model for Items<T, A> {
    ghost use Rattle.std.specs.Prelude.{List};

    ghost Value = { List T };

    ghost view = { λ x. x.items.items };
}

impl<T, A: Allocator> Items<T, A> {
    /// The items of a vector, in its order.
    pub fn new(items: Vec<T, A>) -> Items<T, A>
        ensures { result ≡ items.items }
    {
        Items { items }
    }

    /// A list of one item. The item comes back where the allocation fails.
    pub fn of_one(alloc: A, item: T) -> Result<Items<T, A>, AllocFailed<T>>
        ensures { MatchResult result (λ x. x ≡ item ∷ []) (λ f. f.value ≡ item) }
    {
        match Vec::with_capacity(alloc, 1) {
            Ok(mut items) => {
                items.push_reserved(item);
                Ok(Items { items })
            }
            Err(_) => Err(AllocFailed { value: item }),
        }
    }

    /// The items, in their order.
    pub fn as_slice(&self) -> &[T]
        ensures value { result.now ≡ self.now }
        ensures len { length result.now ≡ length self.now }
    {
        self.items.as_slice()
    }

    /// The items as the vector that holds them.
    pub fn into_vec(self) -> Vec<T, A>
        ensures { result.items ≡ self }
    {
        let Items { items } = self;
        items
    }

    /// How many items there are.
    pub fn len(&self) -> usize
        ensures { result ≡ length self.now }
    {
        self.items.len()
    }

    /// Adds an item at the end. Where the allocation fails, the item comes back and the list is as
    /// it was.
    pub fn push(&mut self, item: T) -> Result<(), AllocFailed<T>>
        ensures ok { OnOk result (self.new ≡ self.old ++ item ∷ []) }
        ensures err { OnErr result (self.new ≡ self.old) }
        ensures back { IfErr result (λ f. f.value ≡ item) }
    {
        self.items.push(item)
    }
}
