//! The undominated values of a set, greatest first.
//!
//! A [`Front`] stands for a plain set of values: of all that it was given, it holds those that no
//! other one dominates. It does not matter in which order they came, or how often. A cut hides some
//! values of the set: the front of those that it shows is what it shows of the front.
//!
//! [`Ranked`] says how the values compare, which of them dominate and what hides them. All that is
//! said here holds for each type that keeps its laws.
#![tactic(auto)]

ghost use Rattle.std.specs.Prelude.{◌≡◌, Bool, true, false, ◌||◌, not, List, [], IfOk, OnOk, OnErr, IfSome, IfNone, IsTrue, ◌↔◌, length, MatchOption, slice_get, Some, ◌∷◌, ◌≤◌, ◌+◌, vec_len, vec_capacity};
ghost use Rattle.std.specs.Ordering.{is_eq};
ghost use Rattle.std.specs.declared.cmp.Ordering.{Ordering};
ghost use Rattle.std.specs.List.{filter};
ghost use Rattle.fleet_front.specs.Front.{RankedLaws, IsFront, IsCovered, IsGreatest, without_hidden, is_covered, count_above};

use std::alloc::{AllocError, Allocator, Global};
use std::cmp::Ordering;
use std::marker::Model;

/// Values with a preference, some of which dominate others.
///
/// Its laws: the order is total, and equal only on equal values; what dominates is greater than
/// what it dominates, and dominates what that dominates; and what hides a value hides all that it
/// dominates.
pub trait Ranked: Drop {
    /// What can hide values, as a moment hides what has ended.
    type Cut;

    ghost order: { Self → Self → Ordering };

    ghost dominates: { Self → Self → Bool };

    ghost hidden: { Self.Cut → Self → Bool };

    /// How the place of this value compares with the other's.
    fn order(&self, other: &Self) -> Ordering
        ensures { result ≡ order self.now other.now };

    /// Whether this value dominates the other.
    fn dominates(&self, other: &Self) -> bool
        ensures { result ≡ dominates self.now other.now };

    /// Whether the cut hides this value.
    fn hidden(&self, cut: &Self::Cut) -> bool
        ensures { result ≡ hidden cut.now self.now };

    ghost laws: { RankedLaws order dominates hidden };
}

/// The undominated values of a set, greatest first, in one list.
#[derive(Drop)]
pub struct Front<T: Ranked, A: Allocator = Global> {
    items: Vec<T, A>,
}

impl<T: Ranked, A: Allocator> Model for Front<T, A> {
    ghost Value = { List T };

    ghost view = { λ f. f.items.items };

    ghost invariant = { λ f. IsFront T.order T.dominates f.items.items f.items.items };
}

impl<T: Ranked, A: Allocator> Front<T, A> {
    /// The front of no values. This allocates nothing.
    pub fn new(alloc: A) -> Self
        ensures { result ≡ [] }
    {
        Front {
            items: Vec::new(alloc),
        }
    }

    /// The items, greatest first: they are the front of themselves.
    pub fn items(&self) -> &[T]
        ensures items { result.now ≡ self.now }
        ensures front { IsFront T.order T.dominates self.now self.now }
    {
        &self.items
    }

    /// Takes a value in: the items are then the front of the set with it. `false` exactly where it
    /// is there already or one of the items dominates it, and nothing changes. Else it goes to its
    /// place, and what it dominates goes. This allocates only for a value that is to be held; `Err`
    /// where the allocation fails, and nothing changes.
    pub fn take(&mut self, value: T) -> Result<bool, AllocError>
        ensures taken { (s : List T) → IsFront T.order T.dominates s self.old
            → OnOk result (IsFront T.order T.dominates (value ∷ s) self.new) }
        ensures kept { IfOk result (λ kept. (kept ≡ false) ↔ IsCovered T.dominates self.old value) }
        ensures same { IfOk result (λ kept. kept ≡ false → self.new ≡ self.old) }
        ensures size { length self.new ≤ length self.old + 1 }
        ensures memory { OnErr result (¬ IsCovered T.dominates self.old value) }
        ensures err { OnErr result (self.new ≡ self.old) }
    {
        if covers(&self.items, &value) {
            return Ok(false);
        }
        make_room(&mut self.items)?;
        drop_dominated(&mut self.items, &value);
        let at = insertion_index(&self.items, &value);
        self.items.insert(at, value)?;
        Ok(true)
    }

    /// Drops what the cut hides: what is left is the front of what the cut shows.
    pub fn drop_hidden(&mut self, cut: &T::Cut)
        ensures front { (s : List T) → IsFront T.order T.dominates s self.old
            → IsFront T.order T.dominates (without_hidden T.hidden cut.now s) self.new }
        ensures items { self.new ≡ without_hidden T.hidden cut.now self.old }
    {
        keep_shown(&mut self.items, cut);
        give_room_back(&mut self.items);
    }

    /// The greatest value of the set that the cut does not hide, if there is one.
    pub fn first_shown(&self, cut: &T::Cut) -> Option<&T>
        ensures { (s : List T) → IsFront T.order T.dominates s self.now
            → MatchOption result (without_hidden T.hidden cut.now s ≡ [])
            (λ x. IsGreatest T.order (without_hidden T.hidden cut.now s) x.now) }
    {
        first_kept(&self.items, cut)
    }
}

/// Whether an item is equal to the value or dominates it.
fn covers<T: Ranked>(items: &[T], value: &T) -> bool
    ensures { result ≡ is_covered T.order T.dominates value.now items.now }
{
    items
        .iter()
        .any(|held| held.order(value).is_eq() || held.dominates(value))
}

/// The number of items up to which a front has exactly the room that it needs.
const FEW: usize = 4;

// Lets through: a body that makes more room than an item needs, or has another number than `FEW`.
// That costs memory alone, and no test has the number.
/// Makes room for one more item. For each of the first `FEW` this is exactly one, since most fronts
/// have no more. `Err` where an allocation fails; the items are then as they were.
fn make_room<T: Ranked, A: Allocator>(items: &mut Vec<T, A>) -> Result<(), AllocError>
    ensures items { items.new.items ≡ items.old.items }
    ensures len { vec_len items.new ≡ vec_len items.old }
    ensures room { OnOk result (vec_len items.new + 1 ≤ vec_capacity items.new) }
{
    if items.len() < FEW {
        return items.reserve_exact(1);
    }
    items.reserve(1)
}

/// Drops the items that the value dominates.
fn drop_dominated<T: Ranked, A: Allocator>(items: &mut Vec<T, A>, value: &T)
    ensures items { items.new.items ≡ filter (λ y. not (T.dominates value.now y)) items.old.items }
    ensures shorter { vec_len items.new ≤ vec_len items.old }
    ensures capacity { vec_capacity items.new ≡ vec_capacity items.old }
{
    items.retain(
        |held: &T| -> bool
            ensures { result ≡ not (T.dominates value.entry.now held.now) }
        { !value.dominates(held) },
    );
}

/// Keeps what the cut does not hide.
fn keep_shown<T: Ranked, A: Allocator>(items: &mut Vec<T, A>, cut: &T::Cut)
    ensures { items.new.items ≡ without_hidden T.hidden cut.now items.old.items }
{
    items.retain(
        |held: &T| -> bool
            ensures { result ≡ not (T.hidden cut.entry.now held.now) }
        { !held.hidden(cut) },
    );
}

// Lets through: a body that keeps all of the room, since the clause says nothing of it. The tested
// body `front_keeps_its_room` does so, and the test `a_name_gives_back_the_room_that_it_had` sees
// it.
/// Gives room back where less than a quarter of it is used: room for twice the items is left. Where
/// the smaller room can't be allocated, all of it stays.
fn give_room_back<T: Ranked, A: Allocator>(items: &mut Vec<T, A>)
    ensures { items.new.items ≡ items.old.items }
{
    if items.len() < items.capacity() / 4 {
        items.shrink_to(items.len().saturating_mul(2));
    }
}

/// The first item that the cut does not hide.
fn first_kept<'a, T: Ranked>(items: &'a [T], cut: &T::Cut) -> Option<&'a T>
    ensures { MatchOption result (without_hidden T.hidden cut.now items.now ≡ [])
        (λ x. (rest : List T) × (without_hidden T.hidden cut.now items.now ≡ x.now ∷ rest)) }
{
    for held in items {
        if !held.hidden(cut) {
            return Some(held);
        }
    }
    None
}

/// How many items at the beginning are greater than the value.
fn insertion_index<T: Ranked>(items: &[T], value: &T) -> usize
    ensures count { result ≡ count_above T.order value.now items.now }
    ensures within { result ≤ length items.now }
{
    let mut at = 0;
    while at < items.len() && items[at].order(value).is_gt() {
        at += 1;
    }
    at
}
