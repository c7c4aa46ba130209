//! Searching the entries of a table.

ghost use Rattle.std.specs.Prelude.{◌<◌, ◌≤◌, ◌↔◌, IsTrue, MatchOption, length};
ghost use Rattle.fleet_pending.specs.FreeId.{AreTakenIds, IsFirstFree};
ghost use Rattle.fleet_pending.specs.Due.{IsFirstDue, NoneDue, IsBefore, IsSoonest};
ghost use Rattle.fleet_pending.specs.PendingData.{UsesId, AsksFor};
ghost use Rattle.fleet_pending.specs.declared.bounds.TheConstants.{MOST_ENTRIES};
ghost use Rattle.fleet_name.specs.Places.{IsPlace};

use crate::bounds::MOST_ENTRIES;
use crate::entry::Entry;
use fleet_wire::Question;
use std::alloc::Allocator;

/// The index of the entry with an id.
pub(crate) fn place_of_id<A: Allocator>(entries: &[Entry<A>], id: u16) -> Option<usize>
    ensures { IsPlace (UsesId id) entries.now result }
{
    for (i, entry) in entries.iter().enumerate() {
        if entry.id == id {
            return Some(i);
        }
    }
    None
}

/// The index of the entry for a question of this name and type.
pub(crate) fn place_of_question<A: Allocator>(
    entries: &[Entry<A>],
    question: &Question<A>,
) -> Option<usize>
    ensures { IsPlace (AsksFor question.now) entries.now result }
{
    for (i, entry) in entries.iter().enumerate() {
        if asks_for(entry, question) {
            return Some(i);
        }
    }
    None
}

/// Whether the entry is for a question of this name and type.
pub(crate) fn asks_for<A: Allocator>(entry: &Entry<A>, question: &Question<A>) -> bool
    ensures { IsTrue result ↔ AsksFor question.now entry.now }
{
    entry.rtype == question.rtype && entry.name.same(&question.name)
}

/// The first id from `word` upwards, modulo 65536, that no entry has.
pub(crate) fn first_free_id<A: Allocator>(entries: &[Entry<A>], word: u16) -> u16
    requires { length entries.now < MOST_ENTRIES }
    ensures { IsFirstFree word entries.now result }
{
    let taken = mark_taken(entries, word);
    for passed in 0..MOST_ENTRIES as u16 {
        if !taken[passed as usize] {
            return word.wrapping_add(passed);
        }
    }
    unreachable!()
}

/// Which of the 256 ids from `word` upwards an entry has.
fn mark_taken<A: Allocator>(entries: &[Entry<A>], word: u16) -> [bool; MOST_ENTRIES]
    ensures { AreTakenIds word entries.now result }
{
    let mut taken = [false; MOST_ENTRIES];
    for entry in entries {
        let passed = entry.id.wrapping_sub(word) as usize;
        if passed < taken.len() {
            taken[passed] = true;
        }
    }
    taken
}

/// The entry that is to be served first: of those that are due, the one with the least deadline,
/// and of these the one with the least id.
pub(crate) fn first_due_entry<A: Allocator>(entries: &[Entry<A>], now: u64) -> Option<&Entry<A>>
    ensures { MatchOption result (NoneDue entries.now now)
        (λ e. IsFirstDue entries.now now e.now) }
{
    let mut first: Option<&Entry<A>> = None;
    for entry in entries {
        if replaces(first, entry, now) {
            first = Some(entry);
        }
    }
    first
}

/// Whether this entry is due, and before the first one so far.
fn replaces<A: Allocator>(first: Option<&Entry<A>>, entry: &Entry<A>, now: u64) -> bool
    ensures { IsTrue result ↔ ((entry.now.deadline ≤ now)
        × MatchOption first.entry (Unit {0}) (λ o. IsBefore entry.now o.now)) }
{
    if entry.deadline > now {
        return false;
    }
    match first {
        None => true,
        Some(other) => is_before(entry, other),
    }
}

/// Whether one entry is served before another.
fn is_before<A: Allocator>(entry: &Entry<A>, other: &Entry<A>) -> bool
    ensures { IsTrue result ↔ IsBefore entry.now other.now }
{
    if entry.deadline == other.deadline {
        entry.id < other.id
    } else {
        entry.deadline < other.deadline
    }
}

/// The least deadline, or the greatest number where there is no entry.
pub(crate) fn soonest_of<A: Allocator>(entries: &[Entry<A>]) -> u64
    ensures { IsSoonest u64.MAX entries.now result }
{
    let mut soonest = u64::MAX;
    for entry in entries {
        soonest = soonest.min(entry.deadline);
    }
    soonest
}
