//! The table of open questions.

ghost use Rattle.std.specs.Prelude.{◌≡◌, ◌<◌, ◌≤◌, ℕ, [], IfErr, IfSome, OnErr, MatchOption, option_copied, IsTrue, ◌↔◌, Some, length};
ghost use Rattle.fleet_pending.specs.Asking.{Asks, Opens, Settles, Advances, ask_result, with_next_upstream};
ghost use Rattle.fleet_pending.specs.FreeId.{IsFirstFree};
ghost use Rattle.fleet_pending.specs.Due.{Dues, due_at, due_entry};
ghost use Rattle.fleet_pending.specs.QueryId.{IsQueryId};
ghost use Rattle.fleet_pending.specs.PendingData.{UsesId, AsksFor, Matches, IsEntryData, IsPendingData};
ghost use Rattle.fleet_pending.specs.declared.bounds.TheConstants.{MOST_ENTRIES, MOST_UPSTREAMS};
ghost use Rattle.fleet_wire.specs.declared.class.TheConstants.{IN};
ghost use Rattle.fleet_name.specs.Places.{Finds};

use crate::answer::{Asked, Due, PendingFault, Unasked};
use crate::bounds::{MOST_ENTRIES, TRY_SECONDS};
use crate::entry::{Entry, join, make_entry};
use crate::search::{
    asks_for, first_due_entry, first_free_id, place_of_id, place_of_question, soonest_of,
};
use crate::waiter::Waiter;
use fleet_observe::Moment;
use fleet_wire::Question;
use fleet_wire::class::IN;
use std::alloc::{Allocator, Global};
use std::marker::Model;

// Lets through: an earlier `soonest` after any call. `due` then goes over the open questions where none
// is due, which costs time alone.
/// The open questions. No entry's time is over before `soonest`, so that nobody looks for one that is
/// due where none can be. Whoever sets a deadline keeps `soonest` at or before it.
#[derive(Drop)]
pub struct Pending<A: Allocator = Global> {
    upstreams: u8,
    entries: Vec<Entry<A>, A>,
    soonest: u64,
}

impl<A: Allocator> Model for Pending<A> {
    ghost use Rattle.fleet_pending.specs.PendingData.{PendingData, IsPendingData};
    ghost use Rattle.fleet_pending.specs.Due.{NoneSooner};

    ghost Value = { PendingData };

    ghost view = { λ p. record { upstreams = p.upstreams; entries = p.entries.items } };

    ghost invariant = { λ p.
        IsPendingData (record { upstreams = p.upstreams; entries = p.entries.items })
        × NoneSooner p.soonest p.entries.items };
}

impl<A: Allocator> Pending<A> {
    /// A new table, without questions. Each one will be asked of `upstreams` upstreams (1 to 4), one
    /// after the other.
    pub fn new(alloc: A, upstreams: u8) -> Pending<A>
        requires some { 1 ≤ upstreams }
        requires few { upstreams ≤ MOST_UPSTREAMS }
        ensures empty { result ≡ record { upstreams = upstreams; entries = [] } }
        ensures lawful { IsPendingData result }
    {
        Pending {
            upstreams,
            entries: Vec::new(alloc),
            soonest: u64::MAX,
        }
    }

    // Lets through: any allocator that the table holds, since it has no clause. Each is a copy of that
    // which `new` was given.
    /// The allocator that the table was made with.
    pub fn allocator(&self) -> &A {
        self.entries.allocator()
    }

    /// Enters a waiter that asks a question at a moment: into the entry that has its question, or into
    /// a new one. The search for a free id begins at `word`. The question's class is not looked at:
    /// where each question was of one class, so is each waiter's (`waiters_stay`).
    ///
    /// Where an entry has the name and the type:
    ///
    /// - `Again`: the same address waits under the same id.
    /// - `WaitersFull`: 32 others wait.
    /// - `Joined`: else.
    ///
    /// Where none has:
    ///
    /// - `Full`: 256 are open.
    /// - `Send`: else. The new entry asks the first upstream, and its time is over 2 seconds later.
    ///   Its id is the first that no entry has, from `word` upwards modulo 65536.
    ///
    /// # Errors
    ///
    /// `WaitersFull`, `Full`, and `OutOfMemory` where the allocation for a new entry or waiter
    /// fails. Each changes nothing, and hands the waiter back.
    pub fn ask(&mut self, waiter: Waiter<A>, now: Moment, word: u16) -> Result<Asked, Unasked<A>>
    where
        A: Copy,
        ensures asks { Asks self.old waiter now word (ask_result result) self.new }
        ensures back { IfErr result (λ u. u.waiter ≡ waiter) }
        ensures unchanged { OnErr result (self.new ≡ self.old) }
        ensures upstreams { self.new.upstreams ≡ self.old.upstreams }
        ensures lawful { IsPendingData self.new }
    {
        match place_of_question(self.entries.as_slice(), &waiter.question) {
            Some(i) => join(&mut self.entries[i], waiter),
            None => {
                self.soonest = self.soonest.min(now.value() + TRY_SECONDS);
                add_entry(&mut self.entries, waiter, now, word)
            }
        }
    }

    /// Opens an entry for a waiter whose question is new and has room, under the id that `query_id`
    /// returned for it. It answers and leaves what `ask` does with the same word, and searches nothing
    /// again.
    ///
    /// # Errors
    ///
    /// `OutOfMemory` where the allocation for the new entry fails. It changes nothing, and hands the
    /// waiter back.
    pub fn open(&mut self, waiter: Waiter<A>, now: Moment, id: u16) -> Result<Asked, Unasked<A>>
    where
        A: Copy,
        requires { (word : ℕ) × IsQueryId self.old waiter.question word (Some id) }
        ensures asks { (word : ℕ) → IsQueryId self.old waiter.question word (Some id)
            → Asks self.old waiter now word (ask_result result) self.new }
        ensures back { IfErr result (λ u. u.waiter ≡ waiter) }
        ensures unchanged { OnErr result (self.new ≡ self.old) }
        ensures upstreams { self.new.upstreams ≡ self.old.upstreams }
        ensures lawful { IsPendingData self.new }
    {
        self.soonest = self.soonest.min(now.value() + TRY_SECONDS);
        enter(&mut self.entries, waiter, now, id)
    }

    /// The id of the query that asking would send now, with the same word; `None` where an entry has
    /// the question's name and type, or 256 are open. Nothing changes.
    pub fn query_id(&self, question: &Question<A>, word: u16) -> Option<u16>
        ensures id { IsQueryId self.now question.now word result }
        ensures lawful { IsPendingData self.now }
    {
        if place_of_question(self.entries.as_slice(), question).is_some() {
            return None;
        }
        if self.entries.len() >= MOST_ENTRIES {
            return None;
        }
        let id = first_free_id(self.entries.as_slice(), word);
        Some(id)
    }

    /// The entry whose query has this id; `None` where there is none.
    pub fn entry(&self, id: u16) -> Option<&Entry<A>>
        ensures finds { Finds (UsesId id) self.now.entries (option_copied result) }
        ensures is_open { IfSome result (λ e. IsEntryData e.now) }
        ensures lawful { IsPendingData self.now }
    {
        let i = place_of_id(self.entries.as_slice(), id)?;
        Some(&self.entries[i])
    }

    /// The entry that a reply is for, if there is one: it asks this upstream now, under this id, for
    /// this name and type, and the reply's question is of class 1 (IN), whatever its waiters' classes
    /// are.
    pub fn find(&self, upstream: u8, id: u16, question: &Question<A>) -> Option<&Entry<A>>
        ensures finds { Finds (Matches upstream id question.now) self.now.entries
            (option_copied result) }
        ensures is_open { IfSome result (λ e. IsEntryData e.now) }
        ensures lawful { IsPendingData self.now }
    {
        let i = place_of_id(self.entries.as_slice(), id)?;
        let entry = &self.entries[i];
        if matches(entry, upstream, question) {
            Some(entry)
        } else {
            None
        }
    }

    /// Removes the entry with an id, and returns it; `None` where there is none.
    pub fn settle(&mut self, id: u16) -> Option<Entry<A>>
        ensures settles { Settles self.old id result self.new }
        ensures is_open { IfSome result (λ e. IsEntryData e) }
        ensures upstreams { self.new.upstreams ≡ self.old.upstreams }
        ensures lawful { IsPendingData self.new }
    {
        let i = place_of_id(self.entries.as_slice(), id)?;
        Some(self.entries.remove(i))
    }

    /// Removes all entries: the table is as a new one, and its room is kept.
    pub fn clear(&mut self)
        ensures cleared { self.new ≡ record self.old { entries = [] } }
        ensures lawful { IsPendingData self.new }
    {
        self.entries.clear();
        self.soonest = u64::MAX;
    }

    /// What is to be done first at a moment; `None` where no entry is due. An entry is due where its
    /// deadline is not after the moment. The one with the least deadline comes first, and of these
    /// the one with the least id. It is to be asked of the next upstream, or has failed after the
    /// last.
    pub fn due(&self, now: Moment) -> Option<Due<'_, A>>
        ensures dues { Dues self.now now result }
        ensures is_open { IfSome result (λ d. IsEntryData (due_entry d)) }
        ensures count { MatchOption result (due_at self.now now ≡ 0)
            (λ _. 0 < due_at self.now now) }
        ensures lawful { IsPendingData self.now }
    {
        if now.value() < self.soonest {
            return None;
        }
        let entry = first_due_entry(self.entries.as_slice(), now.value())?;
        let id = entry.id;
        let upstream = entry.upstream + 1;
        if upstream < self.upstreams {
            Some(Due::Retry {
                upstream,
                id,
                entry,
            })
        } else {
            Some(Due::Failed { id, entry })
        }
    }

    // Lets through: a body that leaves the table as it is: no clause sees that the first deadline is
    // kept. Ticks then go over the open questions where none is due, which costs time alone.
    /// Looks for the first deadline, where one may have passed by a moment. Who was told by `due` that
    /// no entry is due then calls this, so that `due` looks at none before the deadline that comes
    /// next. Nothing changes that is seen.
    pub fn look_ahead(&mut self, now: Moment)
        ensures { self.new ≡ self.old }
    {
        if self.soonest <= now.value() {
            self.soonest = soonest_of(self.entries.as_slice());
        }
    }

    /// Moves the entry with an id to the next upstream; its time is over 2 seconds after the
    /// moment. `false` where there is no such entry or no further upstream: then nothing changes.
    pub fn advance(&mut self, id: u16, now: Moment) -> bool
        ensures advances { Advances self.old id now result self.new }
        ensures upstreams { self.new.upstreams ≡ self.old.upstreams }
        ensures lawful { IsPendingData self.new }
    {
        match place_of_id(self.entries.as_slice(), id) {
            Some(i) => {
                let next = self.entries[i].upstream + 1;
                if next < self.upstreams {
                    self.soonest = self.soonest.min(now.value() + TRY_SECONDS);
                    move_on(&mut self.entries[i], now);
                    true
                } else {
                    false
                }
            }
            None => false,
        }
    }
}

/// The entry goes on to the next upstream.
fn move_on<A: Allocator>(entry: &mut Entry<A>, now: Moment)
    requires { entry.old.upstream < MOST_UPSTREAMS }
    ensures { entry.new ≡ with_next_upstream entry.old now }
{
    entry.upstream += 1;
    entry.deadline = now.value() + TRY_SECONDS;
}

/// Whether a reply from an upstream with this question is for the entry.
fn matches<A: Allocator>(entry: &Entry<A>, upstream: u8, question: &Question<A>) -> bool
    ensures { IsTrue result
        ↔ ((entry.now.upstream ≡ upstream)
        × AsksFor question.now entry.now
        × (question.now.class ≡ IN)) }
{
    entry.upstream == upstream && question.class == IN && asks_for(entry, question)
}

/// What `ask` does where the question is new: it opens an entry, unless `MOST_ENTRIES` are open.
fn add_entry<A: Allocator + Copy>(
    entries: &mut Vec<Entry<A>, A>,
    waiter: Waiter<A>,
    now: Moment,
    word: u16,
) -> Result<Asked, Unasked<A>>
    ensures opens { Opens entries.old.items waiter now word (ask_result result)
        entries.new.items }
    ensures back { IfErr result (λ u. u.waiter ≡ waiter) }
{
    if entries.len() >= MOST_ENTRIES {
        let fault = PendingFault::Full;
        return Err(Unasked { fault, waiter });
    }
    let id = first_free_id(entries.as_slice(), word);
    enter(entries, waiter, now, id)
}

/// Opens an entry under an id for a waiter whose question is new. All memory is taken before anything
/// changes: for the table, the name, the list of waiters.
fn enter<A: Allocator + Copy>(
    entries: &mut Vec<Entry<A>, A>,
    waiter: Waiter<A>,
    now: Moment,
    id: u16,
) -> Result<Asked, Unasked<A>>
    requires few { length entries.old.items < MOST_ENTRIES }
    ensures opens { (word : ℕ) → IsFirstFree word entries.old.items id
        → Opens entries.old.items waiter now word (ask_result result) entries.new.items }
    ensures back { IfErr result (λ u. u.waiter ≡ waiter) }
{
    let fault = PendingFault::OutOfMemory;
    if let Err(_) = entries.reserve(1) {
        return Err(Unasked { fault, waiter });
    }
    match make_entry(*entries.allocator(), waiter, now, id) {
        Ok(entry) => {
            entries.push_reserved(entry);
            Ok(Asked::Send { upstream: 0, id })
        }
        Err(waiter) => Err(Unasked { fault, waiter }),
    }
}
