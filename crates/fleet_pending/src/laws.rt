//! Laws of the table. Each function does nothing: its contract is the law.

ghost use Rattle.fleet_pending.specs.Refusal.{RefusesExactly};
ghost use Rattle.fleet_pending.specs.QueryId.{AsksUnderQueryId};
ghost use Rattle.fleet_pending.specs.Calls.{EachAsOften};
ghost use Rattle.fleet_pending.specs.DueCount.{CountsDue};
ghost use Rattle.fleet_pending.specs.Settled.{SettlesItsEntry};
ghost use Rattle.fleet_pending.specs.Waiting.{WaitersStay};

/// `Full` is returned exactly where no entry has the question and 256 are open, `WaitersFull` exactly
/// where its entry has 32 waiters and not this one. So a repeated waiter and joining come first.
pub fn refusals_are_exact()
    ensures { RefusesExactly }
{}

/// Over any list of calls each waiter that waited at first or was accepted is given back by `settle`,
/// went with a `clear` or still waits, each as often.
pub fn waiters_kept()
    ensures { EachAsOften }
{}

/// Where `query_id` returns an id, asking sends a query with it to the first upstream, or runs out
/// of memory; where it returns `None`, asking sends no query.
pub fn asking_uses_query_id()
    ensures { AsksUnderQueryId }
{}

/// Where an entry has an id, `settle` with it returns that entry and removes no other.
pub fn settling_gives_its_entry()
    ensures { SettlesItsEntry }
{}

/// Who waits after a call waited before it, or is the one who asked.
pub fn waiters_stay()
    ensures { WaitersStay }
{}

/// None is due exactly where the count is 0, at most 256 are due, and once the first due entry has
/// moved on or is settled one fewer is due at that moment. So whoever serves them one after another
/// comes to an end.
pub fn serving_leaves_fewer_due()
    ensures { CountsDue }
{}
