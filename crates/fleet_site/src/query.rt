//! The query of an open question.

ghost use Rattle.std.specs.Prelude.{◌≡◌, IfOk};
ghost use Rattle.fleet_wire.specs.Query.{query_octets};
ghost use Rattle.fleet_pending.specs.PendingData.{IsEntryData};
ghost use Rattle.fleet_site.specs.Table.{IsOfClassOne};
ghost use Rattle.fleet_site.specs.Tick.{question_of};

use fleet_name::Octets;
use fleet_pending::Entry;
use fleet_wire::write_query;
use std::alloc::{AllocError, Allocator};

/// The octets of an entry's query. All who wait asked the same in lower case, so it is made of the
/// first one's question.
pub(crate) fn entry_query<A: Allocator + Copy>(
    alloc: A,
    id: u16,
    entry: &Entry<A>,
) -> Result<Octets<A>, AllocError>
    requires is_open { IsEntryData entry.now }
    requires class { IsOfClassOne entry.now }
    ensures { IfOk result (λ octets. octets ≡ query_octets id (question_of entry.now)) }
{
    let waiter = &entry.waiters.as_slice()[0];
    let octets = write_query(alloc, id, &waiter.question)?;
    Ok(Octets::new(octets))
}
