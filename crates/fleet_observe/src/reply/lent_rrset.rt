//! Borrowed records that replies are made from.

ghost use Rattle.std.specs.Prelude.{◌≡◌, OnOk, OnErr};
ghost use Rattle.fleet_observe.specs.RrSet.{rrset_of_lent};
ghost use Rattle.fleet_observe.specs.Relay.{set_lines, with_answer_lines, HasFirstOf};

use fleet_name::{Name, Octets};
use fleet_wire::Outline;
use std::alloc::{AllocError, Allocator, Global};

/// Records of the class IN of one owner and type, borrowed from an RRset or an observation.
#[derive(Clone, Copy)]
pub struct LentRrSet<'a, A: Allocator = Global> {
    /// The owner of the records.
    pub name: &'a Name<A>,
    /// The type of the records.
    pub rtype: u16,
    /// The TTL that a reply has for them, in seconds.
    pub ttl: u32,
    /// Their RDATAs, with every name in full.
    pub rdatas: &'a [Octets<A>],
}

/// Adds records at the end of the answer section of a reply, one for each RDATA in their order: a
/// link of a chain, or the records that it leads to. `Err` where an allocation fails; a number of
/// the first ones, not all, has then been added, and nothing else is changed.
pub fn add_rrset<'a, A: Allocator + Copy>(
    outline: &mut Outline<'a, A>,
    lent: LentRrSet<'a, A>,
) -> Result<(), AllocError>
    ensures ok { OnOk result (outline.new
        ≡ with_answer_lines outline.old (set_lines (rrset_of_lent lent.entry))) }
    ensures err { OnErr result (HasFirstOf outline.old (set_lines (rrset_of_lent lent.entry))
        outline.new) }
{
    for rdata in lent.rdatas {
        match outline.answer(lent.name, lent.rtype, lent.ttl, rdata.as_slice()) {
            Ok(()) => (),
            Err(error) => return Err(error),
        }
    }
    Ok(())
}
