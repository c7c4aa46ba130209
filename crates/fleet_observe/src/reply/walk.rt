//! The walk along aliases (RFC 1034 3.6.2).

ghost use Rattle.std.specs.Prelude.{◌≡◌, ℕ, ◌≤◌, ◌⊎◌, ◌↔◌, List, IsTrue, MatchOption};
ghost use Rattle.fleet_name.specs.Name.{labels_of};
ghost use Rattle.fleet_observe.specs.RrSet.{SpellsName};
ghost use Rattle.fleet_observe.specs.Walk.{HasWalk, Ends, EndsFound, EndsBare};
ghost use Rattle.fleet_observe.specs.steps.Following.{ArePlainRecords, IsFound, IsHop, IsOf};

use crate::bounds::MOST_LINKS;
use crate::reply::rrset::is_of_rrset;
use fleet_wire::Record;
use fleet_wire::rtype::CNAME;
use std::alloc::Allocator;

/// What the walk finds of an RRset: its first record, where there is one.
#[derive(Drop)]
pub(crate) enum Found<'a, A: Allocator> {
    /// There is no record of it.
    Nothing,
    /// Its records have one RDATA.
    One(&'a Record<A>),
    /// Its records have several RDATAs.
    Several(&'a Record<A>),
}

/// What the walk does at a name: with a record of the RRset that decides it.
#[derive(Drop)]
pub(crate) enum Hop<'a, A: Allocator> {
    /// It ends with records of the type.
    Records(&'a Record<A>),
    /// It goes on to the target of this alias.
    Alias(&'a Record<A>),
    /// It ends without records.
    Bare,
    /// There are several aliases, so there is no walk.
    Fork,
}

/// Whether the RRset at this name and type has none, one or several RDATAs.
fn find_rrset<'a, A: Allocator>(section: &'a [Record<A>], name: &[u8], rtype: u16) -> Found<'a, A>
    requires { SpellsName name.now }
    ensures { IsFound section.now (labels_of name.now) rtype result }
{
    let mut first: Option<&'a Record<A>> = None;
    for record in section {
        if is_of_rrset(record, name, rtype) {
            match first {
                None => first = Some(record),
                Some(held) => {
                    if held.rdata.as_slice() != record.rdata.as_slice() {
                        return Found::Several(held);
                    }
                }
            }
        }
    }
    match first {
        None => Found::Nothing,
        Some(held) => Found::One(held),
    }
}

/// What the walk does at this name, in full.
pub(crate) fn hop_at<'a, A: Allocator>(
    answer: &'a [Record<A>],
    name: &[u8],
    rtype: u16,
) -> Hop<'a, A>
    requires spelled { SpellsName name.now }
    requires plain { ArePlainRecords answer.now }
    ensures { IsHop answer.now rtype (labels_of name.now) result }
{
    match find_rrset(answer, name, rtype) {
        Found::One(record) => Hop::Records(record),
        Found::Several(record) => {
            if rtype == CNAME {
                Hop::Fork
            } else {
                Hop::Records(record)
            }
        }
        Found::Nothing => match find_rrset(answer, name, CNAME) {
            Found::Nothing => Hop::Bare,
            Found::One(alias) => Hop::Alias(alias),
            Found::Several(_) => Hop::Fork,
        },
    }
}

/// Whether there is a walk from this name, in full.
pub(crate) fn has_walk<A: Allocator>(answer: &[Record<A>], name: &[u8], rtype: u16) -> bool
    requires spelled { SpellsName name.now }
    requires plain { ArePlainRecords answer.now }
    ensures { IsTrue result ↔ HasWalk answer.now rtype (labels_of name.now) }
{
    let mut at = name;
    for _ in 0..MOST_LINKS + 1 {
        match hop_at(answer, at, rtype) {
            Hop::Alias(alias) => at = alias.rdata.as_slice(),
            Hop::Records(_) => return true,
            Hop::Bare => return true,
            Hop::Fork => return false,
        }
    }
    false
}

/// A record of the RRset that the walk found where it ended, if any.
pub(crate) fn found_at<'a, A: Allocator>(
    answer: &'a [Record<A>],
    name: &[u8],
    rtype: u16,
) -> Option<&'a Record<A>>
    requires spelled { SpellsName name.now }
    requires plain { ArePlainRecords answer.now }
    requires ends { Ends answer.now rtype (labels_of name.now) }
    ensures { MatchOption result (EndsBare answer.now rtype (labels_of name.now))
        (λ r. IsOf answer.now (labels_of name.now) rtype r.now) }
{
    match hop_at(answer, name, rtype) {
        Hop::Records(record) => Some(record),
        Hop::Bare => None,
        Hop::Alias(_) => None,
        Hop::Fork => None,
    }
}
