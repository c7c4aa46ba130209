//! The answer to a question.

ghost use Rattle.std.specs.Prelude.{◌≡◌};
ghost use Rattle.fleet_name.specs.Types.{Labels};
ghost use Rattle.fleet_name.specs.Name.{wire, IsName, IsWire};
ghost use Rattle.fleet_wire.specs.declared.rtype.TheConstants.{CNAME};
ghost use Rattle.fleet_observe.specs.declared.observation.kind.Kind.TheVariants.{Positive};
ghost use Rattle.fleet_cache.specs.Live.{shown_ttl as ttl_at};
ghost use Rattle.fleet_cache.specs.steps.Held.{IsHeld};
ghost use Rattle.fleet_cache.specs.Answer.{answer_of, part_at, add_links, by_kind, is_link as leads_on, target as alias_target};
ghost use Rattle.fleet_cache.specs.Shown.{shown_parts, AllSome};
ghost use Rattle.fleet_cache.specs.AnswerData.{answer_data, chain_of};

use crate::held::Held;
use crate::lookup::decider;
use crate::shown::Shown;
use arrayvec::ArrayVec;
use fleet_observe::bounds::MOST_LINKS;
use fleet_observe::{Kind, Moment, Observation};
use fleet_wire::rtype::CNAME;
use std::alloc::{Allocator, Global};

/// The links of an answer, in order: at most `MOST_LINKS` aliases (CNAME), each with its TTL. Each
/// place in use is `Some`.
pub type Chain<'a, A> = ArrayVec<Option<Shown<'a, A>>, MOST_LINKS>;

/// The answer to a question: records, or the SOA of a denial, after the aliases that lead there.
/// Its parts are borrowed from the cache.
#[derive(Drop)]
pub enum Answer<'a, A: Allocator = Global> {
    /// There are records of the type, or the alias that was asked for.
    Found {
        /// The aliases to the name.
        chain: Chain<'a, A>,
        /// The records.
        set: Shown<'a, A>,
    },
    /// The name has no records of the type (RFC 2308 2.2).
    NoData {
        /// The aliases to the name.
        chain: Chain<'a, A>,
        /// The denial, with its SOA.
        soa: Shown<'a, A>,
    },
    /// The name does not exist (RFC 2308 2.1, RFC 8020 2).
    NxDomain {
        /// The aliases to the name.
        chain: Chain<'a, A>,
        /// The denial, with its SOA.
        soa: Shown<'a, A>,
    },
    /// No live observation decides the question at the name, or at one that an alias leads to, or a
    /// ninth alias is met.
    Miss,
}

/// The TTL of an observation at the moment, in seconds: what is left of its life, and at most the
/// life.
fn shown_ttl<A: Allocator>(observation: &Observation<A>, now: Moment) -> u32
    ensures { result ≡ ttl_at now observation.now }
{
    observation
        .expires()
        .saturating_sub(now.value())
        .min(u64::from(observation.life())) as u32
}

/// An observation with its TTL at the moment.
fn show<'a, A: Allocator>(observation: &'a Observation<A>, now: Moment) -> Shown<'a, A>
    ensures { result ≡ part_at now observation.now }
{
    Shown {
        observation,
        ttl: shown_ttl(observation, now),
    }
}

/// Whether an observation is an alias where another type is asked for.
fn is_link<A: Allocator>(observation: &Observation<A>, rtype: u16) -> bool
    ensures { result ≡ leads_on rtype observation.now }
{
    observation.kind() == Kind::Positive && observation.rtype() == CNAME && rtype != CNAME
}

/// The octets of the name that an alias leads to, in full.
fn target<A: Allocator>(observation: &Observation<A>) -> &[u8]
    requires of_kind { observation.now.kind ≡ Positive }
    requires of_type { observation.now.rtype ≡ CNAME }
    ensures octets { result.now ≡ wire (alias_target observation.now) }
    ensures named { IsName (alias_target observation.now) }
{
    observation.rdatas()[0].as_slice()
}

/// The answer that ends with an observation.
fn finish<'a, A: Allocator>(chain: Chain<'a, A>, last: Shown<'a, A>) -> Answer<'a, A>
    requires { AllSome chain.items }
    ensures answer { answer_data result
        ≡ add_links (shown_parts chain.entry.items) (by_kind last.entry) }
    ensures filled { AllSome (chain_of result) }
{
    match last.observation.kind() {
        Kind::Positive => Answer::Found { chain, set: last },
        Kind::NoData => Answer::NoData { chain, soa: last },
        Kind::NameError => Answer::NxDomain { chain, soa: last },
        Kind::Flush => Answer::Miss,
    }
}

/// Follows the aliases from a name, given by its octets in full, and returns the answer.
pub(crate) fn follow<'a, A: Allocator>(
    held: &'a Held<A>,
    name: &[u8],
    rtype: u16,
    now: Moment,
) -> Answer<'a, A>
    requires named { IsWire name.now }
    ensures filled { AllSome (chain_of result) }
    ensures answer { (n : Labels) → name.now ≡ wire n
        → answer_data result ≡ answer_of held.now now n rtype }
    ensures own { IsHeld held.now }
{
    let mut chain = ArrayVec::new();
    let mut at = name;
    loop {
        let Some(observation) = decider(held, at, rtype, now) else {
            return Answer::Miss;
        };
        let part = show(observation, now);
        if !is_link(observation, rtype) {
            return finish(chain, part);
        }
        if chain.is_full() {
            return Answer::Miss;
        }
        chain.push(Some(part));
        at = target(observation);
    }
}
