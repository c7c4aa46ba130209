//! What a site holds where one allocation was refused.

use crate::tests::octets::octets;
use crate::tests::refused::MANY;
use crate::tests::refusing::Refusing;
use crate::tests::sites::{at, config};
use fleet_observe::Moment;
use fleet_site::{Site, SiteFault};
use std::alloc::{Allocator, Global};
use std::process::Abort;

/// The site learns the reply with two aliases and a denial: how many observations it took, and
/// whether that was all.
fn learn<A: Allocator + Copy>(site: &mut Site<A>, now: Moment, reply: &[u8]) -> (usize, bool) {
    match site.learn(now, reply) {
        Ok(outcome) => (outcome.taken, true),
        Err(SiteFault::OutOfMemory { taken }) => (taken, false),
    }
}

/// A site learns the reply, and holds as many observations as it took; whether that was all.
fn is_learnt<A: Allocator + Copy>(rt: &impl Abort, site: &mut Site<A>, reply: &[u8]) -> bool {
    let (taken, is_all) = learn(site, at(rt, 100), reply);
    assert_eq!(rt; site.clock(), at(rt, 100));
    assert_eq!(rt; site.cache().len(), taken);
    assert!(rt; taken == 3 || !is_all);
    is_all
}

/// A new site learns the reply, a second time where a call was refused; says whether one was.
fn check_learning<A: Allocator + Copy>(
    rt: &impl Abort,
    (ample, alloc): (A, A),
    refusing: &Refusing<Global>,
    reply: &[u8],
) -> bool {
    let mut site = Site::new(alloc, config(rt, ample, &[]));
    let is_all = is_learnt(rt, &mut site, reply);
    assert_eq!(rt; is_all, !refusing.has_refused());
    assert!(rt; is_all || is_learnt(rt, &mut site, reply));
    !is_all
}

/// The same with a call refused; says whether that call was made.
fn learn_refused(rt: &impl Abort, alloc: Global, reply: &[u8], call: u64) -> bool {
    let ample = Refusing::after(alloc, 0);
    let refusing = Refusing::after(alloc, call);
    check_learning(rt, (&ample, &refusing), &refusing, reply)
}

#[test]
fn a_site_holds_as_many_as_it_says(rt: HostRuntime) {
    let reply = octets(&rt, rt.alloc(), "aliases-reply");
    for call in 1..MANY {
        if !learn_refused(&rt, rt.alloc(), reply.as_slice(), call) {
            return;
        }
    }
    panic!(rt; "refused each time");
}
