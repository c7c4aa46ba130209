//! Answers are lent: a cache gives them while every allocation is refused. That an answer is not used
//! after a `purge` or a `take` is seen by `tools/outlived_answers.py`: such a use does not compile.

use crate::tests::fleets::{asked_of, do_row, fleet, same_looked};
use crate::tests::refused::examples::{DENIAL, LENT, REFUSED, example_of};
use crate::tests::refusing::Refusing;
use fleet_cache::{Answer, Shown};
use fleet_name::Octets;
use fleet_observe::{LentRrSet, add_rrset};
use fleet_site::Looked;
use fleet_wire::rtype::SOA;
use fleet_wire::{Header, Outline, Question, read_query, write_reply};
use fleet_world::World;
use std::alloc::{Allocator, Global};
use std::process::Abort;

/// The records of a part.
fn lent_of<'a, A: Allocator>(part: &Shown<'a, A>) -> LentRrSet<'a, A> {
    let records = part.observation;
    LentRrSet {
        name: records.name(),
        rtype: records.rtype(),
        ttl: part.ttl,
        rdatas: records.rdatas(),
    }
}

/// Adds the records of links.
fn add_links<'a, A: Allocator + Copy>(
    rt: &impl Abort,
    outline: &mut Outline<'a, A>,
    chain: &[Option<Shown<'a, A>>],
) {
    for link in chain {
        let link = link.as_ref().expect(rt, "a link");
        add_rrset(outline, lent_of(link)).expect(rt, "memory");
    }
}

/// What a site makes of an answer: the reply with links and the records that they lead to, or the
/// denial with its SOA.
fn look_at<A: Allocator + Copy>(
    rt: &impl Abort,
    alloc: A,
    header: Header,
    question: &Question<A>,
    answer: &Answer<'_, A>,
) -> Looked<A> {
    let rcode = match answer {
        Answer::NxDomain { .. } => 3,
        _ => 0,
    };
    let mut outline = Outline::new(alloc, header.id, 0, header.rd, rcode, false, Some(question));
    match answer {
        Answer::Found { chain, set } => {
            add_links(rt, &mut outline, chain.as_slice());
            add_rrset(&mut outline, lent_of(set)).expect(rt, "memory");
        }
        Answer::NoData { chain, soa } | Answer::NxDomain { chain, soa } => {
            add_links(rt, &mut outline, chain.as_slice());
            let (owner, rdata) = soa.observation.soa().expect(rt, "an SOA");
            outline
                .authority(owner, SOA, soa.ttl, rdata)
                .expect(rt, "memory");
        }
        Answer::Miss => return Looked::Miss,
    }
    let reply = write_reply(alloc, &outline).expect(rt, "memory");
    Looked::Reply(Octets::new(reply))
}

/// Asks the cache of a site what a row asks of the site, while every allocation is refused, and
/// compares what both give.
fn check_lent<A: Allocator + Copy>(
    rt: &impl Abort,
    alloc: A,
    refusing: &Refusing<Global>,
    world: &mut World<A>,
    words: &str,
) {
    let (site, now, octets) = asked_of(rt, alloc, words);
    let (header, question) = read_query(alloc, octets.as_slice()).expect(rt, "a question");
    let cache = world.site(site).expect(rt, "a site").cache();
    refusing.refuse_all(true);
    let answer = cache.answer(&question, now);
    refusing.refuse_all(false);
    let looked = look_at(rt, alloc, header, &question, &answer);
    let wanted = world.ask(site, now, octets.as_slice());
    assert!(rt;
        same_looked(&looked, &wanted.expect(rt, "an answer")),
        "{words}"
    );
}

/// Does a row in a world. How many questions it is.
fn check_row<A: Allocator + Copy>(
    rt: &impl Abort,
    alloc: A,
    refusing: &Refusing<Global>,
    world: &mut World<A>,
    row: &str,
) -> usize {
    if let Some(words) = row.strip_prefix("ask ") {
        check_lent(rt, alloc, refusing, world, words);
        return 1;
    }
    let _ = do_row(rt, alloc, world, row).expect(rt, "a row");
    0
}

/// Does the rows of an example in a new world, which says how many are questions.
fn check_example<A: Allocator + Copy>(
    rt: &impl Abort,
    alloc: A,
    refusing: &Refusing<Global>,
    text: &str,
) {
    let example = example_of(rt, text);
    let mut world = fleet(rt, alloc, example.sites, &[]);
    let mut count = 0usize;
    for row in example.rows.lines() {
        let more = check_row(rt, alloc, refusing, &mut world, row);
        count = count.saturating_add(more);
    }
    assert_eq!(rt; count, example.questions, "{text}");
}

/// Allocates: `fleet_observe`: `add_rrset`.
#[test]
fn answers_are_lent_where_no_memory_is_left(rt: HostRuntime) {
    let refusing = Refusing::after(rt.alloc(), 0);
    for examples in [REFUSED, DENIAL, LENT] {
        for text in examples.split("\n\n") {
            check_example(&rt, &refusing, &refusing, text);
        }
    }
}
