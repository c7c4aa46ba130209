//! What purges and takes leave in memory, beside a plain map that looks each front up.
//!
//! No public contract says what is in memory beside the items: a purge that drops nothing answers all
//! questions alike. So here each observation that was ever taken is looked for in a cache
//! (`Cache::holds`) and in a map whose purges and takes are spelled out: one front after the other is
//! found after the last one, and what is not live is dropped of it. The names are those around the
//! longest that the cache's first map has, and two whose keys have the most words. The moments are those
//! around the ends of what is held.

use crate::tests::layers::observations::{flush_in, moment_of, record_in};
use crate::tests::layers::rows::Words;
use fleet_cache::Cache;
use fleet_observe::{Kind, LentObservation, Moment, Observation};
use linked_list_allocator::LocalHeap;
use rand_core::utils::NextWord;
use rand_pcg::Pcg32;
use std::alloc::Global;
use std::collections::BTreeMap;
use std::ops::Bound;
use std::process::Abort;

/// How many fronts a purge looks at.
const LEAST: u16 = 4096;

/// How many fronts are to be looked at after an observation that was kept.
const PACE: u8 = 4;

/// How many are looked at together.
const BATCH: u8 = 32;

/// The octets of the longest short name. Fronts of short names come first.
const SHORT: usize = 32;

/// What a front lies under: 0 for a short name and 1 for another one, and the name's octets.
type Key = Vec<u8>;

/// The key of a name.
fn key_of(rt: &impl Abort, alloc: Global, observation: &Observation) -> Key {
    let name = observation.name().octets();
    let mut key = Vec::new(alloc);
    let first = if name.len() > SHORT { 1 } else { 0 };
    key.push(first).expect(rt, "memory");
    key.extend_from_slice(name).expect(rt, "memory");
    key
}

/// What is to be in memory. No two observations are of one name, kind and type, so that none
/// dominates another.
#[derive(Drop)]
struct Plain {
    floor: Moment,
    fronts: BTreeMap<Key, Vec<Observation>>,
    flushes: Vec<Observation>,
    cursor: Key,
    round: Round,
}

/// Where takes are in the fronts. Nothing in memory ends before `soonest`, and nothing that was passed
/// in this round before `soonest_passed`.
#[derive(Drop)]
struct Round {
    cursor: Key,
    owed: u8,
    soonest: u64,
    soonest_passed: u64,
}

impl Round {
    /// At the start, with nothing in memory.
    fn new(alloc: Global) -> Round {
        Round {
            cursor: Vec::new(alloc),
            owed: 0,
            soonest: u64::MAX,
            soonest_passed: u64::MAX,
        }
    }
}

/// Goes on to the key after a cursor, or back to the start where there is none. Returns whether it
/// went on.
fn advance(rt: &impl Abort, fronts: &BTreeMap<Key, Vec<Observation>>, cursor: &mut Key) -> bool {
    let mut behind = fronts.range((Bound::Excluded(&*cursor), Bound::Unbounded));
    let Some((key, _)) = behind.next() else {
        cursor.clear();
        return false;
    };
    cursor.clear();
    cursor.extend_from_slice(key).expect(rt, "memory");
    true
}

/// The moment at which the first of some observations ends.
fn first_end(front: &[Observation]) -> u64 {
    let mut first = u64::MAX;
    for observation in front {
        first = first.min(observation.expires());
    }
    first
}

/// Whether an observation is not live at a moment where flushes withdraw what is stamped by another
/// one.
fn is_past(observation: &Observation, now: Moment, flushed: Option<Moment>) -> bool {
    let withdrawn = match flushed {
        Some(stamp) => {
            observation.kind() != Kind::Flush && observation.stamp().value() <= stamp.value()
        }
        None => false,
    };
    withdrawn || observation.expires() <= now.value()
}

impl Plain {
    /// Nothing is in memory.
    fn new(rt: &impl Abort, alloc: Global) -> Plain {
        Plain {
            floor: moment_of(rt, "0"),
            fronts: BTreeMap::new(alloc),
            flushes: Vec::new(alloc),
            cursor: Vec::new(alloc),
            round: Round::new(alloc),
        }
    }

    /// The greatest stamp of the flushes of a name or of one above it that last at a moment. Names
    /// here have no label as long as the code of a digit, so that one is under another if its octets
    /// end with the other's.
    fn flushed_at(&self, name: &[u8], now: Moment) -> Option<Moment> {
        let mut latest = None;
        for flush in &self.flushes {
            if flush.expires() > now.value() && name.ends_with(flush.name().octets()) {
                let stamp = flush.stamp();
                latest = Some(latest.unwrap_or(stamp).max(stamp));
            }
        }
        latest
    }

    /// Takes an observation, if it is live at the floor.
    fn take(&mut self, rt: &impl Abort, alloc: Global, observation: Observation) {
        let flushed = self.flushed_at(observation.name().octets(), self.floor);
        if is_past(&observation, self.floor, flushed) {
            return;
        }
        if observation.kind() == Kind::Flush {
            let flush = observation.try_clone().expect(rt, "memory");
            self.flushes.push(flush).expect(rt, "memory");
        }
        let end = observation.expires();
        self.put(rt, alloc, observation);
        self.round.soonest = self.round.soonest.min(end);
        self.round.soonest_passed = self.round.soonest_passed.min(end);
        self.round.owed = self.round.owed.saturating_add(PACE);
        if BATCH <= self.round.owed {
            let looks = self.round.owed;
            self.round.owed = 0;
            if self.round.soonest <= self.floor.value() {
                self.go_on(rt, alloc, looks);
            }
        }
    }

    /// Puts an observation into the front of its name.
    fn put(&mut self, rt: &impl Abort, alloc: Global, observation: Observation) {
        let key = key_of(rt, alloc, &observation);
        if let Some(front) = self.fronts.get_mut(&key) {
            front.push(observation).expect(rt, "memory");
            return;
        }
        let mut front = Vec::new(alloc);
        front.push(observation).expect(rt, "memory");
        let added: Result<_, _> = self.fronts.insert(key, front);
        added.expect(rt, "memory");
    }

    /// Looks at some fronts after observations that were taken.
    fn go_on(&mut self, rt: &impl Abort, alloc: Global, looks: u8) {
        for _ in 0..looks {
            if !advance(rt, &self.fronts, &mut self.round.cursor) {
                self.round.soonest = self.round.soonest_passed;
                self.round.soonest_passed = u64::MAX;
                break;
            }
            let key = Vec::from_slice(alloc, self.round.cursor.as_slice()).expect(rt, "memory");
            let first = match self.fronts.get(&key) {
                Some(front) => first_end(front.as_slice()),
                None => u64::MAX,
            };
            let next = self.floor.value().saturating_add(1);
            if first < next {
                self.trim(&key, self.floor);
            }
            self.round.soonest_passed = self.round.soonest_passed.min(first.max(next));
        }
    }

    /// Drops, of the front of a key, what is not live at a moment, and the front where nothing is left
    /// of it.
    fn trim(&mut self, key: &Key, now: Moment) {
        let flushed = self.flushed_at(key, now);
        let Some(front) = self.fronts.get_mut(key) else {
            return;
        };
        front.retain(|held| !is_past(held, now, flushed));
        if front.is_empty() {
            self.fronts.remove(key);
        }
    }

    /// Purges to a later moment.
    fn purge(&mut self, rt: &impl Abort, alloc: Global, now: Moment) {
        self.floor = now;
        for _ in 0..LEAST {
            if !advance(rt, &self.fronts, &mut self.cursor) {
                break;
            }
            let key = Vec::from_slice(alloc, self.cursor.as_slice()).expect(rt, "memory");
            self.trim(&key, now);
        }
    }

    /// Whether an observation is in memory.
    fn holds(&self, rt: &impl Abort, alloc: Global, observation: &Observation) -> bool {
        let Some(front) = self.fronts.get(&key_of(rt, alloc, observation)) else {
            return false;
        };
        front.iter().any(|held| held.kind() == observation.kind()
            && held.rtype() == observation.rtype())
    }
}

/// A cache, what is to be in its memory, and what was taken.
#[derive(Drop)]
struct Pair {
    cache: Cache,
    plain: Plain,
    taken: Vec<Observation>,
}

/// Whether an observation is in a cache's memory.
fn holds(rt: &impl Abort, alloc: Global, cache: &Cache, observation: &Observation) -> bool {
    let body = observation.write_body(alloc).expect(rt, "memory");
    let lent = LentObservation {
        kind: observation.kind(),
        name: observation.name().octets(),
        rtype: observation.rtype(),
        rank: observation.rank(),
        stamp: observation.stamp(),
        life: observation.life(),
        body: body.as_slice(),
    };
    cache.holds(&lent)
}

/// Checks that an observation is in a cache's memory just where it is to be.
fn check_held(
    rt: &impl Abort,
    alloc: Global,
    cache: &Cache,
    plain: &Plain,
    observation: &Observation,
) {
    let is_held = holds(rt, alloc, cache, observation);
    assert_eq!(rt; is_held, plain.holds(rt, alloc, observation));
}

impl Pair {
    /// Nothing is taken.
    fn new(rt: &impl Abort, alloc: Global) -> Pair {
        Pair {
            cache: Cache::new(alloc),
            plain: Plain::new(rt, alloc),
            taken: Vec::new(alloc),
        }
    }

    /// Takes an observation.
    fn take(&mut self, rt: &impl Abort, alloc: Global, observation: Observation) {
        let one = observation.try_clone().expect(rt, "memory");
        let other = observation.try_clone().expect(rt, "memory");
        self.cache.take(one).expect(rt, "memory");
        self.plain.take(rt, alloc, other);
        self.taken.push(observation).expect(rt, "memory");
    }

    /// Takes a flush of a name from second 110 on.
    fn flush(&mut self, rt: &impl Abort, alloc: Global, name: &str) {
        let row = format!(in alloc; "{name} 110").expect(rt, "memory");
        let flush = flush_in(rt, alloc, &mut Words::new(row.as_str()));
        self.take(rt, alloc, flush);
    }

    /// Merges what another cache holds, and compares.
    fn merge(&mut self, rt: &impl Abort, alloc: Global, other: &Cache) {
        self.cache.merge(other).expect(rt, "memory");
        let mut items = other.items();
        while let Some(item) = items.next() {
            let copy = item.try_clone().expect(rt, "memory");
            self.plain.take(rt, alloc, copy);
            let copy = item.try_clone().expect(rt, "memory");
            self.taken.push(copy).expect(rt, "memory");
        }
        if self.plain.floor.value() < other.floor().value() {
            self.plain.purge(rt, alloc, other.floor());
        }
        self.compare(rt, alloc);
    }

    /// Drops all, and compares.
    fn clear(&mut self, rt: &impl Abort, alloc: Global) {
        self.cache.clear();
        self.plain = Plain::new(rt, alloc);
        self.compare(rt, alloc);
    }

    /// Purges to a moment, a second later than the last one at least, and compares.
    fn purge(&mut self, rt: &impl Abort, alloc: Global, now: u64) {
        let next = self.plain.floor.value().saturating_add(1);
        let now = Moment::new(now.max(next)).expect(rt, "a moment");
        self.cache.purge(now);
        self.plain.purge(rt, alloc, now);
        self.compare(rt, alloc);
    }

    /// Compares what is in memory.
    fn compare(&self, rt: &impl Abort, alloc: Global) {
        for observation in &self.taken {
            check_held(rt, alloc, &self.cache, &self.plain, observation);
        }
    }

    /// How many of what was taken are in memory.
    fn count(&self, rt: &impl Abort, alloc: Global) -> usize {
        self.taken
            .iter()
            .filter(|observation| holds(rt, alloc, &self.cache, observation))
            .count()
    }
}

/// As many zeros as a label has octets at most.
const ZEROS: &str = "000000000000000000000000000000000000000000000000000000000000000";

/// Adds labels of these lengths, each a number of four digits after zeros.
fn add_labels(rt: &impl Abort, name: &mut String, number: u16, lengths: &[usize]) {
    for length in lengths {
        let zeros = ZEROS.get(4..*length).expect(rt, "a length");
        write!(name, "{zeros}{number}.").expect(rt, "memory");
    }
}

/// The name of a number of four digits, of 8, 31, 32, 33, 66, 249 or 255 octets.
fn name_of(rt: &impl Abort, alloc: Global, number: u16) -> String {
    let (lengths, end): (&[usize], &str) = match number % 7 {
        0 => (&[4], "a"),
        1 => (&[27], "b"),
        2 => (&[28], "a"),
        3 => (&[29], "b"),
        4 => (&[60], "b.a"),
        5 => (&[58, 62, 62, 60], "b"),
        _ => (&[62, 60, 63, 63], "b"),
    };
    let mut name = String::new(alloc);
    add_labels(rt, &mut name, number, lengths);
    name.push_str(end).expect(rt, "memory");
    name
}

/// A record of the name of a number and of a type without names in its RDATA. Its stamp is 100 to 119,
/// and it lasts 1 to 40 seconds.
fn made(rt: &impl Abort, alloc: Global, words: &mut Pcg32, number: u16, rtype: u16) -> Observation {
    let name = name_of(rt, alloc, number);
    let stamp = 100 + words.next_word() % 20;
    let life = 1 + words.next_word() % 40;
    let row = format!(in alloc; "{name} {rtype} 3 {stamp} {life} c0000201").expect(rt, "memory");
    record_in(rt, alloc, alloc, &mut Words::new(row.as_str()))
}

/// Takes records of three of four of the names of the numbers from 1000 on, of a type, and purges twice;
/// as often as there are types.
fn check_seed(rt: &impl Abort, alloc: Global, seed: u32, names: u16, types: u16) {
    let mut words = Pcg32::new(u64::from(seed), 54);
    let mut pair = Pair::new(rt, alloc);
    for round in 0..types {
        let rtype = round.saturating_add(65);
        for number in 1000..names {
            if words.next_word() % 4 != 0 {
                pair.take(rt, alloc, made(rt, alloc, &mut words, number, rtype));
            }
        }
        if seed % 2 == 1 && round == 1 {
            pair.flush(rt, alloc, "1001.a");
            pair.flush(rt, alloc, "b");
        }
        for _ in 0..2u8 {
            let later = u64::from(words.next_word() % 10);
            pair.purge(rt, alloc, 110 + 10 * u64::from(round) + later);
        }
    }
    pair.purge(rt, alloc, 200);
}

#[test]
fn purges_leave_what_is_live_in_memory(rt: HostRuntime) {
    for seed in 0..24u32 {
        check_seed(&rt, rt.alloc(), seed, 1040, 4);
    }
}

#[test]
fn purges_go_on_behind_what_they_looked_at(rt: HostRuntime) {
    for seed in 0..2u32 {
        check_seed(&rt, rt.alloc(), seed, 7000, 2);
    }
}

/// The address of a name of a second's own, which lives for so many seconds from then on.
fn flooded(rt: &impl Abort, alloc: Global, second: u64, number: u16, life: u64) -> Observation {
    let row = format!(in alloc; "{second}-{number}.flood 1 3 {second} {life} c0000201").expect(
        rt, "memory",
    );
    record_in(rt, alloc, alloc, &mut Words::new(row.as_str()))
}

/// So many names that live for a second, at each of some seconds from 101 on, more than a purge looks
/// at. At no time last more than come in at one of them and what was flushed, and at most twice as many
/// and 33 are in memory.
fn check_floods(rt: &impl Abort, alloc: Global, pair: &mut Pair, seconds: u64, names: u16) {
    for second in 101..seconds.saturating_add(101) {
        pair.purge(rt, alloc, second);
        for number in 0..names {
            pair.take(rt, alloc, flooded(rt, alloc, second, number, 1));
        }
        check_few(rt, alloc, pair, names);
    }
    pair.compare(rt, alloc);
}

/// Few are in memory, where so many names and each flush last.
fn check_few(rt: &impl Abort, alloc: Global, pair: &Pair, names: u16) {
    let lasting = usize::from(names).saturating_add(pair.plain.flushes.len());
    let most = lasting.saturating_mul(2).saturating_add(33);
    assert!(rt; pair.count(rt, alloc) <= most);
}

#[test]
fn takes_leave_little_that_has_ended(rt: HostRuntime) {
    let alloc = rt.alloc();
    let mut pair = Pair::new(&rt, alloc);
    check_floods(&rt, alloc, &mut pair, 4, 9000);
}

#[test]
fn takes_beside_a_flush_leave_little_that_has_ended(rt: HostRuntime) {
    let alloc = rt.alloc();
    let mut pair = Pair::new(&rt, alloc);
    pair.flush(&rt, alloc, "b");
    check_floods(&rt, alloc, &mut pair, 3, 9000);
}

#[test]
fn takes_begin_anew_in_a_cleared_cache(rt: HostRuntime) {
    let alloc = rt.alloc();
    let mut pair = Pair::new(&rt, alloc);
    check_floods(&rt, alloc, &mut pair, 2, 9000);
    pair.clear(&rt, alloc);
    check_floods(&rt, alloc, &mut pair, 2, 9000);
}

/// A cache at a second, with so many names that live for one from then on.
fn filled(rt: &impl Abort, alloc: Global, second: u64, names: u16) -> Cache {
    let mut cache = Cache::new(alloc);
    for number in 0..names {
        let observation = flooded(rt, alloc, second, number, 1);
        cache.take(observation).expect(rt, "memory");
    }
    cache.purge(Moment::new(second).expect(rt, "a moment"));
    cache
}

/// What a merge takes in drops what ended at the floor that there was before.
#[test]
fn takes_by_merges_go_on(rt: HostRuntime) {
    let alloc = rt.alloc();
    let mut pair = Pair::new(&rt, alloc);
    check_floods(&rt, alloc, &mut pair, 1, 9000);
    for second in 102..105u64 {
        pair.purge(&rt, alloc, second);
        let other = filled(&rt, alloc, second, 9000);
        pair.merge(&rt, alloc, &other);
        check_few(&rt, alloc, &pair, 9000);
    }
}

/// A cache over a heap takes a record of a name, which lives for a number of seconds from 100 on.
fn take_typed<'a>(
    rt: &impl Abort,
    alloc: Global,
    heap: &'a LocalHeap,
    cache: &mut Cache<&'a LocalHeap>,
    rtype: u16,
    life: u32,
) {
    let row = format!(in alloc; "1.flood {rtype} 3 100 {life} c0000201").expect(rt, "memory");
    let observation = record_in(rt, heap, alloc, &mut Words::new(row.as_str()));
    cache.take(observation).expect(rt, "memory");
}

/// A name has many types for a second, and one for long: after a purge it has little more room than
/// before.
fn check_room<'a>(
    rt: &impl Abort,
    alloc: Global,
    heap: &'a LocalHeap,
    cache: &mut Cache<&'a LocalHeap>,
) {
    take_typed(rt, alloc, heap, cache, 1000, 900);
    let used = heap.used();
    for rtype in 1001..2000u16 {
        take_typed(rt, alloc, heap, cache, rtype, 1);
    }
    cache.purge(Moment::new(101).expect(rt, "a moment"));
    assert!(rt; heap.used() <= used.saturating_add(512));
}

#[test]
fn a_name_gives_back_the_room_that_it_had(rt: HostRuntime) {
    let heap = LocalHeap::new(rt.alloc(), 1 << 20).expect(&rt, "memory");
    let mut cache = Cache::new(&heap);
    check_room(&rt, rt.alloc(), &heap, &mut cache);
}
