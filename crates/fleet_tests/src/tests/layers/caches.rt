//! Small caches: what is held, and the memory that a purge gives back.
//!
//! A row that takes an observation says its name, type, rank, stamp and life, and then the RDATA or
//! the owner of the SOA. The output of a cache is how many items it holds, and the rank and the life
//! of each. What caches answer is tried from outside, by `tests/test_caches.py`.

use crate::tests::layers::calls::check_calls;

/// Allocates: `fleet_cache`: `Cache::take`, `Cache::merge`.
#[test]
fn caches_take_and_merge(rt: HostRuntime) {
    let rows = "
take example.com 1 1 200 10 c0000202 => true
take example.com 1 1 200 10 c0000202 => false
purge 150 => 1 1/10
other => 0 empty
take example.com 1 1 100 300 c0000201 => true
merge => 2 1/10 1/300
other => 1 1/10
merge => 2 1/10 1/300";
    check_calls(&rt, rt.alloc(), rows);
}

/// Allocates: `fleet_cache`: `Cache::take_list`.
#[test]
fn a_cache_takes_a_list(rt: HostRuntime) {
    let rows = "
list example.com 1 1 100 300 c0000201 example.com 1 1 200 10 c0000202 => 2
items => 2 1/10 1/300";
    check_calls(&rt, rt.alloc(), rows);
}

/// An empty cache keeps no memory but the room for the two keys that reclaiming needs.
#[test]
fn a_purge_shows_at_once_what_is_left(rt: HostRuntime) {
    let rows = "
mark => nothing
take c0 1 3 100 5 c0000201 => true
used => Greater
purge 105 => 0 empty
mark => something
take c1 1 3 100 10 c0000201 => true
take c2 1 3 100 300 c0000201 => true
take c3 1 3 100 10 c0000201 => true
take c4 1 3 100 20 c0000201 => true
take c2 1 1 99 311 c0000202 => true
purge 109 => 5 3/10 3/300 1/311 3/10 3/20
purge 110 => 3 3/300 1/311 3/20
purge 120 => 2 3/300 1/311
purge 400 => 1 1/311
used => Greater
purge 410 => 0 empty
used => Equal
purge 411 => 0 empty
used => Equal";
    check_calls(&rt, rt.alloc(), rows);
}

#[test]
fn what_is_withdrawn_leaves_the_memory(rt: HostRuntime) {
    let rows = "
# The first flush makes room for the cursor's key, the second one in the front of their key.
flush com 90 => true
flush com 91 => true
mark => something
take c1.com 1 3 100 300 c0000201 => true
take c2.com 1 3 100 300 c0000201 => true
deny c3.com 0 1 100 300 com => true
used => Greater
# A later flush of the name takes the place of the other.
flush com 100 => true
purge 200 => 1 3/86400
used => Equal";
    check_calls(&rt, rt.alloc(), rows);
}
