//! Worlds after rows, and what two of them have in common.

use crate::tests::fleets::{do_row, fleet};
use fleet_world::World;
use std::alloc::Allocator;
use std::process::Abort;

/// A world of this number of sites that did these rows.
pub fn world_after<A: Allocator + Copy>(
    rt: &impl Abort,
    alloc: A,
    sites: usize,
    rows: &[&str],
) -> World<A> {
    let mut world = fleet(rt, alloc, sites, &[]);
    for row in rows {
        let _ = do_row(rt, alloc, &mut world, row).expect(rt, "a row");
    }
    world
}

/// Whether there are the same sites, which hold the same at the same floor and the same clock.
pub fn has_same_sites<A: Allocator + Copy>(one: &World<A>, other: &World<A>) -> bool {
    for number in 0..10usize {
        match (one.site(number), other.site(number)) {
            (Some(one), Some(other)) => {
                if !one.cache().same(other.cache()) || one.clock() != other.clock() {
                    return false;
                }
            }
            (None, None) => {}
            _ => return false,
        }
    }
    true
}

/// Whether the same frames are kept.
pub fn keeps_same_frames<A: Allocator + Copy>(one: &World<A>, other: &World<A>) -> bool {
    for number in 0..10usize {
        match (one.frame(number), other.frame(number)) {
            (Some(one), Some(other)) => {
                if one != other {
                    return false;
                }
            }
            (None, None) => {}
            _ => return false,
        }
    }
    true
}

/// Checks that two worlds hold the same, and keep the same frames.
pub fn check_same<A: Allocator + Copy>(
    rt: &impl Abort,
    one: &World<A>,
    other: &World<A>,
    row: &str,
) {
    assert!(rt; has_same_sites(one, other), "{row}");
    assert!(rt; keeps_same_frames(one, other), "{row}");
}
