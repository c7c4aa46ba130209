//! A list of events that is halted.

use crate::tests::fleets::{events_of, fleet, rows_of};
use fleet_world::{Event, World};
use std::alloc::Global;
use std::process::Abort;

/// Events, of which the second one names a frame that was not kept.
const HALTED: &str = "\
tick 0 100
deliver 0 200 0
tick 1 300";

/// Runs events, which halt.
fn check_halt(rt: &impl Abort, alloc: Global, world: &mut World, events: &[Event]) {
    match world.run(events) {
        Ok(_) => panic!(rt; "not halted"),
        Err(halted) => {
            let halt = format!(in alloc; "{halted}").expect(rt, "memory");
            assert_eq!(rt; halt.as_str(), "event 1: no such frame");
        }
    }
}

/// The one site is at the moment before.
fn check_site(rt: &impl Abort, world: &World) {
    let site = world.site(0).expect(rt, "a site");
    assert_eq!(rt; site.clock().value(), 100);
    assert_eq!(rt; site.cache().floor().value(), 100);
}

/// The same, of a world of one site.
fn check_world(rt: &impl Abort, alloc: Global, world: &mut World) {
    let events = events_of(rt, alloc, &rows_of(rt, alloc, HALTED));
    check_halt(rt, alloc, world, &events);
    check_site(rt, world)
}

/// Allocates: `fleet_world`: `World::new`, `World::run`.
#[test]
fn a_run_halts_where_a_frame_is_not_there(rt: HostRuntime) {
    let mut world = fleet(&rt, rt.alloc(), 1, &[]);
    check_world(&rt, rt.alloc(), &mut world)
}
