//! Lists of events run at once, with one allocation refused.

use crate::tests::fleets::{events_of, fleet, rows_of, same_stepped};
use crate::tests::refused::examples::{DENIAL, REFUSED, example_of};
use crate::tests::refused::parts::do_part;
use crate::tests::refused::worlds::{check_same, has_same_sites, world_after};
use crate::tests::refused::{MANY, Trial, begin_refused, check_lost};
use crate::tests::refusing::Refusing;
use fleet_world::{Event, Halted, Stepped, World, WorldFault};
use std::alloc::{Allocator, Global};
use std::process::Abort;

/// What the events of rows did with ample memory.
#[derive(Clone, Copy)]
struct Whole<'a, A: Allocator> {
    /// The rows.
    rows: &'a [&'a str],
    /// What each of them did.
    did: &'a [Stepped<A>],
    /// The world that did them.
    world: &'a World<A>,
}

/// The rows that are events, and no questions.
fn steps_of<'a>(rt: &impl Abort, alloc: Global, rows: &[&'a str]) -> Vec<&'a str> {
    let mut steps = Vec::new(alloc);
    for row in rows {
        if !row.starts_with("ask ") {
            steps.push(*row).expect(rt, "memory");
        }
    }
    steps
}

/// Checks that events did the same as others.
fn check_all<A: Allocator>(rt: &impl Abort, all: &[Stepped<A>], wanted: &[Stepped<A>]) {
    assert_eq!(rt; all.len(), wanted.len());
    for (stepped, wanted) in all.iter().zip(wanted) {
        assert!(rt; same_stepped(stepped, wanted));
    }
}

/// Checks a world whose run ran out of memory at the first of the rows that are left: it is as after
/// those that were done, but for the first observations of the row. A row may not have begun: it took
/// nothing, and no clock has risen.
fn check_short<A: Allocator + Copy>(
    rt: &impl Abort,
    trial: &Trial<'_, A>,
    world: &World<A>,
    done: &[&str],
    left: &[&str],
    taken: usize,
) {
    let row = left.first().expect(rt, "a row");
    let mut before = world_after(rt, trial.ample, trial.sites, done);
    if taken > 0 || !has_same_sites(world, &before) {
        do_part(rt, trial.ample, &mut before, row, taken);
    }
    check_same(rt, world, &before, row)
}

/// Checks a world whose run was halted where frames were not kept: after rows that were done, at the
/// last of others. The event did the first of what is wanted.
fn check_frames_lost<A: Allocator + Copy>(
    rt: &impl Abort,
    trial: &Trial<'_, A>,
    world: &World<A>,
    (done, to): (&[&str], &[&str]),
    stepped: &Stepped<A>,
    wanted: &[Stepped<A>],
) {
    let before = world_after(rt, trial.ample, trial.sites, done);
    let next = world_after(rt, trial.ample, trial.sites, to);
    let wanted = wanted.first().expect(rt, "a row");
    check_lost(rt, world, &before, &next, stepped, wanted)
}

/// Runs the events of the rows that are left, with ample memory. They do as `wanted` says.
fn run_left<A: Allocator + Copy>(
    rt: &impl Abort,
    trial: &Trial<'_, A>,
    world: &mut World<A>,
    left: &[&str],
    wanted: &[Stepped<A>],
) {
    let events = events_of(rt, trial.ample, left);
    let all = world.run(&events).expect(rt, "a run");
    check_all(rt, &all, wanted)
}

/// Checks a world whose run was halted, and runs the events that are left, but where frames were not
/// kept: then what the event did is compared.
fn go_on<A: Allocator + Copy>(
    rt: &impl Abort,
    trial: &Trial<'_, A>,
    world: &mut World<A>,
    whole: &Whole<'_, A>,
    halted: &Halted<A>,
) {
    let (done, left) = whole.rows.split_at_checked(halted.at).expect(rt, "a row");
    let (_, wanted) = whole.did.split_at_checked(halted.at).expect(rt, "a row");
    match &halted.fault {
        WorldFault::Memory { taken } => {
            check_short(rt, trial, world, done, left, *taken);
            run_left(rt, trial, world, left, wanted);
            check_same(rt, world, whole.world, "all rows")
        }
        WorldFault::FramesLost(stepped) => {
            let count = halted.at.saturating_add(1);
            let (to, _) = whole.rows.split_at_checked(count).expect(rt, "a row");
            check_frames_lost(rt, trial, world, (done, to), stepped, wanted)
        }
        fault => panic!(rt; "{fault}"),
    }
}

/// Runs these events at once, as they ran with ample memory.
fn run_beside<A: Allocator + Copy>(
    rt: &impl Abort,
    trial: &Trial<'_, A>,
    world: &mut World<A>,
    events: &[Event<A>],
    whole: &Whole<'_, A>,
) {
    let had_refused = trial.refusing.has_refused();
    let ran = world.run(events);
    assert_eq!(rt; ran.is_ok(), trial.refusing.has_refused() == had_refused);
    match &ran {
        Ok(all) => {
            check_all(rt, all, whole.did);
            check_same(rt, world, whole.world, "all rows")
        }
        Err(halted) => go_on(rt, trial, world, whole, halted),
    }
}

/// The same, where nothing was run with ample memory yet.
fn run_events<A: Allocator + Copy>(
    rt: &impl Abort,
    trial: &Trial<'_, A>,
    world: &mut World<A>,
    rows: &[&str],
    events: &[Event<A>],
) {
    let mut ample = fleet(rt, trial.ample, trial.sites, &[]);
    let did = ample.run(events).expect(rt, "a run");
    let whole = Whole {
        rows,
        did: &did,
        world: &ample,
    };
    run_beside(rt, trial, world, events, &whole)
}

/// Makes the sites of an example, and runs its events at once, as they run with ample memory.
fn run_steps<A: Allocator + Copy>(rt: &impl Abort, trial: &Trial<'_, A>, steps: &[&str]) {
    let mut world = begin_refused(rt, trial);
    let events = events_of(rt, trial.ample, steps);
    run_events(rt, trial, &mut world, steps, &events)
}

/// Runs the events of rows at once with a call refused, and says whether that call was made.
fn run_at_once(rt: &impl Abort, alloc: Global, sites: usize, rows: &[&str], call: u64) -> bool {
    let ample = Refusing::after(alloc, 0);
    let refusing = Refusing::after(alloc, call);
    let steps = steps_of(rt, alloc, rows);
    let trial = Trial {
        ample: &ample,
        alloc: &refusing,
        refusing: &refusing,
        sites,
    };
    run_steps(rt, &trial, &steps);
    refusing.has_refused()
}

/// Runs the events of an example at once with each call refused in turn, until one is not made.
fn refuse_example(rt: &impl Abort, alloc: Global, text: &str) {
    let example = example_of(rt, text);
    let rows = rows_of(rt, alloc, example.rows);
    for call in 1..MANY {
        if !run_at_once(rt, alloc, example.sites, &rows, call) {
            return;
        }
    }
    panic!(rt; "refused each time");
}

#[test]
fn a_run_without_memory_goes_on_where_it_halted(rt: HostRuntime) {
    for example in REFUSED.split("\n\n") {
        refuse_example(&rt, rt.alloc(), example);
    }
    refuse_example(&rt, rt.alloc(), DENIAL);
}
