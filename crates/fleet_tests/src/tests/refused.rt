//! One allocation refused, each in turn. A step runs out of memory where an allocation was refused,
//! and nowhere else; the sites then hold the first observations of the step, and all else is as
//! before; and the step done again is as if nothing had been.

mod examples;
mod lent;
mod parts;
mod runs;
mod served;
mod sites;
mod taken;
mod worlds;

use crate::tests::fleets::{Done, configs, do_row, fleet, rows_of, same_but_for_frames, same_done};
use crate::tests::refusing::Refusing;
use examples::{DENIAL, OTHERS, REFUSED, example_of};
use fleet_world::{Stepped, World, WorldFault};
use parts::do_part;
use std::alloc::{Allocator, Global};
use std::process::Abort;
use worlds::{check_same, has_same_sites, keeps_same_frames, world_after};

/// More allocations than any of the examples makes.
pub const MANY: u64 = 65536;

/// Whether an allocation was refused at a row that then ran out of memory: after no observation,
/// after some, and when all was done but the keeping of frames.
#[derive(Clone, Copy)]
struct Met {
    short: bool,
    partly: bool,
    lost: bool,
}

/// With which allocators an example is run, and of how many sites.
#[derive(Clone, Copy)]
struct Trial<'a, A: Allocator + Copy> {
    /// Refuses nothing.
    ample: A,
    /// Refuses a call.
    alloc: A,
    /// The same allocator, which says whether it has refused.
    refusing: &'a Refusing<Global>,
    /// How many sites there are.
    sites: usize,
}

/// Makes the sites of an example, a second time where a call was refused.
fn begin_refused<A: Allocator + Copy>(rt: &impl Abort, trial: &Trial<'_, A>) -> World<A> {
    let configs_of_sites = configs(rt, trial.ample, trial.sites, &[]);
    let begun = World::new(trial.alloc, configs_of_sites);
    assert_eq!(rt; begun.is_err(), trial.refusing.has_refused());
    match begun {
        Ok(world) => world,
        Err(_) => world_after(rt, trial.alloc, trial.sites, &[]),
    }
}

/// A world that did rows with ample memory, and took the first observations of the row after them, as
/// many as `taken` says.
#[derive(Drop)]
struct Part<A: Allocator> {
    taken: usize,
    world: World<A>,
}

/// A row of an example, and those before it.
#[derive(Drop)]
struct Row<'a, A: Allocator> {
    /// The row.
    text: &'a str,
    /// The rows before it.
    others: &'a [&'a str],
    /// What a world was compared with when the row last ran out of memory.
    part: Option<Part<A>>,
}

/// Checks a world after a row that ran out of memory after these observations. The world that it is
/// compared with is kept for the next time.
fn check_part<A: Allocator + Copy>(
    rt: &impl Abort,
    trial: &Trial<'_, A>,
    world: &World<A>,
    row: &mut Row<'_, A>,
    taken: usize,
) {
    if !matches!(&row.part, Some(part) if part.taken == taken) {
        let mut wanted = world_after(rt, trial.ample, trial.sites, row.others);
        do_part(rt, trial.ample, &mut wanted, row.text, taken);
        row.part = Some(Part {
            taken,
            world: wanted,
        });
    }
    let part = row.part.as_ref().expect(rt, "a part");
    check_same(rt, world, &part.world, row.text)
}

/// Checks a world after an event that was done, and whose frames were not kept: it did what the same
/// event did in `whole`, and keeps the frames of `before`, where it has not happened yet.
fn check_lost<A: Allocator + Copy>(
    rt: &impl Abort,
    world: &World<A>,
    before: &World<A>,
    whole: &World<A>,
    stepped: &Stepped<A>,
    wanted: &Stepped<A>,
) {
    assert!(rt; same_but_for_frames(stepped, wanted));
    assert!(rt; stepped.frames.as_slice().is_empty());
    assert!(rt; keeps_same_frames(world, before));
    assert!(rt; has_same_sites(world, whole))
}

/// Checks a world after a row that was done, an event whose frames were not kept, and does those
/// before it and the row anew, where nothing is refused. The row did what `wanted` says in `whole`.
fn check_row_lost<A: Allocator + Copy>(
    rt: &impl Abort,
    trial: &Trial<'_, A>,
    (world, whole): (&mut World<A>, &World<A>),
    row: &Row<'_, A>,
    stepped: &Stepped<A>,
    wanted: &Done<A>,
) {
    let before = world_after(rt, trial.ample, trial.sites, row.others);
    match wanted {
        Done::Stepped(wanted) => check_lost(rt, world, &before, whole, stepped, wanted),
        Done::Looked(_) => panic!(rt; "a question has no frames"),
    }
    *world = world_after(rt, trial.alloc, trial.sites, row.others);
    do_again(rt, trial, world, row.text, wanted)
}

/// Does a row again, with ample memory. It does what `wanted` says.
fn do_again<A: Allocator + Copy>(
    rt: &impl Abort,
    trial: &Trial<'_, A>,
    world: &mut World<A>,
    row: &str,
    wanted: &Done<A>,
) {
    let again = do_row(rt, trial.ample, world, row).expect(rt, "a row");
    assert!(rt; same_done(&again, wanted), "{row}")
}

/// Checks what became of a row in `world`, and does it again where it ran out of memory: in the end
/// it did what `wanted` says, as it did in `whole`.
fn check_done<A: Allocator + Copy>(
    rt: &impl Abort,
    trial: &Trial<'_, A>,
    (world, whole): (&mut World<A>, &World<A>),
    row: &mut Row<'_, A>,
    (done, wanted): (&Result<Done<A>, WorldFault<A>>, &Done<A>),
    met: &mut Met,
) {
    match done {
        Ok(done) => assert!(rt; same_done(done, wanted), "{}", row.text),
        Err(WorldFault::Memory { taken }) => {
            met.short = met.short || *taken == 0;
            met.partly = met.partly || *taken > 0;
            check_part(rt, trial, world, row, *taken);
            do_again(rt, trial, world, row.text, wanted)
        }
        Err(WorldFault::FramesLost(stepped)) => {
            met.lost = true;
            check_row_lost(rt, trial, (world, whole), row, stepped, wanted)
        }
        Err(fault) => panic!(rt; "{fault}"),
    }
}

/// Does a row in `whole`, with ample memory, and checks what became of it in `world`, which in the
/// end is as `whole`.
fn check_row<A: Allocator + Copy>(
    rt: &impl Abort,
    trial: &Trial<'_, A>,
    (world, whole): (&mut World<A>, &mut World<A>),
    row: &mut Row<'_, A>,
    done: &Result<Done<A>, WorldFault<A>>,
    met: &mut Met,
) {
    let wanted = do_row(rt, trial.ample, whole, row.text).expect(rt, "a row");
    check_done(rt, trial, (&mut *world, &*whole), row, (done, &wanted), met);
    check_same(rt, world, whole, row.text)
}

/// Does a row in `world` with the call of this number refused, where it makes as many, and says
/// whether it does. Afterwards the world is as `whole`, which did the row with ample memory.
fn run_row<A: Allocator + Copy>(
    rt: &impl Abort,
    trial: &Trial<'_, A>,
    (world, whole): (&mut World<A>, &mut World<A>),
    row: &mut Row<'_, A>,
    call: u64,
    met: &mut Met,
) -> bool {
    trial.refusing.refuse(call);
    let done = do_row(rt, trial.ample, world, row.text);
    let has_refused = trial.refusing.has_refused();
    assert_eq!(rt; done.is_ok(), !has_refused, "{}", row.text);
    check_row(rt, trial, (world, whole), row, &done, met);
    has_refused
}

/// Does rows with the call of this number refused at each, where it makes as many, and says whether
/// there was one.
fn run_rows<A: Allocator + Copy>(
    rt: &impl Abort,
    trial: &Trial<'_, A>,
    rows: &mut [Row<'_, A>],
    call: u64,
    met: &mut Met,
) -> bool {
    trial.refusing.refuse(call);
    let mut world = begin_refused(rt, trial);
    let mut whole = fleet(rt, trial.ample, trial.sites, &[]);
    let mut has_refused = trial.refusing.has_refused();
    for row in rows.iter_mut() {
        let refused = run_row(rt, trial, (&mut world, &mut whole), row, call, met);
        has_refused = has_refused || refused;
    }
    has_refused
}

/// Does rows with the first call refused at each, then with the second at each, and so on, until
/// none is refused.
fn refuse_rows<A: Allocator + Copy>(
    rt: &impl Abort,
    trial: &Trial<'_, A>,
    texts: &[&str],
    met: &mut Met,
) {
    let mut rows = Vec::new(trial.ample);
    for (place, text) in texts.iter().enumerate() {
        let row = Row {
            text: *text,
            others: &texts[..place],
            part: None,
        };
        rows.push(row).expect(rt, "memory");
    }
    for call in 1..MANY {
        if !run_rows(rt, trial, &mut rows, call, met) {
            return;
        }
    }
    panic!(rt; "refused each time");
}

/// Does the rows of an example with each call of each refused in turn.
fn refuse_example(rt: &impl Abort, alloc: Global, text: &str, met: &mut Met) {
    let example = example_of(rt, text);
    let rows = rows_of(rt, alloc, example.rows);
    let ample = Refusing::after(alloc, 0);
    let refusing = Refusing::after(alloc, MANY);
    let trial = Trial {
        ample: &ample,
        alloc: &refusing,
        refusing: &refusing,
        sites: example.sites,
    };
    refuse_rows(rt, &trial, &rows, met)
}

/// Allocates: `fleet_world`: `World::step`, `World::ask`.
#[test]
fn a_line_without_memory_is_done_again(rt: HostRuntime) {
    let mut met = Met {
        short: false,
        partly: false,
        lost: false,
    };
    for example in REFUSED.split("\n\n") {
        refuse_example(&rt, rt.alloc(), example, &mut met);
    }
    refuse_example(&rt, rt.alloc(), DENIAL, &mut met);
    let (head, rows) = DENIAL.split_once('\n').expect(&rt, "rows");
    for other in OTHERS.lines() {
        let text = format!(in rt.alloc(); "{head}\n{other}\n{rows}").expect(&rt, "memory");
        refuse_example(&rt, rt.alloc(), text.as_str(), &mut met);
    }
    assert!(rt; met.short && met.partly && met.lost);
}
