//! What is done of a row that runs out of memory.

use crate::tests::fleets::{first_number, first_place};
use crate::tests::octets::octets;
use crate::tests::sites::at;
use fleet_world::{Event, World};
use std::alloc::Allocator;
use std::process::Abort;

/// How many observations, how a row begins that brings more, and a frame of the first ones: frames
/// of up to four other observations, the reply with two aliases and a denial, and what comes of
/// frames and sites that have two observations.
const PARTS: &str = "\
0 => empty-frame
1 frame 0 100 => one-other
2 frame 0 100 => two-others
3 frame 0 100 => three-others
1 learn 0 100 => one-alias
2 learn 0 100 => two-aliases
1 deliver 1 200 1 => first-newer
1 deliver 2 200 2 => first-newer
1 merge 1 0 => first-newer
1 merge 0 1 => first-newer
";

/// A frame of the first observations that a row brings, a number of them, by its name.
fn part_of(rt: &impl Abort, row: &str, taken: usize) -> &'static str {
    for line in PARTS.lines() {
        if let Some((part, frame)) = line.split_once(" => ") {
            let (count, begin) = part.split_once(' ').unwrap_or((part, ""));
            if row.starts_with(begin) && count.parse() == Ok(taken) {
                return frame;
            }
        }
    }
    panic!(rt; "more than it brings")
}

/// Does what is done of a row that runs out of memory after this number of observations, if
/// anything: a frame of the first observations comes to its site, at its moment. A tick has purged
/// all the same, and a merge has no moment.
pub fn do_part<A: Allocator + Copy>(
    rt: &impl Abort,
    alloc: A,
    world: &mut World<A>,
    row: &str,
    taken: usize,
) {
    let frame = part_of(rt, row, taken);
    let (kind, words) = row.split_once(' ').expect(rt, "an event");
    let (site, words) = first_place(rt, words);
    if kind == "sweep" || kind == "restart" {
        return;
    }
    let now = if kind == "merge" {
        at(rt, 0)
    } else {
        at(rt, first_number(rt, words).0)
    };
    let event = if kind == "tick" {
        Event::Tick { site, now }
    } else {
        Event::Frame {
            site,
            now,
            bytes: octets(rt, alloc, frame),
        }
    };
    world.step(&event).expect(rt, "a step");
}
