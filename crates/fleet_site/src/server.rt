//! The loop of a server.

ghost use Rattle.std.specs.Prelude.{◌≡◌, ◌↔◌, IsTrue, ◌<◌, ◌≤◌, ◌+◌, ◌∷◌, [], map, is_some, length, take};
ghost use Rattle.fleet_site.specs.declared.bounds.TheConstants.{MOST_COUNTED};
ghost use Rattle.fleet_site.specs.server.Sending.{to_each, to_peers, count_refusal_in, goes_on};
ghost use Rattle.fleet_site.specs.steps.Sends.{Sends, CarriesOut, sweep_outcome};
ghost use Rattle.fleet_site.specs.server.Turn.{IsSweepDue, HasPassed, left_after};
ghost use Rattle.fleet_site.specs.server.Served.{Served, FollowsSteps};
ghost use Rattle.fleet_site.specs.steps.Turned.{loop_state, Turned, GivenOne, ReceivedOne, TickedAll, SweptOnce};

use crate::handled::Handled;
use crate::outcome::{Outcome, Packet, Refusal, SiteFault};
use crate::port::{Clock, Port};
use crate::report::{Report, count_one};
use crate::site::Site;
use fleet_gossip::bounds::LONGEST_FRAME;
use fleet_name::Octets;
use fleet_observe::Moment;
use fleet_pending::{Addr, serving_leaves_fewer_due};
use rand_core::Rng;
use std::alloc::{AllocError, Allocator};

/// How many octets a turn asks for: those of the longest frame, and one more, so that the system cuts
/// no frame to one that could be read.
const BUFFER: usize = LONGEST_FRAME + 1;

/// What a run of the loop has of its own.
#[derive(Drop)]
struct Run<A: Allocator> {
    /// Where a turn receives a datagram.
    buffer: [u8; BUFFER],
    /// Where the site writes the reply of a hit.
    reply: Vec<u8, A>,
    /// The moment that the next sweep is counted from: that of the last one, or of the first turn.
    swept: Option<Moment>,
    /// What was counted.
    report: Report,
}

/// What a turn is given.
#[derive(Clone, Copy)]
struct Turn {
    /// The moment of the turn.
    now: Moment,
    /// The low 16 bits of the word that was drawn for it.
    word: u16,
}

/// Sends octets, and counts them.
fn send<P: Port>(port: &mut P, to: Addr, bytes: &[u8], report: &mut Report)
    ensures { Sends (P.state port.old) (P.state port.new)
        (record { to = to; octets = bytes.now } ∷ []) report.old report.new }
{
    match port.send(to, bytes) {
        Ok(()) => count_one(&mut report.sent),
        Err(_) => count_one(&mut report.lost),
    }
}

/// Sends packets in their order.
fn send_packets<P: Port, A: Allocator>(port: &mut P, packets: &[Packet<A>], report: &mut Report)
    ensures { Sends (P.state port.old) (P.state port.new)
        packets.now report.old report.new }
{
    for packet in packets {
        send(port, packet.to, packet.bytes.as_slice(), report);
    }
}

/// Sends a frame to each peer.
fn send_to_each<P: Port>(port: &mut P, frame: &[u8], peers: &[Addr], report: &mut Report)
    ensures { Sends (P.state port.old) (P.state port.new)
        (to_each frame.now peers.now) report.old report.new }
{
    for peer in peers {
        send(port, *peer, frame, report);
    }
}

/// Sends each frame to each peer.
fn send_frames<P: Port, A: Allocator>(
    port: &mut P,
    frames: &[Octets<A>],
    peers: &[Addr],
    report: &mut Report,
)
    ensures { Sends (P.state port.old) (P.state port.new)
        (to_peers peers.now frames.now) report.old report.new }
{
    for frame in frames {
        send_to_each(port, frame.as_slice(), peers, report);
    }
}

/// Counts a refusal, if it is one.
fn count_refusal(refused: Option<Refusal>, report: &mut Report)
    ensures { report.new ≡ count_refusal_in (is_some refused) report.old }
{
    if refused.is_some() {
        count_one(&mut report.refused);
    }
}

/// Sends what a step gave, and says whether a tick is to follow.
fn carry_out<P: Port, A: Allocator>(
    port: &mut P,
    peers: &[Addr],
    answer: Result<Outcome<A>, SiteFault>,
    report: &mut Report,
) -> bool
    ensures carried { CarriesOut (P.state port.old) (P.state port.new) peers.now
        answer report.old report.new }
    ensures more { result ≡ goes_on answer }
{
    match answer {
        Ok(outcome) => {
            count_refusal(outcome.refused, report);
            send_packets(port, outcome.packets.as_slice(), report);
            send_frames(port, outcome.frames.as_slice(), peers, report);
            outcome.more
        }
        Err(_) => {
            count_one(&mut report.short);
            false
        }
    }
}

/// Sends the frames of a sweep.
fn carry_out_sweep<P: Port, A: Allocator>(
    port: &mut P,
    peers: &[Addr],
    frames: Result<Vec<Octets<A>, A>, AllocError>,
    report: &mut Report,
)
    ensures { CarriesOut (P.state port.old) (P.state port.new) peers.now
        (sweep_outcome frames) report.old report.new }
{
    match frames {
        Ok(frames) => send_frames(port, &frames, peers, report),
        Err(_) => count_one(&mut report.short),
    }
}

/// Gives the datagram in the buffer, which has `len` octets, to the site, and sends what that gives: of
/// a hit what `reply` holds.
fn give<P: Port, A: Allocator + Copy>(
    port: &mut P,
    site: &mut Site<A>,
    run: &mut Run<A>,
    turn: Turn,
    from: Addr,
    len: usize,
)
    requires { len ≤ length run.old.buffer }
    ensures given { GivenOne (loop_state (P.state port.old) site.old run.old.report)
        (loop_state (P.state port.new) site.new run.new.report)
        turn.now from (take len run.old.buffer) turn.word }
    ensures swept { run.new.swept ≡ run.old.swept }
{
    let bytes = &run.buffer[..len];
    match site.datagram_into(turn.now, from, bytes, turn.word, &mut run.reply) {
        Ok(Handled::Reply) => send(port, from, run.reply.as_slice(), &mut run.report),
        Ok(Handled::Outcome(outcome)) => {
            carry_out(port, site.peers(), Ok(outcome), &mut run.report);
        }
        Err(_) => count_one(&mut run.report.short),
    }
}

/// Receives at most one datagram, and gives it to the site.
fn receive<P: Port, A: Allocator + Copy>(
    port: &mut P,
    site: &mut Site<A>,
    run: &mut Run<A>,
    turn: Turn,
)
    ensures received { ReceivedOne (loop_state (P.state port.old) site.old run.old.report)
        (loop_state (P.state port.new) site.new run.new.report)
        turn.now turn.word }
    ensures swept { run.new.swept ≡ run.old.swept }
{
    match port.recv(&mut run.buffer) {
        Ok(None) => {}
        Ok(Some((from, len))) => {
            count_one(&mut run.report.received);
            give(port, site, run, turn, from, len);
        }
        Err(_) => count_one(&mut run.report.faults),
    }
}

/// Ticks until no other entry is due, or there is no memory for a tick.
fn tick_all<P: Port, A: Allocator + Copy>(
    port: &mut P,
    site: &mut Site<A>,
    now: Moment,
    report: &mut Report,
)
    ensures { TickedAll (loop_state (P.state port.old) site.old report.old)
        (loop_state (P.state port.new) site.new report.new)
        now }
{
    // At most `MOST_ENTRIES` are due, so there is an end.
    serving_leaves_fewer_due();
    prove!(site.cache().floor().value() <= site.clock().value());
    let mut more = true;
    while more {
        let answer = site.tick(now);
        more = carry_out(port, site.peers(), answer, report);
    }
}

/// Whether it is time to sweep.
fn is_sweep_due(now: Moment, since: Moment, every: u32) -> bool
    ensures { IsTrue result ↔ IsSweepDue every since now }
{
    every > 0 && now.value().saturating_sub(since.value()) >= u64::from(every)
}

/// Sweeps where it is time, and notes the moment that the next sweep is counted from.
fn sweep_if_due<P: Port, A: Allocator + Copy>(
    port: &mut P,
    site: &Site<A>,
    run: &mut Run<A>,
    now: Moment,
    every: u32,
)
    ensures { SweptOnce (loop_state (P.state port.old) site.now run.old.report)
        (loop_state (P.state port.new) site.now run.new.report)
        every now run.old.swept run.new.swept }
{
    let since = run.swept.unwrap_or(now);
    if is_sweep_due(now, since, every) {
        carry_out_sweep(port, site.peers(), site.sweep(), &mut run.report);
        run.swept = Some(now);
    } else {
        run.swept = Some(since);
    }
}

/// Makes one turn: a receive, then the ticks, then a sweep where it is time for one.
fn take_turn<P: Port, A: Allocator + Copy>(
    port: &mut P,
    site: &mut Site<A>,
    run: &mut Run<A>,
    turn: Turn,
    every: u32,
)
    ensures { Turned (loop_state (P.state port.old) site.old run.old.report)
        (loop_state (P.state port.new) site.new run.new.report)
        turn.now turn.word every run.old.swept run.new.swept }
{
    let now = turn.now;
    count_one(&mut run.report.turns);
    receive(port, site, run, turn);
    tick_all(port, site, now, &mut run.report);
    sweep_if_due(port, site, run, now, every);
}

/// Serves a site over a port for exactly this number of turns, and returns what it counted.
///
/// A turn reads the clock once and draws one word; receives at most one datagram, into 16385 octets,
/// and gives it to the site with the low 16 bits of that word; sends its packets, then its frames, each
/// to the peers in their order; ticks, sending after each tick, until no other entry is due or a tick
/// runs out of memory, 256 times at most; and sweeps where `sweep_every` (seconds) is not 0 and the
/// moment is at least that many seconds after that of the last sweep, or of the first turn. A clock
/// that goes back brings no sweep until it has caught up. A send that fails is counted as lost, a
/// receive that fails as a fault, a step without memory sends nothing and is counted as short, and the
/// loop goes on.
///
/// `run` says so, over every port that gives its record and every clock that gives its moments: the
/// turn with number k has the clock's k-th moment and the generator's k-th word, and the port's record
/// grows by exactly what the turns receive and send. By `moments` and `words` nothing is read or drawn
/// after the last turn. By `follows` each step is one of the site's model. By `failures` the failures
/// that the port counts rise by the report's `lost` and `faults`, while no count is at its end. The
/// buffer of replies is made once; where there is no memory for it, each hit tries again.
pub fn serve<P: Port, C: Clock, R: Rng, A: Allocator + Copy>(
    port: &mut P,
    clock: &mut C,
    rng: &mut R,
    site: &mut Site<A>,
    turns: u32,
    sweep_every: u32,
) -> Report
    ensures run { Served (P.state port.old) (P.state port.new) site.old site.new
        (record {
          moments = C.moments clock.old;
          words = R.stream rng.old;
          turns = turns;
          every = sweep_every;
        }) result }
    ensures follows { FollowsSteps site.old site.new }
    ensures moments { HasPassed (C.moments clock.old) turns (C.moments clock.new) }
    ensures words { R.stream rng.new ≡ left_after turns (R.stream rng.old) }
    ensures failures { result.lost < MOST_COUNTED → result.faults < MOST_COUNTED
        → (P.state port.new).failed < MOST_COUNTED
        → (P.state port.new).failed ≡ (P.state port.old).failed + (result.lost + result.faults) }
{
    let report = Report::new();
    let mut run = Run {
        buffer: [0u8; BUFFER],
        reply: site.reply_buffer(),
        swept: None,
        report,
    };
    for _ in 0..turns {
        let now = clock.now();
        let word = (rng.next_u32() % 65536) as u16;
        take_turn(port, site, &mut run, Turn { now, word }, sweep_every);
    }
    run.report
}
