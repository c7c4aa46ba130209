//! A server over a socket.

ghost use Rattle.std.specs.Prelude.{◌≡◌, [], Some};
ghost use Rattle.fleet_site.specs.server.Served.{FollowsSteps};
ghost use Rattle.fleet_site.specs.socket.Parts.{data_of};
ghost use Rattle.fleet_site.specs.socket.Serving.{ServedOver, WholeRunIfNoted};

use crate::burst_port::BurstPort;
use crate::call_log::CallLog;
use crate::port::Clock;
use crate::report::Report;
use crate::server::serve;
use crate::site::Site;
use crate::socket::Socket;
use rand_core::Rng;
use std::alloc::Allocator;

/// Serves a site over a socket for a number of turns, as [`serve`](crate::serve) does, and sends all
/// that waits then.
///
/// `whole`: where a new port and its log keep their records, the run is one from the datagrams that the
/// socket received to those that it was given to send. But for what was dropped and counted, the
/// messages that came are those that the turns were given and those that still wait, the same ones,
/// once each and in order, and so are the frames. What the turns sent was given to the socket, once and
/// unchanged, and the socket was given nothing else. `sent`: nothing waits to be sent afterwards. A
/// send that fails after the last turn is in no count of the report.
pub fn serve_socket<S: Socket + Drop, L: CallLog + Drop, C: Clock, R: Rng, A: Allocator + Copy>(
    port: &mut BurstPort<S, L, A>,
    clock: &mut C,
    rng: &mut R,
    site: &mut Site<A>,
    turns: u32,
    sweep_every: u32,
) -> Report
    ensures run { ServedOver (L.noted port.old.log) port.old.bursts.failed (L.noted port.new.log)
        site.old site.new
        (record {
          moments = C.moments clock.old;
          words = R.stream rng.old;
          turns = turns;
          every = sweep_every;
        }) result }
    ensures whole { L.noted port.old.log ≡ Some []
        → ∥ WholeRunIfNoted (S.state port.new.bursts.socket).noted (L.noted port.new.log)
        (data_of (S.state port.new.bursts.socket) port.new.bursts) site.old
        (record {
          moments = C.moments clock.old;
          words = R.stream rng.old;
          turns = turns;
          every = sweep_every;
        }) ∥₁ }
    ensures follows { FollowsSteps site.old site.new }
    ensures sent { port.new.bursts.leaving.waiting ≡ [] }
{
    let report = serve(port, clock, rng, site, turns, sweep_every);
    port.finish();
    report
}
