//! The system's clock, in whole seconds.

ghost use Rattle.std.specs.Prelude.{◌≡◌, None};
ghost use Rattle.fleet_program.specs.Moments.{moment_in, moment_after};

use fleet_observe::Moment;
use fleet_observe::bounds::LATEST;
use fleet_site::Clock;
use std::time::Duration;
use std::{io, time};

/// A clock of the system. Moments are its seconds since 1970, at most 2^40; where it can't be read, as
/// before 1970, the last moment again, and 0 where there was none.
#[derive(Drop)]
pub struct SystemClock<'a, C: time::Clock> {
    clock: &'a C,
    last: Moment,
}

impl<'a, C: time::Clock> SystemClock<'a, C> {
    /// Makes a clock that was not read yet: its last moment is 0.
    pub fn new(clock: &'a C) -> SystemClock<'a, C>
        ensures { result.last ≡ 0 }
    {
        SystemClock {
            clock,
            last: moment_of(Duration::ZERO),
        }
    }

    /// The moment of what was read, which is kept for where the clock can't be read the next time.
    fn keep(&mut self, read: io::Result<Duration>) -> Moment
        ensures moment { result ≡ moment_after read self.old.last }
        ensures kept { self.new ≡ record self.old { last = result } }
    {
        if let Ok(since) = read {
            self.last = moment_of(since);
        }
        self.last
    }
}

impl<'a, C: time::Clock> Clock for SystemClock<'a, C> {
    ghost moments = { λ _. None };

    // Lets through: any moment, the last one again too: the clause says only that it is kept. The
    // tested body `clock_reads_once` reads the clock until it has a moment; a case of `tests/run`
    // (`test_serving`) sees it.
    fn now(&mut self) -> Moment
        ensures { self.new ≡ record self.old { last = result } }
    {
        let read = self.clock.since_1970();
        self.keep(read)
    }
}

/// The moment that is this long after 1970, or the latest.
fn moment_of(since: Duration) -> Moment
    ensures { result ≡ moment_in since }
{
    Moment::new(since.as_secs().min(LATEST)).unwrap()
}
