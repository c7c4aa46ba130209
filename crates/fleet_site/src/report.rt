//! What a server counted.

ghost use Rattle.std.specs.Prelude.{◌≡◌};
ghost use Rattle.fleet_site.specs.server.PortRecord.{one_more};

/// Counts of a run. Each stays at the greatest number.
#[derive(Clone, Copy, Debug, PartialEq, Eq)]
pub struct Report {
    /// Turns.
    pub turns: u64,
    /// Datagrams that were received.
    pub received: u64,
    /// Packets whose send succeeded; a port may have put a long one where it waits to be sent.
    pub sent: u64,
    /// Packets whose send failed.
    pub lost: u64,
    /// Receives that failed, also since a packet that waited could not be sent.
    pub faults: u64,
    /// Datagrams that the site refused.
    pub refused: u64,
    /// Steps of the site that ran out of memory.
    pub short: u64,
}

impl Report {
    ghost use Rattle.fleet_site.specs.server.Turn.{empty_report};

    /// A report in which nothing was counted yet.
    pub(crate) fn new() -> Report
        ensures { result ≡ empty_report }
    {
        Report {
            turns: 0,
            received: 0,
            sent: 0,
            lost: 0,
            faults: 0,
            refused: 0,
            short: 0,
        }
    }
}

/// Counts one more, up to the greatest number.
pub(crate) fn count_one(count: &mut u64)
    ensures { count.new ≡ one_more count.old }
{
    *count = count.saturating_add(1);
}
