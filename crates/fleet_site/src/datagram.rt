//! A datagram on its way.

use fleet_observe::Moment;
use fleet_pending::Addr;

/// A datagram, and what is handed in with it.
#[derive(Clone, Copy)]
pub(crate) struct Datagram<'a> {
    /// The moment that is handed in with it; once the clock of the site was raised to that, this clock.
    pub moment: Moment,
    /// Who sent it.
    pub from: Addr,
    /// Where the search for the identifier of a new query begins.
    pub word: u16,
    /// Its octets.
    pub octets: &'a [u8],
}
