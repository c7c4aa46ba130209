//! What a port asks of the system.

ghost use Rattle.std.specs.Prelude.{◌≡◌, ◌≤◌, [], ◌∷◌, IfOk, IfSome, length, is_ok};
ghost use Rattle.fleet_site.specs.socket.SocketRecord.{SocketState, Called, Switched, ClockRead, Paused, arrival_of, departure_of, nanos_of};

use crate::port::PortFault;
use fleet_pending::Addr;
use std::time::Duration;

/// A socket for datagrams, bound to an address, with a clock beside it. It does what the system does,
/// and nothing of its own: so what a port does can be proved over any socket, and what is not proved is
/// the six methods of one that asks the system.
pub trait Socket {
    /// What may be known of it: the list of its calls with how each ended, while it keeps one, and
    /// whether its receives wait.
    ghost state: { Self → SocketState };

    /// Whether a receive waits for a datagram.
    fn is_waiting(&self) -> bool
        ensures { result ≡ (state self.now).waits };

    /// Has receives wait for a datagram for a time, or return at once. `Err` where the system refuses.
    fn set_waiting(&mut self, waits: bool) -> Result<(), PortFault>
        ensures { Called (state self.old) (state self.new) (Switched waits (is_ok result) ∷ []) };

    /// Receives at most one datagram, cut to the buffer: its source and its length in octets. `None`
    /// where none came, `Err` where the system reports a fault.
    fn receive(&mut self, buffer: &mut [u8]) -> Result<Option<(Addr, usize)>, PortFault>
        ensures within { IfOk result (λ got. IfSome got (λ p. p.1 ≤ length buffer.old)) }
        ensures called { Called (state self.old) (state self.new)
            (arrival_of (state self.old).waits (length buffer.old) result buffer.new ∷ []) };

    /// Sends a datagram. `Err` where the system refuses it.
    fn send(&mut self, to: Addr, bytes: &[u8]) -> Result<(), PortFault>
        ensures { Called (state self.old) (state self.new)
            (departure_of result (record { to = to; octets = bytes.now }) ∷ []) };

    /// The time since some moment, by a clock that does not go back; `None` where it can't be read.
    fn time(&mut self) -> Option<Duration>
        ensures { Called (state self.old) (state self.new) (ClockRead (nanos_of result) ∷ []) };

    /// Lets the pause pass that lies between two bursts, `PAUSE` milliseconds.
    fn pause(&mut self)
        ensures { Called (state self.old) (state self.new) (Paused ∷ []) };
}
