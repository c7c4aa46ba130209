//! What a server runs over: a port, and a clock.

ghost use Rattle.std.specs.Prelude.{◌≡◌, ◌+◌, ◌≤◌, [], ◌∷◌, Option, Some, ℕ, length, IfOk, IfSome};
ghost use Rattle.fleet_site.specs.server.PortRecord.{PortState, NotesAll, receive_of, send_of, failures_after};

use fleet_observe::Moment;
use fleet_pending::Addr;
use thiserror::Error;

/// A call of a port that failed.
#[derive(Clone, Copy, Debug, PartialEq, Eq, Error)]
#[error("the port failed")]
pub struct PortFault;

/// What sends and receives datagrams for a server.
pub trait Port {
    /// What may be known of it: the list of its calls with how each ended, while it keeps one, and
    /// how many failed.
    ghost state: { Self → PortState };

    /// Receives at most one datagram, cut to the buffer: its source and its length in octets. `None`
    /// where none came, `Err` where the call failed. The record has the length of the buffer, so that
    /// clauses can say how many octets were asked for.
    fn recv(&mut self, buffer: &mut [u8]) -> Result<Option<(Addr, usize)>, PortFault>
        ensures within { IfOk result (λ got. IfSome got (λ p. p.1 ≤ length buffer.old)) }
        ensures noted { NotesAll (state self.old).noted
            (receive_of (length buffer.old) result buffer.new ∷ []) (state self.new).noted }
        ensures failed { (state self.new).failed ≡ failures_after result (state self.old).failed };

    /// Sends a datagram. `Err` where the call failed, and the datagram is lost.
    fn send(&mut self, to: Addr, bytes: &[u8]) -> Result<(), PortFault>
        ensures noted { NotesAll (state self.old).noted
            (send_of result (record { to = to; octets = bytes.now }) ∷ []) (state self.new).noted }
        ensures failed { (state self.new).failed ≡ failures_after result (state self.old).failed };

    /// How many calls of a port failed, receives and sends. It stays at the greatest number.
    fn failures(&self) -> u64
        ensures { result ≡ (state self.now).failed };
}

/// What gives a server the moment.
pub trait Clock {
    /// The moments that it is going to give, where they are known before.
    ghost moments: { Self → Option (ℕ → ℕ) };

    /// Gives the moment that it is.
    fn now(&mut self) -> Moment
        ensures { IfSome (moments self.old)
            (λ f. (result ≡ f 0) × (moments self.new ≡ Some (λ k. f (k + 1)))) };
}
