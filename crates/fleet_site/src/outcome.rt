//! What a step of a site gives.

ghost use Rattle.std.specs.Prelude.{◌≡◌, IfOk};
ghost use Rattle.fleet_site.specs.OutcomeData.{nothing, sends};
ghost use Rattle.fleet_site.specs.declared.outcome.SiteFault.TheVariants.{OutOfMemory};

use fleet_gossip::FrameFault;
use fleet_name::Octets;
use fleet_observe::{DigestFault, Items};
use fleet_pending::Addr;
use fleet_wire::ReadFault;
use std::alloc::{AllocError, Allocator, Global};
use std::marker::Model;
use thiserror::Error;

/// Octets, and where they go.
#[derive(Drop)]
pub struct Packet<A: Allocator = Global> {
    /// Where they go.
    pub to: Addr,
    /// The octets.
    pub bytes: Octets<A>,
}

impl<A: Allocator> Model for Packet<A> {
    ghost use Rattle.fleet_site.specs.PacketData.{PacketData};

    ghost Value = { PacketData };

    ghost view = { λ p. record { to = p.to; octets = p.bytes } };
}

/// Packets in order. One packet takes an allocation too: they are lent as a slice, and that a packet in
/// place has a size that fits in memory is not known of a type over any allocator.
pub type Packets<A = Global> = Items<Packet<A>, A>;

/// Frames in order, each by its octets.
pub type Frames<A = Global> = Items<Octets<A>, A>;

/// Why a site did no more: nothing but its clock has changed. Want of memory is no refusal.
#[derive(Clone, Copy, Debug, PartialEq, Eq, Error)]
pub enum Refusal {
    /// No open question waits for the reply.
    #[error("unmatched")]
    Unmatched,
    /// The message can't be read.
    #[error("read: {0}")]
    Read(ReadFault),
    /// It is no reply to a question that is served, or its aliases fork, loop or have a ninth link.
    #[error("digest: {0}")]
    Digest(DigestFault),
    /// The frame can't be read.
    #[error("frame: {0}")]
    Frame(FrameFault),
    /// Too many questions are open, or too many wait for this one.
    #[error("full")]
    Full,
    /// It has fewer than 12 octets, or it is a question that an upstream sent, or a reply that no
    /// upstream sent. What a peer sends is read as a frame, and is never dropped.
    #[error("dropped")]
    Dropped,
}

/// What a step gives: what is to be sent, and what became of the call.
#[derive(Drop)]
pub struct Outcome<A: Allocator = Global> {
    /// What goes to upstreams and to those who asked.
    pub packets: Packets<A>,
    /// What goes to every peer.
    pub frames: Frames<A>,
    /// How many observations were given to the cache, whether it kept them or not.
    pub taken: usize,
    /// Why nothing more was done. A question that can't be read, or is turned away, has its reply among
    /// the packets all the same.
    pub refused: Option<Refusal>,
    /// Whether another open question is due; false but for a tick.
    pub more: bool,
}

impl<A: Allocator> Model for Outcome<A> {
    ghost use Rattle.fleet_site.specs.OutcomeData.{OutcomeData};

    ghost Value = { OutcomeData };

    ghost view = { λ o. record {
      packets = o.packets;
      frames = o.frames;
      taken = o.taken;
      refused = o.refused;
      more = o.more;
    } };
}

/// Why a step was stopped.
#[derive(Clone, Copy, Debug, PartialEq, Eq, Error)]
pub enum SiteFault {
    /// There was no memory for it. The clock has risen, where the call has a moment, and a tick has
    /// purged. Nothing is to be sent, and the open questions are as before.
    #[error("out of memory after {taken} observations")]
    OutOfMemory {
        /// How many observations were given to the cache: just the first ones, in their order.
        taken: usize,
    },
}

impl From<AllocError> for SiteFault {
    ghost from_gives = { λ _ e. e ≡ OutOfMemory 0 };

    fn from(_error: AllocError) -> SiteFault {
        SiteFault::OutOfMemory { taken: 0 }
    }
}

impl<A: Allocator + Copy> Outcome<A> {
    /// An outcome in which nothing is sent.
    pub(crate) fn without_packets(alloc: A, taken: usize, refused: Option<Refusal>) -> Outcome<A>
        ensures { result ≡ record nothing { taken = taken; refused = refused } }
    {
        let packets = Packets::new(Vec::new(alloc));
        Outcome::with_packets(alloc, packets, taken, refused)
    }

    /// An outcome in which one packet is sent.
    pub(crate) fn with_packet(
        alloc: A,
        to: Addr,
        bytes: Octets<A>,
        refused: Option<Refusal>,
    ) -> Result<Outcome<A>, AllocError>
        ensures { IfOk result (λ o. o
            ≡ record (sends to bytes) { refused = refused }) }
    {
        let packets = Packets::of_one(alloc, Packet { to, bytes })?;
        Ok(Outcome::with_packets(alloc, packets, 0, refused))
    }

    /// An outcome in which packets are sent, and no frames.
    pub(crate) fn with_packets(
        alloc: A,
        packets: Packets<A>,
        taken: usize,
        refused: Option<Refusal>,
    ) -> Outcome<A>
        ensures { result
            ≡ record nothing { packets = packets; taken = taken; refused = refused } }
    {
        let frames = Frames::new(Vec::new(alloc));
        Outcome {
            packets,
            frames,
            taken,
            refused,
            more: false,
        }
    }
}
