//! Packing observations into frames.

ghost use Rattle.std.specs.Prelude.{◌≡◌, ◌≢◌, ◌+◌, ◌<◌, ◌≤◌, ◌++◌, ◌∷◌, [], length, IfOk, OnOk, OnErr};
ghost use Rattle.fleet_wire.specs.Number.{u16_octets};
ghost use Rattle.fleet_observe.specs.Observation.{Observations};
ghost use Rattle.fleet_gossip.specs.Entry.{octet};
ghost use Rattle.fleet_gossip.specs.declared.frame.TheConstants.{MAGIC, VERSION};
ghost use Rattle.fleet_gossip.specs.Packed.{IsPacked};
ghost use Rattle.fleet_gossip.specs.steps.Packs.{Packs, IsPacking};
ghost use Rattle.fleet_gossip.specs.declared.bounds.TheConstants.{LONGEST_FRAME};

use crate::bounds::LONGEST_FRAME;
use crate::frame::OPENING;
use crate::writer::{entry_size, push_entry, push_opening};
use fleet_cache::Cache;
use fleet_name::Octets;
use fleet_observe::Observation;
use std::alloc::{AllocError, Allocator};

/// Frames that are being made. One buffer holds the entries of each frame in turn; a finished frame is
/// one allocation of its exact size.
#[derive(Drop)]
pub(crate) struct Packer<A: Allocator> {
    alloc: A,
    /// The finished frames.
    frames: Vec<Octets<A>, A>,
    /// The entries of the frame that is not finished.
    entries: Vec<u8, A>,
    /// The number of these entries.
    count: u16,
}

impl<A: Allocator + Copy> Packer<A> {
    /// A packer without frames.
    pub fn new(alloc: A) -> Packer<A>
        ensures { Packs result [] }
    {
        Packer {
            alloc,
            frames: Vec::new(alloc),
            entries: Vec::new(alloc),
            count: 0,
        }
    }

    /// Finishes the frame that is not finished. `Err` where an allocation fails.
    fn close(&mut self) -> Result<(), AllocError>
        requires { length self.old.entries.items ≤ LONGEST_FRAME }
        ensures frames { OnOk result (self.new.frames.items
            ≡ self.old.frames.items
            ++ (u16_octets MAGIC
            ++ (octet VERSION ++ (u16_octets self.old.count ++ self.old.entries.items))) ∷ []) }
        ensures entries { OnOk result (self.new.entries.items ≡ []) }
        ensures count { OnOk result (self.new.count ≡ 0) }
    {
        let mut frame = Vec::with_capacity(self.alloc, OPENING + self.entries.len())?;
        push_opening(&mut frame, self.count)?;
        frame.extend_from_slice(&self.entries)?;
        self.frames.push(Octets::new(frame))?;
        self.entries.clear();
        self.count = 0;
        Ok(())
    }

    /// Adds an observation after the others. `Err` where an allocation fails.
    pub fn add(&mut self, observation: &Observation<A>) -> Result<(), AllocError>
        requires { IsPacking self.old }
        ensures { OnOk result ((taken : Observations) → Packs self.old taken
            → Packs self.new (taken ++ observation.now ∷ [])) }
    {
        if OPENING + self.entries.len() + entry_size(observation) > LONGEST_FRAME {
            self.close()?;
        }
        push_entry(&mut self.entries, observation)?;
        self.count += 1;
        Ok(())
    }

    /// The frames of all that was added. `Err` where an allocation fails.
    pub fn finish(mut self) -> Result<Vec<Octets<A>, A>, AllocError>
        requires { IsPacking self }
        ensures memory { OnErr result
            ((taken : Observations) → Packs self taken → taken ≢ []) }
        ensures packed { IfOk result (λ frames.
            (taken : Observations) → Packs self taken → IsPacked taken frames.items) }
    {
        if self.count == 0 {
            return Ok(self.frames);
        }
        self.close()?;
        Ok(self.frames)
    }
}

/// The frames of observations, in their order, each with as many as fit. Each observation goes into the
/// frame of the one before it where that then has at most `LONGEST_FRAME` octets, else it begins a new
/// frame. An empty list has no frames, and allocates nothing. `Err` where an allocation fails.
pub fn pack<A: Allocator + Copy>(
    alloc: A,
    observations: &[Observation<A>],
) -> Result<Vec<Octets<A>, A>, AllocError>
    ensures packed { IfOk result (λ frames. IsPacked observations.now frames.items) }
    ensures memory { OnErr result (observations.now ≢ []) }
{
    let mut packer = Packer::new(alloc);
    for observation in observations {
        packer.add(observation)?;
    }
    packer.finish()
}

/// The frames of all items of a cache, in their order: those that `pack` returns of them. Without
/// items this allocates nothing. `Err` where an allocation fails.
pub fn sweep<A: Allocator + Copy>(
    alloc: A,
    cache: &Cache<A>,
) -> Result<Vec<Octets<A>, A>, AllocError>
    ensures packed { IfOk result (λ frames. IsPacked cache.now.items frames.items) }
    ensures memory { OnErr result (cache.now.items ≢ []) }
{
    let mut packer = Packer::new(alloc);
    for observation in cache.items() {
        packer.add(observation)?;
    }
    packer.finish()
}
