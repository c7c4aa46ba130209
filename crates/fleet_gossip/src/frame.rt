//! Reading and writing frames.

ghost use Rattle.std.specs.Prelude.{◌≡◌, ◌<◌, ◌↔◌, [], length, IsTrue, IfOk, IfErr, OnErr, MatchOption, MatchResult, Err};
ghost use Rattle.fleet_name.specs.Fault.{OrMemory};
ghost use Rattle.fleet_observe.specs.Observation.{Observations};
ghost use Rattle.fleet_gossip.specs.Entry.{IsVersion};
ghost use Rattle.fleet_gossip.specs.Frame.{frame_octets, SpellsFrame, WritesFrame, HasEntries};
ghost use Rattle.fleet_gossip.specs.Faults.{EntriesFail, FrameFieldsFail, FrameFails, IsTooLong};
ghost use Rattle.fleet_gossip.specs.steps.Reading.{IsOpening, BeginsWithEntries, AreEntryOctets, IsFrameOfEntries, FitsFrame};
ghost use Rattle.fleet_gossip.specs.declared.frame.TheConstants.{VERSION};
ghost use Rattle.fleet_gossip.specs.declared.bounds.TheConstants.{LONGEST_FRAME};
ghost use Rattle.fleet_gossip.specs.declared.fault.FrameFault.TheVariants.{TooLong, OutOfMemory};

use crate::bounds::LONGEST_FRAME;
use crate::entry::read_entry;
use crate::fault::FrameFault;
use crate::reader::Reader;
use crate::writer::{entry_size, push_entry, push_opening};
use fleet_observe::Observation;
use std::alloc::{AllocError, Allocator};

/// The octets 44 47 (hex), with which a frame begins.
pub(crate) const MAGIC: u16 = 0x4447;

/// The version of the frames that are written, and the newest one that is read. It rises with a change
/// of what frames may have (a kind, a field, RDATA of another shape, a further refusal), where sites
/// from before and after the change may meet.
pub const VERSION: u8 = 2;

/// The oldest version that is read. Version 1 has no flushes.
pub const OLDEST_VERSION: u8 = 1;

/// The first version with flushes.
pub(crate) const FLUSH_VERSION: u8 = 2;

/// The number of octets before the entries of a frame: magic, version and count.
pub(crate) const OPENING: usize = 5;

/// The size of the frame of observations, in octets; `None` where it passes `LONGEST_FRAME`.
fn frame_size<A: Allocator>(observations: &[Observation<A>]) -> Option<usize>
    ensures { MatchOption result (LONGEST_FRAME < length (frame_octets VERSION observations.now))
        (FitsFrame observations.now) }
{
    let mut size = OPENING;
    for observation in observations {
        size += entry_size(observation);
        if size > LONGEST_FRAME {
            return None;
        }
    }
    Some(size)
}

/// The frame of observations, in their order, of version `VERSION`, in one allocation of exactly
/// its octets.
///
/// `TooLong` comes exactly where it would have more than `LONGEST_FRAME` octets, before anything is
/// allocated. The only other fault is `OutOfMemory`.
pub fn encode<A: Allocator>(
    alloc: A,
    observations: &[Observation<A>],
) -> Result<Vec<u8, A>, FrameFault>
    ensures spelled { IfOk result (λ frame. WritesFrame frame.items observations.now) }
    ensures fault { IfErr result (λ f. OrMemory OutOfMemory f (IsTooLong observations.now f)) }
    ensures too_long { LONGEST_FRAME < length (frame_octets VERSION observations.now)
        → result ≡ Err TooLong }
{
    let Some(size) = frame_size(observations) else {
        return Err(FrameFault::TooLong);
    };
    let mut frame = Vec::with_capacity(alloc, size)?;
    push_opening(&mut frame, observations.len() as u16)?;
    for observation in observations {
        push_entry(&mut frame, observation)?;
    }
    Ok(frame)
}

/// Whether frames of the version are read.
fn is_version(version: u8) -> bool
    ensures { IsTrue result ↔ IsVersion version }
{
    (OLDEST_VERSION..=VERSION).contains(&version)
}

/// What comes before the entries of a frame.
#[derive(Clone, Copy)]
pub(crate) struct Opening {
    pub version: u8,
    /// The count of entries.
    pub count: u16,
}

/// Reads magic, version and count of a frame.
fn read_opening(reader: &mut Reader<'_>) -> Result<Opening, FrameFault>
    ensures { MatchResult result
        (λ opening. IsOpening reader.old opening.version opening.count reader.new)
        (FrameFieldsFail reader.old) }
{
    let magic = reader.read_u16()?;
    if magic != MAGIC {
        return Err(FrameFault::BadMagic);
    }
    let version = reader.read_u8()?;
    if !is_version(version) {
        return Err(FrameFault::BadVersion);
    }
    let count = reader.read_u16()?;
    Ok(Opening { version, count })
}

/// The entries of a frame: their version, their number and their octets.
#[derive(Clone, Copy)]
pub(crate) struct Entries<'a> {
    pub version: u8,
    pub count: u16,
    pub octets: &'a [u8],
}

/// Checks that the octets are exactly that many lawful entries; `Err` is the first fault. This
/// allocates nothing.
fn check_entries(entries: &Entries<'_>) -> Result<(), FrameFault>
    ensures { MatchResult result
        (λ _. AreEntryOctets entries.now.octets.now entries.now.version entries.now.count)
        (EntriesFail entries.now.version entries.now.count entries.now.octets.now) }
{
    let mut reader = Reader::new(entries.octets);
    for _ in 0..entries.count {
        match read_entry(&mut reader, entries.version) {
            Ok(_) => {}
            Err(fault) => return Err(fault),
        }
    }
    if !reader.is_empty() {
        return Err(FrameFault::Trailing);
    }
    Ok(())
}

/// The entries of a frame, each of them lawful; `Err` is the first fault. This allocates nothing.
pub(crate) fn read_frame(octets: &[u8]) -> Result<Entries<'_>, FrameFault>
    ensures { MatchResult result (λ entries.
        IsFrameOfEntries octets.now entries.version entries.count entries.octets.now)
        (FrameFails octets.now) }
{
    if octets.len() > LONGEST_FRAME {
        return Err(FrameFault::TooLong);
    }
    let mut reader = Reader::new(octets);
    let opening = read_opening(&mut reader)?;
    let entries = Entries {
        version: opening.version,
        count: opening.count,
        octets: reader.rest(),
    };
    check_entries(&entries)?;
    Ok(entries)
}

/// The observations of lawful entries. `Err` where an allocation fails.
fn to_observations<A: Allocator + Copy>(
    alloc: A,
    entries: &Entries<'_>,
) -> Result<Vec<Observation<A>, A>, AllocError>
    requires { AreEntryOctets entries.now.octets.now entries.now.version entries.now.count }
    ensures found { IfOk result (λ v.
        BeginsWithEntries entries.now.octets.now entries.now.version entries.now.count v.items []) }
    ensures memory { OnErr result (0 < entries.now.count) }
{
    let mut reader = Reader::new(entries.octets);
    let mut observations = Vec::with_capacity(alloc, usize::from(entries.count))?;
    for _ in 0..entries.count {
        let Ok(entry) = read_entry(&mut reader, entries.version) else {
            unreachable!()
        };
        observations.push(entry.to_observation(alloc)?)?;
    }
    Ok(observations)
}

/// The observations of a frame, in its order: exactly the list that the octets spell, in either
/// version. Of a frame of version `VERSION` these are the ones that `encode` makes it of.
///
/// All octets are checked before anything is allocated. `Err` is the first fault in reading order;
/// `OutOfMemory` comes only where there is no other and the frame has entries. No part of a refused
/// frame is returned.
pub fn decode<A: Allocator + Copy>(
    alloc: A,
    octets: &[u8],
) -> Result<Vec<Observation<A>, A>, FrameFault>
    ensures found { IfOk result (λ v. SpellsFrame octets.now v.items) }
    ensures fault { IfErr result (λ f. OrMemory OutOfMemory f (FrameFails octets.now f)) }
    // Of octets that spell a list, the only fault is out of memory.
    ensures only { (list : Observations) → SpellsFrame octets.now list
        → IfErr result (λ f. f ≡ OutOfMemory) }
    // Out of memory comes only of octets that spell a list that is not empty.
    ensures memory { IfErr result (λ f. f ≡ OutOfMemory → HasEntries octets.now) }
{
    let entries = read_frame(octets)?;
    let observations = to_observations(alloc, &entries)?;
    Ok(observations)
}
