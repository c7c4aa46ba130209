//! Writing entries.

ghost use Rattle.std.specs.Prelude.{◌≡◌, ◌≤◌, ◌++◌, length, OnOk};
ghost use Rattle.fleet_wire.specs.Number.{u16_octets, u32_octets};
ghost use Rattle.fleet_observe.specs.Observation.{IsObservation, kind_number};
ghost use Rattle.fleet_gossip.specs.Entry.{octet, u64_octets, entry_octets};
ghost use Rattle.fleet_gossip.specs.declared.frame.TheConstants.{MAGIC, VERSION};
ghost use Rattle.fleet_gossip.specs.declared.bounds.TheConstants.{LONGEST_ENTRY};

use crate::frame::{MAGIC, VERSION};
use fleet_observe::Observation;
use std::alloc::{AllocError, Allocator};

/// Appends a number of two octets, the high one first.
fn push_u16<A: Allocator>(out: &mut Vec<u8, A>, number: u16) -> Result<(), AllocError>
    ensures { OnOk result (out.new.items ≡ out.old.items ++ u16_octets number) }
{
    out.extend_from_slice(&number.to_be_bytes())
}

/// Appends a number of four octets, the high one first.
fn push_u32<A: Allocator>(out: &mut Vec<u8, A>, number: u32) -> Result<(), AllocError>
    ensures { OnOk result (out.new.items ≡ out.old.items ++ u32_octets number) }
{
    out.extend_from_slice(&number.to_be_bytes())
}

/// Appends a number of eight octets, the high one first.
fn push_u64<A: Allocator>(out: &mut Vec<u8, A>, number: u64) -> Result<(), AllocError>
    ensures { OnOk result (out.new.items ≡ out.old.items ++ u64_octets number) }
{
    out.extend_from_slice(&number.to_be_bytes())
}

/// Appends magic, version and the count of entries.
pub(crate) fn push_opening<A: Allocator>(out: &mut Vec<u8, A>, count: u16) -> Result<(), AllocError>
    ensures { OnOk result (out.new.items
        ≡ out.old.items ++ (u16_octets MAGIC ++ (octet VERSION ++ u16_octets count))) }
{
    push_u16(out, MAGIC)?;
    out.push(VERSION)?;
    push_u16(out, count)
}

/// Appends kind, rank, stamp and life of an observation.
fn push_head<A: Allocator>(
    out: &mut Vec<u8, A>,
    observation: &Observation<A>,
) -> Result<(), AllocError>
    ensures { OnOk result (out.new.items
        ≡ out.old.items
        ++ (octet (kind_number observation.now.kind)
        ++ (octet observation.now.rank
        ++ (u64_octets observation.now.stamp ++ u32_octets observation.now.life)))) }
{
    out.push(observation.kind().number())?;
    out.push(observation.rank())?;
    push_u64(out, observation.stamp().value())?;
    push_u32(out, observation.life())
}

/// Appends the entry of an observation, for which room is made once. `Err` where an allocation
/// fails.
pub(crate) fn push_entry<A: Allocator>(
    out: &mut Vec<u8, A>,
    observation: &Observation<A>,
) -> Result<(), AllocError>
    ensures { OnOk result (out.new.items ≡ out.old.items ++ entry_octets observation.now) }
{
    out.reserve(entry_size(observation))?;
    push_head(out, observation)?;
    out.extend_from_slice(observation.name().octets())?;
    push_u16(out, observation.rtype())?;
    observation.append_body(out)
}

/// The size of an observation's entry, in octets.
pub(crate) fn entry_size<A: Allocator>(observation: &Observation<A>) -> usize
    ensures value { result ≡ length (entry_octets observation.now) }
    ensures bounded { result ≤ LONGEST_ENTRY }
    ensures lawful { IsObservation observation.now }
{
    let fixed = 16;
    fixed + observation.name().octets().len() + observation.body_len()
}
