//! The first numbers of an entry: kind, rank, stamp and life.

ghost use Rattle.std.specs.Prelude.{MatchOption, MatchResult, IsTrue, ◌↔◌};
ghost use Rattle.fleet_wire.specs.Number.{u16_octets, u32_octets};
ghost use Rattle.fleet_observe.specs.declared.observation.kind.Kind.{Kind as AnyKind};
ghost use Rattle.fleet_observe.specs.Checks.{IsRankOf, IsLifeOf, IsTypeOf};
ghost use Rattle.fleet_gossip.specs.Entry.{octet, u64_octets, IsKind, IsKindIn, IsKindNumber, IsMoment};
ghost use Rattle.fleet_gossip.specs.Faults.{EntryFails};
ghost use Rattle.fleet_gossip.specs.steps.Reading.{IsField, NoField, IsKindAt, IsHead};
ghost use Rattle.fleet_gossip.specs.declared.fault.FrameFault.TheVariants.{BadKind, BadRank, BadMoment, BadLife};

use crate::fault::FrameFault;
use crate::frame::FLUSH_VERSION;
use crate::reader::Reader;
use fleet_observe::{Kind, Moment, is_life_of, is_rank_of, is_type_of};

/// The first numbers of an entry, in their order.
#[derive(Clone, Copy, Drop)]
pub(crate) struct Head {
    pub kind: Kind,
    pub rank: u8,
    pub stamp: Moment,
    /// The life, in seconds.
    pub life: u32,
}

/// Whether entries of the version have the kind.
fn is_kind_in(version: u8, kind: Kind) -> bool
    ensures { IsTrue result ↔ IsKindIn version kind }
{
    match kind {
        Kind::Positive => true,
        Kind::NoData => true,
        Kind::NameError => true,
        Kind::Flush => version >= FLUSH_VERSION,
    }
}

/// The kind with a number; `None` where there is none.
fn kind_of(number: u8) -> Option<Kind>
    ensures { MatchOption result ((kind : AnyKind) → IsKind number kind → ⊥) (IsKind number) }
{
    match number {
        1 => Some(Kind::NameError),
        2 => Some(Kind::NoData),
        3 => Some(Kind::Positive),
        4 => Some(Kind::Flush),
        _ => None,
    }
}

/// Reads a kind that the version has, else `BadKind`.
fn read_kind(reader: &mut Reader<'_>, version: u8) -> Result<Kind, FrameFault>
    ensures { MatchResult result (λ kind. IsKindAt version reader.old kind reader.new)
        (NoField octet 1 (IsKindNumber version) BadKind reader.old) }
{
    let number = reader.read_u8()?;
    let Some(kind) = kind_of(number) else {
        return Err(FrameFault::BadKind);
    };
    if !is_kind_in(version, kind) {
        return Err(FrameFault::BadKind);
    }
    Ok(kind)
}

/// Reads a rank that the kind can have, else `BadRank`.
fn read_rank(reader: &mut Reader<'_>, kind: Kind) -> Result<u8, FrameFault>
    ensures { MatchResult result (λ r. IsField octet (IsRankOf kind) reader.old r reader.new)
        (NoField octet 1 (IsRankOf kind) BadRank reader.old) }
{
    let rank = reader.read_u8()?;
    if !is_rank_of(kind, rank) {
        return Err(FrameFault::BadRank);
    }
    Ok(rank)
}

/// Reads a stamp of at most `LATEST` seconds, else `BadMoment`.
fn read_stamp(reader: &mut Reader<'_>) -> Result<Moment, FrameFault>
    ensures { MatchResult result (λ r. IsField u64_octets IsMoment reader.old r reader.new)
        (NoField u64_octets 8 IsMoment BadMoment reader.old) }
{
    let seconds = reader.read_u64()?;
    match Moment::new(seconds) {
        Some(stamp) => Ok(stamp),
        None => Err(FrameFault::BadMoment),
    }
}

/// Reads a life, in seconds, that the kind can have, else `BadLife`.
fn read_life(reader: &mut Reader<'_>, kind: Kind) -> Result<u32, FrameFault>
    ensures { MatchResult result (λ r. IsField u32_octets (IsLifeOf kind) reader.old r reader.new)
        (NoField u32_octets 4 (IsLifeOf kind) BadLife reader.old) }
{
    let life = reader.read_u32()?;
    if !is_life_of(kind, life) {
        return Err(FrameFault::BadLife);
    }
    Ok(life)
}

/// Reads kind, rank, stamp and life of an entry of the version.
pub(crate) fn read_head(reader: &mut Reader<'_>, version: u8) -> Result<Head, FrameFault>
    ensures { MatchResult result (λ r. IsHead version reader.old r reader.new)
        (EntryFails version reader.old) }
{
    let kind = read_kind(reader, version)?;
    let rank = read_rank(reader, kind)?;
    let stamp = read_stamp(reader)?;
    let life = read_life(reader, kind)?;
    Ok(Head {
        kind,
        rank,
        stamp,
        life,
    })
}

/// Reads a type that the kind can have, else `BadKind`.
pub(crate) fn read_type(reader: &mut Reader<'_>, kind: Kind) -> Result<u16, FrameFault>
    ensures { MatchResult result (λ r. IsField u16_octets (IsTypeOf kind) reader.old r reader.new)
        (NoField u16_octets 2 (IsTypeOf kind) BadKind reader.old) }
{
    let rtype = reader.read_u16()?;
    if !is_type_of(kind, rtype) {
        return Err(FrameFault::BadKind);
    }
    Ok(rtype)
}
