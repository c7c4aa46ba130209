//! Records (RFC 1035 4.1.3).

ghost use Rattle.std.specs.Prelude.{◌≡◌, ◌≤◌, List, length, IfOk, IfErr};
ghost use Rattle.fleet_wire.specs.Record.{RecordData, RecordAt, RecordFails, RecordsAt, HasRecords, RecordsFail};
ghost use Rattle.fleet_wire.specs.Types.{Place};
ghost use Rattle.fleet_wire.specs.declared.bounds.TheConstants.{LONGEST_MESSAGE};

use crate::fault::ReadFault;
use crate::name_reader::name_end;
use crate::number::{read_u16, read_u32};
use crate::piece::name_at;
use crate::shape::{rdata_of, rdata_passes};
use fleet_name::{Name, Octets};
use std::alloc::{AllocError, Allocator, Global};
use std::marker::Model;

/// A record of a message (RFC 1035 4.1.3).
#[derive(Drop)]
pub struct Record<A: Allocator = Global> {
    /// NAME, the owner, in lower case.
    pub name: Name<A>,
    /// TYPE.
    pub rtype: u16,
    /// CLASS.
    pub class: u16,
    /// TTL in seconds, all 32 bits as the message has them.
    pub ttl: u32,
    /// RDATA. Where its type has a shape, each name is in full and in lower case; of any other type
    /// the octets are as they came.
    pub rdata: Octets<A>,
}

impl<A: Allocator> Model for Record<A> {
    ghost use Rattle.fleet_wire.specs.Record.{RecordData};

    ghost Value = { RecordData };

    ghost view = { λ r. record {
      name = r.name;
      rtype = r.rtype;
      class = r.class;
      ttl = r.ttl;
      rdata = r.rdata;
    } };
}

/// Where the record at a place of a message ends. What it says is read and not kept.
fn record_end(message: &[u8], offset: usize) -> Result<usize, ReadFault>
    requires short { length message.now ≤ LONGEST_MESSAGE }
    ensures found { IfOk result (λ e. (r : RecordData) × RecordAt message.now offset r e) }
    ensures fault { IfErr result (λ f. RecordFails message.now offset f) }
{
    let past = name_end(message, offset)?;
    let begin = past + 10;
    if message.len() < begin {
        return Err(ReadFault::Truncated);
    }
    let count = read_u16(message, past + 8) as usize;
    if message.len() < begin + count {
        return Err(ReadFault::Truncated);
    }
    rdata_passes(message, begin, count, read_u16(message, past))?;
    Ok(begin + count)
}

/// Where `count` records in a row end that begin at a place of a message.
pub(crate) fn records_end(message: &[u8], offset: usize, count: u16) -> Result<usize, ReadFault>
    requires short { length message.now ≤ LONGEST_MESSAGE }
    ensures found { IfOk result (λ e.
        (rs : List RecordData) × RecordsAt message.now offset rs e × (length rs ≡ count)) }
    ensures fault { IfErr result (λ f. RecordsFail message.now offset count f) }
{
    let mut at = offset;
    for _ in 0..count {
        at = record_end(message, at)?;
    }
    Ok(at)
}

/// The record at a place of a message, with a name and RDATA of its own, and where it ends. The
/// caller has read it once. `Err` where an allocation fails.
fn record_at<A: Allocator + Copy>(
    alloc: A,
    message: &[u8],
    offset: usize,
) -> Result<(Record<A>, usize), AllocError>
    requires short { length message.now ≤ LONGEST_MESSAGE }
    requires found { (r : RecordData) × (e : Place) × RecordAt message.now offset r e }
    ensures { IfOk result (λ r. RecordAt message.now offset r.0 r.1) }
{
    let (name, past) = name_at(alloc, message, offset)?;
    // After the name are ten octets, since the caller has read them.
    prove!(past + 10 <= message.len());
    let rtype = read_u16(message, past);
    let count = read_u16(message, past + 8) as usize;
    let record = Record {
        name,
        rtype,
        class: read_u16(message, past + 2),
        ttl: read_u32(message, past + 4),
        rdata: rdata_of(alloc, message, past + 10, count, rtype)?,
    };
    Ok((record, past + 10 + count))
}

/// The `count` records in a row at a place of a message, and where they end. The caller has read
/// them once.
pub(crate) fn records_of<A: Allocator + Copy>(
    alloc: A,
    message: &[u8],
    offset: usize,
    count: u16,
) -> Result<(Vec<Record<A>, A>, usize), AllocError>
    requires short { length message.now ≤ LONGEST_MESSAGE }
    requires found { HasRecords message.now offset count }
    ensures found { IfOk result (λ r. RecordsAt message.now offset r.0.items r.1) }
    ensures counted { IfOk result (λ r. length r.0.items ≡ count) }
{
    let mut records = Vec::with_capacity(alloc, usize::from(count))?;
    let mut at = offset;
    for _ in 0..count {
        let (record, end) = record_at(alloc, message, at)?;
        records.push(record)?;
        at = end;
    }
    Ok((records, at))
}
