//! Reading octets from the front.

ghost use Rattle.std.specs.Prelude.{◌≡◌, ℕ, ◌+◌, ◌<◌, ◌++◌, [], ◌↔◌, MatchResult, IsTrue};
ghost use Rattle.fleet_wire.specs.Number.{u16_octets, u32_octets};
ghost use Rattle.fleet_gossip.specs.Entry.{octet, u64_octets};
ghost use Rattle.fleet_gossip.specs.steps.Reading.{AreMissing, IsSplitAfter};

use crate::fault::FrameFault;
use std::marker::Model;

/// The octets that are left to read. Contracts see them as their list.
#[derive(Drop)]
pub(crate) struct Reader<'a> {
    rest: &'a [u8],
}

impl<'a> Model for Reader<'a> {
    ghost use Rattle.std.specs.Prelude.{ℕ, List};

    ghost Value = { List ℕ };

    ghost view = { λ r. r.rest.now };
}

impl<'a> Reader<'a> {
    /// A reader of all of the octets.
    pub fn new(octets: &'a [u8]) -> Reader<'a>
        ensures { result ≡ octets.now }
    {
        Reader { rest: octets }
    }

    /// The octets that are left.
    pub fn rest(&self) -> &'a [u8]
        ensures { result.now ≡ self.now }
    {
        self.rest
    }

    /// Whether none is left.
    pub fn is_empty(&self) -> bool
        ensures { IsTrue result ↔ (self.now ≡ []) }
    {
        self.rest.is_empty()
    }

    /// Reads `count` octets; `Truncated` where fewer are left.
    pub fn take(&mut self, count: usize) -> Result<&'a [u8], FrameFault>
        ensures { MatchResult result (λ r. IsSplitAfter self.old count r.now self.new)
            (AreMissing count self.old) }
    {
        if self.rest.len() < count {
            return Err(FrameFault::Truncated);
        }
        let (taken, rest) = self.rest.split_at(count);
        self.rest = rest;
        Ok(taken)
    }

    /// Reads a number of one octet, else `Truncated`.
    pub fn read_u8(&mut self) -> Result<u8, FrameFault>
        ensures { MatchResult result (λ n. self.old ≡ octet n ++ self.new) (AreMissing 1 self.old) }
    {
        let number = self.take(1)?;
        Ok(number[0])
    }

    /// Reads a number of two octets, the high one first, else `Truncated`.
    pub fn read_u16(&mut self) -> Result<u16, FrameFault>
        ensures { MatchResult result (λ n. self.old ≡ u16_octets n ++ self.new)
            (AreMissing 2 self.old) }
    {
        let number = self.take(2)?;
        Ok(u16::from_be_bytes([number[0], number[1]]))
    }

    /// Reads a number of four octets, the high one first, else `Truncated`.
    pub fn read_u32(&mut self) -> Result<u32, FrameFault>
        ensures { MatchResult result (λ n. self.old ≡ u32_octets n ++ self.new)
            (AreMissing 4 self.old) }
    {
        let number = self.take(4)?;
        Ok(u32::from_be_bytes([number[0], number[1], number[2], number[3]]))
    }

    /// Reads a number of eight octets, the high one first, else `Truncated`.
    pub fn read_u64(&mut self) -> Result<u64, FrameFault>
        ensures { MatchResult result (λ n. self.old ≡ u64_octets n ++ self.new)
            (AreMissing 8 self.old) }
    {
        let high = self.read_u32()?;
        let low = self.read_u32()?;
        Ok(u64::from(high) * 4294967296 + u64::from(low))
    }
}
