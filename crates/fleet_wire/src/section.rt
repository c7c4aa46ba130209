//! Sections of a reply that is to be written.

ghost use Rattle.std.specs.Prelude.{◌≡◌, ◌≤◌, [], ◌∷◌, ◌++◌, length, OnOk, OnErr};
ghost use Rattle.fleet_name.specs.Name.{IsName};
ghost use Rattle.fleet_wire.specs.Outline.{line};
ghost use Rattle.fleet_wire.specs.steps.LentRecord.{record_of_lent, records_of_lent};
ghost use Rattle.fleet_wire.specs.declared.bounds.TheConstants.{LONGEST_MESSAGE};

use crate::lent_record::LentRecord;
use arrayvec::ArrayVec;
use fleet_name::Name;
use std::alloc::{AllocError, Allocator};
use std::marker::Model;

/// The lines of a section, in order. The first four lie in the value itself, so a section of at
/// most four lines allocates nothing. It is no `SmallVec`, whose size depends on the allocator's.
#[derive(Drop)]
pub(crate) struct Section<'a, A: Allocator> {
    first: ArrayVec<LentRecord<'a>, 4>,
    more: Vec<LentRecord<'a>, A>,
}

impl<'a, A: Allocator> Model for Section<'a, A> {
    ghost use Rattle.std.specs.Prelude.{List, ◌++◌};
    ghost use Rattle.fleet_wire.specs.Record.{RecordData};
    ghost use Rattle.fleet_wire.specs.steps.LentRecord.{records_of_lent};

    ghost Value = { List RecordData };

    ghost view = { λ s. records_of_lent s.first.items ++ records_of_lent s.more.items };
}

impl<'a, A: Allocator> Section<'a, A> {
    /// A section without lines.
    pub(crate) fn new(alloc: A) -> Section<'a, A>
        ensures { result ≡ [] }
    {
        Section {
            first: ArrayVec::new(),
            more: Vec::new(alloc),
        }
    }

    /// Adds a line at the end. `Err` where an allocation fails; the section is then as it was.
    pub(crate) fn push(&mut self, line: LentRecord<'a>) -> Result<(), AllocError>
        ensures ok { OnOk result (self.new ≡ self.old ++ record_of_lent line.entry ∷ []) }
        ensures err { OnErr result (self.new ≡ self.old) }
    {
        if self.more.is_empty() && !self.first.is_full() {
            self.first.push(line);
            return Ok(());
        }
        self.more.push(line)?;
        Ok(())
    }

    /// The number of lines.
    pub(crate) fn len(&self) -> usize
        requires { length self.now ≤ LONGEST_MESSAGE }
        ensures { result ≡ length self.now }
    {
        self.first.len() + self.more.len()
    }

    /// The first four lines, and those on the heap.
    pub(crate) fn parts(&self) -> (&[LentRecord], &[LentRecord])
        ensures { records_of_lent result.0.now ++ records_of_lent result.1.now ≡ self.now }
    {
        (self.first.as_slice(), &self.more)
    }
}

/// A line of these values.
pub(crate) fn line_of<'a, A: Allocator>(
    name: &'a Name<A>,
    rtype: u16,
    ttl: u32,
    rdata: &'a [u8],
) -> LentRecord<'a>
    ensures line { record_of_lent result ≡ line name.entry.now rtype ttl rdata.entry.now }
    ensures named { IsName name.entry.now }
{
    LentRecord {
        owner: name.octets(),
        rtype,
        ttl,
        rdata,
    }
}
