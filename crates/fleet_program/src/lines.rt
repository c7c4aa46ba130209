//! The lines that a reader gives.

ghost use Rattle.std.specs.Prelude.{◌≡◌, ◌<◌, ◌≤◌, length, vec_len, IfOk};
ghost use Rattle.fleet_program.specs.declared.lines.TheConstants.{CHUNK, LONGEST};

use crate::calls::Calls;
use crate::fault::LineFault;
use std::alloc::Allocator;
use std::io::{ErrorKind, Read};

/// How many octets a line of a script has at most, its LF left out.
pub const LONGEST: usize = 65536;

/// How often a reader is called at most; the clause of `Lines::new` has the number itself.
const MOST_CALLS: u32 = u32::MAX;

// Lets through: another number, which shows as time and memory alone.
/// How many octets are asked of a reader at once.
const CHUNK: usize = 4096;

/// The lines of a reader that is called at most 4294967295 times. It is called once for each piece that
/// it gives, of `CHUNK` octets at most, and once more after the end: that is read off the code, and no
/// clause says it.
#[derive(Drop)]
pub struct Lines<'a, R> {
    calls: Calls<'a, R>,
    chunk: [u8; CHUNK],
    start: usize,
    end: usize,
    ghost ordered: { start ≤ end },
    ghost in_chunk: { end ≤ CHUNK },
}

impl<'a, R: Read> Lines<'a, R> {
    /// Makes the lines of a reader, before the first is read.
    pub fn new(reader: &'a mut R) -> Lines<'a, R>
        ensures { result.calls.left ≡ 4294967295 }
    {
        Lines {
            calls: Calls::new(reader, MOST_CALLS),
            chunk: [0; CHUNK],
            start: 0,
            end: 0,
        }
    }

    /// Reads the next line, without its LF, and says whether there is one. The last may lack its LF.
    pub fn read<A: Allocator>(&mut self, line: &mut Vec<u8, A>) -> Result<bool, LineFault> {
        line.clear();
        loop {
            if self.read_piece(line)? {
                return Ok(true);
            }
            if !self.fill()? {
                return Ok(!line.is_empty());
            }
        }
    }

    // Lets through: other octets in a line, and lines that end elsewhere: the clauses speak of lengths
    // and of calls. The worked examples see it, at once and octet by octet (`tests/run`:
    // `test_examples`, `test_script_streams`).
    /// Adds what is at hand up to the next LF to a line, and says whether there is an LF.
    fn read_piece<A: Allocator>(&mut self, line: &mut Vec<u8, A>) -> Result<bool, LineFault>
        requires { vec_len line.old ≤ LONGEST }
        ensures calls { self.new.calls.left ≡ self.old.calls.left }
        ensures short { vec_len line.new ≤ LONGEST }
    {
        let rest = &self.chunk[self.start..self.end];
        let (taken, ended) = add_piece(rest, line)?;
        self.start += taken;
        Ok(ended)
    }

    // Lets through: an end of the input before its end, or octets that are asked for again. The worked
    // examples see it, as those of `read_piece`.
    /// Asks the reader for the next octets, and says whether there are any. An interrupted call is made
    /// again.
    fn fill(&mut self) -> Result<bool, LineFault>
        ensures { IfOk result (λ _. self.new.calls.left < self.old.calls.left) }
    {
        self.start = 0;
        self.end = 0;
        while self.calls.left() > 0 {
            match self.calls.read(&mut self.chunk) {
                Ok(count) => {
                    self.end = count;
                    return Ok(count > 0);
                }
                Err(error) => {
                    if error.kind() != ErrorKind::Interrupted {
                        return Err(LineFault::Read);
                    }
                }
            }
        }
        Err(LineFault::Read)
    }
}

// Lets through: other octets in a line, or fewer, as `read_piece` has it.
/// Adds the octets before the first LF to a line. Says how many octets this was, with the LF, and
/// whether there is one.
fn add_piece<A: Allocator>(rest: &[u8], line: &mut Vec<u8, A>) -> Result<(usize, bool), LineFault>
    requires { vec_len line.old ≤ LONGEST }
    ensures within { IfOk result (λ taken. taken.0 ≤ length rest.now) }
    ensures short { vec_len line.new ≤ LONGEST }
{
    let found = rest.iter().position(|octet| *octet == b'\n');
    let piece = match found {
        Some(at) => &rest[..at],
        None => rest,
    };
    if piece.len() > LONGEST - line.len() {
        return Err(LineFault::LineTooLong);
    }
    line.extend_from_slice(piece)?;
    match found {
        Some(at) => Ok((at + 1, true)),
        None => Ok((rest.len(), false)),
    }
}
