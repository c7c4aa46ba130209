//! A reader that is called a number of times at most.

ghost use Rattle.std.specs.Prelude.{◌≡◌, ◌+◌, ◌<◌, ◌≤◌, length, IfOk};

use std::io;
use std::io::Read;

/// A reader, and how often it may still be called. A call without one left can't be written.
#[derive(Drop)]
pub struct Calls<'a, R> {
    reader: &'a mut R,
    left: u32,
}

impl<'a, R: Read> Calls<'a, R> {
    /// Makes a reader that may be called this often.
    pub fn new(reader: &'a mut R, left: u32) -> Calls<'a, R>
        ensures { result.left ≡ left }
    {
        Calls { reader, left }
    }

    /// How often a reader may still be called.
    pub fn left(&self) -> u32
        ensures { result ≡ self.now.left }
    {
        self.left
    }

    // Lets through: other octets in the buffer, another count of them, an end or an error at once: no
    // clause speaks of what the reader gave. The worked examples see it (`tests/run`: `test_examples`).
    /// Calls the reader once, and counts the call.
    pub fn read(&mut self, buffer: &mut [u8]) -> io::Result<usize>
        requires { 0 < self.old.left }
        ensures called { self.new.left + 1 ≡ self.old.left }
        ensures within { IfOk result (λ count. count ≤ length buffer.new) }
    {
        self.left -= 1;
        self.reader.read(buffer)
    }
}
