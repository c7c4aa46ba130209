//! The lines of a script, one after the other.

ghost use Rattle.std.specs.Prelude.{◌<◌, IfErr};

use crate::command::{Command, EventLine, read_command};
use crate::fault::{LineFault, ScriptFault};
use crate::fleet::Fleet;
use crate::lines::Lines;
use crate::print::{print_looked, print_same, print_site, print_stepped};
use crate::words::Hex;
use fleet_observe::Moment;
use std::alloc::Allocator;
use std::io::{self, Read, Write};
use std::str;

/// The fleet that lines speak of, and what the line at hand prints.
#[derive(Drop)]
struct Script<A: Allocator> {
    alloc: A,
    fleet: Fleet<A>,
    out: String<A>,
}

impl<A: Allocator + Copy> Script<A> {
    /// No line was run.
    fn new(alloc: A) -> Script<A> {
        Script {
            alloc,
            fleet: Fleet::new(alloc),
            out: String::new(alloc),
        }
    }

    /// Does what a line asks for, and makes what it prints: all of it before any is written, so that a
    /// line at fault prints nothing.
    fn run_line(&mut self, line: &[u8]) -> Result<(), LineFault> {
        self.out.clear();
        match command_of(line)? {
            Some(command) => self.run_command(command),
            None => Ok(()),
        }
    }

    /// Does what a line asks for, and adds what it prints. Sites and frames are checked before memory
    /// is allocated, so that one which is not there is never reported as want of memory.
    fn run_command(&mut self, command: Command<'_>) -> Result<(), LineFault> {
        match command {
            Command::Sites { count } => self.fleet.begin(count),
            Command::Ask {
                site,
                now,
                question,
            } => self.ask(site, now, &question),
            Command::Show { site } => self.show(site),
            Command::Same { one, other } => self.compare(one, other),
            Command::Event(line) => self.run_event(line),
        }
    }

    /// Asks a site a question.
    fn ask(&mut self, site: usize, now: Moment, question: &Hex<'_>) -> Result<(), LineFault> {
        self.fleet.check_site(site)?;
        let world = self.fleet.world()?;
        let question = question.octets(self.alloc)?;
        let looked = world.ask(site, now, question.as_slice())?;
        print_looked(&mut self.out, &looked)?;
        Ok(())
    }

    /// Shows what a site holds.
    fn show(&mut self, site: usize) -> Result<(), LineFault> {
        self.fleet.check_site(site)?;
        let world = self.fleet.world()?;
        match world.site(site) {
            Some(site) => print_site(&mut self.out, site)?,
            None => return Err(LineFault::NoSuchSite),
        }
        Ok(())
    }

    /// Compares two sites.
    fn compare(&mut self, one: usize, other: usize) -> Result<(), LineFault> {
        self.fleet.check_site(usize::max(one, other))?;
        let world = self.fleet.world()?;
        match (world.site(one), world.site(other)) {
            (Some(one), Some(other)) => print_same(&mut self.out, one.cache().same(other.cache()))?,
            _ => return Err(LineFault::NoSuchSite),
        }
        Ok(())
    }

    /// Lets something happen in the world.
    fn run_event(&mut self, line: EventLine<'_>) -> Result<(), LineFault> {
        self.fleet.check_site(line.site())?;
        if let Some(frame) = line.frame() {
            self.fleet.check_frame(frame)?;
        }
        let world = self.fleet.world()?;
        let event = line.event(self.alloc)?;
        let stepped = world.step(&event)?;
        print_stepped(&mut self.out, world, &event, &stepped)?;
        Ok(())
    }
}

/// What a line asks for, if anything: an empty line and one that begins with `#` ask for nothing.
fn command_of(line: &[u8]) -> Result<Option<Command<'_>>, LineFault> {
    let line = match str::from_utf8(line) {
        Ok(text) => text,
        Err(_) => return Err(LineFault::NotAscii),
    };
    if !line.is_ascii() {
        return Err(LineFault::NotAscii);
    }
    if line.is_empty() || line.starts_with('#') {
        return Ok(None);
    }
    let command = read_command(line)?;
    Ok(Some(command))
}

/// Reads and runs one line, and writes what it prints; false where there is no line. What it prints is
/// made whole first, so want of memory is reported before a failed write, and then nothing is printed.
fn run_next<A: Allocator + Copy, R: Read, W: Write>(
    lines: &mut Lines<'_, R>,
    line: &mut Vec<u8, A>,
    script: &mut Script<A>,
    writer: &mut W,
) -> Result<bool, LineFault> {
    if !lines.read(line)? {
        return Ok(false);
    }
    script.run_line(line)?;
    match write_text(writer, script.out.as_str()) {
        Ok(()) => Ok(true),
        Err(_) => Err(LineFault::Write),
    }
}

/// Writes a text, if there is any.
fn write_text<W: Write>(writer: &mut W, text: &str) -> io::Result<()> {
    if text.is_empty() {
        return Ok(());
    }
    writer.write_all(text.as_bytes())?;
    writer.flush()
}

// Lets through: a fault at any line, and any output: the clause says that lines are counted from 1. The
// worked examples and each fault of a line see it (`tests/run`: `test_examples`, `test_script_faults`),
// with each call for memory refused in turn (`a_script_ends_where_a_call_is_refused`).
/// Runs the lines of a reader on a new fleet, and writes what each prints before the next is read.
///
/// The first line at fault ends it, and the fault names the line; what earlier lines printed is written
/// then. The reader is called at most 4294967295 times, and what comes after that ends as on a fault of
/// the reader. So it ends for every input, provided that each call of the reader, the writer and the
/// allocator returns. An interrupted call of the reader is made again.
pub fn run_script<A: Allocator + Copy, R: Read, W: Write>(
    alloc: A,
    reader: &mut R,
    writer: &mut W,
) -> Result<(), ScriptFault>
    ensures { IfErr result (λ fault. 0 < fault.line) }
{
    let mut lines = Lines::new(reader);
    let mut line = Vec::new(alloc);
    let mut script = Script::new(alloc);
    for number in 1..u64::MAX {
        match run_next(&mut lines, &mut line, &mut script, writer) {
            Ok(true) => {}
            Ok(false) => return Ok(()),
            Err(what) => return Err(ScriptFault { line: number, what }),
        }
    }
    Err(ScriptFault {
        line: u64::MAX,
        what: LineFault::Read,
    })
}
