//! The command `check`: what configurations say, and what is wrong with them.

use crate::fault::fail;
use crate::findings::findings_in;
use crate::options::words;
use crate::print::AddrText;
use crate::serve::read_start;
use crate::settings::{Settings, SettingsFault, read_settings};
use crate::warnings::print_warnings;
use clap::{ArgMatches, Command};
use std::alloc::{AllocError, Global};
use std::io::{self, ErrorKind};
use std::process::ExitCode;
use std::rt::Files;

// Lets through: any text and any status, since it has no clause; so have the other functions here but
// `findings_in`, which they call. Cases of `tests/run` (`test_checks`) see what they print.
/// The words of `check`.
pub fn options<'a>(alloc: Global, command: Command<'a>) -> Result<Command<'a>, AllocError> {
    let help = "A configuration, as `serve --config` reads it";
    command.arg(words(alloc, "files", "FILE", help))
}

/// A file that was read as settings.
#[derive(Drop)]
pub struct Checked<'a> {
    /// Its path, as it was given.
    pub path: &'a str,
    /// What it says.
    pub settings: Settings,
}

/// Checks the configurations of files. Prints what would be served for each that is good, every fault
/// of each that is not, and what is lawful and surely meant otherwise. The status is 1 where there is a
/// fault.
pub fn run_check<'a, R: Files + AllocGlobal, O: Print + Eprint>(
    rt: &R,
    out: &O,
    matches: &ArgMatches<'a>,
) -> io::Result<ExitCode> {
    let mut checked = Vec::new(rt.alloc());
    let mut code = ExitCode::SUCCESS;
    let Some(paths) = matches.get_strs("files") else {
        return Ok(code);
    };
    for path in paths {
        match check_file(rt, out, path)? {
            Some(settings) => checked.push(Checked { path, settings })?,
            None => code = ExitCode::FAILURE,
        }
    }
    for at in 0..checked.len() {
        print_served(out, &checked[at])?;
    }
    print_warnings(out, &checked);
    Ok(code)
}

/// Reads a file, and prints every fault to standard error. `None` where there is one.
fn check_file<R: Files + AllocGlobal, O: Eprint>(
    rt: &R,
    out: &O,
    path: &str,
) -> io::Result<Option<Settings>> {
    let octets = match read_start(rt, rt.alloc(), path) {
        Ok(octets) => octets,
        Err(error) if error.kind() == ErrorKind::OutOfMemory => return Err(error),
        Err(_) => {
            let _ = eprintln!(out; "{path}: not readable");
            return Ok(None);
        }
    };
    match read_settings(rt.alloc(), &octets) {
        Ok(settings) => Ok(Some(settings)),
        Err(SettingsFault::TooLong) => {
            let _ = eprintln!(out; "{path}: too long");
            Ok(None)
        }
        Err(SettingsFault::OutOfMemory) => Err(io::Error::from(AllocError)),
        Err(_) => {
            print_faults(rt.alloc(), out, path, &octets)?;
            Ok(None)
        }
    }
}

/// Prints the faults of octets that are read as no settings.
fn print_faults<O: Eprint>(
    alloc: Global,
    out: &O,
    path: &str,
    octets: &[u8],
) -> Result<(), AllocError> {
    let table = match toml::table_from_slice(alloc, octets) {
        Ok(table) => table,
        Err(error) => {
            let Some(span) = error.span() else {
                return Err(AllocError);
            };
            let line = line_of(octets, span.start);
            let _ = eprintln!(out; "{path}: not TOML: line {line}");
            return Ok(());
        }
    };
    for finding in &findings_in(alloc, &table)? {
        let _ = eprintln!(out; "{path}: {finding}");
    }
    Ok(())
}

/// The line of a place in a text, from 1.
fn line_of(octets: &[u8], place: usize) -> usize {
    let before = octets.iter().take(place);
    before.filter(|octet| **octet == b'\n').count() + 1
}

/// Prints what would be served.
fn print_served<O: Print>(out: &O, checked: &Checked<'_>) -> io::Result<()> {
    let Checked { path, settings } = checked;
    print!(out; "{path}: listen {} upstreams", AddrText(settings.listen))?;
    for addr in settings.config.upstreams() {
        print!(out; " {}", AddrText(*addr))?;
    }
    print!(out; " peers")?;
    if settings.config.peers().is_empty() {
        print!(out; " none")?;
    }
    for addr in settings.config.peers() {
        print!(out; " {}", AddrText(*addr))?;
    }
    println!(out; " sweep {}", settings.sweep)
}
