//! What the program `dnsfleet` does: its words, the script of a fleet, and a site on a socket.
//!
//! The program calls [`run_program`] alone. Much of what it does is carried by contracts of functions
//! inside this library. That [`run_program`] uses these, with the values that they read, is no
//! contract: tests show that, and what is printed.
#![tactic(auto)]

mod asked;
mod calls;
mod check;
mod command;
mod fault;
mod findings;
mod fleet;
mod help;
mod lines;
mod names;
mod options;
mod print;
mod script;
mod serve;
mod settings;
mod system_clock;
mod tally;
mod udp_port;
mod warnings;
mod watch;
mod withdraw;
mod words;

ghost use Rattle.std.specs.Prelude.{◌≡◌, ◌≢◌, ◌⊎◌, IsOk, IsErr, IfOk, IsOkAnd, IsErrAnd};
ghost use Rattle.std.specs.IoError.{error_kind};
ghost use Rattle.std.specs.Process.{exit_status};
ghost use Rattle.clap.specs.Values.{kind_of};
ghost use Rattle.fleet_program.specs.Usage.{IsPage};
ghost use Rattle.fleet_program.specs.declared.TheConstants.{BAD_WORDS};

use check::run_check;
use clap::error::ErrorKind as Mistake;
use clap::{Command, Error};
use fault::fail;
pub use fault::{LineFault, ScriptFault};
pub use script::run_script;
use serve::{Words, run_server};
pub use settings::{Settings, SettingsFault, read_settings};
use std::alloc::{AllocError, Global};
use std::io::ErrorKind;
use std::net::Net;
use std::process::ExitCode;
use std::rt::{Clock, Files};
use std::{env, io};
pub use system_clock::SystemClock;
pub use udp_port::{SystemSocket, UdpPort, bind_port};
use withdraw::run_withdraw;

/// The status with which words end that the program does not take.
const BAD_WORDS: u8 = 2;

/// The version of the program.
const VERSION: &str = "1.1.0";

// Lets through: another text, since it has no clause. A case of `tests/run` (`test_words`) compares it.
/// What `--version` prints after the program's name: its version, and those of frames.
fn version_text(alloc: Global) -> Result<String, AllocError> {
    let newest = fleet_gossip::VERSION;
    let oldest = fleet_gossip::OLDEST_VERSION;
    format!(in alloc; "{VERSION} (frames: writes {newest}, reads {oldest} and {newest})")
}

// Lets through: other words and texts, since it has no clause. Cases of `tests/run` (`test_words`) show
// which words are taken; of the texts of `clap` nothing is tested.
/// The words that the program takes, with what `--version` prints.
fn program<'a>(alloc: Global, version: &'a str) -> Result<Command<'a>, AllocError> {
    let script = Command::new(alloc, "script")
        .about("Runs a script of a fleet: events from standard input, one a line")
        .after_help(help::SCRIPT);
    let serve = Command::new(alloc, "serve")
        .about("Serves a site on loopback, for a number of turns")
        .after_help(help::SERVE);
    let serve = serve::options(alloc, serve)?;
    let check = Command::new(alloc, "check")
        .about("Says what configurations say, or every fault of theirs")
        .after_help(help::CHECK);
    let check = check::options(alloc, check)?;
    let withdraw = Command::new(alloc, "withdraw")
        .about("Withdraws a name and all below it at sites, and asks whether they still have it")
        .after_help(help::WITHDRAW);
    let withdraw = withdraw::options(alloc, withdraw)?;
    let program = Command::new(alloc, "dnsfleet")
        .about("A fleet of forwarding DNS caches that gossip")
        .version(version)
        .after_help(help::PROGRAM)
        .subcommand_required(true)
        .subcommand(script)?
        .subcommand(serve)?
        .subcommand(check)?
        .subcommand(withdraw)?;
    Ok(program)
}

// Lets through: a page that is not printed, though the status is 0. The tested body
// `failed_help_is_ignored` ignores that printing fails; a case of `tests/run` (`test_words`) sees it.
/// Prints a usage fault to standard error, with status 2, where it may be lost; or a help page or the
/// version to standard output, with status 0. Where memory runs out, or a page can't be printed, that
/// error is returned.
fn explain<R: Print + Eprint>(rt: &R, error: &Error) -> io::Result<ExitCode>
    ensures fault { ¬ IsPage (kind_of error.now) → (kind_of error.now ≢ Mistake.OutOfMemory)
        → IsOkAnd result (λ code. exit_status code ≡ BAD_WORDS) }
    ensures page { IsPage (kind_of error.now) → IfOk result (λ code. code ≡ ExitCode.SUCCESS) }
    ensures memory { kind_of error.now ≡ Mistake.OutOfMemory
        → IsErrAnd result (λ e. error_kind e ≡ ErrorKind.OutOfMemory) }
{
    if error.kind() == Mistake::OutOfMemory {
        return Err(io::Error::from(AllocError));
    }
    if error.use_stderr() {
        let _ = error.print(rt);
        return Ok(ExitCode::from(BAD_WORDS));
    }
    error.print(rt)?;
    Ok(ExitCode::SUCCESS)
}

// Lets through: any text on standard error, and none: its clauses have the status alone. Cases of
// `tests/run` (`test_script_faults`) compare the text of each fault.
/// The status that a script ends with: 0, or 1 where a line is at fault, which standard error reports.
fn end_script<R: Eprint>(rt: &R, ended: Result<(), ScriptFault>) -> ExitCode
    ensures done { IsOk ended → result ≡ ExitCode.SUCCESS }
    ensures fault { IsErr ended → result ≡ ExitCode.FAILURE }
{
    match ended {
        Ok(()) => ExitCode::SUCCESS,
        Err(fault) => fail(rt, fault),
    }
}

/// Runs the lines of standard input.
fn run_input<R: Input + AllocGlobal, O: Print + Eprint>(rt: &R, out: &O) -> ExitCode
    ensures { (result ≡ ExitCode.SUCCESS) ⊎ (result ≡ ExitCode.FAILURE) }
{
    let mut reader = rt.reader();
    let mut writer = io::writer(out);
    end_script(out, run_script(rt.alloc(), &mut reader, &mut writer))
}

/// Does what the words ask for.
fn run<R: Input + Files + Clock + Net + AllocGlobal, O: Print + Eprint>(
    rt: &R,
    out: &O,
    words: &[String],
) -> io::Result<ExitCode> {
    let version = version_text(rt.alloc())?;
    match program(rt.alloc(), version.as_str())?.try_get_matches_from(words) {
        Ok(matches) => match matches.subcommand() {
            Some(("serve", matches)) => run_server(rt, out, Words::of(matches)),
            Some(("check", matches)) => run_check(rt, out, matches),
            Some(("withdraw", matches)) => run_withdraw(rt, out, matches),
            _ => Ok(run_input(rt, out)),
        },
        Err(error) => explain(out, &error),
    }
}

/// Does what the words of the process ask for, if they are UTF-8.
fn run_process(rt: &HostRuntime) -> io::Result<ExitCode> {
    match env::args(rt) {
        Ok(words) => {
            let words: Vec<String> = words.collect(rt.alloc())?;
            run(rt, rt, words.as_slice())
        }
        Err(error) if error.kind() == ErrorKind::InvalidData => {
            let _ = eprintln!(rt; "error: a word is not UTF-8");
            Ok(ExitCode::from(BAD_WORDS))
        }
        Err(error) => Err(error),
    }
}

// Lets through: any text on standard error, and none. The tested bodies `failed_write_as_read` and
// `memory_as_failed_write` print another one; cases of `tests/run` (`test_words`, `test_memory`) see
// them.
/// The status that a run ends with. Where output or an allocation failed, standard error reports
/// it, and the status is 1.
fn end_run<R: Eprint>(rt: &R, ran: io::Result<ExitCode>) -> ExitCode
    ensures done { IfOk ran (λ code. result ≡ code) }
    ensures fault { IsErr ran → result ≡ ExitCode.FAILURE }
{
    match ran {
        Ok(code) => code,
        Err(error) if error.kind() == ErrorKind::OutOfMemory => fail(rt, LineFault::OutOfMemory),
        Err(_) => fail(rt, LineFault::Write),
    }
}

// Lets through: any status and any output, since it has no clause. Cases of `tests/run` alone show what
// it does: they start the program.
/// Does what the words of the process ask for, and returns the status that it ends with: 0, 1 where
/// a line, a configuration, a socket, output or an allocation failed, 2 for words or a key that it
/// does not take.
pub fn run_program(rt: &HostRuntime) -> ExitCode {
    end_run(rt, run_process(rt))
}
