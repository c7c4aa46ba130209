//! The command `serve`: a site on loopback.

ghost use Rattle.std.specs.Prelude.{◌≡◌, ◌⊎◌, [], Ok, IfOk, IsErr, IsOk, IsOkAnd, MatchOption};
ghost use Rattle.std.specs.Process.{exit_status};
ghost use Rattle.fleet_name.specs.Types.{OctetList};
ghost use Rattle.fleet_site.specs.socket.Parts.{data_of};
ghost use Rattle.fleet_program.specs.Key.{SpellsKey};
ghost use Rattle.fleet_program.specs.Serving.{ServesNew};
ghost use Rattle.fleet_program.specs.declared.serve.TheConstants.{BAD_KEY};

use crate::fault::fail;
use crate::options::{optional, required};
use crate::print::AddrText;
use crate::settings::{LONGEST_CONFIGURATION, Settings, SettingsFault, read_settings};
use crate::system_clock::SystemClock;
use crate::tally::Tally;
use crate::udp_port::{SystemSocket, bind_logged};
use crate::watch::{ServerLog, Watch};
use clap::{ArgMatches, Command, value_parser};
use fleet_pending::Addr;
use fleet_site::{
    BurstPort, CallLog, Clock, Config, PortFault, Report, Site, Socket, Unnoted, serve_socket,
};
use rand_chacha::ChaCha20Rng;
use rand_core::SeedableRng;
use std::alloc::{AllocError, Global};
use std::io::{ErrorKind, Read};
use std::net::Net;
use std::process::ExitCode;
use std::rt::Files;
use std::time::Duration;
use std::{fs, io, time};
use thiserror::Error;

/// How many octets a key has.
const KEY_LENGTH: usize = 32;

/// The status with which a bad key ends.
const BAD_KEY: u8 = 2;

/// The words of `serve`, as they were given.
#[derive(Clone, Copy)]
pub struct Words<'a> {
    /// The path of the configuration.
    pub config: &'a str,
    /// The key, in hexadecimal digits.
    pub key: &'a str,
    /// How many turns to serve.
    pub turns: u32,
    /// After how many seconds a line of counts is due, if any is.
    pub report: Option<u32>,
}

impl<'a> Words<'a> {
    // Lets through: another path, key, number of turns or period than those given, since it has no
    // clause. The tested body `words_have_one_turn` has one turn; a case of `tests/run`
    // (`test_configurations`) sees it.
    /// The words that `clap` found; it lets none be absent.
    pub fn of(matches: &ArgMatches<'a>) -> Words<'a> {
        Words {
            config: matches.get_str("config").unwrap_or(""),
            key: matches.get_str("key").unwrap_or(""),
            turns: matches.get_one::<u32>("turns").unwrap_or(1),
            report: matches.get_one::<u32>("report"),
        }
    }
}

// Lets through: other options, ranges and texts, since it has no clause. Cases of `tests/run`
// (`test_words`, `test_reports`) see which words are taken.
/// The options of `serve`.
pub fn options<'a>(alloc: Global, command: Command<'a>) -> Result<Command<'a>, AllocError> {
    let config = required(alloc, "config", "FILE", "The configuration, a TOML file");
    let help = "64 hexadecimal digits, from which the identifiers of queries are drawn";
    let key = required(alloc, "key", "HEX", help);
    let turns = required(
        alloc,
        "turns",
        "N",
        "How many turns to serve, 1 to 4294967295",
    )
    .value_parser(value_parser!(u32).range(1..));
    let help = "Print a line of counts after each so many seconds, 1 to 86400";
    let seconds = value_parser!(u32).range(1..=86400);
    let report = optional(alloc, "report", "SECONDS", help).value_parser(seconds);
    command.arg(config)?.arg(key)?.arg(turns)?.arg(report)
}

/// Why a configuration gave no settings.
#[derive(Clone, Copy, Debug, Error)]
pub enum ConfigurationFault {
    /// The file can't be read.
    #[error("not readable")]
    NotReadable,
    /// What it says is no configuration.
    #[error("{0}")]
    Settings(SettingsFault),
}

/// How a site is served.
#[derive(Clone, Copy)]
pub struct Run {
    /// The key, from which words are drawn.
    key: [u8; KEY_LENGTH],
    /// How many turns to serve.
    turns: u32,
    /// After how many seconds a line of counts is due, if any is.
    report: Option<u32>,
}

/// Why a site was not served to its end.
#[derive(Debug, Drop, Error)]
enum StartFault {
    /// There are no settings, or there is no memory for a copy.
    #[error("config: {0}")]
    Config(ConfigurationFault),
    /// The address can't be bound.
    #[error("socket")]
    Socket,
    /// Output failed.
    #[error("write")]
    Output(io::Error),
}

impl From<AllocError> for StartFault {
    fn from(_error: AllocError) -> StartFault {
        StartFault::Config(ConfigurationFault::Settings(SettingsFault::OutOfMemory))
    }
}

impl From<PortFault> for StartFault {
    fn from(_fault: PortFault) -> StartFault {
        StartFault::Socket
    }
}

impl From<io::Error> for StartFault {
    fn from(error: io::Error) -> StartFault {
        StartFault::Output(error)
    }
}

/// The key that 64 hexadecimal digits of either case spell; no other text spells one.
fn key_of(text: &str) -> Option<[u8; KEY_LENGTH]>
    ensures { MatchOption result ((key : OctetList) → SpellsKey text.now key → ⊥)
        (λ key. SpellsKey text.now key) }
{
    let mut key = [0u8; KEY_LENGTH];
    match hex::decode_to_slice(text, &mut key) {
        Ok(()) => Some(key),
        Err(_) => None,
    }
}

/// The first octets of a file, at most one more than a configuration has.
pub fn read_start<R: Files>(rt: &R, alloc: Global, path: &str) -> io::Result<Vec<u8>> {
    let mut octets = Vec::new(alloc);
    fs::open(rt, path)?
        .take(LONGEST_CONFIGURATION as u64 + 1)
        .read_to_end(&mut octets)?;
    Ok(octets)
}

// Lets through: any settings, also those of another file, and any fault, since neither it nor
// `read_start` has a clause. Cases of `tests/run` (`test_configurations`) see each fault, and what is
// read.
/// What the configuration at a path says. At most one octet more than a configuration has is read of
/// it.
pub fn settings_at<R: Files>(
    rt: &R,
    alloc: Global,
    path: &str,
) -> Result<Settings, ConfigurationFault> {
    match read_start(rt, alloc, path) {
        Ok(octets) => read_settings(alloc, &octets).map_err(ConfigurationFault::Settings),
        Err(error) if error.kind() == ErrorKind::OutOfMemory => Err(ConfigurationFault::Settings(
            SettingsFault::OutOfMemory,
        )),
        Err(_) => Err(ConfigurationFault::NotReadable),
    }
}

// Lets through: any text. The tested body `report_exchanges_counts` exchanges two counts; a case of
// `tests/run` (`test_bursts`) sees it.
/// Prints what a server counted.
pub fn print_report<O: Print>(out: &O, report: &Report) -> io::Result<()> {
    let Report {
        turns,
        received,
        sent,
        lost,
        faults,
        refused,
        short,
    } = *report;
    println!(out;
        "turns {turns} received {received} sent {sent} lost {lost} faults {faults} refused {refused} short {short}"
    )
}

/// Serves a number of turns with these settings, over any socket and clock, with the words of a key,
/// and sends all that waits then: nothing waits to be sent afterwards. The site is new: so clause
/// `sockets` of the laws [`own_replies`](fleet_site::laws::own_replies) and
/// [`questions_answered`](fleet_site::laws::questions_answered) holds of what the socket received and
/// was given to send, where socket and log keep their records.
///
/// The program's own socket and log keep none. Of these clause `run` says by itself only that some run
/// of a new site has this report. But the function is the same over every socket and log, and does not
/// look which it was given. No clause says that the port's peers are those of the settings.
fn serve_new<S: Socket + Drop, L: CallLog + Drop, C: Clock>(
    alloc: Global,
    port: &mut BurstPort<S, L>,
    clock: &mut C,
    settings: Settings,
    key: [u8; KEY_LENGTH],
    turns: u32,
) -> Report
    ensures run { ServesNew (L.noted port.old.log) port.old.bursts.failed (L.noted port.new.log)
        (S.state port.new.bursts.socket).noted (data_of (S.state port.new.bursts.socket) port.new.bursts)
        (C.moments clock.old) key turns settings result }
    ensures sent { port.new.bursts.leaving.waiting ≡ [] }
{
    let mut rng = ChaCha20Rng::from_seed(key);
    let mut site = Site::new(alloc, settings.config);
    serve_socket(port, clock, &mut rng, &mut site, turns, settings.sweep)
}

// Lets through: serving nothing, or with other settings, another key, another number of turns or another
// clock than it is given; any output, and any report: it has no clause. The tested bodies
// `failed_listening_line_is_ignored` and `server_reads_its_clock_once` are such; cases of `tests/run`
// (`test_serve_output`, `test_serving`) see them.
/// Prints where a port listens, and serves a number of turns over it.
fn serve_port<R: time::Clock + AllocGlobal, O: Print, L: CallLog + Drop>(
    rt: &R,
    out: &O,
    port: &mut BurstPort<SystemSocket<'_, R>, L>,
    settings: Settings,
    run: Run,
) -> io::Result<Report> {
    let address = AddrText(port.socket().address());
    println!(out; "listening {address}")?;
    let mut clock = SystemClock::new(rt);
    let report = serve_new(rt.alloc(), port, &mut clock, settings, run.key, run.turns);
    Ok(report)
}

// Lets through: other settings than it is given, another address to bind, any line of counts, and none:
// it has no clause. It also lets through a port with no peers, or with the upstreams in their place. That
// port drops a peer's long frame that comes while a message waits, as it does a stranger's. The tested
// body `port_has_the_upstreams_for_peers` has one. Cases of `tests/run` (`test_bursts`, `test_serving`)
// see it.
/// Serves over a socket of the system. Where a period is given, a line of counts is printed after each
/// so many seconds, and one at the end.
fn serve_site<R: time::Clock + Net + AllocGlobal, O: Print>(
    rt: &R,
    out: &O,
    settings: Settings,
    run: Run,
) -> Result<Report, StartFault> {
    let alloc = rt.alloc();
    let log = log_of(rt, out, &settings.config, run.report)?;
    let peers = copy_of(alloc, settings.config.peers())?;
    let mut port = bind_logged(rt, rt, alloc, settings.listen, peers, log)?;
    let report = serve_port(rt, out, &mut port, settings, run)?;
    port.log().print_last(port.queued());
    Ok(report)
}

// Lets through: a silent log, another period, and other lists of addresses for the tally, such as each in
// place of the other: it has no clause. Cases of `tests/run` (`test_reports`) see when lines come, and
// most of the counts.
/// The log of a server: it watches where a period is given, and is silent else.
fn log_of<'a, R: time::Clock + AllocGlobal, O: Print>(
    rt: &'a R,
    out: &'a O,
    config: &Config,
    every: Option<u32>,
) -> Result<ServerLog<'a, R, O>, AllocError> {
    let Some(every) = every else {
        return Ok(ServerLog::Silent);
    };
    let alloc = rt.alloc();
    let upstreams = copy_of(alloc, config.upstreams())?;
    let tally = Tally::new(upstreams, copy_of(alloc, config.peers())?);
    let every = Duration::from_secs(u64::from(every));
    let watch = Watch::new(Unnoted, tally, rt, out, every);
    Ok(ServerLog::Watched(watch))
}

// Lets through: another list, an empty one too, and failing at each call, since it has no clause. What
// shows is told at `serve_site` and `log_of`.
/// A copy of a list of addresses.
fn copy_of(alloc: Global, addrs: &[Addr]) -> Result<Vec<Addr>, AllocError> {
    Vec::from_slice(alloc, addrs)
}

// Lets through: where there are settings, serving nothing; serving with other settings, another key,
// another number of turns or another period; printing other counts, and printing that always fails. The
// clauses have the status alone. The tested bodies `failed_report_is_ignored` and
// `server_reports_other_counts` are such; cases of `tests/run` (`test_serve_output`, `test_serving`)
// see them.
/// Serves with these settings, if there are any, and prints what was counted. A fault is printed to
/// standard error, and ends with status 1; where output fails, its error is returned.
pub fn serve_settings<R: time::Clock + Net + AllocGlobal, O: Print + Eprint>(
    rt: &R,
    out: &O,
    settings: Result<Settings, ConfigurationFault>,
    run: Run,
) -> io::Result<ExitCode>
    ensures served { IsOk settings
        → IfOk result (λ code. (code ≡ ExitCode.SUCCESS) ⊎ (code ≡ ExitCode.FAILURE)) }
    ensures fault { IsErr settings → result ≡ Ok ExitCode.FAILURE }
{
    let settings = match settings {
        Ok(settings) => settings,
        Err(fault) => return Ok(fail(out, StartFault::Config(fault))),
    };
    match serve_site(rt, out, settings, run) {
        Ok(report) => print_report(out, &report)?,
        Err(StartFault::Output(error)) => return Err(error),
        Err(fault) => return Ok(fail(out, fault)),
    }
    Ok(ExitCode::SUCCESS)
}

// Lets through: the settings of another file, another key, another number of turns or another period
// than the words say, and any text: the clauses have the status alone. The tested body
// `server_serves_one_turn` serves one; a case of `tests/run` (`test_configurations`) sees it.
/// Serves one site as the words say. The key is looked at before the configuration; where it is none,
/// the status is 2. Else it is 0 or 1, and 1 after a fault of the configuration or of the socket.
pub fn run_server<R: Files + time::Clock + Net + AllocGlobal, O: Print + Eprint>(
    rt: &R,
    out: &O,
    words: Words<'_>,
) -> io::Result<ExitCode>
    ensures bad_key { ((key : OctetList) → SpellsKey words.entry.key.now key → ⊥)
        → IsOkAnd result (λ code. exit_status code ≡ BAD_KEY) }
    ensures with_key { (key : OctetList) → SpellsKey words.entry.key.now key
        → IfOk result (λ code. (code ≡ ExitCode.SUCCESS) ⊎ (code ≡ ExitCode.FAILURE)) }
{
    let Words {
        config,
        turns,
        report,
        ..
    } = words;
    match key_of(words.key) {
        Some(key) => {
            let settings = settings_at(rt, rt.alloc(), config);
            serve_settings(rt, out, settings, Run { key, turns, report })
        }
        None => {
            let _ = eprintln!(out; "dnsfleet: key: 64 hexadecimal digits wanted");
            Ok(ExitCode::from(BAD_KEY))
        }
    }
}
