//! The command `withdraw`: a name is flushed at sites, and each is asked whether it still has it.

ghost use Rattle.std.specs.Prelude.{[], ◌∷◌, IfOk};
ghost use Rattle.fleet_observe.specs.Observation.{flush_at};
ghost use Rattle.fleet_gossip.specs.Frame.{WritesFrame};

use crate::asked::{Answer, AskedSite, ask_sites, follow_aliases};
use crate::fault::fail;
use crate::names::{A, name_in, type_in};
use crate::options::{optional, repeated, required, words};
use crate::print::AddrText;
use crate::system_clock::SystemClock;
use crate::udp_port::SystemSocket;
use crate::words::address;
use clap::{ArgMatches, Command};
use fleet_gossip::encode;
use fleet_name::Name;
use fleet_observe::{Moment, Observation};
use fleet_pending::Addr;
use fleet_site::{Clock, Socket};
use fleet_wire::bounds::LONGEST_MESSAGE;
use fleet_wire::rcode::FORMAT_ERROR;
use fleet_wire::read_header;
use std::alloc::{AllocError, Global};
use std::net::Net;
use std::process::ExitCode;
use std::{io, time};
use thiserror::Error;

/// The status with which words end that the command does not take.
const BAD_WORDS: u8 = 2;

/// The status where all is withdrawn, and at some site an alias led to a name that stays.
const ALIAS_STAYS: u8 = 3;

/// How many datagrams are looked at that came to the place of the flush, where peers' frames come too.
const MOST_REFUSALS: u16 = 4096;

// Lets through: other answers and any status, since it has no clause; so have the other functions here but
// `flush_frame`, and those of asked.rt but three, which they need not call. The tested bodies
// `withdraw_asks_with_recursion`, `every_code_is_withdrawn` and `no_alias_is_followed` are such; cases of `tests/run`
// (`test_withdrawals`) see it.
/// The options of `withdraw`.
pub fn options<'a>(alloc: Global, command: Command<'a>) -> Result<Command<'a>, AllocError> {
    let help = "An address that is a peer of the sites, and no upstream";
    let from = required(alloc, "from", "ADDR", help);
    let help = "A site; others may stand before the name";
    let to = repeated(alloc, "to", "ADDR", help);
    let help = "The type that each site is asked for then, A if absent";
    let rtype = optional(alloc, "type", "TYPE", help);
    let help = "The name, as zones write it; `.` withdraws everything";
    let words = words(alloc, "words", "NAME", help);
    command.arg(from)?.arg(to)?.arg(rtype)?.arg(words)
}

/// What the words of `withdraw` say.
#[derive(Drop)]
struct Order {
    /// Whence the flush is sent.
    from: Addr,
    /// Where it is sent to.
    sites: Vec<Addr>,
    /// What is flushed.
    name: Name,
    /// The type that is asked for then.
    rtype: u16,
}

/// Why words are no order.
#[derive(Clone, Copy, Debug, Error)]
enum OrderFault<'a> {
    /// A word is no address.
    #[error("`{0}` is no address")]
    Address(&'a str),
    /// A word is no name.
    #[error("`{0}` is no name")]
    Name(&'a str),
    /// A word is no type.
    #[error("`{0}` is no type")]
    Type(&'a str),
    /// An allocation failed.
    #[error("out of memory")]
    OutOfMemory,
}

impl From<AllocError> for OrderFault<'_> {
    fn from(_error: AllocError) -> Self {
        OrderFault::OutOfMemory
    }
}

/// Reads words as addresses, and adds them to a list.
fn read_sites<'a>(words: &[&'a str], sites: &mut Vec<Addr>) -> Result<(), OrderFault<'a>> {
    for word in words {
        let site = address(word).ok_or(OrderFault::Address(word))?;
        if sites.push(site).is_err() {
            return Err(OrderFault::OutOfMemory);
        }
    }
    Ok(())
}

/// Reads the words that `clap` found; it lets none be absent but the type. The last of those without an
/// option is the name. An address is none, so that the last site is not taken for it.
fn read_order<'a>(alloc: Global, matches: &ArgMatches<'a>) -> Result<Order, OrderFault<'a>> {
    let from = matches.get_str("from").unwrap_or("");
    let from = address(from).ok_or(OrderFault::Address(from))?;
    let mut sites = Vec::new(alloc);
    if let Some(words) = matches.get_strs("to") {
        read_sites(words, &mut sites)?;
    }
    let Some(words) = matches.get_strs("words") else {
        return Err(OrderFault::Name(""));
    };
    let Some((name, others)) = words.split_last() else {
        return Err(OrderFault::Name(""));
    };
    read_sites(others, &mut sites)?;
    if address(name).is_some() {
        return Err(OrderFault::Name(name));
    }
    let name = name_in(alloc, name)?.ok_or(OrderFault::Name(name))?;
    let rtype = match matches.get_str("type") {
        Some(word) => type_in(word).ok_or(OrderFault::Type(word))?,
        None => A,
    };
    Ok(Order {
        from,
        sites,
        name,
        rtype,
    })
}

/// The frame that flushes a name at a moment.
fn flush_frame(alloc: Global, name: &Name, now: Moment) -> Result<Vec<u8>, AllocError>
    ensures { IfOk result (λ frame. WritesFrame frame.items (flush_at name.now now ∷ [])) }
{
    let mut flushes = Vec::with_capacity(alloc, 1)?;
    flushes.push_reserved(Observation::flush(name.try_clone()?, now));
    match encode(alloc, &flushes) {
        Ok(frame) => Ok(frame),
        Err(_) => Err(AllocError),
    }
}

/// Whether a datagram says that the flush is a question that can't be read.
fn is_refusal(datagram: &[u8], flush: &[u8]) -> bool {
    match read_header(datagram) {
        Some(header) => {
            header.response && header.rcode == FORMAT_ERROR && flush.starts_with(&datagram[..2])
        }
        None => false,
    }
}

/// Notes which sites read the flush as a question: they refuse it as one that can't be read, under its
/// first two octets (RFC 1035 4.1.1).
fn receive_refusals<C: time::Clock>(
    place: &mut SystemSocket<'_, C>,
    flush: &[u8],
    sites: &mut [AskedSite],
) {
    if place.set_waiting(false).is_err() {
        return;
    }
    let mut buffer = [0u8; LONGEST_MESSAGE];
    for _ in 0..MOST_REFUSALS {
        let Ok(Some((from, len))) = place.receive(&mut buffer) else {
            return;
        };
        if is_refusal(&buffer[..len], flush) {
            for site in sites.iter_mut() {
                if site.address == from {
                    site.answer = Answer::Untaken;
                }
            }
        }
    }
}

/// Sends the flush to each site. What the system refuses is lost, and shows as an answer that stays.
fn send_flush<C: time::Clock>(place: &mut SystemSocket<'_, C>, sites: &[AskedSite], flush: &[u8]) {
    for site in sites {
        let _ = place.send(site.address, flush);
    }
}

/// The sites of an order, not asked yet.
fn sites_of(alloc: Global, order: &Order) -> Result<Vec<AskedSite>, AllocError> {
    let mut sites = Vec::with_capacity(alloc, order.sites.len())?;
    for address in order.sites.as_slice() {
        sites.push(AskedSite::new(alloc, *address, &order.name)?)?;
    }
    Ok(sites)
}

/// Prints what a site says after the flush of a name.
fn print_site<O: Print>(
    alloc: Global,
    out: &O,
    site: &AskedSite,
    flushed: &Name,
) -> io::Result<()> {
    let address = AddrText(site.address);
    let answer = site.answer;
    match site.alias_that_stays(flushed) {
        Some(last) if answer == Answer::Withdrawn => {
            let last = last.write_text(alloc)?;
            println!(out; "{address} {answer}, an alias of {last}, which stays")
        }
        _ => println!(out; "{address} {answer}"),
    }
}

/// The status that says what became of a name at sites.
fn status_of(sites: &[AskedSite], flushed: &Name) -> ExitCode {
    if !sites.iter().all(|it| it.answer == Answer::Withdrawn) {
        return ExitCode::FAILURE;
    }
    if sites
        .iter()
        .any(|it| it.alias_that_stays(flushed).is_some())
    {
        return ExitCode::from(ALIAS_STAYS);
    }
    ExitCode::SUCCESS
}

/// Withdraws a name at sites, and prints what each of them says then. `None` where an address can't be
/// bound. Where aliases lead is asked before: afterwards the site no longer says it.
fn withdraw<R: time::Clock + Net + AllocGlobal, O: Print>(
    rt: &R,
    out: &O,
    order: &Order,
) -> io::Result<Option<ExitCode>> {
    let alloc = rt.alloc();
    let mut clock = SystemClock::new(rt);
    let id = (clock.now().value() % 65536) as u16;
    let mut sites = sites_of(alloc, order)?;
    let host = order.from.host;
    let (Ok(mut place), Ok(mut asker)) = (
        SystemSocket::bind(rt, rt, order.from),
        SystemSocket::bind(rt, rt, Addr { host, port: 0 }),
    ) else {
        return Ok(None);
    };
    follow_aliases(&mut asker, alloc, id, &order.name, &mut sites)?;
    let flush = flush_frame(alloc, &order.name, clock.now())?;
    send_flush(&mut place, &sites, &flush);
    ask_sites(&mut asker, alloc, id, &order.name, order.rtype, &mut sites)?;
    receive_refusals(&mut place, &flush, &mut sites);
    for site in sites.as_slice() {
        print_site(alloc, out, site, &order.name)?;
    }
    Ok(Some(status_of(&sites, &order.name)))
}

/// Withdraws a name at sites. The status is 0 where each said that it has no answer, 3 where besides a
/// site had an alias at the name that leads to one which stays, and else 1; 2 for words that say no order.
pub fn run_withdraw<R: time::Clock + Net + AllocGlobal, O: Print + Eprint>(
    rt: &R,
    out: &O,
    matches: &ArgMatches<'_>,
) -> io::Result<ExitCode> {
    let order = match read_order(rt.alloc(), matches) {
        Ok(order) => order,
        Err(OrderFault::OutOfMemory) => return Err(io::Error::from(AllocError)),
        Err(fault) => {
            let _ = eprintln!(out; "error: {fault}");
            return Ok(ExitCode::from(BAD_WORDS));
        }
    };
    match withdraw(rt, out, &order)? {
        Some(status) => Ok(status),
        None => Ok(fail(out, "socket")),
    }
}
