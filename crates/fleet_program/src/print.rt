//! What a line prints. But for the words of kinds no clause speaks of it.

ghost use Rattle.std.specs.Prelude.{◌≡◌};
ghost use Rattle.fleet_program.specs.Kinds.{kind_word};

use fleet_name::Octets;
use fleet_observe::{Kind, Observation};
use fleet_pending::Addr;
use fleet_site::{Looked, Packet, Refusal, Site};
use fleet_world::{Event, Stepped, World};
use std::alloc::{AllocError, Allocator};
use std::fmt;
use std::net::Ipv4Addr;

/// An address as a text: its host and its port.
#[derive(Clone, Copy)]
pub struct AddrText(pub Addr);

impl fmt::Display for AddrText {
    fn fmt<W: fmt::Write>(&self, f: &mut fmt::Formatter<W>) -> fmt::Result {
        let Addr { host, port } = self.0;
        let host = Ipv4Addr::from_bits(host);
        write!(f, "{host}:{port}")
    }
}

/// Prints octets in hexadecimal digits, `-` for none, and the end of the line.
fn print_octets<A: Allocator + Copy>(out: &mut String<A>, octets: &[u8]) -> Result<(), AllocError> {
    if octets.is_empty() {
        return out.push_str("-\n");
    }
    let text = hex::encode(*out.allocator(), octets)?;
    out.push_str(text.as_str())?;
    out.push_str("\n")
}

// Lets through: any text, since it has no clause; so have the other functions here but `kind_text`. The
// worked examples of `tests/run` compare what a script prints.
/// Prints what a site answers to a question.
pub fn print_looked<A: Allocator + Copy>(
    out: &mut String<A>,
    looked: &Looked<A>,
) -> Result<(), AllocError> {
    match looked {
        Looked::Reply(octets) => {
            out.push_str("reply ")?;
            print_octets(out, octets.as_slice())
        }
        Looked::Miss => out.push_str("miss\n"),
        Looked::Dropped => out.push_str("dropped\n"),
    }
}

/// Prints whether two sites hold the same.
pub fn print_same<A: Allocator>(out: &mut String<A>, same: bool) -> Result<(), AllocError> {
    if same {
        out.push_str("same\n")
    } else {
        out.push_str("different\n")
    }
}

/// The word for a kind.
fn kind_text(kind: Kind) -> &'static str
    ensures { result.now ≡ kind_word kind }
{
    match kind {
        Kind::Positive => "positive",
        Kind::NoData => "nodata",
        Kind::NameError => "nxdomain",
        Kind::Flush => "flush",
    }
}

/// Prints one item of a site.
fn print_item<A: Allocator + Copy>(
    out: &mut String<A>,
    item: &Observation<A>,
) -> Result<(), AllocError> {
    let kind = kind_text(item.kind());
    let rank = item.rank();
    let stamp = item.stamp().value();
    let life = item.life();
    let name = item.name().write_text(*out.allocator())?;
    let rtype = item.rtype();
    write!(out, "{kind} {rank} {stamp} {life} {name} {rtype} ")?;
    let body = item.write_body(*out.allocator())?;
    print_octets(out, &body)
}

/// Prints the floor and the items of a site.
pub fn print_site<A: Allocator + Copy>(
    out: &mut String<A>,
    site: &Site<A>,
) -> Result<(), AllocError> {
    let floor = site.cache().floor().value();
    writeln!(out, "floor {floor}")?;
    let mut count = 0usize;
    for item in site.cache().items() {
        print_item(out, item)?;
        count = count.saturating_add(1);
    }
    writeln!(out, "items {count}")
}

/// Prints a datagram that goes out.
fn print_packet<A: Allocator + Copy>(
    out: &mut String<A>,
    packet: &Packet<A>,
) -> Result<(), AllocError> {
    let to = AddrText(packet.to);
    write!(out, "send {to} ")?;
    print_octets(out, packet.bytes.as_slice())
}

/// Prints the frames of these numbers.
fn print_frames<A: Allocator + Copy>(
    out: &mut String<A>,
    world: &World<A>,
    numbers: &[usize],
) -> Result<(), AllocError> {
    for number in numbers {
        if let Some(frame) = world.frame(*number) {
            write!(out, "frame {number} ")?;
            print_octets(out, frame)?;
        }
    }
    Ok(())
}

/// Prints why nothing more was done.
fn print_refusal<A: Allocator>(out: &mut String<A>, refusal: Refusal) -> Result<(), AllocError> {
    match refusal {
        Refusal::Unmatched => writeln!(out, "refused unmatched"),
        Refusal::Read(fault) => writeln!(out, "refused read {fault:?}"),
        Refusal::Digest(fault) => writeln!(out, "refused digest {fault:?}"),
        Refusal::Frame(fault) => writeln!(out, "refused frame {fault:?}"),
        Refusal::Full => writeln!(out, "refused full"),
        Refusal::Dropped => writeln!(out, "refused dropped"),
    }
}

/// Prints how an event ended: the line after its packets and its frames.
fn print_end<A: Allocator>(
    out: &mut String<A>,
    event: &Event<A>,
    stepped: &Stepped<A>,
) -> Result<(), AllocError> {
    let taken = stepped.taken;
    match event {
        Event::Tick { .. } => out.push_str(if stepped.more { "more\n" } else { "idle\n" }),
        Event::Sweep { .. } => {
            let count = stepped.frames.as_slice().len();
            writeln!(out, "swept {count}")
        }
        Event::Merge { .. } => writeln!(out, "merged {taken}"),
        Event::Restart { .. } => out.push_str("restarted\n"),
        _ => match stepped.refused {
            Some(refusal) => print_refusal(out, refusal),
            None => writeln!(out, "taken {taken}"),
        },
    }
}

/// Prints what an event did: the packets, the frames, and how it ended.
pub fn print_stepped<A: Allocator + Copy>(
    out: &mut String<A>,
    world: &World<A>,
    event: &Event<A>,
    stepped: &Stepped<A>,
) -> Result<(), AllocError> {
    for packet in stepped.packets.as_slice() {
        print_packet(out, packet)?;
    }
    print_frames(out, world, stepped.frames.as_slice())?;
    print_end(out, event, stepped)
}
