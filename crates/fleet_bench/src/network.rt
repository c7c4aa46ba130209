//! A port behind which clients ask and upstreams answer.

ghost use Rattle.std.specs.Prelude.{◌≡◌, ◌≤◌, [], ◌∷◌, length, None, IfOk, IfSome};
ghost use Rattle.fleet_site.specs.server.PortRecord.{NotesAll, receive_of, send_of, failures_after};

use crate::digest::add_datagram;
use crate::noise::{chance, popular};
use crate::serving::Traffic;
use crate::zone::Zone;
use fleet_observe::Moment;
use fleet_pending::Addr;
use fleet_site::{Clock, Port, PortFault};
use rand_core::utils::NextWord;
use rand_pcg::Pcg32;
use std::alloc::{AllocError, Global};
use std::collections::VecDeque;

/// Most messages have no more octets.
const SLOT: usize = 96;

/// How many ids there are.
const IDS: usize = 65_536;

/// The first moment.
const START: u64 = 1_000_000;

/// The host of the two upstreams, whose ports are 53 and 54.
pub const UPSTREAM: u32 = 0xc000_0201;

/// The upstream that is asked first.
pub const FIRST: Addr = Addr {
    host: UPSTREAM,
    port: 53,
};

/// The upstream that is asked where the first gave no reply.
pub const SECOND: Addr = Addr {
    host: UPSTREAM,
    port: 54,
};

/// A question's octets.
#[derive(Clone, Copy)]
struct Slot {
    octets: [u8; SLOT],
    len: usize,
}

/// A reply that is on its way.
#[derive(Clone, Copy)]
struct Owed {
    turn: u32,
    from: Addr,
    id: u16,
    number: u32,
}

/// Clients and upstreams.
#[derive(Drop)]
pub struct Network {
    zone: Zone,
    traffic: Traffic,
    words: Pcg32,
    slots: Vec<Slot>,
    owed: VecDeque<Owed>,
    /// The number of the name that the query with an id asks for.
    asked: Vec<u32>,
    /// The number of the name that was asked for last.
    last: u32,
    turn: u32,
    /// The message that was written last.
    message: Vec<u8>,
    /// The digest of all that was sent.
    pub digest: u64,
}

/// The moment that is `seconds` after the first.
pub fn moment_after(seconds: u32) -> Moment {
    Moment::new(START + u64::from(seconds)).unwrap()
}

/// Turns letters of a question's name to capitals, by the bits of a word.
fn spell(buffer: &mut [u8], word: u32) {
    let mut bits = word;
    for octet in buffer.iter_mut().skip(12).take(32) {
        if octet.is_ascii_lowercase() && bits % 2 == 1 {
            *octet = octet.to_ascii_uppercase();
        }
        bits /= 2;
    }
}

/// Copies octets to a buffer, and gives how many.
fn copy(octets: &[u8], buffer: &mut [u8]) -> usize
    ensures { result ≤ length buffer.old }
{
    let len = octets.len().min(buffer.len());
    buffer[..len].copy_from_slice(&octets[..len]);
    len
}

/// The id of a message.
fn id_of(octets: &[u8]) -> u16 {
    match octets.split_first_chunk::<2>() {
        Some((id, _)) => u16::from_be_bytes(*id),
        None => 0,
    }
}

impl Network {
    /// One of this seed, with such traffic, before the questions for its names are written.
    pub fn new(alloc: Global, traffic: &Traffic, seed: u32) -> Network {
        Network {
            zone: Zone {
                seed,
                depth: traffic.depth,
                chain: traffic.chain,
                long: 0,
            },
            traffic: *traffic,
            words: Pcg32::new(u64::from(seed), 54),
            slots: Vec::new(alloc),
            owed: VecDeque::new(alloc),
            asked: Vec::new(alloc),
            last: 0,
            turn: 0,
            message: Vec::new(alloc),
            digest: 0,
        }
    }

    /// Writes the questions for its names.
    pub fn prepare(&mut self) -> Result<(), AllocError> {
        self.asked.resize(IDS, 0)?;
        for number in 0..self.traffic.names {
            self.zone.question(&mut self.message, number, 0)?;
            let mut octets = [0; SLOT];
            let len = copy(&self.message, &mut octets);
            self.slots.push(Slot { octets, len })?;
        }
        Ok(())
    }

    /// The reply that is due, if one is.
    fn due(&mut self) -> Option<Owed> {
        match self.owed.front() {
            Some(owed) if owed.turn <= self.turn => self.owed.pop_front(),
            _ => None,
        }
    }

    /// Writes the next question to the buffer: its length, 0 where there is no memory.
    fn ask(&mut self, buffer: &mut [u8]) -> usize
        ensures { result ≤ length buffer.old }
    {
        let id = (self.words.next_word() % 65_536) as u16;
        let fresh = chance(&mut self.words, self.traffic.fresh);
        let number = popular(&mut self.words, self.traffic.names);
        let len = match self.slots.get(number as usize) {
            Some(slot) if !fresh => {
                self.last = number;
                copy(&slot.octets[..slot.len.min(SLOT)], buffer)
            }
            _ => {
                self.last = self.traffic.names.wrapping_add(self.turn);
                match self.zone.question(&mut self.message, self.last, 0) {
                    Ok(()) => copy(&self.message, buffer),
                    Err(_) => 0,
                }
            }
        };
        if let Some(first) = buffer.first_chunk_mut::<2>() {
            *first = id.to_be_bytes();
        }
        if chance(&mut self.words, self.traffic.spelled) {
            spell(buffer, self.words.next_word());
        }
        len
    }

    /// Keeps a query until its reply is due, unless it is lost.
    fn owe(&mut self, to: Addr, id: u16) {
        let is_first = to == FIRST;
        if let Some(number) = self.asked.get_mut(id as usize) {
            if is_first {
                *number = self.last;
            }
            let owed = Owed {
                turn: self.turn.wrapping_add(self.traffic.delay),
                from: to,
                id,
                number: *number,
            };
            if !is_first || !chance(&mut self.words, self.traffic.lost) {
                let _ = self.owed.push_back(owed);
            }
        }
    }
}

impl Port for Network {
    ghost state = { λ _. record { noted = None; failed = 0 } };

    fn recv(&mut self, buffer: &mut [u8]) -> Result<Option<(Addr, usize)>, PortFault>
        ensures within { IfOk result (λ got. IfSome got (λ p. p.1 ≤ length buffer.old)) }
        ensures noted { NotesAll None (receive_of (length buffer.old) result buffer.new ∷ []) None }
        ensures failed { 0 ≡ failures_after result 0 }
    {
        self.turn = self.turn.wrapping_add(1);
        if let Some(owed) = self.due() {
            let len = match self.zone.reply(&mut self.message, owed.number, owed.id) {
                Ok(()) => copy(&self.message, buffer),
                Err(_) => 0,
            };
            return Ok(Some((owed.from, len)));
        }
        let len = self.ask(buffer);
        let client = Addr {
            host: 0x0a00_0000 + self.words.next_word() % 4_096,
            port: 1_024,
        };
        Ok(Some((client, len)))
    }

    fn send(&mut self, to: Addr, bytes: &[u8]) -> Result<(), PortFault>
        ensures noted { NotesAll None
            (send_of result (record { to = to; octets = bytes.now }) ∷ []) None }
        ensures failed { 0 ≡ failures_after result 0 }
    {
        add_datagram(&mut self.digest, to, bytes);
        if to.host == UPSTREAM {
            self.owe(to, id_of(bytes));
        }
        Ok(())
    }

    fn failures(&self) -> u64 {
        0
    }
}

/// A clock by turns.
#[derive(Drop)]
pub struct Turns {
    /// How many turns a second has.
    pub per_second: u32,
    /// How many turns there were.
    pub turn: u32,
}

impl Clock for Turns {
    ghost moments = { λ _. None };

    fn now(&mut self) -> Moment {
        self.turn = self.turn.wrapping_add(1);
        moment_after(self.turn / self.per_second.max(1))
    }
}
