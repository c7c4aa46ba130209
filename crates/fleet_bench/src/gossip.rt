//! Sites that gossip.

use crate::digest::{add, add_datagram, add_octets};
use crate::network::moment_after;
use crate::noise::popular;
use crate::refusal::refusal_number;
use crate::serving::config;
use crate::zone::Zone;
use fleet_name::{Name, Octets};
use fleet_observe::Moment;
use fleet_site::Looked;
use fleet_wire::{Question, read_query};
use fleet_world::{Event, Stepped, World};
use rand_core::utils::NextWord;
use rand_pcg::Pcg32;
use std::alloc::{AllocError, Global};

/// How many sites there are.
const SITES: usize = 3;

/// How often all of them sweep.
const ROUNDS: u32 = 4;

/// Seconds between two sweeps.
pub const EVERY: u32 = 30;

/// What a fleet goes through.
#[derive(Clone, Copy)]
pub struct Plan {
    /// How many domains of a hundred have names of more than 32 octets.
    pub long: u32,
    /// How many of the seconds before a sweep have a tick.
    pub ticks: u32,
    /// How many domains are flushed before a sweep.
    pub flushes: u32,
    /// How many questions each site gets after a sweep.
    pub questions: u32,
}

/// A fleet, and what came out of it.
#[derive(Drop)]
struct Fleet {
    alloc: Global,
    plan: Plan,
    zone: Zone,
    world: World,
    words: Pcg32,
    now: Moment,
    /// The message that was written last.
    message: Vec<u8>,
    /// Sites, and the frames that are on their way to them.
    sent: Vec<(usize, usize)>,
    digest: u64,
}

/// A world of sites that know nothing.
fn world_of(alloc: Global) -> Result<World, AllocError> {
    let mut configs = Vec::new(alloc);
    for _ in 0..SITES {
        configs.push(config(alloc)?)?;
    }
    World::new(alloc, configs)
}

impl Fleet {
    /// One event, with all that it did in the digest. Where `from` names its site, each of its
    /// frames is sent to the others.
    ///
    /// Its fault is want of memory: it names sites and frames that are there.
    fn step(&mut self, event: &Event, from: Option<usize>) -> Result<(), AllocError> {
        match self.world.step(event) {
            Ok(stepped) => {
                self.note(&stepped);
                match from {
                    Some(site) => self.send(site, stepped.frames.as_slice()),
                    None => Ok(()),
                }
            }
            Err(_) => Err(AllocError),
        }
    }

    /// Adds what an event did to the digest.
    fn note(&mut self, stepped: &Stepped) {
        let digest = &mut self.digest;
        add(digest, stepped.taken as u64);
        let refused = match &stepped.refused {
            None => 0,
            Some(refused) => refusal_number(refused),
        };
        add(digest, refused);
        add(digest, u64::from(stepped.more));
        add(digest, stepped.packets.len() as u64);
        for packet in stepped.packets.as_slice() {
            add_datagram(digest, packet.to, packet.bytes.as_slice());
        }
        add(digest, stepped.frames.len() as u64);
        for number in stepped.frames.as_slice() {
            if let Some(octets) = self.world.frame(*number) {
                add_octets(digest, octets);
            }
        }
    }

    /// One of the sites learns the replies for these names.
    fn learn(&mut self, first: u32, count: u32) -> Result<(), AllocError> {
        for place in 0..count {
            let number = first.wrapping_add(place);
            self.zone.reply(&mut self.message, number, 0)?;
            let event = Event::Learn {
                site: self.words.next_word() as usize % SITES,
                now: self.now,
                bytes: Octets::copy_of(self.alloc, &self.message)?,
            };
            self.step(&event, None)?;
        }
        Ok(())
    }

    /// A site sends frames to each of the others.
    fn send(&mut self, site: usize, frames: &[usize]) -> Result<(), AllocError> {
        for number in frames {
            for step in 1..SITES {
                self.sent.push((site.wrapping_add(step) % SITES, *number))?;
            }
        }
        Ok(())
    }

    /// All sites sweep.
    fn sweep(&mut self) -> Result<(), AllocError> {
        for site in 0..SITES {
            self.step(&Event::Sweep { site }, Some(site))?;
        }
        Ok(())
    }

    /// The domain of a name, where no names are deep.
    fn domain(&mut self, number: u32) -> Result<Name, AllocError> {
        let apex = (number / 3).wrapping_mul(3).wrapping_add(2);
        self.zone.question(&mut self.message, apex, 0)?;
        match read_query(self.alloc, &self.message) {
            Ok((_, Question { name, .. })) => Ok(name),
            Err(_) => Err(AllocError),
        }
    }

    /// Domains of some names are flushed.
    fn flush(&mut self, names: u32) -> Result<(), AllocError> {
        for _ in 0..self.plan.flushes {
            let number = popular(&mut self.words, names);
            let site = self.words.next_word() as usize % SITES;
            let event = Event::Flush {
                site,
                now: self.now,
                name: self.domain(number)?,
            };
            self.step(&event, Some(site))?;
        }
        Ok(())
    }

    /// Frames come to sites in any order: some never, some twice.
    fn deliver(&mut self) -> Result<(), AllocError> {
        for _ in 0..u64::MAX {
            if self.sent.is_empty() {
                break;
            }
            let place = self.words.next_word() as usize % self.sent.len();
            let (site, frame) = self.sent.swap_remove(place);
            let chance = self.words.next_word() % 100;
            if chance < 5 {
                continue;
            }
            if chance < 10 {
                self.sent.push((site, frame))?;
            }
            let now = self.now;
            self.step(&Event::Deliver { site, now, frame }, None)?;
        }
        Ok(())
    }

    /// Each site is asked for some names.
    fn ask(&mut self, names: u32) -> Result<(), AllocError> {
        for site in 0..SITES {
            for place in 0..self.plan.questions {
                let number = popular(&mut self.words, names);
                let id = (place % 65_536) as u16;
                self.zone.question(&mut self.message, number, id)?;
                match self.world.ask(site, self.now, &self.message) {
                    Ok(looked) => note_looked(&mut self.digest, &looked),
                    Err(_) => return Err(AllocError),
                }
            }
        }
        Ok(())
    }

    /// Time passes, from so many seconds after the first moment on: what ended is dropped.
    fn tick(&mut self, seconds: u32) -> Result<(), AllocError> {
        for more in 0..self.plan.ticks {
            self.now = moment_after(seconds.saturating_add(more));
            for site in 0..SITES {
                let now = self.now;
                self.step(&Event::Tick { site, now }, None)?;
            }
        }
        Ok(())
    }

    /// Sites learn the replies of `count` names, and then a tenth as many between two sweeps. What
    /// they hold at last is in the frames of one more sweep of each.
    fn run(&mut self, count: u32) -> Result<(), AllocError> {
        self.learn(0, count)?;
        let mut names = count;
        for round in 0..ROUNDS {
            self.tick(EVERY.saturating_mul(round))?;
            self.learn(names, count / 10)?;
            names = names.wrapping_add(count / 10);
            self.flush(names)?;
            self.sweep()?;
            self.deliver()?;
            self.ask(names)?;
        }
        self.sweep()
    }
}

/// Adds what a question gave to a digest.
fn note_looked(digest: &mut u64, looked: &Looked) {
    match looked {
        Looked::Reply(octets) => add_octets(digest, octets.as_slice()),
        Looked::Miss => add(digest, 1),
        Looked::Dropped => add(digest, 2),
    }
}

/// A fleet of this seed goes through a plan: the digest of what came out of it.
pub fn gossip(alloc: Global, plan: &Plan, seed: u32, count: u32) -> Result<u64, AllocError> {
    let mut fleet = Fleet {
        alloc,
        plan: *plan,
        zone: Zone {
            seed,
            depth: 0,
            chain: 2,
            long: plan.long,
        },
        world: world_of(alloc)?,
        words: Pcg32::new(u64::from(seed), 54),
        now: moment_after(0),
        message: Vec::new(alloc),
        sent: Vec::new(alloc),
        digest: 0,
    };
    fleet.run(count)?;
    Ok(fleet.digest)
}
