//! A server's turns over the network.

use crate::digest::add;
use crate::network::{FIRST, Network, SECOND, Turns};
use fleet_pending::Addr;
use fleet_site::{Config, Report, Site, serve};
use rand_pcg::Pcg32;
use std::alloc::{AllocError, Global};

/// What clients ask, and how upstreams answer.
#[derive(Clone, Copy)]
pub struct Traffic {
    /// How many names are asked for again and again.
    pub names: u32,
    /// How many questions of a hundred are for a name that was not asked for before.
    pub fresh: u32,
    /// How many questions of a hundred have capital letters.
    pub spelled: u32,
    /// How many queries of a hundred the first upstream loses.
    pub lost: u32,
    /// After how many turns an upstream's reply comes.
    pub delay: u32,
    /// How many turns a second has.
    pub per_second: u32,
    /// The most labels that a name has above the usual ones.
    pub depth: u32,
    /// The most aliases of a name.
    pub chain: u32,
}

/// The two peers.
const PEERS: [Addr; 2] = [
    Addr {
        host: 0x7f00_0001,
        port: 5401,
    },
    Addr {
        host: 0x7f00_0001,
        port: 5402,
    },
];

/// Two upstreams and two peers.
pub fn config(alloc: Global) -> Result<Config, AllocError> {
    let upstreams = Vec::from_slice(alloc, &[FIRST, SECOND])?;
    let peers = Vec::from_slice(alloc, &PEERS)?;
    match Config::new(upstreams, peers) {
        Ok(config) => Ok(config),
        Err(_) => Err(AllocError),
    }
}

/// Serves `turns` turns, and returns the digest of what was sent and counted.
pub fn serve_turns(
    alloc: Global,
    traffic: &Traffic,
    seed: u32,
    turns: u32,
) -> Result<u64, AllocError> {
    let mut network = Network::new(alloc, traffic, seed);
    network.prepare()?;
    let mut site = Site::new(alloc, config(alloc)?);
    let report = serve(
        &mut network,
        &mut Turns {
            per_second: traffic.per_second,
            turn: 0,
        },
        &mut Pcg32::new(u64::from(seed), 55),
        &mut site,
        turns,
        0,
    );
    let mut digest = network.digest;
    let Report {
        received,
        sent,
        refused,
        short,
        ..
    } = report;
    for number in [received, sent, refused, short, site.cache().len() as u64] {
        add(&mut digest, number);
    }
    Ok(digest)
}
