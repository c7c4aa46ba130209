//! The jobs that a fleet is timed by, each over a made-up network: `fleet_bench JOB SEED COUNT`.
//!
//! A job prints a digest of all that came out of it, and no times. A seed (below 2^32) gives a
//! network of its own of the same kind and size; the count says how much is done.
//!
//! - `hits`: a server's turns, COUNT of them: clients ask for some thousand names, most of which it
//!   holds.
//! - `misses`: a server's turns: each question is for a name that was not asked before.
//! - `gossip`: three sites learn the replies of COUNT names, sweep, and take in what the others
//!   sent, some of it late, twice or never.
//! - `mixed`: three sites as in `gossip`, where half of the names have more than 32 octets. Each
//!   second has a tick, some domains are flushed before each sweep, and after it each site is asked
//!   as many questions as COUNT.
//! - `slow`: a server's turns: its first upstream takes long and loses queries, many questions are
//!   open, names are deep, aliases come in chains, and half of the questions have capital letters.
#![tactic(auto)]

mod digest;
mod gossip;
mod message;
mod network;
mod noise;
mod refusal;
mod serving;
mod zone;

use gossip::{EVERY, Plan, gossip};
use serving::{Traffic, serve_turns};
use std::env;

/// Clients that ask again and again for the same names.
const HITS: Traffic = Traffic {
    names: 40_000,
    fresh: 0,
    spelled: 0,
    lost: 0,
    delay: 8,
    per_second: 4_000,
    depth: 0,
    chain: 2,
};

/// Clients that ask for names that nobody asked for before.
const MISSES: Traffic = Traffic {
    names: 0,
    fresh: 100,
    spelled: 0,
    lost: 0,
    delay: 20,
    per_second: 4_000,
    depth: 0,
    chain: 2,
};

/// An upstream that is slow and loses queries, and clients that make it hard.
const SLOW: Traffic = Traffic {
    names: 5_000,
    fresh: 40,
    spelled: 50,
    lost: 3,
    delay: 250,
    per_second: 200,
    depth: 12,
    chain: 8,
};

/// Sites whose names all have at most 32 octets.
const GOSSIP: Plan = Plan {
    long: 0,
    ticks: 1,
    flushes: 0,
    questions: 2_000,
};

/// Sites half of whose names have more than 32 octets, with as many questions as names.
const MIXED: Plan = Plan {
    long: 50,
    ticks: EVERY,
    flushes: 10,
    questions: 0,
};

/// The number that a word spells.
fn number(words: &[String], at: usize) -> anyhow::Result<u32> {
    match words.get(at) {
        Some(word) => Ok(word.as_str().parse::<u32>()?),
        None => Err(anyhow::anyhow!("fleet_bench JOB SEED COUNT")),
    }
}

/// Does a job, and gives the digest of what came out of it.
fn work(rt: &HostRuntime, job: &str, seed: u32, count: u32) -> anyhow::Result<u64> {
    let alloc = rt.alloc();
    let done = match job {
        "hits" => serve_turns(alloc, &HITS, seed, count),
        "misses" => serve_turns(alloc, &MISSES, seed, count),
        "slow" => serve_turns(alloc, &SLOW, seed, count),
        "gossip" => gossip(alloc, &GOSSIP, seed, count),
        "mixed" => {
            let plan = Plan {
                questions: count,
                ..MIXED
            };
            gossip(alloc, &plan, seed, count)
        }
        _ => return Err(anyhow::anyhow!("no such job")),
    };
    Ok(done?)
}

/// Does the jobs of the words, three for each, and prints a line for each.
fn main(rt: HostRuntime) -> anyhow::Result<()> {
    let words: Vec<String> = env::args(&rt)?.collect(rt.alloc())?;
    let jobs = words.len() / 3;
    for job in 0..jobs {
        let at = 1 + 3 * job;
        let name = match words.get(at) {
            Some(word) => word.as_str(),
            None => "",
        };
        let seed = number(&words, at + 1)?;
        let count = number(&words, at + 2)?;
        let value = work(&rt, name, seed, count)?;
        println!(rt; "{name} {value:016x}")?;
    }
    Ok(())
}
