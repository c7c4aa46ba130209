//! Sites, and what their rows name: addresses, moments and names.

use fleet_name::Name;
use fleet_observe::Moment;
use fleet_pending::Addr;
use fleet_site::Config;
use std::alloc::Allocator;
use std::process::Abort;

/// 127.0.0.1, where all are.
const HOST: u32 = 0x7f00_0001;

/// An address of 127.0.0.1.
pub fn addr(port: u16) -> Addr {
    Addr { host: HOST, port }
}

/// The configuration of a site with two upstreams and these peers.
pub fn config<A: Allocator + Copy>(rt: &impl Abort, alloc: A, peers: &[Addr]) -> Config<A> {
    let upstreams = Vec::from_slice(alloc, &[addr(5301), addr(5302)]).expect(rt, "memory");
    let peers = Vec::from_slice(alloc, peers).expect(rt, "memory");
    Config::new(upstreams, peers).expect(rt, "a configuration")
}

/// A number of 16 bits, as a word.
pub fn number(rt: &impl Abort, word: &str) -> u16 {
    word.parse::<u16>().expect(rt, "a number")
}

/// The moment of these seconds.
pub fn at(rt: &impl Abort, seconds: u16) -> Moment {
    Moment::new(u64::from(seconds)).expect(rt, "a moment")
}

/// The name of labels with dots between them.
pub fn name_of<A: Allocator>(rt: &impl Abort, alloc: A, labels: &str) -> Name<A> {
    let mut name = Name::root(alloc).expect(rt, "memory");
    for label in labels.split('.') {
        name.push(label.as_bytes()).expect(rt, "a label");
    }
    name
}
