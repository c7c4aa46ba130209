//! The SOA record of a denial.

use fleet_name::{Name, Octets};
use std::alloc::{Allocator, Global};
use std::marker::Model;

/// The SOA record of a denial (RFC 2308 5).
#[derive(Drop)]
pub struct Soa<A: Allocator = Global> {
    /// Its owner, the zone.
    pub owner: Name<A>,
    /// For how long the denial holds, in seconds.
    pub ttl: u32,
    /// Its RDATA (RFC 1035 3.3.13), with its names in full and in lower case.
    pub rdata: Octets<A>,
}

impl<A: Allocator> Model for Soa<A> {
    ghost use Rattle.fleet_observe.specs.Soa.{SoaData};

    ghost Value = { SoaData };

    ghost view = { λ x. record { owner = x.owner; ttl = x.ttl; rdata = x.rdata } };
}
