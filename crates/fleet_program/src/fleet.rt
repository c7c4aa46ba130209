//! The fleet of a script: its sites and their addresses.

ghost use Rattle.std.specs.Prelude.{◌≡◌, ◌⊎◌, ◌↔◌, ◌<◌, ◌≤◌, IsSome, IsNone, IsOk, IfOk, IfErr, OnOk, IsErrOf};
ghost use Rattle.fleet_world.specs.FleetModel.{opening};
ghost use Rattle.fleet_world.specs.StandsFor.{StandsFor};
ghost use Rattle.fleet_program.specs.Settings.{local_addr, peers_of, config_of, configs_of, upstreams};
ghost use Rattle.fleet_program.specs.declared.words.TheConstants.{MOST_SITES};

use crate::fault::LineFault;
use crate::words::SiteCount;
use fleet_pending::Addr;
use fleet_site::Config;
use fleet_world::World;
use std::alloc::{AllocError, Allocator};

/// The address 127.0.0.1, which all sites and upstreams of a script have, and on which a server
/// listens.
pub const LOOPBACK: u32 = 0x7f00_0001;

/// The port of the first upstream of every site.
const FIRST_UPSTREAM_PORT: u16 = 5301;

/// The port of the second upstream of every site.
const SECOND_UPSTREAM_PORT: u16 = 5302;

/// The port of site 0 of a script; the ports of further sites follow.
const FIRST_SITE_PORT: u16 = 5400;

/// The sites of a script. The first event makes them: as many as it says, or one.
#[derive(Drop)]
pub struct Fleet<A: Allocator> {
    alloc: A,
    world: Option<World<A>>,
}

impl<A: Allocator + Copy> Fleet<A> {
    ghost use Rattle.fleet_program.specs.Fleet.{site_count, frame_count, BeginsWith};

    /// Makes the fleet of a script in which no event has happened.
    pub fn new(alloc: A) -> Fleet<A>
        ensures { IsNone result.world }
    {
        Fleet { alloc, world: None }
    }

    /// Makes this number of sites, if this is the first event: with the script's addresses, and nothing
    /// taken in. Else it is `SitesNotFirst`.
    pub fn begin(&mut self, count: SiteCount) -> Result<(), LineFault>
        ensures begun { OnOk result (BeginsWith count.value self.new.world) }
        ensures late { IsErrOf result LineFault.SitesNotFirst ↔ IsSome self.old.world }
        ensures refused { IfErr result (λ what.
            (what ≡ LineFault.SitesNotFirst) ⊎ (what ≡ LineFault.OutOfMemory)) }
    {
        if self.world.is_some() {
            return Err(LineFault::SitesNotFirst);
        }
        self.world = Some(new_world(self.alloc, count.value)?);
        Ok(())
    }

    /// Checks that there is a site of this number: 0 alone before the first event. It allocates
    /// nothing, so that a site which is not there is reported before memory is needed.
    pub fn check_site(&self, site: usize) -> Result<(), LineFault>
        ensures there { IsOk result ↔ (site < site_count self.now.world) }
        ensures refused { IfErr result (λ what. what ≡ LineFault.NoSuchSite) }
    {
        let there = match &self.world {
            Some(world) => world.site(site).is_some(),
            None => site == 0,
        };
        if there {
            Ok(())
        } else {
            Err(LineFault::NoSuchSite)
        }
    }

    /// Checks that a frame was sent under this number: none before the first event. It allocates
    /// nothing.
    pub fn check_frame(&self, number: usize) -> Result<(), LineFault>
        ensures there { IsOk result ↔ (number < frame_count self.now.world) }
        ensures refused { IfErr result (λ what. what ≡ LineFault.NoSuchFrame) }
    {
        let there = match &self.world {
            Some(world) => world.frame(number).is_some(),
            None => false,
        };
        if there {
            Ok(())
        } else {
            Err(LineFault::NoSuchFrame)
        }
    }

    /// The world of a script. Where this is the first event, one site is made.
    pub fn world(&mut self) -> Result<&mut World<A>, AllocError> {
        match &mut self.world {
            Some(world) => Ok(world),
            none => Ok(none.insert(new_world(self.alloc, 1)?)),
        }
    }
}

/// An address of this machine.
fn local_address(port: u16) -> Addr
    ensures { result ≡ local_addr port }
{
    Addr {
        host: LOOPBACK,
        port,
    }
}

/// Makes a world of so many new sites.
fn new_world<A: Allocator + Copy>(alloc: A, count: usize) -> Result<World<A>, AllocError>
    requires { count ≤ MOST_SITES }
    ensures { IfOk result (λ world. StandsFor world (opening (configs_of count count))) }
{
    let mut configs = Vec::with_capacity(alloc, count)?;
    for site in 0..count {
        configs.push(new_config(alloc, count, site)?)?;
    }
    World::new(alloc, configs)
}

/// The configuration of a site of a script: the upstreams of all, and for its peers the other sites.
fn new_config<A: Allocator + Copy>(
    alloc: A,
    count: usize,
    site: usize,
) -> Result<Config<A>, AllocError>
    requires { count ≤ MOST_SITES }
    ensures { IfOk result (λ config. config ≡ config_of count site) }
{
    let upstreams = new_upstreams(alloc)?;
    let peers = new_peers(alloc, count, site)?;
    match Config::new(upstreams, peers) {
        Ok(config) => Ok(config),
        Err(_) => unreachable!(),
    }
}

/// The addresses of the upstreams of a script, in order.
fn new_upstreams<A: Allocator + Copy>(alloc: A) -> Result<Vec<Addr, A>, AllocError>
    ensures { IfOk result (λ addrs. addrs.items ≡ upstreams) }
{
    let first = local_address(FIRST_UPSTREAM_PORT);
    let second = local_address(SECOND_UPSTREAM_PORT);
    let addrs = vec![in alloc; first, second]?;
    Ok(addrs)
}

/// The addresses of all sites of a script but one.
fn new_peers<A: Allocator + Copy>(
    alloc: A,
    count: usize,
    site: usize,
) -> Result<Vec<Addr, A>, AllocError>
    requires { count ≤ MOST_SITES }
    ensures { IfOk result (λ peers. peers.items ≡ peers_of site count) }
{
    let mut peers = Vec::with_capacity(alloc, count)?;
    for other in 0..count {
        if other != site {
            peers.push(local_address(FIRST_SITE_PORT + other as u16))?;
        }
    }
    Ok(peers)
}
