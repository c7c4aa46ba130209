//! What configurations say that is lawful, and surely meant otherwise.

use crate::check::Checked;
use crate::print::AddrText;
use fleet_pending::Addr;

/// The first part of loopback addresses (RFC 1122 3.2.1.3).
const LOOPBACK: u32 = 127;

// Lets through: any warning, and none, since it has no clause; so have the other functions here. The
// tested body `own_address_is_no_warning` prints none; a case of `tests/run` (`test_checks`) sees it.
/// Prints a warning about the address at a place of a list, from 1, to standard error. It may be lost.
fn warn<O: Eprint>(out: &O, site: &Checked<'_>, what: &str, key: &str, place: usize, addr: Addr) {
    let (path, addr) = (site.path, AddrText(addr));
    let _ = eprintln!(out; "{path}: warning: {what}: {key}, {place}: {addr}");
}

/// Prints what is lawful in these configurations, and surely meant otherwise.
pub fn print_warnings<O: Eprint>(out: &O, sites: &[Checked<'_>]) {
    let is_one_host = !sites.iter().any(has_distant_peer);
    for (at, site) in sites.iter().enumerate() {
        let config = &site.settings.config;
        warn_of_distant(out, site);
        warn_of_list(out, site, "upstreams", config.upstreams());
        warn_of_list(out, site, "peers", config.peers());
        for other in sites {
            warn_of_upstreams(out, site, other);
            warn_of_peers(out, site, other);
        }
        if is_one_host {
            warn_of_places(out, site, &sites[..at]);
        }
    }
}

/// Whether an address is a loopback one.
fn is_loopback(addr: Addr) -> bool {
    addr.host >> 24 == LOOPBACK
}

/// Whether a site has a peer on another host. Its frames can go there, where the system is told so.
fn has_distant_peer(site: &Checked<'_>) -> bool {
    site.settings
        .config
        .peers()
        .iter()
        .any(|addr| !is_loopback(*addr))
}

/// Warns of an address where a site before listens, too. Where sites are on several hosts, this is none
/// to warn of: each host has loopback addresses of its own.
fn warn_of_places<O: Eprint>(out: &O, site: &Checked<'_>, before: &[Checked<'_>]) {
    let listen = site.settings.listen;
    if before.iter().any(|other| other.settings.listen == listen) {
        let (path, listen) = (site.path, AddrText(listen));
        let _ = eprintln!(out; "{path}: warning: two sites at one address: listen: {listen}");
    }
}

/// Warns of upstreams on other machines: nothing that a site sends gets there.
fn warn_of_distant<O: Eprint>(out: &O, site: &Checked<'_>) {
    for (at, addr) in site.settings.config.upstreams().iter().enumerate() {
        if !is_loopback(*addr) {
            warn(out, site, "no loopback address", "upstreams", at + 1, *addr);
        }
    }
}

/// Warns of addresses in a list that are the site's own.
fn warn_of_list<O: Eprint>(out: &O, site: &Checked<'_>, key: &str, addrs: &[Addr]) {
    for (at, addr) in addrs.iter().enumerate() {
        if *addr == site.settings.listen {
            warn(out, site, "own address", key, at + 1, *addr);
        }
    }
}

/// Warns of an upstream that has the site among its peers: it reads each question as a frame.
fn warn_of_upstreams<O: Eprint>(out: &O, site: &Checked<'_>, other: &Checked<'_>) {
    for (at, addr) in site.settings.config.upstreams().iter().enumerate() {
        if *addr == other.settings.listen && has_peer(other, site.settings.listen) {
            warn(
                out,
                site,
                "the upstream has this site as a peer",
                "upstreams",
                at + 1,
                *addr,
            );
        }
    }
}

/// Warns of a peer that does not have the site among its own: each frame is refused as a question.
fn warn_of_peers<O: Eprint>(out: &O, site: &Checked<'_>, other: &Checked<'_>) {
    for (at, addr) in site.settings.config.peers().iter().enumerate() {
        let is_other = *addr == other.settings.listen && *addr != site.settings.listen;
        if is_other && !has_peer(other, site.settings.listen) {
            warn(
                out,
                site,
                "the peer does not have this site as one",
                "peers",
                at + 1,
                *addr,
            );
        }
    }
}

/// Whether a site has a peer at an address.
fn has_peer(site: &Checked<'_>, addr: Addr) -> bool {
    site.settings.config.peers().contains(&addr)
}
