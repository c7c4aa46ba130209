//! What the configuration of a server says.

ghost use Rattle.std.specs.Prelude.{◌≡◌, ◌↔◌, IsTrue, Ok, option_map};
ghost use Rattle.toml.specs.Data.{as_array};
ghost use Rattle.toml.specs.View.{view, table_view, items_view};
ghost use Rattle.fleet_program.specs.Configuration.{ReadsSettings, ReadsTable, HasKeys, IsKey, fault_of, ReadsListen, ReadsUpstreams, ReadsPeers, ReadsSweep, ReadsAddress, ReadsItems, ReadsTexts, AreTexts, vec_read};

use crate::fleet::LOOPBACK;
use crate::words::address;
use fleet_pending::Addr;
use fleet_site::{Config, ConfigFault};
use std::alloc::Global;
use thiserror::Error;
use toml::{Table, Value};

/// How many octets a configuration has at most.
pub const LONGEST_CONFIGURATION: usize = 65536;

/// How many seconds lie between two sweeps, where the configuration does not say.
const USUAL_SWEEP: u32 = 30;

/// How many seconds lie between two sweeps at most.
const LONGEST_SWEEP: u32 = 3600;

/// Why octets are no configuration: of several faults the first.
#[derive(Clone, Copy, Debug, PartialEq, Eq, Error)]
pub enum SettingsFault {
    /// It has more than 65536 octets.
    #[error("too long")]
    TooLong,
    /// It is no TOML: not UTF-8, not in the grammar, or a key twice.
    #[error("not TOML")]
    NotToml,
    /// A key is none of `listen`, `upstreams`, `peers` and `sweep`.
    #[error("unknown key")]
    UnknownKey,
    /// `listen` or `upstreams` is not there.
    #[error("missing key")]
    MissingKey,
    /// A value is of another type than its key asks for.
    #[error("wrong kind")]
    WrongKind,
    /// A text is no address.
    #[error("bad address")]
    BadAddress,
    /// The host of `listen` is another one than 127.0.0.1.
    #[error("listen is not 127.0.0.1")]
    NotLoopback,
    /// `sweep` is below 0 or over 3600.
    #[error("bad sweep")]
    BadSweep,
    /// There is no upstream.
    #[error("no upstream")]
    NoUpstream,
    /// There are more than 4 upstreams.
    #[error("too many upstreams")]
    TooManyUpstreams,
    /// There are more than 16 peers.
    #[error("too many peers")]
    TooManyPeers,
    /// An address appears twice among the upstreams and the peers.
    #[error("address twice")]
    AddressTwice,
    /// An allocation failed.
    #[error("out of memory")]
    OutOfMemory,
}

/// What a configuration says. Addresses go into `Config`, and so into the site's model; what a server
/// does by itself, as `sweep`, is handed to `serve`, and the site knows nothing of it.
#[derive(Drop)]
pub struct Settings {
    /// Where the site listens.
    pub listen: Addr,
    /// Its upstreams and its peers.
    pub config: Config,
    /// How many seconds lie between two sweeps; 0 is never.
    pub sweep: u32,
}

/// Reads a configuration, a TOML text with the keys `listen`, `upstreams`, `peers` and `sweep`. Of
/// several faults the first is returned: `TooLong`, `NotToml`, `UnknownKey`; then `MissingKey` to
/// `BadSweep`, key by key in this order; then those of upstreams and peers together. `OutOfMemory`
/// comes at the allocation that failed. What a TOML text is, the contract of the TOML library says.
pub fn read_settings(alloc: Global, octets: &[u8]) -> Result<Settings, SettingsFault>
    ensures { ReadsSettings octets.now result }
{
    if octets.len() > LONGEST_CONFIGURATION {
        return Err(SettingsFault::TooLong);
    }
    match toml::table_from_slice(alloc, octets) {
        Ok(table) => settings_of(alloc, &table),
        Err(error) if error.is_memory() => Err(SettingsFault::OutOfMemory),
        Err(_) => Err(SettingsFault::NotToml),
    }
}

/// What a table says.
fn settings_of(alloc: Global, table: &Table) -> Result<Settings, SettingsFault>
    ensures { ReadsTable (table_view table.now) result }
{
    if !has_only_known_keys(table) {
        return Err(SettingsFault::UnknownKey);
    }
    let listen = match listen_of(table.get("listen")) {
        Ok(listen) => listen,
        Err(fault) => return Err(fault),
    };
    let upstreams = match upstreams_of(alloc, table.get("upstreams")) {
        Ok(upstreams) => upstreams,
        Err(fault) => return Err(fault),
    };
    let peers = match peers_of(alloc, table.get("peers")) {
        Ok(peers) => peers,
        Err(fault) => return Err(fault),
    };
    let sweep = match sweep_of(table.get("sweep")) {
        Ok(sweep) => sweep,
        Err(fault) => return Err(fault),
    };
    match Config::new(upstreams, peers) {
        Ok(config) => Ok(Settings {
            listen,
            config,
            sweep,
        }),
        Err(fault) => Err(config_fault(fault)),
    }
}

/// Whether a table has no key but those of a configuration.
fn has_only_known_keys(table: &Table) -> bool
    ensures { IsTrue result ↔ HasKeys (table_view table.now) }
{
    for (key, _) in table {
        if !is_known(key.as_str()) {
            return false;
        }
    }
    true
}

/// Whether a key is one of a configuration.
pub fn is_known(key: &str) -> bool
    ensures { IsTrue result ↔ IsKey key.now }
{
    key == "listen" || key == "upstreams" || key == "peers" || key == "sweep"
}

/// The fault of upstreams and peers.
fn config_fault(fault: ConfigFault) -> SettingsFault
    ensures { result ≡ fault_of fault }
{
    match fault {
        ConfigFault::NoUpstream => SettingsFault::NoUpstream,
        ConfigFault::TooManyUpstreams => SettingsFault::TooManyUpstreams,
        ConfigFault::TooManyPeers => SettingsFault::TooManyPeers,
        ConfigFault::SameAddress => SettingsFault::AddressTwice,
    }
}

/// Where a site listens.
pub fn listen_of(value: Option<&Value>) -> Result<Addr, SettingsFault>
    ensures { ReadsListen (option_map (λ v. view v.now) value.entry) result }
{
    let Some(value) = value else {
        return Err(SettingsFault::MissingKey);
    };
    match address_of(value) {
        Ok(listen) => {
            if listen.host == LOOPBACK {
                Ok(listen)
            } else {
                Err(SettingsFault::NotLoopback)
            }
        }
        Err(fault) => Err(fault),
    }
}

/// The upstreams, which have to be there.
fn upstreams_of(alloc: Global, value: Option<&Value>) -> Result<Vec<Addr>, SettingsFault>
    ensures { ReadsUpstreams (option_map (λ v. view v.now) value.entry) (vec_read result) }
{
    match value {
        Some(value) => addresses_of(alloc, value),
        None => Err(SettingsFault::MissingKey),
    }
}

/// The peers, if there are any.
fn peers_of(alloc: Global, value: Option<&Value>) -> Result<Vec<Addr>, SettingsFault>
    ensures { ReadsPeers (option_map (λ v. view v.now) value.entry) (vec_read result) }
{
    match value {
        Some(value) => addresses_of(alloc, value),
        None => Ok(Vec::new(alloc)),
    }
}

/// How many seconds lie between two sweeps.
pub fn sweep_of(value: Option<&Value>) -> Result<u32, SettingsFault>
    ensures { ReadsSweep (option_map (λ v. view v.now) value.entry) result }
{
    let Some(value) = value else {
        return Ok(USUAL_SWEEP);
    };
    let Some(sweep) = value.as_integer() else {
        return Err(SettingsFault::WrongKind);
    };
    if sweep < 0 || sweep > i64::from(LONGEST_SWEEP) {
        return Err(SettingsFault::BadSweep);
    }
    Ok(sweep as u32)
}

/// The address that a text spells.
pub fn address_of(value: &Value) -> Result<Addr, SettingsFault>
    ensures { ReadsAddress (view value.now) result }
{
    match value.as_str() {
        Some(text) => address(text).ok_or(SettingsFault::BadAddress),
        None => Err(SettingsFault::WrongKind),
    }
}

/// The addresses of a list of texts. That each entry is a text is looked at first.
pub fn addresses_of(alloc: Global, value: &Value) -> Result<Vec<Addr>, SettingsFault>
    ensures { ReadsItems (as_array (view value.now)) (vec_read result) }
{
    let Some(items) = value.as_array() else {
        return Err(SettingsFault::WrongKind);
    };
    if !are_texts(items) {
        return Err(SettingsFault::WrongKind);
    }
    read_addresses(alloc, items)
}

/// Whether each value is a text.
fn are_texts(items: &[Value]) -> bool
    ensures { IsTrue result ↔ AreTexts (items_view items.now) }
{
    for item in items {
        if !item.is_str() {
            return false;
        }
    }
    true
}

/// The addresses that texts spell.
fn read_addresses(alloc: Global, items: &[Value]) -> Result<Vec<Addr>, SettingsFault>
    requires { AreTexts (items_view items.now) }
    ensures { ReadsTexts (items_view items.now) (vec_read result) }
{
    let mut addrs = Vec::new(alloc);
    for item in items {
        match address_of(item) {
            Ok(addr) => {
                if let Err(_) = addrs.push(addr) {
                    return Err(SettingsFault::OutOfMemory);
                }
            }
            Err(fault) => return Err(fault),
        }
    }
    Ok(addrs)
}
