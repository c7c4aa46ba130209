//! What is wrong with a configuration, fault by fault, and where.

ghost use Rattle.std.specs.Prelude.{◌≡◌, ◌↔◌, ◌++◌, ◌∷◌, [], Ok, Err, IfOk, OnOk, IsTrue, IsSome, option_map, option_and_then};
ghost use Rattle.toml.specs.Data.{as_array};
ghost use Rattle.toml.specs.View.{view, table_view};
ghost use Rattle.fleet_name.specs.Places.{NoTwo};
ghost use Rattle.fleet_pending.specs.declared.addr.Addr.{Addr};
ghost use Rattle.fleet_program.specs.Configuration.{HasKeys, ReadsItems, ReadsUpstreams, ReadsPeers};
ghost use Rattle.fleet_site.specs.ConfigData.{IsConfigData};
ghost use Rattle.fleet_program.specs.Findings.{Adds, AddsSome, Extends, FailsTogether, ListsFaults, addrs_of, faults_of, listed};

use crate::print::AddrText;
use crate::settings::{SettingsFault, address_of, addresses_of, is_known, listen_of, sweep_of};
use fleet_pending::Addr;
use fleet_pending::bounds::MOST_UPSTREAMS;
use fleet_site::bounds::MOST_PEERS;
use std::alloc::{AllocError, Global};
use std::fmt;
use toml::{Table, Value};

/// What stands where a fault is.
#[derive(Clone, Copy)]
pub enum Found<'a> {
    /// Nothing: what should be there is missing.
    Nothing,
    /// A value.
    Value(&'a Value),
    /// So many addresses.
    Count(usize),
    /// An address.
    Address(Addr),
}

impl fmt::Display for Found<'_> {
    fn fmt<W: fmt::Write>(&self, f: &mut fmt::Formatter<W>) -> fmt::Result {
        match self {
            Found::Nothing => Ok(()),
            Found::Count(count) => write!(f, ": {count}"),
            Found::Address(addr) => write!(f, ": {}", AddrText(*addr)),
            Found::Value(Value::String(text)) => write!(f, ": {:?}", text.as_str()),
            Found::Value(Value::Integer(number)) => write!(f, ": {number}"),
            Found::Value(value) => write!(f, ": {}", value.type_str()),
        }
    }
}

/// A fault of a configuration: what it is, its key, its place in the key's list, from 1, and what
/// stands there.
#[derive(Clone, Copy)]
pub struct Finding<'a> {
    /// What it is.
    pub fault: SettingsFault,
    /// The key where it is.
    pub key: &'a str,
    /// Its place in the list of this key, from 1.
    pub place: Option<usize>,
    /// What stands there.
    pub found: Found<'a>,
}

// Lets through: any text. Cases of `tests/run` (`test_checks`) see each, and those of `Found`.
impl fmt::Display for Finding<'_> {
    fn fmt<W: fmt::Write>(&self, f: &mut fmt::Formatter<W>) -> fmt::Result {
        let (fault, key, found) = (self.fault, self.key, self.found);
        write!(f, "{fault}: ")?;
        if !key.is_empty() && key.bytes().all(|octet| octet.is_ascii_graphic()) {
            write!(f, "{key}")?;
        } else {
            write!(f, "{key:?}")?;
        }
        match self.place {
            Some(place) => write!(f, ", {place}{found}"),
            None => write!(f, "{found}"),
        }
    }
}

/// An address of a list: the list's key, its place there, from 1, and itself.
#[derive(Clone, Copy)]
struct Stated<'a> {
    key: &'a str,
    place: usize,
    addr: Addr,
}

/// The faults of a table, in their order: of its keys, then of their values, key by key; then those
/// of upstreams and peers together, over the addresses that are good.
pub fn findings_in<'a>(alloc: Global, table: &'a Table) -> Result<Vec<Finding<'a>>, AllocError>
    ensures { IfOk result (λ findings.
        ListsFaults (table_view table.now) (faults_of findings.items)) }
{
    let mut findings = Vec::new(alloc);
    find_in_keys(table, &mut findings)?;
    let listen = table.get("listen");
    find_in_value("listen", listen, listen_of(listen).err(), &mut findings)?;
    let upstreams = table.get("upstreams");
    let has_list = is_list(upstreams);
    let upstreams = find_in_upstreams(alloc, upstreams, &mut findings)?;
    let peers = find_in_peers(alloc, table.get("peers"), &mut findings)?;
    let sweep = table.get("sweep");
    find_in_value("sweep", sweep, sweep_of(sweep).err(), &mut findings)?;
    find_together(alloc, has_list, &upstreams, &peers, &mut findings)?;
    Ok(findings)
}

/// Adds the keys that a configuration does not have.
fn find_in_keys<'a>(table: &'a Table, findings: &mut Vec<Finding<'a>>) -> Result<(), AllocError>
    ensures { OnOk result (Adds (HasKeys (table_view table.now))
        (λ fault. (HasKeys (table_view table.now) → ⊥) × (fault ≡ SettingsFault.UnknownKey))
        (faults_of findings.old.items) (faults_of findings.new.items)) }
{
    for (key, value) in table {
        if !is_known(key.as_str()) {
            findings.push(Finding {
                fault: SettingsFault::UnknownKey,
                key: key.as_str(),
                place: None,
                found: Found::Value(value),
            })?;
        }
    }
    Ok(())
}

/// Adds the fault of a key's value, if it has one.
fn find_in_value<'a>(
    key: &'a str,
    value: Option<&'a Value>,
    fault: Option<SettingsFault>,
    findings: &mut Vec<Finding<'a>>,
) -> Result<(), AllocError>
    ensures { OnOk result (faults_of findings.new.items
        ≡ faults_of findings.old.items ++ listed fault) }
{
    let Some(fault) = fault else {
        return Ok(());
    };
    let found = match value {
        Some(value) => Found::Value(value),
        None => Found::Nothing,
    };
    findings.push(Finding {
        fault,
        key,
        place: None,
        found,
    })?;
    Ok(())
}

/// Whether a value is there, and is a list.
fn is_list(value: Option<&Value>) -> bool
    ensures { IsTrue result
        ↔ IsSome (option_and_then as_array (option_map (λ v. view v.now) value.entry)) }
{
    match value {
        Some(value) => value.is_array(),
        None => false,
    }
}

/// Adds the faults of the upstreams, and gives those that are good.
fn find_in_upstreams<'a>(
    alloc: Global,
    value: Option<&'a Value>,
    findings: &mut Vec<Finding<'a>>,
) -> Result<Vec<Stated<'a>>, AllocError>
    ensures { IfOk result (λ stated. Adds
        (ReadsUpstreams (option_map (λ v. view v.now) value.entry) (Ok (addrs_of stated.items)))
        (λ fault. ReadsUpstreams (option_map (λ v. view v.now) value.entry) (Err fault))
        (faults_of findings.old.items) (faults_of findings.new.items)) }
{
    match value {
        Some(value) => find_in_list(alloc, "upstreams", value, findings),
        None => {
            find_in_value("upstreams", None, Some(SettingsFault::MissingKey), findings)?;
            Ok(Vec::new(alloc))
        }
    }
}

/// Adds the faults of the peers, if there are any, and gives those that are good.
fn find_in_peers<'a>(
    alloc: Global,
    value: Option<&'a Value>,
    findings: &mut Vec<Finding<'a>>,
) -> Result<Vec<Stated<'a>>, AllocError>
    ensures { IfOk result (λ stated. Adds
        (ReadsPeers (option_map (λ v. view v.now) value.entry) (Ok (addrs_of stated.items)))
        (λ fault. ReadsPeers (option_map (λ v. view v.now) value.entry) (Err fault))
        (faults_of findings.old.items) (faults_of findings.new.items)) }
{
    match value {
        Some(value) => find_in_list(alloc, "peers", value, findings),
        None => Ok(Vec::new(alloc)),
    }
}

/// Adds the faults of a list of addresses, and gives those that are good: first that entries are of
/// another kind, or that the value is, then that they are no address.
fn find_in_list<'a>(
    alloc: Global,
    key: &'a str,
    value: &'a Value,
    findings: &mut Vec<Finding<'a>>,
) -> Result<Vec<Stated<'a>>, AllocError>
    ensures { IfOk result (λ stated. Adds
        (ReadsItems (as_array (view value.now)) (Ok (addrs_of stated.items)))
        (λ fault. ReadsItems (as_array (view value.now)) (Err fault))
        (faults_of findings.old.items) (faults_of findings.new.items)) }
{
    let fault = match addresses_of(alloc, value) {
        Ok(addrs) => return stated_of(alloc, key, &addrs),
        Err(SettingsFault::OutOfMemory) => return Err(AllocError),
        Err(fault) => fault,
    };
    let items: &[Value] = match value.as_array() {
        Some(items) => items,
        None => &[],
    };
    let count = findings.len();
    find_in_items(key, items, fault, findings)?;
    if findings.len() == count {
        find_in_value(key, Some(value), Some(fault), findings)?;
    }
    if fault == SettingsFault::WrongKind {
        find_in_items(key, items, SettingsFault::BadAddress, findings)?;
    }
    good_in(alloc, key, items)
}

// Lets through: the first of them alone, and none, where the caller adds the fault; and as in the other
// functions here any key, place and value, since the clauses have the faults alone. The tested body
// `places_begin_at_zero` has other places; a case of `tests/run` (`test_checks`) sees it. Others see every
// entry, and each text.
/// Adds the entries of a list that have this fault.
fn find_in_items<'a>(
    key: &'a str,
    items: &'a [Value],
    fault: SettingsFault,
    findings: &mut Vec<Finding<'a>>,
) -> Result<(), AllocError>
    ensures { OnOk result (AddsSome fault (faults_of findings.old.items)
        (faults_of findings.new.items)) }
{
    for (at, item) in items.iter().enumerate() {
        if address_of(item).err() == Some(fault) {
            findings.push(Finding {
                fault,
                key,
                place: Some(at + 1),
                found: Found::Value(item),
            })?;
        }
    }
    Ok(())
}

/// The addresses of a list, each with its place.
fn stated_of<'a>(alloc: Global, key: &'a str, addrs: &[Addr]) -> Result<Vec<Stated<'a>>, AllocError>
    ensures { IfOk result (λ stated. addrs_of stated.items ≡ addrs.now) }
{
    let mut stated = Vec::new(alloc);
    for (at, addr) in addrs.iter().enumerate() {
        let addr = *addr;
        stated.push(Stated {
            key,
            place: at + 1,
            addr,
        })?;
    }
    Ok(stated)
}

// Lets through: other entries, and none: its list is not the first fault's. The tested body
// `good_addresses_are_left_out` leaves some out; a case of `tests/run` (`test_checks`) sees it.
/// The entries of a list that are addresses, each with its place.
fn good_in<'a>(
    alloc: Global,
    key: &'a str,
    items: &[Value],
) -> Result<Vec<Stated<'a>>, AllocError> {
    let mut stated = Vec::new(alloc);
    for (at, item) in items.iter().enumerate() {
        if let Ok(addr) = address_of(item) {
            stated.push(Stated {
                key,
                place: at + 1,
                addr,
            })?;
        }
    }
    Ok(stated)
}

/// Adds the faults of upstreams and peers together. That there is no upstream is one of a list
/// alone.
fn find_together<'a>(
    alloc: Global,
    has_list: bool,
    upstreams: &[Stated<'a>],
    peers: &[Stated<'a>],
    findings: &mut Vec<Finding<'a>>,
) -> Result<(), AllocError>
    ensures rest { OnOk result (Extends (faults_of findings.old.items)
        (faults_of findings.new.items)) }
    ensures faults { OnOk result (IsTrue has_list → Adds
        (IsConfigData (record { upstreams = addrs_of upstreams.now; peers = addrs_of peers.now }))
        (FailsTogether (addrs_of upstreams.now) (addrs_of peers.now))
        (faults_of findings.old.items) (faults_of findings.new.items)) }
{
    if has_list && upstreams.is_empty() {
        find_count("upstreams", SettingsFault::NoUpstream, 0, findings)?;
    }
    if upstreams.len() > usize::from(MOST_UPSTREAMS) {
        let fault = SettingsFault::TooManyUpstreams;
        find_count("upstreams", fault, upstreams.len(), findings)?;
    }
    if peers.len() > MOST_PEERS {
        find_count("peers", SettingsFault::TooManyPeers, peers.len(), findings)?;
    }
    let mut stated = Vec::from_slice(alloc, upstreams)?;
    stated.extend_from_slice(peers)?;
    find_twice(&stated, findings)
}

/// Adds that a list has a wrong number of addresses.
fn find_count<'a>(
    key: &'a str,
    fault: SettingsFault,
    count: usize,
    findings: &mut Vec<Finding<'a>>,
) -> Result<(), AllocError>
    ensures { OnOk result (faults_of findings.new.items
        ≡ faults_of findings.old.items ++ fault ∷ []) }
{
    findings.push(Finding {
        fault,
        key,
        place: None,
        found: Found::Count(count),
    })?;
    Ok(())
}

/// Adds the addresses that stand before them too.
fn find_twice<'a>(stated: &[Stated<'a>], findings: &mut Vec<Finding<'a>>) -> Result<(), AllocError>
    ensures { OnOk result (Adds (NoTwo (λ (x y : Addr). x ≡ y) (addrs_of stated.now))
        (λ fault. (NoTwo (λ (x y : Addr). x ≡ y) (addrs_of stated.now) → ⊥)
        × (fault ≡ SettingsFault.AddressTwice))
        (faults_of findings.old.items) (faults_of findings.new.items)) }
{
    for (at, repeated) in stated.iter().enumerate() {
        if stated[..at]
            .iter()
            .any(|before| before.addr == repeated.addr)
        {
            findings.push(Finding {
                fault: SettingsFault::AddressTwice,
                key: repeated.key,
                place: Some(repeated.place),
                found: Found::Address(repeated.addr),
            })?;
        }
    }
    Ok(())
}
