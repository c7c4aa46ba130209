//! Bodies after other octets.

use crate::tests::layers::observations::record_in;
use crate::tests::layers::rows::Words;
use fleet_observe::Observation;
use std::process::Abort;

/// Adds the body of 192.0.2.1 after two octets.
fn check_added(rt: &impl Abort, address: &Observation, octets: &mut Vec<u8>) {
    address.append_body(octets).expect(rt, "memory");
    let wanted = b"\xff\xfe\x00\x01\x00\x04\xc0\x00\x02\x01";
    assert_eq!(rt; octets.as_slice(), wanted.as_slice());
}

/// Allocates: `fleet_observe`: `Observation::append_body`.
#[test]
fn a_body_is_added_behind_octets(rt: HostRuntime) {
    let mut words = Words::new(". 1 3 100 300 c0000201");
    let address = record_in(&rt, rt.alloc(), rt.alloc(), &mut words);
    let mut octets = Vec::from_slice(rt.alloc(), b"\xff\xfe").expect(&rt, "memory");
    check_added(&rt, &address, &mut octets);
}
