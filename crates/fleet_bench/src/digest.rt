//! A digest of what came out of a job: a number, which is 0 of nothing.

use fleet_pending::Addr;

/// An odd number with its bits well spread (2^64 divided by the golden ratio).
const FACTOR: u64 = 0x9e37_79b9_7f4a_7c15;

/// Adds a number to a digest.
pub fn add(digest: &mut u64, number: u64) {
    let mixed = (*digest ^ number).wrapping_mul(FACTOR);
    *digest = mixed ^ (mixed >> 29);
}

/// Adds octets, eight at a time.
pub fn add_octets(digest: &mut u64, octets: &[u8]) {
    let mut rest = octets;
    for _ in 0..octets.len() / 8 {
        let Some((first, after)) = rest.split_first_chunk::<8>() else {
            break;
        };
        add(digest, u64::from_be_bytes(*first));
        rest = after;
    }
    for octet in rest {
        add(digest, u64::from(*octet));
    }
    add(digest, octets.len() as u64);
}

/// Adds a datagram: where it goes, and its octets.
pub fn add_datagram(digest: &mut u64, to: Addr, octets: &[u8]) {
    add(digest, u64::from(to.host) ^ (u64::from(to.port) << 32));
    add_octets(digest, octets);
}
