//! Refusals as numbers, for a digest.

use fleet_site::Refusal;

/// A number for each kind of refusal. That of no refusal is 0.
pub fn refusal_number(refused: &Refusal) -> u64 {
    match refused {
        Refusal::Unmatched => 1,
        Refusal::Full => 2,
        Refusal::Dropped => 3,
        Refusal::Read(_) => 4,
        Refusal::Digest(_) => 5,
        Refusal::Frame(_) => 6,
    }
}
