//! Writing messages (RFC 1035 4.1).

use std::alloc::AllocError;

/// Puts the header of a message with a question in the place of what was written before: its id,
/// its flags, and how many records its answer and its authority section have.
pub fn begin(
    message: &mut Vec<u8>,
    id: u16,
    flags: [u8; 2],
    counts: [u8; 2],
) -> Result<(), AllocError> {
    let [high, low] = id.to_be_bytes();
    let [first, second] = flags;
    let [answer, authority] = counts;
    message.clear();
    message.extend_from_slice(&[
        high, low, first, second, 0, 1, 0, answer, 0, authority, 0, 0,
    ])
}

/// A pointer to what comes next (RFC 1035 4.1.4).
pub fn pointer(message: &[u8]) -> u16 {
    0xc000 + (message.len() % 0x4000) as u16
}

/// Adds what comes before the RDATA of a record of class 1 (IN), whose owner is a pointer.
pub fn push_record(
    message: &mut Vec<u8>,
    owner: u16,
    rtype: u16,
    ttl: u32,
    count: u16,
) -> Result<(), AllocError> {
    message.extend_from_slice(&owner.to_be_bytes())?;
    message.extend_from_slice(&rtype.to_be_bytes())?;
    message.extend_from_slice(&[0, 1])?;
    message.extend_from_slice(&ttl.to_be_bytes())?;
    message.extend_from_slice(&count.to_be_bytes())
}
