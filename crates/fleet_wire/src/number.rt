//! Numbers in a message, the high octet first (RFC 1035 2.3.2).

ghost use Rattle.std.specs.Prelude.{◌≡◌, ◌+◌, ◌≤◌, length, ◌++◌, OnOk};
ghost use Rattle.fleet_wire.specs.Number.{u16_at, u32_at, u16_octets, u32_octets};

use std::alloc::{AllocError, Allocator};

/// The number in the two octets at a place.
pub(crate) fn read_u16(message: &[u8], at: usize) -> u16
    requires { at + 2 ≤ length message.now }
    ensures { result ≡ u16_at message.now at }
{
    u16::from_be_bytes([message[at], message[at + 1]])
}

/// The number in the four octets at a place.
pub(crate) fn read_u32(message: &[u8], at: usize) -> u32
    requires { at + 4 ≤ length message.now }
    ensures { result ≡ u32_at message.now at }
{
    u32::from_be_bytes([
        message[at],
        message[at + 1],
        message[at + 2],
        message[at + 3],
    ])
}

/// Adds a number of two octets.
pub(crate) fn push_u16<A: Allocator>(out: &mut Vec<u8, A>, n: u16) -> Result<(), AllocError>
    ensures { OnOk result (out.new.items ≡ out.old.items ++ u16_octets n) }
{
    out.extend_from_slice(&n.to_be_bytes())
}

/// The octets of a number of 32 bits.
pub(crate) fn octets_of_u32(n: u32) -> [u8; 4]
    ensures { result ≡ u32_octets n }
{
    n.to_be_bytes()
}
