//! The bounds of frames.

use fleet_name::bounds::LONGEST_NAME;
use fleet_observe::bounds::LONGEST_BODY;

/// The most octets of a frame. An observation alone always fits (`entry_fits`).
pub const LONGEST_FRAME: usize = 16384;

// Lets through: a greater number. Only a clause of `entry_size` cites it, by its name; no room is made
// by it.
/// The most octets of an entry: 16 of numbers, a name in full (RFC 1035 2.3.4) and a body.
pub const LONGEST_ENTRY: usize = 16 + LONGEST_NAME + LONGEST_BODY;
