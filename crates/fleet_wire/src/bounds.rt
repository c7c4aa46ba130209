//! The bounds of messages.

/// The most octets of a message over UDP, its header included (RFC 1035 2.3.4, 4.2.1).
pub const LONGEST_MESSAGE: usize = 512;
