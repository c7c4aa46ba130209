//! The classes of records (RFC 1035 3.2.4).

/// IN, the Internet (RFC 1035 3.2.4).
pub const IN: u16 = 1;
