//! The bounds of labels and names (RFC 1035 2.3.4).

/// The most octets of a label, its length octet left out (RFC 1035 2.3.4).
pub const LONGEST_LABEL: usize = 63;

/// The most octets of a name in full, its zero octet included (RFC 1035 2.3.4).
pub const LONGEST_NAME: usize = 255;
