//! The types whose RDATA is read by its parts (RFC 1035 3.2.2, RFC 2782).

/// An authoritative name server of the owner (RFC 1035 3.3.11).
pub const NS: u16 = 2;

/// A mail destination, obsolete (RFC 1035 3.3.4).
pub const MD: u16 = 3;

/// A mail forwarder, obsolete (RFC 1035 3.3.5).
pub const MF: u16 = 4;

/// The canonical name that the owner is an alias of (RFC 1035 3.3.1).
pub const CNAME: u16 = 5;

/// The start of a zone of authority (RFC 1035 3.3.13).
pub const SOA: u16 = 6;

/// A host with a mailbox, experimental (RFC 1035 3.3.3).
pub const MB: u16 = 7;

/// A member of a mail group, experimental (RFC 1035 3.3.6).
pub const MG: u16 = 8;

/// A new name of a mailbox, experimental (RFC 1035 3.3.8).
pub const MR: u16 = 9;

/// A pointer to another name (RFC 1035 3.3.12).
pub const PTR: u16 = 12;

/// Who answers for a mailbox, experimental (RFC 1035 3.3.7).
pub const MINFO: u16 = 14;

/// A host that takes mail for the owner (RFC 1035 3.3.9).
pub const MX: u16 = 15;

/// A host with a service of the owner (RFC 2782).
pub const SRV: u16 = 33;
