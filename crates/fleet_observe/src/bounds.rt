//! The bounds of observations.

/// The longest life of an observation, and the greatest TTL as it is read, in seconds: a day. A
/// flush has this life. A greater TTL is read as this one, as RFC 2181 8 allows.
pub const LONGEST_LIFE: u32 = 86400;

/// The longest life of a denial, in seconds: three hours (RFC 2308 5).
pub const LONGEST_DENIAL: u32 = 10800;

/// The most octets of the body of an observation. An RRset with a longer one is not kept.
pub const LONGEST_BODY: usize = 8192;

/// The latest moment, in seconds since one that the caller chose: 2^40.
pub const LATEST: u64 = 1 << 40;

/// The most links, each one CNAME record, of a walk along aliases and of an answer (RFC 1034
/// 3.6.2).
pub const MOST_LINKS: usize = 8;
