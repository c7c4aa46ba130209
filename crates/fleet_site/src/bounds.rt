//! The bounds of a site and of a server.

/// The most peers that a site may have.
pub const MOST_PEERS: usize = 16;

/// The greatest count of a report or a port: a count stays there. Contracts alone cite it; the code has
/// it by the type of its counts.
pub const MOST_COUNTED: u64 = u64::MAX;
