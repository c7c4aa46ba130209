//! The bounds of the table.

/// The most questions that may be open.
pub const MOST_ENTRIES: usize = 256;

/// The most waiters of one question.
pub const MOST_WAITERS: usize = 32;

/// The most upstreams that are asked a question, each once, one after the other.
pub const MOST_UPSTREAMS: u8 = 4;

/// How long an upstream has for its reply, in seconds: then the next one is asked. RFC 1035 4.2.1 has 2
/// to 5 seconds.
pub const TRY_SECONDS: u64 = 2;
