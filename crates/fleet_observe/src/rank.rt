//! The ranks of observations (after RFC 2181 5.4.1): what has the greater one is believed first.

/// The rank of an RRset of the answer section that the question's name owns, and of a denial after
/// no alias, where the reply has AA set; and of a flush (after RFC 2181 5.4.1).
pub const ANSWER: u8 = 3;

/// The rank of the NS RRsets that a reply is an authority for (after RFC 2181 5.4.1).
pub const AUTHORITY: u8 = 2;

/// The rank of all else that is kept (after RFC 2181 5.4.1).
pub const OTHER: u8 = 1;
