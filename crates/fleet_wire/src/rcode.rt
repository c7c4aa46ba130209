//! The codes of replies (RFC 1035 4.1.1).

/// The question is answered (RFC 1035 4.1.1).
pub const NO_ERROR: u8 = 0;

/// The message can't be read (RFC 1035 4.1.1).
pub const FORMAT_ERROR: u8 = 1;

/// There is no answer, for a reason that lies with the server (RFC 1035 4.1.1).
pub const SERVER_FAILURE: u8 = 2;

/// There is no such name (RFC 1035 4.1.1).
pub const NAME_ERROR: u8 = 3;

/// The server doesn't answer such questions (RFC 1035 4.1.1).
pub const NOT_IMPLEMENTED: u8 = 4;

/// The server is not willing to answer (RFC 1035 4.1.1).
pub const REFUSED: u8 = 5;
