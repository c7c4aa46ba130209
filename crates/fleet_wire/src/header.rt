//! The header of a message (RFC 1035 4.1.1).

ghost use Rattle.std.specs.Prelude.{◌≡◌, ◌<◌, ◌≤◌, length, IfSome, MatchOption};
ghost use Rattle.fleet_wire.specs.Message.{header_of, IsHeader};

use crate::number::read_u16;

/// The header of a message (RFC 1035 4.1.1). RA and the Z bits are not kept.
#[derive(Clone, Copy, Debug, PartialEq, Eq)]
pub struct Header {
    /// ID: a reply has that of its query.
    pub id: u16,
    /// QR: whether the message is a reply.
    pub response: bool,
    /// Opcode, 0 to 15: 0 is a standard query.
    pub opcode: u8,
    /// AA: whether the server is an authority for the name of the question.
    pub aa: bool,
    /// TC: whether the message was cut off.
    pub tc: bool,
    /// RD: whether recursion is desired.
    pub rd: bool,
    /// RCODE, 0 to 15: 0 is no error, 3 a name error.
    pub rcode: u8,
    /// QDCOUNT, ANCOUNT, NSCOUNT and ARCOUNT, as the message has them.
    pub counts: [u16; 4],
}

/// The header in the first twelve octets of a message.
pub(crate) fn header_at(message: &[u8]) -> Header
    requires { 12 ≤ length message.now }
    ensures { result ≡ header_of message.now }
{
    let flags = message[2];
    Header {
        id: read_u16(message, 0),
        response: flags >= 128,
        opcode: flags / 8 % 16,
        aa: flags / 4 % 2 == 1,
        tc: flags / 2 % 2 == 1,
        rd: flags % 2 == 1,
        rcode: message[3] % 16,
        counts: [
            read_u16(message, 4),
            read_u16(message, 6),
            read_u16(message, 8),
            read_u16(message, 10),
        ],
    }
}

/// The header of a message (RFC 1035 4.1.1), or `None` where it has under 12 octets.
pub fn read_header(message: &[u8]) -> Option<Header>
    ensures found { MatchOption result (length message.now < 12)
        (λ h. (12 ≤ length message.now) × (h ≡ header_of message.now)) }
    ensures lawful { IfSome result (λ h. IsHeader h) }
{
    if message.len() < 12 {
        return None;
    }
    Some(header_at(message))
}
