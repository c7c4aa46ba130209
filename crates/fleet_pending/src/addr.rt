//! Addresses.

/// The source or the destination of a UDP datagram.
#[derive(Clone, Copy, Debug, Default, PartialEq, Eq, PartialOrd, Ord)]
pub struct Addr {
    /// The address (IPv4), its first octet highest.
    pub host: u32,
    /// The port (UDP).
    pub port: u16,
}
