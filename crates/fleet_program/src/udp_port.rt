//! The system's UDP socket, and a port over it.

ghost use Rattle.std.specs.Prelude.{◌≡◌, ◌↔◌, ◌≤ℤ◌, [], pos, IsTrue, Some, None, IfOk, IfSome};
ghost use Rattle.std.specs.Net.Udp.{udp_raw_fd};
ghost use Rattle.fleet_program.specs.Socket.{IsAt, IsQuiet, address_in};

use fleet_pending::Addr;
use fleet_site::{BurstPort, CallLog, PAUSE, PortFault, Socket, Unnoted};
use std::alloc::{Allocator, Global};
use std::io::ErrorKind;
use std::net::{Ipv4Addr, Net, SocketAddr, SocketAddrV4, UdpSocket};
use std::os::fd::AsRawFd;
use std::time::Duration;
use std::{io, time};

// Lets through: another number, since no clause has it. The tested body `receive_waits_two_seconds`
// has 2000; a case of `tests/run` (`test_bounds_of_sessions`) sees it.
/// How many milliseconds a receive of the system's socket waits at most.
const WAIT: u64 = 200;

/// The lowest descriptor that is none of standard input, output and error; clauses have the number
/// itself.
const LOWEST_FREE: i32 = 3;

/// A UDP socket that is bound to one address, and the system's clock. A receive that waits does so for
/// 200 milliseconds at most.
///
/// It keeps no record of its calls. So of what it received and sent the clauses say nothing by
/// themselves: they are proved of the same functions over every socket, which do not look which one
/// they were given. That it does what a `Socket` has to is read off its six methods, which make one call
/// of the system each, or none (`is_waiting`).
#[derive(Drop)]
pub struct SystemSocket<'a, C: time::Clock> {
    socket: UdpSocket,
    address: Addr,
    clock: &'a C,
    is_waiting: bool,
}

/// A port over the system's socket; it keeps no record.
pub type UdpPort<'a, C, A = Global> = BurstPort<SystemSocket<'a, C>, Unnoted, A>;

impl<'a, C: time::Clock> SystemSocket<'a, C> {
    // Lets through: failing at each call, and a socket at another port than its address says. The
    // tested body `socket_is_at_another_port` is the latter; a case of `tests/run` (`test_serving`)
    // sees it.
    /// Binds a socket to an address; where its port is 0, to a port that is free. Its descriptor is
    /// none of standard input, output and error. `PortFault` where the address can't be bound, the
    /// socket is at another one, or the time that a receive waits can't be set.
    pub fn bind<N: Net>(net: &N, clock: &'a C, addr: Addr) -> Result<SystemSocket<'a, C>, PortFault>
        ensures address { IfOk result (λ socket. IsAt addr socket.address) }
        ensures descriptor { IfOk result (λ socket. pos 3 ≤ℤ udp_raw_fd socket.socket) }
    {
        let Ok(socket) = open(net, addr) else {
            return Err(PortFault);
        };
        match address_of(&socket) {
            Some(address) if is_at(addr, address) => Ok(SystemSocket {
                socket,
                address,
                clock,
                is_waiting: true,
            }),
            _ => Err(PortFault),
        }
    }

    /// The address at which a socket receives.
    pub fn address(&self) -> Addr
        ensures { result ≡ self.now.address }
    {
        self.address
    }
}

impl<C: time::Clock> Socket for SystemSocket<'_, C> {
    /// It keeps no record of its calls.
    ghost state = { λ s. record { noted = None; waits = s.is_waiting } };

    fn is_waiting(&self) -> bool {
        self.is_waiting
    }

    // Lets through: failing at each call, so that the port never takes in without waiting. Sessions of
    // `tests/run` see it.
    fn set_waiting(&mut self, waits: bool) -> Result<(), PortFault> {
        match self.socket.set_nonblocking(!waits) {
            Ok(()) => {
                self.is_waiting = waits;
                Ok(())
            }
            Err(_) => Err(PortFault),
        }
    }

    // Lets through: no datagram, ever, or some octets of each. The tested body
    // `socket_receives_512_octets` cuts them; a case of `tests/run` (`test_bursts`) sees it. No test
    // has a receive that the system lets fail, or that a signal interrupts.
    fn receive(&mut self, buffer: &mut [u8]) -> Result<Option<(Addr, usize)>, PortFault> {
        match self.socket.recv_from(buffer) {
            Ok((len, from)) => match own_addr(from) {
                Some(from) => Ok(Some((from, len))),
                None => Ok(None),
            },
            Err(error) if is_no_datagram(error.kind()) => Ok(None),
            Err(_) => Err(PortFault),
        }
    }

    // Lets through: sending nothing, or some octets of each. The tested body `socket_sends_512_octets`
    // cuts them; a case of `tests/run` (`test_bursts`) sees it.
    fn send(&mut self, to: Addr, bytes: &[u8]) -> Result<(), PortFault> {
        match self.socket.send_to(bytes, system_addr(to)) {
            Ok(count) if count == bytes.len() => Ok(()),
            _ => Err(PortFault),
        }
    }

    // Lets through: a clock that can't be read, ever. The tested body `socket_has_no_clock` has such a
    // one; the test `a_pause_passes_on_the_clock` sees it.
    fn time(&mut self) -> Option<Duration> {
        self.clock.monotonic().ok()
    }

    // Lets through: any pause, and none. The tested body `socket_makes_no_pause` makes none; a case of
    // `tests/run` (`test_bursts`) sees it.
    fn pause(&mut self) {
        self.clock.sleep(Duration::from_millis(PAUSE));
    }
}

// Lets through: failing at each call, and a socket at another port, as `SystemSocket::bind`. Sessions of
// `tests/run` see it.
/// Makes a port at an address, as [`SystemSocket::bind`] binds it, whose frames come from these peers;
/// no call has failed. It keeps no record.
pub fn bind_port<'a, N: Net, C: time::Clock, A: Allocator + Copy>(
    net: &N,
    clock: &'a C,
    alloc: A,
    addr: Addr,
    peers: Vec<Addr, A>,
) -> Result<UdpPort<'a, C, A>, PortFault>
    ensures address { IfOk result (λ port. IsAt addr port.bursts.socket.address) }
    ensures peers { IfOk result (λ port. port.bursts.peers.items ≡ peers.items) }
    ensures failed { IfOk result (λ port. port.bursts.failed ≡ 0) }
{
    bind_logged(net, clock, alloc, addr, peers, Unnoted)
}

// Lets through: failing at each call, and a socket at another port, as `SystemSocket::bind`. No clause
// says which address and peers it is given: its caller `serve_site` has none.
/// Makes a port as `bind_port` does, which tells a log each of its calls.
pub fn bind_logged<'a, N: Net, C: time::Clock, A: Allocator + Copy, L: CallLog + Drop>(
    net: &N,
    clock: &'a C,
    alloc: A,
    addr: Addr,
    peers: Vec<Addr, A>,
    log: L,
) -> Result<BurstPort<SystemSocket<'a, C>, L, A>, PortFault>
    requires log { IfSome (L.noted log) (λ calls. calls ≡ []) }
    ensures address { IfOk result (λ port. IsAt addr port.bursts.socket.address) }
    ensures peers { IfOk result (λ port. port.bursts.peers.items ≡ peers.items) }
    ensures failed { IfOk result (λ port. port.bursts.failed ≡ 0) }
    ensures log { IfOk result (λ port. port.log ≡ log) }
{
    match SystemSocket::bind(net, clock, addr) {
        Ok(socket) => Ok(BurstPort::new(socket, log, alloc, peers)),
        Err(fault) => Err(fault),
    }
}

// Lets through: failing at each call, and a socket at another address, as `SystemSocket::bind`; and
// another time that receives wait, as `WAIT`.
/// Opens a socket that is bound to an address, and whose receives wait 200 milliseconds at most.
fn open<N: Net>(net: &N, addr: Addr) -> io::Result<UdpSocket>
    ensures { IfOk result (λ socket. pos 3 ≤ℤ udp_raw_fd socket) }
{
    let socket = beyond_standard(UdpSocket::bind(net, system_addr(addr))?)?;
    socket.set_read_timeout(Some(Duration::from_millis(WAIT)))?;
    Ok(socket)
}

// Lets through: failing at each call, as `SystemSocket::bind`.
/// The same socket, by a descriptor that is no standard one. A process that was started without
/// some of them is given their numbers first.
fn beyond_standard(socket: UdpSocket) -> io::Result<UdpSocket>
    ensures { IfOk result (λ socket. pos 3 ≤ℤ udp_raw_fd socket) }
{
    if socket.as_raw_fd() >= LOWEST_FREE {
        return Ok(socket);
    }
    let other = socket.try_clone()?;
    if other.as_raw_fd() < LOWEST_FREE {
        return Err(io::Error::from(ErrorKind::Other));
    }
    Ok(other)
}

/// Whether a socket that was to be bound to an address is there, by its own.
fn is_at(asked: Addr, own: Addr) -> bool
    ensures { IsTrue result ↔ IsAt asked own }
{
    asked.host == own.host && (asked.port == 0 || asked.port == own.port)
}

// Lets through: another address than the system tells, and none, since it has no clause. The tested body
// `socket_is_at_another_port` is such, as at `SystemSocket::bind`.
/// The address of a socket, if it is one of IPv4.
fn address_of(socket: &UdpSocket) -> Option<Addr> {
    match socket.local_addr() {
        Ok(addr) => own_addr(addr),
        Err(_) => None,
    }
}

/// An address in the form of the system, of which `own_addr` reads the same address back.
fn system_addr(addr: Addr) -> SocketAddr
    ensures { address_in result ≡ Some addr }
{
    SocketAddr::V4(SocketAddrV4::new(Ipv4Addr::from_bits(addr.host), addr.port))
}

/// The address that one in the form of the system is, if it is one of IPv4.
fn own_addr(addr: SocketAddr) -> Option<Addr>
    ensures { result ≡ address_in addr }
{
    match addr {
        SocketAddr::V4(addr) => Some(Addr {
            host: addr.ip().to_bits(),
            port: addr.port(),
        }),
        SocketAddr::V6(_) => None,
    }
}

/// Whether an error of a receive says that none came in time, or that it was interrupted.
fn is_no_datagram(kind: ErrorKind) -> bool
    ensures { IsTrue result ↔ IsQuiet kind }
{
    matches!(
        kind,
        ErrorKind::WouldBlock | ErrorKind::TimedOut | ErrorKind::Interrupted
    )
}
