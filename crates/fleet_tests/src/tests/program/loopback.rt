//! Two sites, a client and a stub upstream on sockets of this machine, in one process; what a port
//! counts and cuts; and the system's clock. The longest frame, and longer ones, are brought to a
//! running site from outside, by `tests/test_bursts.py`.

use crate::tests::sites::addr;
use crate::tests::turns::OneWord;
use fleet_observe::Moment;
use fleet_pending::Addr;
use fleet_program::{SystemClock, UdpPort, bind_port};
use fleet_site::{Clock, Config, Port, Report, Site, serve};
use std::alloc::Global;
use std::cell::Cell;
use std::io::ErrorKind;
use std::net::{Ipv4Addr, SocketAddrV4, UdpSocket};
use std::process::Abort;
use std::time::Duration;
use std::{io, time};

/// id 7 rd: example.com. IN A
const QUESTION: &[u8] =
    b"\x00\x07\x01\x00\x00\x01\x00\x00\x00\x00\x00\x00\x07example\x03com\x00\x00\x01\x00\x01";

/// id 7 qr rd ra NOERROR: example.com. IN A; answer example.com. 300 IN A 192.0.2.1
const RELAY: &[u8] =
    b"\x00\x07\x81\x80\x00\x01\x00\x01\x00\x00\x00\x00\x07example\x03com\x00\x00\x01\x00\x01\x07example\x03com\x00\x00\x01\x00\x01\x00\x00\x01\x2c\x00\x04\xc0\x00\x02\x01";

/// What lies after the id of qr rd ra NOERROR: example.com. IN A; answer example.com. 300 IN A
/// 192.0.2.1
const REPLY: &[u8] =
    b"\x81\x80\x00\x01\x00\x01\x00\x00\x00\x00\x07example\x03com\x00\x00\x01\x00\x01\xc0\x0c\x00\x01\x00\x01\x00\x00\x01\x2c\x00\x04\xc0\x00\x02\x01";

/// Where the last octet of the TTL is in the answer to it, which has the name in full.
const SECONDS: usize = 49;

/// A socket of a test, which waits for a second at most, and where it is.
pub fn open(stop: &impl Abort, rt: &HostRuntime) -> (UdpSocket, Addr) {
    let free = SocketAddrV4::new(Ipv4Addr::LOCALHOST, 0);
    let socket = UdpSocket::bind(rt, free).expect(stop, "a socket");
    socket
        .set_read_timeout(Some(Duration::from_secs(1)))
        .expect(stop, "a setting");
    let port = socket.local_addr().expect(stop, "an address").port();
    (socket, addr(port))
}

/// Sends octets to a port of this machine.
pub fn send(rt: &impl Abort, socket: &UdpSocket, to: Addr, bytes: &[u8]) {
    socket
        .send_to(bytes, SocketAddrV4::new(Ipv4Addr::LOCALHOST, to.port))
        .expect(rt, "a send");
}

/// The next datagram of a socket.
pub fn receive(rt: &impl Abort, alloc: Global, socket: &UdpSocket) -> Vec<u8> {
    let mut buffer = [0u8; 600];
    let (len, _) = socket.recv_from(&mut buffer).expect(rt, "a datagram");
    Vec::from_slice(alloc, &buffer[..len]).expect(rt, "memory")
}

/// A site with one upstream and one peer.
fn site_with(rt: &impl Abort, alloc: Global, upstream: Addr, peer: Addr) -> Site {
    let upstreams = Vec::from_slice(alloc, &[upstream]).expect(rt, "memory");
    let peers = Vec::from_slice(alloc, &[peer]).expect(rt, "memory");
    Site::new(
        alloc,
        Config::new(upstreams, peers).expect(rt, "a configuration"),
    )
}

/// A site on a socket.
#[derive(Drop)]
struct Served<'a> {
    port: UdpPort<'a, HostRuntime>,
    site: Site,
}

impl Served<'_> {
    /// Serves two turns: the datagram that is there, and none. So many packets are sent.
    fn serve<R: Abort + time::Clock>(&mut self, rt: &R, sent: u64) {
        let mut clock = SystemClock::new(rt);
        let mut rng = OneWord(0xabcd_1234);
        let report = serve(&mut self.port, &mut clock, &mut rng, &mut self.site, 2, 0);
        let wanted = Report {
            turns: 2,
            received: 1,
            sent,
            lost: 0,
            faults: 0,
            refused: 0,
            short: 0,
        };
        assert_eq!(rt; report, wanted);
        assert_eq!(rt; self.port.failures(), 0);
    }
}

/// Two sites that are each other's peers.
fn open_sites<'a>(
    stop: &impl Abort,
    rt: &'a HostRuntime,
    upstream: Addr,
) -> (Served<'a>, Served<'a>) {
    let alloc = rt.alloc();
    let first = bind_port(rt, rt, alloc, addr(0), Vec::new(alloc)).expect(stop, "a port");
    let second = bind_port(rt, rt, alloc, addr(0), Vec::new(alloc)).expect(stop, "a port");
    let (here, there) = (first.socket().address(), second.socket().address());
    let first = Served {
        port: first,
        site: site_with(stop, alloc, upstream, there),
    };
    let second = Served {
        port: second,
        site: site_with(stop, alloc, upstream, here),
    };
    (first, second)
}

/// The upstream answers the one query that was sent to it.
fn answer_query(rt: &impl Abort, alloc: Global, stub: &UdpSocket, site: Addr) {
    let query = receive(rt, alloc, stub);
    assert_eq!(rt; query.get(2..), QUESTION.get(2..));
    let id = query.get(..2).expect(rt, "an id");
    let mut reply = Vec::from_slice(alloc, id).expect(rt, "memory");
    reply.extend_from_slice(REPLY).expect(rt, "memory");
    send(rt, stub, site, &reply);
}

/// A site learns the answer from its upstream, and sends it to its peer.
fn check_first<R: Abort + time::Clock>(
    rt: &R,
    alloc: Global,
    client: &UdpSocket,
    stub: &UdpSocket,
    first: &mut Served<'_>,
) {
    send(rt, client, first.port.socket().address(), QUESTION);
    first.serve(rt, 1);
    answer_query(rt, alloc, stub, first.port.socket().address());
    first.serve(rt, 2);
    assert_eq!(rt; receive(rt, alloc, client).as_slice(), RELAY);
}

/// An answer has the record, with a TTL of 295 to 300 seconds, since a test may take some.
fn check_answer(rt: &impl Abort, answer: &mut [u8]) {
    let seconds = answer.get_mut(SECONDS).expect(rt, "a TTL");
    assert!(rt; 39 <= *seconds && *seconds <= 44);
    *seconds = 44;
    assert_eq!(rt; &*answer, RELAY);
}

/// The peer takes in what it was sent, and answers from it; the upstream is sent nothing more.
fn check_second<R: Abort + time::Clock>(
    rt: &R,
    alloc: Global,
    client: &UdpSocket,
    stub: &UdpSocket,
    second: &mut Served<'_>,
) {
    second.serve(rt, 0);
    send(rt, client, second.port.socket().address(), QUESTION);
    second.serve(rt, 1);
    check_answer(rt, receive(rt, alloc, client).as_mut_slice());
    stub.set_nonblocking(true).expect(rt, "a setting");
    assert!(rt; stub.recv_from(&mut [0u8; 600]).is_err());
}

/// One site after the other.
fn check_sites<R: Abort + time::Clock>(
    rt: &R,
    alloc: Global,
    stub: &UdpSocket,
    client: &UdpSocket,
    sites: &mut (Served<'_>, Served<'_>),
) {
    check_first(rt, alloc, client, stub, &mut sites.0);
    check_second(rt, alloc, client, stub, &mut sites.1);
}

#[test]
fn serves_what_a_peer_learnt(rt: HostRuntime) {
    let (client, _) = open(&rt, &rt);
    let (stub, upstream) = open(&rt, &rt);
    let mut sites = open_sites(&rt, &rt, upstream);
    check_sites(&rt, rt.alloc(), &stub, &client, &mut sites);
}

/// A send to no port fails and is counted; a receive that finds nothing is not.
fn check_failures(rt: &impl Abort, port: &mut UdpPort<'_, HostRuntime>) {
    assert!(rt; port.send(addr(0), b"x").is_err());
    assert_eq!(rt; port.failures(), 1);
    let mut buffer = [0u8; 8];
    assert!(rt; matches!(port.recv(&mut buffer), Ok(None)));
    assert_eq!(rt; port.failures(), 1);
}

/// A port receives the first octets of a datagram, as many as its buffer has.
fn check_cut(rt: &impl Abort, port: &mut UdpPort<'_, HostRuntime>, client: &UdpSocket, from: Addr) {
    let mut buffer = [0u8; 8];
    send(rt, client, port.socket().address(), b"123456789");
    assert!(rt; matches!(port.recv(&mut buffer), Ok(Some(got)) if got == (from, 8)));
    assert_eq!(rt; buffer, *b"12345678");
}

#[test]
fn counts_what_fails_and_cuts_what_is_too_long(rt: HostRuntime) {
    let alloc = rt.alloc();
    let mut port = bind_port(&rt, &rt, alloc, addr(0), Vec::new(alloc)).expect(&rt, "a port");
    check_failures(&rt, &mut port);
    let (client, from) = open(&rt, &rt);
    check_cut(&rt, &mut port, &client, from);
}

/// A clock that is set by hand; `None` is one that can't be read.
#[derive(Drop)]
struct Set(Cell<Option<Duration>>);

impl time::Clock for Set {
    fn monotonic(&self) -> io::Result<Duration> {
        self.since_1970()
    }

    fn since_1970(&self) -> io::Result<Duration> {
        self.0.get().ok_or(io::Error::from(ErrorKind::Other))
    }
}

/// A clock that was set so gives this moment.
fn check_now(
    rt: &impl Abort,
    set: &Set,
    clock: &mut SystemClock<'_, Set>,
    since: Option<Duration>,
    wanted: u64,
) {
    set.0.set(since);
    assert_eq!(rt; clock.now().value(), wanted);
}

/// A clock gives the latest moment where more has passed.
fn check_latest(rt: &impl Abort, set: &Set, clock: &mut SystemClock<'_, Set>) {
    let latest = 1 << 40;
    check_now(rt, set, clock, Some(Duration::from_secs(latest)), latest);
    check_now(
        rt,
        set,
        clock,
        Some(Duration::from_secs(latest + 1)),
        latest,
    );
    check_now(rt, set, clock, None, latest);
    check_now(rt, set, clock, Some(Duration::MAX), latest);
}

#[test]
fn returns_whole_seconds(rt: HostRuntime) {
    let set = Set(Cell::new(None));
    let mut clock = SystemClock::new(&set);
    check_now(&rt, &set, &mut clock, None, 0);
    let since = Duration::from_millis(1_700_000_000_999);
    check_now(&rt, &set, &mut clock, Some(since), 1_700_000_000);
    check_now(&rt, &set, &mut clock, None, 1_700_000_000);
    check_now(&rt, &set, &mut clock, Some(Duration::from_secs(7)), 7);
    check_latest(&rt, &set, &mut clock);
    check_now(&rt, &set, &mut clock, Some(Duration::ZERO), 0);
    let mut clock = SystemClock::new(&rt);
    // 2024 has begun.
    assert!(rt; clock.now() > Moment::new(1_704_067_200).unwrap());
}
