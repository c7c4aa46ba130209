//! Datagrams that wait in a port and find no memory: none is missing, with each call refused in
//! turn. And the time that a pause takes.

use super::loopback::{open, send};
use crate::tests::refusing::Refusing;
use crate::tests::sites::addr;
use fleet_pending::Addr;
use fleet_program::{SystemSocket, UdpPort, bind_port};
use fleet_site::{Port, Socket};
use std::alloc::{Allocator, Global};
use std::net::UdpSocket;
use std::process::Abort;
use std::time::{self, Duration};

/// How many octets a frame of these tests has: more than a message can have.
const FRAME: usize = 600;

/// A buffer with room for a frame and one octet more.
type Buffer = [u8; FRAME + 1];

/// Sends a datagram of each mark, again and again: a frame for a digit, a message for anything else.
fn send_marked(rt: &impl Abort, socket: &UdpSocket, to: Addr, marks: &str) {
    for mark in marks.bytes() {
        let len = if mark.is_ascii_digit() { FRAME } else { 20 };
        send(rt, socket, to, &[mark; FRAME][..len]);
    }
}

/// The marks of what a port hands on, until nothing comes.
fn handed_on<C: time::Clock, A: Allocator + Copy>(
    rt: &impl Abort,
    alloc: Global,
    port: &mut UdpPort<'_, C, A>,
) -> String {
    let mut marks = String::new(alloc);
    let mut buffer: Buffer = [0; FRAME + 1];
    for _ in 0..1000u32 {
        match port.recv(&mut buffer) {
            Ok(Some(_)) => marks.push(char::from(buffer[0])).expect(rt, "memory"),
            _ => return marks,
        }
    }
    panic!(rt; "no end")
}

/// The marks of a port to which three frames and two messages come.
fn marks_at<A: Allocator + Copy>(
    stop: &impl Abort,
    rt: &HostRuntime,
    port: &mut UdpPort<'_, HostRuntime, A>,
    client: &UdpSocket,
) -> String {
    send_marked(stop, client, port.socket().address(), "12a3b");
    handed_on(stop, rt.alloc(), port)
}

/// Three frames and two messages all come, each kind in order.
fn check_marks<A: Allocator + Copy>(stop: &impl Abort, rt: &HostRuntime, alloc: A) {
    let (client, from) = open(stop, rt);
    let peers = vec![in alloc; from].expect(stop, "memory");
    let mut port = bind_port(rt, rt, alloc, addr(0), peers).expect(stop, "a port");
    let marks = marks_at(stop, rt, &mut port, &client);
    let wanted = ["ab123", "1ab23"];
    assert!(stop; wanted.contains(&marks.as_str()), "{marks}");
    assert_eq!(stop; port.failures(), 0);
}

/// Three frames and two messages come, while a port's call for memory with that number is refused: none
/// of them is dropped. Whether the call was made.
fn check_refused(stop: &impl Abort, rt: &HostRuntime, call: u64) -> bool {
    let refusing = Refusing::after(rt.alloc(), call);
    check_marks(stop, rt, &refusing);
    refusing.has_refused()
}

/// Does so with each call refused in turn, until one is not made. The first call for memory is that
/// of the peers, without which there is no port.
fn refuse_each(stop: &impl Abort, rt: &HostRuntime) {
    for call in 2..100u64 {
        if !check_refused(stop, rt, call) {
            assert!(stop; call > 5);
            return;
        }
    }
    panic!(stop; "no end");
}

#[test]
fn drops_nothing_where_memory_fails(rt: HostRuntime) {
    refuse_each(&rt, &rt)
}

#[test]
fn a_pause_passes_on_the_clock(rt: HostRuntime) {
    let mut socket = SystemSocket::bind(&rt, &rt, addr(0)).expect(&rt, "a socket");
    let begun = socket.time().expect(&rt, "a clock");
    socket.pause();
    let ended = socket.time().expect(&rt, "a clock");
    assert!(rt; ended.saturating_sub(begun) >= Duration::from_millis(1));
}
