//! A port over a socket in memory: what it asks of the socket, call by call, what it notes, and
//! what it drops.

ghost use Rattle.std.specs.Prelude.{◌≡◌, [], IfSome, None};

use crate::tests::sites::addr;
use fleet_name::Octets;
use fleet_pending::Addr;
use fleet_site::{
    BurstPort, CallLog, Drops, MemoryLog, MemorySocket, Note, Port, PortFault, Queued, SocketNote,
};
use std::alloc::Global;
use std::process::Abort;

/// How many octets a frame of these tests has: more than a message can have.
const FRAME: usize = 600;

/// The peer of the port.
const PEER: u16 = 5401;

/// The port under test.
type Tested = BurstPort<MemorySocket, MemoryLog>;

/// Octets that begin with a mark: a frame of a peer for a digit, as many octets of a stranger for a
/// capital letter, and a message for anything else.
fn marked(rt: &impl Abort, alloc: Global, mark: u8) -> (Addr, Octets) {
    let is_long = mark.is_ascii_digit() || mark.is_ascii_uppercase();
    let len = if is_long { FRAME } else { 20 };
    let mut octets = vec![in alloc; 0u8; len].expect(rt, "memory");
    if let Some(first) = octets.first_mut() {
        *first = mark;
    }
    let from = if mark.is_ascii_digit() { PEER } else { 5999 };
    (addr(from), Octets::new(octets))
}

/// A log that keeps what it was told last of the port's queues.
#[derive(Drop)]
struct LastQueued {
    queued: Queued,
}

impl CallLog for LastQueued {
    ghost noted = { λ _. None };

    fn note_receive(
        &mut self,
        _got: Result<Option<(Addr, usize)>, PortFault>,
        _buffer: &[u8],
        queued: Queued,
    ) {
        self.queued = queued;
    }

    fn note_send(&mut self, _sent: Result<(), PortFault>, _to: Addr, _bytes: &[u8]) {}
}

/// A port to which what these marks say comes, and nothing at a dot.
fn port_with(rt: &impl Abort, alloc: Global, marks: &str) -> Tested {
    port_over(rt, alloc, marks, MemoryLog::new(alloc))
}

/// Such a port, which tells a log of its calls.
fn port_over<L: CallLog + Drop>(
    rt: &impl Abort,
    alloc: Global,
    marks: &str,
    log: L,
) -> BurstPort<MemorySocket, L>
    requires { IfSome (L.noted log) (λ calls. calls ≡ []) }
{
    let mut arrivals = Vec::new(alloc);
    for mark in marks.bytes() {
        let arrival = if mark == b'.' {
            None
        } else {
            Some(marked(rt, alloc, mark))
        };
        arrivals.push(arrival).expect(rt, "memory");
    }
    let socket = MemorySocket::new(alloc, arrivals, Some(addr(1)));
    let peers = vec![in alloc; addr(PEER)].expect(rt, "memory");
    BurstPort::new(socket, log, alloc, peers)
}

/// The first octet.
fn mark_of(octets: &[u8]) -> char {
    match octets.first() {
        Some(mark) => char::from(*mark),
        None => '?',
    }
}

/// A call of the socket: `w` where a receive waits, then the mark of what came, or a dot; `>` and the
/// mark of what was sent, `!` and that of what was refused; `t` for the time, `p` for a pause, `+` and
/// `-` where receives begin and cease to wait.
fn show_note(rt: &impl Abort, text: &mut String, note: &SocketNote) {
    let (sign, mark) = match note {
        SocketNote::Came(true, _, _, octets) => ('w', mark_of(octets.as_slice())),
        SocketNote::Came(false, _, _, octets) => (' ', mark_of(octets.as_slice())),
        SocketNote::NoneCame(true, _) => ('w', '.'),
        SocketNote::NoneCame(false, _) => (' ', '.'),
        SocketNote::Failed(_, _) => (' ', '?'),
        SocketNote::Sent(_, octets) => ('>', mark_of(octets.as_slice())),
        SocketNote::Unsent(_, octets) => ('!', mark_of(octets.as_slice())),
        SocketNote::ClockRead(_) => (' ', 't'),
        SocketNote::Paused => (' ', 'p'),
        SocketNote::Switched(true, _) => (' ', '+'),
        SocketNote::Switched(false, _) => (' ', '-'),
    };
    if sign != ' ' {
        text.push(sign).expect(rt, "memory");
    }
    text.push(mark).expect(rt, "memory");
}

/// All calls of the socket.
fn show_notes(rt: &impl Abort, alloc: Global, port: &Tested) -> String {
    let mut text = String::new(alloc);
    match port.socket().notes() {
        Some(notes) => {
            for note in notes {
                show_note(rt, &mut text, note);
            }
        }
        None => text.push('?').expect(rt, "memory"),
    }
    text
}

/// A call of the port: the mark of what was handed on, a dot for none, `?` for a receive that failed, `>`
/// and the mark of what was sent, `!` and that of what was lost.
fn show_call(rt: &impl Abort, text: &mut String, note: &Note) {
    let (sign, mark) = match note {
        Note::Received(_, _, octets) => (' ', mark_of(octets.as_slice())),
        Note::NoDatagram(_) => (' ', '.'),
        Note::Fault(_) => (' ', '?'),
        Note::Sent(_, octets) => ('>', mark_of(octets.as_slice())),
        Note::Lost(_, octets) => ('!', mark_of(octets.as_slice())),
    };
    if sign != ' ' {
        text.push(sign).expect(rt, "memory");
    }
    text.push(mark).expect(rt, "memory");
}

/// All calls of the port.
fn show_log(rt: &impl Abort, alloc: Global, port: &Tested) -> String {
    let mut text = String::new(alloc);
    match port.log().notes() {
        Some(notes) => {
            for note in notes {
                show_call(rt, &mut text, note);
            }
        }
        None => text.push('?').expect(rt, "memory"),
    }
    text
}

/// What a receive hands on: its mark, a dot for none, `?` where it fails.
fn receive<L: CallLog + Drop>(port: &mut BurstPort<MemorySocket, L>) -> char {
    let mut buffer = [0u8; FRAME + 1];
    match port.recv(&mut buffer) {
        Ok(Some(_)) => mark_of(&buffer),
        Ok(None) => '.',
        Err(_) => '?',
    }
}

/// Does what a letter says: `r` receives, `f` and `g` send a frame to the peer and to an address that
/// is refused, `m` a message, `e` sends the rest. Gives what was handed on, or `!` for a failed send.
fn act(rt: &impl Abort, alloc: Global, port: &mut Tested, letter: u8) -> Option<char> {
    let (_, message) = marked(rt, alloc, b'm');
    let (_, frame) = marked(rt, alloc, b'1');
    let sent = match letter {
        b'r' => return Some(receive(port)),
        b'f' => port.send(addr(PEER), frame.as_slice()),
        b'g' => port.send(addr(1), frame.as_slice()),
        b'm' => port.send(addr(PEER), message.as_slice()),
        _ => {
            port.finish();
            Ok(())
        }
    };
    if sent.is_err() { Some('!') } else { None }
}

/// These letters, at a port to which these marks come: what is handed on, and what the socket is
/// asked for.
fn check(rt: &impl Abort, alloc: Global, marks: &str, letters: &str, handed: &str, asked: &str) {
    let mut port = port_with(rt, alloc, marks);
    let mut text = String::new(alloc);
    for letter in letters.bytes() {
        if let Some(mark) = act(rt, alloc, &mut port, letter) {
            text.push(mark).expect(rt, "memory");
        }
    }
    assert_eq!(rt; text.as_str(), handed);
    assert_eq!(rt; show_notes(rt, alloc, &port).as_str(), asked);
}

/// The port's own record of what these letters do.
fn check_log(rt: &impl Abort, alloc: Global, marks: &str, letters: &str, noted: &str) {
    let mut port = port_with(rt, alloc, marks);
    for letter in letters.bytes() {
        act(rt, alloc, &mut port, letter);
    }
    assert_eq!(rt; show_log(rt, alloc, &port).as_str(), noted);
}

#[test]
fn a_port_over_a_socket_notes_its_calls(rt: HostRuntime) {
    let alloc = rt.alloc();
    check_log(&rt, alloc, "12a.", "rrrrme", "a12.>m");
    // A frame counts as sent when it begins to wait. Where it is refused then, that receive fails.
    check_log(&rt, alloc, "", "gfrre", ">1>1?.");
}

/// How many datagrams the socket gave.
fn came(port: &Tested) -> usize {
    let mut count = 0usize;
    if let Some(notes) = port.socket().notes() {
        for note in notes {
            if matches!(note, SocketNote::Came(_, _, _, _)) {
                count = count.saturating_add(1);
            }
        }
    }
    count
}

/// Of thousands of datagrams with one mark, which follow a frame, how many had come after so many
/// receives, and how many messages and frames of them were dropped.
fn taken_in(rt: &impl Abort, alloc: Global, mark: char, receives: u8) -> (usize, u64, u64) {
    let mut marks = String::new(alloc);
    marks.push('1').expect(rt, "memory");
    for _ in 0..5000u16 {
        marks.push(mark).expect(rt, "memory");
    }
    let mut port = port_with(rt, alloc, marks.as_str());
    for _ in 0..receives {
        receive(&mut port);
    }
    let dropped = port.dropped();
    (came(&port), dropped.messages, dropped.frames)
}

/// 4,095 messages wait, or as many frames.
#[test]
fn what_has_no_room_is_dropped(rt: HostRuntime) {
    let alloc = rt.alloc();
    // One frame waits. With each of four receives came 1,024 messages, and one was handed on: three
    // more had room. A receive drops four messages at most.
    assert_eq!(rt; taken_in(&rt, alloc, 'a', 4), (1 + 4096, 0, 0));
    assert_eq!(rt; taken_in(&rt, alloc, 'a', 5), (1 + 4096 + 3 + 4, 4, 0));
    assert_eq!(rt;
        taken_in(&rt, alloc, 'a', 6),
        (1 + 4096 + 3 + 4 + 1 + 4, 8, 0)
    );
    // The frame in front counts among the frames; of them all that find no room are dropped.
    assert_eq!(rt; taken_in(&rt, alloc, '2', 4), (1 + 4096, 0, 0));
    assert_eq!(rt;
        taken_in(&rt, alloc, '2', 5),
        (1 + 5000, 0, 5000 - 4096 - 2)
    );
}

#[test]
fn a_port_over_a_socket_works_in_bursts(rt: HostRuntime) {
    let alloc = rt.alloc();
    // A message is one receive, and a reply one send.
    check(&rt, alloc, "ab", "rmrm", "ab", "wa>mwb>m");
    check(&rt, alloc, "a.", "rrr", "a..", "waw.w.");
    // After a frame the socket is emptied; messages are handed on first.
    check(&rt, alloc, "12a3b..", "rrrrrr", "ab123.", "w1-2a3b.....+w.");
    // What comes meanwhile is taken in too.
    check(&rt, alloc, "1a.2b.", "rrrrr", "ab12.", "w1-a.2b...+w.");
    // A stranger's long datagram is no frame: it waits only where no message does, and else is dropped.
    check(&rt, alloc, "A1", "rr", "A1", "wA-1..");
    check(
        &rt,
        alloc,
        "1aA2Bb.",
        "rrrrrr",
        "ab12..",
        "w1-aA2Bb....+w.w.",
    );
    check(&rt, alloc, "1ABCDEa.", "rrr", "Aa1", "w1-ABCDEa...");
    // Frames wait; two of them go out at a time, with a pause between.
    check(&rt, alloc, "", "fffffmr", ".", ">mt>1>1-.pt>1>1.pt>1.");
    check(&rt, alloc, "a", "fffrr", "a.", "t>1>1-a.t.pt>1.");
    check(&rt, alloc, "abc", "fffrrr", "abc", "t>1>1-abc.t.t.");
    // All that waits is sent at the end.
    check(&rt, alloc, "", "fffffe", "", ">1>1p>1>1p>1");
    // What the system refuses fails the receive, and is not sent again.
    check(&rt, alloc, "", "gfrr", "?.", "t!1t>1-.");
}

/// The frame with a number, a message of 512 octets and one more; no two have the same octets.
fn numbered(number: u16) -> [u8; 513] {
    let mut octets = [0u8; 513];
    octets[..2].copy_from_slice(&number.to_be_bytes());
    octets
}

/// A log is told how many datagrams wait in each queue once a receive ended.
#[test]
fn a_log_is_told_what_waits(rt: HostRuntime) {
    let none = Queued {
        messages: 0,
        frames: 0,
        leaving: 0,
        dropped: Drops::none(),
        unpaced: 0,
    };
    let log = LastQueued { queued: none };
    let mut port = port_over(&rt, rt.alloc(), "12a3b4.", log);
    for number in 0..5u16 {
        let sent = port.send(addr(PEER), &numbered(number));
        assert!(rt; sent.is_ok());
    }
    // Two of the five frames that wait go out, then all that came is taken in, and a message is handed on.
    assert_eq!(rt; receive(&mut port), 'a');
    let waiting = Queued {
        messages: 1,
        frames: 4,
        leaving: 3,
        ..none
    };
    assert_eq!(rt; port.log().queued, waiting);
}

/// Sends a frame to a peer. Whether it went out at once.
fn goes_at_once(rt: &impl Abort, port: &mut Tested, number: u16, peer: u16) -> bool {
    let before = port.unpaced();
    let sent = port.send(addr(PEER.saturating_add(peer)), &numbered(number));
    assert!(rt; sent.is_ok());
    port.unpaced() > before
}

/// Sends so many frames to the peer. How many went out at once, and which one of them was the first.
fn sweep(rt: &impl Abort, port: &mut Tested, frames: u16) -> (u16, Option<u16>) {
    let (mut count, mut first) = (0u16, None);
    for number in 0..frames {
        if goes_at_once(rt, port, number, 0) {
            count = count.saturating_add(1);
            first = first.or(Some(number));
        }
    }
    (count, first)
}

/// Sends all that waits, and begins a turn.
fn begin_turn(rt: &impl Abort, port: &mut Tested) {
    port.finish();
    assert_eq!(rt; receive(port), '.');
}

/// A frame waits once for sixteen peers, and 4,095 of them find room.
#[test]
fn a_frame_to_many_peers_waits_once(rt: HostRuntime) {
    let mut port = port_with(&rt, rt.alloc(), "");
    for number in 0..4095u16 {
        for peer in 0..16u16 {
            assert!(rt; !goes_at_once(&rt, &mut port, number, peer));
        }
    }
    // The last one goes to as many as it may.
    assert!(rt; goes_at_once(&rt, &mut port, 4094, 16));
}

/// Of a sweep that does not find room other frames go out at once each time: the last two, and then
/// those before them.
fn check_sweeps(rt: &impl Abort, port: &mut Tested) {
    assert_eq!(rt; sweep(rt, port, 4097), (2, Some(4095)));
    begin_turn(rt, port);
    assert_eq!(rt; sweep(rt, port, 4097), (2, Some(4093)));
    begin_turn(rt, port);
    // More is missed than half of the places: half is left for it.
    assert_eq!(rt; sweep(rt, port, 9000), (4905, Some(4095)));
    begin_turn(rt, port);
    assert_eq!(rt; sweep(rt, port, 9000), (4905, Some(2048)));
    begin_turn(rt, port);
}

/// A sweep that finds room changes nothing.
fn check_small(rt: &impl Abort, port: &mut Tested) {
    assert_eq!(rt; sweep(rt, port, 2048), (0, None));
    begin_turn(rt, port);
    assert_eq!(rt; sweep(rt, port, 9000), (4905, Some(2048)));
    begin_turn(rt, port);
}

/// A turn of 1,023 frames does not count as a sweep, though not all of it waits; one of 1,024 does.
fn check_few(rt: &impl Abort, port: &mut Tested, few: u16, then: u16) {
    assert_eq!(rt; sweep(rt, port, 4097), (2, Some(4095)));
    // 402 are sent.
    assert_eq!(rt; receive(port), '.');
    assert_eq!(rt; sweep(rt, port, few), (few.saturating_sub(400), Some(400)));
    begin_turn(rt, port);
    assert_eq!(rt; sweep(rt, port, 4097), (2, Some(then)));
    begin_turn(rt, port);
}

#[test]
fn other_frames_of_each_sweep_go_out_at_once(rt: HostRuntime) {
    let mut port = port_with(&rt, rt.alloc(), "");
    check_sweeps(&rt, &mut port);
    check_small(&rt, &mut port);
}

#[test]
fn few_frames_are_no_sweep(rt: HostRuntime) {
    let mut port = port_with(&rt, rt.alloc(), "");
    check_few(&rt, &mut port, 1023, 4093);
    check_few(&rt, &mut port, 1024, 4095);
}
