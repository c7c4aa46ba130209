//! What goes through a port, counted.

ghost use Rattle.std.specs.Prelude.{◌≡◌, ◌≤◌, IfOk, IfSome, length, slice_index};
ghost use Rattle.fleet_site.specs.server.PortRecord.{receive_of, send_of};
ghost use Rattle.fleet_site.specs.socket.Waiting.{is_peer};
ghost use Rattle.fleet_program.specs.Counting.{is_first, role_of, id_of, code_of, entries_of, no_counts, received_in, turns_in, at_once_in, sent_in};
ghost use Rattle.fleet_program.specs.steps.Tallying.{Becomes, Tallies, counted_in, none_counted, is_answered_by, is_relayed, one_more, count_at_once, count_later, count_query, count_entries, count_frame, count_datagram, count_packet, count_call};

use fleet_pending::Addr;
use fleet_site::PortFault;
use fleet_wire::rcode::{FORMAT_ERROR, NOT_IMPLEMENTED, REFUSED, SERVER_FAILURE};
use std::alloc::{Allocator, Global};
use std::fmt;

/// Counts of what went through a port, each modulo 2^64. A hit changes two of them: further counts are
/// sums of these.
#[derive(Clone, Copy, Debug, PartialEq, Eq)]
pub struct Counts {
    /// Receives that gave no datagram.
    pub none: u64,
    /// Receives that failed.
    pub faults: u64,
    /// Datagrams from clients, which are neither upstreams nor peers.
    pub questions: u64,
    /// Datagrams from upstreams.
    pub replies: u64,
    /// Datagrams from peers.
    pub frames_in: u64,
    /// Answers at once with records, a denial or TC: with another code than the next four.
    pub hits: u64,
    /// Answers at once with code 1.
    pub format_errors: u64,
    /// Answers at once with code 2.
    pub server_failures: u64,
    /// Answers at once with code 4.
    pub not_implemented: u64,
    /// Answers at once with code 5.
    pub refusals: u64,
    /// Answers in the turn of an upstream's reply; with code 2 where that reply has it.
    pub relayed: u64,
    /// All other answers: failures after the last upstream.
    pub failed: u64,
    /// Queries to upstreams.
    pub queries: u64,
    /// Queries to another upstream than the first.
    pub again: u64,
    /// Packets to peers.
    pub frames_out: u64,
    /// Packets whose send failed.
    pub lost: u64,
    /// Entries of the last sweep.
    pub items: u64,
}

impl Counts {
    /// Counts of nothing.
    pub fn new() -> Counts
        ensures { result ≡ no_counts }
    {
        Counts {
            none: 0,
            faults: 0,
            questions: 0,
            replies: 0,
            frames_in: 0,
            hits: 0,
            format_errors: 0,
            server_failures: 0,
            not_implemented: 0,
            refusals: 0,
            relayed: 0,
            failed: 0,
            queries: 0,
            again: 0,
            frames_out: 0,
            lost: 0,
            items: 0,
        }
    }

    /// How many datagrams were received.
    fn received(&self) -> u64
        ensures { result ≡ received_in self.now }
    {
        let messages = self.questions.wrapping_add(self.replies);
        messages.wrapping_add(self.frames_in)
    }

    /// How many receives there were; a turn makes one.
    fn turns(&self) -> u64
        ensures { result ≡ turns_in self.now }
    {
        let well = self.received().wrapping_add(self.none);
        well.wrapping_add(self.faults)
    }

    /// How many answers there were at once.
    fn at_once(&self) -> u64
        ensures { result ≡ at_once_in self.now }
    {
        let answers = self.hits.wrapping_add(self.format_errors);
        let answers = answers.wrapping_add(self.server_failures);
        let answers = answers.wrapping_add(self.not_implemented);
        answers.wrapping_add(self.refusals)
    }

    /// How many packets were sent.
    fn sent(&self) -> u64
        ensures { result ≡ sent_in self.now }
    {
        let answers = self.at_once().wrapping_add(self.relayed);
        let answers = answers.wrapping_add(self.failed);
        answers
            .wrapping_add(self.queries)
            .wrapping_add(self.frames_out)
    }

    /// Counts an answer at once, by its code.
    fn count_at_once(&mut self, code: u8)
        ensures { self.new ≡ count_at_once code self.old }
    {
        match code {
            FORMAT_ERROR => count_one(&mut self.format_errors),
            SERVER_FAILURE => count_one(&mut self.server_failures),
            NOT_IMPLEMENTED => count_one(&mut self.not_implemented),
            REFUSED => count_one(&mut self.refusals),
            _ => count_one(&mut self.hits),
        }
    }
}

// Lets through: any text. The tested body `line_exchanges_two_counts` has two counts exchanged; a case of
// `tests/run` (`test_reports`) sees it.
/// The counts as words: each one's key, and its number.
impl fmt::Display for Counts {
    fn fmt<W: fmt::Write>(&self, f: &mut fmt::Formatter<W>) -> fmt::Result {
        let (turns, received, sent) = (self.turns(), self.received(), self.sent());
        let Counts {
            questions,
            hits,
            format_errors,
            server_failures,
            not_implemented,
            refusals,
            relayed,
            failed,
            queries,
            again,
            replies,
            ..
        } = *self;
        write!(
            f,
            "turns {turns} received {received} sent {sent} lost {} faults {} ",
            self.lost, self.faults
        )?;
        write!(
            f,
            "questions {questions} hits {hits} code-1 {format_errors} code-2 {server_failures} code-4 {not_implemented} code-5 {refusals} "
        )?;
        write!(
            f,
            "relayed {relayed} failed {failed} queries {queries} again {again} replies {replies} "
        )?;
        write!(
            f,
            "frames-in {} frames-out {} items {}",
            self.frames_in, self.frames_out, self.items
        )
    }
}

/// What a turn is, by the datagram that it received, or what it sends.
#[derive(Clone, Copy, Debug, PartialEq, Eq)]
pub enum Turn {
    /// It received a question from this host and port, under this identifier. They are no `Addr`, whose
    /// parts take more instructions to look at.
    Question(u32, u16, u16),
    /// It received a datagram of this code from an upstream.
    Reply(u8),
    /// It sends a sweep.
    Sweep,
    /// Any other.
    Other,
}

/// What an address is to a site.
#[derive(Clone, Copy, PartialEq, Eq)]
pub enum Role {
    /// An upstream's.
    Upstream,
    /// A peer's.
    Peer,
    /// A client's: none of these.
    Client,
}

/// Counts of what goes through a site's port, whose upstreams and peers are these.
#[derive(Drop)]
pub struct Tally<A: Allocator = Global> {
    upstreams: Vec<Addr, A>,
    peers: Vec<Addr, A>,
    counts: Counts,
    turn: Turn,
}

impl<A: Allocator> Tally<A> {
    /// Counts of a port through which nothing went, of a site with these upstreams and peers.
    pub fn new(upstreams: Vec<Addr, A>, peers: Vec<Addr, A>) -> Tally<A>
        ensures upstreams { result.upstreams.items ≡ upstreams.items }
        ensures peers { result.peers.items ≡ peers.items }
        ensures counted { counted_in result ≡ none_counted }
    {
        Tally {
            upstreams,
            peers,
            counts: Counts::new(),
            turn: Turn::Other,
        }
    }

    /// The counts.
    pub fn counts(&self) -> &Counts
        ensures { result.now ≡ self.now.counts }
    {
        &self.counts
    }

    /// What an address is to the site.
    fn role_of(&self, addr: Addr) -> Role
        ensures { result ≡ role_of self.now.upstreams.items self.now.peers.items addr }
    {
        if is_among(&self.upstreams, addr) {
            Role::Upstream
        } else if is_among(&self.peers, addr) {
            Role::Peer
        } else {
            Role::Client
        }
    }

    /// Counts a receive that ended, into a buffer that now holds these octets.
    pub fn note_receive(&mut self, got: Result<Option<(Addr, usize)>, PortFault>, buffer: &[u8])
        requires { IfOk got (λ got. IfSome got (λ p. p.1 ≤ length buffer.now)) }
        ensures { Tallies self.old (receive_of (length buffer.now) got buffer.now) self.new }
    {
        match got {
            Ok(Some((from, len))) => self.count_datagram(from, &buffer[..len]),
            Ok(None) => {
                count_one(&mut self.counts.none);
                self.turn = Turn::Other;
            }
            Err(_) => {
                count_one(&mut self.counts.faults);
                self.turn = Turn::Other;
            }
        }
    }

    /// Counts a datagram that came.
    fn count_datagram(&mut self, from: Addr, octets: &[u8])
        ensures { Becomes self.old (count_datagram (role_of self.old.upstreams.items
            self.old.peers.items from) from octets.now self.old.counts) self.new }
    {
        match self.role_of(from) {
            Role::Upstream => {
                count_one(&mut self.counts.replies);
                self.turn = Turn::Reply(code_of(octets));
            }
            Role::Peer => {
                count_one(&mut self.counts.frames_in);
                self.turn = Turn::Other;
            }
            Role::Client => {
                count_one(&mut self.counts.questions);
                self.turn = Turn::Question(from.host, from.port, id_of(octets));
            }
        }
    }

    /// Counts a send that ended.
    pub fn note_send(&mut self, sent: Result<(), PortFault>, to: Addr, bytes: &[u8])
        ensures { Tallies self.old (send_of sent (record { to = to; octets = bytes.now })) self.new }
    {
        match sent {
            Ok(()) => self.count_packet(to, bytes),
            Err(_) => count_one(&mut self.counts.lost),
        }
    }

    /// Counts a packet that was sent.
    fn count_packet(&mut self, to: Addr, bytes: &[u8])
        ensures { Becomes self.old (count_packet self.old.upstreams.items self.old.peers.items
            (record { to = to; octets = bytes.now }) self.old.turn self.old.counts) self.new }
    {
        if self.turn.is_answered_by(to, bytes) {
            self.counts.count_at_once(code_of(bytes));
            return;
        }
        match self.role_of(to) {
            Role::Upstream => self.count_query(to),
            Role::Peer => self.count_frame(to, bytes),
            Role::Client => self.count_later(code_of(bytes)),
        }
    }

    /// Counts a query.
    fn count_query(&mut self, to: Addr)
        ensures { Becomes self.old (record {
          counts = count_query (is_first self.old.upstreams.items to) self.old.counts;
          turn = self.old.turn;
        }) self.new }
    {
        count_one(&mut self.counts.queries);
        if !is_first(&self.upstreams, to) {
            count_one(&mut self.counts.again);
        }
    }

    /// Counts an answer that is none at once.
    fn count_later(&mut self, code: u8)
        ensures { Becomes self.old (record {
          counts = count_later (is_relayed self.old.turn code) self.old.counts;
          turn = self.old.turn;
        }) self.new }
    {
        if self.turn.is_relayed(code) {
            count_one(&mut self.counts.relayed);
        } else {
            count_one(&mut self.counts.failed);
        }
    }

    /// Counts a frame, and where it goes to the first peer its entries.
    fn count_frame(&mut self, to: Addr, bytes: &[u8])
        ensures { Becomes self.old (count_frame (is_first self.old.peers.items to)
            (entries_of bytes.now) self.old.turn self.old.counts) self.new }
    {
        count_one(&mut self.counts.frames_out);
        if is_first(&self.peers, to) {
            self.count_entries(entries_of(bytes));
        }
    }

    /// Counts the entries of a frame, which begins a sweep or goes on with one, but in a turn that
    /// received a datagram from an upstream.
    fn count_entries(&mut self, entries: u64)
        ensures { Becomes self.old (count_entries self.old.turn entries self.old.counts) self.new }
    {
        match self.turn {
            Turn::Reply(_) => {}
            Turn::Sweep => self.counts.items = self.counts.items.wrapping_add(entries),
            _ => {
                self.counts.items = entries;
                self.turn = Turn::Sweep;
            }
        }
    }
}

impl Turn {
    /// Whether a packet answers the question that the turn received.
    fn is_answered_by(self, to: Addr, bytes: &[u8]) -> bool
        ensures { result ≡ is_answered_by self (record { to = to; octets = bytes.now }) }
    {
        match self {
            Turn::Question(host, port, id) => {
                let is_client = host == to.host && port == to.port;
                is_client && (code_of(bytes) != SERVER_FAILURE || id == id_of(bytes))
            }
            _ => false,
        }
    }

    /// Whether an answer with this code relays what the turn received.
    fn is_relayed(self, code: u8) -> bool
        ensures { result ≡ is_relayed self code }
    {
        match self {
            Turn::Reply(given) => code != SERVER_FAILURE || given == SERVER_FAILURE,
            _ => false,
        }
    }
}

/// Counts one more.
fn count_one(count: &mut u64)
    ensures { count.new ≡ one_more count.old }
{
    *count = count.wrapping_add(1);
}

/// Whether an address is one of a list. Lists are short here: this takes fewer instructions than
/// `contains`, which looks at four at a time.
fn is_among(addrs: &[Addr], addr: Addr) -> bool
    ensures { result ≡ is_peer addrs.now addr }
{
    addrs.iter().any(|it| *it == addr)
}

/// Whether an address is the first of a list.
fn is_first(addrs: &[Addr], addr: Addr) -> bool
    ensures { result ≡ is_first addrs.now addr }
{
    match addrs.first() {
        Some(first) => *first == addr,
        None => false,
    }
}

/// The identifier of a message (RFC 1035 4.1.1).
fn id_of(octets: &[u8]) -> u16
    ensures { result ≡ id_of octets.now }
{
    if octets.len() < 2 {
        return 0;
    }
    u16::from(octets[0]) * 256 + u16::from(octets[1])
}

/// The code of a message (RFC 1035 4.1.1).
fn code_of(octets: &[u8]) -> u8
    ensures { result ≡ code_of octets.now }
{
    octet_at(octets, 3) % 16
}

/// How many entries a frame has, by its head.
fn entries_of(octets: &[u8]) -> u64
    ensures { result ≡ entries_of octets.now }
{
    u64::from(octet_at(octets, 3)) * 256 + u64::from(octet_at(octets, 4))
}

/// The octet at a place, or 0 where there is none.
fn octet_at(octets: &[u8], place: usize) -> u8
    ensures { result ≡ slice_index octets.now place }
{
    match octets.get(place) {
        Some(octet) => *octet,
        None => 0,
    }
}
