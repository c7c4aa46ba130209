//! Laws of runs of a site. Each function does nothing: its contract is the law. They speak of steps of
//! the model and of turns; by `run` of [`serve`](crate::serve) a server makes such turns, and by
//! `whole` of [`serve_socket`](crate::serve_socket) it does so over a socket.

ghost use Rattle.fleet_site.specs.server.Replies.{NewOwesNothing, RepliesOnceInRuns};
ghost use Rattle.fleet_site.specs.server.Answered.{AllReplyOrWait, RelayedAtOnce, RepliedInTime, SoonWhenServed, StaysUntilReplied, TurnsServeAllDue};
ghost use Rattle.fleet_site.specs.server.Clients.{ArrivalsAreGiven, MemoryIsCounted, QuestionsAnswered, RunsAreTurns};
ghost use Rattle.fleet_site.specs.socket.Clients.{QuestionsAnsweredOverSockets, RepliesOnceOverSockets};

/// Each packet that a server sends to a client replies to a question that came from that client before,
/// and no two packets reply to the same one. A client is an address that is neither an upstream's nor a
/// peer's. The reply has the question's identifier, Opcode and RD (RFC 1035 4.1.1), the question in its
/// own spelling where it is read, and at most 512 octets (RFC 1035 2.3.4). No packet replies to a
/// reply.
///
/// - `once`: so it is in all runs, one after the other, of a site that had no open question at first.
/// - `new`: a new site, and one that was restarted, has none.
/// - `sockets`: so it is of the datagrams that a socket received and was given to send.
pub fn own_replies()
    ensures once { RepliesOnceInRuns }
    ensures new { NewOwesNothing }
    ensures sockets { RepliesOnceOverSockets }
{}

/// Where memory is there and the clock goes on, who asks a site gets a reply at once, or by the end of
/// as many tries as there are upstreams. In a try all that is due is served, at a clock 2 seconds or
/// more after that at its beginning; any steps may lie in it, but no restart.
///
/// - `at_once`: who asks gets a reply at once or waits, where memory is there. Who asks again for a
///   name and type for which the same address waits under the same identifier shares the reply, in the
///   spelling of the first.
/// - `relayed`: a reply of the upstream that is asked, with nothing wrong, goes to each who waits for
///   it in the step that took it, where memory is there.
/// - `stays`: who waits goes on waiting at each step, or gets in it such a reply, or a failure once the
///   time of the last upstream is over.
/// - `soon`: whenever all that is due was served, each deadline lies after the clock, and at most 2
///   seconds after it.
/// - `in_time`: after as many tries as there are upstreams, who waited at first has had a reply.
/// - `turns`: a turn of a server serves all that is due, where its ticks are done whole.
///
/// A clock that goes back stands still for the site until it has passed its greatest moment again:
/// until then nothing more falls due, and who waits may wait as long as that. A site that restarts
/// forgets who waited. What comes from an upstream's address with the identifier and the question is
/// taken for the upstream's reply.
pub fn none_forgotten()
    ensures at_once { AllReplyOrWait }
    ensures relayed { RelayedAtOnce }
    ensures stays { StaysUntilReplied }
    ensures soon { SoonWhenServed }
    ensures in_time { RepliedInTime }
    ensures turns { TurnsServeAllDue }
{}

/// Where memory is there, each question that a server receives from a client is replied to by the end
/// of as many tries as there are upstreams. The reply is in the record of its port, sent or lost. A try
/// is turns, the last of which serves all that is due at a clock 2 seconds or more after that at the
/// beginning of the try.
///
/// - `questions`: so it is in the first run of a site or a later one. A question that comes again while
///   the first waits is replied to in the spelling of the first.
/// - `runs`: the turns of a run are such turns.
/// - `given`: each datagram that a turn received was given to the site in that turn.
/// - `memory`: the datagram's step and the ticks had memory in all turns over which the count of short
///   steps does not rise: in all of a run whose report has `short` 0.
/// - `sockets`: in a whole run of a new port over a socket, a question that the port handed on has its
///   reply given to the socket after that.
///
/// It counts turns and moments of the clock, not time. A step that ran out of memory sends nothing: the
/// question that it was to take in gets no reply, and who waited goes on waiting. A tick without memory
/// ends the ticks of its turn, which then ends no try. A reply that the port lost is one. A question
/// that the port over a socket dropped, or that still waits in it after the last turn, gets no reply.
pub fn questions_answered()
    ensures questions { QuestionsAnswered }
    ensures runs { RunsAreTurns }
    ensures given { ArrivalsAreGiven }
    ensures memory { MemoryIsCounted }
    ensures sockets { QuestionsAnsweredOverSockets }
{}
