//! A site.

ghost use Rattle.std.specs.Prelude.{◌≡◌, ◌≢◌, ◌↔◌, max, IsTrue, false, IfOk, IfErr, OnErr, []};
ghost use Rattle.fleet_site.specs.ConfigData.{IsAmong};
ghost use Rattle.fleet_site.specs.SiteModel.{SiteModel};
ghost use Rattle.fleet_site.specs.StandsFor.{StandsFor, Follows, Answers, Gathers, opening};
ghost use Rattle.fleet_site.specs.steps.Sender.{IsSender};
ghost use Rattle.fleet_site.specs.SiteData.{IsSiteData};
ghost use Rattle.fleet_site.specs.question.Handling.{handled_result, IsInPlace};
ghost use Rattle.fleet_site.specs.Step.{datagram as a_datagram, tick as a_tick, frame as a_frame, learn as a_reply, flush as a_flush};
ghost use Rattle.fleet_site.specs.gossip.Sweep.{IsSweep};
ghost use Rattle.fleet_site.specs.Tick.{LeavesFewer};
ghost use Rattle.fleet_site.specs.question.Decision.{IsAsking, IsPlainHit};
ghost use Rattle.fleet_site.specs.declared.site.Sender.TheVariants.{Other};
ghost use Rattle.fleet_site.specs.declared.outcome.SiteFault.TheVariants.{OutOfMemory};

use crate::config::{Config, place_of};
use crate::datagram::Datagram;
use crate::decision::{Decision, decide};
use crate::flush::flush_name;
use crate::frame::take_frame;
use crate::handled::Handled;
use crate::learn::learn_reply;
use crate::looked::Looked;
use crate::outcome::{Outcome, SiteFault};
use crate::question::{take_question, take_question_into, whole};
use crate::relay::take_reply;
use crate::tick::serve_due;
use fleet_cache::Cache;
use fleet_gossip::sweep;
use fleet_name::{Name, Octets};
use fleet_observe::Moment;
use fleet_pending::{Addr, Pending};
use fleet_wire::bounds::LONGEST_MESSAGE;
use std::alloc::{AllocError, Allocator, Global};
use std::marker::Model;

/// A site: what it holds of the observations that it took in, and the questions that wait for an
/// upstream.
///
/// Each call with a moment first raises the clock to it, if that is later, and takes the clock for
/// stamps, answers and deadlines. What a call sends is made before an observation is taken and before
/// an open question changes; a tick has dropped what has ended before.
///
/// A site stands for models: the plain set of all that it took in since it last began, a floor, a clock
/// and the open questions. For every model that it stands for, each call is a step of that model: its
/// packets, octet by octet, its frames, what it takes and what it refuses, with the checks in their
/// order. The site stands for the model afterwards.
///
/// A call that runs out of memory took just the first observations of what it brings, sends nothing,
/// and leaves the open questions as they were. No refusal waits for memory that it does not need: what
/// is dropped, what can't be read as a reply or a frame, an empty frame, and an idle tick never run out
/// of memory.
#[derive(Drop)]
pub struct Site<A: Allocator = Global> {
    config: Config<A>,
    cache: Cache<A>,
    pending: Pending<A>,
    clock: Moment,
}

impl<A: Allocator> Model for Site<A> {
    ghost use Rattle.fleet_site.specs.SiteData.{SiteData, site_data, IsSiteData};

    ghost Value = { SiteData };

    ghost view = { λ s. site_data s.config s.cache s.clock s.pending };

    ghost invariant = { λ s. IsSiteData (site_data s.config s.cache s.clock s.pending) };
}

/// Where a datagram comes from.
#[derive(Clone, Copy)]
enum Sender {
    /// An upstream, at this place.
    Upstream(u8),
    /// A peer.
    Peer,
    /// Any other address.
    Other,
}

/// What an address is to a site: an upstream's, else a peer's, else any other.
fn sender_of<A: Allocator>(config: &Config<A>, from: Addr) -> Sender
    ensures { IsSender config.now.upstreams config.now.peers from result }
{
    if let Some(place) = place_of(config.upstreams(), from) {
        return Sender::Upstream(place as u8);
    }
    match place_of(config.peers(), from) {
        Some(_) => Sender::Peer,
        None => Sender::Other,
    }
}

/// Whether what comes from such a sender is a question: it is neither an upstream nor a peer.
fn is_asker(sender: Sender) -> bool
    ensures { IsTrue result ↔ (sender ≡ Other) }
{
    match sender {
        Sender::Upstream(_) => false,
        Sender::Peer => false,
        Sender::Other => true,
    }
}

impl<A: Allocator + Copy> Site<A> {
    /// A new site: it took nothing in and asks nothing, at the moment 0.
    pub fn new(alloc: A, config: Config<A>) -> Site<A>
        ensures opens { StandsFor result (opening config.upstreams config.peers) }
    {
        let cache = Cache::new(alloc);
        let pending = Pending::new(alloc, config.upstreams().len() as u8);
        let clock = cache.floor();
        Site {
            config,
            cache,
            pending,
            clock,
        }
    }

    /// Begins a site again: it forgets what it took in, what it asks and who waits, and is at the
    /// moment 0 with the same addresses.
    pub fn restart(&mut self)
        ensures opens { (m : SiteModel) → StandsFor self.old m
            → StandsFor self.new (opening m.upstreams m.peers) }
        ensures config { self.new.config ≡ self.old.config }
    {
        self.cache.clear();
        self.pending.clear();
        self.clock = self.cache.floor();
    }

    /// The cache of a site: what it holds of the observations that it took in. Its floor never passes
    /// the site's clock.
    pub fn cache(&self) -> &Cache<A>
        ensures cache { result.now ≡ self.now.cache }
        ensures lawful { IsSiteData self.now }
    {
        &self.cache
    }

    /// The clock of a site: the greatest moment that it was given, or purged to by a merge, since it
    /// last began.
    pub fn clock(&self) -> Moment
        ensures clock { result ≡ self.now.clock }
        ensures lawful { IsSiteData self.now }
    {
        self.clock
    }

    /// The peers of a site, which it sends frames to in this order.
    pub(crate) fn peers(&self) -> &[Addr]
        ensures { result.now ≡ self.now.config.peers }
    {
        self.config.peers()
    }

    /// Does with a datagram what its sender calls for: from an upstream's address comes a reply, from a
    /// peer's a frame, from any other a question. Addresses are compared whole, host and port. `word`
    /// is where the search for the identifier of a new query begins.
    ///
    /// A question, in this order. Under 12 octets or with QR set: `Dropped`. Another Opcode than 0:
    /// RCODE 4, the header alone. What can't be read: RCODE 1, the header alone, and `Read`. Another
    /// class than 1 (IN) or a type that no data has: RCODE 4, with the question. What the cache
    /// answers: the octets of that answer, over all that the site took in. With RD clear: RCODE 5, with
    /// the question. Else it joins the open questions: a new one's query goes to the first upstream,
    /// one that is open already gets nothing yet, and where there are too many, or too many wait for
    /// this one, RCODE 2 and `Full`.
    ///
    /// A reply, in this order. Under 12 octets or with QR clear: `Dropped`. What can't be read: `Read`.
    /// What no open question waits for at this upstream: `Unmatched`. What is no reply to a served
    /// question, or has a bad chain of aliases: `Digest`. Else it is relayed to all who wait, once each
    /// and in order of joining, with the identifier and spelling of each and with RD set; its
    /// observations go out as frames and into the cache, and the question is settled, whatever the
    /// reply's RCODE. A refusal leaves the question open.
    ///
    /// A frame: `Frame`, or its observations go into the cache; they are not sent on before the next
    /// sweep.
    pub fn datagram(
        &mut self,
        now: Moment,
        from: Addr,
        bytes: &[u8],
        word: u16,
    ) -> Result<Outcome<A>, SiteFault>
        ensures follows { (m : SiteModel) → StandsFor self.old m
            → Follows m (a_datagram now from bytes.now word) result self.new }
        ensures config { self.new.config ≡ self.old.config }
    {
        let sender = sender_of(&self.config, from);
        let datagram = Datagram {
            moment: now,
            from,
            word,
            octets: bytes,
        };
        self.dispatch(sender, &datagram)
    }

    // Lets through: a hit that takes memory where `out` has room: no clause says that it takes none.
    // The test `a_hit_takes_no_memory` sees it.
    /// Does what `datagram` does, and may write the reply into a buffer. Where the result is `Reply`,
    /// the octets in `out`, to who asked, are all that is given; else it is the outcome, and `out`
    /// holds anything.
    ///
    /// A plain question is a standard query of class 1 (IN), of a type that data can have, with its
    /// name in full and in lower case. It is read and looked up once. Where the cache answers it, the
    /// reply is written in place of what `out` holds, unless memory runs out. Where `out` has room for
    /// 512 octets, such a hit takes no memory for up to four records in a section.
    pub fn datagram_into(
        &mut self,
        now: Moment,
        from: Addr,
        bytes: &[u8],
        word: u16,
        out: &mut Vec<u8, A>,
    ) -> Result<Handled<A>, SiteFault>
        ensures follows { (m : SiteModel) → StandsFor self.old m
            → Follows m (a_datagram now from bytes.now word)
            (handled_result from out.new.items result) self.new }
        ensures in_place { (m : SiteModel) → StandsFor self.old m → ¬ IsAmong m.upstreams from
            → ¬ IsAmong m.peers from → IsPlainHit m.taken (max m.clock now) bytes.now
            → IfOk result (λ h. IsInPlace h) }
        ensures config { self.new.config ≡ self.old.config }
    {
        let sender = sender_of(&self.config, from);
        if !is_asker(sender) {
            let datagram = Datagram {
                moment: now,
                from,
                word,
                octets: bytes,
            };
            return whole(self.dispatch(sender, &datagram));
        }
        let clock = self.clock.later(now);
        self.clock = clock;
        let datagram = Datagram {
            moment: clock,
            from,
            word,
            octets: bytes,
        };
        take_question_into(
            &self.cache,
            &mut self.pending,
            self.config.upstreams(),
            &datagram,
            out,
        )
    }

    /// Does with a datagram what its sender calls for.
    fn dispatch(&mut self, sender: Sender, datagram: &Datagram<'_>) -> Result<Outcome<A>, SiteFault>
        requires { IsSender self.old.config.upstreams self.old.config.peers datagram.now.from
            sender }
        ensures follows { (m : SiteModel) → StandsFor self.old m
            → Follows m (a_datagram datagram.now.moment datagram.now.from datagram.now.octets.now
            datagram.now.word) result self.new }
        ensures config { self.new.config ≡ self.old.config }
    {
        self.clock = self.clock.later(datagram.moment);
        match sender {
            Sender::Upstream(place) => {
                take_reply(
                    &mut self.cache,
                    &mut self.pending,
                    place,
                    self.clock,
                    datagram.octets,
                )
            }
            Sender::Peer => take_frame(&mut self.cache, datagram.octets),
            Sender::Other => {
                let datagram = Datagram {
                    moment: self.clock,
                    ..*datagram
                };
                take_question(
                    &self.cache,
                    &mut self.pending,
                    self.config.upstreams(),
                    &datagram,
                )
            }
        }
    }

    // Lets through: any vector, since it has no clause. `datagram_into` makes room where there is too
    // little, so with a smaller one the first hits of a run take memory.
    /// A vector for the replies of `datagram_into`, with room for a whole one where there is memory for
    /// that. Else it is empty, and each hit tries to make room anew.
    pub(crate) fn reply_buffer(&self) -> Vec<u8, A> {
        let alloc = *self.cache.allocator();
        let mut out = Vec::new(alloc);
        if let Err(_) = out.reserve(LONGEST_MESSAGE) {
            return Vec::new(alloc);
        }
        out
    }

    /// Drops what has ended, and then serves the first open question whose time is over: its query goes
    /// to the next upstream under the same identifier, or after the last all who wait get RCODE 2 and
    /// it is settled. `more` says whether another one is due; then fewer are due than before, so the
    /// ticks at a moment end.
    pub fn tick(&mut self, now: Moment) -> Result<Outcome<A>, SiteFault>
        ensures follows { (m : SiteModel) → StandsFor self.old m
            → Follows m (a_tick now) result self.new }
        ensures config { self.new.config ≡ self.old.config }
        ensures clock { self.new.clock ≡ max self.old.clock now }
        ensures fewer { IfOk result (λ o.
            IsTrue o.more → LeavesFewer self.old.pending self.new.pending self.new.clock) }
    {
        self.clock = self.clock.later(now);
        self.cache.purge(self.clock);
        serve_due(&mut self.pending, self.config.upstreams(), self.clock)
    }

    /// Takes the observations of a frame in, in their order; `Frame` where it is none.
    pub fn frame(&mut self, now: Moment, bytes: &[u8]) -> Result<Outcome<A>, SiteFault>
        ensures follows { (m : SiteModel) → StandsFor self.old m
            → Follows m (a_frame now bytes.now) result self.new }
        ensures config { self.new.config ≡ self.old.config }
    {
        self.clock = self.clock.later(now);
        take_frame(&mut self.cache, bytes)
    }

    /// Takes the observations of a reply in, whoever it is from; it may have none. `Read` where it
    /// can't be read. `Digest` where it is no reply to a question that is served, or its aliases fork,
    /// loop or have a ninth link. It matches no open question and sends nothing.
    pub fn learn(&mut self, now: Moment, bytes: &[u8]) -> Result<Outcome<A>, SiteFault>
        ensures follows { (m : SiteModel) → StandsFor self.old m
            → Follows m (a_reply now bytes.now) result self.new }
        ensures config { self.new.config ≡ self.old.config }
    {
        self.clock = self.clock.later(now);
        learn_reply(&mut self.cache, self.clock, bytes)
    }

    /// Withdraws what was stamped at the site's clock or before, at a name and below it: the flush is
    /// taken, and its one frame goes out to every peer. Its stamp is the clock, also where an earlier
    /// moment is handed in. What is stamped later in the same second is withdrawn too. Who waits for an
    /// upstream goes on waiting.
    pub fn flush(&mut self, now: Moment, name: &Name<A>) -> Result<Outcome<A>, SiteFault>
        ensures follows { (m : SiteModel) → StandsFor self.old m
            → Follows m (a_flush now name.now) result self.new }
        ensures config { self.new.config ≡ self.old.config }
    {
        self.clock = self.clock.later(now);
        flush_name(&mut self.cache, self.clock, name)
    }

    /// What a site answers to a question, in the order of a datagram's, without the open questions:
    /// where the cache has no answer it is a miss, whatever RD is. Nothing changes but the clock. It
    /// can run out of memory only for octets with the header of a question.
    pub fn ask(&mut self, now: Moment, bytes: &[u8]) -> Result<Looked<A>, SiteFault>
        ensures answers { (m : SiteModel) → StandsFor self.old m
            → Answers m now bytes.now result self.new }
        ensures stopped { IfErr result (λ f. f ≡ OutOfMemory 0) }
        ensures memory { IfErr result (λ _. IsAsking bytes.now) }
        ensures config { self.new.config ≡ self.old.config }
    {
        self.clock = self.clock.later(now);
        match decide(&self.cache, self.clock, bytes)? {
            Decision::Dropped => Ok(Looked::Dropped),
            Decision::Reply(octets) => Ok(Looked::Reply(octets)),
            Decision::Unread(octets, _) => Ok(Looked::Reply(octets)),
            Decision::Miss(_, _) => Ok(Looked::Miss),
        }
    }

    /// The frames of all that a site holds, for its peers. Nothing changes; it can run out of memory
    /// only where something is held.
    pub fn sweep(&self) -> Result<Vec<Octets<A>, A>, AllocError>
        ensures sweeps { (m : SiteModel) → StandsFor self.now m
            → IfOk result (λ frames. IsSweep m frames.items) }
        ensures memory { OnErr result (self.now.cache.items ≢ []) }
    {
        sweep(*self.cache.allocator(), &self.cache)
    }

    /// Takes in all that another site holds, and purges to its floor, which the clock then reaches too;
    /// says how many observations were given. So the model takes in all that the other's model took.
    /// Where memory runs short for one, those before it were taken, and floor and clock stay.
    pub fn merge(&mut self, other: &Site<A>) -> Result<usize, SiteFault>
        ensures gathers { (m : SiteModel) → StandsFor self.old m
            → (from : SiteModel) → StandsFor other.now from → Gathers m from result self.new }
        ensures config { self.new.config ≡ self.old.config }
    {
        let count = other.cache.len();
        match self.cache.merge(&other.cache) {
            Ok(()) => {
                self.clock = self.clock.later(self.cache.floor());
                Ok(count)
            }
            Err(stopped) => Err(SiteFault::OutOfMemory {
                taken: stopped.taken,
            }),
        }
    }
}
